//! The first two names that would become one.

ghost use Rattle.std.specs.Prelude.{◌≡◌, ◌||◌, None, IfOk, IfSome, Contains, option_map, option_copied};
ghost use Rattle.std.specs.List.{find};
ghost use Rattle.desk_packages.specs.Keys.{RiseBy};
ghost use Rattle.desk_base.specs.Names.{Text as TextOf};
ghost use Rattle.desk_graph.specs.Application.{with_other, clash_among};
ghost use Rattle.desk_graph.specs.Tables.{holds, is_name, HoldsShared, IsKnownBy, meets_known};
ghost use Rattle.desk_graph.specs.Nodes.{IsTable, firsts, defined_of};
ghost use Rattle.desk_graph.specs.Clashes.{clash_pair};

use crate::known::NameAndImage;
use crate::names::{holds, put};
use desk_base::Memory;
use desk_class::Marked;
use desk_packages::place_of;
use std::alloc::Global;
use std::collections::BTreeSet;

/// Whether an image was seen, or is itself a name of a table.
fn is_met<'a>(known: &[NameAndImage], seen: &BTreeSet<Marked<'a>>, image: &'a [u8]) -> bool
    requires { RiseBy (λ k. k.0) known.now }
    ensures { result ≡ (holds seen.now image.now || is_name known.now image.now) }
{
    holds(seen, image) || place_of(known, image).is_some()
}

/// The images that two names have, or more. A name that doesn't change is its own image, so that only those that change are
/// looked at.
fn shared_images<'a>(
    alloc: Global,
    known: &'a [NameAndImage],
) -> Result<BTreeSet<Marked<'a>>, Memory>
    requires { RiseBy (λ k. k.0) known.now }
    ensures { IfOk result (λ set. HoldsShared (holds set) known.now) }
{
    let mut seen = BTreeSet::new(alloc);
    let mut shared = BTreeSet::new(alloc);
    for one in known {
        if one.changes() {
            let image = one.image();
            if is_met(known, &seen, image) {
                put(&mut shared, image)?;
            } else {
                put(&mut seen, image)?;
            }
        }
    }
    Ok(shared)
}

/// The first other name with the image of a name.
fn first_other<'a>(known: &'a [NameAndImage], one: &NameAndImage) -> Option<&'a NameAndImage>
    ensures { option_copied result ≡ find (meets_known one.now) known.now }
{
    known.iter().find(|other| one.name() != other.name() && one.image() == other.image())
}

/// A name that is defined, and another with its image.
#[derive(Clone, Copy)]
pub struct NameClash<'a> {
    /// The name that a class of the application defines.
    pub defined: &'a NameAndImage,
    /// The first other name with the same image.
    pub other: &'a NameAndImage,
}

/// A name with the first other name that has its image.
fn clash_of<'a>(
    known: &'a [NameAndImage],
    shared: &BTreeSet<Marked<'a>>,
    one: &'a NameAndImage,
) -> Option<NameClash<'a>>
    requires shared { HoldsShared (holds shared.now) known.now }
    requires there { Contains known.now one.now }
    ensures pair { option_map clash_pair result ≡ with_other one.now.0 (option_map (λ k. k.0) (find (meets_known one.now) known.now)) None }
    ensures same { IfSome result (λ clash. clash.defined.now ≡ one.now) }
{
    if !holds(shared, one.image()) {
        return None;
    }
    match first_other(known, one) {
        Some(other) => Some(NameClash {
            defined: one,
            other,
        }),
        None => None,
    }
}

/// The first defined name that shares its image with another name, and the first such other name. The only error is want
/// of memory. It takes the time of a few look-ups for each name.
pub fn first_clash<'a>(
    alloc: Global,
    known: &'a [NameAndImage],
    nodes: &[Option<u32>],
) -> Result<Option<NameClash<'a>>, Memory>
    requires { IsTable known.now nodes.now }
    ensures known { IfOk result (λ c. IfSome c (λ clash. Contains known.now clash.defined.now)) }
    ensures pair { IfOk result (λ c. (f : TextOf → TextOf) → IsKnownBy f known.now
        → option_map clash_pair c ≡ clash_among f (firsts known.now) (defined_of (firsts known.now) nodes.now)) }
{
    let shared = shared_images(alloc, known)?;
    for place in 0..known.len() {
        if nodes[place].is_some() {
            let clash = clash_of(known, &shared, &known[place]);
            if clash.is_some() {
                return Ok(clash);
            }
        }
    }
    Ok(None)
}

//! The first class that would be left behind.

ghost use Rattle.std.specs.Prelude.{◌≡◌, None, option_map};
ghost use Rattle.desk_base.specs.Names.{Text as TextOf};
ghost use Rattle.desk_graph.specs.Application.{strands, stranded_at, stranded_among, is_before, earlier, least_onto};
ghost use Rattle.desk_graph.specs.Strandings.{stranding_pair};
ghost use Rattle.desk_graph.specs.Tables.{IsKnownBy};
ghost use Rattle.desk_graph.specs.Nodes.{IsTable, firsts, defined_of};

use crate::known::NameAndImage;
use crate::scanned::Scanned;
use desk_base::Text;
use desk_packages::place_of;
use std::cmp::Ordering;

/// The path of an unselected class, and a defined name that it holds and that changes.
#[derive(Clone, Copy)]
pub struct Stranding<'a> {
    /// The path of the class that isn't selected, relative to the root of the source.
    pub path: &'a Text,
    /// The name that it holds and that would be renamed away from it, with `/` between packages.
    pub name: &'a [u8],
}

/// Whether one stands before another, by their paths and then by their names.
fn is_before(one: Stranding<'_>, other: Stranding<'_>) -> bool
    ensures { result ≡ is_before (stranding_pair one.entry) (stranding_pair other.entry) }
{
    match one.path.cmp(other.path) {
        Ordering::Less => true,
        Ordering::Equal => one.name < other.name,
        Ordering::Greater => false,
    }
}

/// The earlier of two.
fn earlier<'a>(best: Option<Stranding<'a>>, other: Stranding<'a>) -> Option<Stranding<'a>>
    ensures { option_map stranding_pair result ≡ earlier (option_map stranding_pair best.entry) (stranding_pair other.entry) }
{
    match best {
        None => Some(other),
        Some(best) => {
            if is_before(other, best) {
                Some(other)
            } else {
                Some(best)
            }
        }
    }
}

/// Whether a name is defined and changes.
fn strands(known: &[NameAndImage], nodes: &[Option<u32>], name: &[u8]) -> bool
    requires { IsTable known.now nodes.now }
    ensures { (f : TextOf → TextOf) → IsKnownBy f known.now → result ≡ strands f (defined_of (firsts known.now) nodes.now) name.now }
{
    match place_of(known, name) {
        Some(place) => nodes[place].is_some() && known[place].changes(),
        None => false,
    }
}

/// The earliest of what was found and of what an unselected class holds.
fn earliest_at<'a>(
    known: &[NameAndImage],
    nodes: &[Option<u32>],
    class: &'a Scanned,
    found: Option<Stranding<'a>>,
) -> Option<Stranding<'a>>
    requires { IsTable known.now nodes.now }
    ensures { (f : TextOf → TextOf) → IsKnownBy f known.now → option_map stranding_pair result
        ≡ least_onto (option_map stranding_pair found.entry) (stranded_at f (defined_of (firsts known.now) nodes.now) class.now.path class.now.held) }
{
    let mut best = found;
    for place in 0..class.held.len() {
        let name = class.held.get(place);
        if strands(known, nodes, name) {
            best = earlier(
                best,
                Stranding {
                    path: &class.path,
                    name,
                },
            );
        }
    }
    best
}

/// The first unselected class that holds a defined name that changes, and its first such name. It takes no memory, and the
/// time of a look-up for each name that an unselected class holds.
pub fn first_stranded<'a>(
    known: &[NameAndImage],
    nodes: &[Option<u32>],
    classes: &'a [Scanned],
) -> Option<Stranding<'a>>
    requires { IsTable known.now nodes.now }
    ensures { (f : TextOf → TextOf) → IsKnownBy f known.now → option_map stranding_pair result
        ≡ least_onto None (stranded_among f (defined_of (firsts known.now) nodes.now) classes.now) }
{
    let mut best = None;
    for class in classes {
        let selected = class.selected;
        if !selected {
            best = earliest_at(known, nodes, class, best);
        }
    }
    best
}

//! How many defined names each class holds.

ghost use Rattle.std.specs.Prelude.{◌≡◌, IfOk, map, count_by};
ghost use Rattle.desk_graph.specs.Tables.{holds};

use crate::names::holds;
use crate::scanned::Scanned;
use desk_base::Memory;
use desk_class::{HeldNames, Marked};
use std::alloc::Global;
use std::collections::BTreeSet;

/// How many of the names that a class holds are defined. The only error is want of memory, as which 2^32 such names of one class
/// count.
fn count_held<'a>(defined: &BTreeSet<Marked<'a>>, held: &'a HeldNames) -> Result<u32, Memory>
    ensures { IfOk result (λ count. count ≡ count_by (holds defined.now) held.now) }
{
    let mut count = 0usize;
    for place in 0..held.len() {
        if holds(defined, held.get(place)) {
            count = count + 1;
        }
    }
    u32::try_from(count).map_err(|_| Memory)
}

/// Of each class, in their order, how many of the names that it holds are defined. It takes the time of a look-up for each name.
/// The only error is want of memory.
pub fn count_links<'a>(
    alloc: Global,
    defined: &BTreeSet<Marked<'a>>,
    classes: &'a [Scanned],
) -> Result<Vec<u32>, Memory>
    ensures { IfOk result (λ counts. counts.items ≡ map (λ s. count_by (holds defined.now) s.held) classes.now) }
{
    let mut counts = Vec::with_capacity(alloc, classes.len())?;
    for class in classes {
        counts.push(count_held(defined, &class.held)?)?;
    }
    Ok(counts)
}

//! The nodes of a graph: the defined names, numbered in byte order.

ghost use Rattle.std.specs.Prelude.{◌≡◌, IfOk, MatchOption};
ghost use Rattle.desk_packages.specs.Keys.{IsNowhere, IsPlaceOf};
ghost use Rattle.desk_graph.specs.Tables.{as_is, holds};
ghost use Rattle.desk_graph.specs.Nodes.{IsTable, firsts, defined_of, nodes_from};

use crate::known::NameAndImage;
use crate::name::Name;
use crate::names::holds;
use desk_base::Memory;
use desk_class::Marked;
use desk_packages::place_of;
use std::alloc::Global;
use std::collections::BTreeSet;

/// Of names in byte order, the number of each that a set holds, counted from 0. The only error is want of memory.
pub fn nodes_of<'a>(
    alloc: Global,
    names: &[Name<'a>],
    defined: &BTreeSet<Marked<'a>>,
) -> Result<Vec<Option<u32>>, Memory>
    ensures { IfOk result (λ nodes. nodes.items ≡ nodes_from (holds defined.now) 0 names.now) }
{
    let mut nodes = Vec::with_capacity(alloc, names.len())?;
    let mut count = 0usize;
    for name in names {
        if holds(defined, name.bytes()) {
            nodes.push(Some(u32::try_from(count).map_err(|_| Memory)?))?;
            count = count + 1;
        } else {
            nodes.push(None)?;
        }
    }
    Ok(nodes)
}

/// Where a name stands among the defined names, if it is one.
pub fn node_in(known: &[NameAndImage], nodes: &[Option<u32>], name: &[u8]) -> Option<u32>
    requires { IsTable known.now nodes.now }
    ensures { MatchOption result (IsNowhere as_is (defined_of (firsts known.now) nodes.now) name.now) (IsPlaceOf as_is (defined_of (firsts known.now) nodes.now) name.now) }
{
    match place_of(known, name) {
        Some(place) => nodes[place],
        None => None,
    }
}

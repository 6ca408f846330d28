//! Class roots and kinds of paths, and where files go.

use crate::told;
use desk_base::Memory;
use desk_paths::{place, renamed_path, target};
use desk_rules::RuleSet;
use std::alloc::Global;
use test_cases::Shown;

/// Tells a path's class root, its rest and its kind.
pub fn tell_place(path: &[u8], out: &mut String) -> Result<(), Memory> {
    let placed = place(path);
    let (root, rest, kind) = (Shown(placed.root), Shown(placed.rest), placed.kind);
    Ok(writeln!(out, "  {root} {rest} {kind:?}")?)
}

/// Tells where a file goes, were it selected, and where it does go.
pub fn tell_goal(
    alloc: Global,
    rules: &RuleSet,
    path: &[u8],
    out: &mut String,
) -> Result<(), Memory> {
    told::bytes(out, renamed_path(alloc, rules, path)?.as_bytes())?;
    told::bytes(out, target(alloc, rules, path)?.as_bytes())
}

//! Files under another name than that of their path: a disk may take upper and lower case for the same.

ghost use Rattle.std.specs.Prelude.{◌≡◌, ◌+◌, ◌-◌, ◌≤◌, ◌<◌, ◌↔◌, ◌⊎◌, Some, None, IsTrue};

use crate::guard::start_of;
use crate::open::fault_of;
use desk_base::{Memory, Text};
use desk_faults::Refusal;
use desk_places::Node;
use std::alloc::Global;
use std::{fs, str};

/// A letter of ASCII in its other case; none of any other byte.
fn other_case(byte: u8) -> Option<u8>
    ensures lower { 97 ≤ byte → byte ≤ 122 → result ≡ Some (byte - 32) }
    ensures upper { 65 ≤ byte → byte ≤ 90 → result ≡ Some (byte + 32) }
    ensures other { (byte < 65) ⊎ ((90 < byte) × (byte < 97)) ⊎ (122 < byte) → result ≡ None }
{
    match byte {
        b'a'..=b'z' => Some(byte - 32),
        b'A'..=b'Z' => Some(byte + 32),
        _ => None,
    }
}

/// A path with its last letter from a byte on in the other case; none where no letter stands there.
fn in_other_case(alloc: Global, path: &[u8], start: usize) -> Result<Option<Text>, Memory> {
    for (place, byte) in path.iter().enumerate().skip(start).rev() {
        if let Some(other) = other_case(*byte) {
            let mut changed = Text::from_bytes(alloc, path.get(..place).unwrap_or_default())?;
            changed.push(other)?;
            changed.append(path.get(place.saturating_add(1)..).unwrap_or_default())?;
            return Ok(Some(changed));
        }
    }
    Ok(None)
}

/// Whether what is found at a path is found at another path, too.
fn is_also_at(found: Node, other: Option<Node>) -> bool
    ensures { IsTrue result ↔ (other ≡ Some found) }
{
    match other {
        Some(other) => found == other,
        None => false,
    }
}

/// The node of what stands at a path, if the system tells of anything there. A link isn't followed.
fn node_at(rt: &HostRuntime, path: &str) -> Option<Node> {
    let found = fs::symlink_metadata(rt, path).ok()?;
    Some(Node::of(&found))
}

/// Whether the disk takes upper and lower case of a path behind its root for the same.
fn takes_cases_for_one(rt: &HostRuntime, root: &str, path: &str) -> Result<bool, Refusal> {
    let Some(other) = in_other_case(rt.alloc(), path.as_bytes(), start_of(root))? else {
        return Ok(false);
    };
    match (node_at(rt, path), str::from_utf8(other.as_bytes())) {
        (Some(found), Ok(other)) => Ok(is_also_at(found, node_at(rt, other))),
        _ => Ok(false),
    }
}

/// Whether a folder lists an entry of this very name.
fn lists(rt: &HostRuntime, folder: &str, name: &str) -> Result<bool, Refusal> {
    for entry in fs::read_dir(rt, folder).map_err(fault_of)? {
        if entry.map_err(fault_of)?.file_name() == name {
            return Ok(true);
        }
    }
    Ok(false)
}

/// Whether what stands at a path is listed in its folder by the name that it has in the path.
fn is_listed(rt: &HostRuntime, path: &str) -> Result<bool, Refusal> {
    match path.rsplit_once('/') {
        Some(("", name)) => lists(rt, "/", name),
        Some((folder, name)) => lists(rt, folder, name),
        None => lists(rt, ".", path),
    }
}

/// Whether all on the way from a root to a path, and what stands at the path, is listed by its name.
fn is_listed_below(rt: &HostRuntime, root: &str, path: &str) -> Result<bool, Refusal> {
    for (end, _) in path.match_indices('/') {
        if start_of(root) < end {
            match path.split_at_checked(end) {
                Some((front, _)) if !is_listed(rt, front)? => return Ok(false),
                _ => {}
            }
        }
    }
    is_listed(rt, path)
}

/// Whether what stands at a path below a root has another name on the disk, or a folder on the way has. Names are looked up only
/// on a disk that takes upper and lower case for the same.
pub(crate) fn is_of_another_name(
    rt: &HostRuntime,
    root: &str,
    path: &str,
) -> Result<bool, Refusal> {
    Ok(takes_cases_for_one(rt, root, path)? && !is_listed_below(rt, root, path)?)
}

//! What may not stand in place of folders.

ghost use Rattle.std.specs.Prelude.{◌≡◌, ◌≤◌, ◌<◌, ℕ, Some, Ok, Err, true, false, IfOk, length, slice_get, take};
ghost use Rattle.std.specs.Fs.{IsSymlink};
ghost use Rattle.desk_base.specs.Names.{slash};
ghost use Rattle.desk_places.specs.Places.{holds};
ghost use Rattle.desk_disk.specs.Disk.{IsOnTheWay};
ghost use Rattle.desk_faults.specs.declared.causes.Cause.TheVariants as cause;

use crate::open::{fault_of, is_missing};
use desk_faults::{Cause, Refusal};
use desk_places::{Node, Nodes};
use std::fs::{self, FileType};

/// Where the paths below a root begin to be looked at: behind the root.
pub(crate) fn start_of(root: &str) -> usize {
    if root == "." || root == "/" {
        0
    } else {
        root.len()
    }
}

/// Whether files may be made below what stands in place of a folder: it is no link, and none of the nodes on the way to what is read,
/// or below it.
fn may_hold(kind: FileType, node: Node, read: &Nodes) -> Result<(), Cause>
    ensures link { IsSymlink kind → result ≡ Err cause.Link }
    ensures read { ¬ IsSymlink kind → holds read.now node ≡ true → result ≡ Err cause.HoldsRead }
    ensures apart { ¬ IsSymlink kind → holds read.now node ≡ false → result ≡ Ok tt }
{
    if kind.is_symlink() {
        Err(Cause::Link)
    } else if read.holds(node) {
        Err(Cause::HoldsRead)
    } else {
        Ok(())
    }
}

/// Whether a folder is there. A link there is refused, and so is one of the nodes on the way to what is read, or below it.
fn is_there(rt: &HostRuntime, folder: &str, read: &Nodes) -> Result<bool, Refusal> {
    match fs::symlink_metadata(rt, folder) {
        Ok(found) => {
            may_hold(found.file_type(), Node::of(&found), read)?;
            Ok(true)
        }
        Err(error) if is_missing(&error) => Ok(false),
        Err(error) => Err(fault_of(error)),
    }
}

/// Up to which byte of a path the folders that end before it were found already: they are on the way to the folder that was found
/// last, or are that folder.
pub(crate) fn known_end(found: &[u8], path: &[u8]) -> usize
    ensures { (end : ℕ) → end < result → slice_get path.now end ≡ Some slash → IsOnTheWay (take end path.now) found.now }
{
    let mut shared = 0;
    while shared < found.len() && shared < path.len() && found[shared] == path[shared] {
        shared += 1;
    }
    if shared == found.len() {
        shared + 1
    } else {
        shared
    }
}

/// Looks at each folder from a root to a path, but for those that end before the byte up to which they were found already. One that is
/// a link is refused, and one with a node on the way to what is read, or below it; below one that is missing none is there. The answer
/// is where the last of them ends that is there, or 0.
pub(crate) fn last_folder(
    rt: &HostRuntime,
    root: &str,
    path: &str,
    known: usize,
    read: &Nodes,
) -> Result<usize, Refusal> {
    let mut last = 0;
    for (end, _) in path.match_indices('/') {
        if start_of(root) < end {
            match path.split_at_checked(end) {
                Some((folder, _)) if known <= end && !is_there(rt, folder, read)? => return Ok(
                    last,
                ),
                _ => last = end,
            }
        }
    }
    Ok(last)
}

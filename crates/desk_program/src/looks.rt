//! Looks at folders behind a run. What can't be looked at is as if it weren't there.

use desk_base::{Memory, Text, TextList};
use desk_disk::DiskFolders;
use desk_folders::{FolderFault, Folders, is_full};

/// How many files of a source or a target are looked at.
pub(crate) const MOST_PATHS: u32 = 200_000;

/// A path below a root.
pub(crate) fn path_below(root: &Text, name: &[u8]) -> Result<Text, Memory> {
    let mut path = root.clone()?;
    path.push(b'/')?;
    path.append(name)?;
    Ok(path)
}

/// The first bytes of the file of a name below a root, so many at most.
pub(crate) fn front_of(rt: &HostRuntime, root: &Text, name: &[u8], most: u32) -> Option<Text> {
    if most == 0 {
        return None;
    }
    let path = path_below(root, name).ok()?;
    DiskFolders::new(rt).read_part(&path, 0, most).ok()
}

/// The paths below a root, some `most + 1` of them where there are more than `most`, or why it can't be listed; none of a text that is
/// no root.
pub(crate) fn listing_of(
    rt: &HostRuntime,
    root: &Text,
    most: u32,
) -> Option<Result<TextList, FolderFault>> {
    if !is_full(root.as_bytes()) && root.as_bytes() != b".".as_slice() {
        return None;
    }
    if most > 1_000_000 {
        return None;
    }
    Some(DiskFolders::new(rt).list(root, most))
}

/// The paths below a root, some `most + 1` of them where there are more than `most`; none of a root that isn't there. It isn't told of
/// a root that can't be listed.
pub(crate) fn paths_below(rt: &HostRuntime, root: &Text, most: u32) -> Option<TextList> {
    match listing_of(rt, root, most)? {
        Ok(paths) => Some(paths),
        Err(_) => Some(TextList::empty(rt.alloc())),
    }
}

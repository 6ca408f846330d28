//! Where a root is, as the system tells it.

use crate::upward::nodes_above;
use crate::{Node, Place};
use desk_base::{Memory, Text, TextList};
use std::alloc::Global;
use std::fs::{self, Metadata};
use std::io::{self, ErrorKind};
use std::os::unix::fs::MetadataExt;
use std::str;

impl Node {
    /// The node of what was found.
    pub fn of(found: &Metadata) -> Node {
        Node {
            device: found.dev(),
            inode: found.ino(),
        }
    }
}

/// Whether an error of the system says that nothing is at a path: it isn't there, is below a file, or has a name that is longer than
/// any.
fn is_missing(kind: ErrorKind) -> bool {
    kind == ErrorKind::NotFound
        || kind == ErrorKind::NotADirectory
        || kind == ErrorKind::InvalidFilename
}

/// What is there at a path, if it is; a link is followed.
fn found_at(rt: &HostRuntime, path: &str) -> io::Result<Option<Metadata>> {
    match fs::metadata(rt, path) {
        Ok(found) => Ok(Some(found)),
        Err(error) if is_missing(error.kind()) => Ok(None),
        Err(error) => Err(error),
    }
}

/// The segments of a text behind the first so many.
fn segments_behind(alloc: Global, text: &[u8]) -> Result<TextList, Memory> {
    let mut rest = TextList::empty(alloc);
    for segment in text.split(|byte| *byte == b'/') {
        if !segment.is_empty() {
            rest.push(Text::from_bytes(alloc, segment)?)?;
        }
    }
    Ok(rest)
}

/// The place whose nearest node is found at a front of a path.
fn place_behind(
    rt: &HostRuntime,
    front: &str,
    found: &Metadata,
    behind: &str,
) -> io::Result<Place> {
    let above = nodes_above(rt, front, found)?;
    match segments_behind(rt.alloc(), behind.as_bytes()) {
        Ok(rest) => Ok(Place {
            nearest: Node::of(found),
            above,
            rest,
        }),
        Err(Memory) => Err(io::Error::from(ErrorKind::OutOfMemory)),
    }
}

/// The place of a path, whose front of so many bytes is looked at, if it is there.
fn place_at(rt: &HostRuntime, path: &str, end: usize) -> io::Result<Option<Place>> {
    let Some((front, behind)) = path.split_at_checked(end) else {
        return Ok(None);
    };
    let front = match (front, path.starts_with('/')) {
        ("", true) => "/",
        ("", false) => ".",
        (front, _) => front,
    };
    match found_at(rt, front)? {
        Some(found) => Ok(Some(place_behind(rt, front, &found, behind)?)),
        None => Ok(None),
    }
}

/// Whether a path may be cut behind so many bytes: at its end, at a `/`, and at its start.
fn may_end(path: &str, end: usize) -> bool {
    end == 0 || end == path.len() || path.as_bytes().get(end) == Some(&b'/')
}

/// The place of a root as it is written: the longest front of it that is there. An error where the system refuses to tell, where
/// memory is wanting, and where the root isn't UTF-8.
pub fn place_of(rt: &HostRuntime, root: &Text) -> io::Result<Place> {
    let Ok(path) = str::from_utf8(root.as_bytes()) else {
        return Err(io::Error::from(ErrorKind::InvalidFilename));
    };
    for cut in 0..path.len() + 1 {
        let end = path.len() - cut;
        if may_end(path, end) {
            if let Some(place) = place_at(rt, path, end)? {
                return Ok(place);
            }
        }
    }
    Err(io::Error::from(ErrorKind::NotFound))
}

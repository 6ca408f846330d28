//! The folders above what is there.

use crate::Node;
use std::fs::{self, Metadata};
use std::io::{self, ErrorKind};
use std::path::Path;

/// How many steps upward a path has room for: the system takes no path of more than 4,096 bytes, and a step has three.
const STEPS: usize = 1_366;

/// The nodes above a path without links, from its folder to the top.
fn above_path(rt: &HostRuntime, path: Path<'_>) -> io::Result<Vec<Node>> {
    let mut above = Vec::new(rt.alloc());
    for folder in path.ancestors().skip(1) {
        above.push(Node::of(&fs::metadata(rt, folder)?))?;
    }
    Ok(above)
}

/// The nodes above what is there at a path, by the path without links that leads to it.
fn above_by_path(rt: &HostRuntime, path: &str) -> io::Result<Vec<Node>> {
    let real = fs::canonicalize(rt, path)?;
    above_path(rt, real.as_path())
}

/// The nodes above the node of a folder on the way to the working folder, by the path of that; none where it isn't seen there.
fn above_on_the_way(rt: &HostRuntime, node: Node) -> io::Result<Option<Vec<Node>>> {
    let working = fs::canonicalize(rt, ".")?;
    for folder in working.ancestors() {
        match fs::metadata(rt, folder) {
            Ok(found) if Node::of(&found) == node => return Ok(Some(above_path(rt, folder)?)),
            _ => {}
        }
    }
    Ok(None)
}

/// The nodes that were seen, from one to the next above it, and the rest of them by the path of the working folder. The error at
/// which the steps ended is the answer where that doesn't tell them.
fn with_rest(rt: &HostRuntime, seen: Vec<Node>, error: io::Error) -> io::Result<Vec<Node>> {
    let Some(last) = seen.last() else {
        return Err(error);
    };
    let Ok(Some(rest)) = above_on_the_way(rt, *last) else {
        return Err(error);
    };
    let mut above = seen;
    above.extend_from_slice(&rest)?;
    Ok(above)
}

/// The nodes of a folder and of those above it, by steps upward from it. A step needs leave to enter the folder that it leaves, and
/// nothing of those above. The top is where a step leads nowhere.
fn above_by_steps(rt: &HostRuntime, folder: String) -> io::Result<Vec<Node>> {
    let top = Node::of(&fs::metadata(rt, "/")?);
    let mut above: Vec<Node> = Vec::new(rt.alloc());
    let mut path = folder;
    for _ in 0..STEPS {
        let node = match fs::metadata(rt, path.as_str()) {
            Ok(found) => Node::of(&found),
            Err(error) => return with_rest(rt, above, error),
        };
        if node == top && above.last() == Some(&top) {
            return Ok(above);
        }
        above.push(node)?;
        path.push_str("/..")?;
    }
    Err(io::Error::from(ErrorKind::InvalidFilename))
}

/// The path of the folder of a path.
fn folder_of(path: &str) -> &str {
    match path.rsplit_once('/') {
        Some(("", _)) => "/",
        Some((folder, _)) => folder,
        None => ".",
    }
}

/// A path to the folder above what is there at a path; none of what isn't a folder and is behind a link.
fn path_upward(rt: &HostRuntime, path: &str, found: &Metadata) -> io::Result<Option<String>> {
    if found.is_dir() {
        let mut upward = String::from_str(rt.alloc(), path)?;
        upward.push_str("/..")?;
        return Ok(Some(upward));
    }
    if fs::symlink_metadata(rt, path)?.is_symlink() {
        return Ok(None);
    }
    Ok(Some(String::from_str(rt.alloc(), folder_of(path))?))
}

/// The nodes above what is found at a path, from its folder to the top: by the path without links that leads to it, and, where that
/// is longer than the system takes, or leads through a folder that may not be entered, by steps upward.
pub(crate) fn nodes_above(rt: &HostRuntime, path: &str, found: &Metadata) -> io::Result<Vec<Node>> {
    let refused = match above_by_path(rt, path) {
        Ok(above) => return Ok(above),
        Err(error) if error.kind() == ErrorKind::OutOfMemory => return Err(error),
        Err(error) => error,
    };
    match path_upward(rt, path, found)? {
        Some(folder) => above_by_steps(rt, folder),
        None => Err(refused),
    }
}

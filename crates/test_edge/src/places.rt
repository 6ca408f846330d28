//! Places, and which of them lies in another.

use crate::told;
use crate::words::{number_in, text};
use desk_base::{Memory, Text, TextList};
use desk_places::{Node, Place};
use std::alloc::Global;

/// The node that is written as its inode, on device 1, or as `DEVICE:INODE`.
fn node_of(text: &str) -> Node {
    let (device, inode) = text.split_once(':').unwrap_or(("1", text));
    Node {
        device: u64::from(number_in(device)),
        inode: u64::from(number_in(inode)),
    }
}

/// The nodes above a place, behind the first of these.
fn nodes_above(alloc: Global, nodes: &str) -> Result<Vec<Node>, Memory> {
    let mut above = Vec::new(alloc);
    for node in nodes.split(',').skip(1) {
        above.push(node_of(node))?;
    }
    Ok(above)
}

/// The segments of a path.
fn segments_of(alloc: Global, path: &str) -> Result<TextList, Memory> {
    let mut segments = TextList::empty(alloc);
    for segment in path.split('/') {
        if !segment.is_empty() {
            segments.push(Text::from_bytes(alloc, segment.as_bytes())?)?;
        }
    }
    Ok(segments)
}

/// A place: its node and those above it, joined by `,`, and the path behind it.
fn place(alloc: Global, nodes: &str, rest: &str) -> Result<Box<Place>, Memory> {
    let nearest = node_of(nodes.split(',').next().unwrap_or(""));
    let above = nodes_above(alloc, nodes)?;
    let rest = segments_of(alloc, rest)?;
    let place = Place {
        nearest,
        above,
        rest,
    };
    Ok(Box::new(alloc, place)?)
}

/// Tells whether a place lies in another: nodes and rest of the one, and of the other.
pub fn tell_lies_in(alloc: Global, words: &[Text], out: &mut String) -> Result<(), Memory> {
    let inner = place(alloc, text(words, 0), text(words, 1))?;
    let outer = place(alloc, text(words, 2), text(words, 3))?;
    told::is_so(out, inner.lies_in(&outer))
}

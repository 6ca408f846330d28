//! The standard streams: what stands in their places where the program is started without them, and whether one leads into a file.

ghost use Rattle.std.specs.Prelude.{◌≡◌, ◌≢◌, ◌↔◌, ◌≤ℤ◌, IfSome, IsTrue, None, pos};
ghost use Rattle.std.specs.Fd.{file_raw_fd};

use desk_places::Node;
use std::fs::File;
use std::os::fd::AsRawFd;

/// The greatest descriptor of a standard stream, that of standard error.
const GREATEST: i32 = 2;

/// What stands in place of the standard streams that the program was started without. Otherwise a file that it opens
/// would get the descriptor of one, and what is written to that stream would go into the file. What is written to what stands
/// here is refused.
#[derive(Drop)]
pub struct Streams {
    first: Option<File>,
    second: Option<File>,
    third: Option<File>,
}

/// A folder, open to be read, at the least descriptor that is free, where that is one of a standard stream.
fn in_place_of_stream(rt: &HostRuntime) -> Option<File>
    ensures place { IfSome result (λ folder. file_raw_fd folder ≤ℤ pos 2) }
{
    let folder = File::open(rt, "/").ok()?;
    if folder.as_raw_fd() <= GREATEST {
        Some(folder)
    } else {
        None
    }
}

impl Streams {
    /// Takes the places of the streams that aren't there, until it is dropped.
    pub fn take_places(rt: &HostRuntime) -> Streams {
        Streams {
            first: in_place_of_stream(rt),
            second: in_place_of_stream(rt),
            third: in_place_of_stream(rt),
        }
    }
}

/// Whether a stream that leads to a file is written into another file.
pub fn is_into(stream: Option<Node>, file: Option<Node>) -> bool
    ensures { IsTrue result ↔ ((stream ≢ None) × (file ≡ stream)) }
{
    match (stream, file) {
        (Some(stream), Some(file)) => stream == file,
        _ => false,
    }
}

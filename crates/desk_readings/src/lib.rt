//! The first reading of files: each is read once, in parts of which none is kept or whole, its size and digest are noted, and the
//! classes are scanned on the workers and dropped.
//!
//! ```text
//! let notes = note_all(&workers, alloc, &mut folders, &rules, &from, routes)?;
//! notes.files      // of each file, in their order, its route, how many bytes it has, their digest, and whether it is a class in which
//!                  // nothing changes
//! notes.scanned    // what is kept of the classes among them
//! ```
#![tactic(auto)]

mod contents;
mod faults;
mod gathering;
mod measured;
mod measuring;
mod noting;
mod paths;
mod pending;
mod reader;
mod reading;
mod unread;

pub use contents::Content;
use desk_base::MAX_FILE_SIZE;
pub use faults::NoteFault;
pub use gathering::MeasuredFiles;
pub use measured::{ClassNote, MeasuredFile};
pub use noting::note_all;
pub use paths::full_path;
pub use reader::PartReader;
pub use reading::{digest_of_front, joined, read_whole};

/// How many bytes one call on folders asks for or carries.
pub const PART: u32 = 1_048_576;

/// How many bytes a file may have that is read whole, and the whole files of a batch together.
pub const WHOLE: u64 = MAX_FILE_SIZE as u64;

/// How many bytes the files that are held whole have together, with which a slice ends.
pub const SLICE: u64 = 8_388_608;

/// How many bytes a file may have that is copied in parts.
pub const LARGE: u64 = 1_099_511_627_776;

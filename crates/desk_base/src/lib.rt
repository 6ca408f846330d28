//! What every crate of the desk stands on: texts of bytes, a cursor over them, the words of class files, and want of
//! memory.
//!
//! ```text
//! let bytes = b"\xCA\xFE\xBA\xBE\x00\x00\x00\x41";
//! let mut cursor = Cursor::new(bytes);
//! cursor.u4()?;                            // 0xCAFE_BABE, the magic of a class file
//! cursor.u2()?;                            // 0, the minor version
//! cursor.u2()?;                            // 65, the major version
//! cursor.u1()                              // Err(UnexpectedEnd { at: 8 })
//! ```
#![tactic(auto)]

mod faults;
mod kinds;
mod reading;
mod referents;
mod shown;
mod texts;
mod utf8;
mod views;

pub use faults::{CodeFault, FaultKind, Malformed, ReadFault};
pub use kinds::{Role, Tag, UseKind, Used};
pub use reading::{Cursor, UnexpectedEnd};
pub use referents::{Choice, Form, Referent};
pub use shown::{ShownByte, show_byte};
use std::alloc::{AllocError, AllocFailed};
pub use texts::{Text, TextList};
pub use utf8::check_utf8;
pub use views::{PoolView, Visit};

/// How many bytes a file may have that is read whole: 64 MiB.
pub const MAX_FILE_SIZE: usize = 67_108_864;

/// How many bytes a rule file may have: 1 MiB.
pub const MAX_RULE_FILE_SIZE: usize = 1_048_576;

/// Memory ran out. It is merged with no other fault.
#[derive(Clone, Copy, Debug, PartialEq, Eq)]
pub struct Memory;

/// New bytes, and how many of the things that they were made of changed.
#[derive(Debug, Drop)]
pub struct Changed {
    /// The whole of the new bytes, unchanged parts included.
    pub bytes: Text,
    /// How many names, headers or places of the text have another image than themselves.
    pub changed: u32,
}

impl From<AllocError> for Memory {
    fn from(_: AllocError) -> Memory {
        Memory
    }
}

impl<T: Drop> From<AllocFailed<T>> for Memory {
    fn from(_: AllocFailed<T>) -> Memory {
        Memory
    }
}

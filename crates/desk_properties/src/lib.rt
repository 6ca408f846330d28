//! Property files: their keys and values, or their first fault.
//!
//! ```text
//! let entries = read_properties(alloc, b"# packages\njavax.servlet.* = jakarta.servlet\n")?;
//! entries.len(); // 1: `javax.servlet.*` with `jakarta.servlet`
//! read_properties(alloc, b"a=\\u12"); // Err: Escape { at: 2 }
//! ```
#![tactic(auto)]

ghost use Rattle.std.specs.Prelude.{◌≡◌, ◌≤◌, true, false, Ok, length, OnOk, IfOk, IfErr};
ghost use Rattle.std.specs.Str.{is_utf8};
ghost use Rattle.std.specs.Str.Lossy.{utf8_valid_len};
ghost use Rattle.desk_base.specs.Limits.{rule_size};
ghost use Rattle.desk_properties.specs.Properties.{properties, IsPropError};

mod entries;
mod lines;

use desk_base::{Memory, Text};
use entries::read_entry;
use indexmap::IndexMap;
use lines::{is_passed, next_line, skip_white};
use std::alloc::{AllocFailed, Global};
use std::str;

/// Why bytes are no property file: the first thing in them that isn't read.
#[derive(Clone, Copy, Debug, PartialEq, Eq)]
pub enum PropFault {
    /// The bytes aren't UTF-8; `at` is the offset, from the start of the file, of the first byte that begins no
    /// well-formed character.
    NotUtf8 { at: u32 },
    /// A `\u` without four hexadecimal digits, or with the number of a surrogate; `at` is the offset of its backslash
    /// from the start of the file.
    Escape { at: u32 },
}

/// Why a property file wasn't read: its first fault, or want of memory.
#[derive(Clone, Copy, Debug, PartialEq, Eq)]
pub enum PropError {
    /// The bytes are no property file.
    Fault(PropFault),
    /// Memory ran out.
    Memory,
}

impl From<PropFault> for PropError {
    ghost use Rattle.std.specs.Prelude.{◌≡◌};
    ghost use Rattle.desk_properties.specs.declared.PropError.TheVariants.{Fault};

    ghost from_gives = { λ fault error. error ≡ Fault fault };

    fn from(fault: PropFault) -> PropError {
        PropError::Fault(fault)
    }
}

impl<T: Drop> From<AllocFailed<T>> for PropError {
    ghost use Rattle.std.specs.Prelude.{◌≡◌};
    ghost use Rattle.desk_properties.specs.declared.PropError.TheVariants.{Memory as WantOfMemory};

    ghost from_gives = { λ _ error. error ≡ WantOfMemory };

    fn from(_: AllocFailed<T>) -> PropError {
        PropError::Memory
    }
}

impl From<Memory> for PropError {
    ghost use Rattle.std.specs.Prelude.{◌≡◌};
    ghost use Rattle.desk_properties.specs.declared.PropError.TheVariants.{Memory as WantOfMemory};

    ghost from_gives = { λ _ error. error ≡ WantOfMemory };

    fn from(_: Memory) -> PropError {
        PropError::Memory
    }
}

/// Looks for the first byte that begins no well-formed character.
fn check_characters(bytes: &[u8]) -> Result<(), PropFault>
    requires { length bytes.now ≤ rule_size }
    ensures well { OnOk result (is_utf8 bytes.now ≡ true) }
    ensures refused { IfErr result (λ fault. (is_utf8 bytes.now ≡ false) × (fault ≡ PropFault.NotUtf8 (utf8_valid_len bytes.now))) }
{
    match str::from_utf8(bytes) {
        Ok(_) => Ok(()),
        Err(error) => Err(PropFault::NotUtf8 {
            at: error.valid_up_to() as u32,
        }),
    }
}

/// The keys of a property file, each with its last value, in the order in which the keys first stand. A file has at most
/// 1,048,576 bytes of UTF-8, of which no byte order mark is dropped. Its line format is that of `java.util.Properties`:
/// lines, comments, continued lines, keys, values and escapes; but a line that continues another is never a comment, and
/// a `\u` with the number of a surrogate is a fault. `NotUtf8` comes exactly where the file isn't UTF-8, at the first byte
/// that begins no well-formed character; `Escape` exactly where it is, and some `\u` is faulty, at the first. The only
/// other error is want of memory.
pub fn read_properties(alloc: Global, bytes: &[u8]) -> Result<IndexMap<Text, Text>, PropError>
    requires { length bytes.now ≤ rule_size }
    ensures read { IfOk result (λ entries. properties bytes.now ≡ Ok entries.entries) }
    ensures refused { IfErr result (IsPropError bytes.now) }
{
    check_characters(bytes)?;
    let mut entries = IndexMap::new(alloc);
    let mut at = 0;
    while at < bytes.len() {
        let start = skip_white(bytes, at);
        if is_passed(bytes, start) {
            at = next_line(bytes, start);
        } else {
            let entry = read_entry(alloc, bytes, start)?;
            entries.insert(entry.key, entry.value)?;
            at = entry.next;
        }
    }
    Ok(entries)
}

//! A fault: what was tried, on which path, and why it failed.

ghost use Rattle.std.specs.Prelude.{◌≡◌, IfOk, OnOk, ◌++◌};
ghost use Rattle.std.specs.List.{flat_map};
ghost use Rattle.desk_base.specs.Shown.{shown, shown_byte};
ghost use Rattle.desk_faults.specs.Lines.{fault_text, tried_text};

use crate::Cause;
use desk_base::{Memory, Text, show_byte};
use std::alloc::Global;

/// What was tried as a call on the outside failed.
#[derive(Clone, Copy, Debug, PartialEq, Eq)]
pub enum Tried {
    /// It was asked where a root lies on the disk.
    Placing,
    /// A folder was listed.
    Listing,
    /// A file was read.
    Reading,
    /// A file was made, with the folders on the way.
    Making,
    /// Bytes were added to a file.
    Writing,
    /// A ledger was opened, and read.
    Opening,
    /// A ledger was written to.
    Keeping,
}

impl Tried {
    /// What was tried, as it is told.
    fn name(self) -> &'static [u8]
        ensures { result.now ≡ tried_text self }
    {
        match self {
            Tried::Placing => b"finding the place of",
            Tried::Listing => b"listing",
            Tried::Reading => b"reading",
            Tried::Making => b"making",
            Tried::Writing => b"writing",
            Tried::Opening => b"opening the ledger",
            Tried::Keeping => b"writing the ledger",
        }
    }
}

/// What failed outside: what was tried, on which path, and the words of the cause.
#[derive(Debug, Drop)]
pub struct Fault {
    /// The call that failed.
    pub tried: Tried,
    /// The full path that the call was given.
    pub path: Text,
    /// The cause in words, as they are told behind the path.
    pub words: Text,
}

impl Fault {
    /// The fault of a cause. The only error is want of memory.
    pub fn of(alloc: Global, tried: Tried, path: &Text, cause: Cause) -> Result<Fault, Memory>
        ensures tried { IfOk result (λ fault. fault.tried ≡ tried) }
        ensures path { IfOk result (λ fault. fault.path ≡ path.now) }
    {
        let path = path.clone()?;
        let words = cause.words(alloc)?;
        Ok(Fault { tried, path, words })
    }
}

/// Adds the bytes of a text, each as it is shown.
fn append_bytes(line: &mut Text, text: &[u8]) -> Result<(), Memory>
    ensures { OnOk result (line.new ≡ line.old ++ flat_map shown_byte text.now) }
{
    for byte in text {
        line.append(show_byte(*byte).as_bytes())?;
    }
    Ok(())
}

/// Adds a text as it is shown.
fn append_shown(line: &mut Text, text: &[u8]) -> Result<(), Memory>
    ensures { OnOk result (line.new ≡ line.old ++ shown text.now) }
{
    if text.is_empty() {
        line.append(b"\\-")
    } else {
        append_bytes(line, text)
    }
}

/// The line of a fault: `migrate: `, what was tried, the path as it is shown, `: `, the words, and a line end.
/// The only error is want of memory.
pub fn fault_line(alloc: Global, fault: &Fault) -> Result<Text, Memory>
    ensures { IfOk result (λ line. line ≡ fault_text fault.now) }
{
    let mut line = Text::from_bytes(alloc, b"migrate: ")?;
    line.append(fault.tried.name())?;
    line.append(b" ")?;
    append_shown(&mut line, fault.path.as_bytes())?;
    line.append(b": ")?;
    line.append(fault.words.as_bytes())?;
    line.append(b"\n")?;
    Ok(line)
}

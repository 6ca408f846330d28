//! Why the outside refused.

ghost use Rattle.std.specs.Prelude.{◌≡◌, ◌≢◌};
ghost use Rattle.std.specs.IoError.{error_kind};

use desk_base::{Memory, Text};
use std::alloc::{AllocError, AllocFailed, Global};
use std::io::{self, ErrorKind};

/// Why the outside refused a call, or why its answer can't be used.
#[derive(Clone, Copy, Debug)]
pub enum Cause {
    /// The system's error.
    System(io::Error),
    /// A symbolic link stands where a file or a folder is wanted.
    Link,
    /// A folder stands where a file is wanted.
    Folder,
    /// What stands there is neither a file nor a folder: a pipe, a device or a socket.
    Special,
    /// Another file stands at the path than the one that was found there just before it was opened.
    Exchanged,
    /// A file that the disk takes for one of another name, as one that differs in upper and lower case alone.
    OtherName,
    /// What stands in the rule folder or the source by which the target or the ledger is reached: it is one of them, or holds one.
    HoldsWritten,
    /// A folder in the target by which the rule folder, the source or the ledger is reached, or that is a folder in one of the first two.
    HoldsRead,
    /// A path that isn't UTF-8.
    NotText,
    /// A folder that holds more than 1,000,000 entries, folders included.
    Entries,
    /// An entry that was found twice, or whose name is no name of a file.
    Twice,
    /// A ledger that another program has open.
    Busy,
    /// A ledger whose file is no database, or one that is damaged.
    Unsound,
    /// A database with other tables than those of a ledger.
    Tables,
    /// A ledger whose rows belong to relative roots of another working folder.
    Elsewhere,
    /// A ledger on a disk that is full.
    Full,
    /// A ledger that can't be opened or made, and for which the system has no word.
    Unopened,
    /// A statement that the database refused.
    Statement,
    /// A ledger that standard output or standard error is written into.
    Stream,
}

impl Cause {
    /// The words of a cause that isn't the system's; none of the system's.
    fn own_words(self) -> &'static [u8] {
        match self {
            Cause::System(_) => b"",
            Cause::Link => b"it is a symbolic link, which isn't followed",
            Cause::Folder => b"it is a folder",
            Cause::Special => b"it is neither a file nor a folder",
            Cause::Exchanged => b"another file took its place while it was opened",
            Cause::OtherName => b"the disk takes it for a file of another name that is there",
            Cause::HoldsWritten => b"the target or the ledger lies in it",
            Cause::HoldsRead => {
                b"the source, the rules or the ledger lies in it, or it lies in one of them"
            }
            Cause::NotText => b"the path isn't UTF-8",
            Cause::Entries => b"it holds more than 1,000,000 entries",
            Cause::Twice => b"it was found twice, or its name is no name of a file",
            Cause::Busy => b"another program has it open",
            Cause::Unsound => b"it is no database, or a damaged one",
            Cause::Tables => b"it is a database with other tables",
            Cause::Elsewhere => b"its relative roots belong to another working folder",
            Cause::Full => b"No space left on device",
            Cause::Unopened => b"it can't be opened or made",
            Cause::Statement => b"the database refused it",
            Cause::Stream => b"standard output or standard error is written into it",
        }
    }

    /// The words of the cause, as `Permission denied`. The only error is want of memory.
    pub fn words(self, alloc: Global) -> Result<Text, Memory> {
        match self {
            Cause::System(error) => system_words(alloc, error),
            cause => Text::from_bytes(alloc, cause.own_words()),
        }
    }
}

/// The words of an error of the system, without its number.
fn system_words(alloc: Global, error: io::Error) -> Result<Text, Memory> {
    if error.kind() == ErrorKind::InvalidFilename && error.raw_os_error().is_none() {
        return Text::from_bytes(alloc, b"a name in it isn't UTF-8");
    }
    let Ok(shown) = format!(in alloc; "{error}") else {
        return Err(Memory);
    };
    match shown.as_str().split_once(" (os error ") {
        Some((words, _)) => Text::from_bytes(alloc, words.as_bytes()),
        None => Text::from_bytes(alloc, shown.as_bytes()),
    }
}

/// Why a call on the outside has no answer.
#[derive(Clone, Copy, Debug)]
pub enum Refusal {
    /// Memory ran out.
    Memory,
    /// The outside refused the call, or an answer of it can't be used.
    Failed(Cause),
}

impl From<Memory> for Refusal {
    ghost use Rattle.std.specs.Prelude.{◌≡◌};
    ghost use Rattle.desk_faults.specs.declared.causes.Refusal.TheVariants as case;

    ghost from_gives = { λ _ it. it ≡ case.Memory };

    fn from(_: Memory) -> Refusal {
        Refusal::Memory
    }
}

impl From<AllocError> for Refusal {
    ghost use Rattle.std.specs.Prelude.{◌≡◌};
    ghost use Rattle.desk_faults.specs.declared.causes.Refusal.TheVariants as case;

    ghost from_gives = { λ _ it. it ≡ case.Memory };

    fn from(_: AllocError) -> Refusal {
        Refusal::Memory
    }
}

impl<T: Drop> From<AllocFailed<T>> for Refusal {
    ghost use Rattle.std.specs.Prelude.{◌≡◌};
    ghost use Rattle.desk_faults.specs.declared.causes.Refusal.TheVariants as case;

    ghost from_gives = { λ _ it. it ≡ case.Memory };

    fn from(_: AllocFailed<T>) -> Refusal {
        Refusal::Memory
    }
}

impl From<Cause> for Refusal {
    ghost use Rattle.std.specs.Prelude.{◌≡◌};
    ghost use Rattle.desk_faults.specs.declared.causes.Refusal.TheVariants as case;

    ghost from_gives = { λ cause it. it ≡ case.Failed cause };

    fn from(cause: Cause) -> Refusal {
        Refusal::Failed(cause)
    }
}

/// What an error of the system means: want of memory is told apart from all others.
pub fn refusal_of(error: io::Error) -> Refusal
    ensures memory { error_kind error ≡ ErrorKind.OutOfMemory → result ≡ Refusal.Memory }
    ensures failed { error_kind error ≢ ErrorKind.OutOfMemory → result ≡ Refusal.Failed (Cause.System error) }
{
    if error.kind() == ErrorKind::OutOfMemory {
        Refusal::Memory
    } else {
        Refusal::Failed(Cause::System(error))
    }
}

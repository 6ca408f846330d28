//! The hint behind a status where more is known of a folder that was listed.

ghost use Rattle.std.specs.Prelude.{◌≡◌};
ghost use Rattle.desk_hints.specs.Hints.{folder_hint, hint_behind, listed_as, listed_by};

use crate::hints::{Hint, hint_of};
use desk_faults::{Fault, Tried};
use desk_report::Status;

/// What stood where a folder was listed, as far as the fault of that call tells it. The folders that are listed first are those
/// that the words name, and one below them was seen as a folder before: so this is what stood in place of a folder of the words.
#[derive(Clone, Copy, Debug, PartialEq, Eq)]
pub enum Listed {
    /// A file.
    File,
    /// Nothing.
    Nothing,
    /// Something else, or no folder was listed.
    Unknown,
}

/// What the system's words say of a listing that failed.
fn listed_by_words(words: &[u8]) -> Listed
    ensures { result ≡ listed_by words.now }
{
    if words == b"Not a directory".as_slice() {
        Listed::File
    } else if words == b"No such file or directory".as_slice() {
        Listed::Nothing
    } else {
        Listed::Unknown
    }
}

/// What stood where a folder was listed, by the last fault of the folders.
pub fn listed_by(fault: &Fault) -> Listed
    ensures { result ≡ listed_as fault.now.tried fault.now.words }
{
    match fault.tried {
        Tried::Listing => listed_by_words(fault.words.as_bytes()),
        _ => Listed::Unknown,
    }
}

/// The hint of a fault of the folders.
fn folder_hint(listed: Listed) -> Hint
    ensures { result ≡ folder_hint listed }
{
    match listed {
        Listed::File => Hint::FileAsFolder,
        Listed::Nothing => Hint::NoFolder,
        Listed::Unknown => Hint::Folders,
    }
}

/// The hint of a status, by what is known of the folder that was listed last; none of `Done`.
pub fn hint_behind(status: &Status, listed: Listed) -> Option<Hint>
    ensures { result ≡ hint_behind status.now listed }
{
    match status {
        Status::FolderFault { .. } => Some(folder_hint(listed)),
        _ => hint_of(status),
    }
}

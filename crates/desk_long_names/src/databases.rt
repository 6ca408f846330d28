//! What may be opened as a database.

ghost use Rattle.std.specs.Prelude.{◌≡◌, ◌≢◌, ◌↔◌, IsTrue};
ghost use Rattle.std.specs.IoError.{error_kind};
ghost use Rattle.desk_long_names.specs.Databases.{IsHalfMade, IsStart, MayBegin};

use desk_faults::{Cause, Refusal, refusal_of};
use std::fs::{self, File, OpenOptions};
use std::io::{self, ErrorKind, Read};

/// How a database file begins.
const START: &[u8] = b"SQLite format 3\0";

/// How it begins while it is being made: its first byte is written last.
const HALF_MADE: &[u8] = b"\0QLite format 3\0";

/// What an error of the system means: want of memory is told apart from all others.
pub(crate) fn fault_of(error: io::Error) -> Refusal
    ensures memory { error_kind error ≡ ErrorKind.OutOfMemory → result ≡ Refusal.Memory }
    ensures failed { error_kind error ≢ ErrorKind.OutOfMemory → result ≡ Refusal.Failed (Cause.System error) }
{
    refusal_of(error)
}

/// Whether a file whose first bytes, 16 at most, are these is empty or begins as a database.
fn is_start(bytes: &[u8]) -> bool
    ensures { IsTrue result ↔ IsStart bytes.now }
{
    bytes.is_empty() || bytes == START
}

/// Whether it begins as a database of which a killed process wrote the first byte or all but that.
fn is_half_made(bytes: &[u8]) -> bool
    ensures { IsTrue result ↔ IsHalfMade bytes.now }
{
    bytes == HALF_MADE || bytes == [0].as_slice()
}

/// Whether a file of these first bytes may be a database, beside which a log stands or not.
fn may_begin(bytes: &[u8], has_log: bool) -> bool
    ensures { IsTrue result ↔ MayBegin bytes.now has_log }
{
    is_start(bytes) || has_log && is_half_made(bytes)
}

/// Whether a file begins as a database, or is one that is half made.
fn begins_as_database(rt: &HostRuntime, path: &str, has_log: bool) -> io::Result<bool> {
    let mut file = File::open(rt, path)?;
    let mut start = [0; 16];
    let taken = file.read(&mut start)?;
    Ok(may_begin(&start[..taken], has_log))
}

/// Whether a file may be read and written, and begins as a database.
fn sound_file(rt: &HostRuntime, path: &str, has_log: bool) -> Result<(), Refusal> {
    let _ = OpenOptions::new()
        .read(true)
        .write(true)
        .open(rt, path)
        .map_err(fault_of)?;
    if begins_as_database(rt, path, has_log).map_err(fault_of)? {
        Ok(())
    } else {
        Err(Refusal::Failed(Cause::Unsound))
    }
}

/// Refuses a path that may not be opened as a database: what is there is a folder (`Folder`) or no file (`Special`), can't be
/// read and written (as the system says it), or doesn't begin as a database (`Unsound`). Another file could be taken for one
/// that is half made; one whose first byte isn't written yet counts as a database where its log stands beside it. A path at
/// which nothing stands may be opened.
pub fn may_be_database(rt: &HostRuntime, path: &str, has_log: bool) -> Result<(), Refusal> {
    match fs::metadata(rt, path) {
        Ok(found) if found.is_file() => sound_file(rt, path, has_log),
        Ok(found) if found.is_dir() => Err(Refusal::Failed(Cause::Folder)),
        Ok(_) => Err(Refusal::Failed(Cause::Special)),
        Err(error) if error.kind() == ErrorKind::NotFound => Ok(()),
        Err(error) => Err(fault_of(error)),
    }
}

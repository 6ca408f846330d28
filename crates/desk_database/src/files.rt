//! The files of a database, beside what the database does with them.

ghost use Rattle.std.specs.Prelude.{◌≡◌, ◌≢◌};
ghost use Rattle.std.specs.IoError.{error_kind};

use desk_faults::{Cause, Refusal, refusal_of};
use std::fs::{self, File};
use std::io::{self, ErrorKind};

/// The least length of a log that holds a page: its header, and a page of the least size with its own.
const WITH_PAGE: u64 = 32 + 24 + 512;

/// What an error of the system means: want of memory is told apart from all others.
fn fault_of(error: io::Error) -> Refusal
    ensures memory { error_kind error ≡ ErrorKind.OutOfMemory → result ≡ Refusal.Memory }
    ensures failed { error_kind error ≢ ErrorKind.OutOfMemory → result ≡ Refusal.Failed (Cause.System error) }
{
    refusal_of(error)
}

/// The path at which a database's file is opened. The database takes `:memory:` and what begins with `file:` for no
/// files, so that a relative path begins with `./`. The only error is want of memory.
pub fn file_path(rt: &HostRuntime, path: &str) -> Result<String, Refusal> {
    if path.starts_with('/') {
        return Ok(String::from_str(rt.alloc(), path)?);
    }
    format!(in rt.alloc(); "./{path}").map_err(|_| Refusal::Memory)
}

/// Whether a name that stands beside a database has room: the system refuses one that is too long. Errors are what the system says,
/// and want of memory.
pub fn has_room_beside(rt: &HostRuntime, path: &str) -> Result<(), Refusal> {
    let Ok(path) = format!(in rt.alloc(); "{path}-journal") else {
        return Err(Refusal::Memory);
    };
    match fs::exists(rt, path.as_str()) {
        Ok(_) => Ok(()),
        Err(error) => Err(fault_of(error)),
    }
}

/// Why a file can't be made, as the system says it. One that is made is taken away.
pub(crate) fn why_not_made(rt: &HostRuntime, path: &str) -> Refusal {
    match File::create_new(rt, path) {
        Ok(_) => {
            let _ = fs::remove_file(rt, path);
            Refusal::Failed(Cause::Unopened)
        }
        Err(error) if error.kind() == ErrorKind::AlreadyExists => Refusal::Failed(Cause::Unopened),
        Err(error) => fault_of(error),
    }
}

/// The log of a database, and whether it was there before the database is opened.
#[derive(Drop)]
pub struct Log {
    path: String,
    was_there: bool,
}

impl Log {
    /// The log of the database at a path. Errors are want of memory, and that the system doesn't tell whether it is there.
    pub fn beside(rt: &HostRuntime, path: &str) -> Result<Log, Refusal> {
        let path = format!(in rt.alloc(); "{path}-wal").map_err(|_| Refusal::Memory)?;
        let was_there = fs::exists(rt, path.as_str()).map_err(fault_of)?;
        Ok(Log { path, was_there })
    }

    /// Whether the log was there before.
    pub fn was_there(&self) -> bool {
        self.was_there
    }

    /// Removes the log where it was not there before, and holds no page. Errors are those of the system, as where there is no log.
    pub fn remove_new(&self, rt: &HostRuntime) -> io::Result<()> {
        if !self.was_there && fs::metadata(rt, self.path.as_str())?.len() < WITH_PAGE {
            fs::remove_file(rt, self.path.as_str())?;
        }
        Ok(())
    }
}

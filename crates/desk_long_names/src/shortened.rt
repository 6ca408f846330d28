//! Files that have a short name while they are opened.

ghost use Rattle.std.specs.Prelude.{◌≡◌, ◌↔◌, false, string_bytes, IfOk, IsTrue};

use crate::databases::{fault_of, may_be_database};
use desk_faults::{Cause, Refusal};
use std::fs::{self, File, OpenOptions, TryLockError};
use std::io::{self, ErrorKind};
use std::marker::Model;
use std::os::unix::fs::{MetadataExt, OpenOptionsExt};

/// What stands at a path.
#[derive(Clone, Copy)]
enum Stands {
    /// The file that is asked for.
    This,
    /// Something else.
    Other,
    Nothing,
}

/// Whether this file stands at a path, or something else.
fn stands_at(rt: &HostRuntime, path: &str, file: &File) -> io::Result<Stands> {
    let found = match fs::symlink_metadata(rt, path) {
        Ok(found) => found,
        Err(error) if error.kind() == ErrorKind::NotFound => return Ok(Stands::Nothing),
        Err(error) => return Err(error),
    };
    let this = file.metadata()?;
    if found.dev() == this.dev() && found.ino() == this.ino() {
        Ok(Stands::This)
    } else {
        Ok(Stands::Other)
    }
}

/// Gives a file another name in place of its own. What has that name already stays, and the file keeps its own then: the
/// system's rename would take its place.
fn move_to(rt: &HostRuntime, from: &str, to: &str) -> io::Result<()> {
    fs::hard_link(rt, from, to)?;
    fs::remove_file(rt, from)
}

/// Opens the file at a path, if there is one. What can't be a database is refused.
fn open_found(rt: &HostRuntime, path: &str, has_log: bool) -> Result<Option<File>, Refusal> {
    may_be_database(rt, path, has_log)?;
    match OpenOptions::new().read(true).write(true).open(rt, path) {
        Ok(file) => Ok(Some(file)),
        Err(error) if error.kind() == ErrorKind::NotFound => Ok(None),
        Err(error) => Err(fault_of(error)),
    }
}

/// Makes an empty file. Where one stands there by now, another run made it.
fn make(rt: &HostRuntime, path: &str) -> Result<File, Refusal> {
    let made = OpenOptions::new()
        .read(true)
        .write(true)
        .create_new(true)
        .mode(0o644)
        .open(rt, path);
    match made {
        Ok(file) => Ok(file),
        Err(error) if error.kind() == ErrorKind::AlreadyExists => {
            Err(Refusal::Failed(Cause::Busy))
        }
        Err(error) => Err(fault_of(error)),
    }
}

/// Locks a file against other runs that open it under its short name, until it is closed.
fn lock(file: &File) -> Result<(), Refusal> {
    match file.try_lock() {
        Ok(()) => Ok(()),
        Err(TryLockError::WouldBlock) => Err(Refusal::Failed(Cause::Busy)),
        Err(TryLockError::Error(error)) => Err(fault_of(error)),
    }
}

/// The two paths of a file of a long name.
#[derive(Drop)]
struct Paths {
    own: String,
    short: String,
}

/// A file of a long name, and whether it was made.
#[derive(Drop)]
struct FoundFile {
    file: File,
    is_new: bool,
}

impl Paths {
    /// Opens the file where it stands: under its own name, under the short one, where a killed process left it there, or
    /// nowhere, so that it is made.
    fn find(&self, rt: &HostRuntime, has_log: bool) -> Result<FoundFile, Refusal> {
        if let Some(file) = open_found(rt, self.own.as_str(), has_log)? {
            return Ok(FoundFile {
                file,
                is_new: false,
            });
        }
        if let Some(file) = open_found(rt, self.short.as_str(), has_log)? {
            return Ok(FoundFile {
                file,
                is_new: false,
            });
        }
        let file = make(rt, self.short.as_str())?;
        Ok(FoundFile { file, is_new: true })
    }

    /// Gives a file that is locked its short name alone, and answers whether it had that alone before. Where it has
    /// neither, another run changed them meanwhile.
    fn shorten(&self, rt: &HostRuntime, file: &File) -> Result<bool, Refusal> {
        let own = stands_at(rt, self.own.as_str(), file).map_err(fault_of)?;
        let short = stands_at(rt, self.short.as_str(), file).map_err(fault_of)?;
        match (own, short) {
            (Stands::This, Stands::This) => {
                fs::remove_file(rt, self.own.as_str()).map_err(fault_of)?;
                Ok(false)
            }
            (Stands::This, _) => {
                move_to(rt, self.own.as_str(), self.short.as_str()).map_err(fault_of)?;
                Ok(false)
            }
            (Stands::Nothing, Stands::This) => Ok(true),
            _ => Err(Refusal::Failed(Cause::Busy)),
        }
    }

    /// Gives the file its own name back.
    fn lengthen(&self, rt: &HostRuntime) -> Result<(), Refusal> {
        move_to(rt, self.short.as_str(), self.own.as_str()).map_err(fault_of)
    }

    /// Removes a file that was made, where it still stands under its short name.
    fn remove_made(&self, rt: &HostRuntime, file: &File) {
        if let Ok(Stands::This) = stands_at(rt, self.short.as_str(), file) {
            let _ = fs::remove_file(rt, self.short.as_str());
        }
    }
}

/// Whether a killed process left a file under its short name: it had that alone, and wasn't made by this run.
fn was_left(had_short: bool, is_new: bool) -> bool
    ensures { IsTrue result ↔ (IsTrue had_short × (is_new ≡ false)) }
{
    had_short && !is_new
}

/// A file of a long name that has its short name, and is locked against other runs that open it so, until it is dropped.
/// Contracts see the path of its short name.
#[derive(Drop)]
pub struct Shortened {
    paths: Paths,
    file: File,
    was_left: bool,
}

impl Model for Shortened {
    ghost use Rattle.std.specs.Prelude.{ℕ, List, string_bytes};

    ghost Value = { List ℕ };

    ghost view = { λ file. string_bytes file.paths.short };
}

impl Shortened {
    /// The file at a path, which is made where it is missing, under its short name; whether a log stands beside that is
    /// told. Refused are want of memory, what can't be a database (as `may_be_database` says it), a file that another run
    /// opens at this time (`Busy`), and what the system says, as where something else has the short name.
    pub fn at(
        rt: &HostRuntime,
        own: String,
        short: String,
        has_log: bool,
    ) -> Result<Shortened, Refusal>
        ensures { IfOk result (λ file. file ≡ string_bytes short) }
    {
        let paths = Paths { own, short };
        let FoundFile { file, is_new } = paths.find(rt, has_log)?;
        lock(&file)?;
        match paths.shorten(rt, &file) {
            Ok(had_short) => Ok(Shortened {
                paths,
                file,
                was_left: was_left(had_short, is_new),
            }),
            Err(refusal) => {
                if is_new {
                    paths.remove_made(rt, &file);
                }
                Err(refusal)
            }
        }
    }

    /// The path at which the file is to be opened.
    pub fn short_path(&self) -> &str
        ensures { result.now ≡ self.now }
    {
        self.paths.short.as_str()
    }

    /// Gives the file its own name back, which is to be done at once when it was opened, also where it couldn't be. A file
    /// that a killed process left under the short name keeps it, since it may be no ledger. The only errors are what the
    /// system says, as where something else has the own name by now.
    pub fn lengthen(&self, rt: &HostRuntime) -> Result<(), Refusal> {
        if self.was_left {
            return Ok(());
        }
        self.paths.lengthen(rt)
    }

    /// Gives a ledger that a killed process left under its short name its own name back. The errors are those of `lengthen`.
    pub fn settle(&self, rt: &HostRuntime) -> Result<(), Refusal> {
        if self.was_left {
            self.paths.lengthen(rt)?;
        }
        Ok(())
    }
}

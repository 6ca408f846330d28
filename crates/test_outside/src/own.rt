//! A folder of this process alone.

use crate::told::say_kind;
use crate::words::text_of;
use desk_base::{Memory, Text};
use std::os::unix::fs::symlink;
use std::{env, fs, io, process};

/// A folder of this process alone below the temporary directory. While a case uses it, it is the working folder, so that
/// paths are relative to it.
#[derive(Drop)]
pub struct OwnFolder<'r> {
    rt: &'r HostRuntime,
    path: String,
    is_made: bool,
}

impl<'r> OwnFolder<'r> {
    /// The folder, which isn't made yet.
    pub fn new(rt: &'r HostRuntime) -> io::Result<OwnFolder<'r>> {
        let temporary = env::temp_dir(rt)?;
        let process = process::id(rt.process());
        let path = format!(in rt.alloc(); "{}/outside-{process}", temporary.display())?;
        Ok(OwnFolder {
            rt,
            path,
            is_made: false,
        })
    }

    /// Makes the folder, and makes it the working folder.
    pub fn make(&mut self) -> io::Result<()> {
        fs::create_dir(self.rt, self.path.as_str())?;
        self.is_made = true;
        env::set_current_dir(self.rt, self.path.as_str())
    }

    /// Takes the folder away where it was made.
    pub fn remove(&mut self) {
        if self.is_made {
            let _ = fs::remove_dir_all(self.rt, self.path.as_str());
            self.is_made = false;
        }
    }
}

/// What another program does to files.
#[derive(Clone, Copy)]
pub enum Change {
    /// Makes a symbolic link of a text.
    Symlink,
    /// Gives a file one more name.
    HardLink,
    /// Writes a file anew.
    Overwrite,
}

/// Changes a file as another program does.
fn make_change(rt: &HostRuntime, what: Change, first: &Text, second: &Text) -> io::Result<()> {
    match what {
        Change::Symlink => symlink(rt, text_of(first), text_of(second)),
        Change::HardLink => fs::hard_link(rt, text_of(first), text_of(second)),
        Change::Overwrite => fs::write(rt, text_of(first), second.as_bytes()),
    }
}

/// Changes a file as another program does, and answers what came of it.
pub fn answer_change(
    rt: &HostRuntime,
    what: Change,
    first: &Text,
    second: &Text,
    out: &mut String,
) -> Result<(), Memory> {
    say_kind(make_change(rt, what, first, second), out)
}

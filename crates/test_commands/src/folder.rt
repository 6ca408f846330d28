//! A folder of one process alone.

use crate::{append_unknown, append_words};
use desk_base::{Memory, Text};
use desk_faults::{Fault, Tried};
use std::alloc::Global;
use std::fs::{self, FileType};
use std::io::{self, ErrorKind};
use std::os::unix::fs::symlink;
use std::path::PathBuf;
use std::{env, process, str};

/// A folder of this process alone under the temporary directory, and the commands over its files. Files are named by their
/// paths below it; a path that begins with `/` is taken as it is, and the empty one is the folder itself. The program's own
/// files lie where it was started.
#[derive(Drop)]
pub struct OwnFolder<'r> {
    rt: &'r HostRuntime,
    root: String,
    start: PathBuf,
}

/// A path as the system takes it; one that isn't UTF-8 is empty, and no file has that.
fn text_of(path: &[u8]) -> &str {
    str::from_utf8(path).unwrap_or("")
}

/// The path of a name below a folder.
fn below(alloc: Global, folder: &[u8], name: &[u8]) -> Result<Text, Memory> {
    Ok(Text::from([folder, b"/", name].concat(alloc)?))
}

/// The word for what was tried.
fn word_of<'a>(tried: Tried) -> &'a [u8] {
    match tried {
        Tried::Placing => b"placing",
        Tried::Listing => b"listing",
        Tried::Reading => b"reading",
        Tried::Making => b"making",
        Tried::Writing => b"writing",
        Tried::Opening => b"opening",
        Tried::Keeping => b"keeping",
    }
}

/// What a file is.
fn kind_of(found: FileType) -> &'static str {
    if found.is_symlink() {
        "link"
    } else if found.is_dir() {
        "folder"
    } else {
        "file"
    }
}

impl<'r> OwnFolder<'r> {
    /// The folder, which isn't made yet.
    pub fn new(rt: &'r HostRuntime, name: &str) -> io::Result<OwnFolder<'r>> {
        let temporary = env::temp_dir(rt)?;
        let process = process::id(rt.process());
        let root = format!(in rt.alloc(); "{}/{}_{}", temporary.display(), name, process)?;
        let start = env::current_dir(rt)?;
        Ok(OwnFolder { rt, root, start })
    }

    /// Makes the folder anew, and makes it the working folder.
    pub fn make_anew(&self) -> io::Result<()> {
        self.remove();
        fs::create_dir_all(self.rt, self.root.as_str())?;
        env::set_current_dir(self.rt, self.root.as_str())
    }

    /// Takes the folder away, if it is there.
    pub fn remove(&self) {
        let _ = fs::remove_dir_all(self.rt, self.root.as_str());
    }

    /// The path of a file.
    pub fn path(&self, name: &[u8]) -> Result<Text, Memory> {
        match name {
            [] => Text::from_bytes(self.rt.alloc(), self.root.as_bytes()),
            [b'/', ..] => Text::from_bytes(self.rt.alloc(), name),
            _ => below(self.rt.alloc(), self.root.as_bytes(), name),
        }
    }

    /// The name of a file by its path; of a path that isn't below the folder it is that path.
    pub fn name<'a>(&self, path: &'a [u8]) -> &'a [u8] {
        match path.strip_prefix(self.root.as_bytes()) {
            Some([b'/', name @ ..]) => name,
            _ => path,
        }
    }

    /// Appends a fault: what was tried, the name of the file, and the words of the cause; or `none`.
    pub fn append_fault(&self, fault: Option<&Fault>, out: &mut String) -> Result<(), Memory> {
        let Some(fault) = fault else {
            return Ok(out.push_str("  none\n")?);
        };
        append_words(
            &[
                word_of(fault.tried),
                self.name(fault.path.as_bytes()),
                fault.words.as_bytes(),
            ],
            out,
        )
    }

    /// Does what a word says with a file.
    fn change(&self, verb: &[u8], path: &str) -> io::Result<()> {
        match verb {
            b"remove" => fs::remove_file(self.rt, path),
            b"make-folder" => fs::create_dir_all(self.rt, path),
            b"enter" => env::set_current_dir(self.rt, path),
            _ => Err(io::Error::from(ErrorKind::Unsupported)),
        }
    }

    /// Writes what a file holds to another, in the place of what that holds.
    fn copy(&self, from: &str, to: &str) -> io::Result<()> {
        let content = fs::read(self.rt, from)?;
        fs::write(self.rt, to, content.as_slice())
    }

    /// Appends whether two files hold the same.
    fn answer_compare(&self, first: &str, second: &str, out: &mut String) -> Result<(), Memory> {
        match (fs::read(self.rt, first), fs::read(self.rt, second)) {
            (Ok(first), Ok(second)) => Ok(out.push_str(if first == second {
                "  same\n"
            } else {
                "  different\n"
            })?),
            (Err(error), _) | (_, Err(error)) => append_done(Err(error), out),
        }
    }

    /// Does what a word says with a file, whose second name or copy is another.
    fn double(&self, verb: &[u8], old: &str, new: &str) -> io::Result<()> {
        match verb {
            b"copy" => self.copy(old, new),
            b"rename" => fs::rename(self.rt, old, new),
            b"hard-link" => fs::hard_link(self.rt, old, new),
            _ => Err(io::Error::from(ErrorKind::Unsupported)),
        }
    }

    /// Appends what a file is; a link isn't followed.
    fn answer_kind(&self, path: &str, out: &mut String) -> Result<(), Memory> {
        match fs::symlink_metadata(self.rt, path) {
            Ok(found) => Ok(writeln!(out, "  {}", kind_of(found.file_type()))?),
            Err(error) if error.kind() == ErrorKind::NotFound => Ok(out.push_str("  nothing\n")?),
            Err(error) => append_done(Err(error), out),
        }
    }

    /// Appends what a file holds.
    fn answer_read(&self, path: &str, out: &mut String) -> Result<(), Memory> {
        match fs::read(self.rt, path) {
            Ok(content) => append_words(&[content.as_slice()], out),
            Err(error) => append_done(Err(error), out),
        }
    }

    /// Appends what a command over one file answers.
    fn answer_at(&self, verb: &[u8], path: &str, out: &mut String) -> Result<(), Memory> {
        match verb {
            b"kind" => self.answer_kind(path, out),
            b"read" => self.answer_read(path, out),
            _ => append_done(self.change(verb, path), out),
        }
    }

    /// Appends what a command over one file and one of the program's own answers.
    fn answer_own(
        &self,
        verb: &[u8],
        path: &str,
        own: &str,
        out: &mut String,
    ) -> Result<(), Memory> {
        if verb == b"fetch".as_slice() {
            append_done(self.copy(own, path), out)
        } else {
            self.answer_compare(path, own, out)
        }
    }

    /// Appends what a command over one file and a text, or a second file, answers.
    fn answer_with(
        &self,
        verb: &[u8],
        path: &str,
        other: &[u8],
        out: &mut String,
    ) -> Result<(), Memory> {
        match verb {
            b"write" => append_done(fs::write(self.rt, path, other), out),
            b"symlink" => append_done(symlink(self.rt, text_of(other), path), out),
            b"fetch" | b"compare" => {
                let own = below(self.rt.alloc(), self.start.as_str().as_bytes(), other)?;
                self.answer_own(verb, path, text_of(own.as_bytes()), out)
            }
            _ => {
                let second = self.path(other)?;
                append_done(self.double(verb, path, text_of(second.as_bytes())), out)
            }
        }
    }

    /// Appends what a command answers, of which the words behind the first are given.
    pub fn answer(&self, words: &[Text], out: &mut String) -> Result<(), Memory> {
        match words {
            [verb, name] => {
                let path = self.path(name.as_bytes())?;
                self.answer_at(verb.as_bytes(), text_of(path.as_bytes()), out)
            }
            [verb, name, other] => {
                let path = self.path(name.as_bytes())?;
                let (verb, other) = (verb.as_bytes(), other.as_bytes());
                self.answer_with(verb, text_of(path.as_bytes()), other, out)
            }
            _ => append_unknown(out),
        }
    }
}

/// Appends the kind of an error; nothing where there was none.
fn append_done(done: io::Result<()>, out: &mut String) -> Result<(), Memory> {
    match done {
        Ok(()) => Ok(()),
        Err(error) => Ok(writeln!(out, "  {:?}", error.kind())?),
    }
}

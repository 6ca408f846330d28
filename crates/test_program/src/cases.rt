//! The folder of a case, and its commands by their names.

use crate::reports;
use desk_base::{Memory, Text};
use std::thread::Threads;
use std::{fs, io, str};
use test_commands::{OwnFolder, append_unknown, number_of};

/// The folder of a case.
#[derive(Drop)]
pub struct Cases<'r, R> {
    /// What gives the disk and the streams.
    pub rt: &'r HostRuntime,
    threads: &'r R,
    folder: OwnFolder<'r>,
}

impl<'r, R: Threads + Sync> Cases<'r, R> {
    /// The folder, which isn't made yet.
    pub fn new(rt: &'r HostRuntime, threads: &'r R) -> io::Result<Cases<'r, R>> {
        let folder = OwnFolder::new(rt, "test_program")?;
        Ok(Cases {
            rt,
            threads,
            folder,
        })
    }

    /// Begins a case: nothing of the one before it stays.
    pub fn begin(&self) {
        let _ = self.folder.make_anew();
    }

    /// Takes the folder away.
    pub fn leave(&self) {
        self.folder.remove();
    }

    /// Makes empty files in a folder, so many.
    fn make_files(&self, folder: &Text, count: u64) -> Result<(), Memory> {
        for number in 0..count {
            let name = format!(in self.rt.alloc(); "/{number}")?;
            let mut path = folder.clone()?;
            path.append(name.as_bytes())?;
            let path = self.folder.path(path.as_bytes())?;
            let _ = fs::write(self.rt, str::from_utf8(path.as_bytes()).unwrap_or(""), b"");
        }
        Ok(())
    }

    /// Appends what a command answers, in whole lines. The first of its words is the command's name.
    pub fn answer(&self, words: &[Text], out: &mut String) -> Result<(), Memory> {
        let [subject, words @ ..] = words else {
            return Ok(());
        };
        match (subject.as_bytes(), words) {
            (b"file", words) => self.folder.answer(words, out),
            (b"files", [folder, count]) => self.make_files(folder, number_of(count.as_bytes())),
            (b"follow", words) => reports::answer_lines(self.rt, self.threads, words, out),
            (b"count", words) => reports::answer_count(self.rt, self.threads, words, out),
            _ => append_unknown(out),
        }
    }
}

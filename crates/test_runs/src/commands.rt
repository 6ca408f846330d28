//! The commands of a case, each by its name.

use crate::beginning::Setting;
use crate::case::Case;
use crate::looks::Look;
use crate::tasks::{write_generated, write_task};
use crate::written::say;
use desk_base::{Memory, Text};
use std::thread::Threads;

/// What a line asks for.
#[derive(Clone, Copy)]
enum Command {
    /// To change what a case begins with.
    Begin(Setting),
    /// To look at what runs left.
    Look(Look),
    NewFolders,
    NewLedger,
    Desk,
    Migrate,
    Interrupt,
    Keep,
    Compare,
    CompareFiles,
    Task,
    Generated,
}

/// The names of the commands.
const NAMES: &[(&[u8], Command)] = &[
    (b"file", Command::Begin(Setting::File)),
    (b"files", Command::Begin(Setting::Files)),
    (b"large", Command::Begin(Setting::Large)),
    (b"class", Command::Begin(Setting::Class)),
    (b"changing", Command::Begin(Setting::Changing)),
    (b"failing", Command::Begin(Setting::Failing)),
    (b"room", Command::Begin(Setting::Room)),
    (b"pairs", Command::Begin(Setting::Pairs)),
    (b"real-folders", Command::Begin(Setting::RealFolders)),
    (b"content", Command::Look(Look::Content)),
    (b"targets", Command::Look(Look::Targets)),
    (b"row", Command::Look(Look::Row)),
    (b"at-once", Command::Look(Look::AtOnce)),
    (b"first-format", Command::Look(Look::FirstFormat)),
    (b"new-folders", Command::NewFolders),
    (b"new-ledger", Command::NewLedger),
    (b"desk", Command::Desk),
    (b"migrate", Command::Migrate),
    (b"interrupt", Command::Interrupt),
    (b"keep", Command::Keep),
    (b"compare", Command::Compare),
    (b"compare-files", Command::CompareFiles),
    (b"task", Command::Task),
    (b"generated", Command::Generated),
];

/// The command of a name.
fn command_of(name: &Text) -> Option<Command> {
    for (known, command) in NAMES {
        if name.as_bytes() == *known {
            return Some(*command);
        }
    }
    None
}

impl<R: Threads + Sync> Case<'_, R> {
    /// Appends what a command answers, in whole lines. The first of its words is the command's name.
    pub fn answer(&mut self, words: &[Text], out: &mut String) -> Result<(), Memory> {
        let Some((name, words)) = words.split_first() else {
            return Ok(());
        };
        match command_of(name) {
            Some(Command::Begin(setting)) => self.beginning.set(setting, words, out),
            Some(Command::Look(look)) => self.look(look, words, out),
            Some(Command::NewFolders) => self.renew_folders(),
            Some(Command::NewLedger) => self.renew_ledger(),
            Some(Command::Desk) => self.run(words, out),
            Some(Command::Migrate) => self.run_usual(words, out),
            Some(Command::Interrupt) => self.interrupt(words, out),
            Some(Command::Keep) => self.keep(),
            Some(Command::Compare) => self.compare(out),
            Some(Command::CompareFiles) => self.compare_files(words, out),
            Some(Command::Task) => write_task(self.alloc, words, out),
            Some(Command::Generated) => write_generated(self.alloc, words, out),
            None => say(out, "no such command"),
        }
    }
}

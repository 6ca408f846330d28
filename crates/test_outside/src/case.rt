//! The state of a case, and its commands by their names.

use crate::calls::{self, Call};
use crate::digests::{answer_parts, answer_whole};
use crate::ledgers::Ledger;
use crate::own::{Change, OwnFolder, answer_change};
use crate::places::TestFolders;
use crate::told::{say, say_kind};
use crate::words::numbers_of;
use desk_base::{Memory, Text};
use desk_folders::GenFile;
use std::alloc::Global;
use std::{io, mem};
use test_cases::Answers;

/// What a line asks for.
#[derive(Clone, Copy)]
enum Command {
    File,
    InMemory,
    OnDisk,
    Call(Call),
    Change(Change),
    Digest,
    DigestParts,
    Ledger,
}

/// The names of the commands.
const NAMES: &[(&[u8], Command)] = &[
    (b"file", Command::File),
    (b"in-memory", Command::InMemory),
    (b"on-disk", Command::OnDisk),
    (b"create", Command::Call(Call::Create)),
    (b"create-files", Command::Call(Call::CreateFiles)),
    (b"append", Command::Call(Call::Append)),
    (b"read", Command::Call(Call::Read)),
    (b"read-length", Command::Call(Call::ReadLength)),
    (b"size", Command::Call(Call::Size)),
    (b"list", Command::Call(Call::List)),
    (b"count", Command::Call(Call::Count)),
    (b"content", Command::Call(Call::Content)),
    (b"stop", Command::Call(Call::Stop)),
    (b"mend", Command::Call(Call::Mend)),
    (b"keep-within", Command::Call(Call::KeepWithin)),
    (b"keep-apart", Command::Call(Call::KeepApart)),
    (b"fault", Command::Call(Call::Fault)),
    (b"symlink", Command::Change(Change::Symlink)),
    (b"hard-link", Command::Change(Change::HardLink)),
    (b"overwrite", Command::Change(Change::Overwrite)),
    (b"digest", Command::Digest),
    (b"digest-parts", Command::DigestParts),
    (b"ledger", Command::Ledger),
];

/// The command of a name.
fn command_of(name: &Text) -> Option<Command> {
    for (known, command) in NAMES {
        if name.as_bytes() == *known {
            return Some(*command);
        }
    }
    None
}

/// The files that folders in memory begin with, the folders, and the ledger.
#[derive(Drop)]
pub struct Case<'r> {
    rt: &'r HostRuntime,
    alloc: Global,
    own: Box<OwnFolder<'r>>,
    files: Vec<GenFile>,
    place: Option<TestFolders<'r>>,
    ledger: Box<Ledger>,
}

impl<'r> Case<'r> {
    /// A case that begins.
    pub fn new(rt: &'r HostRuntime) -> io::Result<Case<'r>> {
        let alloc = rt.alloc();
        let own = Box::new(alloc, OwnFolder::new(rt)?)?;
        let ledger = Box::new(alloc, Ledger::new(alloc))?;
        Ok(Case {
            rt,
            alloc,
            own,
            files: Vec::new(alloc),
            place: None,
            ledger,
        })
    }

    /// Lets all go that the case has, and takes its folder away.
    pub fn leave(&mut self) {
        self.files.clear();
        self.place = None;
        self.ledger.leave();
        self.own.remove();
    }

    /// Adds a file that folders in memory begin with.
    fn add(&mut self, path: &Text, content: &Text) -> Result<(), Memory> {
        let path = path.clone()?;
        let content = content.clone()?;
        self.files.push(GenFile { path, content })?;
        Ok(())
    }

    /// Begins with folders in memory, of which these calls fail.
    fn begin_in_memory(&mut self, calls: &[Text]) -> Result<(), Memory> {
        let failing = numbers_of(self.alloc, calls)?;
        let files = mem::replace(&mut self.files, Vec::new(self.alloc));
        self.place = TestFolders::in_memory(self.alloc, files, failing)?;
        Ok(())
    }

    /// Begins with folders on a disk.
    fn begin_on_disk(&mut self, out: &mut String) -> Result<(), Memory> {
        self.place = Some(TestFolders::on_disk(self.rt)?);
        say_kind(self.own.make(), out)
    }

    /// Answers a call of the folders.
    fn call(&mut self, call: Call, words: &[Text], out: &mut String) -> Result<(), Memory> {
        match &mut self.place {
            Some(place) => calls::answer(place, self.alloc, call, words, out),
            None => say("no folders", out),
        }
    }

    /// Answers a command and the words behind it.
    fn obey(&mut self, command: Command, words: &[Text], out: &mut String) -> Result<(), Memory> {
        match (command, words) {
            (Command::File, [path, content]) => self.add(path, content),
            (Command::InMemory, calls) => self.begin_in_memory(calls),
            (Command::OnDisk, []) => self.begin_on_disk(out),
            (Command::Call(call), words) => self.call(call, words, out),
            (Command::Change(what), [first, second]) => {
                answer_change(self.rt, what, first, second, out)
            }
            (Command::Digest, [bytes]) => answer_whole(bytes, out),
            (Command::DigestParts, parts) => answer_parts(parts, out),
            (Command::Ledger, words) => self.ledger.answer(words, out),
            _ => say("other words are wanted", out),
        }
    }
}

impl Answers for Case<'_> {
    fn begin(&mut self) -> Result<(), Memory> {
        self.leave();
        Ok(())
    }

    fn answer(&mut self, words: &[Text], out: &mut String) -> Result<(), Memory> {
        let Some((name, words)) = words.split_first() else {
            return Ok(());
        };
        match command_of(name) {
            Some(command) => self.obey(command, words, out),
            None => say("no such command", out),
        }
    }
}

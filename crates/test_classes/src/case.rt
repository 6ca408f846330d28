//! What the lines of a case have taken so far.

use crate::commands::{ClassQuestion, Command, PoolQuestion, command_of};
use crate::words::{number, word};
use crate::{classes, pools, told, walks};
use desk_base::{Memory, Text};
use std::alloc::Global;
use test_cases::Answers;
use worked_classes::servlet::SERVLET;

/// The bytes that a case took last, of a pool or a class.
#[derive(Drop)]
pub struct Case {
    alloc: Global,
    bytes: Text,
}

impl Case {
    /// A case that took no bytes.
    pub fn new(alloc: Global) -> Case {
        Case {
            alloc,
            bytes: Text::empty(alloc),
        }
    }

    /// Takes bytes.
    fn take(&mut self, bytes: &[u8]) -> Result<(), Memory> {
        self.bytes = Text::from_bytes(self.alloc, bytes)?;
        Ok(())
    }

    /// Obeys a command on the bytes that were taken.
    fn obey(&self, command: Command, words: &[Text], out: &mut String) -> Result<(), Memory> {
        let (alloc, bytes) = (self.alloc, self.bytes.as_bytes());
        match command {
            Command::Pool => pools::ask(alloc, bytes, PoolQuestion::Whether, words, out),
            Command::Class | Command::Servlet => {
                classes::ask(alloc, bytes, ClassQuestion::Whether, out)
            }
            Command::OfPool(question) => pools::ask(alloc, bytes, question, words, out),
            Command::Walk(walk) => walks::tell(alloc, walk, bytes, word(words, 0), out),
            Command::OfClass(question) => classes::ask(alloc, bytes, question, out),
            Command::Cuts => classes::tell_cuts(alloc, bytes, out),
            Command::FaultsWith255 => classes::tell_faults(alloc, bytes, number(words, 0), out),
        }
    }
}

impl Answers for Case {
    fn begin(&mut self) -> Result<(), Memory> {
        self.bytes = Text::empty(self.alloc);
        Ok(())
    }

    fn answer(&mut self, words: &[Text], out: &mut String) -> Result<(), Memory> {
        let Some(command) = command_of(word(words, 0)) else {
            return told::text(out, "no such command");
        };
        match command {
            Command::Pool | Command::Class => self.take(word(words, 1))?,
            Command::Servlet => self.take(&SERVLET)?,
            _ => (),
        }
        self.obey(command, words.get(1..).unwrap_or(&[]), out)
    }
}

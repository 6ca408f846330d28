//! The keeper of a case over a database in memory.

use desk_base::{Memory, Text};
use desk_ledger_sql::SqlKeeper;
use std::alloc::Global;
use test_commands::{Attached, append_fault, append_unknown};

/// A keeper over a database in memory, where one is attached.
#[derive(Drop)]
pub(crate) struct Database {
    alloc: Global,
    attached: Option<Attached<SqlKeeper>>,
}

impl Database {
    /// No keeper.
    pub(crate) fn new(alloc: Global) -> Database {
        Database {
            alloc,
            attached: None,
        }
    }

    /// Lets the keeper go, and its database with it.
    pub(crate) fn close(&mut self) {
        self.attached = None;
    }

    /// Attaches the keeper that is there, under another name, or a new one. One that is refused is let go.
    fn attach(&mut self, name: &Text, out: &mut String) -> Result<(), Memory> {
        let keeper = match self.attached.take() {
            Some(attached) => attached.keeper,
            None => Box::new(self.alloc, SqlKeeper::in_memory(self.alloc))?,
        };
        match Attached::attach(keeper, name) {
            Ok(attached) => {
                self.attached = Some(attached);
                Ok(out.push_str("  ok\n")?)
            }
            Err((_, fault)) => append_fault(fault, out),
        }
    }

    /// Appends what a command over the keeper that is attached answers.
    fn answer_attached(&mut self, words: &[Text], out: &mut String) -> Result<(), Memory> {
        match &mut self.attached {
            Some(attached) => attached.answer(words, out),
            None => append_unknown(out),
        }
    }

    /// Appends what a command answers, of which the words behind the first are given.
    pub(crate) fn answer(&mut self, words: &[Text], out: &mut String) -> Result<(), Memory> {
        match words {
            [verb] if verb.as_bytes() == b"close".as_slice() => Ok(self.close()),
            [verb, name] if verb.as_bytes() == b"attach".as_slice() => self.attach(name, out),
            _ => self.answer_attached(words, out),
        }
    }
}

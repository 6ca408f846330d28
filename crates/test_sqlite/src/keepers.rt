//! The keepers of a case.

use desk_base::{Memory, Text};
use desk_sqlite::SqliteKeeper;
use test_commands::{Attached, OwnFolder, append_fault, append_unknown};

/// A keeper that is attached, and one that was refused, which attaches the next ledger.
#[derive(Drop)]
pub(crate) struct Keepers<'r> {
    rt: &'r HostRuntime,
    attached: Option<Attached<SqliteKeeper<'r>>>,
    refused: Option<Box<SqliteKeeper<'r>>>,
}

impl<'r> Keepers<'r> {
    /// No keepers.
    pub(crate) fn new(rt: &'r HostRuntime) -> Keepers<'r> {
        Keepers {
            rt,
            attached: None,
            refused: None,
        }
    }

    /// Lets the keepers go.
    pub(crate) fn close(&mut self) {
        self.attached = None;
        self.refused = None;
    }

    /// Attaches the keeper that was refused, or a new one.
    fn attach(&mut self, path: &Text, out: &mut String) -> Result<(), Memory> {
        let keeper = match self.refused.take() {
            Some(keeper) => keeper,
            None => Box::new(self.rt.alloc(), SqliteKeeper::new(self.rt))?,
        };
        match Attached::attach(keeper, path) {
            Ok(attached) => {
                self.attached = Some(attached);
                Ok(out.push_str("  ok\n")?)
            }
            Err((keeper, fault)) => {
                self.refused = Some(keeper);
                append_fault(fault, out)
            }
        }
    }

    /// The keeper that was refused, or else the one that is attached.
    fn last(&self) -> Option<&SqliteKeeper<'r>> {
        match (&self.refused, &self.attached) {
            (Some(keeper), _) => Some(keeper.as_ref()),
            (None, Some(attached)) => Some(attached.keeper.as_ref()),
            (None, None) => None,
        }
    }

    /// Appends what the last keeper says of its last fault.
    fn answer_last_fault(&self, folder: &OwnFolder<'_>, out: &mut String) -> Result<(), Memory> {
        let Some(keeper) = self.last() else {
            return append_unknown(out);
        };
        folder.append_fault(keeper.last_fault(), out)
    }

    /// Removes the log that the keeper made.
    fn remove_new_log(&self) {
        if let Some(attached) = &self.attached {
            attached.keeper.remove_new_log();
        }
    }

    /// Appends what a command over the keeper that is attached answers.
    fn answer_attached(&mut self, words: &[Text], out: &mut String) -> Result<(), Memory> {
        match &mut self.attached {
            Some(attached) => attached.answer(words, out),
            None => append_unknown(out),
        }
    }

    /// Appends what a command of one word answers.
    fn answer_alone(
        &mut self,
        folder: &OwnFolder<'_>,
        words: &[Text],
        verb: &[u8],
        out: &mut String,
    ) -> Result<(), Memory> {
        match verb {
            b"last-fault" => self.answer_last_fault(folder, out),
            b"remove-new-log" => Ok(self.remove_new_log()),
            b"close" => Ok(self.close()),
            _ => self.answer_attached(words, out),
        }
    }

    /// Appends what a command answers, of which the words behind the first are given.
    pub(crate) fn answer(
        &mut self,
        folder: &OwnFolder<'_>,
        words: &[Text],
        out: &mut String,
    ) -> Result<(), Memory> {
        match words {
            [verb] => self.answer_alone(folder, words, verb.as_bytes(), out),
            [verb, name] => match verb.as_bytes() {
                b"attach" => self.attach(&folder.path(name.as_bytes())?, out),
                b"attach-as-written" => self.attach(name, out),
                _ => self.answer_attached(words, out),
            },
            _ => self.answer_attached(words, out),
        }
    }
}

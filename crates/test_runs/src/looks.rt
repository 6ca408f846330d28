//! What is looked at behind a run.

use crate::scene::Scene;
use crate::written::{say, write_content};
use desk_base::{Memory, Text};
use test_cases::Shown;

/// What a line looks at.
#[derive(Clone, Copy)]
pub enum Look {
    /// What stands at a path.
    Content,
    /// The targets of the files in the folder for results.
    Targets,
    /// The row of a target.
    Row,
    /// How often two items were under way at once.
    AtOnce,
    /// The rows of some targets, as the first format had them: they take the place of the ledger.
    FirstFormat,
}

impl Scene<'_> {
    /// Answers the targets of the files in the folder for results.
    fn write_targets(&mut self, out: &mut String) -> Result<(), Memory> {
        for target in self.targets()?.as_slice() {
            writeln!(out, "  {}", Shown(target.as_bytes()))?;
        }
        Ok(())
    }

    /// Exchanges the ledger for one of the first format, with the rows of these targets.
    fn take_over(&mut self, targets: &[Text]) -> Result<(), Memory> {
        self.ledger = self.ledger.first_format(self.alloc, targets)?;
        Ok(())
    }

    /// Answers what a line looks at.
    pub fn look(&mut self, look: Look, words: &[Text], out: &mut String) -> Result<(), Memory> {
        match (look, words) {
            (Look::Content, [path]) => write_content(self.folders.content(path.as_bytes()), out),
            (Look::Targets, []) => self.write_targets(out),
            (Look::Row, [target]) => self.write_row(target, out),
            (Look::AtOnce, []) => Ok(writeln!(out, "  {}", self.at_once)?),
            (Look::FirstFormat, targets) => self.take_over(targets),
            _ => say(out, "other words are wanted"),
        }
    }
}

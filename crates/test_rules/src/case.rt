//! What the lines of a case have made so far.

use crate::commands::{Command, command_of};
use crate::words::{content, word};
use crate::{entries, images, patterns, properties, rule_sets, told};
use desk_base::{Memory, Text};
use desk_fixtures::rules_of;
use desk_rules::{BuildFault, RuleSet};
use std::alloc::Global;
use test_cases::Answers;

/// The rule set of a case.
#[derive(Drop)]
pub struct Case {
    alloc: Global,
    rules: Option<Box<RuleSet>>,
}

/// Tells whether a rule set was built, or why it wasn't.
fn tell_built(built: &Result<Box<RuleSet>, BuildFault>, out: &mut String) -> Result<(), Memory> {
    match built {
        Ok(_) => told::text(out, "built"),
        Err(BuildFault::Rules(fault)) => rule_sets::tell_fault(fault, out),
        Err(BuildFault::Memory) => Err(Memory),
    }
}

impl Case {
    /// A case without a rule set.
    pub fn new(alloc: Global) -> Case {
        Case { alloc, rules: None }
    }

    /// Builds the rule set of the files whose names and contents these words are.
    fn build(&mut self, words: &[Text], out: &mut String) -> Result<(), Memory> {
        let built = rules_of(self.alloc, words);
        let answer = tell_built(&built, out);
        self.rules = built.ok();
        answer
    }

    /// Obeys a command that needs no rule set.
    fn obey(&mut self, command: Command, words: &[Text], out: &mut String) -> Result<(), Memory> {
        let alloc = self.alloc;
        match command {
            Command::Properties => properties::tell_properties(alloc, content(words, 0), out),
            Command::Fits => patterns::tell_fits(words, out),
            Command::Selects => patterns::tell_selects(alloc, words, out),
            Command::Read(entry) => {
                entries::tell_entry(alloc, entry, word(words, 0), word(words, 1), out)
            }
            Command::Rules => self.build(words, out),
            _ => self.obey_by_rules(command, words, out),
        }
    }

    /// Obeys a command that goes by the rule set.
    fn obey_by_rules(
        &self,
        command: Command,
        words: &[Text],
        out: &mut String,
    ) -> Result<(), Memory> {
        let alloc = self.alloc;
        let Some(rules) = &self.rules else {
            return told::text(out, "no rule set");
        };
        match command {
            Command::LookUp(look_up) => rule_sets::tell(rules, look_up, words, out),
            Command::Rename(kind) => images::tell(alloc, rules, kind, word(words, 0), out),
            Command::Becomes(kind) => images::tell_becomes(alloc, rules, kind, words, out),
            Command::Append => images::tell_appended(alloc, rules, words, out),
            Command::Known => images::tell_known(rules, word(words, 0), out),
            _ => told::text(out, "no command by rules"),
        }
    }
}

impl Answers for Case {
    fn begin(&mut self) -> Result<(), Memory> {
        self.rules = None;
        Ok(())
    }

    fn answer(&mut self, words: &[Text], out: &mut String) -> Result<(), Memory> {
        match command_of(word(words, 0)) {
            Some(command) => self.obey(command, words.get(1..).unwrap_or(&[]), out),
            None => told::text(out, "no such command"),
        }
    }
}

//! What the lines of a case have made so far.

use crate::commands::{Command, command_of};
use crate::words::{content, word};
use crate::{files, graphs, images, paths, pools, put, rewriting, told};
use desk_base::{Memory, Text};
use desk_fixtures::rules_of;
use desk_graph::Scanned;
use desk_rules::RuleSet;
use std::alloc::Global;
use std::mem;
use test_cases::Answers;

/// The rule set of a case, and the classes that were put into its application.
#[derive(Drop)]
pub struct Case {
    alloc: Global,
    rules: Option<Box<RuleSet>>,
    classes: Vec<Scanned>,
}

impl Case {
    /// A case without a rule set and without classes.
    pub fn new(alloc: Global) -> Case {
        Case {
            alloc,
            rules: None,
            classes: Vec::new(alloc),
        }
    }

    /// Builds the rule set of the files whose names and contents these words are.
    fn build(&mut self, words: &[Text], out: &mut String) -> Result<(), Memory> {
        self.rules = rules_of(self.alloc, words).ok();
        let built = self.rules.is_some();
        told::text(out, if built { "built" } else { "no rule set" })
    }

    /// Obeys a command that needs no rule set.
    fn obey(&mut self, command: Command, words: &[Text], out: &mut String) -> Result<(), Memory> {
        let alloc = self.alloc;
        match command {
            Command::Rules => self.build(words, out),
            Command::Place => paths::tell_place(word(words, 0), out),
            Command::Twins => pools::tell_twins(alloc, words, out),
            Command::Body => pools::tell_body(alloc, out),
            Command::Class => put::class(alloc, &mut self.classes, words, out),
            Command::Classes => put::many(alloc, &mut self.classes, words),
            _ => self.obey_by_rules(command, words, out),
        }
    }

    /// Obeys a command that goes by the rule set.
    fn obey_by_rules(
        &mut self,
        command: Command,
        words: &[Text],
        out: &mut String,
    ) -> Result<(), Memory> {
        let alloc = self.alloc;
        let Some(rules) = &self.rules else {
            return told::text(out, "no rule set");
        };
        match command {
            Command::Scan => put::scanned(alloc, rules, &mut self.classes, words, out),
            Command::Goes => paths::tell_goal(alloc, rules, word(words, 0), out),
            Command::Service => images::tell_service(alloc, rules, content(words, 0), out),
            Command::Manifest => images::tell_manifest(alloc, rules, content(words, 0), out),
            Command::Text => images::tell_text(alloc, rules, words, out),
            Command::Longest => images::tell_longest(rules, words, out),
            Command::Treated => files::tell_treatment(alloc, rules, word(words, 0), out),
            Command::Graph | Command::File => {
                let classes = mem::replace(&mut self.classes, Vec::new(alloc));
                ask_graph(alloc, rules, classes, command, words, out)
            }
            _ => rewriting::obey(alloc, rules, command, words, out),
        }
    }
}

/// Takes the classes of a case, and asks their graph.
fn ask_graph(
    alloc: Global,
    rules: &RuleSet,
    classes: Vec<Scanned>,
    command: Command,
    words: &[Text],
    out: &mut String,
) -> Result<(), Memory> {
    match graphs::graph_of(alloc, rules, classes) {
        Ok(graph) => match command {
            Command::File => files::tell_file(alloc, &graph, words, out),
            _ => graphs::tell_graph(alloc, &graph, words, out),
        },
        Err(fault) => graphs::tell_fault(&fault, out),
    }
}

impl Answers for Case {
    fn begin(&mut self) -> Result<(), Memory> {
        self.rules = None;
        self.classes.clear();
        Ok(())
    }

    fn answer(&mut self, words: &[Text], out: &mut String) -> Result<(), Memory> {
        match command_of(word(words, 0)) {
            Some(command) => self.obey(command, words.get(1..).unwrap_or(&[]), out),
            None => told::text(out, "no such command"),
        }
    }
}

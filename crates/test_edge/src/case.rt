//! What the lines of a case have made so far.

use crate::commands::{COMMANDS, Command};
use crate::words::{named, word};
use crate::{disk, faults, hints, names, places, reports, rules, told};
use desk_base::{Memory, Text};
use desk_choices::count_notes;
use desk_notes::{is_archive_file, is_signature, slip_of};
use desk_report::ReportLine;
use test_cases::Answers;

/// The lines of a report that were put, and the text that was taken last.
#[derive(Drop)]
pub struct Case<'r> {
    rt: &'r HostRuntime,
    lines: Vec<ReportLine>,
    taken: Text,
}

/// Whether a text holds another.
fn holds(text: &[u8], part: &[u8]) -> bool {
    for at in 0..text.len() {
        if text[at..].starts_with(part) {
            return true;
        }
    }
    false
}

impl<'r> Case<'r> {
    /// A case without lines, and without a text.
    pub fn new(rt: &'r HostRuntime) -> Case<'r> {
        Case {
            rt,
            lines: Vec::new(rt.alloc()),
            taken: Text::empty(rt.alloc()),
        }
    }

    /// The text that a command takes.
    fn text_by(&self, command: Command, words: &[Text], out: &mut String) -> Result<Text, Memory> {
        let alloc = self.rt.alloc();
        match command {
            Command::Words => hints::said(alloc, words),
            Command::RuleNotes => rules::noted(alloc, word(words, 0), word(words, 1)),
            Command::Unmet => rules::unmet(alloc, words),
            Command::Notes => reports::noted(alloc, word(words, 0)),
            _ => reports::overhear(self.rt, &self.lines, out),
        }
    }

    /// Takes the text of a command, and tells whether it is lines for people.
    fn take(&mut self, command: Command, words: &[Text], out: &mut String) -> Result<(), Memory> {
        self.taken = self.text_by(command, words, out)?;
        let bytes = self.taken.as_bytes();
        if bytes.is_empty() {
            told::text(out, "nothing")
        } else if bytes.starts_with(b"migrate: ") && bytes.ends_with(b"\n") {
            told::text(out, "lines of migrate")
        } else {
            told::text(out, "other lines")
        }
    }

    /// Obeys a command.
    fn obey(&mut self, command: Command, words: &[Text], out: &mut String) -> Result<(), Memory> {
        let alloc = self.rt.alloc();
        match command {
            Command::Copied => reports::put_copied(alloc, &mut self.lines, words),
            Command::Kept => reports::put_kept(alloc, &mut self.lines, words),
            Command::Unsettled => reports::put_unsettled(alloc, &mut self.lines, words),
            Command::Words
            | Command::RuleNotes
            | Command::Unmet
            | Command::Notes
            | Command::Overhear => self.take(command, words, out),
            Command::CountNotes => told::number(out, count_notes(self.taken.as_bytes()) as u64),
            Command::Holds => told::is_so(out, holds(self.taken.as_bytes(), word(words, 0))),
            _ => tell(self.rt, command, words, out),
        }
    }
}

/// Obeys a command that needs nothing of those before it.
fn tell(
    rt: &HostRuntime,
    command: Command,
    words: &[Text],
    out: &mut String,
) -> Result<(), Memory> {
    let alloc = rt.alloc();
    match command {
        Command::Hints => hints::tell_hints(out),
        Command::Hint => hints::tell_hint(alloc, words, out),
        Command::HintBehind => hints::tell_hint_behind(alloc, words, out),
        Command::Listed => faults::tell_listed(alloc, words, out),
        Command::Closing => reports::tell_closing(alloc, words, out),
        Command::KeyLines => rules::tell_key_lines(alloc, word(words, 0), out),
        Command::ByteLine => rules::tell_byte_line(words, out),
        Command::Release => hints::tell_release(words, out),
        Command::ReleaseLine => hints::tell_release_line(alloc, words, out),
        Command::Fault => faults::tell_fault(alloc, words, out),
        Command::ReportLine => names::tell_said(word(words, 0), out),
        Command::Archive => told::is_so(out, is_archive_file(word(words, 0))),
        Command::Signature => told::is_so(out, is_signature(word(words, 0))),
        Command::Slip => told::value(out, &slip_of(word(words, 0))),
        Command::Unshown => names::tell_unshown(alloc, word(words, 0), out),
        Command::LiesIn => places::tell_lies_in(alloc, words, out),
        Command::Roots => disk::tell_obstacle(rt, words, out),
        _ => disk::obey(rt, command, words, out),
    }
}

impl Answers for Case<'_> {
    fn begin(&mut self) -> Result<(), Memory> {
        self.lines.clear();
        self.taken = Text::empty(self.rt.alloc());
        Ok(())
    }

    fn answer(&mut self, words: &[Text], out: &mut String) -> Result<(), Memory> {
        match named(COMMANDS, word(words, 0)) {
            Some(command) => self.obey(command, words.get(1..).unwrap_or(&[]), out),
            None => told::text(out, "no such command"),
        }
    }
}

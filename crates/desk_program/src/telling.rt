//! What is written to standard error.

ghost use Rattle.std.specs.Prelude.{None};

use desk_base::{Memory, Text};
use desk_choices::count_notes;
use desk_hints::{Listed, hint_behind};
use desk_report::{Sink, SinkFault, Status, write_fault};
use std::io::{IsTerminal, Write};

/// Writes bytes to standard error, as far as it takes them.
pub fn tell(rt: &HostRuntime, bytes: &[u8]) {
    let _ = rt.stderr().write_all(bytes);
}

/// Writes a text that may lack for want of memory.
pub fn tell_text(rt: &HostRuntime, text: &Result<Text, Memory>) {
    if let Ok(text) = text {
        tell(rt, text.as_bytes());
    }
}

/// Notes that are told, and how many they were.
#[derive(Drop)]
pub(crate) struct Told<'r> {
    /// The way to standard error.
    pub(crate) rt: &'r HostRuntime,
    /// How many notes were told so far.
    pub(crate) notes: u32,
}

impl Told<'_> {
    /// Tells notes, and counts them.
    pub(crate) fn note(&mut self, text: &[u8]) {
        let notes = u32::try_from(count_notes(text)).unwrap_or(u32::MAX);
        self.notes = self.notes.saturating_add(notes);
        tell(self.rt, text);
    }

    /// Tells notes that may lack for want of memory.
    pub(crate) fn note_text(&mut self, text: &Result<Text, Memory>) {
        if let Ok(text) = text {
            self.note(text.as_bytes());
        }
    }
}

/// Standard error as a sink. It tells nothing of what was written.
#[derive(Drop)]
struct ErrorSink<'r> {
    rt: &'r HostRuntime,
    faults: u64,
}

impl Sink for ErrorSink<'_> {
    ghost told = { λ _. None };

    ghost faults = { λ s. s.faults };

    fn write(&mut self, bytes: &[u8]) -> Result<(), SinkFault> {
        match self.rt.stderr().write_all(bytes) {
            Ok(()) => Ok(()),
            Err(_) => {
                self.faults = self.faults.saturating_add(1);
                Err(SinkFault::Failed)
            }
        }
    }
}

/// Whether what is written to standard output is seen where standard error is.
fn is_seen(rt: &HostRuntime) -> bool {
    rt.stdout().is_terminal()
}

/// Repeats the line of a status, which stands on standard output, unless it is seen there.
pub fn tell_status(rt: &HostRuntime, status: &Status) {
    if !is_seen(rt) {
        let _ = write_fault(status, &mut ErrorSink { rt, faults: 0 });
    }
}

/// Repeats a line of the report, without its end, unless it is seen on standard output.
pub fn tell_again(rt: &HostRuntime, line: &[u8]) {
    if !is_seen(rt) && !line.is_empty() {
        tell(rt, b"migrate: ");
        tell(rt, line);
        tell(rt, b"\n");
    }
}

/// Writes the hint of a status on standard error, where there is one.
pub fn tell_hint(rt: &HostRuntime, status: &Status, listed: Listed) {
    if let Some(hint) = hint_behind(status, listed) {
        tell(rt, hint.text());
    }
}

/// Tells why words were not read: the system hands on words in UTF-8 alone.
pub fn tell_unread(rt: &HostRuntime, status: &Status) {
    tell_status(rt, status);
    if let Status::Usage = status {
        tell(rt, b"migrate: a word isn't in UTF-8\n");
    }
    tell_hint(rt, status, Listed::Unknown);
}

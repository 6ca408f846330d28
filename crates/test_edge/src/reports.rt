//! Lines of a report that are listened to.

use crate::told;
use crate::words::{number, word};
use desk_base::{Memory, Text};
use desk_choices::{Closing, Noting, NotingSink, closing_line};
use desk_notes::Notes;
use desk_report::{Detail, MemorySink, Reason, ReportLine, Sink, write_line};
use std::alloc::Global;

/// How many bytes a report may have.
const ROOM: u32 = 100_000;

/// The line of a file that was copied to its own path.
fn copied(alloc: Global, path: &[u8]) -> Result<ReportLine, Memory> {
    let target = Text::from_bytes(alloc, path)?;
    let path = Text::from_bytes(alloc, path)?;
    let detail = Detail::Copy;
    Ok(ReportLine::Written {
        path,
        target,
        detail,
    })
}

/// Puts the lines of files that were copied: how many, and their path.
pub fn put_copied(
    alloc: Global,
    lines: &mut Vec<ReportLine>,
    words: &[Text],
) -> Result<(), Memory> {
    for _ in 0..number(words, 0) {
        lines.push(copied(alloc, word(words, 1))?)?;
    }
    Ok(())
}

/// Puts the line of a file that was kept at its own path.
pub fn put_kept(alloc: Global, lines: &mut Vec<ReportLine>, words: &[Text]) -> Result<(), Memory> {
    let target = Text::from_bytes(alloc, word(words, 0))?;
    let path = Text::from_bytes(alloc, word(words, 0))?;
    Ok(lines.push(ReportLine::Kept { path, target })?)
}

/// Puts the line of a text that a second migration would change again: its path, and where.
pub fn put_unsettled(
    alloc: Global,
    lines: &mut Vec<ReportLine>,
    words: &[Text],
) -> Result<(), Memory> {
    let path = Text::from_bytes(alloc, word(words, 0))?;
    let at = u64::from(number(words, 1));
    let reason = Reason::Unsettled { at };
    Ok(lines.push(ReportLine::Refused { path, reason })?)
}

/// Writes lines, and counts those that were written.
fn write_lines<O: Sink>(lines: &[ReportLine], out: &mut O) -> usize {
    let mut written = 0_usize;
    for line in lines {
        if write_line(line, out).is_ok() {
            written = written.saturating_add(1);
        }
    }
    written
}

/// What is noted of a report, as it is told.
pub fn noted(alloc: Global, report: &[u8]) -> Result<Text, Memory> {
    let mut notes = Box::new(alloc, Notes::new(alloc))?;
    notes.take(report);
    notes.text()
}

/// Tells the last line of a run with these counts: files, written, kept, refused, notes.
pub fn tell_closing(alloc: Global, words: &[Text], out: &mut String) -> Result<(), Memory> {
    let closing = Closing {
        files: number(words, 0),
        written: number(words, 1),
        kept: number(words, 2),
        refused: number(words, 3),
        notes: number(words, 4),
    };
    let line = closing_line(alloc, &closing)?;
    told::line(out, line.as_bytes())
}

/// Tells the counts of what was noted.
fn tell_counts(notes: &Notes, out: &mut String) -> Result<(), Memory> {
    let (archives, named) = (notes.archives.count, notes.archives.first.len());
    let (signatures, unsettled) = (notes.signatures.count, notes.refusals.unsettled);
    let kept = notes.kept;
    writeln!(out, "  archives {archives}, named {named}")?;
    Ok(writeln!(
        out,
        "  signatures {signatures}, unsettled {unsettled}, kept {kept}"
    )?)
}

/// Writes lines to a sink, and gives it.
fn unheard(alloc: Global, lines: &[ReportLine]) -> Result<Box<MemorySink>, Memory> {
    let mut sink = Box::new(alloc, MemorySink::with_room(alloc, ROOM)?)?;
    write_lines(lines, &mut *sink);
    Ok(sink)
}

/// Writes lines to a sink, and to one that is listened to; tells whether both hold the same and what was noted, and gives what
/// is told of it.
pub fn overhear(rt: &HostRuntime, lines: &[ReportLine], out: &mut String) -> Result<Text, Memory> {
    let alloc = rt.alloc();
    let plain = unheard(alloc, lines)?;
    let sink = MemorySink::with_room(alloc, ROOM)?;
    let mut heard = Box::new(alloc, NotingSink::new(rt, sink, Notes::new(alloc)))?;
    let written = write_lines(lines, &mut *heard);
    let is_same = heard.out.written() == plain.written();
    let bytes = if is_same { "the same" } else { "other" };
    writeln!(out, "  {written} lines, {bytes} bytes as unheard")?;
    tell_counts(&heard.notes, out)?;
    let closing = heard.notes.closing(0);
    told::value(out, &Some(closing))?;
    heard.notes.text()
}

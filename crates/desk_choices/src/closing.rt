//! The last line of what is told of a run.

ghost use Rattle.std.specs.Prelude.{◌≡◌, ◌++◌, IfOk, OnOk, decimal};
ghost use Rattle.desk_choices.specs.Closing.{closing_text, counted, is_note, looked_at, refused_text, notes_text};

use desk_base::{Memory, Text};
use itoa::Buffer;
use std::alloc::Global;

/// What came of a run that completed.
#[derive(Clone, Copy, Debug, PartialEq, Eq)]
pub struct Closing {
    /// Files of the source; written, kept and refused together.
    pub files: u32,
    /// Files whose target was written.
    pub written: u32,
    /// Files whose target stands from an earlier run.
    pub kept: u32,
    /// Files for which nothing was written.
    pub refused: u32,
    /// Notes that were told before.
    pub notes: u32,
}

/// Whether a line is a note: it names the program, isn't one of the names below a note, and tells no refused files, which are
/// counted apart.
fn is_note(line: &[u8]) -> bool
    ensures { result ≡ is_note line.now }
{
    line.starts_with(b"migrate: ")
        && !line.starts_with(b"migrate:   ")
        && !line.starts_with(b"migrate: refused: ")
}

/// How many notes a text for people holds, whose lines end with LF.
pub fn count_notes(text: &[u8]) -> usize {
    text.split(|byte| *byte == b'\n')
        .filter(|line| is_note(line))
        .count()
}

/// Adds a count, and what is said behind one or behind another number.
fn append_count(text: &mut Text, count: u32, one: &[u8], more: &[u8]) -> Result<(), Memory>
    ensures { OnOk result (text.new ≡ text.old ++ counted count one.now more.now) }
{
    text.append(Buffer::new().format(count).as_bytes())?;
    text.append(if count == 1 { one } else { more })
}

/// Adds a number, and what is said behind it.
fn append_number(text: &mut Text, number: u32, behind: &[u8]) -> Result<(), Memory>
    ensures { OnOk result (text.new ≡ text.old ++ (decimal number ++ behind.now)) }
{
    text.append(Buffer::new().format(number).as_bytes())?;
    text.append(behind)
}

/// Adds how many files were refused, where there are some.
fn append_refused(text: &mut Text, refused: u32) -> Result<(), Memory>
    ensures { OnOk result (text.new ≡ text.old ++ refused_text refused) }
{
    if refused == 0 {
        return Ok(());
    }
    text.append(b"; ")?;
    append_count(
        text,
        refused,
        b" refused: see its line in the report",
        b" refused: see their lines in the report",
    )
}

/// Adds how many notes there are, where there are some.
fn append_notes(text: &mut Text, notes: u32) -> Result<(), Memory>
    ensures { OnOk result (text.new ≡ text.old ++ notes_text notes) }
{
    if notes == 0 {
        return Ok(());
    }
    text.append(b"; ")?;
    append_count(text, notes, b" note above", b" notes above")
}

/// Adds what is left for a person to look at.
fn append_left(text: &mut Text, refused: u32, notes: u32) -> Result<(), Memory>
    ensures { OnOk result (text.new ≡ text.old ++ looked_at refused notes) }
{
    if refused == 0 && notes == 0 {
        return text.append(b"; nothing is left to look at");
    }
    append_refused(text, refused)?;
    append_notes(text, notes)
}

/// The last line of what is told of a run that completed: how many files it has, and what is left for a person to look at. The only
/// error is want of memory.
pub fn closing_line(alloc: Global, closing: &Closing) -> Result<Text, Memory>
    ensures { IfOk result (λ line. line ≡ closing_text closing.now) }
{
    let mut line = Text::from_bytes(alloc, b"migrate: ")?;
    append_count(&mut line, closing.files, b" file, ", b" files, ")?;
    append_number(&mut line, closing.written, b" written, ")?;
    append_number(&mut line, closing.kept, b" kept")?;
    append_left(&mut line, closing.refused, closing.notes)?;
    line.append(b"\n")?;
    Ok(line)
}

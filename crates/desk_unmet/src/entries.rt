//! The keys of a rule file with the numbers of their lines.

ghost use Rattle.std.specs.Prelude.{◌≡◌};
ghost use Rattle.desk_unmet.specs.Entries.{is_white_byte, is_stop_byte};

use desk_base::{MAX_RULE_FILE_SIZE, Memory, Text};
use desk_properties::{PropError, read_properties};
use memchr::{memchr_iter, memchr2};
use std::alloc::Global;
use std::collections::HashSet;
use std::str;

/// A key or a value of a rule file.
#[derive(Debug, Drop)]
pub enum Piece<'f> {
    /// A slice of the file, in which nothing is escaped.
    Slice(&'f [u8]),
    /// A text of its own, whose escapes are undone.
    Own(Text),
}

impl Piece<'_> {
    /// Its bytes, with escapes undone.
    pub fn as_bytes(&self) -> &[u8] {
        match self {
            Piece::Slice(bytes) => *bytes,
            Piece::Own(text) => text.as_bytes(),
        }
    }
}

/// An entry of a rule file, and the number of the line in which it begins.
#[derive(Debug, Drop)]
pub struct KeyLine<'f> {
    /// The key, with its escapes undone.
    pub key: Piece<'f>,
    /// Its value, with its escapes undone.
    pub value: Piece<'f>,
    /// The number of its first line; that of the file's first is 1, and each LF ends one.
    pub line: u32,
    /// Whether the key stands in a later line again, so that this one has no effect.
    pub is_repeated: bool,
}

/// A line without the CR at its end, where it has one: lines end with LF, CR LF or CR.
fn without_return(line: &[u8]) -> &[u8] {
    match line {
        [front @ .., b'\r'] => front,
        _ => line,
    }
}

/// Whether a byte is a blank of a property file: a space, a tab or a form feed.
fn is_white(byte: u8) -> bool
    ensures { result ≡ is_white_byte byte }
{
    matches!(byte, b' ' | b'\t' | 0x0C)
}

/// Whether a byte ends a key.
fn is_stop(byte: u8) -> bool
    ensures { result ≡ is_stop_byte byte }
{
    matches!(byte, b'=' | b':' | b' ' | b'\t' | 0x0C)
}

/// What stands behind the blanks at the start of a line.
fn behind_blanks(line: &[u8]) -> &[u8] {
    match line.iter().position(|byte| !is_white(*byte)) {
        Some(at) => &line[at..],
        None => b"",
    }
}

/// Whether a line is blank or a comment, where it doesn't go on with another.
fn is_passed(line: &[u8]) -> bool {
    matches!(behind_blanks(line), [] | [b'#' | b'!', ..])
}

/// Whether a line goes on in the next: it ends with an odd number of backslashes.
fn goes_on(line: &[u8]) -> bool {
    let backslashes = line.iter().rev().take_while(|byte| **byte == b'\\');
    backslashes.count() % 2 == 1
}

/// The value of an entry, by what stands behind its key.
fn value_in(behind: &[u8]) -> &[u8] {
    match behind_blanks(behind) {
        [b'=' | b':', value @ ..] => behind_blanks(value),
        value => value,
    }
}

/// The entry of a line without a backslash.
fn plain_entry(line: &[u8], number: u32) -> KeyLine<'_> {
    let entry = behind_blanks(line);
    let end = entry.iter().position(|byte| is_stop(*byte));
    let (key, behind) = match end {
        Some(end) => entry.split_at(end),
        None => (entry, b"".as_slice()),
    };
    KeyLine {
        key: Piece::Slice(key),
        value: Piece::Slice(value_in(behind)),
        line: number,
        is_repeated: false,
    }
}

/// The entry of a line with all that go on with it; none of one that doesn't read.
fn entry_of<'f>(alloc: Global, text: &[u8], line: u32) -> Result<Option<KeyLine<'f>>, Memory> {
    if text.len() > MAX_RULE_FILE_SIZE {
        return Ok(None);
    }
    match read_properties(alloc, text) {
        Ok(entries) => match entries.get_index(0) {
            Some((key, value)) => Ok(Some(KeyLine {
                key: Piece::Own(key.clone()?),
                value: Piece::Own(value.clone()?),
                line,
                is_repeated: false,
            })),
            None => Ok(None),
        },
        Err(PropError::Fault(_)) => Ok(None),
        Err(PropError::Memory) => Err(Memory),
    }
}

/// The entries that were read, and the lines of one that goes on.
#[derive(Drop)]
struct Reading<'f> {
    alloc: Global,
    is_utf8: bool,
    entries: Vec<KeyLine<'f>>,
    begun: Text,
    first: u32,
}

impl<'f> Reading<'f> {
    /// Takes the next line, of this number.
    fn take(&mut self, line: &[u8], number: u32) -> Result<(), Memory> {
        if self.begun.as_bytes().is_empty() {
            if is_passed(line) {
                return Ok(());
            }
            self.first = number;
        }
        self.begun.append(line)?;
        self.begun.push(b'\n')?;
        if goes_on(line) { Ok(()) } else { self.end() }
    }

    /// Takes what stands before an LF, of this number: a line, or several that end with CR, which have the number of the LF.
    fn take_all(&mut self, lines: &[u8], number: u32) -> Result<(), Memory> {
        for line in lines.split(|byte| *byte == b'\r') {
            self.take(line, number)?;
        }
        Ok(())
    }

    /// Whether a line is read without a copy: it goes on with none, and nothing is escaped in it.
    fn is_plain(&self, lines: &[u8]) -> bool {
        self.is_utf8 && self.begun.as_bytes().is_empty() && memchr2(b'\\', b'\r', lines).is_none()
    }

    /// Takes what stands before an LF, of this number.
    fn take_line(&mut self, lines: &'f [u8], number: u32) -> Result<(), Memory> {
        if !self.is_plain(lines) {
            return self.take_all(lines, number);
        }
        if !is_passed(lines) {
            self.entries.push(plain_entry(lines, number))?;
        }
        Ok(())
    }

    /// Ends the entry that was begun.
    fn end(&mut self) -> Result<(), Memory> {
        let begun = std::mem::replace(&mut self.begun, Text::empty(self.alloc));
        if let Some(entry) = entry_of(self.alloc, begun.as_bytes(), self.first)? {
            self.entries.push(entry)?;
        }
        Ok(())
    }
}

/// The bytes of a file from one offset to another.
fn between(file: &[u8], from: usize, to: usize) -> &[u8] {
    file.get(from..to).unwrap_or(b"")
}

/// For each entry, from the last on, whether its key stands in a later line again.
fn repeated(alloc: Global, entries: &[KeyLine<'_>]) -> Result<Vec<bool>, Memory> {
    let mut later: HashSet<&[u8]> = HashSet::new(alloc);
    let mut repeated = Vec::new(alloc);
    for entry in entries.iter().rev() {
        let is_new = later.insert(entry.key.as_bytes())?;
        repeated.push(!is_new)?;
    }
    Ok(repeated)
}

/// Marks each entry whose key stands in a later line again.
fn mark_repeated(alloc: Global, entries: &mut [KeyLine<'_>]) -> Result<(), Memory> {
    let repeated = repeated(alloc, entries)?;
    for (entry, is_repeated) in entries.iter_mut().rev().zip(repeated) {
        entry.is_repeated = is_repeated;
    }
    Ok(())
}

/// The entries of a rule file in the order of their lines, also those whose key stands there twice. A line that doesn't read is left
/// out. The only error is want of memory.
pub fn key_lines(alloc: Global, file: &[u8]) -> Result<Vec<KeyLine<'_>>, Memory> {
    let mut reading = Reading {
        alloc,
        is_utf8: str::from_utf8(file).is_ok(),
        entries: Vec::new(alloc),
        begun: Text::empty(alloc),
        first: 0,
    };
    let mut number = 0_u32;
    let mut from = 0;
    for end in memchr_iter(b'\n', file) {
        number = number.saturating_add(1);
        reading.take_line(without_return(between(file, from, end)), number)?;
        from = end.saturating_add(1);
    }
    let last = between(file, from, file.len());
    reading.take_line(without_return(last), number.saturating_add(1))?;
    reading.end()?;
    mark_repeated(alloc, &mut reading.entries)?;
    Ok(reading.entries)
}

/// The line of a key: of several the last, whose value counts.
pub fn line_of_key(entries: &[KeyLine<'_>], key: &[u8]) -> Option<u32> {
    let last = entries
        .iter()
        .rev()
        .find(|entry| entry.key.as_bytes() == key)?;
    Some(last.line)
}

/// The number of the line in which a byte of a file stands.
pub fn line_of_byte(file: &[u8], at: usize) -> u32 {
    let front = &file[..at.min(file.len())];
    let ends = front.iter().filter(|byte| **byte == b'\n').count();
    u32::try_from(ends).unwrap_or(u32::MAX).saturating_add(1)
}

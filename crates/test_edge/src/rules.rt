//! What is noted of rule files, and the lines of their keys.

use crate::told;
use crate::words::{number, word};
use desk_base::{Memory, Text};
use desk_notes::{RuleNotes, special_patterns};
use desk_unmet::{key_lines, line_of_byte};
use std::alloc::Global;
use test_cases::Shown;

/// What is noted of a rule file by its name and content.
pub fn noted(alloc: Global, name: &[u8], content: &[u8]) -> Result<Text, Memory> {
    let mut notes = Box::new(alloc, RuleNotes::new(alloc))?;
    let entries = key_lines(alloc, content)?;
    notes.take(name, content, &entries)?;
    let mut text = Text::empty(alloc);
    notes.append_to(&mut text)?;
    Ok(text)
}

/// What is noted of a selection by its content, and the paths that it may fit.
pub fn unmet(alloc: Global, words: &[Text]) -> Result<Text, Memory> {
    let mut notes = Box::new(alloc, RuleNotes::new(alloc))?;
    let entries = key_lines(alloc, word(words, 0))?;
    let patterns = special_patterns(alloc, &entries)?;
    let paths = words.get(1..).unwrap_or(&[]);
    notes.take_patterns(b"selection.properties", &patterns, &[paths])?;
    let mut text = Text::empty(alloc);
    notes.append_to(&mut text)?;
    Ok(text)
}

/// Tells each key of a rule file with its line.
pub fn tell_key_lines(alloc: Global, content: &[u8], out: &mut String) -> Result<(), Memory> {
    let entries = key_lines(alloc, content)?;
    for entry in &entries {
        let (line, key) = (entry.line, Shown(entry.key.as_bytes()));
        let value = Shown(entry.value.as_bytes());
        writeln!(out, "  {line}: {key} {value}")?;
    }
    Ok(())
}

/// Tells the line in which a byte of a file stands.
pub fn tell_byte_line(words: &[Text], out: &mut String) -> Result<(), Memory> {
    let line = line_of_byte(word(words, 0), number(words, 1) as usize);
    told::number(out, u64::from(line))
}

//! The lines of answers.

use desk_base::{Memory, Text};
use std::fmt::Debug;
use test_cases::Shown;

/// Tells a text.
pub fn text(out: &mut String, text: &str) -> Result<(), Memory> {
    Ok(writeln!(out, "  {text}")?)
}

/// Tells bytes.
pub fn bytes(out: &mut String, bytes: &[u8]) -> Result<(), Memory> {
    Ok(writeln!(out, "  {}", Shown(bytes))?)
}

/// Tells bytes, where there are some to tell.
pub fn optional(out: &mut String, found: Option<&[u8]>) -> Result<(), Memory> {
    match found {
        Some(found) => bytes(out, found),
        None => text(out, "none"),
    }
}

/// Tells two words.
pub fn pair(out: &mut String, first: &[u8], second: &[u8]) -> Result<(), Memory> {
    Ok(writeln!(out, "  {} {}", Shown(first), Shown(second))?)
}

/// Tells a value, as a fault or a kind.
pub fn value<T: Debug>(out: &mut String, value: &T) -> Result<(), Memory> {
    Ok(writeln!(out, "  {value:?}")?)
}

/// Tells each of some words, in one line.
pub fn words(out: &mut String, words: &[Text]) -> Result<(), Memory> {
    out.push(' ')?;
    for word in words {
        write!(out, " {}", Shown(word.as_bytes()))?;
    }
    Ok(out.push('\n')?)
}

/// Tells a new name, and a version, where there is one.
pub fn update(out: &mut String, name: &[u8], version: Option<&[u8]>) -> Result<(), Memory> {
    match version {
        Some(version) => pair(out, name, version),
        None => bytes(out, name),
    }
}

//! The lines of answers.

use desk_base::Memory;
use std::fmt::Debug;
use std::str;
use test_cases::Shown;

/// Tells a text.
pub fn text(out: &mut String, text: &str) -> Result<(), Memory> {
    Ok(writeln!(out, "  {text}")?)
}

/// Tells bytes.
pub fn bytes(out: &mut String, bytes: &[u8]) -> Result<(), Memory> {
    Ok(writeln!(out, "  {}", Shown(bytes))?)
}

/// Tells a line for people, which has an end of its own.
pub fn line(out: &mut String, line: &[u8]) -> Result<(), Memory> {
    match str::from_utf8(line) {
        Ok(line) => Ok(write!(out, "  {line}")?),
        Err(_) => bytes(out, line),
    }
}

/// Tells a number.
pub fn number(out: &mut String, number: u64) -> Result<(), Memory> {
    Ok(writeln!(out, "  {number}")?)
}

/// Tells whether something is so.
pub fn is_so(out: &mut String, is_so: bool) -> Result<(), Memory> {
    text(out, if is_so { "yes" } else { "no" })
}

/// Tells a value by its name, if there is one.
pub fn value<T: Debug>(out: &mut String, value: &Option<T>) -> Result<(), Memory> {
    match value {
        Some(value) => Ok(writeln!(out, "  {value:?}")?),
        None => text(out, "none"),
    }
}

//! The lines of answers.

use desk_base::Memory;
use std::fmt::Debug;
use test_cases::Shown;

/// Tells a text.
pub fn text(out: &mut String, text: &str) -> Result<(), Memory> {
    Ok(writeln!(out, "  {text}")?)
}

/// Tells bytes.
pub fn bytes(out: &mut String, bytes: &[u8]) -> Result<(), Memory> {
    Ok(writeln!(out, "  {}", Shown(bytes))?)
}

/// Tells a number and bytes.
pub fn counted(out: &mut String, count: u32, bytes: &[u8]) -> Result<(), Memory> {
    Ok(writeln!(out, "  {count} {}", Shown(bytes))?)
}

/// Tells a value, as a fault, by its fields.
pub fn value<T: Debug>(out: &mut String, value: &T) -> Result<(), Memory> {
    Ok(writeln!(out, "  {value:?}")?)
}

/// Tells what something is, and words.
pub fn words(out: &mut String, what: &str, words: &[&[u8]]) -> Result<(), Memory> {
    write!(out, "  {what}")?;
    for word in words {
        write!(out, " {}", Shown(word))?;
    }
    Ok(out.push('\n')?)
}

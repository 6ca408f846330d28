//! The lines of answers.

use desk_base::{Malformed, Memory, ReadFault};
use std::fmt::Debug;
use test_cases::Shown;

/// Tells a text.
pub fn text(out: &mut String, text: &str) -> Result<(), Memory> {
    Ok(writeln!(out, "  {text}")?)
}

/// Tells bytes.
pub fn bytes(out: &mut String, bytes: &[u8]) -> Result<(), Memory> {
    Ok(writeln!(out, "  {}", Shown(bytes))?)
}

/// Tells bytes, where there are some to tell.
pub fn optional(out: &mut String, found: Option<&[u8]>) -> Result<(), Memory> {
    match found {
        Some(found) => bytes(out, found),
        None => text(out, "None"),
    }
}

/// Tells a value by its fields.
pub fn value<T: Debug>(out: &mut String, value: &T) -> Result<(), Memory> {
    Ok(writeln!(out, "  {value:?}")?)
}

/// Tells each of some values by its fields, or that there is none.
pub fn each<T: Debug>(out: &mut String, values: &[T]) -> Result<(), Memory> {
    if values.is_empty() {
        return text(out, "none");
    }
    for one in values {
        value(out, one)?;
    }
    Ok(())
}

/// Tells a fault with its place.
pub fn fault(out: &mut String, fault: ReadFault) -> Result<(), Memory> {
    match fault {
        ReadFault::Malformed(Malformed { kind, at }) => Ok(writeln!(out, "  {kind:?} at {at}")?),
        ReadFault::Memory => text(out, "out of memory"),
    }
}

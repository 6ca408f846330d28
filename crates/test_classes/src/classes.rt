//! Classes.

use crate::commands::ClassQuestion;
use crate::told;
use crate::words::content;
use desk_base::{FaultKind, Malformed, Memory, ReadFault};
use desk_class::ClassView;
use std::alloc::Global;

/// The class that bytes are.
fn class_of(alloc: Global, bytes: &[u8]) -> Result<Box<ClassView<'_>>, ReadFault> {
    let class = ClassView::read(alloc, content(bytes))?;
    Ok(Box::new(alloc, class)?)
}

/// Tells the names that a class holds, in byte order.
fn tell_class_names(alloc: Global, class: &ClassView<'_>, out: &mut String) -> Result<(), Memory> {
    let names = class.class_names(alloc)?;
    for name in names.as_slice() {
        told::bytes(out, name.as_bytes())?;
    }
    Ok(())
}

/// Tells the names that a class holds, in the order of the class.
fn tell_held_names(alloc: Global, class: &ClassView<'_>, out: &mut String) -> Result<(), Memory> {
    let names = class.held_names(alloc)?;
    for place in 0..names.len() {
        told::bytes(out, names.get(place))?;
    }
    Ok(())
}

/// Answers a question on a class.
fn answer(
    alloc: Global,
    class: &ClassView<'_>,
    question: ClassQuestion,
    out: &mut String,
) -> Result<(), Memory> {
    match question {
        ClassQuestion::Whether => told::text(out, "reads"),
        ClassQuestion::Bytes => told::bytes(out, class.bytes()),
        ClassQuestion::Body => told::value(out, &class.body_at()),
        ClassQuestion::Name => told::bytes(out, class.name()),
        ClassQuestion::Count => told::value(out, &class.pool().count()),
        ClassQuestion::Members => told::each(out, class.members()),
        ClassQuestion::Uses => told::each(out, class.uses()),
        ClassQuestion::ClassNames => tell_class_names(alloc, class, out),
        ClassQuestion::HeldNames => tell_held_names(alloc, class, out),
    }
}

/// Answers a question on the class that bytes are.
pub fn ask(
    alloc: Global,
    bytes: &[u8],
    question: ClassQuestion,
    out: &mut String,
) -> Result<(), Memory> {
    match class_of(alloc, bytes) {
        Ok(class) => answer(alloc, &class, question, out),
        Err(fault) => told::fault(out, fault),
    }
}

/// What is wrong with bytes; none where they are a class.
fn kind_of_fault(alloc: Global, bytes: &[u8]) -> Option<FaultKind> {
    match class_of(alloc, bytes) {
        Err(ReadFault::Malformed(Malformed { kind, at: _ })) => Some(kind),
        _ => None,
    }
}

/// Tells how many fronts of bytes, of all lengths below theirs, are truncated.
pub fn tell_cuts(alloc: Global, bytes: &[u8], out: &mut String) -> Result<(), Memory> {
    let mut truncated = 0u32;
    for length in 0..bytes.len() {
        if kind_of_fault(alloc, &bytes[..length]) == Some(FaultKind::Truncated) {
            truncated = truncated.saturating_add(1);
        }
    }
    Ok(writeln!(out, "  {truncated} of {} are truncated", bytes.len())?)
}

/// Tells whether more than so many faults are found with 255 in place of each byte in turn.
pub fn tell_faults(
    alloc: Global,
    bytes: &[u8],
    count: u16,
    out: &mut String,
) -> Result<(), Memory> {
    let mut faults = 0u16;
    for place in 0..bytes.len() {
        let mut changed = bytes.to_vec(alloc)?;
        if let Some(byte) = changed.get_mut(place) {
            *byte = 255;
        }
        if kind_of_fault(alloc, &changed).is_some() {
            faults = faults.saturating_add(1);
        }
    }
    told::text(out, if faults > count { "more" } else { "not more" })
}

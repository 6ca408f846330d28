//! Lines of faults.

use crate::told;
use crate::words::{named, number, word};
use desk_base::{Memory, Text};
use desk_faults::{Cause, Fault, Tried, fault_line};
use desk_hints::listed_by;
use std::alloc::Global;
use std::io::Error;

/// What was tried, by its name.
const TRIED: &[(&[u8], Tried)] = &[
    (b"placing", Tried::Placing),
    (b"listing", Tried::Listing),
    (b"reading", Tried::Reading),
    (b"making", Tried::Making),
    (b"opening", Tried::Opening),
    (b"keeping", Tried::Keeping),
];

/// The causes that aren't the system's, by their names.
const CAUSES: &[(&[u8], Cause)] = &[
    (b"link", Cause::Link),
    (b"special", Cause::Special),
    (b"holds-written", Cause::HoldsWritten),
    (b"holds-read", Cause::HoldsRead),
    (b"folder", Cause::Folder),
    (b"busy", Cause::Busy),
    (b"full", Cause::Full),
];

/// The cause that these words name; `system` and a number is an error of Linux.
fn cause_of(words: &[Text]) -> Option<Cause> {
    if word(words, 0) == b"system".as_slice() {
        let number = i32::try_from(number(words, 1)).unwrap_or(0);
        return Some(Cause::System(Error::from_raw_os_error(number)));
    }
    named(CAUSES, word(words, 0))
}

/// The fault that these words name: what was tried, the path, and the cause.
fn fault_of(alloc: Global, words: &[Text]) -> Result<Option<Box<Fault>>, Memory> {
    let [tried, path, cause @ ..] = words else {
        return Ok(None);
    };
    match (named(TRIED, tried.as_bytes()), cause_of(cause)) {
        (Some(tried), Some(cause)) => {
            let fault = Fault::of(alloc, tried, path, cause)?;
            Ok(Some(Box::new(alloc, fault)?))
        }
        _ => Ok(None),
    }
}

/// Tells what stood where a folder was listed, by a fault.
pub fn tell_listed(alloc: Global, words: &[Text], out: &mut String) -> Result<(), Memory> {
    match fault_of(alloc, words)? {
        Some(fault) => told::value(out, &Some(listed_by(&fault))),
        None => told::text(out, "no such fault"),
    }
}

/// Tells the line of a fault.
pub fn tell_fault(alloc: Global, words: &[Text], out: &mut String) -> Result<(), Memory> {
    match fault_of(alloc, words)? {
        Some(fault) => {
            let line = fault_line(alloc, &fault)?;
            told::line(out, line.as_bytes())
        }
        None => told::text(out, "no such fault"),
    }
}

//! Statuses by their words.

use crate::words::{number, word};
use desk_base::{Memory, Text};
use desk_ledger::{Digest, Header};
use desk_report::{LimitKind, Status};
use desk_rules::RuleFault;
use std::alloc::Global;

/// What a status is called in a case.
#[derive(Clone, Copy)]
pub enum Name {
    Done,
    Refusals,
    Differs,
    Memory,
    FolderFault,
    LedgerFault,
    OutputFault,
    Usage,
    NoRenames,
    FileSize,
    Both,
    PathClash,
    NameClash,
    Stranded,
    OtherRun,
    Moved,
}

/// What each status is called.
pub const STATUSES: &[(&[u8], Name)] = &[
    (b"done", Name::Done),
    (b"refusals", Name::Refusals),
    (b"differs", Name::Differs),
    (b"memory", Name::Memory),
    (b"folder-fault", Name::FolderFault),
    (b"ledger-fault", Name::LedgerFault),
    (b"output-fault", Name::OutputFault),
    (b"usage", Name::Usage),
    (b"no-renames", Name::NoRenames),
    (b"file-size", Name::FileSize),
    (b"both", Name::Both),
    (b"path-clash", Name::PathClash),
    (b"name-clash", Name::NameClash),
    (b"stranded", Name::Stranded),
    (b"other-run", Name::OtherRun),
    (b"moved", Name::Moved),
];

/// The word at a place, as a text of its own.
fn own(alloc: Global, words: &[Text], place: usize) -> Result<Text, Memory> {
    Text::from_bytes(alloc, word(words, place))
}

/// A digest of which each byte is the word at a place.
fn digest(words: &[Text], place: usize) -> Digest {
    Digest([u8::try_from(number(words, place)).unwrap_or(0); 32])
}

/// The header of a ledger: source, target and rules.
fn header(alloc: Global, words: &[Text]) -> Result<Header, Memory> {
    let from = own(alloc, words, 0)?;
    let to = own(alloc, words, 1)?;
    let rules = digest(words, 2);
    Ok(Header { from, to, rules })
}

/// A ledger with a header, where another is wanted.
fn other_run(alloc: Global, words: &[Text]) -> Result<Status, Memory> {
    let kept = header(alloc, words)?;
    let wanted = header(alloc, words.get(3..).unwrap_or(&[]))?;
    Ok(Status::OtherRun { kept, wanted })
}

/// A limit that is passed at a file.
fn limit(alloc: Global, kind: LimitKind, words: &[Text]) -> Result<Status, Memory> {
    let path = own(alloc, words, 0)?;
    Ok(Status::Limit { kind, path })
}

/// A file in which two applications differ.
fn differs(alloc: Global, words: &[Text]) -> Result<Status, Memory> {
    let path = own(alloc, words, 0)?;
    Ok(Status::Differs { path })
}

/// Two files with one target.
fn path_clash(alloc: Global, words: &[Text]) -> Result<Status, Memory> {
    let first = own(alloc, words, 0)?;
    let second = own(alloc, words, 1)?;
    Ok(Status::PathClash { first, second })
}

/// Two names that would become one.
fn name_clash(alloc: Global, words: &[Text]) -> Result<Status, Memory> {
    let defined = own(alloc, words, 0)?;
    let other = own(alloc, words, 1)?;
    let image = own(alloc, words, 2)?;
    Ok(Status::NameClash {
        defined,
        other,
        image,
    })
}

/// A class that isn't selected and holds a name that changes.
fn stranded(alloc: Global, words: &[Text]) -> Result<Status, Memory> {
    let path = own(alloc, words, 0)?;
    let name = own(alloc, words, 1)?;
    Ok(Status::Stranded { path, name })
}

/// A file that changed between two readings.
fn moved(alloc: Global, words: &[Text]) -> Result<Status, Memory> {
    let path = own(alloc, words, 0)?;
    let first = digest(words, 1);
    let second = digest(words, 2);
    Ok(Status::Moved {
        path,
        first,
        second,
    })
}

/// A status without texts.
fn plain(name: Name, done: u32) -> Status {
    match name {
        Name::Refusals => Status::Refusals,
        Name::Memory => Status::Memory,
        Name::FolderFault => Status::FolderFault { done },
        Name::LedgerFault => Status::LedgerFault { done },
        Name::OutputFault => Status::OutputFault,
        Name::Usage => Status::Usage,
        Name::NoRenames => Status::BadRules(RuleFault::NoRenames),
        _ => Status::Done,
    }
}

/// The status of this name, with what the words say of it.
fn made(alloc: Global, name: Name, words: &[Text]) -> Result<Status, Memory> {
    match name {
        Name::Differs => differs(alloc, words),
        Name::FileSize => limit(alloc, LimitKind::FileSize, words),
        Name::Both => limit(alloc, LimitKind::Both, words),
        Name::PathClash => path_clash(alloc, words),
        Name::NameClash => name_clash(alloc, words),
        Name::Stranded => stranded(alloc, words),
        Name::OtherRun => other_run(alloc, words),
        Name::Moved => moved(alloc, words),
        _ => Ok(plain(name, number(words, 0))),
    }
}

/// The status of this name, with what the words say of it, in a box.
pub fn status_of(alloc: Global, name: Name, words: &[Text]) -> Result<Box<Status>, Memory> {
    Ok(Box::new(alloc, made(alloc, name, words)?)?)
}

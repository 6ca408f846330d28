//! Entries of rule files, each a key and a value.

use crate::commands::Entry;
use crate::told;
use desk_base::Memory;
use desk_entries::{
    EntryError, EntryFault, Rename, Update, Versions, check_string, check_text_rule, read_mark,
    read_rename, read_text_name, read_update, read_versions,
};
use std::alloc::Global;

/// Tells a rename's reach, and the segments of its two packages.
fn tell_rename(rename: &Rename, out: &mut String) -> Result<(), Memory> {
    told::value(out, &rename.reach)?;
    told::words(out, rename.source.as_slice())?;
    told::words(out, rename.target.as_slice())
}

/// Tells the versions of imports and exports.
fn tell_versions(versions: &Versions, out: &mut String) -> Result<(), Memory> {
    told::pair(
        out,
        versions.imported.as_bytes(),
        versions.exported.as_bytes(),
    )
}

/// Tells the name and the version of an update.
fn tell_update(update: &Update, out: &mut String) -> Result<(), Memory> {
    match &update.version {
        Some(version) => told::update(out, update.name.as_bytes(), Some(version.as_bytes())),
        None => told::update(out, update.name.as_bytes(), None),
    }
}

/// Tells which of key and value is at fault.
fn tell_error(error: EntryError, out: &mut String) -> Result<(), Memory> {
    match error {
        EntryError::Fault(fault) => told::value(out, &fault),
        EntryError::Memory => Err(Memory),
    }
}

/// Tells whether there is a fault, and which.
fn tell_check(check: Result<(), EntryFault>, out: &mut String) -> Result<(), Memory> {
    match check {
        Ok(()) => told::text(out, "well"),
        Err(fault) => told::value(out, &fault),
    }
}

/// Reads an entry as a rename, and tells it.
fn read_as_rename(alloc: Global, key: &[u8], value: &[u8], out: &mut String) -> Result<(), Memory> {
    match read_rename(alloc, key, value) {
        Ok(rename) => tell_rename(&rename, out),
        Err(error) => tell_error(error, out),
    }
}

/// Reads an entry as versions, and tells them.
fn read_as_versions(
    alloc: Global,
    key: &[u8],
    value: &[u8],
    out: &mut String,
) -> Result<(), Memory> {
    match read_versions(alloc, key, value) {
        Ok(versions) => tell_versions(&versions, out),
        Err(error) => tell_error(error, out),
    }
}

/// Reads an entry as an update of a bundle, and tells it.
fn read_as_update(alloc: Global, key: &[u8], value: &[u8], out: &mut String) -> Result<(), Memory> {
    match read_update(alloc, key, value) {
        Ok(update) => tell_update(&update, out),
        Err(error) => tell_error(error, out),
    }
}

/// Reads an entry as a pattern's mark, and tells it.
fn read_as_mark(key: &[u8], value: &[u8], out: &mut String) -> Result<(), Memory> {
    match read_mark(key, value) {
        Ok(mark) => told::value(out, &mark),
        Err(fault) => told::value(out, &fault),
    }
}

/// Reads an entry as a pattern's file of text rules, and tells its name.
fn read_as_text_name(key: &[u8], value: &[u8], out: &mut String) -> Result<(), Memory> {
    match read_text_name(key, value) {
        Ok(name) => told::bytes(out, name),
        Err(fault) => told::value(out, &fault),
    }
}

/// Reads a key and a value, and tells what they say, or which of them is at fault.
pub fn tell_entry(
    alloc: Global,
    entry: Entry,
    key: &[u8],
    value: &[u8],
    out: &mut String,
) -> Result<(), Memory> {
    match entry {
        Entry::Rename => read_as_rename(alloc, key, value, out),
        Entry::Versions => read_as_versions(alloc, key, value, out),
        Entry::Update => read_as_update(alloc, key, value, out),
        Entry::Mark => read_as_mark(key, value, out),
        Entry::TextName => read_as_text_name(key, value, out),
        Entry::String => tell_check(check_string(key, value), out),
        Entry::TextRule => tell_check(check_text_rule(key), out),
    }
}

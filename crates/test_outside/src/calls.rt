//! Commands over folders.

use crate::places::{TestFolders, names_root};
use crate::told::{say, say_bytes, say_done, say_fault, say_texts};
use crate::words::{number_of, text_of};
use desk_base::{Memory, Text};
use desk_folders::{FolderFault, is_full};
use std::alloc::Global;
use test_cases::Shown;

/// A call of folders.
#[derive(Clone, Copy)]
pub enum Call {
    Create,
    CreateFiles,
    Append,
    Read,
    ReadLength,
    Size,
    List,
    Count,
    Content,
    Stop,
    Mend,
    KeepWithin,
    KeepApart,
    Fault,
}

/// The most paths that a listing may be asked for.
const MOST: u32 = 1_000_000;

/// Makes a file, and answers what came of it.
fn create(place: &mut TestFolders<'_>, path: &Text, out: &mut String) -> Result<(), Memory> {
    if is_full(path.as_bytes()) {
        say_done(place.create(path), out)
    } else {
        say("not a full path", out)
    }
}

/// The path of the file of a number in a folder.
fn numbered(alloc: Global, folder: &Text, number: u32) -> Result<Text, Memory> {
    let path = format!(in alloc; "{}/{number:04}", text_of(folder))?;
    Text::from_bytes(alloc, path.as_bytes())
}

/// Makes the file of a number in a folder.
fn make_file(
    place: &mut TestFolders<'_>,
    alloc: Global,
    folder: &Text,
    number: u32,
) -> Result<(), FolderFault> {
    let path = numbered(alloc, folder, number)?;
    if is_full(path.as_bytes()) {
        place.create(&path)
    } else {
        Ok(())
    }
}

/// Makes so many files in a folder, with names of four digits, until one fails.
fn make_files(
    place: &mut TestFolders<'_>,
    alloc: Global,
    folder: &Text,
    count: u32,
) -> Result<(), FolderFault> {
    for number in 0..count {
        make_file(place, alloc, folder, number)?;
    }
    Ok(())
}

/// Answers how many bytes a file has.
fn size(place: &mut TestFolders<'_>, path: &Text, out: &mut String) -> Result<(), Memory> {
    if !is_full(path.as_bytes()) {
        return say("not a full path", out);
    }
    match place.size(path) {
        Ok(Some(size)) => Ok(writeln!(out, "  {size}")?),
        Ok(None) => say("none", out),
        Err(fault) => say_fault(fault, out),
    }
}

/// Answers a part of a file, or its length.
fn say_part(part: &[u8], call: Call, out: &mut String) -> Result<(), Memory> {
    match call {
        Call::ReadLength => Ok(writeln!(out, "  {}", part.len())?),
        _ => say_bytes(part, out),
    }
}

/// Reads a part of a file, and answers it or its length.
fn read(
    place: &mut TestFolders<'_>,
    call: Call,
    path: &Text,
    at: &Text,
    want: u32,
    out: &mut String,
) -> Result<(), Memory> {
    if want == 0 {
        return say("no bytes are wanted", out);
    }
    match place.read(path, u64::from(number_of(at)), want) {
        None => say("no file", out),
        Some(Err(fault)) => say_fault(fault, out),
        Some(Ok(part)) => say_part(part.as_bytes(), call, out),
    }
}

/// Answers how many paths there are, and the last.
fn say_count(paths: &[Text], out: &mut String) -> Result<(), Memory> {
    match paths {
        [.., last] => Ok(writeln!(out, "  {} {}", paths.len(), Shown(last.as_bytes()))?),
        [] => say("none", out),
    }
}

/// Answers paths, or how many there are and the last.
fn say_paths(paths: &[Text], call: Call, out: &mut String) -> Result<(), Memory> {
    match call {
        Call::Count => say_count(paths, out),
        _ => say_texts(paths, out),
    }
}

/// Lists the paths below a root, and answers them, or how many there are and the last.
fn list(
    place: &mut TestFolders<'_>,
    call: Call,
    root: &Text,
    most: u32,
    out: &mut String,
) -> Result<(), Memory> {
    if most > MOST || !names_root(root.as_bytes()) {
        return say("not a root, or too many paths", out);
    }
    match place.list(root, most) {
        Err(fault) => say_fault(fault, out),
        Ok(paths) => say_paths(paths.as_slice(), call, out),
    }
}

/// Answers the last fault: what was tried, on which path, and the words of the cause.
fn answer_fault(place: &TestFolders<'_>, out: &mut String) -> Result<(), Memory> {
    match place.last_fault() {
        Some(fault) => {
            let path = Shown(fault.path.as_bytes());
            let words = Shown(fault.words.as_bytes());
            Ok(writeln!(out, "  {:?} {path} {words}", fault.tried)?)
        }
        None => say("none", out),
    }
}

/// Answers a call with a path, or with a number of a call.
fn answer_one(
    place: &mut TestFolders<'_>,
    call: Call,
    word: &Text,
    out: &mut String,
) -> Result<(), Memory> {
    match call {
        Call::Create => create(place, word, out),
        Call::Size => size(place, word, out),
        Call::Content => place.answer_content(word, out),
        Call::Stop => {
            place.stop_at(u64::from(number_of(word)));
            Ok(())
        }
        Call::KeepWithin => {
            place.keep_within(word.clone()?);
            Ok(())
        }
        _ => say("other words are wanted", out),
    }
}

/// Answers a call with a path and a second word.
fn answer_two(
    place: &mut TestFolders<'_>,
    alloc: Global,
    call: Call,
    path: &Text,
    word: &Text,
    out: &mut String,
) -> Result<(), Memory> {
    match call {
        Call::CreateFiles => say_done(make_files(place, alloc, path, number_of(word)), out),
        Call::Append => place.append(path, word.as_bytes(), out),
        Call::KeepApart => place.keep_apart(alloc, path, word),
        Call::List | Call::Count => list(place, call, path, number_of(word), out),
        _ => say("other words are wanted", out),
    }
}

/// Answers a call.
pub fn answer(
    place: &mut TestFolders<'_>,
    alloc: Global,
    call: Call,
    words: &[Text],
    out: &mut String,
) -> Result<(), Memory> {
    match (call, words) {
        (Call::Mend, []) => {
            place.mend();
            Ok(())
        }
        (Call::Fault, []) => answer_fault(place, out),
        (_, [word]) => answer_one(place, call, word, out),
        (_, [path, word]) => answer_two(place, alloc, call, path, word, out),
        (Call::Read | Call::ReadLength, [path, at, want]) => {
            read(place, call, path, at, number_of(want), out)
        }
        _ => say("other words are wanted", out),
    }
}

//! What `clap` says against words.

ghost use Rattle.std.specs.Prelude.{◌≡◌, ◌++◌, IfOk, OnOk, map};
ghost use Rattle.std.specs.List.{flat_map};
ghost use Rattle.desk_base.specs.Shown.{shown_byte};

use crate::joining::whole_words;
use crate::parsing::{
    calls_command, compare_command, generate_command, invert_command, run_command,
};
use clap::Command;
use desk_base::{Memory, Text, show_byte};
use std::alloc::Global;

/// A word, each byte as it is shown in a report.
fn shown_word(alloc: Global, word: &[u8]) -> Result<Text, Memory>
    ensures { IfOk result (λ shown. shown ≡ flat_map shown_byte word.now) }
{
    let mut shown = Text::empty(alloc);
    for byte in word {
        shown.append(show_byte(*byte).as_bytes())?;
    }
    Ok(shown)
}

/// Words, each byte as it is shown in a report: so what is said against them names them as paths are named, and writes none of their
/// bytes raw. Names of options stay as they are.
fn shown_words(alloc: Global, words: &[Text]) -> Result<Vec<Text>, Memory>
    ensures { IfOk result (λ shown. shown.items ≡ map (flat_map shown_byte) words.now) }
{
    let mut shown = Vec::new(alloc);
    for word in words {
        shown.push(shown_word(alloc, word.as_bytes())?)?;
    }
    Ok(shown)
}

/// The first part of what `clap` says, behind `migrate: `; it ends at an empty line.
fn first_part(alloc: Global, said: &str) -> Result<Text, Memory> {
    let said = match said.split_once("\n\n") {
        Some((first, _)) => first,
        None => said.trim_end(),
    };
    let mut line = Text::from_bytes(alloc, b"migrate: ")?;
    line.append(said.as_bytes())?;
    line.push(b'\n')?;
    Ok(line)
}

/// The options of words, each as one word as it is shown; none where they are no options.
fn shown_whole(alloc: Global, words: &[Text]) -> Result<Option<Vec<String>>, Memory> {
    let shown = shown_words(alloc, words)?;
    whole_words(alloc, shown.as_slice())
}

/// What `clap` says against words; none where they fit the command.
fn message_of<'a>(
    alloc: Global,
    command: Command<'a>,
    words: &'a [String],
) -> Result<Option<Text>, Memory> {
    match command.try_get_matches_from(words) {
        Ok(_) => Ok(None),
        Err(error) => match format!(in alloc; "{error}") {
            Ok(said) => Ok(Some(first_part(alloc, said.as_str())?)),
            Err(_) => Err(Memory),
        },
    }
}

/// What `clap` says against the words behind `run`, as `error: unexpected argument '--form' found`; none where it says
/// nothing, and where they are no options. The only error is want of memory.
pub fn message_of_run(alloc: Global, words: &[Text]) -> Result<Option<Text>, Memory> {
    match shown_whole(alloc, words)? {
        Some(whole) => message_of(alloc, run_command(alloc)?, whole.as_slice()),
        None => Ok(None),
    }
}

/// What `clap` says against the words behind `generate`; none where it says nothing, and where they are no options. The
/// only error is want of memory.
pub fn message_of_generate(alloc: Global, words: &[Text]) -> Result<Option<Text>, Memory> {
    match shown_whole(alloc, words)? {
        Some(whole) => message_of(alloc, generate_command(alloc)?, whole.as_slice()),
        None => Ok(None),
    }
}

/// What `clap` says against the words behind `calls`; none where it says nothing, and where they are no options. The only
/// error is want of memory.
pub fn message_of_calls(alloc: Global, words: &[Text]) -> Result<Option<Text>, Memory> {
    match shown_whole(alloc, words)? {
        Some(whole) => message_of(alloc, calls_command(alloc)?, whole.as_slice()),
        None => Ok(None),
    }
}

/// What `clap` says against the words behind `compare`; none where it says nothing, and where they are no options. The only
/// error is want of memory.
pub fn message_of_compare(alloc: Global, words: &[Text]) -> Result<Option<Text>, Memory> {
    match shown_whole(alloc, words)? {
        Some(whole) => message_of(alloc, compare_command(alloc)?, whole.as_slice()),
        None => Ok(None),
    }
}

/// What `clap` says against the words behind `invert`; none where it says nothing, and where they are no options. The only
/// error is want of memory.
pub fn message_of_invert(alloc: Global, words: &[Text]) -> Result<Option<Text>, Memory> {
    match shown_whole(alloc, words)? {
        Some(whole) => message_of(alloc, invert_command(alloc)?, whole.as_slice()),
        None => Ok(None),
    }
}

//! Texts, lists of texts, modified UTF-8, shown bytes, uses that are taken, and targets that clash.

use crate::answering::{As, Named, answer, answer_bytes, answer_texts, answer_three, answer_two};
use crate::cursors::answer_cursor;
use crate::words::{Values, front};
use desk_base::{Memory, Role, Text, TextList, Used, Visit, check_utf8, show_byte};
use desk_clashes::Targets;
use std::alloc::Global;
use test_cases::Shown;

/// A command on texts.
#[derive(Clone, Copy)]
pub enum Command {
    /// A text of these pieces, and its copy.
    Text,
    /// The text that a vector becomes.
    Vector,
    /// The list of these texts in byte order.
    List,
    /// Whether bytes are modified UTF-8, or where they aren't.
    Utf8,
    /// Bytes as a report shows them.
    Shown,
    /// The uses that a list takes.
    Visit,
    /// The steps of a cursor.
    Cursor,
    /// The places of the first two targets that clash.
    Clash,
}

/// A text that begins with a piece, behind which one byte is pushed and more are appended.
fn joined(alloc: Global, first: &[u8], others: &[Text]) -> Result<Text, Memory> {
    let mut text = Text::from_bytes(alloc, first)?;
    for piece in others {
        match piece.as_bytes() {
            [byte] => text.push(*byte)?,
            bytes => text.append(bytes)?,
        }
    }
    Ok(text)
}

/// Answers a text and its copy.
fn answer_copied(text: &Text, out: &mut String) -> Result<(), Memory> {
    let copy = text.clone()?;
    answer_three(
        out,
        &Shown(text.as_bytes()),
        &As("copied", &Shown(copy.as_bytes())),
        &As("equal", &(copy == *text)),
    )
}

/// The list of these texts in byte order.
fn sorted(alloc: Global, texts: &[Text]) -> Result<TextList, Memory> {
    let mut list = TextList::empty(alloc);
    for text in texts {
        list.push(text.clone()?)?;
    }
    list.sort()?;
    Ok(list)
}

/// Answers how many texts a list holds, and the texts: by their places, as a slice, and as the vector of a copy.
fn answer_list(list: &TextList, out: &mut String) -> Result<(), Memory> {
    answer_two(
        out,
        &As("empty", &list.is_empty()),
        &As("length", &list.len()),
    )?;
    for place in 0..list.len() {
        if let Some(text) = list.get(place) {
            answer_bytes(out, text.as_bytes())?;
        }
    }
    answer_texts(out, list.as_slice())?;
    answer_texts(out, &list.clone()?.into_vec())
}

/// Answers bytes as a report shows them.
fn answer_shown(bytes: &[u8], out: &mut String) -> Result<(), Memory> {
    for byte in bytes {
        answer_bytes(out, show_byte(*byte).as_bytes())?;
    }
    Ok(())
}

/// The list of uses that took one of a class name, by its offset and its index.
fn taken(alloc: Global, at: u32, index: u16) -> Result<Vec<Used>, Memory> {
    let mut uses = Vec::new(alloc);
    let role = Role::Class;
    uses.visit(Used { at, index, role })?;
    Ok(uses)
}

/// Answers the uses that a list took, after one of a class name.
fn answer_visit(alloc: Global, words: &[Text], out: &mut String) -> Result<(), Memory> {
    let mut values = Values::of(alloc, words)?;
    answer(out, &Named(&taken(alloc, values.number(), values.short())?))
}

/// A list of these targets.
fn targets_of(alloc: Global, words: &[Text]) -> Result<Targets<'_>, Memory> {
    let mut targets = Targets::new(alloc);
    for word in words {
        targets.push(word.as_bytes())?;
    }
    Ok(targets)
}

/// Answers the places of the first two targets that clash.
fn answer_clash(alloc: Global, targets: &Targets<'_>, out: &mut String) -> Result<(), Memory> {
    match targets.first_clash(alloc)? {
        None => answer(out, &"none"),
        Some(clash) => answer_two(out, &clash.first, &clash.second),
    }
}

/// Answers a command.
pub fn answer_command(
    alloc: Global,
    command: Command,
    words: &[Text],
    out: &mut String,
) -> Result<(), Memory> {
    let (bytes, others) = match words {
        [first, others @ ..] => (first.as_bytes(), others),
        [] => (b"".as_slice(), words),
    };
    match command {
        Command::Text => answer_copied(&joined(alloc, bytes, others)?, out),
        Command::Vector => answer_bytes(out, Text::from(bytes.to_vec(alloc)?).as_bytes()),
        Command::List => answer_list(&sorted(alloc, words)?, out),
        Command::Utf8 => answer(out, &Named(&check_utf8(front(bytes)))),
        Command::Shown => answer_shown(bytes, out),
        Command::Visit => answer_visit(alloc, words, out),
        Command::Cursor => answer_cursor(bytes, others, out),
        Command::Clash => answer_clash(alloc, &targets_of(alloc, words)?, out),
    }
}

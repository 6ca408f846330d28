//! The table of hints, and lines of releases.

use crate::statuses::{STATUSES, status_of};
use crate::told;
use crate::words::{named, number, word};
use desk_base::{Memory, Text};
use desk_hints::{HINTS, Listed, hint_behind, hint_of, release_line, release_of, slip_line};
use desk_words::find_slip;
use std::alloc::Global;
use std::str;

/// Whether a text is one or two lines for people: the first names the program, the second stands below it, and none is
/// longer than 160 bytes.
fn is_hint(text: &[u8]) -> bool {
    let Ok(text) = str::from_utf8(text) else {
        return false;
    };
    let (mut lines, mut is_short) = (0_u32, true);
    for line in text.split('\n') {
        lines = lines.saturating_add(u32::from(!line.is_empty()));
        is_short = is_short && line.len() <= 160;
    }
    text.starts_with("migrate: ")
        && text.ends_with('\n')
        && lines == 2
        && text.contains("\n         ")
        && is_short
}

/// How many of the hints have this text.
fn with_text(text: &[u8]) -> u32 {
    let mut count = 0_u32;
    for (hint, _) in HINTS.iter() {
        if hint.text() == text {
            count = count.saturating_add(1);
        }
    }
    count
}

/// Tells how many hints there are, how many of them are two lines for people, and how many of them have a text of their own.
pub fn tell_hints(out: &mut String) -> Result<(), Memory> {
    let (mut two_lines, mut unlike) = (0_u32, 0_u32);
    for (hint, _) in HINTS.iter() {
        two_lines = two_lines.saturating_add(u32::from(is_hint(hint.text())));
        unlike = unlike.saturating_add(u32::from(with_text(hint.text()) == 1));
    }
    let count = HINTS.len();
    Ok(writeln!(
        out,
        "  {count}, {two_lines} of two lines, {unlike} like no other"
    )?)
}

/// Tells the hint of a status.
pub fn tell_hint(alloc: Global, words: &[Text], out: &mut String) -> Result<(), Memory> {
    match named(STATUSES, word(words, 0)) {
        Some(name) => {
            let status = status_of(alloc, name, words.get(1..).unwrap_or(&[]))?;
            told::value(out, &hint_of(&status))
        }
        None => told::text(out, "no such status"),
    }
}

/// What is known of a folder that was listed, by its name.
const LISTED: &[(&[u8], Listed)] = &[
    (b"file", Listed::File),
    (b"nothing", Listed::Nothing),
    (b"unknown", Listed::Unknown),
];

/// Tells the hint of a status, by what is known of the folder that was listed.
pub fn tell_hint_behind(alloc: Global, words: &[Text], out: &mut String) -> Result<(), Memory> {
    let (Some(listed), Some(name)) = (
        named(LISTED, word(words, 0)),
        named(STATUSES, word(words, 1)),
    ) else {
        return told::text(out, "no such status");
    };
    let status = status_of(alloc, name, words.get(2..).unwrap_or(&[]))?;
    told::value(out, &hint_behind(&status, listed))
}

/// Tells the release of a major version.
pub fn tell_release(words: &[Text], out: &mut String) -> Result<(), Memory> {
    let major = u16::try_from(number(words, 0)).unwrap_or(0);
    told::value(out, &release_of(major))
}

/// Tells the line of a class that was refused for its version.
pub fn tell_release_line(alloc: Global, words: &[Text], out: &mut String) -> Result<(), Memory> {
    let major = u16::try_from(number(words, 1)).unwrap_or(0);
    let line = release_line(alloc, word(words, 0), major)?;
    told::line(out, line.as_bytes())
}

/// What is said of words that ask for nothing; nothing where it can't be told.
pub fn said(alloc: Global, words: &[Text]) -> Result<Text, Memory> {
    match find_slip(alloc, words)? {
        Some(slip) => slip_line(alloc, &slip),
        None => Ok(Text::empty(alloc)),
    }
}

//! The words of a command as bytes, contents and places. A word that lacks is empty.

ghost use Rattle.std.specs.Prelude.{◌≤◌, length};
ghost use Rattle.desk_base.specs.Limits.{rule_size};

use desk_base::{MAX_RULE_FILE_SIZE, Text};
use std::str;

/// The bytes of the word at a place.
pub fn word(words: &[Text], place: usize) -> &[u8] {
    match words.get(place) {
        Some(word) => word.as_bytes(),
        None => &[],
    }
}

/// The word at a place as the content of a rule file. One that is longer than such a file may be is empty.
pub fn content(words: &[Text], place: usize) -> &[u8]
    ensures { length result.now ≤ rule_size }
{
    let bytes = word(words, place);
    if bytes.len() > MAX_RULE_FILE_SIZE {
        &[]
    } else {
        bytes
    }
}

/// The word at a place as a place, in decimal digits, or 0.
pub fn place(words: &[Text], at: usize) -> usize {
    match str::from_utf8(word(words, at)) {
        Ok(digits) => digits.parse::<usize>().unwrap_or(0),
        Err(_) => 0,
    }
}

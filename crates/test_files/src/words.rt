//! The words of a command as bytes, contents and numbers. A word that lacks is empty.

ghost use Rattle.std.specs.Prelude.{◌≤◌, length};
ghost use Rattle.desk_base.specs.Limits.{file_size};

use desk_base::{MAX_FILE_SIZE, Text};
use std::str;

/// The bytes of the word at a place.
pub fn word(words: &[Text], place: usize) -> &[u8] {
    match words.get(place) {
        Some(word) => word.as_bytes(),
        None => &[],
    }
}

/// The word at a place as the content of a file. One that is longer than a file may be is empty.
pub fn content(words: &[Text], place: usize) -> &[u8]
    ensures { length result.now ≤ file_size }
{
    let bytes = word(words, place);
    if bytes.len() > MAX_FILE_SIZE {
        &[]
    } else {
        bytes
    }
}

/// The word at a place as a decimal number, or 0.
pub fn number(words: &[Text], place: usize) -> u32 {
    match str::from_utf8(word(words, place)) {
        Ok(digits) => digits.parse::<u32>().unwrap_or(0),
        Err(_) => 0,
    }
}

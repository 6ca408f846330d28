//! The words of a command as bytes and numbers. A word that lacks is empty.

ghost use Rattle.std.specs.Prelude.{◌≤◌, length};
ghost use Rattle.desk_base.specs.Limits.{file_size};

use desk_base::{MAX_FILE_SIZE, Text};
use std::str;

/// The bytes of the word at a place.
pub fn word(words: &[Text], place: usize) -> &[u8] {
    match words.get(place) {
        Some(word) => word.as_bytes(),
        None => &[],
    }
}

/// Bytes as those of a file. Where there are more than a file may have, there are none.
pub fn content(bytes: &[u8]) -> &[u8]
    ensures { length result.now ≤ file_size }
{
    if bytes.len() > MAX_FILE_SIZE {
        &[]
    } else {
        bytes
    }
}

/// The word at a place as a decimal number, or 0.
pub fn number(words: &[Text], place: usize) -> u16 {
    match str::from_utf8(word(words, place)) {
        Ok(digits) => digits.parse::<u16>().unwrap_or(0),
        Err(_) => 0,
    }
}

//! The words of a command as bytes, texts and numbers, and what they name. A word that lacks is empty.

use desk_base::Text;
use std::str;

/// The bytes of the word at a place.
pub fn word(words: &[Text], place: usize) -> &[u8] {
    match words.get(place) {
        Some(word) => word.as_bytes(),
        None => &[],
    }
}

/// The word at a place as a text. One that isn't UTF-8 is empty.
pub fn text(words: &[Text], place: usize) -> &str {
    str::from_utf8(word(words, place)).unwrap_or("")
}

/// The decimal number of a text, or 0.
pub fn number_in(text: &str) -> u32 {
    text.parse::<u32>().unwrap_or(0)
}

/// The word at a place as a decimal number, or 0.
pub fn number(words: &[Text], place: usize) -> u32 {
    number_in(text(words, place))
}

/// What has this name in a table.
pub fn named<T: Copy>(table: &[(&[u8], T)], name: &[u8]) -> Option<T> {
    for (known, value) in table.iter() {
        if *known == name {
            return Some(*value);
        }
    }
    None
}

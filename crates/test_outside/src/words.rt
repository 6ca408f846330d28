//! What the words of a command say.

use desk_base::{Memory, Text};
use std::alloc::Global;
use std::str;

/// The text of a word; one that isn't UTF-8 is empty.
pub fn text_of(word: &Text) -> &str {
    str::from_utf8(word.as_bytes()).unwrap_or("")
}

/// The decimal number of a word, or 0.
pub fn number_of(word: &Text) -> u32 {
    text_of(word).parse::<u32>().unwrap_or(0)
}

/// The same of a number below 256.
pub fn byte_of(word: &Text) -> u8 {
    text_of(word).parse::<u8>().unwrap_or(0)
}

/// The decimal numbers of words.
pub fn numbers_of(alloc: Global, words: &[Text]) -> Result<Vec<u64>, Memory> {
    let mut numbers = Vec::new(alloc);
    for word in words {
        numbers.push(u64::from(number_of(word)))?;
    }
    Ok(numbers)
}

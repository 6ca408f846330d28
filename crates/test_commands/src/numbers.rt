//! Numbers in words.

use desk_base::Memory;
use std::alloc::Global;
use std::str;

/// The decimal number that these digits write, or 0.
pub fn number_of(digits: &[u8]) -> u64 {
    match str::from_utf8(digits) {
        Ok(digits) => digits.parse::<u64>().unwrap_or(0),
        Err(_) => 0,
    }
}

/// The same of a number below 256.
pub fn byte_of(digits: &[u8]) -> u8 {
    u8::try_from(number_of(digits)).unwrap_or(0)
}

/// The decimal numbers between the commas of a word.
pub fn numbers_of(alloc: Global, word: &[u8]) -> Result<Vec<u64>, Memory> {
    let mut numbers = Vec::new(alloc);
    for digits in word.split(|byte| *byte == b',') {
        if !digits.is_empty() {
            numbers.push(number_of(digits))?;
        }
    }
    Ok(numbers)
}

//! The words of commands.

ghost use Rattle.std.specs.Prelude.{◌≤◌, length};
ghost use Rattle.desk_base.specs.Limits.{file_size};

use desk_base::{MAX_FILE_SIZE, Memory, Text};
use std::alloc::Global;
use std::str;

/// What a word means by a table of words; none where it isn't there.
pub fn meant<T: Copy>(table: &[(&[u8], T)], word: &Text) -> Option<T> {
    for (name, value) in table {
        if *name == word.as_bytes() {
            return Some(*value);
        }
    }
    None
}

/// The decimal number that a word writes, or 0.
pub fn number(word: &Text) -> u64 {
    match str::from_utf8(word.as_bytes()) {
        Ok(digits) => digits.parse::<u64>().unwrap_or(0),
        Err(_) => 0,
    }
}

/// Bytes, or as many of their front as a file may have.
pub fn front(bytes: &[u8]) -> &[u8]
    ensures { length result.now ≤ file_size }
{
    &bytes[..bytes.len().min(MAX_FILE_SIZE)]
}

/// Words that are taken one by one, as what a value is made of.
#[derive(Drop)]
pub struct Values {
    alloc: Global,
    left: Vec<Text>,
}

impl Values {
    /// These words. The only error is want of memory.
    pub fn of(alloc: Global, words: &[Text]) -> Result<Values, Memory> {
        let mut left = Vec::new(alloc);
        for word in words.iter().rev() {
            left.push(word.clone()?)?;
        }
        Ok(Values { alloc, left })
    }

    /// The next word; without bytes where none is left.
    pub fn text(&mut self) -> Text {
        match self.left.pop() {
            None => Text::empty(self.alloc),
            Some(word) => word,
        }
    }

    /// The number that the next word writes, or 0.
    pub fn long(&mut self) -> u64 {
        number(&self.text())
    }

    /// The number of at most 32 bits that the next word writes, or 0.
    pub fn number(&mut self) -> u32 {
        u32::try_from(self.long()).unwrap_or(0)
    }

    /// The number of at most 16 bits that the next word writes, or 0.
    pub fn short(&mut self) -> u16 {
        u16::try_from(self.long()).unwrap_or(0)
    }
}

//! Patterns of paths, and selections by them.

use crate::told;
use crate::words::word;
use desk_base::{Memory, Text};
use desk_patterns::{Mark, Selection, fits};
use std::alloc::Global;

/// Tells whether a pattern fits a path: these are the words.
pub fn tell_fits(words: &[Text], out: &mut String) -> Result<(), Memory> {
    told::value(out, &fits(word(words, 0), word(words, 1)))
}

/// Adds patterns to a selection, each with `!` behind it where it excludes, or with another word.
fn add_patterns(alloc: Global, selection: &mut Selection, words: &[Text]) -> Result<(), Memory> {
    for row in words.chunks_exact(2) {
        let excludes = word(row, 1) == b"!".as_slice();
        let mark = if excludes {
            Mark::Exclude
        } else {
            Mark::Include
        };
        selection.push(Text::from_bytes(alloc, word(row, 0))?, mark)?;
    }
    Ok(())
}

/// Tells whether a path is selected: the words are the path, and patterns with their marks.
pub fn tell_selects(alloc: Global, words: &[Text], out: &mut String) -> Result<(), Memory> {
    let mut selection = Box::new(alloc, Selection::new(alloc))?;
    add_patterns(alloc, &mut selection, words.get(1..).unwrap_or(&[]))?;
    told::value(out, &selection.selects(word(words, 0)))
}

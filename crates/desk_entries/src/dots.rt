//! Texts cut at their dots.

ghost use Rattle.std.specs.Prelude.{◌≡◌, ◌==◌, IfOk};
ghost use Rattle.std.specs.List.{slice_split};

use desk_base::{Memory, Text, TextList};
use std::alloc::Global;

/// The parts of a text between dots.
pub fn split_at_dots(alloc: Global, text: &[u8]) -> Result<TextList, Memory>
    ensures { IfOk result (λ parts. parts ≡ slice_split (λ b. b == 46) text.now) }
{
    let mut parts = TextList::empty(alloc);
    let mut from = 0;
    for (i, byte) in text.iter().enumerate() {
        if *byte == b'.' {
            parts.push(Text::from_bytes(alloc, &text[from..i])?)?;
            from = i + 1;
        }
    }
    parts.push(Text::from_bytes(alloc, &text[from..])?)?;
    Ok(parts)
}

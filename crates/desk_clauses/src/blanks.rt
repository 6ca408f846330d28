//! Texts with other bytes between their blanks.

ghost use Rattle.std.specs.Prelude.{◌≡◌, ◌++◌, IfOk, OnOk};
ghost use Rattle.desk_clauses.specs.Grammar.{between_blanks, quoted, with_argument, argument};
ghost use Rattle.desk_clauses.specs.Cuts.{IsMarkPlace};

use desk_base::{Memory, Text};
use desk_lines::{count_leading_blanks, trim_trailing_blanks};
use std::alloc::Global;

/// Appends a text with other bytes between the blanks around it. The only error is want of memory; a part may have been
/// appended then.
pub fn append_between_blanks(out: &mut Text, text: &[u8], inner: &[u8]) -> Result<(), Memory>
    ensures { OnOk result (out.new ≡ out.old ++ between_blanks inner.now text.now) }
{
    let leading = count_leading_blanks(text);
    let more = &text[leading..];
    let trimmed = trim_trailing_blanks(more);
    out.append(&text[..leading])?;
    out.append(inner)?;
    let (_, behind) = more.split_at(trimmed.len());
    out.append(behind)?;
    Ok(())
}

/// A text with other bytes between the blanks around it. The only error is want of memory.
pub fn between_blanks(alloc: Global, text: &[u8], inner: &[u8]) -> Result<Text, Memory>
    ensures { IfOk result (λ image. image ≡ between_blanks inner.now text.now) }
{
    let mut image = Text::empty(alloc);
    append_between_blanks(&mut image, text, inner)?;
    Ok(image)
}

/// A text in quotes. The only error is want of memory.
pub fn quoted(alloc: Global, text: &[u8]) -> Result<Text, Memory>
    ensures { IfOk result (λ image. image ≡ quoted text.now) }
{
    let mut image = Text::from_bytes(alloc, b"\"")?;
    image.append(text)?;
    image.push(b'"')?;
    Ok(image)
}

/// A parameter with another argument between the blanks around its own; its `=` stands at a place. The only error is want of
/// memory.
pub fn with_argument(alloc: Global, part: &[u8], place: usize, new: &[u8]) -> Result<Text, Memory>
    requires { IsMarkPlace part.now place }
    ensures { IfOk result (λ image. image ≡ with_argument (between_blanks new.now (argument part.now)) part.now) }
{
    let mut image = Text::from_bytes(alloc, &part[..place + 1])?;
    append_between_blanks(&mut image, &part[place + 1..], new)?;
    Ok(image)
}

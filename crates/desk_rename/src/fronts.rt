//! Packages in front of texts, and what takes their place.

ghost use Rattle.std.specs.Prelude.{◌≡◌, ◌++◌, ◌≤◌, OnOk, IfOk, length, drop};
ghost use Rattle.desk_base.specs.Names.{written};

use desk_base::{Memory, Text};
use desk_rules::PackageFront;
use std::alloc::Global;

/// Appends a package, with a separator between its segments. The only error is want of memory; a
/// part may have been appended then.
pub fn append_segments(out: &mut Text, segments: &[Text], separator: u8) -> Result<(), Memory>
    ensures { OnOk result (out.new ≡ out.old ++ written separator segments.now) }
{
    for (i, segment) in segments.iter().enumerate() {
        if i > 0 {
            out.push(separator)?;
        }
        out.append(segment.as_bytes())?;
    }
    Ok(())
}

/// Appends a text with a front exchanged: the front's segments, with a separator between each two,
/// and what stands in the text behind its first `taken` bytes. The only error is want of memory; a
/// part may have been appended then.
pub fn append_exchanged(
    out: &mut Text,
    text: &[u8],
    front: &PackageFront<'_>,
    separator: u8,
) -> Result<(), Memory>
    requires { front.now.taken ≤ length text.now }
    ensures { OnOk result (out.new ≡ out.old ++ (written separator front.now.segments.now ++ drop front.now.taken text.now)) }
{
    append_segments(out, front.segments.as_slice(), separator)?;
    out.append(&text[front.taken..])
}

/// A text with a front exchanged. The only error is want of memory.
pub fn exchanged(
    alloc: Global,
    text: &[u8],
    front: &PackageFront<'_>,
    separator: u8,
) -> Result<Text, Memory>
    requires { front.now.taken ≤ length text.now }
    ensures { IfOk result (λ image. image ≡ written separator front.now.segments.now ++ drop front.now.taken text.now) }
{
    let mut image = Text::empty(alloc);
    append_exchanged(&mut image, text, front, separator)?;
    Ok(image)
}

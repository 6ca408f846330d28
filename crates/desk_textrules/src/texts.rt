//! Texts under text rules.

ghost use Rattle.std.specs.Prelude.{◌≡◌, ◌≤◌, ◌+◌, Ok, IfOk, IfErr, SomeIff, length};
ghost use Rattle.desk_base.specs.Limits.{file_size};
ghost use Rattle.desk_patterns.specs.TextRules.{HaveSources};
ghost use Rattle.desk_textrules.specs.TextImages.{pieces, replaced, count_changed, unsettled, text_image, TextStays};
ghost use Rattle.desk_textrules.specs.Reading.{is_changed};
ghost use Rattle.desk_textrules.specs.Faults.{IsTextFault};

use crate::TextFault;
use desk_base::{Changed, Memory, Text};
use desk_patterns::{TextPlace, TextRules};
use std::alloc::Global;

/// Whether the source at a place of a text is exchanged for another text.
fn changes(text: &[u8], place: TextPlace<'_>) -> bool
    requires { place.at + place.hit.taken ≤ length text.now }
    ensures { result ≡ is_changed text.now place.entry.at place.entry.hit.taken place.entry.hit.target.now }
{
    place.hit.target != &text[place.at..place.at + place.hit.taken]
}

/// How many bytes a text of at most 67,108,864 bytes has with each source of rules exchanged for its target; none exactly where
/// these are more than `most`. It takes no memory, and stops as soon as there are more.
pub fn image_length(text: &[u8], rules: &TextRules, most: usize) -> Option<usize>
    requires { length text.now ≤ file_size }
    ensures { SomeIff result (length (replaced rules.now text.now) ≤ most) (length (replaced rules.now text.now)) }
{
    let mut room = most;
    let mut done = 0;
    while let Some(place) = rules.next_place(text, done) {
        room = room
            .checked_sub(place.at - done)?
            .checked_sub(place.hit.target.len())?;
        done = place.at + place.hit.taken;
    }
    room = room.checked_sub(text.len() - done)?;
    Some(most - room)
}

/// A text with each source exchanged, and how many differ from their targets. The only error is want of memory.
fn replace(alloc: Global, text: &[u8], rules: &TextRules) -> Result<Changed, Memory>
    requires { length text.now ≤ file_size }
    ensures bytes { IfOk result (λ new. new.bytes ≡ replaced rules.now text.now) }
    ensures changed { IfOk result (λ new. new.changed ≡ count_changed (pieces rules.now text.now)) }
{
    let mut bytes = Text::empty(alloc);
    let mut changed: u32 = 0;
    let mut done = 0;
    while let Some(place) = rules.next_place(text, done) {
        bytes.append(&text[done..place.at])?;
        bytes.append(place.hit.target)?;
        if changes(text, place) {
            changed += 1;
        }
        done = place.at + place.hit.taken;
    }
    bytes.append(&text[done..])?;
    Ok(Changed { bytes, changed })
}

/// The first place of a text at which rules exchange a source for another text; none exactly where there is none.
fn first_change(text: &[u8], rules: &TextRules) -> Option<usize>
    ensures first { result ≡ unsettled rules.now text.now }
    ensures sources { HaveSources rules.now }
{
    let mut done = 0;
    while let Some(place) = rules.next_place(text, done) {
        if changes(text, place) {
            return Some(place.at);
        }
        done = place.at + place.hit.taken;
    }
    None
}

/// The image of a text of at most 67,108,864 bytes, and how many of its sources changed. `here` are the text rules of its
/// path, `there` those of its target. At each place, from the front, the longest source of `here` that starts there is
/// exchanged for its target, and reading goes on behind it; a source whose target differs counts as changed. `Unsettled`
/// comes exactly where `there` exchanges a source of the result for another text, with the first such place of the result,
/// counted from its first byte. The only other error is want of memory. The image is its own image under `there`, without
/// a changed source.
pub fn migrate_text(
    alloc: Global,
    text: &[u8],
    here: &TextRules,
    there: &TextRules,
) -> Result<Changed, TextFault>
    requires { length text.now ≤ file_size }
    ensures image { IfOk result (λ new. text_image here.now there.now text.now ≡ Ok new) }
    ensures refused { IfErr result (IsTextFault here.now there.now text.now) }
    ensures again { IfOk result (λ new. TextStays there.now new.bytes) }
{
    let new = replace(alloc, text, here)?;
    match first_change(new.bytes.as_bytes(), there) {
        Some(at) => Err(TextFault::Unsettled { at: at as u64 }),
        None => Ok(new),
    }
}

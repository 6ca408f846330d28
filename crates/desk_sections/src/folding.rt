//! Headers in lines of at most 72 bytes.

ghost use Rattle.std.specs.Prelude.{◌≡◌, ◌≤◌, ◌<◌, ◌++◌, OnOk, length};
ghost use Rattle.desk_sections.specs.Folding.{cut_place, folded_bytes, is_inner, pieces};

use desk_base::{Memory, Text};

/// How many bytes a line may have, its end not counted.
const LINE: usize = 72;

/// Whether a byte continues a character of UTF-8.
fn is_inner(byte: u8) -> bool
    ensures { result ≡ is_inner byte }
{
    byte >= 128 && byte <= 191
}

/// Where a text that is longer than its share of a line is cut: the last place within the share at which a character begins, and
/// the end of the share where there is none.
fn cut_place(text: &[u8], limit: usize) -> usize
    requires longer { limit < length text.now }
    requires positive { 0 < limit }
    ensures place { result ≡ cut_place limit text.now }
    ensures further { 0 < result }
    ensures inside { result ≤ limit }
{
    let mut place = limit;
    while place > 0 && is_inner(text[place]) {
        place -= 1;
    }
    if place == 0 { limit } else { place }
}

/// Appends a text in lines of at most 72 bytes, each but the first with a space before it, with `between` at the end of each but
/// the last, and `last` behind that. It is cut between characters of UTF-8 where a line has a place for that. The only error is
/// want of memory; a part may have been appended then.
pub fn append_folded(out: &mut Text, between: &[u8], last: &[u8], text: &[u8]) -> Result<(), Memory>
    ensures { OnOk result (out.new ≡ out.old ++ folded_bytes between.now last.now (pieces (length text.now) 72 text.now)) }
{
    let mut rest = text;
    let mut limit = LINE;
    while rest.len() > limit {
        let place = cut_place(rest, limit);
        out.append(&rest[..place])?;
        out.append(between)?;
        out.push(b' ')?;
        rest = &rest[place..];
        limit = LINE - 1;
    }
    out.append(rest)?;
    out.append(last)
}

//! Lines of headers.

ghost use Rattle.std.specs.Prelude.{◌≡◌, ◌≤◌, ◌++◌, OnOk, length, drop};
ghost use Rattle.desk_lines.specs.Lines.{lines};
ghost use Rattle.desk_lines.specs.Cuts.{until, onward};
ghost use Rattle.desk_sections.specs.Sections.{is_colon, is_colon_and_space, is_continuation, is_header_line, unfolded};
ghost use Rattle.desk_sections.specs.Reading.{IsContinued};

use desk_base::{Memory, Text};
use desk_lines::{LineEnd, split_first_line};
use memchr::memchr;

/// A line, cut at its first colon.
#[derive(Clone, Copy)]
pub struct HeaderLine<'a> {
    /// What stands before the colon.
    pub name: &'a [u8],
    /// What follows the colon and the byte behind it.
    pub value: &'a [u8],
}

/// What follows a header's first line.
#[derive(Clone, Copy)]
pub struct Continued<'a> {
    /// The end of the header's last line.
    pub end: LineEnd,
    /// What stands behind that line.
    pub rest: &'a [u8],
}

/// Whether a line continues the header before it: it begins with a space.
pub fn is_continuation(content: &[u8]) -> bool
    ensures { result ≡ is_continuation content.now }
{
    content.starts_with(b" ")
}

/// How many bytes of a line stand before its first colon; all where it has none.
fn colon_place(content: &[u8]) -> usize
    ensures place { result ≡ length (until is_colon content.now) }
    ensures inside { result ≤ length content.now }
{
    match memchr(b':', content) {
        None => content.len(),
        Some(at) => at,
    }
}

/// What stands before the first colon of a line, and that colon with what follows it.
fn split_at_colon(content: &[u8]) -> (&[u8], &[u8])
    ensures front { result.0.now ≡ until is_colon content.now }
    ensures behind { result.1.now ≡ onward is_colon content.now }
{
    content.split_at(colon_place(content))
}

/// What follows the first two bytes of a text.
fn behind_two(text: &[u8]) -> &[u8]
    ensures { result.now ≡ drop 2 text.now }
{
    if text.len() > 2 { &text[2..] } else { b"" }
}

/// A line, cut at its first colon: what stands before it, all where it has none, and what follows the colon and the byte behind it.
pub fn cut_header_line(content: &[u8]) -> HeaderLine<'_>
    ensures name { result.name.now ≡ until is_colon content.now }
    ensures value { result.value.now ≡ drop 2 (onward is_colon content.now) }
{
    let (name, behind) = split_at_colon(content);
    HeaderLine {
        name,
        value: behind_two(behind),
    }
}

/// Whether a text is a colon, and then a space or nothing.
fn is_colon_and_space(behind: &[u8]) -> bool
    ensures { result ≡ is_colon_and_space behind.now }
{
    match behind {
        [] => false,
        [_] => true,
        [_, next, ..] => *next == b' ',
    }
}

/// Whether a line begins a header: it doesn't begin with a space or a colon, and behind its first colon stands a space or nothing.
pub fn is_header_line(content: &[u8]) -> bool
    ensures { result ≡ is_header_line content.now }
{
    let (name, behind) = split_at_colon(content);
    !is_continuation(content) && !name.is_empty() && is_colon_and_space(behind)
}

/// What stands behind the continuation lines with which a text begins, where the line before them has this end.
pub fn skip_continuations(text: &[u8], end: LineEnd) -> Continued<'_>
    ensures { IsContinued text.now end result.end result.rest.now }
{
    let mut rest = text;
    let mut end = end;
    while let Some((line, more)) = split_first_line(rest) {
        if !is_continuation(line.content) {
            return Continued { end, rest };
        }
        end = line.end;
        rest = more;
    }
    Continued { end, rest }
}

/// Appends the contents of continuation lines, each without its first space. The only error is want of memory; a part may have
/// been appended then.
pub fn append_unfolded(out: &mut Text, text: &[u8]) -> Result<(), Memory>
    ensures { OnOk result (out.new ≡ out.old ++ unfolded (lines text.now)) }
{
    let mut rest = text;
    while let Some((line, more)) = split_first_line(rest) {
        out.append(&line.content[1.min(line.content.len())..])?;
        rest = more;
    }
    Ok(())
}

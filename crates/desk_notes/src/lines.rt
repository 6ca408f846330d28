//! The lines of a report, as they are read.

ghost use Rattle.std.specs.Prelude.{◌≡◌};
ghost use Rattle.desk_notes.specs.Keys.{is_utf16};

use desk_base::{Memory, Text};
use std::alloc::Global;

/// What a line of a report says of a file, by its path as it is shown.
#[derive(Clone, Copy, Debug, PartialEq, Eq)]
pub enum LineRead<'a> {
    /// The file was copied.
    Copied(&'a [u8]),
    /// The image of a class was written, and whether a name in it is another one now.
    Class {
        path: &'a [u8],
        target: &'a [u8],
        is_renamed: bool,
    },
    /// A text with text rules was written, none of which fits anything in it.
    Unchanged(&'a [u8]),
    /// Any other image was written.
    Written,
    /// Its target stands from an earlier run.
    Kept,
    /// It was refused, for the reason of this word and of the one behind it, which is empty where there is none.
    Refused {
        path: &'a [u8],
        reason: &'a [u8],
        kind: &'a [u8],
    },
    /// A call site of a package.
    Site,
    /// The first path at which two applications differ, and how.
    Differs,
    /// Anything else.
    Other,
}

/// What the line of a file that was written says, by its path, its target, the word behind them, and the one behind that.
fn written<'a>(
    path: &'a [u8],
    target: &'a [u8],
    kind: &[u8],
    count: Option<&[u8]>,
) -> LineRead<'a> {
    match (kind, count) {
        (b"copy", _) => LineRead::Copied(path),
        (b"class", count) => LineRead::Class {
            path,
            target,
            is_renamed: count != Some(b"renamed=0"),
        },
        (b"text", Some(b"changed=0")) => LineRead::Unchanged(path),
        _ => LineRead::Written,
    }
}

/// Reads a line of a report, without its line end. No text that is shown holds a space.
pub fn read_line(line: &[u8]) -> LineRead<'_> {
    let mut words = line.split(|byte| *byte == b' ');
    let (first, second, third, fourth) = (words.next(), words.next(), words.next(), words.next());
    match (first, second, third, fourth) {
        (Some(b"written"), Some(path), Some(target), Some(kind)) => {
            written(path, target, kind, words.next())
        }
        (Some(b"kept"), Some(_), Some(_), None) => LineRead::Kept,
        (Some(b"refused"), Some(path), Some(reason), kind) => LineRead::Refused {
            path,
            reason,
            kind: kind.unwrap_or(b""),
        },
        (Some(b"site"), ..) => LineRead::Site,
        (Some(b"differs"), Some(_), Some(_), None) => LineRead::Differs,
        _ => LineRead::Other,
    }
}

/// Whether a text ends with another, in small or capital letters of ASCII.
fn ends_as(text: &[u8], end: &[u8]) -> bool {
    match text.len().checked_sub(end.len()) {
        Some(start) => text[start..].eq_ignore_ascii_case(end),
        None => false,
    }
}

/// Whether a path is that of an archive: `.jar`, `.war`, `.ear`, `.rar` or `.zip` at its end.
pub fn is_archive_file(path: &[u8]) -> bool {
    [b".jar", b".war", b".ear", b".rar", b".zip"]
        .iter()
        .any(|end| ends_as(path, end.as_slice()))
}

/// What stands behind the last `/` of a path.
fn name_of(path: &[u8]) -> &[u8] {
    match path.iter().rposition(|byte| *byte == b'/') {
        Some(end) => &path[end + 1..],
        None => path,
    }
}

/// Whether a name is that of a signature file (JAR File Specification, Signed JAR File): `.SF`, `.RSA`, `.DSA` or `.EC`
/// at its end, or `SIG-` at its start.
fn is_signature_name(name: &[u8]) -> bool {
    let front = name.len().min(4);
    name[..front].eq_ignore_ascii_case(b"SIG-")
        || ends_as(name, b".sf")
        || ends_as(name, b".rsa")
        || ends_as(name, b".dsa")
        || ends_as(name, b".ec")
}

/// Whether a path is that of a signature file of an archive: directly in a folder `META-INF`.
pub fn is_signature(path: &[u8]) -> bool {
    let name = name_of(path);
    let folder = &path[..path.len().saturating_sub(name.len())];
    is_signature_name(name)
        && (folder == b"META-INF/".as_slice() || folder.ends_with(b"/META-INF/"))
}

/// Whether a path is that of a class of JSR 305 that each copy of these annotations has.
pub fn is_jsr305(path: &[u8]) -> bool {
    path == b"javax/annotation/Nonnull.class".as_slice()
        || path.ends_with(b"/javax/annotation/Nonnull.class")
}

/// Whether a text begins with a byte order mark of UTF-16, as none in UTF-8 does.
pub fn is_utf16(text: &[u8]) -> bool
    ensures { result ≡ is_utf16 text.now }
{
    matches!(text, [0xFE, 0xFF, ..] | [0xFF, 0xFE, ..])
}

/// The value of a hexadecimal digit.
fn digit_of(byte: u8) -> u8 {
    match byte {
        b'0'..=b'9' => byte.saturating_sub(b'0'),
        b'a'..=b'f' => byte.saturating_sub(b'a').saturating_add(10),
        _ => 0,
    }
}

/// The text that is shown so: `\` and two hexadecimal digits are one byte. The only error is want of memory.
pub fn unshown(alloc: Global, shown: &[u8]) -> Result<Text, Memory> {
    let mut text = Text::empty(alloc);
    let mut left = shown;
    while let [first, rest @ ..] = left {
        match (first, rest) {
            (b'\\', [high, low, behind @ ..]) => {
                text.push(
                    digit_of(*high)
                        .wrapping_mul(16)
                        .wrapping_add(digit_of(*low)),
                )?;
                left = behind;
            }
            _ => {
                text.push(*first)?;
                left = rest;
            }
        }
    }
    Ok(text)
}

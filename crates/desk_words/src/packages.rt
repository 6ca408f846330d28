//! Packages in values.

ghost use Rattle.std.specs.Prelude.{◌≡◌, ◌==◌, IfOk};
ghost use Rattle.std.specs.List.{slice_split};
ghost use Rattle.std.specs.Str.{is_utf8};
ghost use Rattle.desk_entries.specs.Forms.{is_stored, is_written_package};
ghost use Rattle.desk_words.specs.Packages.{package_of};

use desk_base::{MAX_FILE_SIZE, Memory, Text, TextList, check_utf8};
use desk_names::is_dotted;
use std::alloc::Global;
use std::str;

/// Whether a text is modified UTF-8, as a class file stores texts (JVMS 4.4.7).
fn is_stored(text: &[u8]) -> bool
    ensures { result ≡ is_stored text.now }
{
    text.len() <= MAX_FILE_SIZE && check_utf8(text).is_ok()
}

/// Whether a text is UTF-8.
fn is_utf8(text: &[u8]) -> bool
    ensures { result ≡ is_utf8 text.now }
{
    match str::from_utf8(text) {
        Ok(_) => true,
        Err(_) => false,
    }
}

/// Whether a text is a package as a rule file writes it: identifiers with a `.` between each two, in UTF-8 and in modified UTF-8.
pub(crate) fn is_package(text: &[u8]) -> bool
    ensures { result ≡ is_written_package text.now }
{
    is_dotted(text) && is_stored(text) && is_utf8(text)
}

/// The parts of a text between its dots.
fn parts_at_dots(alloc: Global, text: &[u8]) -> Result<TextList, Memory>
    ensures { IfOk result (λ list. list ≡ slice_split (λ b. b == 46) text.now) }
{
    let mut list = TextList::empty(alloc);
    for part in text.split(|byte| *byte == b'.') {
        list.push(Text::from_bytes(alloc, part)?)?;
    }
    Ok(list)
}

/// The segments of the package that a value names; none of a value that is no package as a rule file writes it.
pub(crate) fn package_of(alloc: Global, value: &Text) -> Result<Option<TextList>, Memory>
    ensures { IfOk result (λ parts. parts ≡ package_of value.now) }
{
    if is_package(value.as_bytes()) {
        Ok(Some(parts_at_dots(alloc, value.as_bytes())?))
    } else {
        Ok(None)
    }
}

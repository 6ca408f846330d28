//! Renames of packages.

ghost use Rattle.std.specs.Prelude.{◌≡◌, Ok, IfOk, IfErr};
ghost use Rattle.desk_base.specs.Names.{segments, dot};
ghost use Rattle.desk_entries.specs.Forms.{reach_of, source_text, is_written_package};
ghost use Rattle.desk_entries.specs.Entries.{rename_of, IsError};

use crate::dots::split_at_dots;
use crate::faults::{EntryError, EntryFault};
use crate::values::{is_stored, is_utf8};
use desk_base::{Memory, TextList};
use desk_lines::trim_trailing_blanks;
use desk_names::is_dotted;
use desk_packages::Reach;
use std::alloc::Global;

/// An entry of `renames.properties`: packages to be renamed.
#[derive(Debug, Drop)]
pub struct Rename {
    /// The segments of the package that is renamed.
    pub source: TextList,
    /// The segments of the package that takes its place.
    pub target: TextList,
    /// Which packages it renames: the source alone, or those below it too.
    pub reach: Reach,
}

/// The package of a key, and which packages the key means.
fn cut_key(key: &[u8]) -> (&[u8], Reach)
    ensures source { result.0.now ≡ source_text key.now }
    ensures reach { result.1 ≡ reach_of key.now }
{
    if key.ends_with(b".*") {
        (&key[..key.len() - 2], Reach::Below)
    } else {
        (key, Reach::Exact)
    }
}

/// Whether a text is a package as a rule file writes it: identifiers with a `.` between each two, in UTF-8 and in modified UTF-8.
fn is_written_package(text: &[u8]) -> bool
    ensures { result ≡ is_written_package text.now }
{
    is_dotted(text) && is_stored(text) && is_utf8(text)
}

/// The segments of a package that is written with dots; an empty text has none.
fn read_package(alloc: Global, text: &[u8]) -> Result<TextList, Memory>
    ensures { IfOk result (λ parts. parts ≡ segments dot text.now) }
{
    if text.is_empty() {
        Ok(TextList::empty(alloc))
    } else {
        split_at_dots(alloc, text)
    }
}

/// The rename of an entry of `renames.properties`: the key is a package `a.b`, or `a.b.*`, which means the packages below it
/// too; the value is the new package, without blanks at its end. A package is one or more identifiers with a `.` between
/// each two; the new one is modified UTF-8 too, as a class file stores texts (JVMS 4.4.7). The fault is `Key` where the key
/// hasn't its form, else `Value` where the value hasn't.
pub fn read_rename(alloc: Global, key: &[u8], value: &[u8]) -> Result<Rename, EntryError>
    ensures read { IfOk result (λ rename. rename_of key.now value.now ≡ Ok rename) }
    ensures refused { IfErr result (IsError (rename_of key.now value.now)) }
{
    let (source, reach) = cut_key(key);
    let target = trim_trailing_blanks(value);
    if !is_written_package(source) {
        return Err(EntryError::Fault(EntryFault::Key));
    }
    if !is_written_package(target) {
        return Err(EntryError::Fault(EntryFault::Value));
    }
    Ok(Rename {
        source: read_package(alloc, source)?,
        target: read_package(alloc, target)?,
        reach,
    })
}

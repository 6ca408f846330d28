//! Versions of new packages.

ghost use Rattle.std.specs.Prelude.{◌≡◌, Ok, IfOk, IfErr};
ghost use Rattle.std.specs.List.{list_all};
ghost use Rattle.desk_entries.specs.Forms.{is_version_byte, is_version};
ghost use Rattle.desk_entries.specs.Entries.{versions_of, versions_between, IsError};

use crate::faults::{EntryError, EntryFault};
use crate::values::{cut_at_semicolon, has_semicolon};
use desk_base::Text;
use desk_lines::trim_trailing_blanks;
use desk_names::is_dotted;
use std::alloc::Global;

/// An entry of `versions.properties`: the versions of a new package.
#[derive(Debug, Drop)]
pub struct Versions {
    /// The version where the package is imported.
    pub imported: Text,
    /// The version where it is exported.
    pub exported: Text,
}

/// Whether a byte may stand in a version: a letter, a digit, or one of `. _ - , [ ] ( )`.
fn is_version_byte(byte: u8) -> bool
    ensures { result ≡ is_version_byte byte }
{
    matches!(byte, b'A'..=b'Z' | b'a'..=b'z' | b'0'..=b'9' | b'.' | b'_' | b'-' | b',' | b'[' | b']' | b'(' | b')')
}

/// Whether each byte may stand in a version.
fn has_version_bytes(text: &[u8]) -> bool
    ensures { result ≡ list_all is_version_byte text.now }
{
    text.iter().all(|byte| is_version_byte(*byte))
}

/// Whether a text is a version: one or more such bytes.
pub fn is_version(text: &[u8]) -> bool
    ensures { result ≡ is_version text.now }
{
    match text {
        [] => false,
        [_, ..] => has_version_bytes(text),
    }
}

/// Two versions, each of which must have its form.
fn both_versions(alloc: Global, imported: &[u8], exported: &[u8]) -> Result<Versions, EntryError>
    ensures read { IfOk result (λ versions. versions_between imported.now exported.now ≡ Ok versions) }
    ensures refused { IfErr result (IsError (versions_between imported.now exported.now)) }
{
    if !is_version(imported) || !is_version(exported) {
        return Err(EntryError::Fault(EntryFault::Value));
    }
    Ok(Versions {
        imported: Text::from_bytes(alloc, imported)?,
        exported: Text::from_bytes(alloc, exported)?,
    })
}

/// The versions of an entry of `versions.properties`: the key is a package; the value, without blanks at its end, is a
/// version, or two with a `;` between them, of which the second is for exports. A version is one or more letters, digits and
/// `. _ - , [ ] ( )`. The fault is `Key` where the key hasn't its form, else `Value` where the value hasn't.
pub fn read_versions(alloc: Global, key: &[u8], value: &[u8]) -> Result<Versions, EntryError>
    ensures read { IfOk result (λ versions. versions_of key.now value.now ≡ Ok versions) }
    ensures refused { IfErr result (IsError (versions_of key.now value.now)) }
{
    if !is_dotted(key) {
        return Err(EntryError::Fault(EntryFault::Key));
    }
    let value = trim_trailing_blanks(value);
    if has_semicolon(value) {
        let (imported, exported) = cut_at_semicolon(value);
        both_versions(alloc, imported, exported)
    } else {
        both_versions(alloc, value, value)
    }
}

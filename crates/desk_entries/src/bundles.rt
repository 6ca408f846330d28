//! Updates of bundles.

ghost use Rattle.std.specs.Prelude.{◌≡◌, Ok, IfOk, IfErr};
ghost use Rattle.std.specs.List.{list_all};
ghost use Rattle.desk_entries.specs.Forms.{is_symbolic_byte, is_symbolic_name};
ghost use Rattle.desk_entries.specs.Entries.{update_of, plain_update, update_with, IsError};

use crate::faults::{EntryError, EntryFault};
use crate::values::{cut_at_semicolon, has_semicolon};
use crate::versions::is_version;
use desk_base::Text;
use desk_lines::trim_trailing_blanks;
use std::alloc::Global;

/// What takes the place of a bundle's symbolic name (OSGi Core, `Bundle-SymbolicName`).
#[derive(Debug, Drop)]
pub struct Update {
    /// The new symbolic name.
    pub name: Text,
    /// The new version, where there is one.
    pub version: Option<Text>,
}

/// Whether a byte may stand in a symbolic name: a letter, a digit, or one of `. _ -`.
fn is_symbolic_byte(byte: u8) -> bool
    ensures { result ≡ is_symbolic_byte byte }
{
    matches!(byte, b'A'..=b'Z' | b'a'..=b'z' | b'0'..=b'9' | b'.' | b'_' | b'-')
}

/// Whether each byte may stand in a symbolic name.
fn has_symbolic_bytes(text: &[u8]) -> bool
    ensures { result ≡ list_all is_symbolic_byte text.now }
{
    text.iter().all(|byte| is_symbolic_byte(*byte))
}

/// Whether a text is a symbolic name: one or more such bytes.
fn is_symbolic_name(text: &[u8]) -> bool
    ensures { result ≡ is_symbolic_name text.now }
{
    match text {
        [] => false,
        [_, ..] => has_symbolic_bytes(text),
    }
}

/// The update to a name without a version.
fn read_plain(alloc: Global, name: &[u8]) -> Result<Update, EntryError>
    ensures read { IfOk result (λ update. plain_update name.now ≡ Ok update) }
    ensures refused { IfErr result (IsError (plain_update name.now)) }
{
    if !is_symbolic_name(name) {
        return Err(EntryError::Fault(EntryFault::Value));
    }
    Ok(Update {
        name: Text::from_bytes(alloc, name)?,
        version: None,
    })
}

/// The update to a name and a version.
fn read_versioned(alloc: Global, name: &[u8], version: &[u8]) -> Result<Update, EntryError>
    ensures read { IfOk result (λ update. update_with name.now version.now ≡ Ok update) }
    ensures refused { IfErr result (IsError (update_with name.now version.now)) }
{
    if !is_symbolic_name(name) || !is_version(version) {
        return Err(EntryError::Fault(EntryFault::Value));
    }
    let name = Text::from_bytes(alloc, name)?;
    let version = Text::from_bytes(alloc, version)?;
    Ok(Update {
        name,
        version: Some(version),
    })
}

/// The update of an entry of `bundles.properties`: the key is a symbolic name; the value, without blanks at its end, is the
/// new one, or the new one, `;` and a version. A symbolic name is one or more letters, digits and `. _ -`; a version is as in
/// `versions.properties`. The fault is `Key` where the key hasn't its form, else `Value` where the value hasn't.
pub fn read_update(alloc: Global, key: &[u8], value: &[u8]) -> Result<Update, EntryError>
    ensures read { IfOk result (λ update. update_of key.now value.now ≡ Ok update) }
    ensures refused { IfErr result (IsError (update_of key.now value.now)) }
{
    if !is_symbolic_name(key) {
        return Err(EntryError::Fault(EntryFault::Key));
    }
    let value = trim_trailing_blanks(value);
    if has_semicolon(value) {
        let (name, version) = cut_at_semicolon(value);
        read_versioned(alloc, name, version)
    } else {
        read_plain(alloc, value)
    }
}

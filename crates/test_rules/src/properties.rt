//! Files of properties.

ghost use Rattle.std.specs.Prelude.{◌≤◌, length};
ghost use Rattle.desk_base.specs.Limits.{rule_size};

use crate::told;
use desk_base::{Memory, Text};
use desk_properties::{PropError, read_properties};
use indexmap::IndexMap;
use std::alloc::Global;

/// Tells each key and its value.
fn tell_entries(entries: &IndexMap<Text, Text>, out: &mut String) -> Result<(), Memory> {
    if entries.is_empty() {
        return told::text(out, "no entries");
    }
    for (key, value) in entries.iter() {
        told::pair(out, key.as_bytes(), value.as_bytes())?;
    }
    Ok(())
}

/// Tells the entries of a file, or its fault.
pub fn tell_properties(alloc: Global, file: &[u8], out: &mut String) -> Result<(), Memory>
    requires { length file.now ≤ rule_size }
{
    match read_properties(alloc, file) {
        Ok(entries) => tell_entries(&entries, out),
        Err(PropError::Fault(fault)) => told::value(out, &fault),
        Err(PropError::Memory) => Err(Memory),
    }
}

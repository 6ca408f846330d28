//! Entries of a constant pool (JVMS 4.4), and their bytes.

ghost use Rattle.std.specs.Prelude.{◌≡◌, ◌++◌, ◌<◌, ◌^◌, OnOk, All, length, ◌∷◌};
ghost use Rattle.desk_base.specs.Entries.{utf8};
ghost use Rattle.desk_format.specs.PoolBytes.{two, print_entry, print_slots};
ghost use Rattle.desk_gen.specs.Entries.{IsShort, entry_of, slots_of};

use desk_base::{Memory, Text};

/// An entry of a constant pool.
#[derive(Clone, Copy, Debug)]
pub(crate) enum Entry<'a> {
    Utf8(&'a [u8]),
    Class { name: u16 },
    String { text: u16 },
    NameAndType { name: u16, descriptor: u16 },
    Fieldref { class: u16, name_and_type: u16 },
}

/// Appends a tag and an index.
fn append_one(out: &mut Text, tag: u8, index: u16) -> Result<(), Memory>
    ensures { OnOk result (out.new ≡ out.old ++ tag ∷ two index) }
{
    let [high, low] = index.to_be_bytes();
    out.append(&[tag, high, low])
}

/// Appends a tag and two indices.
fn append_pair(out: &mut Text, tag: u8, first: u16, second: u16) -> Result<(), Memory>
    ensures { OnOk result (out.new ≡ out.old ++ tag ∷ two first ++ two second) }
{
    let [high, low] = first.to_be_bytes();
    let [second_high, second_low] = second.to_be_bytes();
    out.append(&[tag, high, low, second_high, second_low])
}

/// Appends a Utf8.
fn append_utf8(out: &mut Text, text: &[u8]) -> Result<(), Memory>
    requires { length text.now < 2 ^ 16 }
    ensures { OnOk result (out.new ≡ out.old ++ print_entry (utf8 text.now)) }
{
    append_one(out, 1, text.len() as u16)?;
    out.append(text)
}

/// Appends an entry.
fn append_entry(out: &mut Text, entry: Entry<'_>) -> Result<(), Memory>
    requires { IsShort entry }
    ensures { OnOk result (out.new ≡ out.old ++ print_entry (entry_of entry.entry)) }
{
    match entry {
        Entry::Utf8(text) => append_utf8(out, text),
        Entry::Class { name } => append_one(out, 7, name),
        Entry::String { text } => append_one(out, 8, text),
        Entry::NameAndType { name, descriptor } => append_pair(out, 12, name, descriptor),
        Entry::Fieldref {
            class,
            name_and_type,
        } => append_pair(out, 9, class, name_and_type),
    }
}

/// Appends entries. The only error is want of memory.
pub(crate) fn append_entries(out: &mut Text, entries: &[Entry<'_>]) -> Result<(), Memory>
    requires { All IsShort entries.now }
    ensures { OnOk result (out.new ≡ out.old ++ print_slots (slots_of entries.now)) }
{
    for entry in entries {
        append_entry(out, *entry)?;
    }
    Ok(())
}

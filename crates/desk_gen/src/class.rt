//! The class file of a generated class.

ghost use Rattle.std.specs.Prelude.{◌≡◌, ◌<◌, ◌^◌, IfOk};
ghost use Rattle.desk_gen.specs.Classes.{class_file};

use crate::entries::{Entry, append_entries};
use crate::names::{class_name, descriptor, dotted_name};
use desk_base::{Memory, Text};
use std::alloc::Global;

/// What stands before the entries: the magic, the minor and the major version, and the count of the pool.
const HEADER: [u8; 10] = [0xCA, 0xFE, 0xBA, 0xBE, 0, 0, 0, 52, 0, 14];

/// What stands behind the pool: the access flags (public and super), this class, the super class, no
/// interfaces; one field with no flags, its name, its descriptor and no attributes; no methods; no
/// attributes.
const BODY: [u8; 22] = [
    0, 0x21, 0, 2, 0, 4, 0, 0, 0, 1, 0, 0, 0, 10, 0, 9, 0, 0, 0, 0, 0, 0,
];

/// The class file of the class of a number, with a field of another class's type. The only error is want
/// of memory.
pub(crate) fn class_file(alloc: Global, number: u32, neighbour: u32) -> Result<Text, Memory>
    ensures { IfOk result (λ text. text ≡ class_file number neighbour) }
{
    let own = class_name(alloc, number)?;
    let other = class_name(alloc, neighbour)?;
    let dotted = dotted_name(alloc, neighbour)?;
    let descriptor = descriptor(alloc, neighbour)?;
    let entries = [
        Entry::Utf8(own.as_bytes()),
        Entry::Class { name: 1 },
        Entry::Utf8(b"java/lang/Object"),
        Entry::Class { name: 3 },
        Entry::Utf8(other.as_bytes()),
        Entry::Class { name: 5 },
        Entry::Utf8(dotted.as_bytes()),
        Entry::String { text: 7 },
        Entry::Utf8(descriptor.as_bytes()),
        Entry::Utf8(b"f"),
        Entry::NameAndType {
            name: 10,
            descriptor: 9,
        },
        Entry::Fieldref {
            class: 6,
            name_and_type: 11,
        },
        Entry::String { text: 1 },
    ];
    let mut out = Text::from_bytes(alloc, &HEADER)?;
    append_entries(&mut out, &entries)?;
    out.append(&BODY)?;
    Ok(out)
}

//! Twins, and a body with its new indices.

use crate::told;
use crate::words::number;
use desk_base::{Memory, Role, Text, Used};
use desk_format::Member;
use desk_new_pool::{NumberedMember, append_body, first_twins};
use std::alloc::Global;

/// A method of one name, by its offset and the number of its descriptor.
fn method(words: &[Text]) -> NumberedMember {
    NumberedMember {
        member: Member {
            at: number(words, 0),
            name: 5,
            descriptor: 6,
            method: true,
        },
        name: 5,
        descriptor: (number(words, 1) & 0xffff) as u16,
    }
}

/// Tells the first twins among methods, each given by its offset and the number of its descriptor.
pub fn tell_twins(alloc: Global, words: &[Text], out: &mut String) -> Result<(), Memory> {
    let mut members = Vec::new(alloc);
    for pair in words.chunks_exact(2) {
        members.push(method(pair))?;
    }
    told::value(out, &first_twins(alloc, &members)?)
}

/// Tells a body of 7 bytes that begins at 39, whose indices 4 and 5 become 4 and 258.
pub fn tell_body(alloc: Global, out: &mut String) -> Result<(), Memory> {
    let mut body = Text::empty(alloc);
    let uses = [
        Used {
            at: 40,
            index: 4,
            role: Role::Plain,
        },
        Used {
            at: 43,
            index: 5,
            role: Role::Descriptor,
        },
    ];
    append_body(&mut body, 39, &[9, 0, 4, 8, 0, 5, 7], &uses, &[4, 258])?;
    told::bytes(out, body.as_bytes())
}

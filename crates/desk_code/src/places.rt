//! The code arrays of the methods of a class.

ghost use Rattle.std.specs.Prelude.{◌≡◌, ◌≤◌, ◌+◌, IfOk, None, length, map, take, drop};
ghost use Rattle.std.specs.Int.{w16, from_be_bytes};
ghost use Rattle.desk_base.specs.Limits.{file_size};
ghost use Rattle.desk_format.specs.Classes.{class_fault};
ghost use Rattle.desk_format.specs.Laws.{IsBytes};
ghost use Rattle.desk_class.specs.Parts.{body_at_in};
ghost use Rattle.desk_code.specs.Codes.{codes_in};
ghost use Rattle.desk_code.specs.Gathering.{number_behind, placed_code};
ghost use Rattle.desk_code.specs.Seen.{seen, seen_code};

use crate::array::Code;
use crate::gathering::gathered_codes;
use desk_base::{Cursor, Memory};
use desk_class::ClassView;
use desk_parts::Stop;
use std::alloc::Global;

/// Where a code array stands: the code of a method, in its Code attribute (JVMS 4.7.3).
#[derive(Clone, Copy, Debug, PartialEq, Eq)]
pub struct CodeAt {
    /// The offset of the method's access flags from the start of the file, in bytes.
    pub member: u32,
    /// `name_index` of the method (JVMS 4.6): the index of its name in the constant pool.
    pub name: u16,
    /// `descriptor_index` of the method (JVMS 4.6): the index of its descriptor in the constant pool.
    pub descriptor: u16,
    /// The offset of the first code byte from the start of the file, in bytes.
    pub at: u32,
    /// `code_length` (JVMS 4.7.3): how many bytes the code has, from 1 to 65,535.
    pub length: u32,
}

impl CodeAt {
    ghost use Rattle.desk_code.specs.Codes.{code_bytes};

    /// The bytes of the code, in those of its class file; what of them there is where it doesn't lie in these bytes. It takes no
    /// memory.
    pub fn bytes<'a>(&self, file: &'a [u8]) -> &'a [u8]
        ensures { result.now ≡ code_bytes file.now self.now }
    {
        front(behind(file, self.at as usize), self.length as usize)
    }
}

/// The bytes of a class.
fn bytes_of<'a>(view: &ClassView<'a>) -> &'a [u8]
    ensures bytes { result.now ≡ view.now }
    ensures each { IsBytes view.now }
    ensures sound { class_fault view.now ≡ None }
    ensures short { length view.now ≤ file_size }
{
    let bytes = view.bytes();
    bytes
}

/// The bytes behind so many, or none.
pub(crate) fn behind(bytes: &[u8], n: usize) -> &[u8]
    ensures { result.now ≡ drop n bytes.now }
{
    if bytes.len() < n {
        return &[];
    }
    &bytes[n..]
}

/// So many bytes at the start, or all.
pub(crate) fn front(bytes: &[u8], n: usize) -> &[u8]
    ensures { result.now ≡ take n bytes.now }
{
    if bytes.len() < n {
        return bytes;
    }
    &bytes[..n]
}

/// The number in the first two bytes, where a byte that isn't there is 0.
fn two(bytes: &[u8]) -> u16
    ensures { result ≡ from_be_bytes w16 (take 2 bytes.now) }
{
    match bytes {
        [] => 0,
        [high] => u16::from(*high) * 256,
        [high, low, ..] => u16::from(*high) * 256 + u16::from(*low),
    }
}

/// The two-byte number behind so many bytes.
fn number_behind(bytes: &[u8], n: usize) -> u16
    ensures { result ≡ number_behind n bytes.now }
{
    two(behind(bytes, n))
}

/// A code array with the indices of its method.
fn placed_code(bytes: &[u8], code: &Code<'_>) -> CodeAt
    ensures { result ≡ placed_code bytes.now (seen_code code.now) }
{
    let member = code.member as usize;
    CodeAt {
        member: code.member,
        name: number_behind(bytes, member + 2),
        descriptor: number_behind(bytes, member + 4),
        at: code.at,
        length: code.code.len() as u32,
    }
}

/// Code arrays with the indices of their methods. The only error is want of memory.
fn places_in(alloc: Global, bytes: &[u8], codes: &[Code<'_>]) -> Result<Vec<CodeAt>, Memory>
    ensures { IfOk result (λ places. places.items ≡ map (placed_code bytes.now) (seen codes.now)) }
{
    let mut places = Vec::new(alloc);
    for code in codes {
        places.push(placed_code(bytes, code))?;
    }
    Ok(places)
}

/// A cursor at the body of a class.
#[tactic(auto, using(crate::proofs::Whole::at_body))]
fn body_of<'a>(view: &ClassView<'a>) -> Cursor<'a>
    ensures { result ≡ record { at = body_at_in view.now; left = drop (body_at_in view.now) view.now } }
{
    let bytes = bytes_of(view);
    let mut cursor = Cursor::new(bytes);
    match cursor.take(view.body_at()) {
        Ok(_) => cursor,
        Err(_) => unreachable!(),
    }
}

/// The code arrays of all methods of a class, in order of place; a method without code, as an abstract one, gives none. One
/// walk over the body. The only error is want of memory.
pub fn codes(alloc: Global, view: &ClassView<'_>) -> Result<Vec<CodeAt>, Memory>
    ensures { IfOk result (λ codes. codes.items ≡ codes_in view.now) }
{
    let bytes = bytes_of(view);
    let cursor = body_of(view);
    match gathered_codes(alloc, view.pool(), cursor) {
        Ok(found) => places_in(alloc, bytes, found.as_slice()),
        Err(Stop::Memory) => Err(Memory),
        Err(Stop::Ended) => unreachable!(),
    }
}

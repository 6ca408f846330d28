//! Two code arrays.

ghost use Rattle.std.specs.Prelude.{◌≡◌, ◌<◌, [], ◌∷◌, true, length, IfNone, IfSome, IsTrue};
ghost use Rattle.desk_code.specs.Instructions.{instructions_of};
ghost use Rattle.desk_compare.specs.Codes.{same_index, same_instruction, same_instructions, reads, same_code};

use crate::known::KnownPairs;
use crate::steps::same_step;
use crate::values::same_value;
use desk_code::{CodeReader, Instruction};

/// Whether the indices of two instructions lead to the same value, or neither has one.
fn same_index(known: &mut KnownPairs<'_, '_, '_>, i: Option<u16>, j: Option<u16>) -> bool
    ensures same { result ≡ same_index known.old.left known.old.right i j }
    ensures pools { known.new ≡ known.old }
{
    match i {
        None => j.is_none(),
        Some(i) => match j {
            None => false,
            Some(j) => same_value(known, i, j),
        },
    }
}

/// Whether an instruction of one code array is the same as one of the other.
fn same_instruction(
    known: &mut KnownPairs<'_, '_, '_>,
    left_code: &[u8],
    right_code: &[u8],
    i: &Instruction,
    j: &Instruction,
) -> bool
    ensures same { result ≡ same_instruction known.old.left known.old.right left_code.now right_code.now i.now j.now }
    ensures pools { known.new ≡ known.old }
{
    i.at == j.at
        && i.opcode == j.opcode
        && i.plain_bytes(left_code) == j.plain_bytes(right_code)
        && same_index(known, i.index, j.index)
}

/// The next instruction; None at the end and at a fault.
#[tactic(auto, using(desk_code::proofs::Nexts::next_some, desk_code::proofs::Nexts::next_none, desk_code::proofs::Nexts::next_fault, desk_code::proofs::Nexts::same_fault))]
fn next_in(reader: &mut CodeReader<'_, '_>) -> Option<Instruction>
    ensures some { IfSome result (λ i. reader.old.instructions ≡ i ∷ reader.new.instructions) }
    ensures none { IfNone result (reader.old.instructions ≡ []) }
    ensures fault { reader.new.fault ≡ reader.old.fault }
{
    match reader.next() {
        Ok(next) => next,
        Err(_) => None,
    }
}

/// Whether the instructions of two code arrays, each up to its first fault, are the same. The readers stand at the first of them,
/// and where this ends afterwards: behind the last, or behind a first difference.
fn same_instructions(
    known: &mut KnownPairs<'_, '_, '_>,
    left_code: &[u8],
    right_code: &[u8],
    one: &mut CodeReader<'_, '_>,
    other: &mut CodeReader<'_, '_>,
) -> bool
    ensures same { result ≡ same_instructions known.old.left known.old.right left_code.now right_code.now one.old.instructions other.old.instructions }
    ensures pools { known.new ≡ known.old }
    ensures left_fault { one.new.fault ≡ one.old.fault }
    ensures right_fault { other.new.fault ≡ other.old.fault }
{
    loop {
        match next_in(one) {
            None => return next_in(other).is_none(),
            Some(i) => match next_in(other) {
                None => return false,
                Some(j) => {
                    if !same_instruction(known, left_code, right_code, &i, &j) {
                        return false;
                    }
                }
            },
        }
    }
}

/// Whether a code array reads to its end, from where its reader stands.
#[tactic(auto, using(desk_code::proofs::Nexts::next_some, desk_code::proofs::Nexts::next_none, desk_code::proofs::Nexts::next_fault, desk_code::proofs::Nexts::same_fault))]
fn reads(mut reader: CodeReader<'_, '_>) -> bool
    ensures { result ≡ reads reader.entry.fault }
{
    loop {
        match reader.next() {
            Ok(Some(_)) => {}
            Ok(None) => return true,
            Err(_) => return false,
        }
    }
}

/// Whether two code arrays have the same instructions, or neither reads to its end and their bytes are the same, by reading each
/// once.
#[tactic(auto, unfolding(crate::specs::Codes::same_code))]
fn same_readings(known: &mut KnownPairs<'_, '_, '_>, left_code: &[u8], right_code: &[u8]) -> bool
    requires left_short { length left_code.now < 4294967296 }
    requires right_short { length right_code.now < 4294967296 }
    ensures same { result ≡ same_code known.old.left known.old.right left_code.now right_code.now }
    ensures pools { known.new ≡ known.old }
{
    let mut one = CodeReader::new(left_code, known.left());
    let mut other = CodeReader::new(right_code, known.right());
    let same = same_instructions(known, left_code, right_code, &mut one, &mut other);
    match (reads(one), reads(other)) {
        (true, true) => same,
        (false, false) => left_code == right_code,
        _ => false,
    }
}

/// Whether two code arrays are found to read to their ends with the same instructions, one step along both at a time, without a list of
/// them.
#[tactic(auto, using(crate::proofs::SameSteps::start, crate::proofs::SameSteps::further, crate::proofs::SameSteps::done))]
fn same_steps(known: &mut KnownPairs<'_, '_, '_>, left_code: &[u8], right_code: &[u8]) -> bool
    ensures same { IsTrue result → same_code known.old.left known.old.right left_code.now right_code.now ≡ true }
    ensures pools { known.new ≡ known.old }
{
    let mut one = left_code;
    let mut other = right_code;
    while !one.is_empty() {
        match same_step(known, one, other) {
            None => return false,
            Some(size) => {
                let (_, ones) = one.split_at(size);
                let (_, others) = other.split_at(size);
                one = ones;
                other = others;
            }
        }
    }
    other.is_empty()
}

/// Whether two code arrays have the same instructions, or neither reads to its end and their bytes are the same. Where steps along
/// both don't find that they are the same, each is read once more.
pub(crate) fn same_code(
    known: &mut KnownPairs<'_, '_, '_>,
    left_code: &[u8],
    right_code: &[u8],
) -> bool
    requires left_short { length left_code.now < 4294967296 }
    requires right_short { length right_code.now < 4294967296 }
    ensures same { result ≡ same_code known.old.left known.old.right left_code.now right_code.now }
    ensures pools { known.new ≡ known.old }
{
    if same_steps(known, left_code, right_code) {
        return true;
    }
    same_readings(known, left_code, right_code)
}

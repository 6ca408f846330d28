//! The instruction that two code arrays begin with.

ghost use Rattle.std.specs.Prelude.{◌≡◌, ◌≤◌, ◌+◌, ◌∷◌, length, take, drop, true, IsTrue, IfSome};
ghost use Rattle.std.specs.Int.{w8, w16, from_be_bytes};
ghost use Rattle.desk_compare.specs.Codes.{IsOperand, IsStep};

use crate::known::KnownPairs;
use crate::values::same_value;
use byteorder::{BigEndian, ByteOrder};
use desk_code::{Operand, Shape, is_named, shape_of};

/// Whether two indices name an operand of the same value.
fn same_operand(known: &mut KnownPairs<'_, '_, '_>, operand: Operand, i: u16, j: u16) -> bool
    ensures same { IsTrue result → IsOperand known.old.left known.old.right operand i j }
    ensures pools { known.new ≡ known.old }
{
    is_named(operand, known.left().tag(i)) && same_value(known, i, j)
}

/// How many bytes an instruction takes behind whose opcode so many stand, none of them an index, where these are the same.
fn plain_step(left: &[u8], right: &[u8], n: u8) -> Option<usize>
    ensures size { IfSome result (λ size. size ≡ 1 + n) }
    ensures left { IfSome result (λ size. n ≤ length left.now) }
    ensures right { IfSome result (λ size. n ≤ length right.now) }
    ensures same { IfSome result (λ size. take n left.now ≡ take n right.now) }
{
    let n = usize::from(n);
    if left.len() < n || right.len() < n {
        return None;
    }
    if n > 0 && &left[..n] != &right[..n] {
        return None;
    }
    Some(1 + n)
}

/// The same for an instruction with a one-byte index.
fn byte_step(
    known: &mut KnownPairs<'_, '_, '_>,
    operand: Operand,
    left: &[u8],
    right: &[u8],
) -> Option<usize>
    ensures size { IfSome result (λ size. size ≡ 2) }
    ensures left { IfSome result (λ size. 1 ≤ length left.now) }
    ensures right { IfSome result (λ size. 1 ≤ length right.now) }
    ensures operand { IfSome result (λ size. IsOperand known.old.left known.old.right operand (from_be_bytes w8 (take 1 left.now)) (from_be_bytes w8 (take 1 right.now))) }
    ensures pools { known.new ≡ known.old }
{
    let (i, _) = left.split_first()?;
    let (j, _) = right.split_first()?;
    if same_operand(known, operand, u16::from(*i), u16::from(*j)) {
        Some(2)
    } else {
        None
    }
}

/// The index in front of some bytes.
fn front_index(bytes: &[u8]) -> u16
    requires { 2 ≤ length bytes.now }
    ensures { result ≡ from_be_bytes w16 (take 2 bytes.now) }
{
    BigEndian::read_u16(&bytes[..2])
}

/// The same for an instruction with a two-byte index, and so many bytes behind it.
fn index_step(
    known: &mut KnownPairs<'_, '_, '_>,
    operand: Operand,
    n: u8,
    left: &[u8],
    right: &[u8],
) -> Option<usize>
    ensures size { IfSome result (λ size. size ≡ 3 + n) }
    ensures left { IfSome result (λ size. 2 + n ≤ length left.now) }
    ensures right { IfSome result (λ size. 2 + n ≤ length right.now) }
    ensures operand { IfSome result (λ size. IsOperand known.old.left known.old.right operand (from_be_bytes w16 (take 2 left.now)) (from_be_bytes w16 (take 2 right.now))) }
    ensures same { IfSome result (λ size. take n (drop 2 left.now) ≡ take n (drop 2 right.now)) }
    ensures pools { known.new ≡ known.old }
{
    if left.len() < 2 || right.len() < 2 {
        return None;
    }
    let i = front_index(left);
    let j = front_index(right);
    let (_, left) = left.split_at(2);
    let (_, right) = right.split_at(2);
    if plain_step(left, right, n).is_none() {
        return None;
    }
    if same_operand(known, operand, i, j) {
        Some(3 + usize::from(n))
    } else {
        None
    }
}

/// How many bytes an instruction of an opcode takes, by the bytes behind the opcode in two code arrays, where both read it and it is
/// the same. None where it isn't, and for a switch and a widened instruction.
fn step_behind(
    known: &mut KnownPairs<'_, '_, '_>,
    opcode: u8,
    left: &[u8],
    right: &[u8],
) -> Option<usize>
    ensures step { IfSome result (IsStep known.old.left known.old.right (opcode ∷ left.now) (opcode ∷ right.now)) }
    ensures pools { known.new ≡ known.old }
{
    match shape_of(opcode) {
        Some(Shape::Bytes(n)) => plain_step(left, right, n),
        Some(Shape::ByteIndex(operand)) => byte_step(known, operand, left, right),
        Some(Shape::Index(operand, n)) => index_step(known, operand, n, left, right),
        _ => None,
    }
}

/// How many bytes the instruction takes that two code arrays begin with, where it is the same in both.
pub(crate) fn same_step(
    known: &mut KnownPairs<'_, '_, '_>,
    left: &[u8],
    right: &[u8],
) -> Option<usize>
    ensures step { IfSome result (IsStep known.old.left known.old.right left.now right.now) }
    ensures pools { known.new ≡ known.old }
{
    let (opcode, left) = left.split_first()?;
    let (other, right) = right.split_first()?;
    if *opcode != *other {
        return None;
    }
    step_behind(known, *opcode, left, right)
}

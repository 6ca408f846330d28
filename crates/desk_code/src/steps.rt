//! One instruction, by its opcode and the bytes behind it.

ghost use Rattle.std.specs.Prelude.{◌≡◌, ◌+◌, ◌-◌, ◌*◌, ◌%◌, ◌≤◌, ◌<◌, length, drop, take, Option, Some, None, Ok, IfOk};
ghost use Rattle.std.specs.Int.{w8, w16, w32, from_be_bytes};
ghost use Rattle.desk_code.specs.Instructions.{within, checked, widened, tabled, paired, padding, four, ordered, instruction, instruction_at};

use crate::opcodes::{Operand, Shape, is_named, shape_of, wide_size};
use crate::reader::Instruction;
use byteorder::{BigEndian, ByteOrder};
use desk_base::CodeFault;
use desk_pool::Pool;

/// An instruction without an index, with so many bytes behind its opcode.
fn plain(at: u32, opcode: u8, n: u32, behind: &[u8]) -> Result<Instruction, CodeFault>
    requires { n < 65536 }
    ensures value { result ≡ within at n behind.now (Ok (instruction at opcode (1 + n) None)) }
    ensures size { IfOk result (λ i. i.size ≤ 1 + length behind.now) }
    ensures some { IfOk result (λ i. 0 < i.size) }
{
    if behind.len() < n as usize {
        return Err(CodeFault::UnexpectedEnd { at });
    }
    Ok(Instruction {
        at,
        opcode,
        size: 1 + n,
        index: None,
    })
}

/// An instruction with an index, which stands behind its opcode.
fn checked(
    pool: &Pool<'_>,
    operand: Operand,
    at: u32,
    opcode: u8,
    size: u32,
    index: u16,
) -> Result<Instruction, CodeFault>
    requires { at < 4294967295 }
    ensures value { result ≡ checked pool.now.entries operand at opcode size index }
    ensures size { IfOk result (λ i. i.size ≡ size) }
{
    if !is_named(operand, pool.tag(index)) {
        return Err(CodeFault::Operand { at: at + 1 });
    }
    Ok(Instruction {
        at,
        opcode,
        size,
        index: Some(index),
    })
}

/// A two-byte index, and so many bytes behind it.
fn indexed(
    pool: &Pool<'_>,
    operand: Operand,
    n: u8,
    at: u32,
    opcode: u8,
    behind: &[u8],
) -> Result<Instruction, CodeFault>
    requires { at < 4294967295 }
    ensures value { result ≡ within at (2 + n) behind.now (checked pool.now.entries operand at opcode (3 + n) (from_be_bytes w16 (take 2 behind.now))) }
    ensures size { IfOk result (λ i. i.size ≤ 1 + length behind.now) }
    ensures some { IfOk result (λ i. 0 < i.size) }
{
    if behind.len() < 2 + usize::from(n) {
        return Err(CodeFault::UnexpectedEnd { at });
    }
    let index = BigEndian::read_u16(&behind[..2]);
    checked(pool, operand, at, opcode, 3 + u32::from(n), index)
}

/// The instruction of C4, by the opcode that it widens.
fn widened(at: u32, opcode: u8, behind: &[u8]) -> Result<Instruction, CodeFault>
    requires { at < 4294967295 }
    ensures value { result ≡ widened at opcode behind.now }
    ensures size { IfOk result (λ i. i.size ≤ 1 + length behind.now) }
    ensures some { IfOk result (λ i. 0 < i.size) }
{
    match behind {
        [] => Err(CodeFault::UnexpectedEnd { at }),
        [second, behind @ ..] => match wide_size(*second) {
            None => Err(CodeFault::Opcode { at: at + 1 }),
            Some(n) => {
                if behind.len() < usize::from(n) {
                    return Err(CodeFault::UnexpectedEnd { at });
                }
                Ok(Instruction {
                    at,
                    opcode,
                    size: 2 + u32::from(n),
                    index: None,
                })
            }
        },
    }
}

/// The four-byte number in front of so many bytes.
fn four(n: usize, behind: &[u8]) -> u32
    requires { n + 4 ≤ length behind.now }
    ensures { result ≡ four n behind.now }
{
    BigEndian::read_u32(&behind[n..])
}

/// How many bytes stand between the opcode of a switch and the next multiple of four from the start of the code.
fn padding(at: u32) -> u32
    ensures value { result ≡ padding at }
    ensures few { result < 4 }
{
    3 - at % 4
}

/// A signed number of four bytes as an unsigned one, in the same order.
fn ordered(n: u32) -> u32
    ensures { result ≡ ordered n }
{
    n.wrapping_add(0x8000_0000)
}

/// A `tableswitch`: padding, the default, low, high, and an offset for each number from low to high.
fn table_switch(at: u32, opcode: u8, behind: &[u8]) -> Result<Instruction, CodeFault>
    requires { length behind.now < 4294967295 }
    ensures value { result ≡ within at (padding at + 12) behind.now (tabled at opcode (padding at + 12) behind.now (ordered (four (padding at + 4) behind.now)) (ordered (four (padding at + 8) behind.now))) }
    ensures size { IfOk result (λ i. i.size ≤ 1 + length behind.now) }
    ensures some { IfOk result (λ i. 0 < i.size) }
{
    let padding = padding(at);
    if behind.len() < padding as usize + 12 {
        return Err(CodeFault::UnexpectedEnd { at });
    }
    let low = ordered(four(padding as usize + 4, behind));
    let high = ordered(four(padding as usize + 8, behind));
    if high < low {
        return Err(CodeFault::Switch { at });
    }
    let size = u64::from(padding) + 12 + 4 * (u64::from(high - low) + 1);
    if (behind.len() as u64) < size {
        return Err(CodeFault::UnexpectedEnd { at });
    }
    Ok(Instruction {
        at,
        opcode,
        size: 1 + size as u32,
        index: None,
    })
}

/// A `lookupswitch`: padding, the default, the count, and as many pairs.
fn lookup_switch(at: u32, opcode: u8, behind: &[u8]) -> Result<Instruction, CodeFault>
    requires { length behind.now < 4294967295 }
    ensures value { result ≡ within at (padding at + 8) behind.now (paired at opcode (padding at + 8) behind.now (four (padding at + 4) behind.now)) }
    ensures size { IfOk result (λ i. i.size ≤ 1 + length behind.now) }
    ensures some { IfOk result (λ i. 0 < i.size) }
{
    let padding = padding(at);
    if behind.len() < padding as usize + 8 {
        return Err(CodeFault::UnexpectedEnd { at });
    }
    let count = four(padding as usize + 4, behind);
    if count >= 0x8000_0000 {
        return Err(CodeFault::Switch { at });
    }
    let size = u64::from(padding) + 8 + 8 * u64::from(count);
    if (behind.len() as u64) < size {
        return Err(CodeFault::UnexpectedEnd { at });
    }
    Ok(Instruction {
        at,
        opcode,
        size: 1 + size as u32,
        index: None,
    })
}

/// An instruction at a place: its opcode, and the bytes behind it.
#[tactic(auto, unfolding(crate::specs::Instructions::instruction_at))]
pub(crate) fn instruction_at(
    pool: &Pool<'_>,
    at: u32,
    opcode: u8,
    behind: &[u8],
) -> Result<Instruction, CodeFault>
    requires { at + length behind.now < 4294967295 }
    ensures value { result ≡ instruction_at pool.now.entries at opcode behind.now }
    ensures size { IfOk result (λ i. i.size ≤ 1 + length behind.now) }
    ensures some { IfOk result (λ i. 0 < i.size) }
{
    match shape_of(opcode) {
        None => Err(CodeFault::Opcode { at }),
        Some(Shape::Bytes(n)) => plain(at, opcode, u32::from(n), behind),
        Some(Shape::ByteIndex(operand)) => match behind {
            [] => Err(CodeFault::UnexpectedEnd { at }),
            [index, ..] => checked(pool, operand, at, opcode, 2, u16::from(*index)),
        },
        Some(Shape::Index(operand, n)) => indexed(pool, operand, n, at, opcode, behind),
        Some(Shape::TableSwitch) => table_switch(at, opcode, behind),
        Some(Shape::LookupSwitch) => lookup_switch(at, opcode, behind),
        Some(Shape::Wide) => widened(at, opcode, behind),
    }
}

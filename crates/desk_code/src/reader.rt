//! The instructions of a code array, one after the other.

ghost use Rattle.std.specs.Prelude.{◌≡◌, ◌+◌, ◌<◌, length};
ghost use Rattle.desk_code.specs.Instructions.{Instructions, instructions_from, instructions_of, next_of, behind_next};

use crate::opcodes::index_size;
use crate::places::{behind, front};
use crate::steps::instruction_at;
use desk_base::CodeFault;
use desk_pool::Pool;
use std::marker::Model;

/// An instruction (JVMS 6.5).
#[derive(Clone, Copy, Debug, PartialEq, Eq)]
pub struct Instruction {
    /// The offset of its opcode from the first code byte, in bytes.
    pub at: u32,
    /// Its opcode; 0xC4 where that widens another, which stands behind it.
    pub opcode: u8,
    /// How many bytes it takes, with its opcode.
    pub size: u32,
    /// The index of the constant pool behind its opcode, of one byte (`ldc`) or two; None where it has none.
    pub index: Option<u16>,
}

impl Instruction {
    ghost use Rattle.desk_code.specs.Instructions.{plain_bytes};

    /// The bytes behind its opcode that are no index, in those of the code that it was read from. It takes no memory.
    pub fn plain_bytes<'c>(&self, code: &'c [u8]) -> &'c [u8]
        ensures { result.now ≡ plain_bytes code.now self.now }
    {
        let bytes = front(behind(code, self.at as usize), self.size as usize);
        behind(bytes, 1 + index_size(self.opcode))
    }
}

/// A reader of a code array (JVMS 4.7.3). Contracts see it as the instructions that are to come, and the fault that ends them
/// if one does. No call takes memory; `next` takes the time of one instruction.
#[derive(Drop)]
pub struct CodeReader<'c, 'p> {
    at: u32,
    left: &'c [u8],
    pool: &'c Pool<'p>,
}

impl<'c, 'p> Model for CodeReader<'c, 'p> {
    ghost Value = { Instructions };

    ghost view = { λ r. instructions_from r.pool.now.entries r.at 0 r.left.now };

    ghost invariant = { λ r. r.at + length r.left.now < 4294967296 };
}

impl<'c, 'p> CodeReader<'c, 'p> {
    /// A reader at the first byte of a code array, whose indices are those of a pool. The code has fewer than 2^32 bytes; that
    /// of a class has at most 65,535 (JVMS 4.7.3).
    pub fn new(code: &'c [u8], pool: &'c Pool<'p>) -> CodeReader<'c, 'p>
        requires { length code.now < 4294967296 }
        ensures { result ≡ instructions_of pool.now.entries code.now }
    {
        CodeReader {
            at: 0,
            left: code,
            pool,
        }
    }

    /// The next instruction, and None exactly at the end. A fault's place is an offset from the first code byte, in bytes; where
    /// an instruction has several faults, the first of these is answered: `Opcode`, `UnexpectedEnd` of its fixed part, `Switch`,
    /// `UnexpectedEnd` of a switch's table, `Operand`. After a fault each call answers the same fault, and at the end None.
    pub fn next(&mut self) -> Result<Option<Instruction>, CodeFault>
        ensures answer { result ≡ next_of self.old }
        ensures behind { self.new ≡ behind_next self.old }
    {
        match self.left.split_first() {
            None => Ok(None),
            Some((opcode, behind)) => {
                let instruction = instruction_at(self.pool, self.at, *opcode, behind)?;
                let (_, left) = self.left.split_at(instruction.size as usize);
                self.at += instruction.size;
                self.left = left;
                Ok(Some(instruction))
            }
        }
    }
}

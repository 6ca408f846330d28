//! The code of a class: where the code arrays of its methods stand, and the instructions in one (JVMS 4.7.3, 4.9, 6.5).
//!
//! ```text
//! for place in codes(alloc, &class)?.iter() {
//!     let mut reader = CodeReader::new(place.bytes(class.bytes()), class.pool());
//!     while let Some(instruction) = reader.next()? { .. }
//! }
//! ```
#![tactic(auto)]

mod array;
mod gathering;
mod opcodes;
mod places;
mod reader;
mod steps;

pub use desk_base::CodeFault;
pub use opcodes::{Operand, Shape, is_named, shape_of};
pub use places::{CodeAt, codes};
pub use reader::{CodeReader, Instruction};

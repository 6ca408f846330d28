//! A class file that reads from its first byte to its last (JVMS 4.1), or its first fault.
//!
//! ```text
//! match ClassView::read(alloc, bytes) {
//!     Ok(class) => rename(class.name(), class.uses()),
//!     Err(ReadFault::Malformed(fault)) => refuse(fault.kind, fault.at),
//!     Err(ReadFault::Memory) => return Err(Memory),
//! }
//! ```
#![tactic(auto)]

mod answers;
mod body;
mod class;
mod found;
mod header;
mod held;
mod items;
mod marks;
mod members;
mod names;
mod numbers;
mod twins;

pub use answers::TextAnswers;
pub use class::ClassView;
pub use desk_format::Member;
pub use held::HeldNames;
pub use marks::Marked;
pub use numbers::TextNumbers;

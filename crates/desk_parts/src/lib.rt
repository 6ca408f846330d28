//! The parts of a class's body as one table, and a walk along a body by that table.
//!
//! ```text
//! // what a walk does at each item is a `Walker`'s to say; the order of the items is the table's
//! let mut position = walker.start(bytes);
//! walk_body(&mut position, &walker)?;
//! ```
#![tactic(auto)]

mod parts;
mod walk;
mod walker;

pub use walk::walk_body;
pub use walker::{Stop, Walker};

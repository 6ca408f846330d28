//! Walks over attributes (JVMS 4.7): each by its name and its place, with its body fenced by its length.
//!
//! ```text
//! let mut uses = Vec::new(alloc);              // the attributes of a method, behind their count
//! walk_attributes(Location::OfMethod, &mut cursor, &pool, &mut uses)?;
//! ```
#![tactic(auto)]

mod attributes;
mod bodies;
mod heads;
mod names;
mod parts;
mod places;

pub use attributes::{walk_attribute, walk_attributes};
pub use desk_annos::walk_rows;
pub use desk_format::{Location, Slot};
pub use names::attribute_named;

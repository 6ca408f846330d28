//! Walks over the parts of attributes that are more than rows of slots: element values, annotations, type annotations and
//! stack map frames. Each walker reads exactly its layout, and hands over the uses of texts in it in order of place.
//!
//! ```text
//! let mut uses = Vec::new(alloc);              // the body of a RuntimeVisibleAnnotations
//! walk_annotations(&mut cursor, &pool, &mut uses)?;
//! ```
#![tactic(auto)]

mod elements;
mod frames;
mod items;
mod rows;
mod types;

pub use elements::{walk_annotations, walk_element, walk_parameter_annotations};
pub use frames::walk_frames;
pub use items::{walk_index, walk_u1, walk_u2};
pub use rows::{walk_row, walk_rows, walk_table};
pub use types::walk_type_annotations;

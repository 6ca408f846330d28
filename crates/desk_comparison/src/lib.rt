//! An application compared with what rules make of another one: both are read into memory, each file of the one is migrated, and the
//! images are compared with the files of the other.
//!
//! ```text
//! let found = compare_applications(&workers, alloc, &mut folders, &rules, &from, &other)?;
//! found.text      // differs WEB-INF/classes/web/Hello.class tree
//! found.status    // Status::Differs { path } of this path
//! ```
#![tactic(auto)]

mod comparing;
mod images;
mod made;
mod noting;
mod reading;
mod telling;

pub use comparing::{Comparison, compare_applications};

/// How many bytes two applications that are compared have together at most.
const MAX_BOTH: u64 = 1_073_741_824;

/// How many workers compare two applications. What is told is the same for every number.
pub const WORKERS: u32 = 4;

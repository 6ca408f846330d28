//! What stands behind the line of a status: why the run ended, and what to do. The texts stand in one table.
//!
//! ```text
//! let status = Status::BadRules(RuleFault::NoRenames);
//! hint_of(&status)                     // Some(Hint::NoRenames)
//! hint_behind(&fault, Listed::File)    // Some(Hint::FileAsFolder), where a folder of the words is a file
//! Hint::NoRenames.text()               // migrate: the rule folder has no `renames.properties`, or it has no key ..
//! slip_line(alloc, &slip)?             // migrate: `rnu` is no task: the first word is `run`, ..
//! ```
#![tactic(auto)]

mod hints;
mod listed;
mod releases;
mod words;

pub use hints::{HINTS, Hint, hint_of};
pub use listed::{Listed, hint_behind, listed_by};
pub use releases::{release_line, release_of};
pub use words::slip_line;

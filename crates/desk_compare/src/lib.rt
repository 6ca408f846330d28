//! Two applications compared file by file, classes up to the order of their constant pools, on workers.
//!
//! ```text
//! match compare(&workers, alloc, &migrated, &others)? { // both in byte order of their paths
//!     Verdict::Same => {}                              // the same paths, and at each of them the same
//!     Verdict::Differs { path, what } => tell(path, what), // the least path at which they differ
//! }
//! ```
#![tactic(auto)]

mod ahead;
mod bodies;
mod classes;
mod codes;
mod files;
mod known;
mod pairs;
mod steps;
mod values;

pub use files::{Verdict, What, compare};

//! Commands of programs of tests: over the files of a folder, and over a ledger. Each takes the words behind the first of its
//! line, and appends what it answers, in lines that begin with two blanks.
//!
//! ```text
//! file write old hello              nothing is answered where it is done, and else the kind of the error
//! file kind old                     `file`, `folder`, `link` or `nothing`
//! ledger put one a 1                `ok`, `failed` or `memory`
//! ledger find one                   target, source, digest and output, or `none`
//! ```
#![tactic(auto)]

mod folder;
mod keeping;
mod lines;
mod numbers;

pub use folder::OwnFolder;
pub use keeping::{Attached, append_fault, header_of};
pub use lines::{append_unknown, append_words};
pub use numbers::{byte_of, number_of, numbers_of};

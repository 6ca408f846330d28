//! The classes of an application: which names they define and hold, what each name becomes, which two names would become one,
//! and which class would be left behind.
#![tactic(auto)]

mod clashes;
mod counts;
mod graph;
mod known;
mod name;
mod name_set;
mod names;
mod nodes;
mod scanned;
mod stranded;

pub use graph::{ClassGraph, GraphFault};
pub use scanned::{Scanned, scan};

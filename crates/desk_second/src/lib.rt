//! Laws of whole applications: references follow, and a second migration changes nothing.
#![tactic(auto)]

mod laws;

pub use laws::{definitions_follow, references_follow, rules_of_files, second_migration};

//! Laws of the classes that the inverse of a rule set takes back.
#![tactic(auto)]

mod laws;

pub use laws::{classes_back, texts_back};

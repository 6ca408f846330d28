//! The laws of a class that is renamed.
//!
//! ```text
//! // a call teaches a proof the law: what is read prints to its bytes
//! desk_laws::printed_classes();
//! ```
#![tactic(auto)]

mod laws;

pub use laws::{
    followed_values, missing_texts, new_pools, printed_classes, printed_pools, refused_twins,
    renamed_classes, unchanged_classes,
};

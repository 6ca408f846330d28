//! What the outside refused, as it is told to people: what was tried, on which path, and the system's words.
//!
//! ```text
//! let refusal = Refusal::from_system(error);                    // Refusal::Failed(Cause::System(error))
//! let fault = Fault::of(alloc, Tried::Reading, &path, cause)?;  // what was tried, the path, and the words
//! fault_line(alloc, &fault)?                                    // migrate: reading app/x.class: Permission denied
//! ```
#![tactic(auto)]

mod causes;
mod fault;

pub use causes::{Cause, Refusal, refusal_of};
pub use fault::{Fault, Tried, fault_line};

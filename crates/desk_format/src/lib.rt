//! The class file format of JVMS chapter 4 as definitions, and the laws of a class that is renamed.
//!
//! ```text
//! // in a contract, what a reader of class files answers:
//! ghost use Rattle.desk_format.specs.Classes.{class_fault};
//!
//! fn fault_of(bytes: &[u8]) -> Option<Malformed>
//!     ensures { result ≡ class_fault bytes.now }
//! ```
#![tactic(auto)]

mod attributes;
mod laws;
mod members;
pub mod tags;

pub use attributes::{Attribute, Location, Slot};
pub use laws::{nested_attributes, printed_bodies, renamed_bodies};
pub use members::Member;

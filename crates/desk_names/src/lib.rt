//! Names in class files: class names, descriptors and signatures.
//!
//! ```text
//! let mut parts = read_descriptor(b"(Ljavax/sql/D;I)V", Want::Method)?;
//! parts.next()                             // Part::Other(b"(L")
//! parts.next()                             // Part::Class(ClassName { package: b"javax/sql", simple: b"D" })
//! parts.next()                             // Part::Other(b";I)V")
//! read_descriptor(b"[V", Want::Field)      // None
//! ```
#![tactic(auto)]

mod descriptors;
mod laws;
mod names;
mod parts;
mod signature_parts;
mod signatures;

pub use descriptors::Want;
pub use laws::{
    descriptors_have_one_tree, parts_of_descriptors_exchange, parts_of_signatures_exchange,
    signatures_have_one_tree,
};
pub use names::{ClassName, is_dotted, is_identifier, split_class};
pub use parts::{DescParts, Part, read_descriptor};
pub use signature_parts::{SigParts, read_signature};
pub use signatures::Which;

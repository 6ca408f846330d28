//! Images of texts under a rule set.
//!
//! ```text
//! // under the rule `javax.servlet.*=jakarta.servlet`
//! rename_class(alloc, &rules, b"javax/servlet/Filter")?; // Some(`jakarta/servlet/Filter`)
//! rename_descriptor(alloc, &rules, b"()Ljavax/servlet/Filter;")?; // Some(`()Ljakarta/servlet/Filter;`)
//! rename_class(alloc, &rules, b"javax/sql/DataSource")?; // None: it is its own image
//! ```
#![tactic(auto)]

mod descriptors;
mod drafts;
mod fronts;
mod images;
mod laws;
mod names;
mod signatures;
mod strings;

pub use descriptors::{rename_class, rename_descriptor};
pub use images::{Images, NoImages};
pub use laws::{
    class_names_stay, descriptors_stay, modified_utf8_stays, packages_stay, signatures_stay,
};
pub use names::{append_dotted, append_package, rename_dotted, rename_package};
pub use signatures::rename_signature;
pub use strings::{rename_dotted_package, rename_string};

//! Paths of files: their class root, their kind, and where they go.
//!
//! ```text
//! let placed = place(b"shop.war/WEB-INF/classes/javax/servlet/F.class");
//! // placed.root is "shop.war/WEB-INF/classes", placed.rest is "javax/servlet/F.class", placed.kind is Kind::Class
//! let found = target(alloc, &rules, b"a.jar/META-INF/services/javax.servlet.F")?;
//! // "a.jar/META-INF/services/jakarta.servlet.F" where javax.servlet becomes jakarta.servlet
//! ```
#![tactic(auto)]

mod places;
mod targets;

pub use places::{CutPath, Placed, place};
pub use targets::{renamed_path, target};

/// A kind of file, by its path.
#[derive(Clone, Copy, Debug, PartialEq, Eq)]
pub enum Kind {
    /// Provider names of a service (ServiceLoader): behind the class root stands `META-INF/services/`
    /// and a file name.
    Service,
    /// The manifest: behind the class root stands `META-INF/MANIFEST.MF`.
    Manifest,
    /// A class file: any other file whose path ends in `.class`.
    Class,
    /// Any other file.
    Other,
}

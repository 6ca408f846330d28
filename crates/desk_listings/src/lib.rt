//! Images of header values that are lists of clauses (OSGi Core 3.2.4): packages with their versions and `uses`, and bundles
//! with theirs.
//!
//! ```text
//! // under the rule `javax.servlet.*=jakarta.servlet` and the version `jakarta.servlet=[5,6)`
//! let value = b"javax.servlet;version=\"[3.1,5)\",org.slf4j";
//! rename_listing(alloc, &rules, Listing::Imports, value)?; // Some(`jakarta.servlet;version="[5,6)",org.slf4j`)
//! ```
#![tactic(auto)]

mod listings;
mod packages;
mod parts;

pub use listings::{Listing, identity_version, rename_listing};

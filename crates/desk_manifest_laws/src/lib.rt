//! Laws of manifests: what is read of a header that was folded, and that the image of a list of clauses is its own image. They
//! are what a manifest's image is its own image by.
//!
//! ```text
//! // under `javax.servlet.*=jakarta.servlet`, with the version `[5.0,6)` for `jakarta.servlet`:
//! // the image of `javax.servlet;version="[3.1,4)"` is `jakarta.servlet;version="[5.0,6)"`, whose image is itself
//! listings_stay();
//! ```
#![tactic(auto)]

mod laws;

pub use laws::{headers_are_read_back, listings_stay};

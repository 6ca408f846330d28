//! One file: where it goes, and what it becomes there.
//!
//! ```text
//! let path = Text::from_bytes(alloc, b"META-INF/services/javax.servlet.F")?;
//! let route = route_of(alloc, &rules, path)?; // to META-INF/services/jakarta.servlet.F, as a service file
//! match migrate_file(alloc, &graph, &route, bytes) {
//!     Ok(Image { bytes, detail }) => write(&route.target, &bytes, detail),
//!     Err(FileFault::Refused(reason)) => tell(&route.path, reason),
//!     Err(FileFault::Memory) => return Err(Memory),
//! }
//! ```
#![tactic(auto)]

mod classes;
mod images;
mod routes;
mod scans;
mod targets;
mod treatments;

pub use classes::migrate_class;
pub use images::{FileFault, Image, migrate_file, outgrows};
pub use routes::{Route, route_of};
pub use scans::{NotedClass, note_class};
pub use targets::target_of;
pub use treatments::{Treatment, is_whole, treatment_of};

//! The new class of a class whose names change: its bytes, or why there is none; and the laws of the images of its texts
//! under a rule set.
//!
//! ```text
//! let view = ClassView::read(alloc, bytes)?;
//! let images = NoImages::new(&rules);
//! let Rewritten { bytes, renamed, added, odd } = rewrite(alloc, &rules, &images, &view)?;
//! ```
#![tactic(auto)]

mod counts;
mod images;
mod itself;
mod laws;
mod members;
mod printing;
mod rewriting;
mod seen;
mod table;
mod wants;

pub use itself::odd_if_unchanged;
pub use laws::{forms_stay, images_stay};
pub use rewriting::{RewriteFault, Rewritten, rewrite};

//! The entries of a rule file with their lines, and which rules nothing in an application meets.
//!
//! ```text
//! let entries = key_lines(alloc, b"javax.el=jakarta.el\n")?;
//! let mut sought = Sought::new(alloc);
//! sought.add(RuleKind::Rename, &entries)?;
//! sought.settle()?;
//! sought.begin(b"web.xml");
//! sought.take(b"<el>javax.el</el>")?;
//! sought.is_done()                                      // true
//! ```
#![tactic(auto)]

mod entries;
mod forms;
mod sought;

pub use entries::{KeyLine, Piece, key_lines, line_of_byte, line_of_key};
pub use sought::{RuleKind, Sought, SoughtRule, is_for_any, package_of, without_blanks};

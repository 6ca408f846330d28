//! What the lines of a report and the keys of rule files say beside what they are for: archives that were copied unread,
//! signatures that no longer fit, files by the reason of their refusal, keys that look like a slip, and rules that nothing in an
//! application meets.
//!
//! ```text
//! let mut notes = Notes::new(alloc);
//! notes.take(b"written lib/a.jar lib/a.jar copy\n");
//! notes.append_to(&mut text)?;                          // migrate: 1 archive was copied unread: ..
//! ```
#![tactic(auto)]

mod keys;
mod lines;
mod notes;
mod patterns;
mod rules;

pub use keys::{Slip, slip_of};
pub use lines::{LineRead, is_archive_file, is_jsr305, is_signature, is_utf16, read_line, unshown};
pub use notes::{Notes, Refusals};
pub use patterns::{PatternLine, special_patterns};
pub use rules::{RuleNotes, place_text};

//! What the program around the desk chooses by values alone, each exact: what ends in which status, which rule file a rule stands in,
//! whether a stream leads into a file, and the lines of what is told behind a run. Little is asked of the system here (the
//! descriptor that a folder gets, bytes that go on to a sink); what is read and written is the work of the crates above.
//!
//! ```text
//! exit_of(&status)                                         // the exit status that tells a status
//! closing_line(alloc, &closing)?;                          // migrate: 2 files, 1 written, 1 kept; nothing is left to look at
//! first_file(ChainKind::DirectThenRename)                  // direct.properties
//! NotingSink::new(&rt, out, notes)                         // a sink whose bytes are noted on their way
//! ```
#![tactic(auto)]

mod chains;
mod closing;
mod endings;
mod names;
mod noting_sink;
mod packages;
mod streams;
mod words;

pub use chains::{first_file, second_file};
pub use closing::{Closing, closing_line, count_notes};
pub use endings::{exit_of, unplaced, unread};
pub use names::Names;
pub use noting_sink::{Noting, NotingSink};
pub use packages::slashed;
pub use streams::{Streams, is_into};
pub use words::words_behind;

//! What the program does around the desk: it takes the stack that it needs, reads its words, sees that standard streams don't lead into
//! the ledger, looks at the roots on the disk before a run, and tells people on standard error what stands behind the end of one.
//!
//! ```text
//! let words = read_words(&rt)?;                            // what stands behind the program's name
//! let request = Request::read(alloc, &words);              // what they ask for
//! let asked = asked_of(&request);                          // the roots, where the words ask for a run
//! ended_by_streams(&rt, &roots)?                           // the status of a run whose ledger standard output is written into
//! guarded(&rt, &roots, &mut folders)                       // how a run ends before it begins, if it does
//! tell_end(&rt, &ending)                                   // what stands behind its end, on standard error
//! ```
#![tactic(auto)]

mod after;
mod before;
mod looks;
mod outputs;
mod rules;
mod search;
mod stack;
mod telling;
mod words;

pub use after::{Ending, tell_end};
pub use before::{Stopped, guarded};
pub use outputs::ended_by_streams;
pub use stack::take_stack;
pub use telling::tell_unread;
pub use words::{Asked, asked_of, read_words};

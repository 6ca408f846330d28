//! The desk over the real outside, the folders of the disk and a ledger in its file or in memory; with what is looked at before a run,
//! and what is told on standard error behind it.
//!
//! ```text
//! follow_words(&rt, &rt, &words, StdSink::new(&rt)).status     // the status that the program exits with
//! ```
#![tactic(auto)]

mod ledger;
mod outside;

pub use outside::{Followed, end_unread, follow_words};

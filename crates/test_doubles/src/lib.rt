//! What stands in place of folders, ledger and gate in tests of whole runs: folders of which a file changes while it is read, a
//! ledger whose commits fail, both of which tell nothing of their contents, and a gate that sees two items under way at once.
//!
//! ```text
//! let mut folders = ChangingFolders::in_memory(alloc, files, Some(change))?;
//! let mut ledger = Ledger::new(alloc, failing, true)?;
//! let gate = Pairs::new(true);
//! let status = desk(threads, alloc, &request, &mut *folders, &mut *ledger, &mut sink, &gate);
//! gate.saw()                              // how often two workers were under way at once
//! ```
#![tactic(auto)]

mod gates;
mod ledgers;
mod places;

pub use gates::Pairs;
pub use ledgers::Ledger;
pub use places::{Change, ChangingFolders};

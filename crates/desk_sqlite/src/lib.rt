//! The ledger of a run as an SQLite file.
//!
//! ```text
//! let mut keeper = SqliteKeeper::new(rt);
//! keeper.attach(&name)?; // opens the file, or makes it, and reads it once
//! keeper.put(row)?; // waits, with at most 1,023 others
//! keeper.commit()?; // stands in the file
//! ```
#![tactic(auto)]

mod formats;
mod keeper;
mod opened;
mod tables;
mod waiting;

pub use keeper::SqliteKeeper;

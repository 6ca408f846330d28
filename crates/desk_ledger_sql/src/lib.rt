//! The ledger of a run as a database in memory, which tells its rows.
//!
//! ```text
//! let mut keeper = SqlKeeper::in_memory(alloc);
//! keeper.attach(&name)?; // the first opens the database, and makes its tables
//! keeper.put(row)?;
//! keeper.find(&target)?; // the row
//! ```
#![tactic(auto)]

mod keeper;
mod opened;
mod tables;

pub use keeper::{SqlKeeper, keeps_by_calls};

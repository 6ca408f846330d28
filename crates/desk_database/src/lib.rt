//! The database file of a ledger, and the files beside it. What the database does to its file no clause says, so that each caller is
//! proved without the clauses of SQL; clauses count what it refused.
//!
//! ```text
//! let log = Log::beside(rt, path)?;                     // whether a log was there before
//! let mut database = Database::open(rt, path, &log)?;   // locked against other programs
//! database.run("BEGIN", &[])?;
//! let rows = database.query("SELECT ..")?;
//! database.end(done)?;                                  // COMMIT, or ROLLBACK where what was done failed
//! ```
#![tactic(auto)]

mod database;
mod files;

pub use database::Database;
pub use files::{Log, file_path, has_room_beside};

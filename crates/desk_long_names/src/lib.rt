//! Database files whose names leave no room for those of a log and a journal beside them. Such a file is opened under a
//! short name in its folder, by which its log is called too, and has its own name again once it is open.
//!
//! ```text
//! is_long("work/ledger") // no: a name of at most 247 bytes leaves room
//! let short = short_path(alloc, own.as_str())?; // `work/.migrate-9bd27e5ad95c981813a85e7f1e326e45`
//! let file = Shortened::at(rt, own, short, has_log)?; // makes it where it is missing
//! let opened = open(file.short_path()); // the caller's
//! file.lengthen(rt)?; // it has its own name again
//! ```
#![tactic(auto)]

mod databases;
mod names;
mod shortened;

pub use databases::may_be_database;
pub use names::{is_long, real_path, short_path};
pub use shortened::Shortened;

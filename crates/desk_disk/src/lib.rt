//! The folders of a disk: what a run over a real application reads from and writes to.
//!
//! ```text
//! let mut folders = DiskFolders::new(rt);
//! folders.keep_within(target); // no link in place of a folder below it is followed
//! folders.keep_apart(Apart::of(alloc, &places)?); // nor is one of these nodes met in what is listed, and in the target
//! let paths = folders.list(&root, 1000)?; // the paths below the root, in byte order
//! folders.create(&path)?; // makes the file anew, with its folders
//! folders.append(&path, b"web.Greeter\n")?;
//! folders.read_part(&path, 0, 1_048_576)?; // `web.Greeter` and its line end
//! folders.last_fault() // where a call failed: what was tried, on which path, and why
//! ```
#![tactic(auto)]

mod disk;
mod guard;
mod naming;
mod open;
mod progress;
mod walk;

pub use disk::{DiskFolders, Faults};

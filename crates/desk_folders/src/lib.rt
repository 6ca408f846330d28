//! Folders of files: what a run reads from and writes to, as a trait, and in memory.
//!
//! ```text
//! let files = vec![in alloc; GenFile { path, content }]?; // a file `in/a` of `web.Greeter` and its line end
//! let mut folders = MemoryFolders::new(alloc, files, Vec::new(alloc))?;
//! let paths = folders.list(&root, 1000)?; // the paths below the root `in`, in byte order: `a`
//! folders.size(&path)?; // `Some(12)`
//! folders.append(&path, b"web.Greeter\n")?;
//! folders.read_part(&path, 0, 1_048_576)?; // the line, twice
//! ```
#![tactic(auto)]

mod folders;
mod listing;
mod memory;

pub use folders::{FolderFault, Folders, GenFile};
pub use listing::{is_full, is_relative};
pub use memory::MemoryFolders;

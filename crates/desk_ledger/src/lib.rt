//! The ledger of a run: what was written to each target, from which source, by the digests of the bytes of both.
//!
//! ```text
//! let mut keeper = MemoryKeeper::new(alloc, Vec::new(alloc))?;
//! keeper.attach(&name)?;
//! keeper.put(Row { target, source, digest: digest_of(bytes), output: Some(digest_of(image)) })?;
//! keeper.commit()?; // what was put stands outside
//! keeper.find(&target)?; // the row
//! ```
#![tactic(auto)]

mod contents;
mod digest;
mod keeper;
mod memory;

pub use contents::Contents;
pub use digest::{Digest, Digester, digest_of};
pub use keeper::{Header, Held, Keeper, KeeperFault, OldRow, Row};
pub use memory::MemoryKeeper;

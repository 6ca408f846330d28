//! Where roots lie on the disk: by the device and the inode of what is there, whatever they are called.
//!
//! ```text
//! // the source is `app`, and `out` is a symbolic link to it
//! let from = place_of(rt, &app)?;
//! let to = place_of(rt, &out)?;
//! to.lies_in(&from)                      // true
//! first_obstacle(&places)                // Some(Obstacle::Nested(Pair::FromTo))
//! let apart = Apart::of(alloc, &places)?;
//! apart.written.holds(Node::of(&found))  // whether the target or the ledger lies in what was found
//! ```
#![tactic(auto)]

mod apart;
mod finding;
mod places;
mod upward;

pub use apart::{Apart, Nodes};
pub use finding::place_of;
pub use places::{Node, Obstacle, Pair, Place, Places, RootName, first_nested, first_obstacle};

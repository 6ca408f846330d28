//! Finds the first two files whose targets clash: one target equals the other, or is a folder of it.
//!
//! ```text
//! let mut targets = Targets::new(alloc);
//! targets.push(b"a/b")?;
//! targets.push(b"x")?;
//! targets.push(b"a")?;
//! targets.first_clash(alloc)?              // Some(Clash { first: 0, second: 2 }): `a` is a folder of `a/b`
//! ```
#![tactic(auto)]

mod known;
mod pairs;
mod targets;

pub use targets::Targets;

/// Two places in a list of targets, counted from 0, the first below the second.
#[derive(Clone, Copy, Debug, PartialEq, Eq)]
pub struct Clash {
    /// The least place whose target clashes with a later one.
    pub first: usize,
    /// The least later place whose target clashes with that one.
    pub second: usize,
}

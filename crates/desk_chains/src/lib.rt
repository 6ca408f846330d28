//! Chains of rules, of which the second changes what the first gives.
//!
//! ```text
//! let renames = vec![in alloc; first, second]?; // `a` to `b`, and `b` to `c`, in byte order of their keys
//! first_chain(alloc, &renames, &direct, &bundles); // Some: RenameThenRename, `a` and `b`
//! ```
#![tactic(auto)]

ghost use Rattle.std.specs.Prelude.{◌≡◌};

mod chain;
mod reaches;
mod tried;

pub use chain::{Chained, first_chain};
pub use reaches::{goes_on, meet, source_in_reach};

/// Which two rules make a chain: the first, and the second, which changes what the first gives.
#[derive(Clone, Copy, Debug, PartialEq, Eq)]
pub enum ChainKind {
    /// Two renames.
    RenameThenRename,
    /// A rename and a direct string.
    RenameThenDirect,
    /// Two direct strings.
    DirectThenDirect,
    /// A direct string and a rename.
    DirectThenRename,
    /// Two bundle updates.
    BundleThenBundle,
    /// Two renames: the package that the first gives is changed as a dotted name.
    PackageThenName,
    /// Two renames: a dotted name that the first gives is changed as a package.
    NameThenPackage,
    /// A rename, and a direct string that is the package that it gives.
    PackageThenDirect,
    /// A direct string, and a rename of the package that it gives.
    DirectThenPackage,
}

impl ChainKind {
    ghost use Rattle.desk_chains.specs.Chains.{chain_number};

    /// Its number, from 1 on in the order in which chains are looked for.
    pub fn number(self) -> u8
        ensures { result ≡ chain_number self }
    {
        match self {
            ChainKind::RenameThenRename => 1,
            ChainKind::RenameThenDirect => 2,
            ChainKind::DirectThenDirect => 3,
            ChainKind::DirectThenRename => 4,
            ChainKind::BundleThenBundle => 5,
            ChainKind::PackageThenName => 6,
            ChainKind::NameThenPackage => 7,
            ChainKind::PackageThenDirect => 8,
            ChainKind::DirectThenPackage => 9,
        }
    }
}

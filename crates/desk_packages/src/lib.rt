//! Renames of packages, and which of them is picked for a package.
//!
//! ```text
//! // `renames` stand in byte order of their keys `javax.servlet.*` and `javax.servlet.old`
//! let rename = pick(&renames, b"javax/servlet/http", Separator::Slash);
//! assert!(rt; rename.is_some());
//! ```
#![tactic(auto)]

mod fronts;
mod keyed;
mod narrowing;
mod picking;
mod rename;

pub use fronts::front_end;
pub use keyed::{Keyed, place_of, rule_of, rules_at, rules_under};
pub use picking::{changing_for, is_source, longest_of, pick};
pub use rename::PackageRename;

/// What stands between two segments of a package as it is written.
#[derive(Clone, Copy, Debug, PartialEq, Eq)]
pub enum Separator {
    /// `.`, as in a source file (JLS 6.7).
    Dot,
    /// `/`, as in a class file (JVMS 4.2.1).
    Slash,
}

/// Which packages a rename is for, as its key says it.
#[derive(Clone, Copy, Debug, PartialEq, Eq)]
pub enum Reach {
    /// The package that the rule names, and no other: the key is the package.
    Exact,
    /// That package and all packages below it: the key ends in `.*`.
    Below,
}

impl Separator {
    ghost use Rattle.std.specs.Prelude.{◌≡◌};
    ghost use Rattle.desk_packages.specs.Keys.{byte_of};

    /// The byte that a package is written with between two segments.
    pub fn byte(self) -> u8
        ensures { result ≡ byte_of self }
    {
        match self {
            Separator::Dot => b'.',
            Separator::Slash => b'/',
        }
    }
}

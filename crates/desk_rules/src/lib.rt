//! Rule files as a settled rule set: which packages are exchanged, and for what.
//!
//! ```text
//! let mut files = RuleFiles::new(alloc);
//! files.add(renames_name, content)?; // `renames.properties` with the line `javax.servlet.*=jakarta.servlet`
//! let rules = RuleSet::build(alloc, &files)?;
//! rules.package(b"javax/servlet/http", Separator::Slash); // the first 13 bytes, for `jakarta` and `servlet`
//! ```
#![tactic(auto)]

ghost use Rattle.std.specs.Prelude.{◌≡◌};

mod files;
mod firsts;
mod keyed;
mod reading;
mod rule_set;
mod texts;

use desk_base::{Memory, Text};
pub use desk_chains::ChainKind;
pub use desk_packages::Separator;
pub use desk_patterns::{PathTexts, TextHit, TextPlace, TextRules};
pub use desk_properties::PropFault;
pub use files::RuleFiles;
pub use rule_set::{BundleUpdate, PackageFront, RuleSet};
use std::alloc::AllocFailed;

/// Whether a bundle imports a package or exports it (OSGi Core 3.6).
#[derive(Clone, Copy, Debug, PartialEq, Eq)]
pub enum Side {
    /// A package that is imported.
    Import,
    /// A package that is exported.
    Export,
}

/// Why rule files make no rule set. Files, keys and names are the bytes as they were read.
#[derive(Debug, Drop, PartialEq, Eq)]
pub enum RuleFault {
    /// The file `renames.properties` is missing, or has no key.
    NoRenames,
    /// A file isn't one of properties.
    Properties {
        file: Text,
        fault: PropFault,
    },
    /// A key of a file isn't of the form that this file asks for.
    BadKey {
        file: Text,
        key: Text,
    },
    /// The value of a key of a file isn't of the form that this file asks for.
    BadValue {
        file: Text,
        key: Text,
    },
    /// A pattern of `text.properties` names a file that the rule folder lacks.
    MissingText {
        key: Text,
        name: Text,
    },
    /// The second of two rules, by their keys, changes what the first gives.
    Chain {
        kind: ChainKind,
        first: Text,
        second: Text,
    },
}

/// Why a rule set has no inverse, a set of renames that takes its renames back.
#[derive(Debug, Drop, PartialEq, Eq)]
pub enum InvertFault {
    /// It has other rules than renames.
    NotRenames {
        /// The name of the first other rule file that has a key.
        file: Text,
    },
    /// No rename changes its package.
    Nothing,
    /// Two changing renames give one package, or the second gives a name in a package that the first gives.
    Overlap {
        /// The key of the first, in byte order.
        first: Text,
        /// The key of the second.
        second: Text,
    },
}

/// Why no rule set was built: the first fault of the rule files, or want of memory.
#[derive(Debug, Drop, PartialEq, Eq)]
pub enum BuildFault {
    /// The rule files make no rule set.
    Rules(RuleFault),
    /// Memory ran out.
    Memory,
}

impl From<RuleFault> for BuildFault {
    ghost use Rattle.desk_rules.specs.declared.BuildFault.TheVariants.{Rules};

    ghost from_gives = { λ fault built. built ≡ Rules fault };

    fn from(fault: RuleFault) -> BuildFault {
        BuildFault::Rules(fault)
    }
}

impl<T: Drop> From<AllocFailed<T>> for BuildFault {
    ghost use Rattle.desk_rules.specs.declared.BuildFault.TheVariants.{Memory as WantOfMemory};

    ghost from_gives = { λ _ built. built ≡ WantOfMemory };

    fn from(_: AllocFailed<T>) -> BuildFault {
        BuildFault::Memory
    }
}

impl From<Memory> for BuildFault {
    ghost use Rattle.desk_rules.specs.declared.BuildFault.TheVariants.{Memory as WantOfMemory};

    ghost from_gives = { λ _ built. built ≡ WantOfMemory };

    fn from(_: Memory) -> BuildFault {
        BuildFault::Memory
    }
}

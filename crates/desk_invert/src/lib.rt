//! The inverse of a rule set: the rule file that takes its renames back, or why there is none.
//!
//! ```text
//! // `rules` are those of one file `renames.properties` with the line `javax.servlet.*=jakarta.servlet`
//! let file = invert(alloc, &rules)?; // the line `jakarta.servlet.*=javax.servlet`
//! ```
#![tactic(auto)]

ghost use Rattle.std.specs.Prelude.{◌≡◌};

mod exchanged;
mod inverting;
mod overlaps;

use desk_base::Memory;
pub use desk_rules::InvertFault;
pub use inverting::invert;

/// Why no inverse was made: that of the rule set, or want of memory.
#[derive(Debug, Drop, PartialEq, Eq)]
pub enum InvertError {
    /// The rule set has no inverse.
    Fault(InvertFault),
    /// Memory ran out.
    Memory,
}

impl From<InvertFault> for InvertError {
    ghost use Rattle.desk_invert.specs.declared.InvertError.TheVariants.{Fault};

    ghost from_gives = { λ fault error. error ≡ Fault fault };

    fn from(fault: InvertFault) -> InvertError {
        InvertError::Fault(fault)
    }
}

impl From<Memory> for InvertError {
    ghost use Rattle.desk_invert.specs.declared.InvertError.TheVariants.{Memory as WantOfMemory};

    ghost from_gives = { λ _ error. error ≡ WantOfMemory };

    fn from(_: Memory) -> InvertError {
        InvertError::Memory
    }
}

//! Code in a renamed class: the law that it says the renamed thing.
//!
//! ```text
//! // a call teaches a proof the law: the code arrays of a new class are those of its class
//! desk_kept_code::kept_codes();
//! ```
#![tactic(auto)]

ghost use Rattle.desk_kept_code.specs.Kept.{KeptCodes};

/// The code arrays of the new class of a well-formed class for which no refusal stands are those of the class, one by one,
/// under images that keep forms: of the same methods, renamed; at the same places, moved with the body; and with the same
/// bytes, which read or fail alike, into the same instructions, where the index of each leads to the renamed value. It runs to
/// no effect: what it says is its contract.
pub fn kept_codes()
    ensures { KeptCodes }
{}

//! Text rules: texts in which sources are exchanged for their targets.
//!
//! ```text
//! // `here` and `there` exchange `ab` for `x`, and `abc` for `y`
//! let image = migrate_text(alloc, b"abcab", &here, &there)?;
//! // image.bytes is "yx", and image.changed is 2
//! ```
#![tactic(auto)]

mod texts;

use desk_base::Memory;
pub use texts::{image_length, migrate_text};

/// Why a file with text rules has no image.
#[derive(Clone, Copy, Debug, PartialEq, Eq)]
pub enum TextFault {
    /// The rules of the target would change the image again; `at` is the first such place in the image, counted from its
    /// first byte.
    Unsettled { at: u64 },
    /// Memory ran out.
    Memory,
}

impl From<Memory> for TextFault {
    ghost use Rattle.std.specs.Prelude.{◌≡◌};
    ghost use Rattle.desk_textrules.specs.declared.TextFault.TheVariants.{Memory as WantOfMemory};

    ghost from_gives = { λ _ fault. fault ≡ WantOfMemory };

    fn from(_: Memory) -> TextFault {
        TextFault::Memory
    }
}

//! Service files: provider names, one a line, exchanged as dotted names.
//!
//! ```text
//! let image = migrate_service(alloc, &rules, b"javax.servlet.F # first\n")?;
//! // image.bytes is "jakarta.servlet.F # first\n", and image.changed is 1
//! ```
#![tactic(auto)]

mod providers;
mod services;

use desk_base::Memory;
pub use services::migrate_service;

/// Why a service file has no image.
#[derive(Clone, Copy, Debug, PartialEq, Eq)]
pub enum ServiceFault {
    /// A line that isn't of the file's form; `at` is the offset of its first byte from the start.
    BadLine { at: u32 },
    /// Memory ran out.
    Memory,
}

impl From<Memory> for ServiceFault {
    ghost use Rattle.std.specs.Prelude.{◌≡◌};
    ghost use Rattle.desk_metainf.specs.declared.ServiceFault.TheVariants.{Memory as WantOfMemory};

    ghost from_gives = { λ _ fault. fault ≡ WantOfMemory };

    fn from(_: Memory) -> ServiceFault {
        ServiceFault::Memory
    }
}

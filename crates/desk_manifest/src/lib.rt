//! Manifests (JAR File Specification; OSGi Core 3.2): headers that name packages, classes, bundles and files, exchanged and folded
//! anew.
//!
//! ```text
//! // under the rule `javax.servlet.*=jakarta.servlet`
//! let image = migrate_manifest(alloc, &rules, b"Import-Package: javax.servlet.http\r\n")?;
//! // image.bytes is "Import-Package: jakarta.servlet.http\r\n", and image.changed is 1
//! ```
#![tactic(auto)]

mod headers;
mod kinds;
mod manifests;
mod values;

use desk_base::Memory;
pub use manifests::migrate_manifest;

/// Why a manifest has no image.
#[derive(Clone, Copy, Debug, PartialEq, Eq)]
pub enum ManifestFault {
    /// A line that isn't of a manifest's form; `at` is the offset of its first byte from the start.
    BadLine { at: u32 },
    /// Memory ran out.
    Memory,
}

impl From<Memory> for ManifestFault {
    ghost use Rattle.std.specs.Prelude.{◌≡◌};
    ghost use Rattle.desk_manifest.specs.declared.ManifestFault.TheVariants.{Memory as WantOfMemory};

    ghost from_gives = { λ _ fault. fault ≡ WantOfMemory };

    fn from(_: Memory) -> ManifestFault {
        ManifestFault::Memory
    }
}

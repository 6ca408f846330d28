//! One key and one value of a rule file: what they say, or which of the two hasn't its form.
//!
//! ```text
//! read_rename(alloc, b"javax.servlet.*", b"jakarta.servlet")?; // the package, and all below it, with their new name
//! read_rename(alloc, b"javax..servlet", b"jakarta.servlet"); // Err: the key hasn't its form
//! ```
#![tactic(auto)]

ghost use Rattle.std.specs.Prelude.{◌≡◌};

mod bundles;
mod dots;
mod exchanges;
mod faults;
mod patterns;
mod renames;
mod strings;
mod values;
mod versions;

pub use bundles::{Update, read_update};
pub use exchanges::{BundleRule, DirectRule};
pub use faults::{EntryError, EntryFault};
pub use patterns::{read_mark, read_text_name};
pub use renames::{Rename, read_rename};
pub use strings::{check_string, check_text_rule};
pub use versions::{Versions, read_versions};

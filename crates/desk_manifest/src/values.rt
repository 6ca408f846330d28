//! Images of the values of headers.

ghost use Rattle.std.specs.Prelude.{◌≡◌, IfOk};
ghost use Rattle.std.specs.Option.{option_copied};
ghost use Rattle.desk_rules.specs.Images.{IsImage};
ghost use Rattle.desk_manifest.specs.Headers.{has_tab, class_value, version_or, value_image};
ghost use Rattle.desk_paths.specs.Paths.{renamed_path};

use crate::kinds::HeaderKind;
use desk_base::{Memory, Text};
use desk_clauses::{between_blanks, image_or_none};
use desk_lines::trim_blanks;
use desk_listings::rename_listing;
use desk_paths::renamed_path;
use desk_rename::rename_dotted;
use desk_rules::RuleSet;
use std::alloc::Global;

/// Whether a value holds a tab.
fn has_tab(value: &[u8]) -> bool
    ensures { result ≡ has_tab value.now }
{
    value.iter().any(|byte| *byte == b'\t')
}

/// The image of the name of a class with spaces around it; none exactly where it is the value itself. The only error is want of
/// memory.
fn rename_class_name(alloc: Global, rules: &RuleSet, value: &[u8]) -> Result<Option<Text>, Memory>
    ensures { IfOk result (IsImage value.now (class_value rules.now value.now)) }
{
    if has_tab(value) {
        return Ok(None);
    }
    match rename_dotted(alloc, rules, trim_blanks(value))? {
        None => Ok(None),
        Some(image) => {
            let image = between_blanks(alloc, value, image.as_bytes())?;
            Ok(image_or_none(value, image))
        }
    }
}

/// The image of a path; none exactly where it is the path itself. The only error is want of memory.
fn rename_path(alloc: Global, rules: &RuleSet, path: &[u8]) -> Result<Option<Text>, Memory>
    ensures { IfOk result (IsImage path.now (renamed_path rules.now.renames path.now)) }
{
    let image = renamed_path(alloc, rules, path)?;
    Ok(image_or_none(path, image))
}

/// The version of a bundle, or its new one; none exactly where the two are equal. The only error is want of memory.
fn exchange_version(
    alloc: Global,
    version: Option<&[u8]>,
    value: &[u8],
) -> Result<Option<Text>, Memory>
    ensures { IfOk result (IsImage value.now (version_or (option_copied version.entry) value.now)) }
{
    match version {
        None => Ok(None),
        Some(version) => {
            let image = Text::from_bytes(alloc, version)?;
            Ok(image_or_none(value, image))
        }
    }
}

/// The image of the value of a header of a kind, where the bundle gets this version; none exactly where it is the value itself.
/// The only error is want of memory.
pub(crate) fn rename_value(
    alloc: Global,
    rules: &RuleSet,
    version: Option<&[u8]>,
    kind: HeaderKind,
    value: &[u8],
) -> Result<Option<Text>, Memory>
    ensures { IfOk result (IsImage value.now (value_image rules.now (option_copied version.entry) kind value.now)) }
{
    match kind {
        HeaderKind::ClassName => rename_class_name(alloc, rules, value),
        HeaderKind::Listed(listing) => rename_listing(alloc, rules, listing, value),
        HeaderKind::BundleVersion => exchange_version(alloc, version, value),
        HeaderKind::Path => rename_path(alloc, rules, value),
        HeaderKind::Other => Ok(None),
    }
}

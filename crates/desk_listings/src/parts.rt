//! Parts of clauses: paths, which are packages or symbolic names, and parameters.

ghost use Rattle.std.specs.Prelude.{◌≡◌, ◌&&◌, IfOk, codes};
ghost use Rattle.std.specs.Str.{bytes_eq};
ghost use Rattle.std.specs.Option.{option_copied};
ghost use Rattle.desk_rules.specs.Images.{IsImage};
ghost use Rattle.desk_lines.specs.Blanks.{trimmed};
ghost use Rattle.desk_clauses.specs.Grammar.{with_argument, between_blanks, argument};
ghost use Rattle.desk_listings.specs.Images.{is_export, version_name, versioned, uses_image, path_image, path_version, parameter_image, part_image};
ghost use Rattle.desk_clauses.specs.Cuts.{IsMarkPlace, has_key_of};

use crate::Listing;
use crate::packages::{package_version, rename_package_path, rename_uses};
use desk_base::{Memory, Text};
use desk_clauses::{Part, between_blanks, has_directive_key, image_or_none, quoted, with_argument};
use desk_lines::trim_blanks;
use desk_rules::{RuleSet, Side};
use std::alloc::Global;

/// The image of a path; none exactly where it is the path itself. The only error is want of memory.
fn rename_path(
    alloc: Global,
    rules: &RuleSet,
    listing: Listing,
    path: &[u8],
) -> Result<Option<Text>, Memory>
    ensures { IfOk result (IsImage path.now (path_image rules.now listing path.now)) }
{
    if listing.lists_packages() {
        return rename_package_path(alloc, rules, path);
    }
    match rules.bundle(path) {
        None => Ok(None),
        Some(update) => {
            let name = Text::from_bytes(alloc, update.name)?;
            Ok(image_or_none(path, name))
        }
    }
}

/// The version that comes with a path that changes. The only error is want of memory.
pub(crate) fn path_version<'r>(
    alloc: Global,
    rules: &'r RuleSet,
    listing: Listing,
    path: &[u8],
) -> Result<Option<&'r [u8]>, Memory>
    ensures { IfOk result (λ version. option_copied version ≡ path_version rules.now listing path.now) }
{
    match listing {
        Listing::Imports => package_version(alloc, rules, Side::Import, path),
        Listing::Exports => package_version(alloc, rules, Side::Export, path),
        Listing::Identity => Ok(None),
        Listing::Bundles => match rules.bundle(path) {
            None => Ok(None),
            Some(update) => Ok(update.version),
        },
    }
}

/// Whether the key of a parameter is that of the attribute that takes a new version.
fn has_version_key(listing: Listing, key: &[u8]) -> bool
    ensures { result ≡ bytes_eq key.now (version_name listing) }
{
    key == listing.version_name()
}

/// Whether the key of a parameter is that of a directive `uses` of an exported package.
fn has_uses_key(listing: Listing, key: &[u8]) -> bool
    ensures { result ≡ (is_export listing && has_key_of (codes "uses") key.now) }
{
    listing.is_export() && has_directive_key(key, b"uses")
}

/// A parameter with this version in quotes as its argument; none exactly where that is the parameter itself, or where there is no
/// version. Its `=` stands at a place. The only error is want of memory.
fn exchange_version(
    alloc: Global,
    version: Option<&[u8]>,
    part: &[u8],
    place: usize,
) -> Result<Option<Text>, Memory>
    requires { IsMarkPlace part.now place }
    ensures { IfOk result (IsImage part.now (versioned (option_copied version.entry) part.now)) }
{
    match version {
        None => Ok(None),
        Some(version) => {
            let version = quoted(alloc, version)?;
            let image = with_argument(alloc, part, place, version.as_bytes())?;
            Ok(image_or_none(part, image))
        }
    }
}

/// A parameter with its argument exchanged as a list of packages; none exactly where that is the parameter itself. Its `=` stands
/// at a place. The only error is want of memory.
fn exchange_uses(
    alloc: Global,
    rules: &RuleSet,
    part: &[u8],
    place: usize,
) -> Result<Option<Text>, Memory>
    requires { IsMarkPlace part.now place }
    ensures { IfOk result (IsImage part.now
        (with_argument (between_blanks (uses_image rules.now.renames (trimmed (argument part.now))) (argument part.now)) part.now)) }
{
    match rename_uses(alloc, rules, trim_blanks(&part[place + 1..]))? {
        None => Ok(None),
        Some(list) => {
            let image = with_argument(alloc, part, place, list.as_bytes())?;
            Ok(image_or_none(part, image))
        }
    }
}

/// The image of a parameter whose `=` stands at a place, in a clause that gets this version; none exactly where it is the
/// parameter itself. The only error is want of memory.
fn rename_parameter(
    alloc: Global,
    rules: &RuleSet,
    listing: Listing,
    version: Option<&[u8]>,
    part: &[u8],
    place: usize,
) -> Result<Option<Text>, Memory>
    requires { IsMarkPlace part.now place }
    ensures { IfOk result (IsImage part.now (parameter_image rules.now listing (option_copied version.entry) part.now)) }
{
    let key = trim_blanks(&part[..place]);
    if has_version_key(listing, key) {
        return exchange_version(alloc, version, part, place);
    }
    if has_uses_key(listing, key) {
        return exchange_uses(alloc, rules, part, place);
    }
    Ok(None)
}

/// The image of a part of a clause that gets this version; none exactly where it is the part itself. The only error is want of
/// memory.
pub(crate) fn rename_part(
    alloc: Global,
    rules: &RuleSet,
    listing: Listing,
    version: Option<&[u8]>,
    part: &Part<'_>,
) -> Result<Option<Text>, Memory>
    ensures { IfOk result (IsImage part.now.text.now (part_image rules.now listing (option_copied version.entry) part.now.text.now)) }
{
    let Part { text, mark, .. } = *part;
    if mark < text.len() {
        return rename_parameter(alloc, rules, listing, version, text, mark);
    }
    match rename_path(alloc, rules, listing, trim_blanks(text))? {
        None => Ok(None),
        Some(image) => {
            let image = between_blanks(alloc, text, image.as_bytes())?;
            Ok(image_or_none(text, image))
        }
    }
}

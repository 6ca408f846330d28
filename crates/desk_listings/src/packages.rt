//! Packages that are written with dots, alone or in lists, and their new versions.

ghost use Rattle.std.specs.Prelude.{◌≡◌, ◌==◌, ◌≤◌, IfOk, length, IfSome, [], ◌∷◌};
ghost use Rattle.std.specs.Option.{option_copied};
ghost use Rattle.std.specs.List.{slice_split};
ghost use Rattle.desk_rules.specs.Images.{IsImage};
ghost use Rattle.desk_rules.specs.Sides.{exports};
ghost use Rattle.desk_listings.specs.Images.{package_length, package_path, package_version, changed_version, item_image, list_image, uses_image};

use desk_base::{Memory, Text};
use desk_clauses::{Edits, between_blanks, image_or_none, is_quoted, quoted, split_first_item};
use desk_lines::trim_blanks;
use desk_names::is_dotted;
use desk_rename::rename_dotted_package;
use desk_rules::{RuleSet, Side};
use std::alloc::Global;

/// How many bytes of a path are its package: a dotted name is one, and so is what stands before `.*`.
fn package_length(path: &[u8]) -> Option<usize>
    ensures answer { result ≡ package_length path.now }
    ensures inside { IfSome result (λ n. n ≤ length path.now) }
{
    if is_dotted(path) {
        return Some(path.len());
    }
    if path.ends_with(b".*") && is_dotted(&path[..path.len() - 2]) {
        return Some(path.len() - 2);
    }
    None
}

/// The image of a path of a header that lists packages; none exactly where it is the path itself. The only error is want of
/// memory.
pub(crate) fn rename_package_path(
    alloc: Global,
    rules: &RuleSet,
    path: &[u8],
) -> Result<Option<Text>, Memory>
    ensures { IfOk result (IsImage path.now (package_path rules.now.renames path.now)) }
{
    match package_length(path) {
        None => Ok(None),
        Some(n) => match rename_dotted_package(alloc, rules, &path[..n])? {
            None => Ok(None),
            Some(mut image) => {
                image.append(&path[n..])?;
                Ok(image_or_none(path, image))
            }
        },
    }
}

/// The version of the new package where a package changes. The only error is want of memory.
fn changed_version<'r>(
    alloc: Global,
    rules: &'r RuleSet,
    side: Side,
    package: &[u8],
) -> Result<Option<&'r [u8]>, Memory>
    ensures { IfOk result (λ version. option_copied version ≡ changed_version rules.now (exports side) «package».now) }
{
    match rename_dotted_package(alloc, rules, package)? {
        None => Ok(None),
        Some(image) => Ok(rules.version(image.as_bytes(), side)),
    }
}

/// The version of the new package where the package of a path changes. The only error is want of memory.
pub(crate) fn package_version<'r>(
    alloc: Global,
    rules: &'r RuleSet,
    side: Side,
    path: &[u8],
) -> Result<Option<&'r [u8]>, Memory>
    ensures { IfOk result (λ version. option_copied version ≡ package_version rules.now (exports side) path.now) }
{
    match package_length(path) {
        None => Ok(None),
        Some(n) => changed_version(alloc, rules, side, &path[..n]),
    }
}

/// The image of an item of a list of packages; none exactly where it is the item itself. The only error is want of memory.
fn rename_item(alloc: Global, rules: &RuleSet, item: &[u8]) -> Result<Option<Text>, Memory>
    ensures { IfOk result (IsImage item.now (item_image rules.now.renames item.now)) }
{
    let name = trim_blanks(item);
    if !is_dotted(name) {
        return Ok(None);
    }
    match rename_dotted_package(alloc, rules, name)? {
        None => Ok(None),
        Some(image) => {
            let image = between_blanks(alloc, item, image.as_bytes())?;
            Ok(image_or_none(item, image))
        }
    }
}

/// The image of a list of packages; none exactly where it is the list itself. The only error is want of memory.
fn rename_list(alloc: Global, rules: &RuleSet, list: &[u8]) -> Result<Option<Text>, Memory>
    ensures { IfOk result (IsImage list.now (list_image rules.now.renames list.now)) }
{
    let mut edits = Edits::new(alloc);
    let mut rest = Some(list);
    let mut from = 0;
    while let Some(text) = rest {
        let (item, more) = split_first_item(text);
        let to = from + item.len();
        let image = rename_item(alloc, rules, item)?;
        edits.put(list, from, to, image)?;
        from = to + 1;
        rest = more;
    }
    edits.finish(list)
}

/// The image of a list of packages with or without quotes around it; none exactly where it is the list itself. The only error
/// is want of memory.
pub(crate) fn rename_uses(
    alloc: Global,
    rules: &RuleSet,
    list: &[u8],
) -> Result<Option<Text>, Memory>
    ensures { IfOk result (IsImage list.now (uses_image rules.now.renames list.now)) }
{
    if !is_quoted(list) {
        return rename_list(alloc, rules, list);
    }
    match rename_list(alloc, rules, &list[1..list.len() - 1])? {
        None => Ok(None),
        Some(image) => {
            let image = quoted(alloc, image.as_bytes())?;
            Ok(image_or_none(list, image))
        }
    }
}

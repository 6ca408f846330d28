//! Images of packages and of names.

ghost use Rattle.std.specs.Prelude.{◌≡◌, ◌++◌, IfOk, OnOk, MatchOption};
ghost use Rattle.desk_base.specs.Names.{dot, slash};
ghost use Rattle.desk_packages.specs.Keys.{byte_of};
ghost use Rattle.desk_rules.specs.Images.{IsImage, dotted, package_written};
ghost use Rattle.desk_rules.specs.RuleSets.{IsRuleSet, PackagesStay, DottedStay, DottedKeepForm};
ghost use Rattle.desk_rename.specs.Fronts.{IsExchange};
ghost use Rattle.desk_rename.specs.Images.{package_image, class_image};

use crate::fronts::{append_exchanged, exchanged};
use desk_base::{Memory, Text};
use desk_names::{is_dotted, split_class};
use desk_packages::front_end;
use desk_rules::{PackageFront, RuleSet, Separator};
use std::alloc::Global;

/// What is exchanged of a package that is written with a separator; none where its image is the
/// package itself.
pub fn package_front<'r>(
    rules: &'r RuleSet,
    text: &[u8],
    separator: Separator,
) -> Option<PackageFront<'r>>
    ensures front { MatchOption result
        (package_written (byte_of separator) rules.now.renames text.now ≡ text.now)
        (λ front. IsExchange (byte_of separator) text.now (package_written (byte_of separator) rules.now.renames text.now) front.taken front.segments.now) }
    ensures settled { IsRuleSet rules.now }
    ensures packages_stay { PackagesStay rules.now.renames }
    ensures dotted_stay { DottedStay rules.now.renames }
    ensures dotted_keep_form { DottedKeepForm rules.now.renames }
{
    rules.package(text, separator)
}

/// What is exchanged of a dotted name; none where its image is the text itself.
fn dotted_front<'r>(rules: &'r RuleSet, text: &[u8]) -> Option<PackageFront<'r>>
    ensures front { MatchOption result
        (dotted rules.now.renames text.now ≡ text.now)
        (λ front. IsExchange dot text.now (dotted rules.now.renames text.now) front.taken front.segments.now) }
    ensures settled { IsRuleSet rules.now }
    ensures packages_stay { PackagesStay rules.now.renames }
    ensures again { DottedStay rules.now.renames }
    ensures form { DottedKeepForm rules.now.renames }
{
    match rules.package(&text[..front_end(text, b'.')], Separator::Dot) {
        None => None,
        Some(front) => { if is_dotted(text) { Some(front) } else { None } }
    }
}

/// What is exchanged of a class name; none where its image is the text itself.
pub fn class_front<'r>(rules: &'r RuleSet, text: &[u8]) -> Option<PackageFront<'r>>
    ensures front { MatchOption result
        (class_image rules.now.renames text.now ≡ text.now)
        (λ front. IsExchange slash text.now (class_image rules.now.renames text.now) front.taken front.segments.now) }
    ensures settled { IsRuleSet rules.now }
    ensures packages_stay { PackagesStay rules.now.renames }
{
    match rules.package(&text[..front_end(text, b'/')], Separator::Slash) {
        None => None,
        Some(front) => {
            if split_class(text).is_some() {
                Some(front)
            } else {
                None
            }
        }
    }
}

/// The image of a package that is written with `/`, as in a class file. None exactly where the
/// image is the text itself. The only error is want of memory.
pub fn rename_package(alloc: Global, rules: &RuleSet, text: &[u8]) -> Result<Option<Text>, Memory>
    ensures image { IfOk result (IsImage text.now (package_image rules.now.renames text.now)) }
    ensures settled { IsRuleSet rules.now }
{
    match package_front(rules, text, Separator::Slash) {
        None => Ok(None),
        Some(front) => Ok(Some(exchanged(alloc, text, &front, b'/')?)),
    }
}

/// The image of a text as a dotted name: its front, all but the last identifier, exchanged as a
/// package. None exactly where the image is the text itself, which it is for any text that is no
/// dotted name. The only error is want of memory.
pub fn rename_dotted(alloc: Global, rules: &RuleSet, text: &[u8]) -> Result<Option<Text>, Memory>
    ensures image { IfOk result (IsImage text.now (dotted rules.now.renames text.now)) }
    ensures settled { IsRuleSet rules.now }
    ensures again { DottedStay rules.now.renames }
    ensures form { DottedKeepForm rules.now.renames }
{
    match dotted_front(rules, text) {
        None => Ok(None),
        Some(front) => Ok(Some(exchanged(alloc, text, &front, b'.')?)),
    }
}

/// Appends the image of a package that is written with `/`. The only error is want of memory; a
/// part may have been appended then.
pub fn append_package(out: &mut Text, rules: &RuleSet, text: &[u8]) -> Result<(), Memory>
    ensures ok { OnOk result (out.new ≡ out.old ++ package_image rules.now.renames text.now) }
    ensures settled { IsRuleSet rules.now }
    ensures packages_stay { PackagesStay rules.now.renames }
    ensures dotted_stay { DottedStay rules.now.renames }
    ensures dotted_keep_form { DottedKeepForm rules.now.renames }
{
    match package_front(rules, text, Separator::Slash) {
        None => out.append(text),
        Some(front) => append_exchanged(out, text, &front, b'/'),
    }
}

/// Appends the image of a text as a dotted name. The only error is want of memory; a part may have
/// been appended then.
pub fn append_dotted(out: &mut Text, rules: &RuleSet, text: &[u8]) -> Result<(), Memory>
    ensures ok { OnOk result (out.new ≡ out.old ++ dotted rules.now.renames text.now) }
    ensures settled { IsRuleSet rules.now }
    ensures packages_stay { PackagesStay rules.now.renames }
    ensures dotted_stay { DottedStay rules.now.renames }
    ensures dotted_keep_form { DottedKeepForm rules.now.renames }
{
    match dotted_front(rules, text) {
        None => out.append(text),
        Some(front) => append_exchanged(out, text, &front, b'.'),
    }
}

//! Images of strings.

ghost use Rattle.std.specs.Prelude.{◌≡◌, IfOk};
ghost use Rattle.desk_base.specs.Names.{dot};
ghost use Rattle.desk_rules.specs.Images.{IsImage, package_written, renamed_string, str};
ghost use Rattle.desk_rules.specs.RuleSets.{IsRuleSet, StringsStay};

use crate::fronts::exchanged;
use crate::names::{package_front, rename_dotted};
use desk_base::{Memory, Text};
use desk_rules::{RuleSet, Separator};
use std::alloc::Global;

/// The image of a package that is written with dots. None exactly where the image is the text itself.
/// The only error is want of memory.
pub fn rename_dotted_package(
    alloc: Global,
    rules: &RuleSet,
    text: &[u8],
) -> Result<Option<Text>, Memory>
    ensures image { IfOk result (IsImage text.now (package_written dot rules.now.renames text.now)) }
    ensures settled { IsRuleSet rules.now }
{
    match package_front(rules, text, Separator::Dot) {
        None => Ok(None),
        Some(front) => Ok(Some(exchanged(alloc, text, &front, b'.')?)),
    }
}

/// The image of a string that no direct rule has.
fn rename_by_renames(alloc: Global, rules: &RuleSet, text: &[u8]) -> Result<Option<Text>, Memory>
    ensures { IfOk result (IsImage text.now (renamed_string rules.now.renames text.now)) }
{
    if rules.is_source(text) {
        rename_dotted_package(alloc, rules, text)
    } else {
        rename_dotted(alloc, rules, text)
    }
}

/// The image of a string: the new text where a direct rule has it as its old text; else its image as a
/// package where, read as a package that is written with dots, it is the source of a rename, of an
/// exception too; and else its image as a dotted name. None exactly where the image is the text itself. The only error is want of
/// memory.
pub fn rename_string(alloc: Global, rules: &RuleSet, text: &[u8]) -> Result<Option<Text>, Memory>
    ensures image { IfOk result (IsImage text.now (str rules.now text.now)) }
    ensures settled { IsRuleSet rules.now }
    ensures again { StringsStay rules.now }
{
    match rules.direct(text) {
        None => rename_by_renames(alloc, rules, text),
        Some(target) => {
            if target == text {
                Ok(None)
            } else {
                Ok(Some(Text::from_bytes(alloc, target)?))
            }
        }
    }
}

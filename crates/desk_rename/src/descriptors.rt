//! Images of descriptors (JVMS 4.3), and of the names of classes and arrays.

ghost use Rattle.std.specs.Prelude.{◌≡◌, ◌<◌, [], length, IfOk, IfSome, MatchOption, false};
ghost use Rattle.desk_names.specs.Pieces.{pieces, names_in};
ghost use Rattle.desk_rules.specs.Images.{IsImage};
ghost use Rattle.desk_rules.specs.RuleSets.{IsRuleSet};
ghost use Rattle.desk_rename.specs.Images.{is_any_descriptor, desc, cls};
ghost use Rattle.desk_rename.specs.Drafts.{IsReadDescriptor, IsFirstName};

use crate::drafts::Draft;
use crate::fronts::exchanged;
use crate::names::class_front;
use desk_base::{Memory, Text};
use desk_names::{DescParts, Want, read_descriptor};
use desk_rules::{RuleSet, Separator};
use memchr::memchr;
use std::alloc::Global;

/// The parts of a descriptor of any kind; none exactly where the text is no descriptor.
fn read_any_descriptor(text: &[u8]) -> Option<DescParts<'_>>
    ensures { MatchOption result (is_any_descriptor text.now ≡ false) (IsReadDescriptor text.now) }
{
    if text.starts_with(b"(") {
        read_descriptor(text, Want::Method)
    } else {
        read_descriptor(text, Want::Return)
    }
}

/// The first class name of a descriptor, which stands between an `L` and the next `;`, and what is left behind it.
fn first_name(text: &[u8]) -> Option<(&[u8], &[u8])>
    ensures name { MatchOption result (names_in (pieces text.now) ≡ []) (λ found. IsFirstName text.now found.0.now found.1.now) }
    ensures shorter { IfSome result (λ found. length found.1.now < length text.now) }
{
    let Some(start) = memchr(b'L', text) else {
        return None;
    };
    let (_, behind) = text.split_at(start + 1);
    match memchr(b';', behind) {
        Some(end) => Some(behind.split_at(end)),
        None => None,
    }
}

/// Whether a descriptor may have another image: one of its class names begins with the first segment of a rename.
fn may_change(rules: &RuleSet, text: &[u8]) -> bool
    ensures { result ≡ false → desc rules.now.renames text.now ≡ text.now }
{
    rules.recall_settled();
    let mut rest = text;
    while let Some((name, behind)) = first_name(rest) {
        if rules.begins(name, Separator::Slash) {
            return true;
        }
        rest = behind;
    }
    false
}

/// The image of a text of these parts.
fn rename_descriptor_parts(
    alloc: Global,
    rules: &RuleSet,
    text: &[u8],
    parts: DescParts<'_>,
) -> Result<Option<Text>, Memory>
    requires { IsReadDescriptor text.now parts }
    ensures { IfOk result (IsImage text.now (desc rules.now.renames text.now)) }
{
    let mut draft = Draft::new(alloc);
    for part in parts {
        draft.take(rules, text, part)?;
    }
    draft.finish(text)
}

/// The image of a field, method or return descriptor: that of its tree with the package of each
/// class name exchanged. None exactly where the image is the text itself, which it is for any text
/// that is no descriptor. No memory is taken where nothing changes. The only error is want of memory.
pub fn rename_descriptor(
    alloc: Global,
    rules: &RuleSet,
    text: &[u8],
) -> Result<Option<Text>, Memory>
    ensures image { IfOk result (IsImage text.now (desc rules.now.renames text.now)) }
    ensures settled { IsRuleSet rules.now }
{
    rules.recall_settled();
    if !may_change(rules, text) {
        return Ok(None);
    }
    match read_any_descriptor(text) {
        None => Ok(None),
        Some(parts) => rename_descriptor_parts(alloc, rules, text, parts),
    }
}

/// The image of the name of a class or an array: a class name with its package exchanged, and of an
/// array's name, which is a field descriptor that begins with `[`, its image as a descriptor. None
/// exactly where the image is the text itself, which it is for any other text. No memory is taken
/// where nothing changes. The only error is want of memory.
pub fn rename_class(alloc: Global, rules: &RuleSet, text: &[u8]) -> Result<Option<Text>, Memory>
    ensures image { IfOk result (IsImage text.now (cls rules.now.renames text.now)) }
    ensures settled { IsRuleSet rules.now }
{
    if text.starts_with(b"[") {
        return rename_descriptor(alloc, rules, text);
    }
    match class_front(rules, text) {
        None => Ok(None),
        Some(front) => Ok(Some(exchanged(alloc, text, &front, b'/')?)),
    }
}

//! The image of a text by what it is used as.

ghost use Rattle.std.specs.Prelude.{◌≡◌, IfOk};
ghost use Rattle.desk_rules.specs.Images.{IsImage};
ghost use Rattle.desk_rules.specs.RuleSets.{IsRuleSet};
ghost use Rattle.desk_rename.specs.Images.{cls};
ghost use Rattle.desk_format.specs.Resolved.{image};
ghost use Rattle.desk_follow.specs.RuleImages.{images_of};
ghost use Rattle.desk_rewrite.specs.Tables.{role_of};

use crate::table::TextRole;
use desk_base::{Memory, Text};
use desk_names::Which;
use desk_rename::{
    Images, rename_class, rename_descriptor, rename_package, rename_signature, rename_string,
};
use desk_rules::RuleSet;
use std::alloc::Global;

/// What a look-up tells of every rule set: no image is changed again, and new texts are modified UTF-8.
pub fn tell_settled(rules: &RuleSet)
    ensures { IsRuleSet rules.now }
{
    let _ = rules.direct(b"");
}

/// An image as an answer: none where it is the text itself.
fn unless_same(alloc: Global, text: &[u8], image: &[u8]) -> Result<Option<Text>, Memory>
    ensures { IfOk result (IsImage text.now image.now) }
{
    if image == text {
        Ok(None)
    } else {
        Ok(Some(Text::from_bytes(alloc, image)?))
    }
}

/// The image of the name of a class or an array, which is looked up first.
fn image_of_class<I: Images>(
    alloc: Global,
    rules: &RuleSet,
    images: &I,
    text: &[u8],
) -> Result<Option<Text>, Memory>
    requires { I.renames images.now ≡ rules.now.renames }
    ensures { IfOk result (IsImage text.now (cls rules.now.renames text.now)) }
{
    match images.image_of(text) {
        Some(image) => unless_same(alloc, text, image),
        None => rename_class(alloc, rules, text),
    }
}

/// The image of a text by its role; none exactly where it is the text itself. The only error is want of memory.
pub fn image_by_role<I: Images>(
    alloc: Global,
    rules: &RuleSet,
    images: &I,
    text_role: TextRole,
    text: &[u8],
) -> Result<Option<Text>, Memory>
    requires { I.renames images.now ≡ rules.now.renames }
    ensures { IfOk result (IsImage text.now (image (images_of rules.now) (role_of text_role) text.now)) }
{
    match text_role {
        TextRole::Class => image_of_class(alloc, rules, images, text),
        TextRole::Package => rename_package(alloc, rules, text),
        TextRole::Descriptor => rename_descriptor(alloc, rules, text),
        TextRole::ClassSig => rename_signature(alloc, rules, Which::Class, text),
        TextRole::MethodSig => rename_signature(alloc, rules, Which::Method, text),
        TextRole::FieldSig => rename_signature(alloc, rules, Which::Field, text),
        TextRole::Str => rename_string(alloc, rules, text),
    }
}

//! Images of names, strings, descriptors and signatures.

use crate::commands::TextKind;
use crate::told;
use crate::words::word;
use desk_base::{Memory, Text};
use desk_rename::{
    Images, NoImages, append_dotted, append_package, rename_class, rename_descriptor,
    rename_dotted, rename_package, rename_signature, rename_string,
};
use desk_rules::RuleSet;
use std::alloc::Global;

/// The image of a text, where it is another one.
fn image_of(
    alloc: Global,
    rules: &RuleSet,
    kind: TextKind,
    text: &[u8],
) -> Result<Option<Text>, Memory> {
    match kind {
        TextKind::Dotted => rename_dotted(alloc, rules, text),
        TextKind::String => rename_string(alloc, rules, text),
        TextKind::Package => rename_package(alloc, rules, text),
        TextKind::Class => rename_class(alloc, rules, text),
        TextKind::Descriptor => rename_descriptor(alloc, rules, text),
        TextKind::Signature(which) => rename_signature(alloc, rules, which, text),
    }
}

/// Tells the image of a text, where it is another one.
pub fn tell(
    alloc: Global,
    rules: &RuleSet,
    kind: TextKind,
    text: &[u8],
    out: &mut String,
) -> Result<(), Memory> {
    match image_of(alloc, rules, kind, text)? {
        Some(image) => told::bytes(out, image.as_bytes()),
        None => told::text(out, "none"),
    }
}

/// Tells whether a text becomes another one: these are the words.
pub fn tell_becomes(
    alloc: Global,
    rules: &RuleSet,
    kind: TextKind,
    words: &[Text],
    out: &mut String,
) -> Result<(), Memory> {
    match image_of(alloc, rules, kind, word(words, 0))? {
        Some(image) => told::value(out, &(image.as_bytes() == word(words, 1))),
        None => told::text(out, "none"),
    }
}

/// Tells the images of a dotted name and of a package, one behind the other: these are the words.
pub fn tell_appended(
    alloc: Global,
    rules: &RuleSet,
    words: &[Text],
    out: &mut String,
) -> Result<(), Memory> {
    let mut image = Text::empty(alloc);
    append_dotted(&mut image, rules, word(words, 0))?;
    append_package(&mut image, rules, word(words, 1))?;
    told::bytes(out, image.as_bytes())
}

/// Tells the image of a class name among none that are known.
pub fn tell_known(rules: &RuleSet, name: &[u8], out: &mut String) -> Result<(), Memory> {
    told::optional(out, NoImages::new(rules).image_of(name))
}

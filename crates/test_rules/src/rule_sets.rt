//! Why rule files make no rule set, and what is looked up in one.

use crate::commands::LookUp;
use crate::told;
use crate::words::{place, word};
use desk_base::{Memory, Text};
use desk_packages::Separator;
use desk_rules::{PropFault, RuleFault, RuleSet, TextHit, TextRules};
use std::fmt::Debug;

/// Tells what is wrong with rule files, and the two texts that say where.
fn tell_where<T: Debug>(
    what: &T,
    first: &Text,
    second: &Text,
    out: &mut String,
) -> Result<(), Memory> {
    told::value(out, what)?;
    told::pair(out, first.as_bytes(), second.as_bytes())
}

/// Tells the fault of a file of properties.
fn tell_properties(file: &Text, fault: PropFault, out: &mut String) -> Result<(), Memory> {
    told::value(out, &fault)?;
    told::bytes(out, file.as_bytes())
}

/// Tells the fault of rule files.
pub fn tell_fault(fault: &RuleFault, out: &mut String) -> Result<(), Memory> {
    match fault {
        RuleFault::NoRenames => told::text(out, "no renames"),
        RuleFault::Properties { file, fault } => tell_properties(file, *fault, out),
        RuleFault::BadKey { file, key } => tell_where(&"bad key", file, key, out),
        RuleFault::BadValue { file, key } => tell_where(&"bad value", file, key, out),
        RuleFault::MissingText { key, name } => tell_where(&"missing text", key, name, out),
        RuleFault::Chain {
            kind,
            first,
            second,
        } => tell_where(kind, first, second, out),
    }
}

/// Tells how many bytes of a package are exchanged, and for how many segments.
fn tell_package(
    rules: &RuleSet,
    path: &[u8],
    separator: Separator,
    out: &mut String,
) -> Result<(), Memory> {
    match rules.package(path, separator) {
        Some(front) => told::value(out, &(front.taken, front.segments.len())),
        None => told::text(out, "none"),
    }
}

/// Tells what a bundle is updated to.
fn tell_bundle(rules: &RuleSet, name: &[u8], out: &mut String) -> Result<(), Memory> {
    match rules.bundle(name) {
        Some(update) => told::update(out, update.name, update.version),
        None => told::text(out, "none"),
    }
}

/// Tells how many bytes are exchanged, and what takes their place.
fn tell_hit(hit: TextHit<'_>, out: &mut String) -> Result<(), Memory> {
    told::value(out, &hit.taken)?;
    told::bytes(out, hit.target)
}

/// Tells the longest source that stands at a place of a text.
fn tell_source(texts: &TextRules, text: &[u8], at: usize, out: &mut String) -> Result<(), Memory> {
    if at > text.len() {
        return told::text(out, "a place behind the text");
    }
    match texts.longest(text, at) {
        Some(hit) => tell_hit(hit, out),
        None => told::text(out, "none"),
    }
}

/// Tells the longest source by the rules of a path: the words are path, text and place.
fn tell_longest(rules: &RuleSet, words: &[Text], out: &mut String) -> Result<(), Memory> {
    match rules.texts(word(words, 0)) {
        Some(texts) => tell_source(texts, word(words, 1), place(words, 2), out),
        None => told::text(out, "no text rules"),
    }
}

/// Tells what is looked up for these words.
pub fn tell(
    rules: &RuleSet,
    look_up: LookUp,
    words: &[Text],
    out: &mut String,
) -> Result<(), Memory> {
    let text = word(words, 0);
    match look_up {
        LookUp::Package(separator) => tell_package(rules, text, separator, out),
        LookUp::Source => told::value(out, &rules.is_source(text)),
        LookUp::Version(side) => told::optional(out, rules.version(text, side)),
        LookUp::Bundle => tell_bundle(rules, text, out),
        LookUp::Direct => told::optional(out, rules.direct(text)),
        LookUp::Selected => told::value(out, &rules.selected(text)),
        LookUp::Longest => tell_longest(rules, words, out),
    }
}

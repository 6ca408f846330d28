//! Images of service files, manifests and texts.

ghost use Rattle.std.specs.Prelude.{◌≤◌, length};
ghost use Rattle.desk_base.specs.Limits.{file_size};

use crate::told;
use crate::words::{content, number, word};
use desk_base::{Memory, Text};
use desk_manifest::migrate_manifest;
use desk_metainf::migrate_service;
use desk_rules::{RuleSet, TextRules};
use desk_textrules::migrate_text;
use std::alloc::Global;
use test_cases::Shown;

/// Tells how many names of a service file change, and its image.
pub fn tell_service(
    alloc: Global,
    rules: &RuleSet,
    text: &[u8],
    out: &mut String,
) -> Result<(), Memory>
    requires { length text.now ≤ file_size }
{
    match migrate_service(alloc, rules, text) {
        Ok(new) => told::counted(out, new.changed, new.bytes.as_bytes()),
        Err(fault) => told::value(out, &fault),
    }
}

/// Tells how many headers of a manifest change, and its image.
pub fn tell_manifest(
    alloc: Global,
    rules: &RuleSet,
    text: &[u8],
    out: &mut String,
) -> Result<(), Memory>
    requires { length text.now ≤ file_size }
{
    match migrate_manifest(alloc, rules, text) {
        Ok(new) => told::counted(out, new.changed, new.bytes.as_bytes()),
        Err(fault) => told::value(out, &fault),
    }
}

/// Tells how many sources of a text change at a path with a target, and its image: the words are path, target and text.
pub fn tell_text(
    alloc: Global,
    rules: &RuleSet,
    words: &[Text],
    out: &mut String,
) -> Result<(), Memory> {
    let Some(texts) = rules.texts_for(word(words, 0), word(words, 1)) else {
        return told::text(out, "no text rules");
    };
    match migrate_text(alloc, content(words, 2), texts.here, texts.there) {
        Ok(new) => told::counted(out, new.changed, new.bytes.as_bytes()),
        Err(fault) => told::value(out, &fault),
    }
}

/// Tells how many bytes the longest source has that stands at a place of a text, and its target.
fn tell_source(texts: &TextRules, text: &[u8], at: u32, out: &mut String) -> Result<(), Memory> {
    let at = at as usize;
    if at > text.len() {
        return told::text(out, "a place behind the text");
    }
    match texts.longest(text, at) {
        Some(hit) => Ok(writeln!(out, "  {} {}", hit.taken, Shown(hit.target))?),
        None => told::text(out, "none"),
    }
}

/// Tells the longest source by the rules of a path: the words are path, text and place.
pub fn tell_longest(rules: &RuleSet, words: &[Text], out: &mut String) -> Result<(), Memory> {
    match rules.texts(word(words, 0)) {
        Some(texts) => tell_source(texts, word(words, 1), number(words, 2), out),
        None => told::text(out, "no text rules"),
    }
}

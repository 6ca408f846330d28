//! Patterns of paths that fit no file.

use crate::rules::RuleNotes;
use desk_base::{Memory, Text};
use desk_patterns::fits;
use desk_unmet::KeyLine;
use std::alloc::Global;

/// How many patterns of a file are looked at that do not begin with `*`.
const MOST: usize = 256;

/// Whether a pattern is another behind `*` or `*/`.
fn is_behind_star(general: &[u8], pattern: &[u8]) -> bool {
    match general {
        [b'*', b'/', rest @ ..] if rest == pattern => true,
        [b'*', rest @ ..] => rest == pattern,
        _ => false,
    }
}

/// Whether a pattern that doesn't begin with `*` stands in its file behind `*` or `*/`, too.
fn has_general(pattern: &[u8], entries: &[KeyLine<'_>]) -> bool {
    entries
        .iter()
        .any(|entry| is_behind_star(entry.key.as_bytes(), pattern))
}

/// Whether a pattern speaks of one application: it doesn't begin with `*`, and doesn't stand in its file behind `*` or `*/` either.
/// Another one speaks of any, so that it may well fit nothing in one.
fn is_special(pattern: &[u8], entries: &[KeyLine<'_>]) -> bool {
    !pattern.starts_with(b"*") && !has_general(pattern, entries)
}

/// A pattern of a rule file, and the number of its line.
#[derive(Debug, Drop)]
pub struct PatternLine {
    /// The pattern.
    pub pattern: Text,
    /// The number of its line.
    pub line: u32,
}

/// The patterns of a rule file that speak of one application, as far as they are among the first 256 that don't begin with `*`.
pub fn special_patterns(
    alloc: Global,
    entries: &[KeyLine<'_>],
) -> Result<Vec<PatternLine>, Memory> {
    let mut special = Vec::new(alloc);
    let plain = entries
        .iter()
        .filter(|entry| !entry.key.as_bytes().starts_with(b"*"));
    for entry in plain.take(MOST) {
        if is_special(entry.key.as_bytes(), entries) {
            let pattern = Text::from_bytes(alloc, entry.key.as_bytes())?;
            let line = entry.line;
            special.push(PatternLine { pattern, line })?;
        }
    }
    Ok(special)
}

/// Whether a pattern fits one of these paths.
fn is_met(pattern: &[u8], paths: &[Text]) -> bool {
    paths.iter().any(|path| fits(pattern, path.as_bytes()))
}

impl RuleNotes {
    /// Notes those of a rule file's patterns that fit none of these paths.
    pub fn take_patterns(
        &mut self,
        name: &[u8],
        patterns: &[PatternLine],
        paths: &[&[Text]],
    ) -> Result<(), Memory> {
        for special in patterns {
            let pattern = special.pattern.as_bytes();
            if !paths.iter().any(|list| is_met(pattern, *list)) {
                self.take_unmet(name, special)?;
            }
        }
        Ok(())
    }
}

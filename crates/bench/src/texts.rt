//! A text, which is migrated by the text rules of a file so many times. It prints how many bytes it has, how many sources
//! changed, and how many bytes the image has.

use crate::reading::{bad_words, read_rules, times_of, undone};
use desk_base::{Changed, MAX_FILE_SIZE};
use desk_rules::RuleSet;
use desk_textrules::migrate_text;
use std::alloc::Global;
use std::{fs, io};

/// The files beside that of the text rules, by name and content, and its name.
const WORDS: &[&[u8]] = &[
    b"renames.properties",
    b"a=b",
    b"text.properties",
    b"*=texts",
    b"texts",
];

/// The image of a text of at most 67,108,864 bytes.
fn image(alloc: Global, rules: &RuleSet, text: &[u8]) -> Option<Changed> {
    let texts = rules.texts_for(b"t", b"t")?;
    if text.len() > MAX_FILE_SIZE {
        return None;
    }
    migrate_text(alloc, text, texts.here, texts.there).ok()
}

/// Migrates a text so many times, and gives how many of its sources changed, and how many bytes its image has.
fn migrated(alloc: Global, rules: &RuleSet, text: &[u8], times: u32) -> Option<(u32, usize)> {
    let mut counts = (0, 0);
    for _ in 0..times {
        let new = image(alloc, rules, text)?;
        counts = (new.changed, new.bytes.as_bytes().len());
    }
    Some(counts)
}

/// Migrates a text so many times.
pub fn run(rt: &HostRuntime, words: &[String]) -> io::Result<()> {
    let [rules, text, times] = words else {
        return Err(bad_words());
    };
    let rules = read_rules(rt, WORDS, rules.as_str())?;
    let text = fs::read(rt, text.as_str())?;
    match migrated(rt.alloc(), &rules, &text, times_of(times)) {
        Some((changed, bytes)) => println!(rt; "{} {changed} {bytes}", text.len()),
        None => Err(undone()),
    }
}

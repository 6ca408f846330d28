//! What is given: lines, numbers and rule sets.

use desk_base::Text;
use desk_fixtures::rules_of;
use desk_rules::RuleSet;
use std::alloc::Global;
use std::fs;
use std::fs::File;
use std::io::{self, BufRead, BufReader, ErrorKind};

/// The error of words that don't say what is to be done.
pub fn bad_words() -> io::Error {
    io::Error::from(ErrorKind::InvalidInput)
}

/// The error of what can't be done with what was given, or for want of memory.
pub fn undone() -> io::Error {
    io::Error::from(ErrorKind::InvalidData)
}

/// The lines of a reader.
fn lines_of<R: BufRead + Drop>(alloc: Global, reader: R) -> io::Result<Vec<String>> {
    let mut lines = Vec::new(alloc);
    for line in reader.lines(alloc) {
        lines.push(line?)?;
    }
    Ok(lines)
}

/// The lines of standard input.
pub fn input_lines(rt: &HostRuntime) -> io::Result<Vec<String>> {
    lines_of(rt.alloc(), BufReader::new(rt.alloc(), rt.reader())?)
}

/// The lines of a file.
pub fn file_lines(rt: &HostRuntime, path: &str) -> io::Result<Vec<String>> {
    let file = File::open(rt, path)?;
    lines_of(rt.alloc(), BufReader::new(rt.alloc(), file)?)
}

/// How many times a word says; once where it is no number.
pub fn times_of(word: &String) -> u32 {
    word.as_str().parse::<u32>().unwrap_or(1)
}

/// The rule set of the files whose names and contents these words and a last one are, in turns. A content of more than
/// 1,048,576 bytes is left out.
pub fn rule_set(alloc: Global, words: &[&[u8]], last: &[u8]) -> Option<Box<RuleSet>> {
    let mut texts = Vec::new(alloc);
    for word in words {
        texts.push(Text::from_bytes(alloc, word).ok()?).ok()?;
    }
    texts.push(Text::from_bytes(alloc, last).ok()?).ok()?;
    rules_of(alloc, &texts).ok()
}

/// The rule set of such words, of which the last is the content of a file.
pub fn read_rules(rt: &HostRuntime, words: &[&[u8]], path: &str) -> io::Result<Box<RuleSet>> {
    let content = fs::read(rt, path)?;
    match rule_set(rt.alloc(), words, &content) {
        Some(rules) => Ok(rules),
        None => Err(undone()),
    }
}

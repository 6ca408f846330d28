//! Rule sets for the tests of many crates, from the names and contents of their files.
//!
//! ```text
//! let rules = rules_of(alloc, &words)?; // of the words `renames.properties` and `javax.servlet.*=jakarta.servlet`
//! rules.package(b"javax/servlet/http", Separator::Slash); // Some: `javax/servlet` is exchanged
//! ```
#![tactic(auto)]

use desk_base::{MAX_RULE_FILE_SIZE, Memory, Text};
use desk_rules::{BuildFault, RuleFiles, RuleSet};
use std::alloc::Global;

/// The files with one more; as they were where they have one of its name, or where it is longer than 1,048,576 bytes. The
/// only error is want of memory.
pub fn with_file(
    alloc: Global,
    mut files: RuleFiles,
    name: &[u8],
    content: &[u8],
) -> Result<RuleFiles, Memory> {
    let name = Text::from_bytes(alloc, name)?;
    if content.len() > MAX_RULE_FILE_SIZE || files.content(&name).is_some() {
        return Ok(files);
    }
    let content = Text::from_bytes(alloc, content)?;
    files.add(name, content)?;
    Ok(files)
}

/// The rule set of the files whose names and contents these words are, in turns, in a box of its own. The fault is that of
/// the files, or want of memory.
pub fn rules_of(alloc: Global, words: &[Text]) -> Result<Box<RuleSet>, BuildFault> {
    let mut files = RuleFiles::new(alloc);
    for row in words.chunks_exact(2) {
        if let [name, content] = row {
            files = with_file(alloc, files, name.as_bytes(), content.as_bytes())?;
        }
    }
    let rules = RuleSet::build(alloc, &files)?;
    Ok(Box::new(alloc, rules)?)
}

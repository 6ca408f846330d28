//! Lines of answers.

use desk_base::{Memory, Text};
use desk_folders::FolderFault;
use std::io;
use test_cases::Shown;

/// Answers words.
pub fn say(words: &str, out: &mut String) -> Result<(), Memory> {
    Ok(writeln!(out, "  {words}")?)
}

/// Answers bytes as a word.
pub fn say_bytes(bytes: &[u8], out: &mut String) -> Result<(), Memory> {
    Ok(writeln!(out, "  {}", Shown(bytes))?)
}

/// Answers words, each as it is shown, in one line.
pub fn say_words(words: &[&[u8]], out: &mut String) -> Result<(), Memory> {
    out.push(' ')?;
    for word in words {
        write!(out, " {}", Shown(word))?;
    }
    Ok(out.push('\n')?)
}

/// Answers texts, a line each, or that there are none.
pub fn say_texts(texts: &[Text], out: &mut String) -> Result<(), Memory> {
    if texts.is_empty() {
        return say("none", out);
    }
    for text in texts {
        say_bytes(text.as_bytes(), out)?;
    }
    Ok(())
}

/// Answers why a call of folders failed.
pub fn say_fault(fault: FolderFault, out: &mut String) -> Result<(), Memory> {
    Ok(writeln!(out, "  {fault:?}")?)
}

/// Answers what came of a call of folders that gives nothing.
pub fn say_done(done: Result<(), FolderFault>, out: &mut String) -> Result<(), Memory> {
    match done {
        Ok(()) => say("ok", out),
        Err(fault) => say_fault(fault, out),
    }
}

/// Answers the kind of an error of the system; nothing where there was none.
pub fn say_kind(done: io::Result<()>, out: &mut String) -> Result<(), Memory> {
    match done {
        Ok(()) => Ok(()),
        Err(error) => Ok(writeln!(out, "  {:?}", error.kind())?),
    }
}

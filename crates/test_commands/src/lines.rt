//! Lines of answers.

use desk_base::Memory;
use test_cases::Shown;

/// Appends a line of these words, each as it is shown.
pub fn append_words(words: &[&[u8]], out: &mut String) -> Result<(), Memory> {
    out.push(' ')?;
    for word in words {
        write!(out, " {}", Shown(word))?;
    }
    Ok(out.push('\n')?)
}

/// Appends that a command isn't known.
pub fn append_unknown(out: &mut String) -> Result<(), Memory> {
    Ok(out.push_str("  no command\n")?)
}

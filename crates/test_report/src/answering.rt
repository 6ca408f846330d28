//! What answers are written with: lines that begin with two blanks.

use desk_base::{Memory, Text};
use std::fmt::{self, Debug, Display};
use test_cases::Shown;

/// A value behind a word that says what it is.
#[derive(Drop)]
pub struct As<'a, D>(pub &'a str, pub &'a D);

impl<D: Display> Display for As<'_, D> {
    fn fmt<W: fmt::Write>(&self, f: &mut fmt::Formatter<W>) -> fmt::Result {
        write!(f, "{} {}", self.0, self.1)
    }
}

/// A value as its code names it.
#[derive(Drop)]
pub struct Named<'a, D>(pub &'a D);

impl<D: Debug> Display for Named<'_, D> {
    fn fmt<W: fmt::Write>(&self, f: &mut fmt::Formatter<W>) -> fmt::Result {
        write!(f, "{:?}", self.0)
    }
}

/// Answers a value in a line of its own.
pub fn answer<A: Display>(out: &mut String, value: &A) -> Result<(), Memory> {
    writeln!(out, "  {value}")?;
    Ok(())
}

/// Answers two values in one line.
pub fn answer_two<A: Display, B: Display>(
    out: &mut String,
    first: &A,
    second: &B,
) -> Result<(), Memory> {
    writeln!(out, "  {first} {second}")?;
    Ok(())
}

/// Answers three values in one line.
pub fn answer_three<A: Display, B: Display, C: Display>(
    out: &mut String,
    first: &A,
    second: &B,
    third: &C,
) -> Result<(), Memory> {
    writeln!(out, "  {first} {second} {third}")?;
    Ok(())
}

/// Answers bytes in a line of their own.
pub fn answer_bytes(out: &mut String, bytes: &[u8]) -> Result<(), Memory> {
    answer(out, &Shown(bytes))
}

/// Answers texts, each in a line of its own.
pub fn answer_texts(out: &mut String, texts: &[Text]) -> Result<(), Memory> {
    for text in texts {
        answer_bytes(out, text.as_bytes())?;
    }
    Ok(())
}

/// Answers words that are none of a command's.
pub fn other_words(out: &mut String) -> Result<(), Memory> {
    answer(out, &"other words")
}

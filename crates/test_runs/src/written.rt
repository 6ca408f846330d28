//! What is answered: lines of outputs, contents and rows.

use crate::scene::Scene;
use desk_base::Memory;
use desk_ledger::{Digest, Header, Row};
use std::fmt;
use test_cases::Shown;
use worked_classes::servlet::{NEW_SERVLET, SERVLET};

/// A digest in digits of base 16.
#[derive(Drop)]
struct Hex<'a>(&'a Digest);

impl fmt::Display for Hex<'_> {
    fn fmt<W: fmt::Write>(&self, f: &mut fmt::Formatter<W>) -> fmt::Result {
        for byte in self.0.0.iter() {
            write!(f, "{byte:02x}")?;
        }
        Ok(())
    }
}

/// Answers words.
pub fn say(out: &mut String, words: &str) -> Result<(), Memory> {
    Ok(writeln!(out, "  {words}")?)
}

/// Answers how the last run ended, and what it wrote.
pub fn write_ended(scene: &Scene, out: &mut String) -> Result<(), Memory> {
    writeln!(out, "  status {}", scene.code)?;
    let text = scene.text();
    for line in text.lines() {
        say(out, line)?;
    }
    if text.is_empty() || text.ends_with('\n') {
        Ok(())
    } else {
        say(out, "without an end")
    }
}

/// The class of a name.
pub fn class_of(name: &[u8]) -> Option<&'static [u8]> {
    match name {
        b"servlet" => Some(&SERVLET),
        b"new-servlet" => Some(&NEW_SERVLET),
        _ => None,
    }
}

/// Answers the content of a file, or the name of the class that it is.
pub fn write_content(content: Option<&[u8]>, out: &mut String) -> Result<(), Memory> {
    match content {
        Some(bytes) if bytes == SERVLET.as_slice() => say(out, "the class servlet"),
        Some(bytes) if bytes == NEW_SERVLET.as_slice() => say(out, "the class new-servlet"),
        Some(bytes) => Ok(writeln!(out, "  {}", Shown(bytes))?),
        None => say(out, "no file"),
    }
}

/// Answers a header: source, target and the digest of the rules.
pub fn write_header(header: &Header, out: &mut String) -> Result<(), Memory> {
    let from = Shown(header.from.as_bytes());
    let to = Shown(header.to.as_bytes());
    Ok(writeln!(out, "  {from} {to} {}", Hex(&header.rules))?)
}

/// Answers a row: the source, the digest of its bytes, and that of the bytes that were written, where the row has it.
pub fn write_row(row: &Row, out: &mut String) -> Result<(), Memory> {
    let source = Shown(row.source.as_bytes());
    write!(out, "  {source} {}", Hex(&row.digest))?;
    match &row.output {
        Some(output) => Ok(writeln!(out, " {}", Hex(output))?),
        None => Ok(out.push('\n')?),
    }
}

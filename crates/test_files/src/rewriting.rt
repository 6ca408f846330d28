//! Classes and what they become, or why they aren't rewritten.

ghost use Rattle.std.specs.Prelude.{◌≤◌, length};
ghost use Rattle.desk_base.specs.Limits.{file_size};

use crate::commands::Command;
use crate::told;
use crate::words::{content, word};
use desk_base::{MAX_FILE_SIZE, Memory, ReadFault, Text};
use desk_class::ClassView;
use desk_rename::NoImages;
use desk_rewrite::{RewriteFault, Rewritten, rewrite};
use desk_rules::RuleSet;
use std::alloc::Global;
use worked_classes::servlet::{NEW_SERVLET, SERVLET};

/// What a class becomes.
fn new_class(
    alloc: Global,
    rules: &RuleSet,
    view: &ClassView<'_>,
) -> Result<Rewritten, RewriteFault> {
    rewrite(alloc, rules, &NoImages::new(rules), view)
}

/// Tells a new class: as its bytes, or as whether it is the wanted one.
fn tell_bytes(bytes: &[u8], wanted: Option<&[u8]>, out: &mut String) -> Result<(), Memory> {
    match wanted {
        None => told::bytes(out, bytes),
        Some(wanted) if bytes == wanted => told::text(out, "as wanted"),
        Some(_) => told::text(out, "otherwise"),
    }
}
/// Tells how many uses of a class are renamed, texts added and uses odd, and the new class; or why it isn't rewritten.
fn tell_new(
    alloc: Global,
    rules: &RuleSet,
    view: &ClassView<'_>,
    wanted: Option<&[u8]>,
    out: &mut String,
) -> Result<(), Memory> {
    match new_class(alloc, rules, view) {
        Ok(new) => {
            told::value(out, &[new.renamed, new.added, new.odd])?;
            tell_bytes(new.bytes.as_bytes(), wanted, out)
        }
        Err(fault) => told::value(out, &fault),
    }
}

/// Tells what becomes of bytes, or why they are no class.
fn tell_class(
    alloc: Global,
    rules: &RuleSet,
    bytes: &[u8],
    wanted: Option<&[u8]>,
    out: &mut String,
) -> Result<(), Memory>
    requires { length bytes.now ≤ file_size }
{
    match ClassView::read(alloc, bytes) {
        Ok(view) => tell_new(alloc, rules, &view, wanted, out),
        Err(fault) => told::value(out, &fault),
    }
}

/// Whether a class becomes one that reads, or isn't rewritten for a reason that is named.
fn is_rewritten_or_refused(alloc: Global, rules: &RuleSet, view: &ClassView<'_>) -> bool {
    match new_class(alloc, rules, view) {
        Ok(new) => {
            let bytes = new.bytes.as_bytes();
            bytes.len() <= MAX_FILE_SIZE && ClassView::read(alloc, bytes).is_ok()
        }
        Err(fault) => fault != RewriteFault::Memory,
    }
}

/// Whether bytes are no class for a reason that is named, or a class that is rewritten or refused.
fn is_answered(alloc: Global, rules: &RuleSet, bytes: &[u8]) -> bool {
    if bytes.len() > MAX_FILE_SIZE {
        return false;
    }
    match ClassView::read(alloc, bytes) {
        Ok(view) => is_rewritten_or_refused(alloc, rules, &view),
        Err(fault) => fault != ReadFault::Memory,
    }
}

/// Tells at how many places the servlet is answered with 255 in place of the byte there.
fn tell_places(alloc: Global, rules: &RuleSet, out: &mut String) -> Result<(), Memory> {
    let mut answered = 0u32;
    for place in 0..SERVLET.len() {
        let mut bytes = SERVLET.to_vec(alloc)?;
        if let Some(byte) = bytes.get_mut(place) {
            *byte = 255;
        }
        if is_answered(alloc, rules, &bytes) {
            answered = answered.saturating_add(1);
        }
    }
    told::value(out, &answered)
}

/// Obeys a command on classes.
pub fn obey(
    alloc: Global,
    rules: &RuleSet,
    command: Command,
    words: &[Text],
    out: &mut String,
) -> Result<(), Memory> {
    match command {
        Command::Rewrite => tell_class(alloc, rules, content(words, 0), None, out),
        Command::RewriteAs => {
            tell_class(alloc, rules, content(words, 0), Some(word(words, 1)), out)
        }
        Command::RewriteServlet => tell_class(alloc, rules, &SERVLET, Some(&NEW_SERVLET), out),
        _ => tell_places(alloc, rules, out),
    }
}

//! Classes that are put into the application of a case.

use crate::told;
use crate::words::{content, number, word};
use desk_base::{Memory, Text};
use desk_class::HeldNames;
use desk_file::{NotedClass, note_class};
use desk_graph::Scanned;
use desk_rules::RuleSet;
use std::alloc::Global;
use test_cases::Shown;

/// Puts a class, and tells its name and how many names it holds.
fn put(classes: &mut Vec<Scanned>, class: Scanned, out: &mut String) -> Result<(), Memory> {
    let count = class.held.len();
    writeln!(out, "  {} holds {count}", Shown(class.name.as_bytes()))?;
    Ok(classes.push(class)?)
}

/// Names as a scan packs them.
fn packed(alloc: Global, names: &[Text]) -> Result<HeldNames, Memory> {
    let mut texts = Vec::new(alloc);
    for name in names {
        texts.push(name.as_bytes())?;
    }
    HeldNames::of(alloc, &texts)
}

/// Whether the first word says that a class is selected.
fn is_selected(words: &[Text]) -> bool {
    word(words, 0) == b"selected".as_slice()
}

/// Puts a class: the words are whether it is selected, its path, its name, and the names that it holds.
pub fn class(
    alloc: Global,
    classes: &mut Vec<Scanned>,
    words: &[Text],
    out: &mut String,
) -> Result<(), Memory> {
    let class = Scanned {
        path: Text::from_bytes(alloc, word(words, 1))?,
        selected: is_selected(words),
        name: Text::from_bytes(alloc, word(words, 2))?,
        held: packed(alloc, words.get(3..).unwrap_or(&[]))?,
    };
    put(classes, class, out)
}

/// What is noted of a class, or nothing of other bytes: the words are whether it is selected, its path, and its bytes.
fn note(alloc: Global, rules: &RuleSet, words: &[Text]) -> Result<Option<NotedClass>, Memory> {
    let path = Text::from_bytes(alloc, word(words, 1))?;
    note_class(alloc, rules, &path, is_selected(words), content(words, 2))
}

/// Tells how many odd texts a class has that is noted as its own image.
fn tell_odd(odd: Option<u32>, out: &mut String) -> Result<(), Memory> {
    match odd {
        Some(odd) => Ok(writeln!(out, "  unchanged odd={odd}")?),
        None => Ok(()),
    }
}

/// Puts what is kept of a class, and tells whether it is noted as its own image.
pub fn scanned(
    alloc: Global,
    rules: &RuleSet,
    classes: &mut Vec<Scanned>,
    words: &[Text],
    out: &mut String,
) -> Result<(), Memory> {
    match note(alloc, rules, words)? {
        Some(NotedClass { scanned, odd }) => {
            put(classes, scanned, out)?;
            tell_odd(odd, out)
        }
        None => told::text(out, "no class"),
    }
}

/// The class of a number, which is selected: its name is a package with `/`, and its number behind that; it holds that name alone.
fn numbered(alloc: Global, package: &[u8], number: u32) -> Result<Scanned, Memory> {
    let digits = format!(in alloc; "/{number}")?;
    let mut name = Text::from_bytes(alloc, package)?;
    name.append(digits.as_bytes())?;
    Ok(Scanned {
        path: name.clone()?,
        selected: true,
        held: HeldNames::of(alloc, &[name.as_bytes()])?,
        name,
    })
}

/// Puts classes with numbers from 0 on: the words are their package and how many they are.
pub fn many(alloc: Global, classes: &mut Vec<Scanned>, words: &[Text]) -> Result<(), Memory> {
    for i in 0..number(words, 1) {
        classes.push(numbered(alloc, word(words, 0), i)?)?;
    }
    Ok(())
}

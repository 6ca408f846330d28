//! A second look at the rule folder: in which lines something stands, and what has no effect.

use crate::looks::{MOST_PATHS, front_of, paths_below};
use crate::search::look_through;
use desk_base::{MAX_RULE_FILE_SIZE, Memory, Text, TextList};
use desk_choices::{first_file, second_file};
use desk_notes::{PatternLine, RuleNotes, place_text, special_patterns, unshown};
use desk_properties::PropFault;
use desk_rules::RuleFault;
use desk_unmet::{
    KeyLine, RuleKind, Sought, is_for_any, key_lines, line_of_byte, line_of_key, without_blanks,
};
use desk_words::Roots;
use std::alloc::Global;

const RENAMES: &[u8] = b"renames.properties";

const BUNDLES: &[u8] = b"bundles.properties";

const DIRECT: &[u8] = b"direct.properties";

const SELECTION: &[u8] = b"selection.properties";

const TEXT: &[u8] = b"text.properties";

const VERSIONS: &[u8] = b"versions.properties";

/// The rule files that are read by their names.
const FILES: [&[u8]; 6] = [RENAMES, VERSIONS, BUNDLES, DIRECT, SELECTION, TEXT];

/// How many files a rule folder has at most.
const MOST_FILES: u32 = 1_000;

/// The bytes of a rule file, at most 1,048,576.
fn rule_file(rt: &HostRuntime, rules: &Text, name: &[u8]) -> Option<Text> {
    front_of(rt, rules, name, MAX_RULE_FILE_SIZE as u32)
}

/// The bytes of a rule file; none of one that isn't there.
fn bytes_in(rt: &HostRuntime, rules: &Text, name: &[u8]) -> Text {
    match rule_file(rt, rules, name) {
        Some(file) => file,
        None => Text::empty(rt.alloc()),
    }
}

/// Whether a file of the rule folder is read: by its name, or since `text.properties` names it.
fn is_read(name: &[u8], texts: &[KeyLine<'_>]) -> bool {
    FILES.iter().any(|file| *file == name)
        || texts
            .iter()
            .any(|entry| without_blanks(entry.value.as_bytes()) == name)
}

/// What a second look at a rule folder finds.
#[derive(Drop)]
struct Looked {
    notes: RuleNotes,
    /// The rules that are looked for in the source.
    source: Sought,
    /// Those that are looked for in the target.
    target: Sought,
}

impl Looked {
    /// The rules that are looked for where those of this kind are.
    fn sought(&mut self, kind: RuleKind) -> &mut Sought {
        match kind {
            RuleKind::Rename | RuleKind::Direct | RuleKind::Bundle => &mut self.source,
            RuleKind::Version => &mut self.target,
        }
    }

    /// Takes a rule file.
    fn take(&mut self, alloc: Global, name: &[u8], file: &[u8]) -> Result<(), Memory> {
        let entries = key_lines(alloc, file)?;
        self.notes.take(name, file, &entries)?;
        match RuleKind::of_file(name) {
            Some(kind) if !is_for_any(file) => self.sought(kind).add(kind, &entries),
            _ => Ok(()),
        }
    }
}

/// Takes each file of the rule folder.
fn take_files(rt: &HostRuntime, rules: &Text, looked: &mut Looked) -> Result<(), Memory> {
    let texts = bytes_in(rt, rules, TEXT);
    let texts = key_lines(rt.alloc(), texts.as_bytes())?;
    let Some(names) = paths_below(rt, rules, MOST_FILES) else {
        return Ok(());
    };
    for name in names.as_slice() {
        let name = name.as_bytes();
        if !is_read(name, &texts) {
            looked.notes.take_unnamed(name)?;
        } else if let Some(file) = rule_file(rt, rules, name) {
            looked.take(rt.alloc(), name, file.as_bytes())?;
        }
    }
    Ok(())
}

/// What a second look at a rule folder finds.
fn look_at(rt: &HostRuntime, rules: &Text) -> Result<Box<Looked>, Memory> {
    let looked = Looked {
        notes: RuleNotes::new(rt.alloc()),
        source: Sought::new(rt.alloc()),
        target: Sought::new(rt.alloc()),
    };
    let mut looked = Box::new(rt.alloc(), looked)?;
    take_files(rt, rules, &mut looked)?;
    Ok(looked)
}

/// What is noted of a rule folder behind a run that it stood against.
pub(crate) fn folder_notes(rt: &HostRuntime, rules: &Text) -> Result<Text, Memory> {
    let mut text = Text::empty(rt.alloc());
    look_at(rt, rules)?.notes.append_to(&mut text)?;
    Ok(text)
}

/// The patterns in a rule file that speak of one application.
fn patterns_in(rt: &HostRuntime, rules: &Text, name: &[u8]) -> Result<Vec<PatternLine>, Memory> {
    let file = bytes_in(rt, rules, name);
    let entries = key_lines(rt.alloc(), file.as_bytes())?;
    special_patterns(rt.alloc(), &entries)
}

/// Notes the patterns that speak of this application and fit nothing in it: those of a selection no path of the source, and those of
/// texts none of the target either.
fn note_patterns(rt: &HostRuntime, roots: &Roots, notes: &mut RuleNotes) -> Result<(), Memory> {
    let selection = patterns_in(rt, &roots.rules, SELECTION)?;
    let texts = patterns_in(rt, &roots.rules, TEXT)?;
    if selection.is_empty() && texts.is_empty() {
        return Ok(());
    }
    let paths = paths_below(rt, &roots.from, MOST_PATHS);
    let targets = paths_below(rt, &roots.to, MOST_PATHS);
    let (Some(paths), Some(targets)) = (paths, targets) else {
        return Ok(());
    };
    notes.take_patterns(SELECTION, &selection, &[paths.as_slice()])?;
    notes.take_patterns(TEXT, &texts, &[paths.as_slice(), targets.as_slice()])
}

/// The paths of files that are shown so.
fn unshown_paths(alloc: Global, shown: &TextList) -> Result<TextList, Memory> {
    let mut paths = TextList::empty(alloc);
    for path in shown.as_slice() {
        paths.push(unshown(alloc, path.as_bytes())?)?;
    }
    Ok(paths)
}

/// Notes the rules that nothing in the source meets, or in the target. Classes in which a name was renamed, by their paths as they
/// are shown, are looked at first: they meet what renamed it. Of an application that can't be looked through nothing is noted.
fn note_unmet(
    rt: &HostRuntime,
    roots: &Roots,
    renamed: &TextList,
    looked: &mut Looked,
) -> Result<(), Memory> {
    let renamed = unshown_paths(rt.alloc(), renamed)?;
    if let Some(()) = look_through(rt, &roots.from, renamed.as_slice(), &mut looked.source) {
        looked.notes.take_sought(&looked.source)?;
    }
    if let Some(()) = look_through(rt, &roots.to, &[], &mut looked.target) {
        looked.notes.take_sought(&looked.target)?;
    }
    Ok(())
}

/// What is noted of the rules of a run that completed, in which these are the first classes with a name that was renamed.
pub(crate) fn run_notes(
    rt: &HostRuntime,
    roots: &Roots,
    renamed: &TextList,
) -> Result<Text, Memory> {
    let mut text = Text::empty(rt.alloc());
    let mut looked = look_at(rt, &roots.rules)?;
    note_patterns(rt, roots, &mut looked.notes)?;
    note_unmet(rt, roots, renamed, &mut looked)?;
    looked.notes.append_to(&mut text)?;
    Ok(text)
}

/// Whether a rename has a key that begins so.
pub(crate) fn renames_below(rt: &HostRuntime, rules: &Text, front: &[u8]) -> Result<bool, Memory> {
    let renames = bytes_in(rt, rules, RENAMES);
    let renames = key_lines(rt.alloc(), renames.as_bytes())?;
    Ok(
        renames
            .iter()
            .any(|entry| entry.key.as_bytes().starts_with(front)),
    )
}

/// Where in a rule file something stands.
#[derive(Clone, Copy)]
enum Position<'a> {
    /// At a key.
    Key(&'a [u8]),
    /// At a byte, by its offset.
    Byte(u32),
}

impl<'a> Position<'a> {
    /// The number of its line; none of a key that isn't there.
    fn line_in(self, alloc: Global, file: &[u8]) -> Result<Option<u32>, Memory> {
        match self {
            Position::Key(key) => Ok(line_of_key(&key_lines(alloc, file)?, key)),
            Position::Byte(at) => Ok(Some(line_of_byte(file, at as usize))),
        }
    }

    /// The key that is told of it.
    fn key(self) -> &'a [u8] {
        match self {
            Position::Key(key) => key,
            Position::Byte(_) => b"",
        }
    }
}

/// Adds the place of a position in a rule file, where it is found.
fn append_place(
    rt: &HostRuntime,
    rules: &Text,
    file: &[u8],
    position: Position<'_>,
    text: &mut Text,
) -> Result<(), Memory> {
    let Some(found) = rule_file(rt, rules, file) else {
        return Ok(());
    };
    let Some(line) = position.line_in(rt.alloc(), found.as_bytes())? else {
        return Ok(());
    };
    text.append(b"migrate:   ")?;
    text.append(place_text(rt.alloc(), file, line, position.key())?.as_bytes())?;
    text.append(b"\n")
}

/// At which byte a file isn't one of properties.
fn byte_of(fault: PropFault) -> u32 {
    match fault {
        PropFault::NotUtf8 { at } | PropFault::Escape { at } => at,
    }
}

/// In which lines of the rule files stands what is against them.
pub(crate) fn places_of(rt: &HostRuntime, rules: &Text, fault: &RuleFault) -> Result<Text, Memory> {
    let mut text = Text::empty(rt.alloc());
    match fault {
        RuleFault::NoRenames => {}
        RuleFault::Properties { file, fault } => {
            let position = Position::Byte(byte_of(*fault));
            append_place(rt, rules, file.as_bytes(), position, &mut text)?;
        }
        RuleFault::BadKey { file, key } | RuleFault::BadValue { file, key } => {
            let position = Position::Key(key.as_bytes());
            append_place(rt, rules, file.as_bytes(), position, &mut text)?;
        }
        RuleFault::MissingText { key, .. } => {
            append_place(rt, rules, TEXT, Position::Key(key.as_bytes()), &mut text)?;
        }
        RuleFault::Chain {
            kind,
            first,
            second,
        } => {
            let position = Position::Key(first.as_bytes());
            append_place(rt, rules, first_file(*kind), position, &mut text)?;
            let position = Position::Key(second.as_bytes());
            append_place(rt, rules, second_file(*kind), position, &mut text)?;
        }
    }
    Ok(text)
}

//! Rules that are looked for in the files of an application, so that those that nothing meets can be told.
//!
//! A rule is met where a file, or the path of one, holds a text of it: a rename or a version by its package, written with `.` or with
//! `/`, a direct rule by its old text, a bundle by its old name. In a manifest a text may go over several lines (JAR File
//! Specification, Notes on Manifest and Signature Files), so a manifest is looked at with its lines joined, too. A rule that
//! isn't met has certainly no effect; one that is met may have none.
//!
//! ```text
//! let mut sought = Sought::new(alloc);
//! sought.add(RuleKind::Rename, &entries)?;      // javax.servlet.*=jakarta.servlet
//! sought.settle()?;
//! sought.begin(b"WEB-INF/web.xml")?;
//! sought.take(b"..javax.serv")?;
//! sought.take(b"let..")?;
//! sought.is_done()                              // true
//! ```

ghost use Rattle.std.specs.Prelude.{◌≡◌};
ghost use Rattle.desk_unmet.specs.Sought.{file_of};

use crate::entries::KeyLine;
use crate::forms::Forms;
use desk_base::{Memory, Text, TextList};
use desk_choices::slashed;
use memchr::memmem;
use std::alloc::Global;

/// How many fronts are looked for.
const MOST_FRONTS: usize = 64;

/// The line by which a rule file says that it is for any application.
const FOR_ANY: &[u8] = b"# for any application";

/// A kind of rule that is looked for.
#[derive(Clone, Copy, Debug, PartialEq, Eq)]
pub enum RuleKind {
    /// A rename of packages.
    Rename,
    /// A direct rule.
    Direct,
    /// A version of a new package.
    Version,
    /// A bundle update.
    Bundle,
}

impl RuleKind {
    /// The rule file of its rules.
    pub fn file(self) -> &'static [u8]
        ensures { result.now ≡ file_of self }
    {
        match self {
            RuleKind::Rename => b"renames.properties",
            RuleKind::Direct => b"direct.properties",
            RuleKind::Version => b"versions.properties",
            RuleKind::Bundle => b"bundles.properties",
        }
    }

    /// The kind of the rules in a rule file; none of a file whose rules aren't looked for.
    pub fn of_file(name: &[u8]) -> Option<RuleKind> {
        match name {
            b"renames.properties" => Some(RuleKind::Rename),
            b"direct.properties" => Some(RuleKind::Direct),
            b"versions.properties" => Some(RuleKind::Version),
            b"bundles.properties" => Some(RuleKind::Bundle),
            _ => None,
        }
    }
}

/// Whether a rule file says by a line of its own that it is for any application, so that most of its rules may well meet nothing.
pub fn is_for_any(file: &[u8]) -> bool {
    file.split(|byte| *byte == b'\n')
        .any(|line| line.trim_ascii_end() == FOR_ANY)
}

/// A value without blanks at its end.
pub fn without_blanks(value: &[u8]) -> &[u8] {
    let last = value
        .iter()
        .rposition(|byte| !matches!(*byte, b' ' | b'\t' | 0x0C));
    match last {
        Some(last) => &value[..last + 1],
        None => b"",
    }
}

/// The package of a key of `renames.properties`: the key without `.*` at its end. It takes no memory.
pub fn package_of(key: &[u8]) -> &[u8] {
    match key {
        [package @ .., b'.', b'*'] => package,
        _ => key,
    }
}

/// The text by which a rule is looked for.
fn text_of(kind: RuleKind, key: &[u8]) -> &[u8] {
    match kind {
        RuleKind::Rename => package_of(key),
        RuleKind::Direct | RuleKind::Version | RuleKind::Bundle => key,
    }
}

/// Whether a rule keeps what it names, so that it makes an exception.
fn is_exception(kind: RuleKind, entry: &KeyLine<'_>) -> bool {
    let text = text_of(kind, entry.key.as_bytes());
    let value = entry.value.as_bytes();
    match kind {
        RuleKind::Rename | RuleKind::Bundle => without_blanks(value) == text,
        RuleKind::Direct => value == text,
        RuleKind::Version => false,
    }
}

/// Whether a rule is looked for: it has an effect where it is met.
fn is_sought(kind: RuleKind, entry: &KeyLine<'_>) -> bool {
    !entry.is_repeated
        && !text_of(kind, entry.key.as_bytes()).is_empty()
        && !is_exception(kind, entry)
}

/// The front of a text, by which it is looked for: what stands before its first `.` or `/`, or before its first byte stands again,
/// behind that byte. No two places at which it stands overlap.
fn front_of(text: &[u8]) -> &[u8] {
    let Some((first, rest)) = text.split_first() else {
        return text;
    };
    let end = rest
        .iter()
        .position(|byte| *byte == b'.' || *byte == b'/' || byte == first);
    match end {
        Some(end) => &text[..end + 1],
        None => text,
    }
}

/// Whether a path is that of a manifest of an archive.
fn is_manifest(path: &[u8]) -> bool {
    path == b"META-INF/MANIFEST.MF".as_slice() || path.ends_with(b"/META-INF/MANIFEST.MF")
}

/// A manifest with its continued lines joined; blank lines are left out. The only error is want of memory.
fn joined(alloc: Global, manifest: &[u8]) -> Result<Text, Memory> {
    let mut text = Text::empty(alloc);
    for line in manifest.split(|byte| *byte == b'\n' || *byte == b'\r') {
        match line {
            [] => {}
            [b' ', rest @ ..] => text.append(rest)?,
            _ => {
                text.push(b'\n')?;
                text.append(line)?;
            }
        }
    }
    Ok(text)
}

/// A rule that is looked for, by where it stands.
#[derive(Debug, Drop)]
pub struct SoughtRule {
    /// Its kind.
    pub kind: RuleKind,
    /// Its key.
    pub key: Text,
    /// The number of its line.
    pub line: u32,
}

/// Rules that are looked for in files whose parts are taken one after another.
#[derive(Debug, Drop)]
pub struct Sought {
    alloc: Global,
    rules: Vec<SoughtRule>,
    fronts: TextList,
    forms: Forms,
    is_manifest: bool,
    /// The end of what was taken of a file.
    end: Text,
}

impl Sought {
    /// Of no rules. It takes no memory.
    pub fn new(alloc: Global) -> Sought {
        Sought {
            alloc,
            rules: Vec::new(alloc),
            fronts: TextList::empty(alloc),
            forms: Forms::new(alloc),
            is_manifest: false,
            end: Text::empty(alloc),
        }
    }

    /// The place of a front, which is added where it isn't known; none where it is one more than 64.
    fn place_of(&mut self, front: &[u8]) -> Result<Option<usize>, Memory> {
        let known = self.fronts.as_slice();
        let place = known.iter().position(|text| text.as_bytes() == front);
        let count = known.len();
        if place.is_some() || count >= MOST_FRONTS {
            return Ok(place);
        }
        self.fronts.push(Text::from_bytes(self.alloc, front)?)?;
        self.forms.add_front()?;
        Ok(Some(count))
    }

    /// Adds the texts of a rule.
    fn add_texts(&mut self, kind: RuleKind, text: &[u8]) -> Result<(), Memory> {
        self.forms.add_text(Text::from_bytes(self.alloc, text)?)?;
        if matches!(kind, RuleKind::Rename | RuleKind::Version) {
            self.forms.add_text(slashed(self.alloc, text)?)?;
        }
        Ok(())
    }

    /// Adds a rule.
    fn add_rule(&mut self, kind: RuleKind, entry: &KeyLine<'_>) -> Result<(), Memory> {
        let key = entry.key.as_bytes();
        let text = text_of(kind, key);
        let Some(front) = self.place_of(front_of(text))? else {
            return Ok(());
        };
        self.forms.add_rule(front)?;
        self.add_texts(kind, text)?;
        self.rules.push(SoughtRule {
            kind,
            key: Text::from_bytes(self.alloc, key)?,
            line: entry.line,
        })?;
        Ok(())
    }

    /// Adds the rules of a rule file, but for exceptions and for those whose key stands in a later line again. Their texts begin with
    /// at most 64 fronts; those that begin with others aren't looked for. The only error is want of memory.
    pub fn add(&mut self, kind: RuleKind, entries: &[KeyLine<'_>]) -> Result<(), Memory> {
        for entry in entries.iter().filter(|entry| is_sought(kind, *entry)) {
            self.add_rule(kind, entry)?;
        }
        Ok(())
    }

    /// Ends the adding of rules, before the first file is begun. The only error is want of memory.
    pub fn settle(&mut self) -> Result<(), Memory> {
        self.forms.settle()
    }

    /// Whether no rule is left that isn't met.
    pub fn is_done(&self) -> bool {
        self.forms.are_met()
    }

    /// The rules that aren't met, in the order in which they were added.
    pub fn unmet(&self) -> Result<Vec<&SoughtRule>, Memory> {
        let mut unmet = Vec::new(self.alloc);
        for (place, rule) in self.rules.iter().enumerate() {
            if !self.forms.is_met(place) {
                unmet.push(rule)?;
            }
        }
        Ok(unmet)
    }

    /// How many bytes a text takes at most: behind each of its bytes a line of a manifest may end, by CR, LF and a space.
    fn reach(&self) -> usize {
        self.forms.longest().saturating_mul(4)
    }

    /// Looks for rules in a text.
    fn look_in(&mut self, text: &[u8]) {
        for (place, front) in self.fronts.as_slice().iter().enumerate() {
            if self.forms.is_wanted(place) {
                look_for(front.as_bytes(), text, &mut self.forms);
            }
        }
    }

    /// Looks for rules in a part of a file.
    fn look(&mut self, part: &[u8]) -> Result<(), Memory> {
        self.look_in(part);
        if self.is_manifest {
            let joined = joined(self.alloc, part)?;
            self.look_in(joined.as_bytes());
        }
        Ok(())
    }

    /// Begins a file, by its path, in which rules are looked for, too.
    pub fn begin(&mut self, path: &[u8]) {
        self.is_manifest = is_manifest(path);
        self.end = Text::empty(self.alloc);
        self.look_in(path);
    }

    /// What stands on both sides of the start of the next part, as far as one text may.
    fn seam(&self, part: &[u8]) -> Result<Text, Memory> {
        let mut seam = self.end.clone()?;
        seam.append(&part[..self.reach().min(part.len())])?;
        Ok(seam)
    }

    /// Keeps the end of what was taken.
    fn keep_end(&mut self, taken: &[u8]) -> Result<(), Memory> {
        let start = taken.len().saturating_sub(self.reach());
        self.end = Text::from_bytes(self.alloc, &taken[start..])?;
        Ok(())
    }

    /// Takes the next part of the file that was begun. The only error is want of memory.
    pub fn take(&mut self, part: &[u8]) -> Result<(), Memory> {
        self.look(part)?;
        let seam = self.seam(part)?;
        if !self.end.as_bytes().is_empty() {
            self.look(seam.as_bytes())?;
        }
        if part.len() < self.reach() {
            self.keep_end(seam.as_bytes())
        } else {
            self.keep_end(part)
        }
    }
}

/// Looks for the rules whose texts have this front in a text.
fn look_for(front: &[u8], text: &[u8], forms: &mut Forms) {
    for at in memmem::find_iter(text, front) {
        forms.find(text.get(at..).unwrap_or(b""));
    }
}

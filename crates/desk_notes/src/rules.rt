//! What is noted of rules.

use crate::keys::{MARK, Slip, slip_of};
use crate::patterns::PatternLine;
use desk_base::{Memory, Text, show_byte};
use desk_choices::Names;
use desk_unmet::{KeyLine, RuleKind, Sought, SoughtRule};
use itoa::Buffer;
use std::alloc::Global;

const MARKS: &[u8] =
    b"rule files have a byte order mark, which belongs to the key behind it; store them without one:";

const CAPITALS: &[u8] =
    b"keys of renames.properties end as the name of a class does; only packages are renamed, the first of them:";

const TWICE: &[u8] = b"keys stand in one rule file again, so that these lines have no effect:";

const UNNAMED: &[u8] =
    b"files of the rule folder that nothing reads; mend their names, or take them away:";

const UNMET: &[u8] =
    b"patterns that fit no file of the source, so that these lines have no effect:";

const UNMET_RENAMES: &[u8] =
    b"renames whose package stands in no file of the source, nor in the path of one, so that these lines have no effect:";

const UNMET_DIRECT: &[u8] =
    b"direct rules whose old text stands in no file of the source, so that these lines have no effect:";

const UNMET_VERSIONS: &[u8] =
    b"versions of packages that stand in no file of the target, so that these lines have no effect:";

const UNMET_BUNDLES: &[u8] =
    b"bundles whose old name stands in no file of the source, so that these lines have no effect:";

/// The file of the renames.
const RENAMES: &[u8] = b"renames.properties";

/// Adds a text as it is shown.
fn append_shown(line: &mut Text, text: &[u8]) -> Result<(), Memory> {
    for byte in text {
        line.append(show_byte(*byte).as_bytes())?;
    }
    Ok(())
}

/// A place in a rule file, as `renames.properties:3`, and the key that stands there.
pub fn place_text(alloc: Global, file: &[u8], line: u32, key: &[u8]) -> Result<Text, Memory> {
    let mut place = Text::empty(alloc);
    append_shown(&mut place, file)?;
    place.append(b":")?;
    place.append(Buffer::new().format(line).as_bytes())?;
    if !key.is_empty() {
        place.append(b" ")?;
        append_shown(&mut place, key)?;
    }
    Ok(place)
}

/// What is noted of the files of a rule folder: what looks like a slip in them, and what has no effect.
#[derive(Debug, Drop)]
pub struct RuleNotes {
    alloc: Global,
    marks: Names,
    capitals: Names,
    twice: Names,
    unnamed: Names,
    unmet: Names,
    renames: Names,
    direct: Names,
    versions: Names,
    bundles: Names,
}

impl RuleNotes {
    /// What is noted of a rule folder of which no file is looked at yet. It takes no memory.
    pub fn new(alloc: Global) -> RuleNotes {
        RuleNotes {
            alloc,
            marks: Names::new(alloc),
            capitals: Names::new(alloc),
            twice: Names::new(alloc),
            unnamed: Names::new(alloc),
            unmet: Names::new(alloc),
            renames: Names::new(alloc),
            direct: Names::new(alloc),
            versions: Names::new(alloc),
            bundles: Names::new(alloc),
        }
    }

    /// Notes a key of the renames that looks like a slip.
    fn take_rename(&mut self, entry: &KeyLine<'_>) -> Result<(), Memory> {
        let key = entry.key.as_bytes();
        match slip_of(key) {
            Some(Slip::Mark) => {
                let place = place_text(self.alloc, RENAMES, entry.line, key)?;
                self.marks.take(self.alloc, place.as_bytes())
            }
            Some(Slip::Capital) => {
                let place = place_text(self.alloc, RENAMES, entry.line, key)?;
                self.capitals.take(self.alloc, place.as_bytes())
            }
            None => Ok(()),
        }
    }

    /// Notes each key that stands in a later line again.
    fn take_twice(&mut self, name: &[u8], entries: &[KeyLine<'_>]) -> Result<(), Memory> {
        for entry in entries.iter().filter(|entry| entry.is_repeated) {
            let place = place_text(self.alloc, name, entry.line, entry.key.as_bytes())?;
            self.twice.take(self.alloc, place.as_bytes())?;
        }
        Ok(())
    }

    /// Notes a rule file: its name, its bytes, and its entries.
    pub fn take(
        &mut self,
        name: &[u8],
        file: &[u8],
        entries: &[KeyLine<'_>],
    ) -> Result<(), Memory> {
        self.take_twice(name, entries)?;
        if name == RENAMES {
            for entry in entries {
                self.take_rename(entry)?;
            }
        } else if file.starts_with(MARK) {
            let key = match entries.first() {
                Some(entry) => entry.key.as_bytes(),
                None => MARK,
            };
            let place = place_text(self.alloc, name, 1, key)?;
            self.marks.take(self.alloc, place.as_bytes())?;
        }
        Ok(())
    }

    /// Notes a file of the rule folder that nothing reads.
    pub fn take_unnamed(&mut self, name: &[u8]) -> Result<(), Memory> {
        let mut shown = Text::empty(self.alloc);
        append_shown(&mut shown, name)?;
        self.unnamed.take(self.alloc, shown.as_bytes())
    }

    /// Notes a pattern of a rule file that fits no file.
    pub fn take_unmet(&mut self, name: &[u8], unmet: &PatternLine) -> Result<(), Memory> {
        let place = place_text(self.alloc, name, unmet.line, unmet.pattern.as_bytes())?;
        self.unmet.take(self.alloc, place.as_bytes())
    }

    /// The names of the rules of a kind that nothing meets.
    fn unmet_of(&mut self, kind: RuleKind) -> &mut Names {
        match kind {
            RuleKind::Rename => &mut self.renames,
            RuleKind::Direct => &mut self.direct,
            RuleKind::Version => &mut self.versions,
            RuleKind::Bundle => &mut self.bundles,
        }
    }

    /// Notes a rule that nothing meets.
    fn take_rule(&mut self, rule: &SoughtRule) -> Result<(), Memory> {
        let alloc = self.alloc;
        let place = place_text(alloc, rule.kind.file(), rule.line, rule.key.as_bytes())?;
        self.unmet_of(rule.kind).take(alloc, place.as_bytes())
    }

    /// Notes the rules that were looked for and that nothing meets.
    pub fn take_sought(&mut self, sought: &Sought) -> Result<(), Memory> {
        for rule in &sought.unmet()? {
            self.take_rule(*rule)?;
        }
        Ok(())
    }

    /// Adds what was noted, in lines that begin with `migrate: `. The only error is want of memory.
    pub fn append_to(&self, text: &mut Text) -> Result<(), Memory> {
        self.marks.append_to(text, MARKS)?;
        self.capitals.append_to(text, CAPITALS)?;
        self.twice.append_to(text, TWICE)?;
        self.unnamed.append_to(text, UNNAMED)?;
        self.unmet.append_to(text, UNMET)?;
        self.renames.append_to(text, UNMET_RENAMES)?;
        self.direct.append_to(text, UNMET_DIRECT)?;
        self.versions.append_to(text, UNMET_VERSIONS)?;
        self.bundles.append_to(text, UNMET_BUNDLES)
    }
}

//! The first segments of renames and the first bytes of rules: a look at them tells of most texts that no rule is for them.

ghost use Rattle.std.specs.Prelude.{◌≡◌, ◌≢◌, ◌∷◌, [], map, IfOk};
ghost use Rattle.desk_base.specs.Names.{Package, segments};
ghost use Rattle.desk_packages.specs.Keys.{byte_of};
ghost use Rattle.desk_rules.specs.Firsts.{AreFirsts, AreFirstBytes, begins_in, may_begin};

use crate::reading::sorted;
use desk_base::{Memory, Text};
use desk_packages::{Keyed, PackageRename, Separator, place_of};
use indexmap::IndexMap;
use std::alloc::Global;
use std::marker::Model;

/// A segment of packages, which is its own key.
#[derive(Debug, Drop)]
struct Segment {
    text: Text,
}

impl Model for Segment {
    ghost use Rattle.desk_base.specs.Names.{Text as Bytes};
    ghost use Rattle.desk_rules.specs.Rules.{text_code};

    ghost Value = { Bytes };

    ghost coded = { text_code };

    ghost view = { λ s. s.text };
}

impl Keyed for Segment {
    ghost key_of = { λ segment. segment };

    fn key(&self) -> &[u8] {
        self.text.as_bytes()
    }
}

/// The first segments of the sources of renames, in byte order and each once. Contracts see them as a list.
#[derive(Debug, Drop)]
pub(crate) struct FirstSegments {
    segments: Vec<Segment>,
}

impl Model for FirstSegments {
    ghost use Rattle.std.specs.Prelude.{List};
    ghost use Rattle.std.specs.Coded.{coded_list};
    ghost use Rattle.desk_base.specs.Names.{Text as Bytes};
    ghost use Rattle.desk_packages.specs.Keys.{RiseBy};
    ghost use Rattle.desk_rules.specs.Rules.{text_code};

    ghost Value = { List Bytes };

    ghost coded = { coded_list text_code };

    ghost view = { λ f. f.segments.items };

    ghost invariant = { λ f. RiseBy (λ segment. segment) f.segments.items };
}

/// The first segments of the sources of renames, as the keys of a map. The only error is want of memory.
fn first_segments(alloc: Global, renames: &[PackageRename]) -> Result<IndexMap<Text, Text>, Memory>
    ensures { IfOk result (λ firsts. AreFirsts renames.now (map (λ e. e.0) firsts.entries)) }
{
    let mut firsts = IndexMap::new(alloc);
    for rename in renames {
        if let [first, ..] = rename.source() {
            let first = Text::from_bytes(alloc, first.as_bytes())?;
            firsts.insert(first, Text::empty(alloc))?;
        }
    }
    Ok(firsts)
}

/// The keys of a map, as segments. The only error is want of memory.
fn segments_from(alloc: Global, firsts: &IndexMap<Text, Text>) -> Result<Vec<Segment>, Memory>
    ensures { IfOk result (λ segments. segments.items ≡ map (λ e. e.0) firsts.now.entries) }
{
    let mut segments = Vec::with_capacity(alloc, firsts.len())?;
    for i in 0..firsts.len() {
        if let Some((first, _)) = firsts.get_index(i) {
            let text = Text::from_bytes(alloc, first.as_bytes())?;
            segments.push(Segment { text })?;
        }
    }
    Ok(segments)
}

/// The first segment of a path that isn't empty.
fn first_of(path: &[u8], separator: u8) -> &[u8]
    requires { path.now ≢ [] }
    ensures { (rest : Package) × (segments separator path.now ≡ result.now ∷ rest) }
{
    for (at, byte) in path.iter().enumerate() {
        if *byte == separator {
            return &path[..at];
        }
    }
    path
}

impl FirstSegments {
    /// The first segments of renames. The only error is want of memory.
    pub(crate) fn of(alloc: Global, renames: &[PackageRename]) -> Result<FirstSegments, Memory>
        ensures { IfOk result (AreFirsts renames.now) }
    {
        let firsts = sorted(first_segments(alloc, renames)?)?;
        let segments = segments_from(alloc, &firsts)?;
        Ok(FirstSegments { segments })
    }

    /// Whether the first segment of a package that is written with a separator is one of them. It takes no memory.
    pub(crate) fn begins(&self, path: &[u8], separator: Separator) -> bool
        ensures { result ≡ begins_in self.now (segments (byte_of separator) path.now) }
    {
        if path.is_empty() {
            return false;
        }
        let first = first_of(path, separator.byte());
        place_of(&self.segments, first).is_some()
    }
}

/// Which bytes the keys of rules begin with. Contracts see an answer for each byte.
#[derive(Debug, Drop)]
pub(crate) struct FirstBytes {
    begun: [bool; 256],
}

impl Model for FirstBytes {
    ghost use Rattle.std.specs.Prelude.{Bool, List};
    ghost use Rattle.std.specs.Coded.{coded_list, coded_bool};

    ghost Value = { List Bool };

    ghost coded = { coded_list coded_bool };

    ghost view = { λ f. f.begun };
}

impl FirstBytes {
    /// The first bytes of the keys of rules.
    pub(crate) fn of<R: Keyed>(rules: &[R]) -> FirstBytes
        ensures { AreFirstBytes R.key_of rules.now result }
    {
        let mut begun = [false; 256];
        for rule in rules {
            if let [first, ..] = rule.key() {
                begun[*first as usize] = true;
            }
        }
        FirstBytes { begun }
    }

    /// Whether a key may be a text: it is empty, or a key begins with its first byte.
    pub(crate) fn may_begin(&self, text: &[u8]) -> bool
        ensures { result ≡ may_begin self.now text.now }
    {
        match text {
            [] => true,
            [first, ..] => self.begun[*first as usize],
        }
    }
}

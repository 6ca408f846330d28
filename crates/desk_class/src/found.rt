//! Class names that were found, each once.

ghost use Rattle.std.specs.Prelude.{◌≡◌, ◌<◌, ◌↔◌, [], ◌∷◌, length, slice_index_or, true, OnOk, OnErr, IfOk};
ghost use Rattle.desk_class.specs.Held.{found_all};
ghost use Rattle.desk_class.specs.Found.{is_told, texts};

use crate::held::HeldNames;
use crate::marks::Marked;
use desk_base::Memory;
use std::alloc::Global;
use std::collections::BTreeSet;
use std::marker::Model;

/// How many names are looked through, since most classes hold no more; those behind them are looked up in a set.
const FEW: usize = 32;

/// How many hints there are where a name stands.
const HINTS: usize = 256;

/// Class names, each once, in the order in which they were found; contracts see them so. They stand in the texts where they
/// were found, so that none is copied before it is known to be new. A name that is here already is found fast: most often
/// at the place that a hint names, and otherwise by the marks, which tell names apart.
#[derive(Drop)]
pub struct FoundNames<'a> {
    names: Vec<&'a [u8]>,
    marks: Vec<u64>,
    behind: BTreeSet<Marked<'a>>,
    hints: [u8; HINTS],
}

impl<'a> Model for FoundNames<'a> {
    ghost use Rattle.std.specs.Prelude.{ℕ, List};
    ghost use Rattle.desk_class.specs.Found.{AreTold, texts};

    ghost Value = { List (List ℕ) };

    ghost view = { λ f. texts f.names.items };

    ghost invariant = { λ f. AreTold 32 (texts f.names.items) f.marks.items f.behind };
}

/// Which hint says where a name stands. Other names may share it.
fn hint_of(name: &[u8]) -> usize
    ensures { result < 256 }
{
    match name {
        [] => 0,
        [.., last] => {
            let middle = name[name.len() / 2];
            (name.len() % HINTS + 31 * *last as usize + 7 * middle as usize) % HINTS
        }
    }
}

/// Whether a name stands at a place among these.
fn stands_at(names: &[&[u8]], place: usize, name: &[u8]) -> bool
    ensures { (result ≡ true) ↔ (place < length names.now) × (slice_index_or (texts names.now) place [] ≡ name.now) }
{
    place < names.len() && names[place] == name
}

/// Whether a name stands among these with a mark.
fn is_told(marks: &[u64], names: &[&[u8]], mark: u64, name: &[u8]) -> bool
    ensures { result ≡ is_told marks.now (texts names.now) mark name.now }
{
    for (place, known) in marks.iter().enumerate() {
        if *known == mark && place < names.len() && names[place] == name {
            return true;
        }
    }
    false
}

impl<'a> FoundNames<'a> {
    /// A collection to begin with, of no name. The only error is want of memory.
    pub fn new(alloc: Global) -> Result<FoundNames<'a>, Memory>
        ensures { IfOk result (λ names. names ≡ []) }
    {
        Ok(FoundNames {
            names: Vec::with_capacity(alloc, FEW)?,
            marks: Vec::with_capacity(alloc, FEW)?,
            behind: BTreeSet::new(alloc),
            hints: [0; HINTS],
        })
    }

    /// Adds a name, which is looked for by its mark. The only error is want of memory; the names are those of before then.
    fn add_by_mark(&mut self, name: &'a [u8]) -> Result<(), Memory>
        ensures ok { OnOk result (self.new ≡ found_all self.old (name.now ∷ [])) }
        ensures err { OnErr result (self.new ≡ self.old) }
    {
        let marked = Marked::new(name);
        let mark = marked.mark();
        if is_told(self.marks.as_slice(), self.names.as_slice(), mark, name) {
            return Ok(());
        }
        self.names.reserve(1)?;
        if self.marks.len() < FEW {
            self.marks.push(mark)?;
            self.names.push(name)?;
        } else if self.behind.insert(marked)? {
            self.names.push(name)?;
        }
        Ok(())
    }

    /// Adds a name. The only error is want of memory; the names are those of before then.
    pub fn add(&mut self, name: &'a [u8]) -> Result<(), Memory>
        ensures ok { OnOk result (self.new ≡ found_all self.old (name.now ∷ [])) }
        ensures err { OnErr result (self.new ≡ self.old) }
    {
        let hint = hint_of(name);
        if stands_at(self.names.as_slice(), self.hints[hint] as usize, name) {
            return Ok(());
        }
        let place = self.names.len();
        self.add_by_mark(name)?;
        if place < HINTS && place < self.names.len() {
            self.hints[hint] = place as u8;
        }
        Ok(())
    }

    /// The names, packed. The only error is want of memory, as which 4 GiB of names count.
    pub fn pack(&self, alloc: Global) -> Result<HeldNames, Memory>
        ensures { IfOk result (λ held. held ≡ self.now) }
    {
        HeldNames::of(alloc, self.names.as_slice())
    }
}

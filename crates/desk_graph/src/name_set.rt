//! Names of an application, each once. They stand in the classes and are copied nowhere here.

ghost use Rattle.std.specs.Prelude.{◌≡◌, true, ◌∷◌, [], OnOk, OnErr, IfOk, Contains};
ghost use Rattle.desk_class.specs.Held.{put_all};
ghost use Rattle.desk_graph.specs.Application.{names_in};
ghost use Rattle.desk_graph.specs.Tables.{texts};

use crate::name::Name;
use crate::scanned::Scanned;
use desk_base::Memory;
use desk_class::{HeldNames, Marked};
use std::alloc::Global;
use std::collections::BTreeSet;
use std::marker::Model;

/// How many places there are for names by their marks.
pub const PLACES: usize = 4096;

/// Names, each once; contracts see them in byte order. Most names that are put were put before, many of them lately: such a
/// one is kept at the place of its mark, where it is known by one comparison. The set decides all others, so that no choice
/// of names makes it slow.
#[derive(Drop)]
pub struct NameSet<'a> {
    set: BTreeSet<Marked<'a>>,
    recent: Vec<Option<&'a [u8]>>,
}

impl<'a> Model for NameSet<'a> {
    ghost use Rattle.std.specs.Prelude.{ℕ, List};
    ghost use Rattle.desk_graph.specs.Recent.{AreRecent};
    ghost use Rattle.desk_graph.specs.Tables.{texts, holds};

    ghost Value = { List (List ℕ) };

    ghost view = { λ n. texts n.set };

    ghost invariant = { λ n. AreRecent n.recent.items (holds n.set) };
}

/// The names of a set in byte order.
fn list_of<'a>(alloc: Global, set: BTreeSet<Marked<'a>>) -> Result<Vec<Name<'a>>, Memory>
    ensures { IfOk result (λ list. list.items ≡ texts set.entry) }
{
    let mut list = Vec::with_capacity(alloc, set.len())?;
    for name in set {
        list.push(Name::new(name.as_bytes()))?;
    }
    list.sort_unstable();
    Ok(list)
}

impl<'a> NameSet<'a> {
    /// No name. Names that are put are kept at so many places, of at most [`PLACES`]. The only error is want of memory.
    pub fn new(alloc: Global, places: usize) -> Result<NameSet<'a>, Memory>
        ensures { IfOk result (λ names. names ≡ []) }
    {
        let recent = vec![in alloc; None; places]?;
        Ok(NameSet {
            set: BTreeSet::new(alloc),
            recent,
        })
    }

    /// Whether a name is kept at a place.
    fn is_recent(&self, place: usize, name: &[u8]) -> bool
        ensures { result ≡ true → Contains self.now name.now }
    {
        if let Some(Some(recent)) = self.recent.get(place) {
            return *recent == name;
        }
        false
    }

    /// Puts a name. The only error is want of memory; the names are those of before then.
    pub fn put(&mut self, name: &'a [u8]) -> Result<(), Memory>
        ensures ok { OnOk result (self.new ≡ put_all self.old (name.now ∷ [])) }
        ensures err { OnErr result (self.new ≡ self.old) }
    {
        let marked = Marked::new(name);
        let place = marked.mark() as usize % PLACES;
        if self.is_recent(place, name) {
            return Ok(());
        }
        self.set.insert(marked)?;
        if place < self.recent.len() {
            self.recent[place] = Some(name);
        }
        Ok(())
    }

    /// Puts the names that a class holds. The only error is want of memory.
    pub fn put_held(&mut self, held: &'a HeldNames) -> Result<(), Memory>
        ensures { OnOk result (self.new ≡ put_all self.old held.now) }
    {
        for place in 0..held.len() {
            self.put(held.get(place))?;
        }
        Ok(())
    }

    /// Puts the name of a class, and those that it holds where it is selected. The only error is want of memory.
    pub fn put_class(&mut self, class: &'a Scanned) -> Result<(), Memory>
        ensures { OnOk result (self.new ≡ put_all self.old (names_in class.now)) }
    {
        self.put(class.name.as_bytes())?;
        if class.selected {
            self.put_held(&class.held)?;
        }
        Ok(())
    }

    /// The names in byte order. The only error is want of memory.
    pub fn in_order(self, alloc: Global) -> Result<Vec<Name<'a>>, Memory>
        ensures { IfOk result (λ list. list.items ≡ self.entry) }
    {
        let NameSet { set, .. } = self;
        list_of(alloc, set)
    }
}

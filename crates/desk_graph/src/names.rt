//! The names of an application. They stand in the classes and are copied nowhere here.

ghost use Rattle.std.specs.Prelude.{◌≡◌, ◌∷◌, ◌||◌, [], ℕ, List, OnOk, IfOk};
ghost use Rattle.std.specs.Str.{bytes_eq};
ghost use Rattle.desk_class.specs.Held.{put_all, ascending};
ghost use Rattle.desk_graph.specs.Application.{defined_names, names};
ghost use Rattle.desk_graph.specs.Tables.{texts, holds};

use crate::name::Name;
use crate::name_set::{NameSet, PLACES};
use crate::scanned::Scanned;
use desk_base::Memory;
use desk_class::{HeldNames, Marked};
use std::alloc::Global;
use std::collections::BTreeSet;

/// Whether a set holds a text.
pub fn holds<'a>(set: &BTreeSet<Marked<'a>>, text: &'a [u8]) -> bool
    ensures { result ≡ holds set.now text.now }
{
    set.contains(&Marked::new(text))
}

/// Puts a text into a set.
pub fn put<'a>(set: &mut BTreeSet<Marked<'a>>, text: &'a [u8]) -> Result<(), Memory>
    ensures holds { OnOk result ((q : List ℕ) → holds set.new q ≡ (bytes_eq q text.now || holds set.old q)) }
    ensures texts { OnOk result (texts set.new ≡ put_all (texts set.old) (text.now ∷ [])) }
{
    set.insert(Marked::new(text))?;
    Ok(())
}

/// The names that classes define, each once.
pub fn defined_in<'a>(alloc: Global, classes: &'a [Scanned]) -> Result<BTreeSet<Marked<'a>>, Memory>
    ensures { IfOk result (λ set. texts set ≡ ascending (defined_names classes.now)) }
{
    let mut set = BTreeSet::new(alloc);
    for class in classes {
        put(&mut set, class.name.as_bytes())?;
    }
    Ok(set)
}

/// The names of an application in byte order, each once.
pub fn all_names<'a>(alloc: Global, classes: &'a [Scanned]) -> Result<Vec<Name<'a>>, Memory>
    ensures { IfOk result (λ list. list.items ≡ ascending (names classes.now)) }
{
    let mut all = NameSet::new(alloc, PLACES)?;
    for class in classes {
        all.put_class(class)?;
    }
    all.in_order(alloc)
}

/// The names that a class holds, in byte order, each once.
pub fn held_in_order<'a>(alloc: Global, held: &'a HeldNames) -> Result<Vec<Name<'a>>, Memory>
    ensures { IfOk result (λ list. list.items ≡ ascending held.now) }
{
    let mut names = NameSet::new(alloc, 0)?;
    names.put_held(held)?;
    names.in_order(alloc)
}

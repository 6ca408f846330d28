//! The targets that were seen, and their folders.

ghost use Rattle.std.specs.Prelude.{◌≡◌, ◌||◌, ◌∷◌, [], ℕ, List, not, OnOk, IfOk};
ghost use Rattle.std.specs.List.{list_any};
ghost use Rattle.std.specs.Str.{bytes_eq};
ghost use Rattle.desk_clashes.specs.Clashes.{clashes, is_folder};
ghost use Rattle.desk_clashes.specs.Known.{holds, folders_of, HoldsFolders, Knows};

use desk_base::Memory;
use desk_class::Marked;
use std::alloc::Global;
use std::collections::BTreeSet;

/// Whether a set holds a text.
fn holds<'a>(set: &BTreeSet<Marked<'a>>, text: &'a [u8]) -> bool
    ensures { result ≡ holds set.now text.now }
{
    set.contains(&Marked::new(text))
}

/// Puts a text into a set, and answers whether it is new there.
fn put<'a>(set: &mut BTreeSet<Marked<'a>>, text: &'a [u8]) -> Result<bool, Memory>
    ensures is_new { IfOk result (λ is_new. is_new ≡ not (holds set.old text.now)) }
    ensures added { OnOk result ((q : List ℕ) → holds set.new q ≡ (bytes_eq q text.now || holds set.old q)) }
{
    let is_new = set.insert(Marked::new(text))?;
    Ok(is_new)
}

/// Puts the folders of a text into a set that holds the folders of each of its texts. The longest comes first, and the first
/// that the set holds ends the walk, since the set holds the folders of that one, too.
fn put_folders<'a>(set: &mut BTreeSet<Marked<'a>>, text: &'a [u8]) -> Result<(), Memory>
    ensures { OnOk result (HoldsFolders set.old → (q : List ℕ) → holds set.new q ≡ (is_folder q text.now || holds set.old q)) }
{
    for place in (0..text.len()).rev() {
        if text[place] == b'/' {
            let is_new = put(set, &text[..place])?;
            if !is_new {
                return Ok(());
            }
        }
    }
    Ok(())
}

/// Targets that were seen, and the folders of each. They are told apart by their marks, since targets of one folder begin alike.
#[derive(Drop)]
pub(crate) struct SeenTargets<'a> {
    names: BTreeSet<Marked<'a>>,
    folders: BTreeSet<Marked<'a>>,
    /// No two of the targets clash.
    apart: bool,
}

impl<'a> SeenTargets<'a> {
    /// A set to begin with: no target was seen, so that none clashes.
    pub(crate) fn new(alloc: Global) -> SeenTargets<'a>
        ensures { Knows result.names result.folders result.apart [] }
    {
        SeenTargets {
            names: BTreeSet::new(alloc),
            folders: BTreeSet::new(alloc),
            apart: true,
        }
    }

    /// Whether a target that was seen is a folder of this one. The longest folder comes first. As long as no two of the targets
    /// clash, the first that is a folder of one of them, too, ends the walk: neither it nor a folder of it is a target.
    fn has_folder_of(&self, target: &'a [u8]) -> bool
        ensures { (seen : List (List ℕ)) → Knows self.now.names self.now.folders self.now.apart seen → result ≡ list_any (holds self.now.names) (folders_of target.now) }
    {
        for place in (0..target.len()).rev() {
            if target[place] == b'/' {
                let folder = &target[..place];
                if self.apart && holds(&self.folders, folder) {
                    return false;
                }
                if holds(&self.names, folder) {
                    return true;
                }
            }
        }
        false
    }

    /// Whether a target clashes with one of those that were seen.
    fn meets(&self, target: &'a [u8]) -> bool
        ensures { (seen : List (List ℕ)) → Knows self.now.names self.now.folders self.now.apart seen → result ≡ list_any (clashes target.now) seen }
    {
        if holds(&self.names, target) {
            return true;
        }
        if holds(&self.folders, target) {
            return true;
        }
        self.has_folder_of(target)
    }

    /// Adds a target, and answers whether it clashes with one of those that were seen before.
    pub(crate) fn add(&mut self, target: &'a [u8]) -> Result<bool, Memory>
        ensures answer { IfOk result (λ meets. (seen : List (List ℕ)) → Knows self.old.names self.old.folders self.old.apart seen → meets ≡ list_any (clashes target.now) seen) }
        ensures seen { OnOk result ((seen : List (List ℕ)) → Knows self.old.names self.old.folders self.old.apart seen → Knows self.new.names self.new.folders self.new.apart (target.now ∷ seen)) }
    {
        let meets = self.meets(target);
        self.apart = self.apart && !meets;
        put(&mut self.names, target)?;
        put_folders(&mut self.folders, target)?;
        Ok(meets)
    }
}

//! Targets of files, and the first two that clash.

ghost use Rattle.std.specs.Prelude.{◌≡◌, ◌+◌, ◌<◌, ◌++◌, ◌∷◌, [], List, IfOk, OnOk, OnErr, IfSome, length, drop, map};
ghost use Rattle.std.specs.List.{position_from};
ghost use Rattle.desk_clashes.specs.Clashes.{clashes, first_clash};
ghost use Rattle.desk_clashes.specs.Known.{names_of, name_at, first_place};

use crate::Clash;
use crate::known::SeenTargets;
use crate::pairs::clashes;
use desk_base::Memory;
use std::alloc::Global;
use std::marker::Model;

/// The targets of files, in the files' order. Contracts see the list of the targets' bytes.
#[derive(Drop)]
pub struct Targets<'a> {
    texts: Vec<&'a [u8]>,
}

impl<'a> Model for Targets<'a> {
    ghost use Rattle.std.specs.Prelude.{ℕ, List};
    ghost use Rattle.desk_clashes.specs.Known.{names_of};

    ghost Value = { List (List ℕ) };

    ghost view = { λ t. names_of t.texts.items };
}

/// The first place whose target clashes with a later one.
fn first_place(alloc: Global, targets: &[&[u8]]) -> Result<Option<usize>, Memory>
    ensures { IfOk result (λ place. place ≡ first_place 0 (names_of targets.now)) }
{
    let mut known = SeenTargets::new(alloc);
    let mut first = None;
    for place in (0..targets.len()).rev() {
        let meets_a_later_one = known.add(targets[place])?;
        if meets_a_later_one {
            first = Some(place);
        }
    }
    Ok(first)
}

/// The first place behind another whose target clashes with the one there.
fn second_place(targets: &[&[u8]], first: usize) -> Option<usize>
    requires { first < length targets.now }
    ensures { result ≡ position_from (clashes (name_at targets.now first)) (first + 1) (names_of (drop (first + 1) targets.now)) }
{
    let target = targets[first];
    for place in first + 1..targets.len() {
        if clashes(target, targets[place]) {
            return Some(place);
        }
    }
    None
}

impl<'a> Targets<'a> {
    /// A list to begin with, of no targets. It takes no memory.
    pub fn new(alloc: Global) -> Targets<'a>
        ensures { result ≡ [] }
    {
        Targets {
            texts: Vec::new(alloc),
        }
    }

    /// Adds the target of the next file, of which it keeps a reference. After want of memory, the only error, the targets
    /// are as they were.
    pub fn push(&mut self, target: &'a [u8]) -> Result<(), Memory>
        ensures ok { OnOk result (self.new ≡ self.old ++ target.now ∷ []) }
        ensures err { OnErr result (self.new ≡ self.old) }
    {
        self.texts.push(target)?;
        Ok(())
    }

    /// The two places whose targets clash, with the least first and then the least second; none exactly where no two clash.
    /// Two targets clash where they are equal, or where one with `/` behind it is a front of the other. The only error is
    /// want of memory. Takes the time of a few look-ups for each target and each different folder, as long as no two clash, and
    /// from then on of one for each folder of each target.
    pub fn first_clash(&self, alloc: Global) -> Result<Option<Clash>, Memory>
        ensures exact { IfOk result (λ clash. clash ≡ first_clash self.now) }
        ensures within { IfOk result (λ clash. IfSome clash (λ c. (c.first < c.second) × (c.second < length self.now))) }
    {
        let targets = self.texts.as_slice();
        let Some(first) = first_place(alloc, targets)? else {
            return Ok(None);
        };
        match second_place(targets, first) {
            Some(second) => Ok(Some(Clash { first, second })),
            None => Ok(None),
        }
    }
}

//! What is found of the files at the next places of two lists, ahead of the walk along both: the workers compare them.

ghost use Rattle.std.specs.Prelude.{All, ◌≡◌, ◌≤◌, ◌<◌, [], ◌∷◌, drop, IfOk, OnOk, length, map};
ghost use Rattle.desk_compare.specs.Ahead.{AreFound, difference_in};
ghost use Rattle.desk_compare.specs.Verdicts.{IsShort};

use crate::files::{What, compare_contents};
use crate::pairs::FilePair;
use desk_base::Memory;
use desk_folders::GenFile;
use desk_workers::{Gate, Job, Workers, map_batch};
use std::alloc::Global;
use std::collections::VecDeque;
use std::marker::PhantomData;
use std::thread::Threads;

/// How many files of each list the workers are handed at once, at most.
const BATCH: usize = 1_024;

/// Compares the contents of two files.
#[derive(Drop)]
struct Comparing<'f> {
    alloc: Global,
    files: PhantomData<&'f GenFile>,
}

/// How the contents of two files differ, as those of files at the left one's path.
#[tactic(auto, using(crate::proofs::Found::finds))]
fn difference_in(alloc: Global, pair: &FilePair<'_>) -> Result<Option<What>, Memory>
    ensures { IfOk result (λ found. found ≡ difference_in pair.now) }
{
    let FilePair { left, right } = *pair;
    compare_contents(
        alloc,
        left.path.as_bytes(),
        left.content.as_bytes(),
        right.content.as_bytes(),
    )
}

impl<'f> Job for Comparing<'f> {
    ghost use Rattle.std.specs.Prelude.{length};
    ghost use Rattle.desk_compare.specs.Ahead.{difference_in};

    type Item = FilePair<'f>;

    type Out = Option<What>;

    ghost value = { λ _ pair. difference_in pair };

    ghost weighs = { λ _ pair. length pair.left.now.content };

    fn weight(&self, pair: &FilePair<'f>) -> u64 {
        pair.left.content.as_bytes().len() as u64
    }

    fn run(&self, pair: &FilePair<'f>) -> Result<Option<What>, Memory> {
        difference_in(self.alloc, pair)
    }
}

/// The files at the next places of both lists, as many as the workers are handed at once.
#[tactic(auto, using(crate::proofs::Found::found_next))]
fn pair_files<'f>(
    alloc: Global,
    left: &'f [GenFile],
    right: &'f [GenFile],
) -> Result<Vec<FilePair<'f>>, Memory>
    requires left { All IsShort left.now }
    requires right { All IsShort right.now }
    ensures found { IfOk result (λ pairs. AreFound left.now right.now (map difference_in pairs.items)) }
    ensures some { IfOk result (λ pairs. 0 < length left.now → 0 < length right.now → 0 < length pairs.items) }
    ensures few { IfOk result (λ pairs. length pairs.items ≤ 1024) }
{
    let mut pairs = Vec::new(alloc);
    for i in 0..left.len().min(right.len()).min(BATCH) {
        pairs.push(FilePair {
            left: &left[i],
            right: &right[i],
        })?;
    }
    Ok(pairs)
}

/// What was found of the files at the next places of two lists.
#[derive(Drop)]
pub(crate) struct Ahead {
    found: VecDeque<Option<What>>,
}

impl Ahead {
    ghost use Rattle.desk_compare.specs.Ahead.{AreFound};

    /// Nothing was found yet. It takes no memory.
    pub(crate) fn new(alloc: Global) -> Ahead
        ensures { result.found.items ≡ [] }
    {
        Ahead {
            found: VecDeque::new(alloc),
        }
    }

    /// Has the workers compare the files at the next places of both lists.
    fn look<R: Threads + Sync, G: Gate + Sync>(
        &mut self,
        workers: &Workers<'_, R, G>,
        alloc: Global,
        left: &[GenFile],
        right: &[GenFile],
    ) -> Result<(), Memory>
        requires left { All IsShort left.now }
        requires right { All IsShort right.now }
        ensures found { OnOk result (AreFound left.now right.now self.new.found.items) }
        ensures some { OnOk result (0 < length left.now → 0 < length right.now → 0 < length self.new.found.items) }
    {
        let pairs = pair_files(alloc, left, right)?;
        let job = Comparing {
            alloc,
            files: PhantomData,
        };
        let found = map_batch(workers, alloc, &pairs, &job)?;
        self.found = VecDeque::from_vec(found);
        Ok(())
    }

    /// How the files at the head of both lists differ. The workers compare those at the next places where nothing was found ahead.
    pub(crate) fn next<R: Threads + Sync, G: Gate + Sync>(
        &mut self,
        workers: &Workers<'_, R, G>,
        alloc: Global,
        left: &[GenFile],
        right: &[GenFile],
    ) -> Result<Option<What>, Memory>
        requires left { All IsShort left.now }
        requires right { All IsShort right.now }
        requires some { (0 < length left.now) × (0 < length right.now) }
        requires found { AreFound left.now right.now self.old.found.items }
        ensures head { IfOk result (λ found. AreFound left.now right.now (found ∷ [])) }
        ensures rest { OnOk result (AreFound (drop 1 left.now) (drop 1 right.now) self.new.found.items) }
    {
        if self.found.is_empty() {
            self.look(workers, alloc, left, right)?;
        }
        let found = self.found.pop_front().unwrap();
        Ok(found)
    }
}

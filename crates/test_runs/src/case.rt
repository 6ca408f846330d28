//! The state of a case: what its folders and its ledger begin with, and what its runs left.

use crate::beginning::Beginning;
use crate::kept::Kept;
use crate::looks::Look;
use crate::scene::Scene;
use crate::words::text_of;
use crate::written::{say, write_ended};
use desk_base::{Memory, Text};
use std::alloc::Global;
use std::fs;
use std::thread::Threads;
use test_cases::words_of;

/// The words that a run has where a case says no others.
const USUAL: &[u8] = b"run --rules r --from in --to out --ledger l";

/// The usual words, and these behind them.
pub fn usual_words(alloc: Global, more: &[Text]) -> Result<Vec<Text>, Memory> {
    let mut words = words_of(alloc, USUAL)?;
    for word in more {
        words.push(word.clone()?)?;
    }
    Ok(words)
}

/// What the folders and the ledger of a case begin with, what its runs go over, and what was kept to be compared.
#[derive(Drop)]
pub struct Case<'r, R> {
    /// What gives the disk and the streams.
    pub rt: &'r HostRuntime,
    /// What makes the threads of the workers.
    pub threads: &'r R,
    /// What allocates all that the case holds.
    pub alloc: Global,
    /// What the next run begins with.
    pub beginning: Beginning,
    /// What the runs went over; none before the first.
    pub now: Option<Box<Scene<'r>>>,
    /// What a run left, as it was kept to be compared; none before that.
    pub kept: Option<Box<Kept>>,
}

impl<'r, R: Threads + Sync> Case<'r, R> {
    /// A case that begins.
    pub fn new(rt: &'r HostRuntime, threads: &'r R) -> Case<'r, R> {
        Case {
            rt,
            threads,
            alloc: rt.alloc(),
            beginning: Beginning::new(rt.alloc()),
            now: None,
            kept: None,
        }
    }

    /// Begins a case: nothing of the one before it stays.
    pub fn begin(&mut self) -> Result<(), Memory> {
        self.beginning = Beginning::new(self.alloc);
        self.now = None;
        self.kept = None;
        Ok(())
    }

    /// What runs go over, which is made where it isn't there; none where a path is no full path.
    fn scene(&mut self) -> Result<Option<&mut Box<Scene<'r>>>, Memory> {
        if self.now.is_none() {
            self.now = self.beginning.scene(self.rt)?;
        }
        Ok(self.now.as_mut())
    }

    /// Runs the desk by these words.
    pub fn run(&mut self, words: &[Text], out: &mut String) -> Result<(), Memory> {
        let threads = self.threads;
        let (room, pairs) = (self.beginning.room, self.beginning.pairs);
        match self.scene()? {
            Some(scene) => {
                scene.run(threads, words, room, pairs)?;
                write_ended(scene, out)
            }
            None => say(out, "not a full path"),
        }
    }

    /// Runs the desk by the usual words and these.
    pub fn run_usual(&mut self, more: &[Text], out: &mut String) -> Result<(), Memory> {
        let words = usual_words(self.alloc, more)?;
        self.run(&words, out)
    }

    /// Begins the folders anew; the ledger stays.
    pub fn renew_folders(&mut self) -> Result<(), Memory> {
        if let Some(scene) = &mut self.now {
            if let Some(folders) = self.beginning.folders(self.rt)? {
                scene.folders = folders;
            }
        }
        Ok(())
    }

    /// Begins the ledger anew; the folders stay.
    pub fn renew_ledger(&mut self) -> Result<(), Memory> {
        if let Some(scene) = &mut self.now {
            scene.ledger = self.beginning.ledger()?;
        }
        Ok(())
    }

    /// Looks at what runs left.
    pub fn look(&mut self, look: Look, words: &[Text], out: &mut String) -> Result<(), Memory> {
        match self.scene()? {
            Some(scene) => scene.look(look, words, out),
            None => say(out, "not a full path"),
        }
    }

    /// Keeps what the last run left, to be compared with what others leave. The next run begins anew.
    pub fn keep(&mut self) -> Result<(), Memory> {
        if let Some(mut scene) = self.now.take() {
            self.kept = Some(Kept::of(&mut scene)?);
        }
        Ok(())
    }

    /// Answers whether the last run left what was kept.
    pub fn compare(&mut self, out: &mut String) -> Result<(), Memory> {
        match (&mut self.now, &self.kept) {
            (Some(scene), Some(kept)) => kept.compare(scene, out),
            _ => say(out, "nothing to compare"),
        }
    }

    /// Answers whether two files of the disk hold the same.
    pub fn compare_files(&self, words: &[Text], out: &mut String) -> Result<(), Memory> {
        let [one, other] = words else {
            return say(out, "two paths are compared");
        };
        let one = fs::read(self.rt, text_of(one));
        let other = fs::read(self.rt, text_of(other));
        match (&one, &other) {
            (Ok(one), Ok(other)) if one.as_slice() == other.as_slice() => say(out, "alike"),
            (Ok(_), Ok(_)) => say(out, "other bytes"),
            _ => say(out, "no file"),
        }
    }
}

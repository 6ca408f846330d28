//! Runs in which one call after another fails, each with a second run behind it.

use crate::beginning::ROOM;
use crate::case::{Case, usual_words};
use crate::kept::Kept;
use crate::scene::Scene;
use crate::written::{say, write_ended};
use desk_base::{Memory, Text};
use std::thread::Threads;

/// How many calls, or bytes of an output, are tried at most.
const MOST: u32 = 10_000;

/// What fails from the call of a number on.
#[derive(Clone, Copy)]
pub enum Failure {
    /// One call of the folders.
    OneOfFolders,
    /// A call of the folders and all behind it.
    AllOfFolders,
    /// One call of the ledger.
    OneOfLedger,
    /// A call of the ledger and all behind it.
    AllOfLedger,
    /// The output, which has room for so many bytes.
    Output,
}

/// The names of what fails.
const NAMES: &[(&[u8], Failure)] = &[
    (b"one-of-folders", Failure::OneOfFolders),
    (b"all-of-folders", Failure::AllOfFolders),
    (b"one-of-ledger", Failure::OneOfLedger),
    (b"all-of-ledger", Failure::AllOfLedger),
    (b"output", Failure::Output),
];

impl Failure {
    /// The failure of a name.
    fn read(name: &Text) -> Option<Failure> {
        for (known, failure) in NAMES {
            if name.as_bytes() == *known {
                return Some(*failure);
            }
        }
        None
    }
}

/// What fails in a run, and where.
#[derive(Clone, Copy)]
struct Interrupt {
    /// What fails.
    failure: Failure,
    /// The call that fails, counted from 0; of the output, how many bytes it has room for.
    call: u32,
}

impl Interrupt {
    /// How many bytes the output has room for.
    fn room(self) -> u32 {
        match self.failure {
            Failure::Output => self.call,
            _ => ROOM,
        }
    }

    /// Lets all calls fail from this one on, where they are to.
    fn stop(self, scene: &mut Scene) {
        let call = u64::from(self.call);
        match self.failure {
            Failure::AllOfFolders => scene.folders.stop_at(call),
            Failure::AllOfLedger => scene.ledger.stop_at(call),
            _ => {}
        }
    }
}

/// Answers how a run ended in which something may have failed. Of one whose output had too little room the output is told where
/// it isn't what the kept report begins with.
fn write_first(
    scene: &Scene,
    kept: &Kept,
    interrupt: Interrupt,
    out: &mut String,
) -> Result<(), Memory> {
    let room = interrupt.room() as usize;
    let text = scene.text();
    if scene.code == 0 {
        write_ended(scene, out)?;
        Ok(writeln!(out, "  room {room}")?)
    } else if text.len() == room && kept.report.as_str().starts_with(text) {
        Ok(writeln!(out, "  status {}\n  all that had room", scene.code)?)
    } else {
        write_ended(scene, out)
    }
}

impl<'r, R: Threads + Sync> Case<'r, R> {
    /// What a run goes over that is interrupted.
    fn failing(&mut self, interrupt: Interrupt) -> Result<Option<Box<Scene<'r>>>, Memory> {
        let calls = vec![in self.alloc; u64::from(interrupt.call)]?;
        match interrupt.failure {
            Failure::OneOfFolders => self.beginning.folders_fail = calls,
            Failure::OneOfLedger => self.beginning.ledger_fails = calls,
            _ => {}
        }
        let mut scene = self.beginning.scene(self.rt)?;
        if let Some(scene) = &mut scene {
            interrupt.stop(scene);
        }
        Ok(scene)
    }

    /// Answers how a run ends that is interrupted, and where it doesn't complete, what it left and how a run ends behind it; at
    /// last whether they left what was kept. Gives the status of the first.
    fn run_twice(
        &self,
        scene: &mut Scene,
        kept: &Kept,
        words: &[Text],
        interrupt: Interrupt,
        out: &mut String,
    ) -> Result<u8, Memory> {
        scene.run(self.threads, words, interrupt.room(), false)?;
        scene.mend();
        let code = scene.code;
        write_first(scene, kept, interrupt, out)?;
        if code != 0 {
            kept.write_marks(scene, out)?;
            scene.run(self.threads, words, ROOM, false)?;
            write_ended(scene, out)?;
        }
        kept.compare(scene, out)?;
        Ok(code)
    }

    /// Answers how two runs end behind one another, of which the first is interrupted. Gives its status.
    fn try_call(
        &mut self,
        words: &[Text],
        interrupt: Interrupt,
        out: &mut String,
    ) -> Result<u8, Memory> {
        match (self.failing(interrupt)?, &self.kept) {
            (Some(mut scene), Some(kept)) => {
                self.run_twice(&mut scene, kept, words, interrupt, out)
            }
            _ => {
                say(out, "nothing to compare")?;
                Ok(0)
            }
        }
    }

    /// Lets call 0 of a run fail, then in another run call 1, and so on until none fails, each with a run behind it in which
    /// none fails. Answers how each pair ended, where it didn't end as the one before.
    fn interrupt_by(
        &mut self,
        failure: Failure,
        words: &[Text],
        out: &mut String,
    ) -> Result<(), Memory> {
        let mut last = String::new(self.alloc);
        for call in 0..MOST {
            let mut told = String::new(self.alloc);
            let code = self.try_call(words, Interrupt { failure, call }, &mut told)?;
            if told.as_str() != last.as_str() {
                out.push_str(told.as_str())?;
            }
            if code == 0 {
                return Ok(());
            }
            last = told;
        }
        Ok(())
    }

    /// Interrupts runs by what fails, the first of the words, with the usual words and those behind it.
    pub fn interrupt(&mut self, words: &[Text], out: &mut String) -> Result<(), Memory> {
        let [failure, more @ ..] = words else {
            return say(out, "other words are wanted");
        };
        let words = usual_words(self.alloc, more)?;
        match Failure::read(failure) {
            Some(failure) => self.interrupt_by(failure, &words, out),
            None => say(out, "no such failure"),
        }
    }
}

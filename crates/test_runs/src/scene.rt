//! Folders and a ledger, and how the last run over them ended.

use desk_base::{Memory, Text};
use desk_report::MemorySink;
use desk_run::{Request, desk};
use std::alloc::Global;
use std::str;
use std::thread::Threads;
use test_doubles::{ChangingFolders, Ledger, Pairs};

/// The folder for results, with the `/` behind it.
pub const RESULTS: &[u8] = b"out/";

/// Folders and a ledger that runs go over, and how the last run ended.
#[derive(Drop)]
pub struct Scene<'r> {
    /// What allocates all that the scene holds.
    pub alloc: Global,
    /// The folders, in memory or on the disk.
    pub folders: Box<ChangingFolders<'r>>,
    /// The ledger, in memory or in a file.
    pub ledger: Box<Ledger>,
    sink: Box<MemorySink>,
    /// The exit status.
    pub code: u8,
    /// How often two items were under way at once, where that was waited for.
    pub at_once: u64,
}

/// An output with room for so many bytes.
fn sink_of(alloc: Global, room: u32) -> Result<Box<MemorySink>, Memory> {
    let sink = MemorySink::with_room(alloc, room)?;
    Ok(Box::new(alloc, sink)?)
}

impl<'r> Scene<'r> {
    /// These folders and this ledger before their first run.
    pub fn new(
        alloc: Global,
        folders: Box<ChangingFolders<'r>>,
        ledger: Box<Ledger>,
    ) -> Result<Box<Scene<'r>>, Memory> {
        let sink = sink_of(alloc, 0)?;
        let scene = Scene {
            alloc,
            folders,
            ledger,
            sink,
            code: 0,
            at_once: 0,
        };
        Ok(Box::new(alloc, scene)?)
    }

    /// Runs the desk by these words, with an output that has room for so many bytes; it may wait for two items to be under way
    /// at once.
    pub fn run<R: Threads + Sync>(
        &mut self,
        threads: &R,
        words: &[Text],
        room: u32,
        pairs: bool,
    ) -> Result<(), Memory> {
        self.sink = sink_of(self.alloc, room)?;
        let gate = Pairs::new(pairs);
        let status = desk(
            threads,
            self.alloc,
            &Request::read(self.alloc, words),
            &mut *self.folders,
            &mut *self.ledger,
            &mut *self.sink,
            &gate,
        );
        self.code = status.code();
        self.at_once = gate.saw();
        Ok(())
    }

    /// What the last run wrote.
    pub fn text(&self) -> &str {
        str::from_utf8(self.sink.written()).unwrap_or("no text")
    }

    /// Lets no call fail from now on.
    pub fn mend(&mut self) {
        self.folders.mend();
        self.ledger.mend();
    }

    /// The targets of the files that stand in the folder for results.
    pub fn targets(&mut self) -> Result<Vec<Text>, Memory> {
        let mut targets = Vec::new(self.alloc);
        for path in self.folders.paths()?.as_slice() {
            if path.as_bytes().starts_with(RESULTS) {
                let target = &path.as_bytes()[RESULTS.len()..];
                targets.push(Text::from_bytes(self.alloc, target)?)?;
            }
        }
        Ok(targets)
    }
}

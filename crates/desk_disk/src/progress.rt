//! How far a run is, on a terminal.

use std::io::{IsTerminal, Write};

/// After how many files the line is written anew.
const STEP: u32 = 256;

/// How many files were read and made, and whether that is shown.
#[derive(Clone, Copy, Debug, PartialEq, Eq)]
pub(crate) struct Progress {
    is_shown: bool,
    read: u32,
    made: u32,
}

impl Progress {
    /// Nothing was read, and nothing is shown.
    pub(crate) fn new() -> Progress {
        Progress {
            is_shown: false,
            read: 0,
            made: 0,
        }
    }

    /// Shows it from now on, where standard error is a terminal.
    pub(crate) fn show(&mut self, rt: &HostRuntime) {
        self.is_shown = rt.stderr().is_terminal();
    }

    /// Writes the line, and leaves the cursor at its start, so that the next line stands in its place.
    fn write(self, rt: &HostRuntime) {
        let Progress { read, made, .. } = self;
        let _ = eprint!(rt; "\rmigrate: {read} files read, {made} written\r");
    }

    /// A file was begun to be read. One that is read again, behind the first that is made, isn't counted anew.
    pub(crate) fn note_read(&mut self, rt: &HostRuntime) {
        if self.made > 0 {
            return;
        }
        self.read = self.read.saturating_add(1);
        if self.is_shown && self.read % STEP == 0 {
            self.write(rt);
        }
    }

    /// Counts a file that was made, and shows the count where standard error is a terminal.
    pub(crate) fn note_made(&mut self, rt: &HostRuntime) {
        self.made = self.made.saturating_add(1);
        if self.is_shown && self.made % STEP == 0 {
            self.write(rt);
        }
    }

    /// Takes the line of the progress away, where it is shown.
    pub(crate) fn end(&mut self, rt: &HostRuntime) {
        if self.is_shown {
            let _ = rt.stderr().write_all(b"\r\x1B[K");
        }
        self.is_shown = false;
    }
}

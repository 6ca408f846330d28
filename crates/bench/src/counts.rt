//! What was counted.

ghost use Rattle.std.specs.Prelude.{◌≡◌, ◌+◌};

use crate::kinds::KINDS;
use desk_base::FaultKind;
use desk_report::kind_name;
use std::{io, str};

/// Counts of files, of their bytes, and of what came of each. A count that reaches its type's end stands still.
#[derive(Drop)]
pub struct Counts {
    files: u64,
    unreadable: u64,
    bytes: u64,
    classes: u64,
    uses: u64,
    faults: [u64; 20],
}

/// A file's length or a number of uses as a count.
fn count_of(number: usize) -> u64
    ensures { result ≡ number }
{
    number as u64
}

impl Counts {
    /// Nothing was counted.
    pub fn new() -> Counts {
        Counts {
            files: 0,
            unreadable: 0,
            bytes: 0,
            classes: 0,
            uses: 0,
            faults: [0; 20],
        }
    }

    /// A file that could not be read, or that is longer than a class file may be.
    pub fn add_unreadable(&mut self) {
        self.files = self.files.saturating_add(1);
        self.unreadable = self.unreadable.saturating_add(1);
    }

    /// A class of so many bytes, with so many uses of texts.
    pub fn add_class(&mut self, bytes: usize, uses: usize) {
        self.files = self.files.saturating_add(1);
        self.bytes = self.bytes.saturating_add(count_of(bytes));
        self.classes = self.classes.saturating_add(1);
        self.uses = self.uses.saturating_add(count_of(uses));
    }

    /// A file of so many bytes that is no class, by its first fault.
    pub fn add_fault(&mut self, bytes: usize, kind: FaultKind) {
        self.files = self.files.saturating_add(1);
        self.bytes = self.bytes.saturating_add(count_of(bytes));
        let place = kind as usize;
        self.faults[place] = self.faults[place].saturating_add(1);
    }

    /// Prints the counts, one a line, and of the kinds of faults those that came.
    pub fn print(&self, rt: &HostRuntime) -> io::Result<()> {
        println!(rt; "files {}", self.files)?;
        println!(rt; "unreadable {}", self.unreadable)?;
        println!(rt; "bytes {}", self.bytes)?;
        println!(rt; "classes {}", self.classes)?;
        println!(rt; "uses {}", self.uses)?;
        for kind in KINDS.iter() {
            let count = self.faults[*kind as usize];
            if count > 0 {
                let name = str::from_utf8(kind_name(*kind)).unwrap_or("unnamed");
                println!(rt; "fault {name} {count}")?;
            }
        }
        Ok(())
    }
}

//! The first ten of some names.

ghost use Rattle.std.specs.Prelude.{◌≡◌, ◌≤◌, OnErr, length};

use desk_base::{Memory, Text, TextList};
use itoa::Buffer;
use std::alloc::Global;

/// How many names are told.
const MOST: usize = 10;

/// Names, of which the first ten are kept, and how many they are.
#[derive(Debug, Drop)]
pub struct Names {
    /// The first of them, ten at most.
    pub first: TextList,
    /// How many there are, those that aren't kept included.
    pub count: u32,
}

impl Names {
    /// A collection to begin with, of no names. It takes no memory.
    pub fn new(alloc: Global) -> Names
        ensures first { length result.first ≡ 0 }
        ensures count { result.count ≡ 0 }
    {
        Names {
            first: TextList::empty(alloc),
            count: 0,
        }
    }

    /// Takes a name; it is kept where fewer than ten are. After want of memory, the only error, those that are kept are as
    /// they were, and the name is counted.
    pub fn take(&mut self, alloc: Global, name: &[u8]) -> Result<(), Memory>
        ensures few { length self.old.first ≤ 10 → length self.new.first ≤ 10 }
        ensures err { OnErr result (self.new.first ≡ self.old.first) }
    {
        self.count = self.count.saturating_add(1);
        if self.first.len() < MOST {
            self.first.push(Text::from_bytes(alloc, name)?)?;
        }
        Ok(())
    }

    /// How many there are beside those that are kept.
    fn others(&self) -> usize {
        (self.count as usize).saturating_sub(self.first.len())
    }

    /// Adds the line of what is said of these names, a line for each that is kept, and how many others there are. Where there are
    /// none it adds nothing.
    pub fn append_to(&self, text: &mut Text, said: &[u8]) -> Result<(), Memory> {
        if self.count == 0 {
            return Ok(());
        }
        text.append(b"migrate: ")?;
        text.append(said)?;
        text.append(b"\n")?;
        for name in self.first.as_slice() {
            text.append(b"migrate:   ")?;
            text.append(name.as_bytes())?;
            text.append(b"\n")?;
        }
        self.append_others(text)
    }

    /// Adds how many there are beside those that are kept, where there are some.
    fn append_others(&self, text: &mut Text) -> Result<(), Memory> {
        if self.others() == 0 {
            return Ok(());
        }
        text.append(b"migrate:   and ")?;
        text.append(Buffer::new().format(self.others() as u64).as_bytes())?;
        text.append(b" more\n")
    }
}

//! Commands over a ledger in memory.

use crate::attached::{Attached, header_of, say_kept};
use crate::told::say;
use crate::words::{byte_of, number_of, numbers_of};
use desk_base::{Memory, Text};
use desk_ledger::{Digest, MemoryKeeper, OldRow};
use std::alloc::Global;
use std::mem;

/// Rows of format 1, a ledger before it is attached, and one that is.
#[derive(Drop)]
pub struct Ledger {
    alloc: Global,
    old_rows: Vec<OldRow>,
    loose: Option<Box<MemoryKeeper>>,
    attached: Option<Attached>,
}

/// A row of format 1.
fn old_row_of(target: &Text, source: &Text, byte: &Text) -> Result<OldRow, Memory> {
    let target = target.clone()?;
    let source = source.clone()?;
    let digest = Digest([byte_of(byte); 32]);
    Ok(OldRow {
        target,
        source,
        digest,
    })
}

impl Ledger {
    /// No ledger.
    pub fn new(alloc: Global) -> Ledger {
        Ledger {
            alloc,
            old_rows: Vec::new(alloc),
            loose: None,
            attached: None,
        }
    }

    /// Lets the ledger go.
    pub fn leave(&mut self) {
        self.old_rows.clear();
        self.loose = None;
        self.attached = None;
    }

    /// Begins with a ledger of which these calls fail.
    fn begin(&mut self, calls: &[Text]) -> Result<(), Memory> {
        let failing = numbers_of(self.alloc, calls)?;
        let keeper = MemoryKeeper::new(self.alloc, failing)?;
        self.loose = Some(Box::new(self.alloc, keeper)?);
        Ok(())
    }

    /// Adds a row of format 1.
    fn add_old(&mut self, target: &Text, source: &Text, byte: &Text) -> Result<(), Memory> {
        let row = old_row_of(target, source, byte)?;
        Ok(self.old_rows.push(row)?)
    }

    /// Begins with a ledger that is taken over from format 1, of this header and the rows that were added.
    fn take_over(&mut self, from: &Text, to: &Text, byte: &Text) -> Result<(), Memory> {
        let header = header_of(from, to, byte)?;
        let rows = mem::replace(&mut self.old_rows, Vec::new(self.alloc));
        let keeper = MemoryKeeper::from_format_1(self.alloc, Some(header), rows)?;
        self.loose = Some(Box::new(self.alloc, keeper)?);
        Ok(())
    }

    /// Attaches the ledger.
    fn attach(&mut self, name: &Text, out: &mut String) -> Result<(), Memory> {
        let Some(keeper) = self.loose.take() else {
            return say("no ledger", out);
        };
        match Attached::attach(keeper, name) {
            Ok(attached) => {
                self.attached = Some(attached);
                say("ok", out)
            }
            Err((keeper, fault)) => {
                self.loose = Some(keeper);
                say_kept(Err(fault), out)
            }
        }
    }

    /// Lets the call of this number, and each later one, fail.
    fn stop_at(&mut self, call: u64) {
        if let Some(keeper) = &mut self.loose {
            keeper.stop_at(call);
        }
        if let Some(attached) = &mut self.attached {
            attached.stop_at(call);
        }
    }

    /// Lets no call fail from now on.
    fn mend(&mut self) {
        if let Some(keeper) = &mut self.loose {
            keeper.mend();
        }
        if let Some(attached) = &mut self.attached {
            attached.mend();
        }
    }

    /// Answers a command over the ledger that is attached.
    fn answer_attached(
        &mut self,
        verb: &[u8],
        words: &[Text],
        out: &mut String,
    ) -> Result<(), Memory> {
        match &mut self.attached {
            Some(attached) => attached.answer(verb, words, out),
            None => say("no ledger is attached", out),
        }
    }

    /// Adds a row of format 1, or begins with a ledger that is taken over from it.
    fn begin_old(&mut self, verb: &[u8], words: &[Text], out: &mut String) -> Result<(), Memory> {
        let [first, second, byte] = words else {
            return say("other words are wanted", out);
        };
        if verb == b"old-row".as_slice() {
            self.add_old(first, second, byte)
        } else {
            self.take_over(first, second, byte)
        }
    }

    /// Attaches the ledger, or stops it.
    fn set(&mut self, verb: &[u8], words: &[Text], out: &mut String) -> Result<(), Memory> {
        let [word] = words else {
            return say("other words are wanted", out);
        };
        if verb == b"attach".as_slice() {
            return self.attach(word, out);
        }
        self.stop_at(u64::from(number_of(word)));
        Ok(())
    }

    /// Answers a command of this verb and the words behind it.
    fn answer_verb(&mut self, verb: &[u8], words: &[Text], out: &mut String) -> Result<(), Memory> {
        match verb {
            b"new" => self.begin(words),
            b"mend" => {
                self.mend();
                Ok(())
            }
            b"attach" | b"stop" => self.set(verb, words, out),
            b"old-row" | b"first-format" => self.begin_old(verb, words, out),
            _ => self.answer_attached(verb, words, out),
        }
    }

    /// Answers a command, of which the words behind `ledger` are given.
    pub fn answer(&mut self, words: &[Text], out: &mut String) -> Result<(), Memory> {
        match words {
            [verb, words @ ..] => self.answer_verb(verb.as_bytes(), words, out),
            [] => say("other words are wanted", out),
        }
    }
}

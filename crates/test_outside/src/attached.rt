//! A ledger that is attached.

ghost use Rattle.std.specs.Prelude.{IsSome};

use crate::told::{say, say_words};
use crate::words::byte_of;
use desk_base::{Memory, Text};
use desk_ledger::{Digest, Header, Keeper, KeeperFault, MemoryKeeper, Row};

/// A ledger in memory that is attached.
#[derive(Drop)]
pub struct Attached {
    /// The keeper, which was attached to a ledger by its name.
    pub keeper: Box<MemoryKeeper>,
    ghost attached: { IsSome keeper.value.attached },
}

/// A header.
pub fn header_of(from: &Text, to: &Text, byte: &Text) -> Result<Header, Memory> {
    let from = from.clone()?;
    let to = to.clone()?;
    let rules = Digest([byte_of(byte); 32]);
    Ok(Header { from, to, rules })
}

/// A row, whose output has the complement of the byte of its digest.
fn row_of(target: &Text, source: &Text, byte: u8) -> Result<Row, Memory> {
    let target = target.clone()?;
    let source = source.clone()?;
    Ok(Row {
        target,
        source,
        digest: Digest([byte; 32]),
        output: Some(Digest([byte ^ 255; 32])),
    })
}

/// Answers what came of a call that gives nothing.
pub fn say_kept(done: Result<(), KeeperFault>, out: &mut String) -> Result<(), Memory> {
    match done {
        Ok(()) => say("ok", out),
        Err(fault) => Ok(writeln!(out, "  {fault:?}")?),
    }
}

/// Answers a header.
fn say_header(header: &Header, out: &mut String) -> Result<(), Memory> {
    say_words(
        &[
            header.from.as_bytes(),
            header.to.as_bytes(),
            &header.rules.0,
        ],
        out,
    )
}

/// Answers a row; an output that isn't known is `none`.
fn say_row(row: &Row, out: &mut String) -> Result<(), Memory> {
    let output: &[u8] = match &row.output {
        Some(output) => &output.0,
        None => b"none",
    };
    say_words(
        &[
            row.target.as_bytes(),
            row.source.as_bytes(),
            &row.digest.0,
            output,
        ],
        out,
    )
}

impl Attached {
    /// Attaches a ledger to a name. One of which that failed is given back, with the fault.
    pub fn attach(
        mut keeper: Box<MemoryKeeper>,
        name: &Text,
    ) -> Result<Attached, (Box<MemoryKeeper>, KeeperFault)> {
        match keeper.attach(name) {
            Ok(()) => Ok(Attached { keeper }),
            Err(fault) => Err((keeper, fault)),
        }
    }

    /// Lets the call of this number, and each later one, fail.
    pub fn stop_at(&mut self, call: u64) {
        self.keeper.stop_at(call);
    }

    /// Lets no call fail from now on.
    pub fn mend(&mut self) {
        self.keeper.mend();
    }

    /// Answers the header.
    fn answer_header(&mut self, out: &mut String) -> Result<(), Memory> {
        match self.keeper.header() {
            Ok(Some(header)) => say_header(&header, out),
            Ok(None) => say("none", out),
            Err(fault) => say_kept(Err(fault), out),
        }
    }

    /// Answers the row of a target.
    fn answer_find(&mut self, target: &Text, out: &mut String) -> Result<(), Memory> {
        match self.keeper.find(target) {
            Ok(Some(row)) => say_row(&row, out),
            Ok(None) => say("none", out),
            Err(fault) => say_kept(Err(fault), out),
        }
    }

    /// Keeps a row.
    fn put(&mut self, target: &Text, source: &Text, byte: u8) -> Result<(), KeeperFault> {
        let row = row_of(target, source, byte)?;
        self.keeper.put(row)
    }

    /// Keeps a header.
    fn set_header(&mut self, from: &Text, to: &Text, byte: &Text) -> Result<(), KeeperFault> {
        let header = header_of(from, to, byte)?;
        self.keeper.set_header(&header)
    }

    /// Answers a command without words behind it.
    fn answer_alone(&mut self, verb: &[u8], out: &mut String) -> Result<(), Memory> {
        match verb {
            b"header" => self.answer_header(out),
            b"commit" => say_kept(self.keeper.commit(), out),
            _ => say("other words are wanted", out),
        }
    }

    /// Answers a command over a target.
    fn answer_at(&mut self, verb: &[u8], target: &Text, out: &mut String) -> Result<(), Memory> {
        match verb {
            b"find" => self.answer_find(target, out),
            b"forget" => say_kept(self.keeper.forget(target), out),
            _ => say("other words are wanted", out),
        }
    }

    /// Keeps a row or a header, as the verb says.
    fn keep(
        &mut self,
        verb: &[u8],
        first: &Text,
        second: &Text,
        byte: &Text,
        out: &mut String,
    ) -> Result<(), Memory> {
        match verb {
            b"put" => say_kept(self.put(first, second, byte_of(byte)), out),
            b"set-header" => say_kept(self.set_header(first, second, byte), out),
            _ => say("other words are wanted", out),
        }
    }

    /// Answers a command of this verb and the words behind it.
    pub fn answer(&mut self, verb: &[u8], words: &[Text], out: &mut String) -> Result<(), Memory> {
        match words {
            [] => self.answer_alone(verb, out),
            [target] => self.answer_at(verb, target, out),
            [first, second, byte] => self.keep(verb, first, second, byte, out),
            _ => say("other words are wanted", out),
        }
    }
}

//! A keeper that is attached.

ghost use Rattle.std.specs.Prelude.{IsSome};

use crate::{append_unknown, append_words, byte_of};
use desk_base::{Memory, Text};
use desk_ledger::{Digest, Header, Keeper, KeeperFault, Row};
use std::alloc::Global;

/// A keeper that is attached to a ledger, and the commands over it. A digest is named by the byte that it holds 32 times.
#[derive(Drop)]
pub struct Attached<K: Keeper> {
    /// The keeper, which was attached to a ledger by its name.
    pub keeper: Box<K>,
    ghost attached: { IsSome (K.attached keeper.value) },
}

/// A header.
pub fn header_of(from: &Text, to: &Text, byte: &Text) -> Result<Header, Memory> {
    Ok(Header {
        from: from.clone()?,
        to: to.clone()?,
        rules: Digest([byte_of(byte.as_bytes()); 32]),
    })
}

/// A row, whose output holds the complements of the bytes of its digest.
fn row_of(target: &Text, source: &Text, byte: &Text) -> Result<Row, Memory> {
    let byte = byte_of(byte.as_bytes());
    Ok(Row {
        target: target.clone()?,
        source: source.clone()?,
        digest: Digest([byte; 32]),
        output: Some(Digest([byte ^ 255; 32])),
    })
}

/// Appends why a call failed.
pub fn append_fault(fault: KeeperFault, out: &mut String) -> Result<(), Memory> {
    Ok(out.push_str(match fault {
        KeeperFault::Failed => "  failed\n",
        KeeperFault::Memory => "  memory\n",
    })?)
}

/// Appends what came of a call that gives nothing.
fn append_done(done: Result<(), KeeperFault>, out: &mut String) -> Result<(), Memory> {
    match done {
        Ok(()) => Ok(out.push_str("  ok\n")?),
        Err(fault) => append_fault(fault, out),
    }
}

/// Appends a header.
fn append_header(header: &Header, out: &mut String) -> Result<(), Memory> {
    append_words(
        &[
            header.from.as_bytes(),
            header.to.as_bytes(),
            &header.rules.0,
        ],
        out,
    )
}

/// Appends a row; an output that isn't known is `none`.
fn append_row(row: &Row, out: &mut String) -> Result<(), Memory> {
    let output: &[u8] = match &row.output {
        Some(output) => &output.0,
        None => b"none",
    };
    append_words(
        &[
            row.target.as_bytes(),
            row.source.as_bytes(),
            &row.digest.0,
            output,
        ],
        out,
    )
}

impl<K: Keeper + Drop> Attached<K> {
    /// Attaches a keeper to the ledger of a name. One of which that failed is given back, with the fault.
    pub fn attach(mut keeper: Box<K>, name: &Text) -> Result<Attached<K>, (Box<K>, KeeperFault)> {
        match keeper.attach(name) {
            Ok(()) => Ok(Attached { keeper }),
            Err(fault) => Err((keeper, fault)),
        }
    }

    /// Appends the header.
    fn answer_header(&mut self, out: &mut String) -> Result<(), Memory> {
        match self.keeper.header() {
            Ok(Some(header)) => append_header(&header, out),
            Ok(None) => Ok(out.push_str("  none\n")?),
            Err(fault) => append_fault(fault, out),
        }
    }

    /// Appends the row of a target.
    fn answer_find(&mut self, target: &Text, out: &mut String) -> Result<(), Memory> {
        match self.keeper.find(target) {
            Ok(Some(row)) => append_row(&row, out),
            Ok(None) => Ok(out.push_str("  none\n")?),
            Err(fault) => append_fault(fault, out),
        }
    }

    /// Keeps a row.
    fn put(&mut self, target: &Text, source: &Text, byte: &Text) -> Result<(), KeeperFault> {
        let row = row_of(target, source, byte)?;
        self.keeper.put(row)
    }

    /// Makes this the header.
    fn set_header(&mut self, from: &Text, to: &Text, byte: &Text) -> Result<(), KeeperFault> {
        let header = header_of(from, to, byte)?;
        self.keeper.set_header(&header)
    }

    /// Appends what a command of one word answers.
    fn answer_alone(&mut self, verb: &[u8], out: &mut String) -> Result<(), Memory> {
        match verb {
            b"header" => self.answer_header(out),
            b"commit" => append_done(self.keeper.commit(), out),
            _ => append_unknown(out),
        }
    }

    /// Appends what a command over a target answers.
    fn answer_at(&mut self, verb: &[u8], target: &Text, out: &mut String) -> Result<(), Memory> {
        match verb {
            b"find" => self.answer_find(target, out),
            b"forget" => append_done(self.keeper.forget(target), out),
            _ => append_unknown(out),
        }
    }

    /// Appends what a command answers, of which the words behind the first are given.
    pub fn answer(&mut self, words: &[Text], out: &mut String) -> Result<(), Memory> {
        match words {
            [verb] => self.answer_alone(verb.as_bytes(), out),
            [verb, target] => self.answer_at(verb.as_bytes(), target, out),
            [verb, first, second, byte] => match verb.as_bytes() {
                b"put" => append_done(self.put(first, second, byte), out),
                b"set-header" => append_done(self.set_header(first, second, byte), out),
                _ => append_unknown(out),
            },
            _ => append_unknown(out),
        }
    }
}

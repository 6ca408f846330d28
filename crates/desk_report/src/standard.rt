//! The sink of standard output.

ghost use Rattle.std.specs.Prelude.{◌≡◌, true, None};
ghost use Rattle.std.specs.Io.KnownBytes.{Appends};
ghost use Rattle.desk_report.specs.Written.{AppendsFront};

use crate::{Sink, SinkFault};
use std::io::{self, Write};
use std::marker::Model;

/// Standard output as a sink. It tells nothing of what was written.
#[derive(Drop)]
pub struct StdSink<'r> {
    rt: &'r HostRuntime,
    faults: u64,
}

impl<'r> Model for StdSink<'r> {
    ghost use Rattle.std.specs.Prelude.{ℕ};

    ghost Value = { ℕ };

    ghost view = { λ s. s.faults };
}

impl<'r> StdSink<'r> {
    /// The sink of standard output. It takes no memory.
    pub fn new(rt: &'r HostRuntime) -> StdSink<'r>
        ensures { result ≡ 0 }
    {
        StdSink { rt, faults: 0 }
    }
}

/// Writes bytes to a writer, each part that it doesn't take by a further write, and answers whether all were taken. A write that
/// fails, or takes none of some bytes, ends it: then a front of them was written.
#[tactic(auto, using(crate::proofs::Taken::written_more))]
fn write_to<W: Write>(writer: &mut W, bytes: &[u8]) -> bool
    ensures whole { result ≡ true → Appends (W.contents writer.old) (W.contents writer.new) bytes.now }
    ensures front { AppendsFront bytes.now (W.contents writer.old) (W.contents writer.new) }
{
    let mut rest = bytes;
    while !rest.is_empty() {
        match writer.write(rest) {
            Ok(taken) if 0 < taken => rest = &rest[taken..],
            _ => return false,
        }
    }
    true
}

impl Sink for StdSink<'_> {
    ghost told = { λ _. None };

    ghost faults = { λ s. s };

    fn write(&mut self, bytes: &[u8]) -> Result<(), SinkFault> {
        if write_to(&mut io::writer(self.rt), bytes) {
            return Ok(());
        }
        self.faults = self.faults.saturating_add(1);
        Err(SinkFault::Failed)
    }
}

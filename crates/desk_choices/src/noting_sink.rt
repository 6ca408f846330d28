//! A sink that notes what is written to it.

ghost use Rattle.std.specs.Prelude.{◌≡◌};

use desk_report::{Sink, SinkFault};
use std::io::{IsTerminal, Write};

/// Who notes what bytes say that go on to a sink.
pub trait Noting {
    /// Notes the next bytes.
    fn take(&mut self, bytes: &[u8]);
}

/// A sink whose bytes are noted on their way. It tells what the sink tells. Before the first of them the line that
/// stands on standard error is taken away, where that is a terminal, so that the report doesn't begin within it.
#[derive(Drop)]
pub struct NotingSink<'r, O, N> {
    rt: &'r HostRuntime,
    is_begun: bool,
    /// The sink that the bytes go on to.
    pub out: O,
    /// What is noted of them.
    pub notes: N,
}

/// Takes the line away that stands on a terminal.
fn clear_line(rt: &HostRuntime) {
    if rt.stderr().is_terminal() {
        let _ = rt.stderr().write_all(b"\r\x1B[K");
    }
}

impl<'r, O: Sink, N: Noting> NotingSink<'r, O, N> {
    /// The sink, and who notes its bytes. It takes no memory.
    pub fn new(rt: &'r HostRuntime, out: O, notes: N) -> NotingSink<'r, O, N>
        ensures { result.out ≡ out }
    {
        NotingSink {
            rt,
            is_begun: false,
            out,
            notes,
        }
    }
}

impl<O: Sink, N: Noting> Sink for NotingSink<'_, O, N> {
    ghost told = { λ s. O.told s.out };

    ghost faults = { λ s. O.faults s.out };

    fn write(&mut self, bytes: &[u8]) -> Result<(), SinkFault> {
        if !self.is_begun {
            clear_line(self.rt);
        }
        self.is_begun = true;
        self.notes.take(bytes);
        self.out.write(bytes)
    }
}

//! Standard streams that are written into the ledger of a run, which would be no ledger any more.

use crate::telling::{tell_hint, tell_status, tell_text};
use desk_base::{Memory, Text};
use desk_choices::is_into;
use desk_faults::{Cause, Fault, Tried, fault_line};
use desk_hints::Listed;
use desk_places::Node;
use desk_report::{Status, StdSink, write_fault};
use desk_words::Roots;
use std::{fs, str};

/// What stands at a path, if the system tells of anything there; a link is followed.
fn node_at(rt: &HostRuntime, path: &str) -> Option<Node> {
    let found = fs::metadata(rt, path).ok()?;
    Some(Node::of(&found))
}

/// What stands at the path of a text, if the system tells of anything there.
fn node_of(rt: &HostRuntime, path: &Text) -> Option<Node> {
    let path = str::from_utf8(path.as_bytes()).ok()?;
    node_at(rt, path)
}

/// Which standard streams are written into a file. Where the system doesn't tell what a stream leads to, it is none.
#[derive(Clone, Copy, Debug)]
struct StreamsInto {
    output: bool,
    error: bool,
}

impl StreamsInto {
    /// Which standard streams are written into the file at a path.
    fn file(rt: &HostRuntime, path: &Text) -> StreamsInto {
        let file = node_of(rt, path);
        StreamsInto {
            output: is_into(node_at(rt, "/proc/self/fd/1"), file),
            error: is_into(node_at(rt, "/proc/self/fd/2"), file),
        }
    }

    fn is_any(self) -> bool {
        self.output || self.error
    }
}

/// Which standard streams are written into a ledger: into its file, or else into the log beside it.
fn into_ledger(rt: &HostRuntime, ledger: &Text) -> Result<StreamsInto, Memory> {
    let own = StreamsInto::file(rt, ledger);
    if own.is_any() {
        return Ok(own);
    }
    let mut log = ledger.clone()?;
    log.append(b"-wal")?;
    Ok(StreamsInto::file(rt, &log))
}

/// Tells of a ledger that a stream is written into, on the stream that isn't; nothing is written into the ledger.
fn tell_stream(rt: &HostRuntime, ledger: &Text, into: StreamsInto, status: &Status) {
    if !into.output {
        let _ = write_fault(status, &mut StdSink::new(rt));
    }
    if !into.error {
        tell_status(rt, status);
        if let Ok(fault) = Fault::of(rt.alloc(), Tried::Opening, ledger, Cause::Stream) {
            tell_text(rt, &fault_line(rt.alloc(), &fault));
        }
        tell_hint(rt, status, Listed::Unknown);
    }
}

/// The status of a run that ends before it begins, since standard output or standard error is written into its ledger. It is told on
/// the stream that isn't; nothing is written into the ledger. None of any other run. The only error is want of memory.
pub fn ended_by_streams(rt: &HostRuntime, roots: &Roots) -> Result<Option<Status>, Memory> {
    let into = into_ledger(rt, &roots.ledger)?;
    if !into.is_any() {
        return Ok(None);
    }
    let status = Status::LedgerFault { done: 0 };
    tell_stream(rt, &roots.ledger, into, &status);
    Ok(Some(status))
}

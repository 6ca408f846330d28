//! What sinks take.

use crate::answering::{Named, answer, answer_bytes, answer_two};
use desk_base::{Memory, Text};
use desk_report::{MemorySink, Sink, SinkFault, StdSink};
use std::alloc::Global;
use std::str;
use test_cases::Shown;

/// A sink in memory with room for so many bytes.
pub fn with_room(alloc: Global, room: u32) -> Result<Box<MemorySink>, Memory> {
    Ok(Box::new(alloc, MemorySink::with_room(alloc, room)?)?)
}

/// Answers the line that a sink took.
pub fn answer_line(
    outcome: Result<(), SinkFault>,
    sink: &MemorySink,
    out: &mut String,
) -> Result<(), Memory> {
    match sink.written() {
        [line @ .., b'\n'] if outcome.is_ok() => {
            answer(out, &str::from_utf8(line).unwrap_or("other bytes"))
        }
        bytes => answer_two(out, &Named(&outcome), &Shown(bytes)),
    }
}

/// Answers the writes of texts to a sink.
fn answer_writes<S: Sink>(sink: &mut S, texts: &[Text], out: &mut String) -> Result<(), Memory> {
    for text in texts {
        answer(out, &Named(&sink.write(text.as_bytes())))?;
    }
    Ok(())
}

/// Answers the writes of texts to a sink in memory, and what it took.
pub fn answer_sink(sink: &mut MemorySink, texts: &[Text], out: &mut String) -> Result<(), Memory> {
    answer_writes(sink, texts, out)?;
    answer_bytes(out, sink.written())
}

/// Answers the writes of texts to standard output, behind what is to be written there before.
pub fn answer_standard(rt: &HostRuntime, texts: &[Text], out: &mut String) -> Result<(), Memory> {
    let mut sink = StdSink::new(rt);
    let before = sink.write(out.as_bytes());
    out.clear();
    answer(out, &Named(&before))?;
    answer_writes(&mut sink, texts, out)
}

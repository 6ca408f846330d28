//! What words that are followed print, and how they end.

use desk_base::{Memory, Text};
use desk_outside::{Followed, follow_words};
use desk_report::MemorySink;
use std::str;
use std::thread::Threads;

/// How many bytes a report has at most.
const ROOM: u32 = 8_388_608;

/// Follows words.
fn followed<R: Threads + Sync>(
    rt: &HostRuntime,
    threads: &R,
    words: &[Text],
) -> Result<Followed<MemorySink>, Memory> {
    let out = MemorySink::with_room(rt.alloc(), ROOM)?;
    Ok(follow_words(rt, threads, words, out))
}

/// Appends a line of a report.
fn append_line(line: &[u8], out: &mut String) -> Result<(), Memory> {
    Ok(writeln!(out, "  {}", str::from_utf8(line).unwrap_or("no text"))?)
}

/// Follows words, and appends the lines of the report and the status.
pub fn answer_lines<R: Threads + Sync>(
    rt: &HostRuntime,
    threads: &R,
    words: &[Text],
    out: &mut String,
) -> Result<(), Memory> {
    let ended = followed(rt, threads, words)?;
    for line in ended.out.written().split(|byte| *byte == b'\n') {
        if !line.is_empty() {
            append_line(line, out)?;
        }
    }
    Ok(writeln!(out, "  status {}", ended.status.code())?)
}

/// Appends how many lines a report has, and the last one.
fn append_count(report: &[u8], out: &mut String) -> Result<(), Memory> {
    let mut lines = 0_u64;
    let mut last: &[u8] = &[];
    for line in report.split(|byte| *byte == b'\n') {
        if !line.is_empty() {
            lines = lines.saturating_add(1);
            last = line;
        }
    }
    writeln!(out, "  lines {lines}")?;
    append_line(last, out)
}

/// Follows words, and appends how many lines the report has, the last one, and the status.
pub fn answer_count<R: Threads + Sync>(
    rt: &HostRuntime,
    threads: &R,
    words: &[Text],
    out: &mut String,
) -> Result<(), Memory> {
    let ended = followed(rt, threads, words)?;
    append_count(ended.out.written(), out)?;
    Ok(writeln!(out, "  status {}", ended.status.code())?)
}

//! What goes over the lines of the standard input.

use crate::words::words_of;
use desk_base::{Memory, Text};
use std::alloc::Global;
use std::io::{self, BufRead, BufReader, ErrorKind};

/// What answers the commands of a program of tests.
pub trait Answers {
    /// Begins a case: nothing of the one before it stays.
    fn begin(&mut self) -> Result<(), Memory>;

    /// Appends what a command answers, in whole lines. The first of its words is the command's name; there is at least one.
    fn answer(&mut self, words: &[Text], out: &mut String) -> Result<(), Memory>;
}

/// Appends a line, and behind it what it answers.
fn answer_line<A: Answers>(
    alloc: Global,
    answers: &mut A,
    line: &str,
    out: &mut String,
) -> Result<(), Memory> {
    out.push_str(line)?;
    out.push('\n')?;
    match line.as_bytes() {
        [] => Ok(()),
        [b'#', ..] => answers.begin(),
        words => answers.answer(&words_of(alloc, words)?, out),
    }
}

/// Answers the lines of the standard input on the standard output, each as soon as it is read. Errors are want of memory and
/// those of the two streams.
pub fn answer_all<A: Answers>(rt: &HostRuntime, answers: &mut A) -> io::Result<()> {
    let alloc = rt.alloc();
    for line in BufReader::new(alloc, rt.reader())?.lines(alloc) {
        let mut out = String::new(alloc);
        match answer_line(alloc, answers, line?.as_str(), &mut out) {
            Ok(()) => print!(rt; "{out}")?,
            Err(Memory) => return Err(io::Error::from(ErrorKind::OutOfMemory)),
        }
    }
    Ok(())
}

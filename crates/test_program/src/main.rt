//! What the program does over real folders: the folder of a case, which is also the working folder, and words that are followed as
//! the program follows them.
//!
//! ```text
//! file VERB PATH ..                     a command over a file
//! files FOLDER COUNT                    makes empty files with names of numbers
//! follow WORD..                         the lines of the report, and the status
//! count WORD..                          how many lines the report has, the last one, and the status
//! ```
#![tactic(auto)]

mod cases;
mod reports;

use cases::Cases;
use desk_base::Memory;
use std::io::{self, BufRead, BufReader, ErrorKind};
use std::thread::Threads;
use test_cases::words_of;

/// Appends a line, and behind it what it answers.
fn answer_line<R: Threads + Sync>(
    cases: &Cases<'_, R>,
    line: &str,
    out: &mut String,
) -> Result<(), Memory> {
    out.push_str(line)?;
    out.push('\n')?;
    match line.as_bytes() {
        [] => Ok(()),
        [b'#', ..] => {
            cases.begin();
            Ok(())
        }
        words => cases.answer(&words_of(cases.rt.alloc(), words)?, out),
    }
}

/// Answers the lines of the standard input on the standard output, each as soon as it is read.
fn answer_lines<R: Threads + Sync>(rt: &HostRuntime, cases: &Cases<'_, R>) -> io::Result<()> {
    let alloc = rt.alloc();
    for line in BufReader::new(alloc, rt.reader())?.lines(alloc) {
        let mut out = String::new(alloc);
        match answer_line(cases, line?.as_str(), &mut out) {
            Ok(()) => print!(rt; "{out}")?,
            Err(Memory) => return Err(io::Error::from(ErrorKind::OutOfMemory)),
        }
    }
    Ok(())
}

/// Answers the cases, and takes their folder away.
fn answer_cases<R: Threads + Sync>(rt: &HostRuntime, threads: &R) -> io::Result<()> {
    let cases = Cases::new(rt, threads)?;
    let done = answer_lines(rt, &cases);
    cases.leave();
    done
}

fn main(rt: HostRuntime) -> io::Result<()> {
    answer_cases(&rt, &rt)
}

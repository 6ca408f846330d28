//! Runs of the desk, each a case: the files that folders begin with, what of folders, ledger and output fails, the words, and
//! behind them what was written, what the folders hold and what rows the ledger has.
//!
//! ```text
//! # a class that is cut is refused
//! file r/renames.properties javax.servlet.*=jakarta.servlet       a file that folders in memory begin with
//! file in/A.class \e
//! migrate                                                         the usual words, and those behind the command
//!   status 2
//!   refused A.class malformed truncated at=0
//!   total files=1 written=0 kept=0 refused=1 renamed=0 added=0
//! content out/A.class
//!   no file
//! ```
//!
//! The ready rules are tried over real folders, by an application that has a file of each kind. What it becomes was made
//! without the desk: descriptors, pages, the service files and the manifest were written by hand, and the class was compiled
//! by `javac` from its source (`data/source`) with the names exchanged.
#![tactic(auto)]

mod beginning;
mod case;
mod commands;
mod interrupts;
mod kept;
mod looks;
mod scene;
mod tasks;
mod words;
mod written;

use case::Case;
use desk_base::Memory;
use std::io::{self, BufRead, BufReader, ErrorKind};
use std::thread::Threads;
use test_cases::words_of;

/// Appends a line, and behind it what it answers.
fn answer_line<R: Threads + Sync>(
    case: &mut Case<'_, R>,
    line: &str,
    out: &mut String,
) -> Result<(), Memory> {
    out.push_str(line)?;
    out.push('\n')?;
    match line.as_bytes() {
        [] => Ok(()),
        [b'#', ..] => case.begin(),
        words => case.answer(&words_of(case.alloc, words)?, out),
    }
}

/// Answers the lines of the standard input on the standard output, each as soon as it is read.
fn answer_lines<R: Threads + Sync>(rt: &HostRuntime, threads: &R) -> io::Result<()> {
    let alloc = rt.alloc();
    let mut case = Box::new(alloc, Case::new(rt, threads))?;
    for line in BufReader::new(alloc, rt.reader())?.lines(alloc) {
        let mut out = String::new(alloc);
        match answer_line(&mut case, line?.as_str(), &mut out) {
            Ok(()) => print!(rt; "{out}")?,
            Err(Memory) => return Err(io::Error::from(ErrorKind::OutOfMemory)),
        }
    }
    Ok(())
}

fn main(rt: HostRuntime) -> io::Result<()> {
    answer_lines(&rt, &rt)
}

//! The program: it follows its words over the real folders, a ledger and standard output, and exits with the status of that.
#![tactic(auto)]

use desk_choices::{Streams, exit_of};
use desk_outside::{end_unread, follow_words};
use desk_program::{read_words, take_stack};
use desk_report::{Status, StdSink};
use std::process::ExitCode;
use std::thread::Threads;

/// Follows the words behind the program's name.
fn run<R: Threads + Sync>(rt: &HostRuntime, threads: &R) -> Status {
    match read_words(rt) {
        Ok(words) => follow_words(rt, threads, &words, StdSink::new(rt)).status,
        Err(error) => end_unread(rt, error.kind(), StdSink::new(rt)).status,
    }
}

fn main(rt: HostRuntime) -> ExitCode {
    let _streams = Streams::take_places(&rt);
    take_stack(&rt);
    exit_of(&run(&rt, &rt))
}

//! Does one thing with what it is given, so that a script can take the time and the memory of it: the first word says what.
//!
//! ```text
//! bench names sum|read TIMES            descriptors and signatures, one a line of standard input
//! bench rules hash|look TIMES RULES     class names, one a line of standard input
//! bench scan [LIST]                     class files that a list or standard input names
//! bench texts RULES TEXT TIMES          a text by text rules
//! bench graph MODE COUNT|LIST           classes that are made up, or that a list names
//! bench rows memory|sql COUNT           rows of a ledger in memory: a table, or an SQL database
//! ```
#![tactic(auto)]

mod counts;
mod graph;
mod kinds;
mod made;
mod names;
mod reading;
mod rows;
mod rules;
mod scan;
mod texts;

use reading::bad_words;
use std::{env, io};

/// Does what the first word says, by the words behind it.
fn measure(rt: &HostRuntime, what: &str, words: &[String]) -> io::Result<()> {
    match what {
        "names" => names::run(rt, words),
        "rules" => rules::run(rt, words),
        "scan" => scan::run(rt, words),
        "texts" => texts::run(rt, words),
        "graph" => graph::run(rt, words),
        "rows" => rows::run(rt, words),
        _ => Err(bad_words()),
    }
}

fn main(rt: HostRuntime) -> io::Result<()> {
    let words: Vec<String> = env::args(&rt)?.skip(1).collect(rt.alloc())?;
    match words.as_slice() {
        [what, behind @ ..] => measure(&rt, what.as_str(), behind),
        [] => Err(bad_words()),
    }
}

//! The words that the program was given, and what they ask for.

use desk_base::{Memory, Text};
use desk_choices::words_behind;
use desk_words::{Order, Query, Request, Roots, RootsFault};
use std::io::ErrorKind;
use std::{env, io};

/// The words behind the program's name, as they were given. Errors are want of memory, and a word that isn't in UTF-8.
pub fn read_words(rt: &HostRuntime) -> io::Result<Vec<Text>> {
    let mut args = Vec::new(rt.alloc());
    for arg in env::args(rt)? {
        args.push(arg)?;
    }
    match words_behind(rt.alloc(), &args) {
        Ok(words) => Ok(words),
        Err(Memory) => Err(io::Error::from(ErrorKind::OutOfMemory)),
    }
}

/// What the program does for words around the desk.
#[derive(Clone, Copy, Debug)]
pub enum Asked<'q> {
    /// A run over these roots.
    Run(&'q Roots),
    /// A run over a generated application, whose rows go into an SQL database.
    Sql,
    /// Anything else, or nothing.
    Other,
    /// Nothing, since memory ran out while the words were read.
    Memory,
}

/// What words ask for that were read.
pub fn asked_of<'q>(request: &'q Request<'_>) -> Asked<'q> {
    match request.order() {
        Ok(Order::Run { roots, .. }) => Asked::Run(roots),
        Ok(Order::GenerateSql { .. }) => Asked::Sql,
        Err(RootsFault::Memory) => Asked::Memory,
        _ => Asked::Other,
    }
}

/// The rule folder that an order names.
fn rules_in(order: &Order) -> Option<&Text> {
    match order {
        Order::Run { roots, .. } => Some(&roots.rules),
        Order::Query(Query::Compare { rules, .. }) => Some(rules),
        Order::Query(Query::Invert { rules }) => Some(rules),
        _ => None,
    }
}

/// The rule folder that words name; none where their task has none, and where they have no task.
pub(crate) fn rules_of<'q>(request: &'q Request<'_>) -> Option<&'q Text> {
    match request.order() {
        Ok(order) => rules_in(order),
        Err(_) => None,
    }
}

//! Roots on the disk, in a folder of this process alone.

use crate::commands::Command;
use crate::told;
use crate::words::text;
use desk_base::{Memory, Text};
use desk_places::{Obstacle, Place, Places, first_obstacle, place_of};
use std::io::ErrorKind;
use std::os::unix::fs::symlink;
use std::{fs, io, process};

/// The path of a name in the folder of this process.
fn path_of(rt: &HostRuntime, name: &str) -> Result<String, Memory> {
    let process = process::id(rt.process());
    Ok(format!(in rt.alloc(); "places-{process}/{name}")?)
}

/// The place of the root of a name.
fn found(rt: &HostRuntime, name: &str) -> Result<Box<io::Result<Place>>, Memory> {
    let path = path_of(rt, name)?;
    let path = Text::from_bytes(rt.alloc(), path.as_bytes())?;
    Ok(Box::new(rt.alloc(), place_of(rt, &path))?)
}

/// The places of rules, source, target and ledger.
fn places_of(rt: &HostRuntime, words: &[Text]) -> Result<Box<Places>, Memory> {
    let rules = found(rt, text(words, 0))?;
    let from = found(rt, text(words, 1))?;
    let to = found(rt, text(words, 2))?;
    let ledger = found(rt, text(words, 3))?;
    let places = Places {
        rules: Box::into_inner(rules),
        from: Box::into_inner(from),
        to: Box::into_inner(to),
        ledger: Box::into_inner(ledger),
    };
    Ok(Box::new(rt.alloc(), places)?)
}

/// Tells the first pair of roots of which one lies in the other, or the first root whose place isn't told.
pub fn tell_obstacle(rt: &HostRuntime, words: &[Text], out: &mut String) -> Result<(), Memory> {
    match first_obstacle(&*places_of(rt, words)?) {
        Some(Obstacle::Nested(pair)) => told::value(out, &Some(pair)),
        Some(Obstacle::Unknown(root)) => Ok(writeln!(out, "  unknown {root:?}")?),
        None => told::text(out, "none"),
    }
}

/// Makes a folder or a link at a path, or removes the folder that stands there.
fn change(rt: &HostRuntime, command: Command, path: &str, words: &[Text]) -> io::Result<()> {
    match command {
        Command::Folder => fs::create_dir_all(rt, path),
        Command::Link => symlink(rt, text(words, 1), path),
        Command::Remove => fs::remove_dir_all(rt, path),
        _ => Err(io::Error::from(ErrorKind::Unsupported)),
    }
}

/// Obeys a command about roots on the disk. What the disk refuses is told.
pub fn obey(
    rt: &HostRuntime,
    command: Command,
    words: &[Text],
    out: &mut String,
) -> Result<(), Memory> {
    let path = path_of(rt, text(words, 0))?;
    match change(rt, command, path.as_str(), words) {
        Ok(()) => Ok(()),
        Err(error) => Ok(writeln!(out, "  {error}")?),
    }
}

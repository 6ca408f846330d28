//! Class names, one a line. With each of them one thing is done so many times: `hash` its bytes, or `look` up its package among
//! the rules of the file `renames.properties` that is named. It prints how many there are and what came out.

use crate::reading::{bad_words, input_lines, read_rules, times_of};
use desk_rules::{RuleSet, Separator};
use std::hash::{BuildHasher, BuildHasherDefault, DefaultHasher};
use std::io;

/// The hash of a name that Rust's maps use.
fn hashed(name: &[u8]) -> u64 {
    let build: BuildHasherDefault<DefaultHasher> = BuildHasherDefault::new();
    build.hash_one(name)
}

/// The package of a name.
fn package(name: &[u8]) -> &[u8] {
    match name.iter().rposition(|byte| *byte == b'/') {
        Some(end) => name.get(..end).unwrap_or(&[]),
        None => &[],
    }
}

/// How many bytes of the package of a name a rule takes.
fn looked_up(rules: &RuleSet, name: &[u8]) -> u64 {
    match rules.package(package(name), Separator::Slash) {
        Some(front) => front.taken as u64,
        None => 0,
    }
}

fn pass(rules: &RuleSet, names: &[String], hashing: bool) -> u64 {
    let mut sum: u64 = 0;
    for name in names {
        let found = if hashing {
            hashed(name.as_bytes())
        } else {
            looked_up(rules, name.as_bytes())
        };
        sum = sum.wrapping_add(found);
    }
    sum
}

/// Goes over the names of standard input so many times, and prints their number and the sum of what came out.
pub fn run(rt: &HostRuntime, words: &[String]) -> io::Result<()> {
    let [mode, times, path] = words else {
        return Err(bad_words());
    };
    let hashing = mode.as_str() == "hash";
    let rules = read_rules(rt, &[b"renames.properties"], path.as_str())?;
    let names = input_lines(rt)?;
    let mut sum = 0;
    for _ in 0..times_of(times) {
        sum = pass(&rules, &names, hashing);
    }
    println!(rt; "{} {sum}", names.len())
}

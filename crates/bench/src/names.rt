//! Descriptors and signatures, one a line behind the letter of its kind and a blank, as `bench/texts.py` writes them. With each
//! of them one thing is done so many times: `sum` its bytes, or `read` its parts. It prints what came out.

use crate::reading::{bad_words, input_lines, times_of};
use desk_names::{Part, Want, Which, read_descriptor, read_signature};
use std::io;

/// What came out of one pass.
#[derive(Clone, Copy)]
struct Counts {
    read: u64,
    bytes: u64,
}

fn sum_of(text: &[u8]) -> u64 {
    let mut sum: u64 = 0;
    for byte in text {
        sum = sum.wrapping_add(*byte as u64);
    }
    sum
}

fn weight(part: Part<'_>) -> u64 {
    match part {
        Part::Other(text) => text.len() as u64,
        Part::Class(name) => (name.simple.len() as u64).wrapping_add(name.package.len() as u64),
    }
}

fn descriptor_weight(text: &[u8], want: Want) -> Option<u64> {
    let mut sum: u64 = 0;
    for part in read_descriptor(text, want)? {
        sum = sum.wrapping_add(weight(part));
    }
    Some(sum)
}

fn signature_weight(text: &[u8], which: Which) -> Option<u64> {
    let mut sum: u64 = 0;
    for part in read_signature(text, which)? {
        sum = sum.wrapping_add(weight(part));
    }
    Some(sum)
}

fn read_line(kind: u8, text: &[u8]) -> Option<u64> {
    match kind {
        b'f' => descriptor_weight(text, Want::Field),
        b'm' => descriptor_weight(text, Want::Method),
        b'C' => signature_weight(text, Which::Class),
        b'M' => signature_weight(text, Which::Method),
        b'F' => signature_weight(text, Which::Field),
        _ => None,
    }
}

fn pass(lines: &[String], summing: bool) -> Counts {
    let mut counts = Counts { read: 0, bytes: 0 };
    for line in lines {
        let [kind, _, text @ ..] = line.as_bytes() else {
            continue;
        };
        let found = if summing {
            Some(sum_of(text))
        } else {
            read_line(*kind, text)
        };
        if let Some(bytes) = found {
            counts.read = counts.read.wrapping_add(1);
            counts.bytes = counts.bytes.wrapping_add(bytes);
        }
    }
    counts
}

/// Goes over the lines of standard input so many times, and prints how many were read and what came out.
pub fn run(rt: &HostRuntime, words: &[String]) -> io::Result<()> {
    let [mode, times] = words else {
        return Err(bad_words());
    };
    let summing = mode.as_str() == "sum";
    let lines = input_lines(rt)?;
    let mut counts = Counts { read: 0, bytes: 0 };
    for _ in 0..times_of(times) {
        counts = pass(&lines, summing);
    }
    println!(rt; "{} {}", counts.read, counts.bytes)
}

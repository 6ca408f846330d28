//! The words of a line.

ghost use Rattle.std.specs.Prelude.{◌≤◌, length, IfOk};

use desk_base::{Memory, Text};
use std::alloc::Global;
use std::str;

/// The value of a digit of base 16, or 0.
fn digit(byte: u8) -> u8
    ensures { result ≤ 15 }
{
    match byte {
        b'0'..=b'9' => byte - b'0',
        b'a'..=b'f' => byte - b'a' + 10,
        b'A'..=b'F' => byte - b'A' + 10,
        _ => 0,
    }
}

/// The decimal number that these digits write, or 0.
fn number(digits: &[u8]) -> u32 {
    match str::from_utf8(digits) {
        Ok(digits) => digits.parse::<u32>().unwrap_or(0),
        Err(_) => 0,
    }
}

/// Appends what the bytes behind a backslash stand for, and gives those behind it.
fn append_escape<'a>(text: &mut Text, behind: &'a [u8]) -> Result<&'a [u8], Memory>
    ensures { IfOk result (λ left. length left.now ≤ length behind.now) }
{
    match behind {
        [] => Ok(behind),
        [b'x', high, low, left @ ..] => {
            text.push(digit(*high) * 16 + digit(*low))?;
            Ok(left)
        }
        [b'e', left @ ..] => Ok(left),
        [letter, left @ ..] => {
            text.push(match letter {
                b's' => b' ',
                b'n' => b'\n',
                b'r' => b'\r',
                b't' => b'\t',
                _ => *letter,
            })?;
            Ok(left)
        }
    }
}

/// A piece of a word without repetitions, its escapes read.
fn piece_of(alloc: Global, piece: &[u8]) -> Result<Text, Memory> {
    let mut text = Text::empty(alloc);
    let mut left = piece;
    while let Some((first, behind)) = left.split_first() {
        if *first == b'\\' {
            left = append_escape(&mut text, behind)?;
        } else {
            text.push(*first)?;
            left = behind;
        }
    }
    Ok(text)
}

/// Appends a piece so many times.
fn append_times(text: &mut Text, piece: &[u8], times: u32) -> Result<(), Memory> {
    for _ in 0..times {
        text.append(piece)?;
    }
    Ok(())
}

/// Appends what a repetition stands for, of which the bytes behind its opening brace are given, and gives those behind it.
fn append_repeated<'a>(alloc: Global, text: &mut Text, behind: &'a [u8]) -> Result<&'a [u8], Memory>
    ensures { IfOk result (λ left. length left.now ≤ length behind.now) }
{
    let (Some(star), Some(end)) = (
        behind.iter().position(|byte| *byte == b'*'),
        behind.iter().position(|byte| *byte == b'}'),
    ) else {
        return Ok(behind);
    };
    if star < end {
        let piece = piece_of(alloc, &behind[star + 1..end])?;
        append_times(text, piece.as_bytes(), number(&behind[..star]))?;
    }
    Ok(&behind[end + 1..])
}

/// A word, its escapes and repetitions read.
fn word_of(alloc: Global, word: &[u8]) -> Result<Text, Memory> {
    let mut text = Text::empty(alloc);
    let mut left = word;
    while let Some((first, behind)) = left.split_first() {
        if *first != b'\\' {
            text.push(*first)?;
            left = behind;
        } else if let Some((b'{', inside)) = behind.split_first() {
            left = append_repeated(alloc, &mut text, inside)?;
        } else {
            left = append_escape(&mut text, behind)?;
        }
    }
    Ok(text)
}

/// The words of a line, their escapes read. The only error is want of memory.
pub fn words_of(alloc: Global, line: &[u8]) -> Result<Vec<Text>, Memory> {
    let mut words = Vec::new(alloc);
    for word in line.split(|byte| *byte == b' ') {
        words.push(word_of(alloc, word)?)?;
    }
    Ok(words)
}

//! The key and the value of a logical line.

ghost use Rattle.std.specs.Prelude.{◌≡◌, ◌≢◌, ◌||◌, ◌≤◌, ◌<◌, ◌+◌, [], false, length, drop, None, Some, slice_index, MatchOption, IfOk, IfErr, if◌then◌else◌};
ghost use Rattle.desk_base.specs.Limits.{rule_size};
ghost use Rattle.desk_properties.specs.Lines.{is_end_byte};
ghost use Rattle.desk_properties.specs.Entries.{is_sign_byte, is_hex, hex_value, hex_number, escaped};
ghost use Rattle.desk_properties.specs.Reading.{begins_break, is_stop, is_stop_byte, natural_line_from, line_from, IsPair, IsNumberRead, IsEscapeRead, IsEscapeFault, IsNextRead, IsNextFault, IsPartRead, IsPartFault, IsGapRead, IsSignRead, IsEntryRead, IsEntryFault};

use crate::lines::{is_line_end, is_white, next_line, resume, skip_white};
use crate::{PropError, PropFault};
use desk_base::Text;
use std::alloc::Global;

/// Which part of an entry is read: a key ends where `=`, `:` or white space stands, a value with its line.
#[derive(Clone, Copy)]
pub enum Part {
    /// What stands before the sign or the white space.
    Key,
    /// What stands behind it, up to the end of the line.
    Value,
}

/// What a key or a value stands for, and the offset behind it.
#[derive(Drop)]
pub struct ReadPart {
    /// The key or the value, with its escapes undone.
    pub text: Text,
    /// The offset behind it, from the start of the file, in bytes.
    pub next: usize,
}

/// The entry of a logical line, and the offset at which the next natural line begins.
#[derive(Drop)]
pub struct ReadEntry {
    /// The key, with its escapes undone.
    pub key: Text,
    /// The value, with its escapes undone; empty where the line has a key alone.
    pub value: Text,
    /// The offset of the next natural line, from the start of the file, in bytes.
    pub next: usize,
}

/// The number of four hexadecimal digits, and the offset behind them.
#[derive(Clone, Copy)]
struct ReadNumber {
    number: u32,
    next: usize,
}

/// The value of a hexadecimal digit; none exactly where the byte is no digit.
fn hex_value(byte: u8) -> Option<u8>
    ensures { result ≡ (if is_hex byte then Some (hex_value byte) else None) }
{
    match byte {
        b'0'..=b'9' => Some(byte - b'0'),
        b'A'..=b'F' => Some(byte - b'A' + 10),
        b'a'..=b'f' => Some(byte - b'a' + 10),
        _ => None,
    }
}

/// The number of the four hexadecimal digits at an offset of a logical line; none exactly where fewer stand there.
fn read_number(file: &[u8], from: usize) -> Option<ReadNumber>
    requires { from ≤ length file.now }
    ensures { MatchOption result
        (hex_number 0 4 (line_from file.now from) ≡ None)
        (λ read. IsNumberRead file.now from read.number read.next) }
{
    let mut number = 0;
    let mut next = from;
    for _read in 0..4u32 {
        next = resume(file, next);
        if next >= file.len() {
            return None;
        }
        match hex_value(file[next]) {
            None => return None,
            Some(value) => {
                number = 16 * number + u32::from(value);
                next += 1;
            }
        }
    }
    Some(ReadNumber { number, next })
}

/// What a byte behind a backslash stands for.
fn escaped(byte: u8) -> u8
    ensures { result ≡ escaped byte }
{
    match byte {
        b't' => b'\t',
        b'n' => b'\n',
        b'r' => b'\r',
        b'f' => 0x0C,
        other => other,
    }
}

/// Adds the character whose number stands behind a `\u` to a text, and answers the offset behind the number. The `\u`
/// stands at an offset.
fn append_number(file: &[u8], from: usize, text: &mut Text) -> Result<usize, PropError>
    requires inside { from + 2 ≤ length file.now }
    requires small { length file.now ≤ rule_size }
    requires pair { IsPair file.now from }
    requires letter { slice_index file.now (from + 1) ≡ 117 }
    ensures read { IfOk result (λ next. IsEscapeRead file.now from text.old text.new next) }
    ensures refused { IfErr result (IsEscapeFault file.now from) }
{
    let fault = PropFault::Escape { at: from as u32 };
    match read_number(file, from + 2) {
        None => Err(PropError::Fault(fault)),
        Some(read) => match char::from_u32(read.number) {
            None => Err(PropError::Fault(fault)),
            Some(character) => {
                let mut buffer = [0; 4];
                text.append(character.encode_utf8(&mut buffer).as_bytes())?;
                Ok(read.next)
            }
        },
    }
}

/// Adds what an escape stands for to a text, and answers the offset behind it. Its backslash stands at an offset, and no
/// line end behind it.
fn append_escape(file: &[u8], from: usize, text: &mut Text) -> Result<usize, PropError>
    requires inside { from + 2 ≤ length file.now }
    requires small { length file.now ≤ rule_size }
    requires pair { IsPair file.now from }
    ensures read { IfOk result (λ next. IsEscapeRead file.now from text.old text.new next) }
    ensures refused { IfErr result (IsEscapeFault file.now from) }
{
    let byte = file[from + 1];
    if byte == b'u' {
        append_number(file, from, text)
    } else {
        text.push(escaped(byte))?;
        Ok(from + 2)
    }
}

/// Adds what stands next in a key or a value to a text: a byte, or what an escape stands for. Answers the offset behind
/// it.
fn append_next(file: &[u8], from: usize, text: &mut Text) -> Result<usize, PropError>
    requires small { length file.now ≤ rule_size }
    requires some { natural_line_from file.now from ≢ [] }
    requires inside { from < length file.now }
    requires unbroken { begins_break (drop from file.now) ≡ false }
    ensures read { IfOk result (λ next. IsNextRead file.now from text.old text.new next) }
    ensures refused { IfErr result (IsNextFault file.now from) }
{
    let byte = file[from];
    if byte == b'\\' {
        append_escape(file, from, text)
    } else {
        text.push(byte)?;
        Ok(from + 1)
    }
}

/// Whether a byte is `=` or `:`.
fn is_sign(byte: u8) -> bool
    ensures { result ≡ is_sign_byte byte }
{
    byte == b'=' || byte == b':'
}

/// Whether a byte that no backslash escapes ends a key, or a value, or ends the line.
fn is_stop_byte(byte: u8, part: Part) -> bool
    ensures { result ≡ (is_end_byte byte || is_stop_byte part byte) }
{
    match part {
        Part::Key => is_line_end(byte) || is_sign(byte) || is_white(byte),
        Part::Value => is_line_end(byte),
    }
}

/// Whether a key, or a value, ends at an offset.
fn is_stop(file: &[u8], at: usize, part: Part) -> bool
    requires { at ≤ length file.now }
    ensures { result ≡ is_stop part (natural_line_from file.now at) }
{
    if at < file.len() {
        is_stop_byte(file[at], part)
    } else {
        true
    }
}

/// The key or the value that begins at an offset of a logical line.
fn read_part(alloc: Global, file: &[u8], from: usize, part: Part) -> Result<ReadPart, PropError>
    requires inside { from ≤ length file.now }
    requires small { length file.now ≤ rule_size }
    ensures read { IfOk result (λ read. IsPartRead file.now part from read.text read.next) }
    ensures refused { IfErr result (IsPartFault file.now part from) }
{
    let mut text = Text::empty(alloc);
    let mut next = resume(file, from);
    while !is_stop(file, next, part) {
        let behind = append_next(file, next, &mut text)?;
        next = resume(file, behind);
    }
    Ok(ReadPart { text, next })
}

/// Where a logical line goes on behind white space.
fn skip_gap(file: &[u8], from: usize) -> usize
    requires { from ≤ length file.now }
    ensures { IsGapRead file.now from result }
{
    let mut at = resume(file, from);
    while at < file.len() && is_white(file[at]) {
        at = resume(file, at + 1);
    }
    at
}

/// Where the value of a logical line begins, which goes on at an offset behind its key.
fn skip_sign(file: &[u8], from: usize) -> usize
    requires { from ≤ length file.now }
    ensures { IsSignRead file.now from result }
{
    let at = skip_gap(file, from);
    if at < file.len() && is_sign(file[at]) {
        skip_gap(file, at + 1)
    } else {
        at
    }
}

/// The entry of the logical line that begins at an offset. The fault of the line is its first faulty escape.
pub fn read_entry(alloc: Global, file: &[u8], from: usize) -> Result<ReadEntry, PropError>
    requires inside { from < length file.now }
    requires small { length file.now ≤ rule_size }
    ensures read { IfOk result (λ read. IsEntryRead file.now from read.key read.value read.next) }
    ensures refused { IfErr result (IsEntryFault file.now from) }
{
    let key = read_part(alloc, file, from, Part::Key)?;
    let at = skip_sign(file, key.next);
    let value = read_part(alloc, file, at, Part::Value)?;
    let next = next_line(file, value.next);
    Ok(ReadEntry {
        key: key.text,
        value: value.text,
        next,
    })
}

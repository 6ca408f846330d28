//! A place in bytes, and the bytes from there to an end.

ghost use Rattle.std.specs.Prelude.{◌≡◌, ◌+◌, ◌<◌, ◌≤◌, length, take, IfErr, IfOk, OnErr, OnOk};
ghost use Rattle.std.specs.Int.{w8, w16, w32, from_be_bytes};
ghost use Rattle.desk_base.specs.Limits.{file_size};
ghost use Rattle.desk_base.specs.Spot.{Spot, past, first};

use byteorder::{BigEndian, ByteOrder};
use std::marker::Model;

/// A cursor had fewer bytes left than were asked for: an item reaches past the end.
#[derive(Clone, Copy, Debug, PartialEq, Eq)]
pub struct UnexpectedEnd {
    /// The offset of the first byte that was asked for, from the start of the file, in bytes.
    pub at: u32,
}

/// A place in bytes, and the bytes from there to an end. Contracts see the place, counted in bytes from the start of the
/// file, and the bytes that are left. No call takes memory.
///
/// Each call that takes bytes answers [`UnexpectedEnd`] with its place exactly where fewer are left, and the cursor is then as it
/// was.
#[derive(Debug, Drop)]
pub struct Cursor<'a> {
    at: u32,
    rest: &'a [u8],
}

impl<'a> Model for Cursor<'a> {
    ghost Value = { Spot };

    ghost view = { λ c. record { at = c.at; left = c.rest.now } };

    ghost invariant = { λ c. c.at + length c.rest.now ≤ file_size };
}

impl<'a> Cursor<'a> {
    /// A cursor at the start of bytes, of which there are at most 67,108,864.
    pub fn new(bytes: &'a [u8]) -> Cursor<'a>
        requires { length bytes.now ≤ file_size }
        ensures { result ≡ record { at = 0; left = bytes.now } }
    {
        Cursor { at: 0, rest: bytes }
    }

    /// The offset from the start of the file, in bytes.
    pub fn at(&self) -> u32
        ensures value { result ≡ self.now.at }
        ensures bound { result + length self.now.left ≤ file_size }
    {
        self.at
    }

    /// How many bytes are left.
    pub fn left(&self) -> u32
        ensures { result ≡ length self.now.left }
    {
        self.rest.len() as u32
    }

    /// The next `n` bytes.
    pub fn take(&mut self, n: u32) -> Result<&'a [u8], UnexpectedEnd>
        ensures enough { OnOk result (n ≤ length self.old.left) }
        ensures bytes { IfOk result (λ bytes. bytes.now ≡ take n self.old.left) }
        ensures moved { OnOk result (self.new ≡ past n self.old) }
        ensures short { OnErr result (length self.old.left < n) }
        ensures place { IfErr result (λ short. short.at ≡ self.old.at) }
        ensures same { OnErr result (self.new ≡ self.old) }
    {
        if self.rest.len() < n as usize {
            return Err(UnexpectedEnd { at: self.at });
        }
        let (front, rest) = self.rest.split_at(n as usize);
        self.rest = rest;
        self.at += n;
        Ok(front)
    }

    /// The next byte, as a number.
    pub fn u1(&mut self) -> Result<u8, UnexpectedEnd>
        ensures enough { OnOk result (1 ≤ length self.old.left) }
        ensures number { IfOk result (λ number. number ≡ from_be_bytes w8 (take 1 self.old.left)) }
        ensures moved { OnOk result (self.new ≡ past 1 self.old) }
        ensures short { OnErr result (length self.old.left < 1) }
        ensures place { IfErr result (λ short. short.at ≡ self.old.at) }
        ensures same { OnErr result (self.new ≡ self.old) }
    {
        let bytes = self.take(1)?;
        Ok(bytes[0])
    }

    /// The number in the next two bytes, the high one first.
    pub fn u2(&mut self) -> Result<u16, UnexpectedEnd>
        ensures enough { OnOk result (2 ≤ length self.old.left) }
        ensures number { IfOk result (λ number. number ≡ from_be_bytes w16 (take 2 self.old.left)) }
        ensures moved { OnOk result (self.new ≡ past 2 self.old) }
        ensures short { OnErr result (length self.old.left < 2) }
        ensures place { IfErr result (λ short. short.at ≡ self.old.at) }
        ensures same { OnErr result (self.new ≡ self.old) }
    {
        let bytes = self.take(2)?;
        Ok(BigEndian::read_u16(bytes))
    }

    /// The number in the next four bytes, the highest first.
    pub fn u4(&mut self) -> Result<u32, UnexpectedEnd>
        ensures enough { OnOk result (4 ≤ length self.old.left) }
        ensures number { IfOk result (λ number. number ≡ from_be_bytes w32 (take 4 self.old.left)) }
        ensures moved { OnOk result (self.new ≡ past 4 self.old) }
        ensures short { OnErr result (length self.old.left < 4) }
        ensures place { IfErr result (λ short. short.at ≡ self.old.at) }
        ensures same { OnErr result (self.new ≡ self.old) }
    {
        let bytes = self.take(4)?;
        Ok(BigEndian::read_u32(bytes))
    }

    /// A cursor over the next `n` bytes, with offsets from the start of the file; this one then stands behind them.
    pub fn fence(&mut self, n: u32) -> Result<Cursor<'a>, UnexpectedEnd>
        ensures enough { OnOk result (n ≤ length self.old.left) }
        ensures inner { IfOk result (λ inner. inner ≡ first n self.old) }
        ensures moved { OnOk result (self.new ≡ past n self.old) }
        ensures short { OnErr result (length self.old.left < n) }
        ensures place { IfErr result (λ short. short.at ≡ self.old.at) }
        ensures same { OnErr result (self.new ≡ self.old) }
    {
        let at = self.at;
        let rest = self.take(n)?;
        Ok(Cursor { at, rest })
    }
}

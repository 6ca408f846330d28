//! Which bytes texts begin with.

ghost use Rattle.std.specs.Prelude.{◌≡◌, ◌≤◌, true, false, length, replicate, set};
ghost use Rattle.desk_patterns.specs.FirstBytes.{is_first, IsFirstIn, IsNextIn, with_byte};

use memchr::{memchr, memchr2, memchr3};
use std::marker::Model;

/// Bytes, where they are three at most.
#[derive(Clone, Copy, Debug)]
enum Few {
    Nothing,
    One(u8),
    Two(u8, u8),
    Three(u8, u8, u8),
    /// More than three.
    Many,
}

/// The bytes with which texts begin. Contracts see for each byte whether one begins with it.
#[derive(Debug, Drop)]
pub(crate) struct FirstBytes {
    is_first: [bool; 256],
    few: Few,
}

impl Model for FirstBytes {
    ghost use Rattle.std.specs.Prelude.{List, Bool};
    ghost use Rattle.desk_patterns.specs.FirstBytes.{IsCovered};

    ghost Value = { List Bool };

    ghost view = { λ f. f.is_first };

    ghost invariant = { λ f. IsCovered f.is_first f.few };
}

/// For each byte no text that begins with it.
fn no_firsts() -> [bool; 256]
    ensures { result ≡ replicate 256 false }
{
    [false; 256]
}

impl Few {
    /// These bytes and one more.
    fn with(self, byte: u8) -> Few
        ensures { result ≡ with_byte byte self }
    {
        match self {
            Few::Nothing => Few::One(byte),
            Few::One(first) => Few::Two(first, byte),
            Few::Two(first, second) => Few::Three(first, second, byte),
            Few::Three(_, _, _) => Few::Many,
            Few::Many => Few::Many,
        }
    }
}

impl FirstBytes {
    /// The first bytes of no texts.
    pub(crate) fn none() -> FirstBytes
        ensures { result ≡ replicate 256 false }
    {
        FirstBytes {
            is_first: no_firsts(),
            few: Few::Nothing,
        }
    }

    /// Adds the byte that a further text begins with.
    pub(crate) fn add(&mut self, byte: u8)
        ensures added { self.new ≡ set self.old byte true }
        ensures there { is_first self.new byte ≡ true }
    {
        let place = usize::from(byte);
        if !self.is_first[place] {
            self.few = self.few.with(byte);
        }
        self.is_first[place] = true;
    }

    /// The first place of a text with one of the bytes.
    fn find(&self, text: &[u8]) -> Option<usize>
        ensures { IsFirstIn self.now text.now result }
    {
        match self.few {
            Few::Nothing => None,
            Few::One(first) => memchr(first, text),
            Few::Two(first, second) => memchr2(first, second, text),
            Few::Three(first, second, third) => memchr3(first, second, third, text),
            Few::Many => text
                .iter()
                .position(|byte| self.is_first[usize::from(*byte)]),
        }
    }

    /// The first place of a text, from one on, with one of the bytes; its length where there is none.
    pub(crate) fn next_in(&self, text: &[u8], from: usize) -> usize
        requires { from ≤ length text.now }
        ensures { IsNextIn self.now text.now from result }
    {
        match self.find(&text[from..]) {
            None => text.len(),
            Some(at) => from + at,
        }
    }
}

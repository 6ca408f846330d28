//! The pieces of a line: what its bytes are put together from.

ghost use Rattle.std.specs.Prelude.{◌≡◌, ◌≢◌, ◌≤◌, ◌+◌, ◌++◌, ◌∷◌, [], length};
ghost use Rattle.desk_report.specs.Joined.{joined, pair_pieces};
ghost use Rattle.desk_report.specs.Pieces.{pieces_text};

use desk_base::Text;
use std::marker::Model;

/// The most pieces of a line.
const MOST: usize = 16;

/// A piece of a line.
#[derive(Clone, Copy)]
pub(crate) enum Piece<'a> {
    /// Bytes, which are written as they are.
    Plain(&'a [u8]),
    /// A text, of which each byte that isn't printed as itself is shown by `\` and two hexadecimal digits.
    Shown(&'a [u8]),
    /// A number in decimal digits.
    Number(u64),
    /// A digest in hexadecimal digits.
    Hex(&'a [u8; 32]),
}

/// The pieces of a line, one behind the other, at most sixteen. They take no memory.
#[derive(Drop)]
pub(crate) struct Pieces<'a> {
    list: [Piece<'a>; MOST],
    count: usize,
}

impl<'a> Model for Pieces<'a> {
    ghost use Rattle.std.specs.Prelude.{List, take, length, ◌≡◌, ◌≤◌};
    ghost use Rattle.desk_report.specs.declared.pieces.Piece.{Piece};

    ghost Value = { List Piece };

    ghost view = { λ p. take p.count p.list };

    ghost invariant = { λ p. (p.count ≤ 16) × (length p.list ≡ 16) };
}

impl<'a> Pieces<'a> {
    /// A line to begin with, of no pieces.
    pub(crate) fn none() -> Pieces<'a>
        ensures { result ≡ [] }
    {
        Pieces {
            list: [Piece::Plain(b""); MOST],
            count: 0,
        }
    }

    /// A line of these pieces, of which there are sixteen at most.
    pub(crate) fn of(pieces: &[Piece<'a>]) -> Pieces<'a>
        requires { length pieces.now ≤ 16 }
        ensures { result ≡ pieces.now }
    {
        Pieces::none().and(pieces)
    }

    /// These pieces, and more behind them.
    pub(crate) fn and(self, more: &[Piece<'a>]) -> Pieces<'a>
        requires { length self + length more.now ≤ 16 }
        ensures { result ≡ self.entry ++ more.now }
    {
        let mut pieces = self;
        for piece in more {
            pieces.push(*piece);
        }
        pieces
    }

    /// A line of one piece, a text that is written as it is.
    pub(crate) fn plain(text: &'a [u8]) -> Pieces<'a>
        ensures text { pieces_text result ≡ text.now }
        ensures one { length result ≡ 1 }
    {
        Pieces::of(&[Piece::Plain(text)])
    }

    /// A text as it is, and behind it two texts as they are shown, on a line.
    pub(crate) fn pair(text: &'a [u8], first: &'a Text, second: &'a Text) -> Pieces<'a>
        ensures { pieces_text result ≡ joined (pair_pieces text.now first.now second.now) }
    {
        Pieces::of(&[
            Piece::Plain(text),
            Piece::Shown(first.as_bytes()),
            Piece::Plain(b" "),
            Piece::Shown(second.as_bytes()),
            Piece::Plain(b"\n"),
        ])
    }

    fn push(&mut self, piece: Piece<'a>)
        requires { length self.old ≢ 16 }
        ensures { self.new ≡ self.old ++ piece.entry ∷ [] }
    {
        self.list[self.count] = piece;
        self.count += 1;
    }

    /// The pieces in their order.
    pub(crate) fn as_slice(&self) -> &[Piece<'a>]
        ensures { result.now ≡ self.now }
    {
        &self.list[..self.count]
    }
}

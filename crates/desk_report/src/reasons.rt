//! Why files are refused, as it is told.

ghost use Rattle.std.specs.Prelude.{◌≡◌, ◌≤◌, length};
ghost use Rattle.desk_report.specs.Joined.{joined, numbered_pieces, placed_pieces};
ghost use Rattle.desk_report.specs.Kinds.{kind_name};
ghost use Rattle.desk_report.specs.Pieces.{pieces_text};
ghost use Rattle.desk_report.specs.Texts.{code_pieces, reason_pieces};

use crate::lines::Reason;
use crate::pieces::{Piece, Pieces};
use desk_base::{CodeFault, FaultKind};

/// The name of a kind of fault of a class, as it is written.
pub fn kind_name(kind: FaultKind) -> &'static [u8]
    ensures { result.now ≡ kind_name kind }
{
    match kind {
        FaultKind::Magic => b"magic",
        FaultKind::Version => b"version",
        FaultKind::Truncated => b"truncated",
        FaultKind::PoolCount => b"pool-count",
        FaultKind::Tag => b"tag",
        FaultKind::Utf8Form => b"utf8-form",
        FaultKind::Index => b"index",
        FaultKind::RefKind => b"ref-kind",
        FaultKind::ClassName => b"class-name",
        FaultKind::Descriptor => b"descriptor",
        FaultKind::AttributeLength => b"attribute-length",
        FaultKind::CodeLength => b"code-length",
        FaultKind::FrameTag => b"frame-tag",
        FaultKind::TypeTag => b"type-tag",
        FaultKind::ElementTag => b"element-tag",
        FaultKind::TargetType => b"target-type",
        FaultKind::PathKind => b"path-kind",
        FaultKind::Depth => b"depth",
        FaultKind::Trailing => b"trailing",
        FaultKind::Twins => b"twins",
    }
}

/// The pieces of two numbers, each behind what stands before it.
fn two_numbers<'a>(front: &'a [u8], first: u64, middle: &'a [u8], second: u64) -> Pieces<'a>
    ensures text { pieces_text result ≡ joined (numbered_pieces front.now first middle.now second) }
    ensures few { length result ≤ 5 }
{
    Pieces::of(&[
        Piece::Plain(front),
        Piece::Number(first),
        Piece::Plain(middle),
        Piece::Number(second),
        Piece::Plain(b"\n"),
    ])
}

/// The pieces of a fault of a code array.
fn code_pieces<'a>(fault: CodeFault) -> Pieces<'a>
    ensures text { pieces_text result ≡ joined (code_pieces fault) }
    ensures few { length result ≤ 5 }
{
    match fault {
        CodeFault::Opcode { at } => code_fault(b" code opcode at=", at),
        CodeFault::UnexpectedEnd { at } => code_fault(b" code short at=", at),
        CodeFault::Switch { at } => code_fault(b" code switch at=", at),
        CodeFault::Operand { at } => code_fault(b" code operand at=", at),
    }
}

/// The pieces of a place behind what stands before it, at the end of a line.
fn code_fault<'a>(front: &'a [u8], at: u32) -> Pieces<'a>
    ensures text { pieces_text result ≡ joined (placed_pieces front.now at) }
    ensures few { length result ≤ 5 }
{
    Pieces::of(&[
        Piece::Plain(front),
        Piece::Number(at as u64),
        Piece::Plain(b"\n"),
    ])
}

impl Reason {
    /// The pieces behind the path of a refused file.
    pub(crate) fn pieces<'a>(self) -> Pieces<'a>
        ensures text { pieces_text result ≡ joined (reason_pieces self) }
        ensures few { length result ≤ 5 }
    {
        match self {
            Reason::Malformed(fault) => Pieces::of(&[
                Piece::Plain(b" malformed "),
                Piece::Plain(kind_name(fault.kind)),
                Piece::Plain(b" at="),
                Piece::Number(fault.at as u64),
                Piece::Plain(b"\n"),
            ]),
            Reason::Overlong { index, length } => {
                two_numbers(b" overlong index=", index as u64, b" length=", length)
            }
            Reason::PoolFull { count, needed } => {
                two_numbers(
                    b" pool-full count=",
                    count as u64,
                    b" needed=",
                    needed as u64,
                )
            }
            Reason::Twins { first, second } => {
                two_numbers(b" twins first=", first as u64, b" second=", second as u64)
            }
            Reason::BadLine { at } => Pieces::of(&[
                Piece::Plain(b" bad-line at="),
                Piece::Number(at as u64),
                Piece::Plain(b"\n"),
            ]),
            Reason::Unsettled { at } => Pieces::of(&[
                Piece::Plain(b" unsettled at="),
                Piece::Number(at),
                Piece::Plain(b"\n"),
            ]),
            Reason::Code(fault) => code_pieces(fault),
        }
    }
}

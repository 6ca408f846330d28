//! The lines of the faults of rule files.

ghost use Rattle.std.specs.Prelude.{◌≡◌, ◌≤◌, length};
ghost use Rattle.desk_report.specs.Joined.{joined};
ghost use Rattle.desk_report.specs.Pieces.{pieces_text};
ghost use Rattle.desk_report.specs.RuleFaults.{prop_fault_pieces, rule_fault_text};

use crate::pieces::{Piece, Pieces};
use desk_rules::{PropFault, RuleFault};

/// The pieces behind the name of a file that isn't one of properties.
fn prop_fault_pieces<'a>(fault: PropFault) -> Pieces<'a>
    ensures text { pieces_text result ≡ joined (prop_fault_pieces fault) }
    ensures few { length result ≤ 3 }
{
    match fault {
        PropFault::NotUtf8 { at } => Pieces::of(&[
            Piece::Plain(b" not-utf8 "),
            Piece::Number(at as u64),
            Piece::Plain(b"\n"),
        ]),
        PropFault::Escape { at } => Pieces::of(&[
            Piece::Plain(b" escape "),
            Piece::Number(at as u64),
            Piece::Plain(b"\n"),
        ]),
    }
}

/// The pieces of the line of a fault of rule files.
pub(crate) fn rule_fault_pieces(fault: &RuleFault) -> Pieces<'_>
    ensures { pieces_text result ≡ rule_fault_text fault.now }
{
    match fault {
        RuleFault::NoRenames => Pieces::plain(b"migrate: 22 no renames\n"),
        RuleFault::Properties { file, fault } => Pieces::of(&[
            Piece::Plain(b"migrate: 22 properties "),
            Piece::Shown(file.as_bytes()),
        ])
        .and(prop_fault_pieces(*fault).as_slice()),
        RuleFault::BadKey { file, key } => Pieces::pair(b"migrate: 22 bad key ", file, key),
        RuleFault::BadValue { file, key } => Pieces::pair(b"migrate: 22 bad value ", file, key),
        RuleFault::MissingText { key, name } => Pieces::pair(
            b"migrate: 22 missing text ",
            key,
            name,
        ),
        RuleFault::Chain {
            kind,
            first,
            second,
        } => Pieces::of(&[
            Piece::Plain(b"migrate: 22 chain "),
            Piece::Number(kind.number() as u64),
            Piece::Plain(b" "),
            Piece::Shown(first.as_bytes()),
            Piece::Plain(b" "),
            Piece::Shown(second.as_bytes()),
            Piece::Plain(b"\n"),
        ]),
    }
}

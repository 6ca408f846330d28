//! Lines in a text in memory.

ghost use Rattle.std.specs.Prelude.{◌≡◌, ◌++◌, OnOk};
ghost use Rattle.std.specs.List.{flat_map};
ghost use Rattle.hex.specs.Hex.{encode_lower};
ghost use Rattle.desk_base.specs.Shown.{shown, shown_byte};
ghost use Rattle.desk_report.specs.Pieces.{piece_text, pieces_text};
ghost use Rattle.desk_report.specs.Texts.{line_text};

use crate::lines::ReportLine;
use crate::pieces::Piece;
use desk_base::{Memory, Text, show_byte};
use itoa::Buffer;

/// Adds the bytes of a text, each as it is shown.
#[tactic(auto, using(desk_base::proofs::Lists::texts_more))]
fn append_bytes(lines: &mut Text, text: &[u8]) -> Result<(), Memory>
    ensures { OnOk result (lines.new ≡ lines.old ++ flat_map shown_byte text.now) }
{
    for byte in text {
        lines.append(show_byte(*byte).as_bytes())?;
    }
    Ok(())
}

/// Adds a text as a report shows it. The only error is want of memory.
pub fn append_shown(lines: &mut Text, text: &[u8]) -> Result<(), Memory>
    ensures { OnOk result (lines.new ≡ lines.old ++ shown text.now) }
{
    if text.is_empty() {
        lines.append(b"\\-")
    } else {
        append_bytes(lines, text)
    }
}

/// Adds a digest in hexadecimal digits.
fn append_hex(lines: &mut Text, digest: &[u8; 32]) -> Result<(), Memory>
    ensures { OnOk result (lines.new ≡ lines.old ++ encode_lower digest.now) }
{
    let mut digits = [0; 64];
    let _ = hex::encode_to_slice(digest.as_slice(), &mut digits);
    lines.append(&digits)
}

/// Adds a piece.
fn append_piece(lines: &mut Text, piece: Piece<'_>) -> Result<(), Memory>
    ensures { OnOk result (lines.new ≡ lines.old ++ piece_text piece.entry) }
{
    match piece {
        Piece::Plain(bytes) => lines.append(bytes),
        Piece::Shown(text) => append_shown(lines, text),
        Piece::Number(number) => lines.append(Buffer::new().format(number).as_bytes()),
        Piece::Hex(digest) => append_hex(lines, digest),
    }
}

/// Adds pieces, one behind the other.
#[tactic(auto, using(desk_base::proofs::Lists::texts_more))]
fn append_pieces(lines: &mut Text, pieces: &[Piece<'_>]) -> Result<(), Memory>
    ensures { OnOk result (lines.new ≡ lines.old ++ pieces_text pieces.now) }
{
    for piece in pieces {
        append_piece(lines, *piece)?;
    }
    Ok(())
}

/// Adds the line of a file, as a report has it. The only error is want of memory.
pub fn append_line(lines: &mut Text, line: &ReportLine) -> Result<(), Memory>
    ensures { OnOk result (lines.new ≡ lines.old ++ line_text line.now) }
{
    append_pieces(lines, line.pieces().as_slice())
}

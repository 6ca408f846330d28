//! The lines of call sites, and of a class that gives none.

ghost use Rattle.std.specs.Prelude.{◌≡◌, ◌++◌, ◌<◌, ◌∷◌, [], OnOk, length, codes};
ghost use Rattle.std.specs.List.{flat_map};
ghost use Rattle.desk_base.specs.Shown.{hex_digit};
ghost use Rattle.desk_report.specs.Joined.{joined};
ghost use Rattle.desk_sites.specs.Hex.{hex_byte};
ghost use Rattle.desk_sites.specs.Lines.{site_line, refusal};
ghost use Rattle.desk_sites.specs.Pieces.{piece_text, pieces_text};

use crate::members::{member_class, member_descriptor, member_name, text_at};
use crate::sites::Site;
use desk_base::{Memory, Text};
use desk_pool::Pool;
use desk_report::append_shown;
use itoa::Buffer;

/// A piece of a line.
#[derive(Clone, Copy)]
pub(crate) enum Piece<'a> {
    /// Bytes as they are.
    Plain(&'a [u8]),
    /// A text as a report shows it.
    Shown(&'a [u8]),
    /// A number in decimal digits.
    Number(u64),
    /// A byte in two hexadecimal digits.
    Hex(u8),
}

/// A digit of base 16, in lower case.
fn hex_digit(digit: u8) -> u8
    requires { digit < 16 }
    ensures { result ≡ hex_digit digit }
{
    if digit < 10 {
        b'0' + digit
    } else {
        b'a' - 10 + digit
    }
}

/// Adds a byte in two hexadecimal digits. The only error is want of memory.
fn append_hex(lines: &mut Text, byte: u8) -> Result<(), Memory>
    ensures { OnOk result (lines.new ≡ lines.old ++ hex_byte byte) }
{
    lines.append(&[hex_digit(byte / 16), hex_digit(byte % 16)])
}

/// Adds a piece. The only error is want of memory.
fn append_piece(lines: &mut Text, piece: Piece<'_>) -> Result<(), Memory>
    ensures { OnOk result (lines.new ≡ lines.old ++ piece_text piece.entry) }
{
    match piece {
        Piece::Plain(bytes) => lines.append(bytes),
        Piece::Shown(text) => append_shown(lines, text),
        Piece::Number(number) => lines.append(Buffer::new().format(number).as_bytes()),
        Piece::Hex(byte) => append_hex(lines, byte),
    }
}

/// Adds pieces, one behind the other. The only error is want of memory.
#[tactic(auto, using(desk_base::proofs::Lists::texts_more))]
fn append_pieces(lines: &mut Text, pieces: &[Piece<'_>]) -> Result<(), Memory>
    ensures { OnOk result (lines.new ≡ lines.old ++ pieces_text pieces.now) }
{
    for piece in pieces {
        append_piece(lines, *piece)?;
    }
    Ok(())
}

/// Adds the line of a site. The only error is want of memory.
pub(crate) fn append_site<'a>(
    lines: &mut Text,
    path: &'a [u8],
    pool: &Pool<'a>,
    site: &Site,
) -> Result<(), Memory>
    ensures { OnOk result (lines.new ≡ lines.old ++ site_line path.now pool.now.entries site.now) }
{
    let index = site.instruction.index.unwrap_or(0);
    append_pieces(
        lines,
        &[
            Piece::Plain(b"site "),
            Piece::Shown(path),
            Piece::Plain(b" "),
            Piece::Shown(text_at(pool, site.code.name)),
            Piece::Plain(b" "),
            Piece::Shown(text_at(pool, site.code.descriptor)),
            Piece::Plain(b" at="),
            Piece::Number(u64::from(site.instruction.at)),
            Piece::Plain(b" op="),
            Piece::Hex(site.instruction.opcode),
            Piece::Plain(b" "),
            Piece::Shown(member_class(pool, index)),
            Piece::Plain(b" "),
            Piece::Shown(member_name(pool, index)),
            Piece::Plain(b" "),
            Piece::Shown(member_descriptor(pool, index)),
            Piece::Plain(b"\n"),
        ],
    )
}

/// Adds the lines of sites. The only error is want of memory.
#[tactic(auto, using(desk_base::proofs::Lists::texts_more))]
pub(crate) fn append_sites<'a>(
    lines: &mut Text,
    path: &'a [u8],
    pool: &Pool<'a>,
    sites: &[Site],
) -> Result<(), Memory>
    ensures { OnOk result (lines.new ≡ lines.old ++ flat_map (site_line path.now pool.now.entries) sites.now) }
{
    for site in sites {
        append_site(lines, path, pool, site)?;
    }
    Ok(())
}

/// Adds the line of a class that is refused: what its fault is of, and the fault by its name and its place. The only error is
/// want of memory.
pub(crate) fn append_refusal<'a>(
    lines: &mut Text,
    path: &'a [u8],
    of: &'a [u8],
    name: &'a [u8],
    at: u32,
) -> Result<(), Memory>
    ensures { OnOk result (lines.new ≡ lines.old ++ refusal path.now of.now name.now at) }
{
    append_pieces(
        lines,
        &[
            Piece::Plain(b"refused "),
            Piece::Shown(path),
            Piece::Plain(of),
            Piece::Plain(name),
            Piece::Plain(b" at="),
            Piece::Number(u64::from(at)),
            Piece::Plain(b"\n"),
        ],
    )
}

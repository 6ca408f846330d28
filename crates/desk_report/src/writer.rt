//! The writer of lines: the pieces of lines are put together, and written at once where they fit.

ghost use Rattle.std.specs.Prelude.{◌≡◌, ◌≢◌, ◌≤◌, ◌<◌, ◌++◌, ◌∷◌, [], ◌↔◌, IsTrue, length, OnOk, OnErr};
ghost use Rattle.std.specs.List.{flat_map};
ghost use Rattle.hex.specs.Hex.{encode_lower};
ghost use Rattle.desk_base.specs.Shown.{shown_byte, shown};
ghost use Rattle.desk_base.specs.Counts.{Rose};
ghost use Rattle.desk_report.specs.Written.{writing, WritesFront};
ghost use Rattle.desk_report.specs.Pieces.{piece_text, pieces_text, Gathers};

use crate::pieces::Piece;
use crate::{Sink, SinkFault};
use desk_base::show_byte;
use itoa::Buffer;
use std::marker::Model;

/// How many bytes are written together.
const ROOM: usize = 65_536;

/// Bytes that wait to be written together, at most 65,536. Contracts see them as a text.
#[derive(Drop)]
pub struct WriteBuffer {
    bytes: [u8; ROOM],
    len: usize,
}

impl Model for WriteBuffer {
    ghost use Rattle.std.specs.Prelude.{ℕ, List, take, ◌≤◌};

    ghost Value = { List ℕ };

    ghost view = { λ w. take w.len w.bytes };

    ghost invariant = { λ w. w.len ≤ 65536 };
}

impl WriteBuffer {
    /// No bytes wait. It takes no memory.
    pub fn new() -> WriteBuffer
        ensures { result ≡ [] }
    {
        WriteBuffer {
            bytes: [0; ROOM],
            len: 0,
        }
    }

    fn is_full(&self) -> bool
        ensures { IsTrue result ↔ (length self.now ≡ 65536) }
    {
        self.len == ROOM
    }

    fn is_empty(&self) -> bool
        ensures { IsTrue result ↔ (self.now ≡ []) }
    {
        self.len == 0
    }

    fn as_slice(&self) -> &[u8]
        ensures { result.now ≡ self.now }
    {
        &self.bytes[..self.len]
    }

    fn clear(&mut self)
        ensures { self.new ≡ [] }
    {
        self.len = 0;
    }

    fn push(&mut self, byte: u8)
        requires { length self.old ≢ 65536 }
        ensures { self.new ≡ self.old ++ byte ∷ [] }
    {
        self.bytes[self.len] = byte;
        self.len += 1;
    }
}

/// Writes the bytes that wait, where there are some, in one write. None wait behind it, also where it failed, and after an error a
/// front of them was written.
pub fn flush<O: Sink>(out: &mut O, waiting: &mut WriteBuffer) -> Result<(), SinkFault>
    ensures ok { OnOk result (O.told out.new ≡ writing waiting.old (O.told out.old)) }
    ensures err { OnErr result (WritesFront waiting.old (O.told out.old) (O.told out.new)) }
    ensures empty { waiting.new ≡ [] }
    ensures counts { O.faults out.old ≤ O.faults out.new }
    ensures failed { OnErr result (Rose (O.faults out.old) (O.faults out.new)) }
{
    let result = if waiting.is_empty() {
        Ok(())
    } else {
        out.write(waiting.as_slice())
    };
    waiting.clear();
    result
}

/// Puts a byte behind what waits.
fn put<O: Sink>(out: &mut O, waiting: &mut WriteBuffer, byte: u8) -> Result<(), SinkFault>
    ensures ok { OnOk result (Gathers (byte ∷ []) waiting.old waiting.new (O.told out.old) (O.told out.new)) }
    ensures err { OnErr result (WritesFront (waiting.old ++ byte ∷ []) (O.told out.old) (O.told out.new)) }
    ensures counts { O.faults out.old ≤ O.faults out.new }
    ensures failed { OnErr result (Rose (O.faults out.old) (O.faults out.new)) }
{
    if waiting.is_full() {
        flush(out, waiting)?;
    }
    waiting.push(byte);
    Ok(())
}

/// Puts bytes behind what waits.
fn put_all<O: Sink>(out: &mut O, waiting: &mut WriteBuffer, bytes: &[u8]) -> Result<(), SinkFault>
    ensures ok { OnOk result (Gathers bytes.now waiting.old waiting.new (O.told out.old) (O.told out.new)) }
    ensures err { OnErr result (WritesFront (waiting.old ++ bytes.now) (O.told out.old) (O.told out.new)) }
    ensures counts { O.faults out.old ≤ O.faults out.new }
    ensures failed { OnErr result (Rose (O.faults out.old) (O.faults out.new)) }
{
    for byte in bytes {
        put(out, waiting, *byte)?;
    }
    Ok(())
}

/// Puts a byte as it is shown.
fn put_byte<O: Sink>(out: &mut O, waiting: &mut WriteBuffer, byte: u8) -> Result<(), SinkFault>
    ensures ok { OnOk result (Gathers (shown_byte byte) waiting.old waiting.new (O.told out.old) (O.told out.new)) }
    ensures err { OnErr result (WritesFront (waiting.old ++ shown_byte byte) (O.told out.old) (O.told out.new)) }
    ensures counts { O.faults out.old ≤ O.faults out.new }
    ensures failed { OnErr result (Rose (O.faults out.old) (O.faults out.new)) }
{
    put_all(out, waiting, show_byte(byte).as_bytes())
}

/// Puts the bytes of a text, each as it is shown.
fn put_bytes<O: Sink>(out: &mut O, waiting: &mut WriteBuffer, text: &[u8]) -> Result<(), SinkFault>
    ensures ok { OnOk result (Gathers (flat_map shown_byte text.now) waiting.old waiting.new (O.told out.old) (O.told out.new)) }
    ensures err { OnErr result (WritesFront (waiting.old ++ flat_map shown_byte text.now) (O.told out.old) (O.told out.new)) }
    ensures counts { O.faults out.old ≤ O.faults out.new }
    ensures failed { OnErr result (Rose (O.faults out.old) (O.faults out.new)) }
{
    for byte in text {
        put_byte(out, waiting, *byte)?;
    }
    Ok(())
}

/// Puts a text as it is shown.
fn put_shown<O: Sink>(out: &mut O, waiting: &mut WriteBuffer, text: &[u8]) -> Result<(), SinkFault>
    ensures ok { OnOk result (Gathers (shown text.now) waiting.old waiting.new (O.told out.old) (O.told out.new)) }
    ensures err { OnErr result (WritesFront (waiting.old ++ shown text.now) (O.told out.old) (O.told out.new)) }
    ensures counts { O.faults out.old ≤ O.faults out.new }
    ensures failed { OnErr result (Rose (O.faults out.old) (O.faults out.new)) }
{
    if text.is_empty() {
        put_all(out, waiting, b"\\-")
    } else {
        put_bytes(out, waiting, text)
    }
}

/// Puts a digest in hexadecimal digits.
fn put_hex<O: Sink>(
    out: &mut O,
    waiting: &mut WriteBuffer,
    digest: &[u8; 32],
) -> Result<(), SinkFault>
    ensures ok { OnOk result (Gathers (encode_lower digest.now) waiting.old waiting.new (O.told out.old) (O.told out.new)) }
    ensures err { OnErr result (WritesFront (waiting.old ++ encode_lower digest.now) (O.told out.old) (O.told out.new)) }
    ensures counts { O.faults out.old ≤ O.faults out.new }
    ensures failed { OnErr result (Rose (O.faults out.old) (O.faults out.new)) }
{
    let mut digits = [0; 64];
    let _ = hex::encode_to_slice(digest.as_slice(), &mut digits);
    put_all(out, waiting, &digits)
}

/// Puts a piece behind what waits.
fn put_piece<O: Sink>(
    out: &mut O,
    waiting: &mut WriteBuffer,
    piece: Piece<'_>,
) -> Result<(), SinkFault>
    ensures ok { OnOk result (Gathers (piece_text piece.entry) waiting.old waiting.new (O.told out.old) (O.told out.new)) }
    ensures err { OnErr result (WritesFront (waiting.old ++ piece_text piece.entry) (O.told out.old) (O.told out.new)) }
    ensures counts { O.faults out.old ≤ O.faults out.new }
    ensures failed { OnErr result (Rose (O.faults out.old) (O.faults out.new)) }
{
    match piece {
        Piece::Plain(bytes) => put_all(out, waiting, bytes),
        Piece::Shown(text) => put_shown(out, waiting, text),
        Piece::Number(n) => put_all(out, waiting, Buffer::new().format(n).as_bytes()),
        Piece::Hex(digest) => put_hex(out, waiting, digest),
    }
}

/// Puts the pieces behind what waits, one behind the other.
pub(crate) fn put_pieces<O: Sink>(
    out: &mut O,
    waiting: &mut WriteBuffer,
    pieces: &[Piece<'_>],
) -> Result<(), SinkFault>
    ensures ok { OnOk result (Gathers (pieces_text pieces.now) waiting.old waiting.new (O.told out.old) (O.told out.new)) }
    ensures err { OnErr result (WritesFront (waiting.old ++ pieces_text pieces.now) (O.told out.old) (O.told out.new)) }
    ensures counts { O.faults out.old ≤ O.faults out.new }
    ensures failed { OnErr result (Rose (O.faults out.old) (O.faults out.new)) }
{
    for piece in pieces {
        put_piece(out, waiting, *piece)?;
    }
    Ok(())
}

/// Writes the pieces, one behind the other. Where there are none it does nothing.
pub(crate) fn write_pieces<O: Sink>(out: &mut O, pieces: &[Piece<'_>]) -> Result<(), SinkFault>
    ensures ok { OnOk result (O.told out.new ≡ writing (pieces_text pieces.now) (O.told out.old)) }
    ensures err { OnErr result (WritesFront (pieces_text pieces.now) (O.told out.old) (O.told out.new)) }
    ensures none { pieces.now ≡ [] → out.new ≡ out.old }
    ensures counts { O.faults out.old ≤ O.faults out.new }
    ensures failed { OnErr result (Rose (O.faults out.old) (O.faults out.new)) }
{
    if pieces.is_empty() {
        return Ok(());
    }
    let mut waiting = WriteBuffer::new();
    put_pieces(out, &mut waiting, pieces)?;
    flush(out, &mut waiting)
}

//! The lines of the report.

ghost use Rattle.std.specs.Prelude.{◌≡◌, ◌≤◌, ◌∷◌, ◌++◌, [], codes, decimal, length, OnOk, OnErr};
ghost use Rattle.desk_base.specs.Counts.{Rose};
ghost use Rattle.desk_report.specs.Written.{writing, WritesFront};
ghost use Rattle.desk_report.specs.Joined.{joined};
ghost use Rattle.desk_report.specs.Pieces.{Gathers, pieces_text};
ghost use Rattle.desk_report.specs.Texts.{detail_pieces, line_text, summary_text};

use crate::pieces::{Piece, Pieces};
use crate::writer::{WriteBuffer, put_pieces, write_pieces};
use crate::{Sink, SinkFault};
use desk_base::{CodeFault, Malformed, Text};

/// How a file's image came about, with the counts that its line has.
#[derive(Clone, Copy, Debug, PartialEq, Eq)]
pub enum Detail {
    /// A class: how many uses of texts have another image than their text, how many texts were added to its constant pool,
    /// how many texts used as signatures are none, and how many classes of the application it names.
    Class {
        renamed: u32,
        added: u32,
        odd: u32,
        links: u32,
    },
    /// A service file, and how many of its providers changed.
    Service {
        changed: u32,
    },
    /// A manifest, and how many of its headers changed.
    Manifest {
        changed: u32,
    },
    /// A file with text rules, and how many places of it changed.
    Texts {
        changed: u32,
    },
    /// The source's bytes as they are.
    Copy,
}

/// The pieces of how many parts of a file changed, behind what it is.
fn changed_pieces<'a>(front: &'a [u8], changed: u32) -> Pieces<'a>
    ensures text { pieces_text result ≡ joined (front.now ∷ decimal changed ∷ codes "\n" ∷ []) }
    ensures few { length result ≤ 3 }
{
    Pieces::of(&[
        Piece::Plain(front),
        Piece::Number(changed as u64),
        Piece::Plain(b"\n"),
    ])
}

impl Detail {
    /// The pieces behind a written target.
    fn pieces<'a>(self) -> Pieces<'a>
        ensures text { pieces_text result ≡ joined (detail_pieces self) }
        ensures few { length result ≤ 9 }
    {
        match self {
            Detail::Class {
                renamed,
                added,
                odd,
                links,
            } => Pieces::of(&[
                Piece::Plain(b" class renamed="),
                Piece::Number(renamed as u64),
                Piece::Plain(b" added="),
                Piece::Number(added as u64),
                Piece::Plain(b" odd="),
                Piece::Number(odd as u64),
                Piece::Plain(b" links="),
                Piece::Number(links as u64),
                Piece::Plain(b"\n"),
            ]),
            Detail::Service { changed } => changed_pieces(b" service changed=", changed),
            Detail::Manifest { changed } => changed_pieces(b" manifest changed=", changed),
            Detail::Texts { changed } => changed_pieces(b" text changed=", changed),
            Detail::Copy => Pieces::plain(b" copy\n"),
        }
    }
}

/// Why a file has no image.
#[derive(Clone, Copy, Debug, PartialEq, Eq)]
pub enum Reason {
    /// A class that isn't well-formed: its first fault, with the offset from the start of the file.
    Malformed(Malformed),
    /// A class of which some text would have more than 65,535 bytes: the least such index of its constant pool, and the
    /// greatest length of a text that is wanted there, in bytes.
    Overlong { index: u16, length: u64 },
    /// A class whose constant pool has no room for the texts that must be added: its count, and how many they are.
    PoolFull { count: u16, needed: u32 },
    /// A class of which two fields or two methods would get one name and descriptor: their offsets.
    Twins { first: u32, second: u32 },
    /// A line that isn't of the file's form; `at` is the offset of its first byte from the start.
    BadLine { at: u32 },
    /// A text that a second migration would change again; `at` is the offset, from the start of the image, of the first
    /// place at which it would.
    Unsettled { at: u64 },
    /// A class with a code array that doesn't read as instructions (JVMS 4.9.1): its fault, with the offset from the start of
    /// the file. It is no reason of a run, which doesn't read code.
    Code(CodeFault),
}

/// The line of one file of the source, by its relative path and its target.
#[derive(Debug, Drop)]
pub enum ReportLine {
    /// The target was written in this run.
    Written {
        path: Text,
        target: Text,
        detail: Detail,
    },
    /// The target stands from an earlier run.
    Kept {
        path: Text,
        target: Text,
    },
    /// The file has no image, and nothing was written for it.
    Refused {
        path: Text,
        reason: Reason,
    },
}

impl ReportLine {
    /// The pieces of the line.
    pub(crate) fn pieces(&self) -> Pieces<'_>
        ensures { pieces_text result ≡ line_text self.now }
    {
        match self {
            ReportLine::Written {
                path,
                target,
                detail,
            } => Pieces::of(&[
                Piece::Plain(b"written "),
                Piece::Shown(path.as_bytes()),
                Piece::Plain(b" "),
                Piece::Shown(target.as_bytes()),
            ])
            .and(detail.pieces().as_slice()),
            ReportLine::Kept { path, target } => Pieces::of(&[
                Piece::Plain(b"kept "),
                Piece::Shown(path.as_bytes()),
                Piece::Plain(b" "),
                Piece::Shown(target.as_bytes()),
                Piece::Plain(b"\n"),
            ]),
            ReportLine::Refused { path, reason } => {
                Pieces::of(&[Piece::Plain(b"refused "), Piece::Shown(path.as_bytes())]).and(
                    reason.pieces().as_slice(),
                )
            }
        }
    }
}

/// The totals of a run: files of the source, of which so many were written, kept and refused, and names
/// renamed and texts added in the classes that were written.
#[derive(Clone, Copy, Debug, PartialEq, Eq)]
pub struct Summary {
    /// Files of the source; written, kept and refused together.
    pub files: u32,
    /// Files whose target was written in this run.
    pub written: u32,
    /// Files whose target stands from an earlier run.
    pub kept: u32,
    /// Files that have no image, and of which nothing was written.
    pub refused: u32,
    /// Uses of texts in the classes that were written which have another image than their text.
    pub renamed: u64,
    /// Texts that were added to the constant pools of these classes.
    pub added: u64,
}

impl Summary {
    /// The pieces of the line of the totals.
    fn pieces<'a>(&self) -> Pieces<'a>
        ensures { pieces_text result ≡ summary_text self.now }
    {
        Pieces::of(&[
            Piece::Plain(b"total files="),
            Piece::Number(self.files as u64),
            Piece::Plain(b" written="),
            Piece::Number(self.written as u64),
            Piece::Plain(b" kept="),
            Piece::Number(self.kept as u64),
            Piece::Plain(b" refused="),
            Piece::Number(self.refused as u64),
            Piece::Plain(b" renamed="),
            Piece::Number(self.renamed),
            Piece::Plain(b" added="),
            Piece::Number(self.added),
            Piece::Plain(b"\n"),
        ])
    }
}

/// Puts the line of a file behind what waits to be written; what doesn't fit is written. After an error a front of all was
/// written. It takes no memory.
pub fn put_line<O: Sink>(
    line: &ReportLine,
    out: &mut O,
    waiting: &mut WriteBuffer,
) -> Result<(), SinkFault>
    ensures ok { OnOk result (Gathers (line_text line.now) waiting.old waiting.new (O.told out.old) (O.told out.new)) }
    ensures err { OnErr result (WritesFront (waiting.old ++ line_text line.now) (O.told out.old) (O.told out.new)) }
    ensures counts { O.faults out.old ≤ O.faults out.new }
    ensures failed { OnErr result (Rose (O.faults out.old) (O.faults out.new)) }
{
    put_pieces(out, waiting, line.pieces().as_slice())
}

/// Puts the line of the totals behind what waits to be written, as `put_line` does that of a file.
pub fn put_summary<O: Sink>(
    summary: &Summary,
    out: &mut O,
    waiting: &mut WriteBuffer,
) -> Result<(), SinkFault>
    ensures ok { OnOk result (Gathers (summary_text summary.now) waiting.old waiting.new (O.told out.old) (O.told out.new)) }
    ensures err { OnErr result (WritesFront (waiting.old ++ summary_text summary.now) (O.told out.old) (O.told out.new)) }
    ensures counts { O.faults out.old ≤ O.faults out.new }
    ensures failed { OnErr result (Rose (O.faults out.old) (O.faults out.new)) }
{
    put_pieces(out, waiting, summary.pieces().as_slice())
}

/// Writes the line of a file, in few writes. After an error a front of it was written. It takes no memory.
pub fn write_line<O: Sink>(line: &ReportLine, out: &mut O) -> Result<(), SinkFault>
    ensures ok { OnOk result (O.told out.new ≡ writing (line_text line.now) (O.told out.old)) }
    ensures err { OnErr result (WritesFront (line_text line.now) (O.told out.old) (O.told out.new)) }
    ensures counts { O.faults out.old ≤ O.faults out.new }
    ensures failed { OnErr result (Rose (O.faults out.old) (O.faults out.new)) }
{
    write_pieces(out, line.pieces().as_slice())
}

/// Writes the line of the totals, in few writes. After an error a front of it was written. It takes no memory.
pub fn write_summary<O: Sink>(summary: &Summary, out: &mut O) -> Result<(), SinkFault>
    ensures ok { OnOk result (O.told out.new ≡ writing (summary_text summary.now) (O.told out.old)) }
    ensures err { OnErr result (WritesFront (summary_text summary.now) (O.told out.old) (O.told out.new)) }
    ensures counts { O.faults out.old ≤ O.faults out.new }
    ensures failed { OnErr result (Rose (O.faults out.old) (O.faults out.new)) }
{
    write_pieces(out, summary.pieces().as_slice())
}

//! How a run ended.

ghost use Rattle.std.specs.Prelude.{◌≡◌, ◌≤◌, [], ◌∷◌, OnOk, OnErr, codes, decimal};
ghost use Rattle.desk_base.specs.Counts.{Rose};
ghost use Rattle.desk_base.specs.Names.{Text};
ghost use Rattle.desk_report.specs.Written.{writing, WritesFront};
ghost use Rattle.desk_report.specs.Joined.{joined};
ghost use Rattle.desk_report.specs.Pieces.{pieces_text};
ghost use Rattle.desk_report.specs.Texts.{code_of, fault_text, invert_pieces, limit_name};
ghost use Rattle.desk_report.specs.declared.status.Status.TheVariants as case;

use crate::pieces::{Piece, Pieces};
use crate::rule_faults::rule_fault_pieces;
use crate::writer::write_pieces;
use crate::{Sink, SinkFault};
use desk_base::Text;
use desk_ledger::{Digest, Header};
use desk_rules::{InvertFault, RuleFault};

/// The line of words without a task.
const USAGE: &[u8] =
    b"migrate: 20 usage: migrate run --rules R --from A --to B --ledger L [--workers N] [--verify] or migrate generate --count N [--workers N] [--sql] or migrate calls --from A --package P or migrate compare --rules R --from A --other B or migrate invert --rules R\n";

/// Which limit of a run is passed, by what it counts.
#[derive(Clone, Copy, Debug, PartialEq, Eq)]
pub enum LimitKind {
    /// 200,000 files of the source.
    Files,
    /// 1,024 bytes of a relative path or its target.
    PathLength,
    /// 67,108,864 bytes of a file that is read whole, and 1,099,511,627,776 of any other.
    FileSize,
    /// 1,000 files of the rule folder.
    RuleFiles,
    /// 1,048,576 bytes of a rule file.
    RuleSize,
    /// 1,073,741,824 bytes of two applications that are compared, together.
    Both,
}

impl LimitKind {
    /// The name of the limit in its line.
    fn name(self) -> &'static [u8]
        ensures { result.now ≡ limit_name self }
    {
        match self {
            LimitKind::Files => b"files",
            LimitKind::PathLength => b"path-length",
            LimitKind::FileSize => b"file-size",
            LimitKind::RuleFiles => b"rule-files",
            LimitKind::RuleSize => b"rule-size",
            LimitKind::Both => b"both",
        }
    }
}

/// How a run ended. `done` counts the files, in the order of their paths, before the one at which a call
/// failed.
#[derive(Debug, Drop)]
pub enum Status {
    /// Every file was written or kept.
    Done,
    /// Every file was written, kept or refused, and some file was refused.
    Refusals,
    /// Memory ran out.
    Memory,
    /// A call on the folders failed.
    FolderFault {
        done: u32,
    },
    /// A call on the ledger failed.
    LedgerFault {
        done: u32,
    },
    /// A write of the report failed.
    OutputFault,
    /// The words mean no task.
    Usage,
    /// One of these roots lies in the other.
    NestedRoots {
        first: Text,
        second: Text,
    },
    /// The rule files make no rule set.
    BadRules(RuleFault),
    /// A limit is passed, by this root or by the file of this relative path.
    Limit {
        kind: LimitKind,
        path: Text,
    },
    /// Of two files, by their relative paths, one's target equals the other's, or is a folder of it.
    PathClash {
        first: Text,
        second: Text,
    },
    /// A class of the application and another name that it uses would have one name: by their class names, and that name.
    NameClash {
        defined: Text,
        other: Text,
        image: Text,
    },
    /// The class of this relative path isn't selected, and holds the name of a class of the application that changes.
    Stranded {
        path: Text,
        name: Text,
    },
    /// The ledger belongs to another run.
    OtherRun {
        kept: Header,
        wanted: Header,
    },
    /// The two readings of the file of this relative path gave bytes of these digests.
    Moved {
        path: Text,
        first: Digest,
        second: Digest,
    },
    /// The rules have no inverse.
    NotInvertible(InvertFault),
    /// What the rules make of an application differs from another application, first at this relative path.
    Differs {
        path: Text,
    },
}

impl Status {
    /// The exit status that the program ends with: 0, 2, 3, 10 to 13, 20 to 28, or 31.
    pub fn code(&self) -> u8
        ensures { result ≡ code_of self.now }
    {
        match self {
            Status::Done => 0,
            Status::Refusals => 2,
            Status::Memory => 10,
            Status::FolderFault { .. } => 11,
            Status::LedgerFault { .. } => 12,
            Status::OutputFault => 13,
            Status::Usage => 20,
            Status::NestedRoots { .. } => 21,
            Status::BadRules(_) => 22,
            Status::Limit { .. } => 23,
            Status::PathClash { .. } => 24,
            Status::NameClash { .. } => 25,
            Status::Stranded { .. } => 26,
            Status::OtherRun { .. } => 27,
            Status::Moved { .. } => 28,
            Status::NotInvertible(_) => 31,
            Status::Differs { .. } => 3,
        }
    }

    /// The pieces of its line; `Done`, `Refusals` and `Differs` have none.
    fn pieces(&self) -> Pieces<'_>
        ensures text { pieces_text result ≡ fault_text self.now }
        ensures done { self.now ≡ Status.Done → result ≡ [] }
        ensures refusals { self.now ≡ Status.Refusals → result ≡ [] }
        ensures differs { (path : Text) → self.now ≡ Status.Differs path → result ≡ [] }
    {
        match self {
            Status::Done | Status::Refusals | Status::Differs { .. } => Pieces::none(),
            Status::Memory => Pieces::plain(b"migrate: 10 out of memory\n"),
            Status::FolderFault { done } => counted(b"migrate: 11 folder fault done=", *done),
            Status::LedgerFault { done } => counted(b"migrate: 12 ledger fault done=", *done),
            Status::OutputFault => Pieces::plain(b"migrate: 13 output fault\n"),
            Status::Usage => Pieces::plain(USAGE),
            Status::NestedRoots { first, second } => {
                Pieces::pair(b"migrate: 21 nested roots ", first, second)
            }
            Status::BadRules(fault) => rule_fault_pieces(fault),
            Status::Limit { kind, path } => Pieces::of(&[
                Piece::Plain(b"migrate: 23 limit "),
                Piece::Plain(kind.name()),
                Piece::Plain(b" "),
                Piece::Shown(path.as_bytes()),
                Piece::Plain(b"\n"),
            ]),
            Status::PathClash { first, second } => {
                Pieces::pair(b"migrate: 24 path clash ", first, second)
            }
            Status::NameClash {
                defined,
                other,
                image,
            } => name_clash(defined, other, image),
            Status::Stranded { path, name } => Pieces::pair(b"migrate: 26 stranded ", path, name),
            Status::OtherRun { kept, wanted } => other_run(kept, wanted),
            Status::Moved {
                path,
                first,
                second,
            } => moved(path, first, second),
            Status::NotInvertible(fault) => not_invertible(fault),
        }
    }
}

/// The pieces of a line of this text and a number.
fn counted(text: &[u8], count: u32) -> Pieces<'_>
    ensures { pieces_text result ≡ joined (text.now ∷ decimal count ∷ codes "\n" ∷ []) }
{
    Pieces::of(&[
        Piece::Plain(text),
        Piece::Number(count as u64),
        Piece::Plain(b"\n"),
    ])
}

/// The pieces of the line of two names that become one.
fn name_clash<'a>(defined: &'a Text, other: &'a Text, image: &'a Text) -> Pieces<'a>
    ensures { pieces_text result ≡ fault_text (case.NameClash defined.now other.now image.now) }
{
    Pieces::of(&[
        Piece::Plain(b"migrate: 25 name clash "),
        Piece::Shown(defined.as_bytes()),
        Piece::Plain(b" "),
        Piece::Shown(other.as_bytes()),
        Piece::Plain(b" "),
        Piece::Shown(image.as_bytes()),
        Piece::Plain(b"\n"),
    ])
}

/// The pieces of the line of a ledger that belongs to another run.
fn other_run<'a>(kept: &'a Header, wanted: &'a Header) -> Pieces<'a>
    ensures { pieces_text result ≡ fault_text (case.OtherRun kept.now wanted.now) }
{
    Pieces::of(&[
        Piece::Plain(b"migrate: 27 other run kept "),
        Piece::Shown(kept.from.as_bytes()),
        Piece::Plain(b" "),
        Piece::Shown(kept.to.as_bytes()),
        Piece::Plain(b" "),
        Piece::Hex(&kept.rules.0),
        Piece::Plain(b" wanted "),
        Piece::Shown(wanted.from.as_bytes()),
        Piece::Plain(b" "),
        Piece::Shown(wanted.to.as_bytes()),
        Piece::Plain(b" "),
        Piece::Hex(&wanted.rules.0),
        Piece::Plain(b"\n"),
    ])
}

/// The pieces of the line of a file that changed between its two readings.
fn moved<'a>(path: &'a Text, first: &'a Digest, second: &'a Digest) -> Pieces<'a>
    ensures { pieces_text result ≡ fault_text (case.Moved path.now first.now second.now) }
{
    Pieces::of(&[
        Piece::Plain(b"migrate: 28 moved "),
        Piece::Shown(path.as_bytes()),
        Piece::Plain(b" "),
        Piece::Hex(&first.0),
        Piece::Plain(b" "),
        Piece::Hex(&second.0),
        Piece::Plain(b"\n"),
    ])
}

/// The pieces of the line of rules that have no inverse.
fn not_invertible(fault: &InvertFault) -> Pieces<'_>
    ensures { pieces_text result ≡ joined (invert_pieces fault.now) }
{
    match fault {
        InvertFault::NotRenames { file } => Pieces::of(&[
            Piece::Plain(b"migrate: 31 not renames "),
            Piece::Shown(file.as_bytes()),
            Piece::Plain(b"\n"),
        ]),
        InvertFault::Nothing => Pieces::plain(b"migrate: 31 nothing\n"),
        InvertFault::Overlap { first, second } => {
            Pieces::pair(b"migrate: 31 overlap ", first, second)
        }
    }
}

/// Writes the line of a status, in few writes; for `Done`, `Refusals` and `Differs` it does nothing. After an error a front of the
/// line was written. It takes no memory.
pub fn write_fault<O: Sink>(status: &Status, out: &mut O) -> Result<(), SinkFault>
    ensures ok { OnOk result (O.told out.new ≡ writing (fault_text status.now) (O.told out.old)) }
    ensures err { OnErr result (WritesFront (fault_text status.now) (O.told out.old) (O.told out.new)) }
    ensures done { status.now ≡ Status.Done → out.new ≡ out.old }
    ensures refusals { status.now ≡ Status.Refusals → out.new ≡ out.old }
    ensures differs { (path : Text) → status.now ≡ Status.Differs path → out.new ≡ out.old }
    ensures counts { O.faults out.old ≤ O.faults out.new }
    ensures failed { OnErr result (Rose (O.faults out.old) (O.faults out.new)) }
{
    write_pieces(out, status.pieces().as_slice())
}

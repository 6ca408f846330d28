//! The trait of keepers.

ghost use Rattle.std.specs.Prelude.{◌≡◌, ◌≤◌, ℕ, List, Option, option_map, Some, Err, OnOk, OnErr, IfOk, IfSome, IsSome};
ghost use Rattle.std.specs.FinMap as fin;
ghost use Rattle.desk_base.specs.Counts.{Rose};
ghost use Rattle.desk_ledger.specs.Ledger.{Ledger, NoneWaits, row_at, with_header, with_row, without_row};

use crate::Digest;
use desk_base::{Memory, Text};
use std::alloc::AllocError;
use thiserror::Error;

/// Why a call on a keeper failed.
#[derive(Clone, Copy, Debug, PartialEq, Eq, Error)]
pub enum KeeperFault {
    /// The outside refused; the count of faults rose in this call.
    #[error("the ledger failed")]
    Failed,
    /// Memory ran out.
    #[error("out of memory")]
    Memory,
}

impl From<Memory> for KeeperFault {
    ghost use Rattle.std.specs.Prelude.{◌≡◌};
    ghost use Rattle.desk_ledger.specs.declared.keeper.KeeperFault.TheVariants as fault;

    ghost from_gives = { λ _ it. it ≡ fault.Memory };

    fn from(_: Memory) -> KeeperFault {
        KeeperFault::Memory
    }
}

impl From<AllocError> for KeeperFault {
    ghost use Rattle.std.specs.Prelude.{◌≡◌};
    ghost use Rattle.desk_ledger.specs.declared.keeper.KeeperFault.TheVariants as fault;

    ghost from_gives = { λ _ it. it ≡ fault.Memory };

    fn from(_: AllocError) -> KeeperFault {
        KeeperFault::Memory
    }
}

/// Which run a ledger belongs to: the written roots of source and target, and the digest of the rules.
#[derive(Clone, Debug, Drop)]
pub struct Header {
    /// The root of the source, as it is written.
    pub from: Text,
    /// The root of the target, as it is written.
    pub to: Text,
    /// The SHA-256 of the rule files.
    pub rules: Digest,
}

/// What was written to a target: the path of its source, the digest of the source's bytes, and the digest of
/// the bytes that were written, which a row that was taken over from format 1 lacks.
#[derive(Clone, Debug, Drop)]
pub struct Row {
    /// The path of the target, relative to the root of the target: the row's key.
    pub target: Text,
    /// The path of the source, relative to the root of the source.
    pub source: Text,
    /// The SHA-256 of the source's bytes.
    pub digest: Digest,
    /// The SHA-256 of the bytes that were written; none in a row that was taken over from format 1.
    pub output: Option<Digest>,
}

/// A row of format 1, the ledger's first: it doesn't say which bytes were written.
#[derive(Clone, Debug, Drop)]
pub struct OldRow {
    /// The path of the target, relative to the root of the target: the row's key.
    pub target: Text,
    /// The path of the source, relative to the root of the source.
    pub source: Text,
    /// The SHA-256 of the source's bytes.
    pub digest: Digest,
}

/// What a ledger holds under a target: the path of its source, the digest of the source's bytes, and that of
/// the written bytes where it is known.
#[derive(Clone, Debug, Drop)]
pub struct Held {
    /// The path of the source, relative to the root of the source.
    pub source: Text,
    /// The SHA-256 of the source's bytes.
    pub digest: Digest,
    /// The SHA-256 of the bytes that were written; none in a row that was taken over from format 1.
    pub output: Option<Digest>,
}

/// A ledger of rows by their targets, under a header. It may tell its contents, it tells the name that
/// it is attached to, and it counts its faults. A count never falls, and rises in each call that
/// answers `Failed`, unless it stands at 18,446,744,073,709,551,615. After an error nothing changed.
pub trait Keeper {
    ghost use Rattle.desk_ledger.specs.declared.keeper.Row.{Row};

    /// What it tells of its contents.
    ghost told: { Self → Option Ledger };

    /// The name that was attached last.
    ghost attached: { Self → Option (List ℕ) };

    /// The rows that were put and don't stand outside yet; none at all where it writes nothing outside, or
    /// no ledger is attached.
    ghost waiting: { Self → Option (List Row) };

    /// How many faults there were.
    ghost faults: { Self → ℕ };

    /// Attaches the ledger of a name, which every other call needs.
    fn attach(&mut self, name: &Text) -> Result<(), KeeperFault>
        ensures ok { OnOk result (attached self.new ≡ Some name.now) }
        ensures err { OnErr result (attached self.new ≡ attached self.old) }
        ensures told { told self.new ≡ told self.old }
        ensures counts { faults self.old ≤ faults self.new }
        ensures failed { result ≡ Err KeeperFault.Failed → Rose (faults self.old) (faults self.new) };

    /// The header, if there is one.
    fn header(&mut self) -> Result<Option<Header>, KeeperFault>
        requires { IsSome (attached self.old) }
        ensures found { IfOk result (λ header. IfSome (told self.old) (λ l. header ≡ l.header)) }
        ensures told { told self.new ≡ told self.old }
        ensures attached { attached self.new ≡ attached self.old }
        ensures counts { faults self.old ≤ faults self.new }
        ensures failed { result ≡ Err KeeperFault.Failed → Rose (faults self.old) (faults self.new) };

    /// Makes this the header. No row changes.
    fn set_header(&mut self, header: &Header) -> Result<(), KeeperFault>
        requires { IsSome (attached self.old) }
        ensures ok { OnOk result (told self.new ≡ option_map (with_header header.now) (told self.old)) }
        ensures err { OnErr result (told self.new ≡ told self.old) }
        ensures attached { attached self.new ≡ attached self.old }
        ensures counts { faults self.old ≤ faults self.new }
        ensures failed { result ≡ Err KeeperFault.Failed → Rose (faults self.old) (faults self.new) };

    /// The row of a target, if there is one.
    fn find(&mut self, target: &Text) -> Result<Option<Row>, KeeperFault>
        requires { IsSome (attached self.old) }
        ensures found { IfOk result (λ row. IfSome (told self.old) (λ l. row ≡ option_map (row_at target.now) (fin.get l.rows target.now))) }
        ensures told { told self.new ≡ told self.old }
        ensures attached { attached self.new ≡ attached self.old }
        ensures counts { faults self.old ≤ faults self.new }
        ensures failed { result ≡ Err KeeperFault.Failed → Rose (faults self.old) (faults self.new) };

    /// Keeps a row, in place of the row of its target if there is one.
    fn put(&mut self, row: Row) -> Result<(), KeeperFault>
        requires { IsSome (attached self.old) }
        ensures ok { OnOk result (told self.new ≡ option_map (with_row row) (told self.old)) }
        ensures err { OnErr result (told self.new ≡ told self.old) }
        ensures attached { attached self.new ≡ attached self.old }
        ensures counts { faults self.old ≤ faults self.new }
        ensures failed { result ≡ Err KeeperFault.Failed → Rose (faults self.old) (faults self.new) };

    /// Removes the row of a target. It is Ok, too, where there is none.
    fn forget(&mut self, target: &Text) -> Result<(), KeeperFault>
        requires { IsSome (attached self.old) }
        ensures ok { OnOk result (told self.new ≡ option_map (without_row target.now) (told self.old)) }
        ensures err { OnErr result (told self.new ≡ told self.old) }
        ensures attached { attached self.new ≡ attached self.old }
        ensures counts { faults self.old ≤ faults self.new }
        ensures failed { result ≡ Err KeeperFault.Failed → Rose (faults self.old) (faults self.new) };

    /// Makes what was put, set and forgotten stand outside, where it outlives the program. A keeper that
    /// writes nothing outside has nothing to do.
    fn commit(&mut self) -> Result<(), KeeperFault>
        requires { IsSome (attached self.old) }
        ensures written { OnOk result (NoneWaits (waiting self.new)) }
        ensures told { told self.new ≡ told self.old }
        ensures attached { attached self.new ≡ attached self.old }
        ensures counts { faults self.old ≤ faults self.new }
        ensures failed { result ≡ Err KeeperFault.Failed → Rose (faults self.old) (faults self.new) };
}

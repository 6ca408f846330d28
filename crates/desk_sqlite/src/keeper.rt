//! A keeper over an SQLite file.

ghost use Rattle.std.specs.Prelude.{◌≡◌, ◌≤◌, ◌⊎◌, None, Some, Err, [], IsTrue, IsSome, IfOk, IfSome, OnOk, OnErr, option_map};
ghost use Rattle.std.specs.FinMap as fin;
ghost use Rattle.desk_base.specs.Counts.{Rose};
ghost use Rattle.desk_ledger.specs.Ledger.{NoneWaits, row_at, with_header, with_row, without_row};
ghost use Rattle.desk_sqlite.specs.OverFile.{all_written, attached_in, held_in_memory, told_by, waiting_in, with_put, with_room};

use crate::opened::Opened;
use desk_base::{Memory, Text};
use desk_faults::{Cause, Fault, Refusal, Tried};
use desk_ledger::{Header, Keeper, KeeperFault, Row};
use std::marker::Model;

/// A keeper over an SQLite file. It tells nothing. It reads the file once, when it is attached, and
/// answers from memory; a ledger that is there is not written before the first call that changes it or commits. The header, and the removal of a row, are in the file when their call answers; of
/// the rows that are put, up to 1,024 wait to be written together, at the latest before the next removal. `commit`
/// writes those that wait. Each refusal of the outside counts as a fault. Contracts see the attached name,
/// what it answers from, the rows that wait, and the count of faults.
#[derive(Drop)]
pub struct SqliteKeeper<'r> {
    rt: &'r HostRuntime,
    opened: Option<Box<Opened>>,
    faults: u64,
    last: Option<Fault>,
}

impl<'r> Model for SqliteKeeper<'r> {
    ghost use Rattle.std.specs.Prelude.{option_map};
    ghost use Rattle.desk_sqlite.specs.OverFile.{OverFile, over_file_code};

    ghost Value = { OverFile };

    ghost coded = { over_file_code };

    ghost view = { λ k. record { opened = option_map (λ o. o.value) k.opened; faults = k.faults } };
}

impl<'r> SqliteKeeper<'r> {
    /// A keeper that is attached to no name. It takes no memory.
    pub fn new(rt: &'r HostRuntime) -> SqliteKeeper<'r>
        ensures { result ≡ record { opened = None; faults = 0 } }
    {
        SqliteKeeper {
            rt,
            opened: None,
            faults: 0,
            last: None,
        }
    }

    /// The fault of a cause, at this path, or at the ledger that is open.
    fn fault_at(&self, tried: Tried, path: Option<&Text>, cause: Cause) -> Result<Fault, Memory> {
        match (path, &self.opened) {
            (Some(path), _) => Fault::of(self.rt.alloc(), tried, path, cause),
            (None, Some(opened)) => opened.fault(tried, cause),
            (None, None) => Fault::of(self.rt.alloc(), tried, &Text::empty(self.rt.alloc()), cause),
        }
    }

    /// Counts a fault and remembers it. After an answer the last fault stays.
    fn note(&mut self, tried: Tried, path: Option<&Text>, refusal: Refusal) -> KeeperFault
        ensures opened { self.new.opened ≡ self.old.opened }
        ensures counts { self.old.faults ≤ self.new.faults }
        ensures failed { result ≡ KeeperFault.Failed → Rose self.old.faults self.new.faults }
    {
        let Refusal::Failed(cause) = refusal else {
            return KeeperFault::Memory;
        };
        self.faults = self.faults.saturating_add(1);
        self.last = self.fault_at(tried, path, cause).ok();
        KeeperFault::Failed
    }

    /// The last fault, where there was one and memory sufficed to remember it.
    pub fn last_fault(&self) -> Option<&Fault> {
        self.last.as_ref()
    }

    /// Removes the log beside the ledger's file where this keeper made it and it holds no page, so that a run which
    /// wrote no row leaves none. The ledger stays attached.
    pub fn remove_new_log(&self) {
        if let Some(opened) = &self.opened {
            opened.remove_new_log(self.rt);
        }
    }

    /// Whether this name is attached.
    fn is_attached(&self, name: &Text) -> bool
        ensures { IsTrue result → attached_in self.now ≡ Some name.now }
    {
        match &self.opened {
            Some(opened) => opened.is_named(name),
            None => false,
        }
    }

    /// Writes the rows that wait.
    fn write_waiting(&mut self) -> Result<(), Refusal>
        ensures ok { OnOk result (self.new.opened ≡ option_map all_written self.old.opened) }
        ensures err { OnErr result (self.new ≡ self.old) }
        ensures counts { self.new.faults ≡ self.old.faults }
    {
        match &mut self.opened {
            Some(opened) => opened.write_waiting(),
            None => Ok(()),
        }
    }

    /// Writes the rows that wait, also to a ledger that was only read so far.
    fn write_all(&mut self) -> Result<(), Refusal>
        ensures ok { OnOk result (self.new.opened ≡ option_map all_written self.old.opened) }
        ensures err { OnErr result (self.new ≡ self.old) }
        ensures counts { self.new.faults ≡ self.old.faults }
    {
        match &mut self.opened {
            Some(opened) => opened.commit(),
            None => Ok(()),
        }
    }

    /// Opens the ledger of a name in place of the one that is open, unless it is open already.
    fn open(&mut self, name: &Text) -> Result<(), Refusal>
        ensures ok { OnOk result (attached_in self.new ≡ Some name.now) }
        ensures waiting { OnOk result (IfSome (waiting_in self.new) (λ rows. rows ≡ [])) }
        ensures err { OnErr result (attached_in self.new ≡ attached_in self.old) }
        ensures held { OnErr result (held_in_memory self.new ≡ held_in_memory self.old) }
        ensures counts { self.new.faults ≡ self.old.faults }
    {
        self.write_waiting()?;
        if self.is_attached(name) {
            return Ok(());
        }
        let opened = Opened::at(self.rt, name)?;
        self.opened = Some(Box::new(self.rt.alloc(), opened)?);
        Ok(())
    }
}

impl Keeper for SqliteKeeper<'_> {
    ghost told = { told_by };

    ghost attached = { attached_in };

    ghost waiting = { waiting_in };

    ghost faults = { λ k. k.faults };

    /// The rows that wait are written first. A name that is attached already stays as it is.
    fn attach(&mut self, name: &Text) -> Result<(), KeeperFault>
        ensures written { OnOk result (IfSome (waiting_in self.new) (λ rows. rows ≡ [])) }
        ensures held { OnErr result (held_in_memory self.new ≡ held_in_memory self.old) }
        ensures ok { OnOk result (attached_in self.new ≡ Some name.now) }
        ensures err { OnErr result (attached_in self.new ≡ attached_in self.old) }
        ensures told { told_by self.new ≡ told_by self.old }
        ensures counts { self.old.faults ≤ self.new.faults }
        ensures failed { result ≡ Err KeeperFault.Failed → Rose self.old.faults self.new.faults }
    {
        let opened = self.open(name);
        match opened {
            Ok(()) => Ok(()),
            Err(refusal) => Err(self.note(Tried::Opening, Some(name), refusal)),
        }
    }

    /// It answers from memory.
    fn header(&mut self) -> Result<Option<Header>, KeeperFault>
        requires { IsSome (attached_in self.old) }
        ensures held { IfOk result (λ header. IfSome (held_in_memory self.old) (λ l. header ≡ l.header)) }
        ensures same { self.new ≡ self.old }
        ensures found { IfOk result (λ header. IfSome (told_by self.old) (λ l. header ≡ l.header)) }
        ensures told { told_by self.new ≡ told_by self.old }
        ensures attached { attached_in self.new ≡ attached_in self.old }
        ensures counts { self.old.faults ≤ self.new.faults }
        ensures failed { result ≡ Err KeeperFault.Failed → Rose self.old.faults self.new.faults }
    {
        match &self.opened {
            Some(opened) => Ok(opened.header()?),
            None => unreachable!(),
        }
    }

    /// The header is in the file when it answers.
    fn set_header(&mut self, header: &Header) -> Result<(), KeeperFault>
        requires { IsSome (attached_in self.old) }
        ensures held { OnOk result (held_in_memory self.new ≡ option_map (with_header header.now) (held_in_memory self.old)) }
        ensures same { OnErr result (self.new.opened ≡ self.old.opened) }
        ensures waiting { waiting_in self.new ≡ waiting_in self.old }
        ensures ok { OnOk result (told_by self.new ≡ option_map (with_header header.now) (told_by self.old)) }
        ensures err { OnErr result (told_by self.new ≡ told_by self.old) }
        ensures attached { attached_in self.new ≡ attached_in self.old }
        ensures counts { self.old.faults ≤ self.new.faults }
        ensures failed { result ≡ Err KeeperFault.Failed → Rose self.old.faults self.new.faults }
    {
        let set = match &mut self.opened {
            Some(opened) => opened.set_header(self.rt, header),
            None => unreachable!(),
        };
        match set {
            Ok(()) => Ok(()),
            Err(refusal) => Err(self.note(Tried::Keeping, None, refusal)),
        }
    }

    /// It answers from memory.
    fn find(&mut self, target: &Text) -> Result<Option<Row>, KeeperFault>
        requires { IsSome (attached_in self.old) }
        ensures held { IfOk result (λ row. IfSome (held_in_memory self.old) (λ l. row ≡ option_map (row_at target.now) (fin.get l.rows target.now))) }
        ensures same { self.new ≡ self.old }
        ensures found { IfOk result (λ row. IfSome (told_by self.old) (λ l. row ≡ option_map (row_at target.now) (fin.get l.rows target.now))) }
        ensures told { told_by self.new ≡ told_by self.old }
        ensures attached { attached_in self.new ≡ attached_in self.old }
        ensures counts { self.old.faults ≤ self.new.faults }
        ensures failed { result ≡ Err KeeperFault.Failed → Rose self.old.faults self.new.faults }
    {
        match &self.opened {
            Some(opened) => Ok(opened.find(target)?),
            None => unreachable!(),
        }
    }

    /// The row waits to be written.
    fn put(&mut self, row: Row) -> Result<(), KeeperFault>
        requires { IsSome (attached_in self.old) }
        ensures waits { OnOk result (self.new.opened ≡ option_map (λ o. with_put row (with_room o)) self.old.opened) }
        ensures held { OnOk result (held_in_memory self.new ≡ option_map (with_row row) (held_in_memory self.old)) }
        ensures waiting { OnErr result ((self.new.opened ≡ self.old.opened) ⊎ (self.new.opened ≡ option_map with_room self.old.opened)) }
        ensures unchanged { OnErr result (held_in_memory self.new ≡ held_in_memory self.old) }
        ensures ok { OnOk result (told_by self.new ≡ option_map (with_row row) (told_by self.old)) }
        ensures err { OnErr result (told_by self.new ≡ told_by self.old) }
        ensures attached { attached_in self.new ≡ attached_in self.old }
        ensures counts { self.old.faults ≤ self.new.faults }
        ensures failed { result ≡ Err KeeperFault.Failed → Rose self.old.faults self.new.faults }
    {
        let put = match &mut self.opened {
            Some(opened) => opened.put(row),
            None => unreachable!(),
        };
        match put {
            Ok(()) => Ok(()),
            Err(refusal) => Err(self.note(Tried::Keeping, None, refusal)),
        }
    }

    /// The rows that wait are written, and the row is gone from the file, when it answers.
    fn forget(&mut self, target: &Text) -> Result<(), KeeperFault>
        requires { IsSome (attached_in self.old) }
        ensures held { OnOk result (held_in_memory self.new ≡ option_map (without_row target.now) (held_in_memory self.old)) }
        ensures written { OnOk result (IfSome (waiting_in self.new) (λ rows. rows ≡ [])) }
        ensures same { OnErr result (self.new.opened ≡ self.old.opened) }
        ensures ok { OnOk result (told_by self.new ≡ option_map (without_row target.now) (told_by self.old)) }
        ensures err { OnErr result (told_by self.new ≡ told_by self.old) }
        ensures attached { attached_in self.new ≡ attached_in self.old }
        ensures counts { self.old.faults ≤ self.new.faults }
        ensures failed { result ≡ Err KeeperFault.Failed → Rose self.old.faults self.new.faults }
    {
        let forgotten = match &mut self.opened {
            Some(opened) => opened.forget(target),
            None => unreachable!(),
        };
        match forgotten {
            Ok(()) => Ok(()),
            Err(refusal) => Err(self.note(Tried::Keeping, None, refusal)),
        }
    }

    /// Writes the rows that wait, in one transaction; after an error they go on waiting.
    fn commit(&mut self) -> Result<(), KeeperFault>
        requires { IsSome (attached_in self.old) }
        ensures exactly { OnOk result (self.new.opened ≡ option_map all_written self.old.opened) }
        ensures written { OnOk result (NoneWaits (waiting_in self.new)) }
        ensures same { OnErr result (self.new.opened ≡ self.old.opened) }
        ensures told { told_by self.new ≡ told_by self.old }
        ensures attached { attached_in self.new ≡ attached_in self.old }
        ensures counts { self.old.faults ≤ self.new.faults }
        ensures failed { result ≡ Err KeeperFault.Failed → Rose self.old.faults self.new.faults }
    {
        let written = self.write_all();
        match written {
            Ok(()) => Ok(()),
            Err(refusal) => Err(self.note(Tried::Keeping, None, refusal)),
        }
    }
}

//! The keeper over SQL.

ghost use Rattle.std.specs.Prelude.{◌≡◌, ◌≤◌, List, Some, None, Err, IsSome, IsOk, IfOk, OnOk, OnErr, option_map};
ghost use Rattle.std.specs.FinMap as fin;
ghost use Rattle.desk_base.specs.Counts.{Rose};
ghost use Rattle.desk_ledger.specs.Ledger.{Ledger, NoneWaits, row_at, with_header, with_row, without_row};
ghost use Rattle.desk_ledger_sql.specs.Kept.{Call, TellsAfter, kept};
ghost use Rattle.desk_ledger_sql.specs.OverSql.{OverSql, attached_in, told_by};
ghost use Rattle.desk_ledger_sql.specs.Told.{no_ledger};

use crate::opened::Opened;
use desk_base::Text;
use desk_ledger::{Header, Keeper, KeeperFault, Row};
use std::alloc::Global;
use std::marker::Model;

/// A keeper over a database in memory. It tells its header and its rows, and answers from the database at each call. Each
/// opening and each statement that is refused for another cause than want of memory counts as a fault. Nothing of it stands
/// outside. Contracts see the open ledger, if there is one, and the count of faults.
#[derive(Drop)]
pub struct SqlKeeper {
    alloc: Global,
    opened: Option<Opened>,
    faults: u64,
}

impl Model for SqlKeeper {
    ghost use Rattle.desk_ledger_sql.specs.OverSql.{OverSql, over_sql_code};

    ghost Value = { OverSql };

    ghost coded = { over_sql_code };

    ghost view = { λ k. record { opened = k.opened; faults = k.faults } };
}

impl SqlKeeper {
    /// A keeper that is attached to no name, and tells no header and no rows. It opens nothing yet, and takes no memory.
    pub fn in_memory(alloc: Global) -> SqlKeeper
        ensures { result ≡ record { opened = None; faults = 0 } }
    {
        SqlKeeper {
            alloc,
            opened: None,
            faults: 0,
        }
    }

    /// Counts what was refused for another cause than want of memory.
    fn note(&mut self, fault: KeeperFault) -> KeeperFault
        ensures is { result ≡ fault }
        ensures opened { self.new.opened ≡ self.old.opened }
        ensures counts { self.old.faults ≤ self.new.faults }
        ensures failed { fault ≡ KeeperFault.Failed → Rose self.old.faults self.new.faults }
    {
        if fault == KeeperFault::Failed {
            self.faults = self.faults.saturating_add(1);
        }
        fault
    }

    /// Takes the new name, and opens the database where it isn't open yet.
    fn open(&mut self, name: &Text) -> Result<(), KeeperFault>
        ensures ok { OnOk result (attached_in self.new ≡ Some name.now) }
        ensures told { told_by self.new ≡ told_by self.old }
        ensures err { OnErr result (self.new ≡ self.old) }
        ensures counts { self.new.faults ≡ self.old.faults }
    {
        let name = name.clone()?;
        match &mut self.opened {
            Some(opened) => {
                opened.set_name(name);
                Ok(())
            }
            None => {
                self.opened = Some(Opened::new(self.alloc, name)?);
                Ok(())
            }
        }
    }
}

/// The law of a keeper over SQL: it tells its contents always, and after whatever calls it answered by `Ok` they are what those
/// calls keep, from no header and no rows.
#[tactic(auto, using(crate::proofs::Kept::kept_by_steps))]
pub fn keeps_by_calls()
    ensures told { (keeper : OverSql) → ⟦<SqlKeeper as Keeper>⟧.told keeper ≡ Some (told_by keeper) }
    ensures kept { (calls : List Call) (after : Ledger) → TellsAfter no_ledger calls after → after ≡ kept calls }
{}

impl Keeper for SqlKeeper {
    ghost told = { λ k. Some (told_by k) };

    ghost attached = { attached_in };

    ghost waiting = { λ _. None };

    ghost faults = { λ k. k.faults };

    /// The first call opens a database in memory and makes its tables; where that is refused, the database is dropped. A later
    /// call keeps the new name alone.
    fn attach(&mut self, name: &Text) -> Result<(), KeeperFault>
        ensures ok { OnOk result (attached_in self.new ≡ Some name.now) }
        ensures told { told_by self.new ≡ told_by self.old }
        ensures same { OnErr result (self.new.opened ≡ self.old.opened) }
        ensures counts { self.old.faults ≤ self.new.faults }
        ensures failed { result ≡ Err KeeperFault.Failed → Rose self.old.faults self.new.faults }
    {
        match self.open(name) {
            Ok(()) => Ok(()),
            Err(fault) => Err(self.note(fault)),
        }
    }

    fn header(&mut self) -> Result<Option<Header>, KeeperFault>
        requires { IsSome (attached_in self.old) }
        ensures found { IfOk result (λ header. header ≡ (told_by self.old).header) }
        ensures same { self.new.opened ≡ self.old.opened }
        ensures counts { self.old.faults ≤ self.new.faults }
        ensures failed { result ≡ Err KeeperFault.Failed → Rose self.old.faults self.new.faults }
    {
        let Some(opened) = &mut self.opened else {
            unreachable!();
        };
        match opened.header() {
            Ok(header) => Ok(header),
            Err(fault) => Err(self.note(fault)),
        }
    }

    fn set_header(&mut self, header: &Header) -> Result<(), KeeperFault>
        requires { IsSome (attached_in self.old) }
        ensures kept { OnOk result (told_by self.new ≡ with_header header.now (told_by self.old)) }
        ensures attached { attached_in self.new ≡ attached_in self.old }
        ensures same { OnErr result (self.new.opened ≡ self.old.opened) }
        ensures counts { self.old.faults ≤ self.new.faults }
        ensures failed { result ≡ Err KeeperFault.Failed → Rose self.old.faults self.new.faults }
    {
        let Some(opened) = &mut self.opened else {
            unreachable!();
        };
        match opened.set_header(header) {
            Ok(()) => Ok(()),
            Err(fault) => Err(self.note(fault)),
        }
    }

    fn find(&mut self, target: &Text) -> Result<Option<Row>, KeeperFault>
        requires { IsSome (attached_in self.old) }
        ensures found { IfOk result (λ row. row ≡ option_map (row_at target.now) (fin.get (told_by self.old).rows target.now)) }
        ensures same { self.new.opened ≡ self.old.opened }
        ensures counts { self.old.faults ≤ self.new.faults }
        ensures failed { result ≡ Err KeeperFault.Failed → Rose self.old.faults self.new.faults }
    {
        let Some(opened) = &mut self.opened else {
            unreachable!();
        };
        match opened.find(target) {
            Ok(row) => Ok(row),
            Err(fault) => Err(self.note(fault)),
        }
    }

    fn put(&mut self, row: Row) -> Result<(), KeeperFault>
        requires { IsSome (attached_in self.old) }
        ensures kept { OnOk result (told_by self.new ≡ with_row row (told_by self.old)) }
        ensures attached { attached_in self.new ≡ attached_in self.old }
        ensures same { OnErr result (self.new.opened ≡ self.old.opened) }
        ensures counts { self.old.faults ≤ self.new.faults }
        ensures failed { result ≡ Err KeeperFault.Failed → Rose self.old.faults self.new.faults }
    {
        let Some(opened) = &mut self.opened else {
            unreachable!();
        };
        match opened.put(&row) {
            Ok(()) => Ok(()),
            Err(fault) => Err(self.note(fault)),
        }
    }

    fn forget(&mut self, target: &Text) -> Result<(), KeeperFault>
        requires { IsSome (attached_in self.old) }
        ensures kept { OnOk result (told_by self.new ≡ without_row target.now (told_by self.old)) }
        ensures attached { attached_in self.new ≡ attached_in self.old }
        ensures same { OnErr result (self.new.opened ≡ self.old.opened) }
        ensures counts { self.old.faults ≤ self.new.faults }
        ensures failed { result ≡ Err KeeperFault.Failed → Rose self.old.faults self.new.faults }
    {
        let Some(opened) = &mut self.opened else {
            unreachable!();
        };
        match opened.forget(target) {
            Ok(()) => Ok(()),
            Err(fault) => Err(self.note(fault)),
        }
    }

    /// Nothing of it stands outside. It never fails.
    fn commit(&mut self) -> Result<(), KeeperFault>
        requires { IsSome (attached_in self.old) }
        ensures ok { IsOk result }
        ensures same { self.new ≡ self.old }
        ensures written { OnOk result (NoneWaits None) }
    {
        Ok(())
    }
}

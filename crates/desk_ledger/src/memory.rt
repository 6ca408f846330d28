//! A keeper in memory.

ghost use Rattle.std.specs.Prelude.{◌≡◌, ◌≤◌, ◌↔◌, [], Some, None, Err, IsTrue, IsSome, IsOk, IfSome, IfOk, OnOk, OnErr, option_map};
ghost use Rattle.std.specs.FinMap as fin;
ghost use Rattle.desk_base.specs.Counts.{Rose};
ghost use Rattle.desk_ledger.specs.Ledger.{NoneWaits, row_at, held_in, with_header, with_old_rows, with_row, without_row};
ghost use Rattle.desk_ledger.specs.InMemory.{called, fails, attaching, keeping};

use crate::{Contents, Header, Keeper, KeeperFault, OldRow, Row};
use desk_base::{Memory, Text};
use std::alloc::Global;
use std::marker::Model;

/// A keeper in memory, which tells its contents. Some of its calls fail, by their numbers, and all from a
/// number on where it is told to stop. Contracts see the ledger, the attached name, the count of faults,
/// the count of calls, the numbers of the calls that fail and the number from which on all fail.
#[derive(Drop)]
pub struct MemoryKeeper {
    contents: Contents,
    attached: Option<Text>,
    faults: u64,
    calls: u64,
    failing: Vec<u64>,
    stop: Option<u64>,
}

impl Model for MemoryKeeper {
    ghost use Rattle.desk_ledger.specs.InMemory.{InMemory, in_memory_code};

    ghost Value = { InMemory };

    ghost coded = { in_memory_code };

    ghost view = { λ k. record { ledger = k.contents; attached = k.attached; faults = k.faults; calls = k.calls; failing = k.failing.items; stop = k.stop } };
}

impl MemoryKeeper {
    /// Makes the call of this number and each later one fail. Calls are counted from 0, over all calls
    /// since the keeper was made, of which a commit is none; a call with this number or a greater one that
    /// was made before stays as it was. A later stop takes the place of this one. It takes no memory.
    pub fn stop_at(&mut self, call: u64)
        ensures { self.new ≡ record self.old { stop = Some call } }
    {
        self.stop = Some(call);
    }

    /// Makes no call fail from now on: neither those with the numbers that were to fail nor those behind a
    /// stop. Calls and faults keep their counts, and the ledger stays as it is. It takes no memory.
    pub fn mend(&mut self)
        ensures { self.new ≡ record self.old { stop = None; failing = [] } }
    {
        self.failing.clear();
        self.stop = None;
    }

    /// Whether the next call fails.
    fn is_failing(&self) -> bool
        ensures { result ≡ fails self.now }
    {
        let stops = match self.stop {
            Some(stop) => stop <= self.calls,
            None => false,
        };
        self.failing.as_slice().contains(&self.calls) || stops
    }

    /// Counts a call, and answers whether it fails.
    fn call(&mut self) -> bool
        ensures result { result ≡ fails self.old }
        ensures counts { self.old.faults ≤ self.new.faults }
        ensures rose { IsTrue result → Rose self.old.faults self.new.faults }
        ensures called { self.new ≡ called self.old }
    {
        let fails = self.is_failing();
        self.calls = self.calls.saturating_add(1);
        if fails {
            self.faults = self.faults.saturating_add(1);
        }
        fails
    }
}

impl MemoryKeeper {
    /// A keeper without header and rows, attached to no name. The calls with the numbers in `failing`
    /// fail, counted from 0 over all calls; the count of calls stands still at
    /// 18,446,744,073,709,551,615. The only error is want of memory.
    pub fn new(alloc: Global, failing: Vec<u64>) -> Result<MemoryKeeper, Memory>
        ensures { IfOk result (λ keeper. keeper ≡ record { ledger = record { header = None; rows = fin.empty }; attached = None; faults = 0; calls = 0; failing = failing.items; stop = None }) }
    {
        Ok(MemoryKeeper {
            contents: Contents::new(alloc),
            attached: None,
            faults: 0,
            calls: 0,
            failing,
            stop: None,
        })
    }

    /// A keeper of this header and of rows of format 1, which are taken over without an output; of two rows
    /// with one target the later counts. It is attached to no name, and none of its calls fails. The only
    /// error is want of memory.
    pub fn from_format_1(
        alloc: Global,
        header: Option<Header>,
        rows: Vec<OldRow>,
    ) -> Result<MemoryKeeper, Memory>
        ensures { IfOk result (λ keeper. keeper ≡ record { ledger = with_old_rows rows.items (record { header = header; rows = fin.empty }); attached = None; faults = 0; calls = 0; failing = []; stop = None }) }
    {
        Ok(MemoryKeeper {
            contents: Contents::from_format_1(alloc, header, rows)?,
            attached: None,
            faults: 0,
            calls: 0,
            failing: Vec::new(alloc),
            stop: None,
        })
    }
}

impl Keeper for MemoryKeeper {
    ghost told = { λ k. Some k.ledger };

    ghost attached = { λ k. k.attached };

    ghost waiting = { λ _. None };

    ghost faults = { λ k. k.faults };

    /// It fails exactly where this call's number is among the failing or a stop is at it or before it.
    fn attach(&mut self, name: &Text) -> Result<(), KeeperFault>
        ensures exactly { (result ≡ Err KeeperFault.Failed) ↔ IsTrue (fails self.old) }
        ensures done { OnOk result (self.new ≡ attaching name.now (called self.old)) }
        ensures unchanged { OnErr result (self.new ≡ called self.old) }
        ensures ok { OnOk result (self.new.attached ≡ Some name.now) }
        ensures err { OnErr result (self.new.attached ≡ self.old.attached) }
        ensures told { Some self.new.ledger ≡ Some self.old.ledger }
        ensures counts { self.old.faults ≤ self.new.faults }
        ensures failed { result ≡ Err KeeperFault.Failed → Rose self.old.faults self.new.faults }
    {
        if self.call() {
            return Err(KeeperFault::Failed);
        }
        self.attached = Some(name.clone()?);
        Ok(())
    }

    /// It fails exactly where this call's number is among the failing or a stop is at it or before it.
    fn header(&mut self) -> Result<Option<Header>, KeeperFault>
        requires { IsSome self.old.attached }
        ensures exactly { (result ≡ Err KeeperFault.Failed) ↔ IsTrue (fails self.old) }
        ensures is { IfOk result (λ header. header ≡ self.old.ledger.header) }
        ensures called { self.new ≡ called self.old }
        ensures found { IfOk result (λ header. IfSome (Some self.old.ledger) (λ l. header ≡ l.header)) }
        ensures told { Some self.new.ledger ≡ Some self.old.ledger }
        ensures attached { self.new.attached ≡ self.old.attached }
        ensures counts { self.old.faults ≤ self.new.faults }
        ensures failed { result ≡ Err KeeperFault.Failed → Rose self.old.faults self.new.faults }
    {
        if self.call() {
            return Err(KeeperFault::Failed);
        }
        Ok(self.contents.header()?)
    }

    /// It fails exactly where this call's number is among the failing or a stop is at it or before it.
    fn set_header(&mut self, header: &Header) -> Result<(), KeeperFault>
        requires { IsSome self.old.attached }
        ensures exactly { (result ≡ Err KeeperFault.Failed) ↔ IsTrue (fails self.old) }
        ensures done { OnOk result (self.new ≡ keeping (with_header header.now self.old.ledger) (called self.old)) }
        ensures unchanged { OnErr result (self.new ≡ called self.old) }
        ensures ok { OnOk result (Some self.new.ledger ≡ option_map (with_header header.now) (Some self.old.ledger)) }
        ensures err { OnErr result (Some self.new.ledger ≡ Some self.old.ledger) }
        ensures attached { self.new.attached ≡ self.old.attached }
        ensures counts { self.old.faults ≤ self.new.faults }
        ensures failed { result ≡ Err KeeperFault.Failed → Rose self.old.faults self.new.faults }
    {
        if self.call() {
            return Err(KeeperFault::Failed);
        }
        self.contents.set_header(header.clone()?);
        Ok(())
    }

    /// It fails exactly where this call's number is among the failing or a stop is at it or before it.
    fn find(&mut self, target: &Text) -> Result<Option<Row>, KeeperFault>
        requires { IsSome self.old.attached }
        ensures exactly { (result ≡ Err KeeperFault.Failed) ↔ IsTrue (fails self.old) }
        ensures is { IfOk result (λ row. row ≡ option_map (row_at target.now) (fin.get self.old.ledger.rows target.now)) }
        ensures called { self.new ≡ called self.old }
        ensures found { IfOk result (λ row. IfSome (Some self.old.ledger) (λ l. row ≡ option_map (row_at target.now) (fin.get l.rows target.now))) }
        ensures told { Some self.new.ledger ≡ Some self.old.ledger }
        ensures attached { self.new.attached ≡ self.old.attached }
        ensures counts { self.old.faults ≤ self.new.faults }
        ensures failed { result ≡ Err KeeperFault.Failed → Rose self.old.faults self.new.faults }
    {
        if self.call() {
            return Err(KeeperFault::Failed);
        }
        Ok(self.contents.find(target)?)
    }

    /// It fails exactly where this call's number is among the failing or a stop is at it or before it.
    fn put(&mut self, row: Row) -> Result<(), KeeperFault>
        requires { IsSome self.old.attached }
        ensures exactly { (result ≡ Err KeeperFault.Failed) ↔ IsTrue (fails self.old) }
        ensures done { OnOk result (self.new ≡ keeping (with_row row self.old.ledger) (called self.old)) }
        ensures unchanged { OnErr result (self.new ≡ called self.old) }
        ensures ok { OnOk result (Some self.new.ledger ≡ option_map (with_row row) (Some self.old.ledger)) }
        ensures err { OnErr result (Some self.new.ledger ≡ Some self.old.ledger) }
        ensures attached { self.new.attached ≡ self.old.attached }
        ensures counts { self.old.faults ≤ self.new.faults }
        ensures failed { result ≡ Err KeeperFault.Failed → Rose self.old.faults self.new.faults }
    {
        if self.call() {
            return Err(KeeperFault::Failed);
        }
        self.contents.put(row)?;
        Ok(())
    }

    /// It fails exactly where this call's number is among the failing or a stop is at it or before it. It
    /// wants no memory.
    fn forget(&mut self, target: &Text) -> Result<(), KeeperFault>
        requires { IsSome self.old.attached }
        ensures exactly { (result ≡ Err KeeperFault.Failed) ↔ IsTrue (fails self.old) }
        ensures done { OnOk result (self.new ≡ keeping (without_row target.now self.old.ledger) (called self.old)) }
        ensures unchanged { OnErr result (self.new ≡ called self.old) }
        ensures ok { OnOk result (Some self.new.ledger ≡ option_map (without_row target.now) (Some self.old.ledger)) }
        ensures err { OnErr result (Some self.new.ledger ≡ Some self.old.ledger) }
        ensures attached { self.new.attached ≡ self.old.attached }
        ensures counts { self.old.faults ≤ self.new.faults }
        ensures failed { result ≡ Err KeeperFault.Failed → Rose self.old.faults self.new.faults }
    {
        if self.call() {
            return Err(KeeperFault::Failed);
        }
        self.contents.forget(target);
        Ok(())
    }

    /// Nothing of it stands outside. It never fails, and no call is counted.
    fn commit(&mut self) -> Result<(), KeeperFault>
        requires { IsSome self.old.attached }
        ensures ok { IsOk result }
        ensures unchanged { self.new ≡ self.old }
        ensures written { OnOk result (NoneWaits None) }
        ensures told { Some self.new.ledger ≡ Some self.old.ledger }
        ensures attached { self.new.attached ≡ self.old.attached }
        ensures counts { self.old.faults ≤ self.new.faults }
        ensures failed { result ≡ Err KeeperFault.Failed → Rose self.old.faults self.new.faults }
    {
        Ok(())
    }
}

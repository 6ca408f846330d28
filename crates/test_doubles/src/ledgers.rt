//! A ledger in memory, whose commits may fail.

use desk_base::{Memory, Text};
use desk_ledger::{Header, Keeper, KeeperFault, MemoryKeeper, OldRow, Row};
use std::alloc::Global;

/// A ledger in memory that tells nothing of its contents. It counts each call, any of which may be a fault.
#[derive(Drop)]
pub struct Ledger {
    keeper: Box<MemoryKeeper>,
    commits_fail: bool,
    calls: u64,
}

impl Ledger {
    /// This keeper, and whether its commits fail.
    fn of(alloc: Global, keeper: MemoryKeeper, commits_fail: bool) -> Result<Box<Ledger>, Memory> {
        let keeper = Box::new(alloc, keeper)?;
        let ledger = Ledger {
            keeper,
            commits_fail,
            calls: 0,
        };
        Ok(Box::new(alloc, ledger)?)
    }

    /// A ledger without rows, of which the calls of these numbers fail, counted from 0, and each commit where that is asked. The only
    /// error is want of memory.
    pub fn new(
        alloc: Global,
        failing: Vec<u64>,
        commits_fail: bool,
    ) -> Result<Box<Ledger>, Memory> {
        Ledger::of(alloc, MemoryKeeper::new(alloc, failing)?, commits_fail)
    }

    /// Makes the call of this number and each later one fail.
    pub fn stop_at(&mut self, call: u64) {
        self.keeper.stop_at(call);
    }

    /// Lets no call fail from now on.
    pub fn mend(&mut self) {
        self.keeper.mend();
    }

    /// The header, if there is one; none where the ledger fails. The only error is want of memory.
    pub fn header_of(&mut self, alloc: Global) -> Result<Option<Box<Header>>, Memory> {
        let name = Text::from_bytes(alloc, b"l")?;
        if let Err(fault) = self.attach(&name) {
            return none_of(fault);
        }
        match self.header() {
            Ok(Some(header)) => Ok(Some(Box::new(alloc, header)?)),
            Ok(None) => Ok(None),
            Err(fault) => none_of(fault),
        }
    }

    /// The row of a target, if there is one; none where the ledger fails. The only error is want of memory.
    pub fn row_of(&mut self, alloc: Global, target: &Text) -> Result<Option<Box<Row>>, Memory> {
        let name = Text::from_bytes(alloc, b"l")?;
        if let Err(fault) = self.attach(&name) {
            return none_of(fault);
        }
        match self.find(target) {
            Ok(Some(row)) => Ok(Some(Box::new(alloc, row)?)),
            Ok(None) => Ok(None),
            Err(fault) => none_of(fault),
        }
    }

    /// A ledger with the rows of these targets, as the first format had them, and this one's header. The only error is want of memory.
    pub fn first_format(&mut self, alloc: Global, targets: &[Text]) -> Result<Box<Ledger>, Memory> {
        let mut rows = Vec::new(alloc);
        for target in targets {
            if let Some(row) = self.row_of(alloc, target)? {
                rows.push(old_row(Box::into_inner(row)))?;
            }
        }
        let header = match self.header_of(alloc)? {
            Some(header) => Some(Box::into_inner(header)),
            None => None,
        };
        Ledger::of(
            alloc,
            MemoryKeeper::from_format_1(alloc, header, rows)?,
            false,
        )
    }
}

/// A row as the first format had it.
fn old_row(row: Row) -> OldRow {
    OldRow {
        target: row.target,
        source: row.source,
        digest: row.digest,
    }
}

/// Nothing, where a call failed; want of memory goes on.
fn none_of<T>(fault: KeeperFault) -> Result<Option<T>, Memory> {
    match fault {
        KeeperFault::Failed => Ok(None),
        KeeperFault::Memory => Err(Memory),
    }
}

impl Keeper for Ledger {
    ghost use Rattle.std.specs.Prelude.{None};

    ghost told = { λ _. None };

    ghost attached = { λ l. l.keeper.value.attached };

    ghost waiting = { λ _. None };

    ghost faults = { λ l. l.calls };

    fn attach(&mut self, name: &Text) -> Result<(), KeeperFault> {
        self.calls = self.calls.saturating_add(1);
        self.keeper.attach(name)
    }

    fn header(&mut self) -> Result<Option<Header>, KeeperFault> {
        self.calls = self.calls.saturating_add(1);
        self.keeper.header()
    }

    fn set_header(&mut self, header: &Header) -> Result<(), KeeperFault> {
        self.calls = self.calls.saturating_add(1);
        self.keeper.set_header(header)
    }

    fn find(&mut self, target: &Text) -> Result<Option<Row>, KeeperFault> {
        self.calls = self.calls.saturating_add(1);
        self.keeper.find(target)
    }

    fn put(&mut self, row: Row) -> Result<(), KeeperFault> {
        self.calls = self.calls.saturating_add(1);
        self.keeper.put(row)
    }

    fn forget(&mut self, target: &Text) -> Result<(), KeeperFault> {
        self.calls = self.calls.saturating_add(1);
        self.keeper.forget(target)
    }

    fn commit(&mut self) -> Result<(), KeeperFault> {
        self.calls = self.calls.saturating_add(1);
        if self.commits_fail {
            return Err(KeeperFault::Failed);
        }
        self.keeper.commit()
    }
}

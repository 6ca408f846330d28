//! The ledgers that words may ask for: a file, and a database in memory.

ghost use Rattle.std.specs.Prelude.{None, Some, if◌then◌else◌};
ghost use Rattle.desk_ledger_sql.specs.OverSql as sql;
ghost use Rattle.desk_sqlite.specs.OverFile as file;

use desk_base::{Memory, Text};
use desk_ledger::{Header, Keeper, KeeperFault, Row};
use desk_ledger_sql::SqlKeeper;
use desk_sqlite::SqliteKeeper;

/// The two ledgers of the program as one type, so that `desk` is built once for both. It hands each call on to the one that
/// words ask for; nothing is done to the other.
#[derive(Drop)]
pub(crate) struct AnyLedger<'r> {
    /// The ledger in an SQLite file.
    pub(crate) file: SqliteKeeper<'r>,
    /// The ledger in an SQL database in memory.
    memory: SqlKeeper,
    /// Whether that in memory is asked for.
    pub(crate) is_in_memory: bool,
}

impl<'r> AnyLedger<'r> {
    /// A ledger of either kind, which is attached to no name. The only error is want of memory.
    pub(crate) fn boxed(
        rt: &'r HostRuntime,
        is_in_memory: bool,
    ) -> Result<Box<AnyLedger<'r>>, Memory> {
        let ledger = AnyLedger {
            file: SqliteKeeper::new(rt),
            memory: SqlKeeper::in_memory(rt.alloc()),
            is_in_memory,
        };
        Ok(Box::new(rt.alloc(), ledger)?)
    }
}

impl Keeper for AnyLedger<'_> {
    ghost told = { λ l. if l.is_in_memory then Some (sql.told_by l.memory) else None };

    ghost attached = { λ l. if l.is_in_memory then sql.attached_in l.memory else file.attached_in l.file };

    ghost waiting = { λ l. if l.is_in_memory then None else file.waiting_in l.file };

    ghost faults = { λ l. if l.is_in_memory then l.memory.faults else l.file.faults };

    fn attach(&mut self, name: &Text) -> Result<(), KeeperFault> {
        if self.is_in_memory {
            self.memory.attach(name)
        } else {
            self.file.attach(name)
        }
    }

    fn header(&mut self) -> Result<Option<Header>, KeeperFault> {
        if self.is_in_memory {
            self.memory.header()
        } else {
            self.file.header()
        }
    }

    fn set_header(&mut self, header: &Header) -> Result<(), KeeperFault> {
        if self.is_in_memory {
            self.memory.set_header(header)
        } else {
            self.file.set_header(header)
        }
    }

    fn find(&mut self, target: &Text) -> Result<Option<Row>, KeeperFault> {
        if self.is_in_memory {
            self.memory.find(target)
        } else {
            self.file.find(target)
        }
    }

    fn put(&mut self, row: Row) -> Result<(), KeeperFault> {
        if self.is_in_memory {
            self.memory.put(row)
        } else {
            self.file.put(row)
        }
    }

    fn forget(&mut self, target: &Text) -> Result<(), KeeperFault> {
        if self.is_in_memory {
            self.memory.forget(target)
        } else {
            self.file.forget(target)
        }
    }

    fn commit(&mut self) -> Result<(), KeeperFault> {
        if self.is_in_memory {
            self.memory.commit()
        } else {
            self.file.commit()
        }
    }
}

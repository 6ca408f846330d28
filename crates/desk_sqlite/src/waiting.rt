//! Rows that wait to be written.

ghost use Rattle.std.specs.Prelude.{◌≡◌, ◌↔◌, ◌-◌, ◌++◌, ◌∷◌, ◌<◌, ◌≤◌, ◌||◌, [], false, length, take, IsTrue, OnOk, OnErr};

use desk_base::Memory;
use desk_ledger::Row;
use std::alloc::Global;
use std::marker::Model;

/// How many rows wait at most, before they are written in one transaction.
const MOST: usize = 1024;

/// The rows that wait to be written, in the order in which they were put, and whether the target of one had
/// a row already when it was put. They are 1,024 at most.
#[derive(Drop)]
pub(crate) struct UnwrittenRows {
    rows: Vec<Row>,
    replaces: bool,
}

impl Model for UnwrittenRows {
    ghost use Rattle.std.specs.Prelude.{◌≤◌, length};
    ghost use Rattle.desk_sqlite.specs.OverFile.{WaitingRows, waiting_code};

    ghost Value = { WaitingRows };

    ghost coded = { waiting_code };

    ghost view = { λ w. record { rows = w.rows.items; replaces = w.replaces } };

    ghost invariant = { λ w. length w.rows.items ≤ 1024 };
}

impl UnwrittenRows {
    /// A queue to begin with, in which no row waits. It takes no memory.
    pub(crate) fn new(alloc: Global) -> UnwrittenRows
        ensures { result ≡ record { rows = []; replaces = false } }
    {
        UnwrittenRows {
            rows: Vec::new(alloc),
            replaces: false,
        }
    }

    /// Whether no other row may wait.
    pub(crate) fn is_full(&self) -> bool
        ensures full { IsTrue result ↔ (length self.now.rows ≡ 1024) }
        ensures most { length self.now.rows ≤ 1024 }
    {
        self.rows.len() >= MOST
    }

    /// The rows in their order.
    pub(crate) fn rows(&self) -> &[Row]
        ensures { result.now ≡ self.now.rows }
    {
        self.rows.as_slice()
    }

    /// Whether the target of one of them had a row already.
    pub(crate) fn replaces(&self) -> bool
        ensures { result ≡ self.now.replaces }
    {
        self.replaces
    }

    /// Lets a row wait behind the others. After want of memory, the only error, they are as they were.
    pub(crate) fn push(&mut self, row: Row) -> Result<(), Memory>
        requires { length self.old.rows < 1024 }
        ensures ok { OnOk result (self.new ≡ record self.old { rows = self.old.rows ++ row ∷ [] }) }
        ensures err { OnErr result (self.new ≡ self.old) }
    {
        self.rows.push(row)?;
        Ok(())
    }

    /// Takes away the row that was put last, so that it isn't written.
    pub(crate) fn take_back(&mut self)
        ensures { self.new ≡ record self.old { rows = take (length self.old.rows - 1) self.old.rows } }
    {
        let _ = self.rows.pop();
    }

    /// Keeps in mind whether the target of the last row had a row already.
    pub(crate) fn note(&mut self, replaces: bool)
        ensures { self.new ≡ record self.old { replaces = self.old.replaces || replaces } }
    {
        self.replaces = self.replaces || replaces;
    }

    /// Nothing waits any more. It takes no memory.
    pub(crate) fn clear(&mut self)
        ensures { self.new ≡ record { rows = []; replaces = false } }
    {
        self.rows.clear();
        self.replaces = false;
    }
}

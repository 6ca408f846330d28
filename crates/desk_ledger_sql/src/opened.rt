//! A ledger that is open.

ghost use Rattle.std.specs.Prelude.{◌≡◌, IfOk, OnOk, OnErr, option_map};
ghost use Rattle.std.specs.FinMap as fin;
ghost use Rattle.desk_ledger.specs.Ledger.{row_at, with_header, with_row, without_row};
ghost use Rattle.desk_ledger_sql.specs.Told.{no_ledger};

use crate::tables;
use desk_base::Text;
use desk_ledger::{Header, KeeperFault, Row};
use sqlite::{Connection, MemStore};
use std::alloc::Global;
use std::marker::Model;

/// A ledger that is open: its name and its database. Contracts see the name, and what the tables tell.
#[derive(Drop)]
pub(crate) struct Opened {
    alloc: Global,
    name: Text,
    connection: Connection<MemStore>,
}

impl Model for Opened {
    ghost use Rattle.desk_ledger_sql.specs.Told.{IsLedger, connected, told};
    ghost use Rattle.desk_ledger_sql.specs.OverSql.{OpenLedger, open_code};

    ghost Value = { OpenLedger };

    ghost coded = { open_code };

    ghost view = { λ o. record { name = o.name; ledger = told o.connection } };

    ghost invariant = { λ o. IsLedger (connected o.connection) };
}

impl Opened {
    /// An empty ledger of this name.
    pub(crate) fn new(alloc: Global, name: Text) -> Result<Opened, KeeperFault>
        ensures { IfOk result (λ opened. opened ≡ record { name = name; ledger = no_ledger }) }
    {
        let connection = tables::open(alloc)?;
        Ok(Opened {
            alloc,
            name,
            connection,
        })
    }

    /// Gives it another name.
    pub(crate) fn set_name(&mut self, name: Text)
        ensures { self.new ≡ record self.old { name = name } }
    {
        self.name = name;
    }

    pub(crate) fn header(&mut self) -> Result<Option<Header>, KeeperFault>
        ensures found { IfOk result (λ header. header ≡ self.old.ledger.header) }
        ensures same { self.new ≡ self.old }
    {
        tables::header(&mut self.connection, self.alloc)
    }

    pub(crate) fn set_header(&mut self, header: &Header) -> Result<(), KeeperFault>
        ensures ok { OnOk result (self.new ≡ record self.old { ledger = with_header header.now self.old.ledger }) }
        ensures err { OnErr result (self.new ≡ self.old) }
    {
        tables::set_header(&mut self.connection, header)
    }

    pub(crate) fn find(&mut self, target: &Text) -> Result<Option<Row>, KeeperFault>
        ensures found { IfOk result (λ row. row ≡ option_map (row_at target.now) (fin.get self.old.ledger.rows target.now)) }
        ensures same { self.new ≡ self.old }
    {
        tables::find(&mut self.connection, self.alloc, target)
    }

    pub(crate) fn put(&mut self, row: &Row) -> Result<(), KeeperFault>
        ensures ok { OnOk result (self.new ≡ record self.old { ledger = with_row row.now self.old.ledger }) }
        ensures err { OnErr result (self.new ≡ self.old) }
    {
        tables::put(&mut self.connection, row)
    }

    pub(crate) fn forget(&mut self, target: &Text) -> Result<(), KeeperFault>
        ensures ok { OnOk result (self.new ≡ record self.old { ledger = without_row target.now self.old.ledger }) }
        ensures err { OnErr result (self.new ≡ self.old) }
    {
        tables::forget(&mut self.connection, target)
    }
}

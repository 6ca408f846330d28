//! What a ledger holds.

ghost use Rattle.std.specs.Prelude.{◌≡◌, IfOk, OnOk, OnErr, None, option_map};
ghost use Rattle.std.specs.FinMap as fin;
ghost use Rattle.desk_ledger.specs.Ledger.{row_at, taken_over, with_header, with_old_rows, with_row, without_row};

use crate::{Header, Held, OldRow, Row};
use desk_base::{Memory, Text};
use std::alloc::Global;
use std::collections::BTreeMap;
use std::marker::Model;

/// What a ledger holds: a header, if there is one, and rows by their targets. Contracts see the ledger.
#[derive(Drop)]
pub struct Contents {
    header: Option<Header>,
    rows: BTreeMap<Text, Held>,
}

impl Model for Contents {
    ghost use Rattle.std.specs.FinMap as map;
    ghost use Rattle.desk_ledger.specs.Ledger.{Ledger};
    ghost use Rattle.desk_ledger.specs.InMemory.{ledger_code};

    ghost Value = { Ledger };

    ghost coded = { ledger_code };

    ghost view = { λ c. record { header = c.header; rows = map.from_entries c.rows.entries } };
}

/// The row of a target, from copies of what it holds.
fn row_of(target: &Text, held: &Held) -> Result<Row, Memory>
    ensures { IfOk result (λ row. row ≡ row_at target.now held.now) }
{
    Ok(Row {
        target: target.clone()?,
        source: held.source.clone()?,
        digest: held.digest,
        output: held.output,
    })
}

/// A row of format 1, taken over: it has no output.
fn taken_over(row: OldRow) -> Row
    ensures { result ≡ taken_over row }
{
    let OldRow {
        target,
        source,
        digest,
    } = row;
    Row {
        target,
        source,
        digest,
        output: None,
    }
}

impl Contents {
    /// What a ledger that was just made holds: no header, and no rows. It takes no memory.
    pub fn new(alloc: Global) -> Contents
        ensures { result ≡ record { header = None; rows = fin.empty } }
    {
        Contents {
            header: None,
            rows: BTreeMap::new(alloc),
        }
    }

    /// This header, and rows of format 1 without an output; of two with one target the later counts. The
    /// only error is want of memory.
    #[tactic(auto, using(crate::proofs::OldRows::one_more_row))]
    pub fn from_format_1(
        alloc: Global,
        header: Option<Header>,
        rows: Vec<OldRow>,
    ) -> Result<Contents, Memory>
        ensures { IfOk result (λ contents. contents ≡ with_old_rows rows.items (record { header = header; rows = fin.empty })) }
    {
        let mut contents = Contents::new(alloc);
        contents.header = header;
        for row in rows {
            contents.put(taken_over(row))?;
        }
        Ok(contents)
    }

    /// A copy of the header, if there is one. The only error is want of memory.
    pub fn header(&self) -> Result<Option<Header>, Memory>
        ensures { IfOk result (λ header. header ≡ self.now.header) }
    {
        Ok(self.header.clone()?)
    }

    /// Sets the header, in place of the one that was there. It takes no memory.
    pub fn set_header(&mut self, header: Header)
        ensures { self.new ≡ with_header header self.old }
    {
        self.header = Some(header);
    }

    /// A copy of the row of a target, if there is one. The only error is want of memory.
    pub fn find(&self, target: &Text) -> Result<Option<Row>, Memory>
        ensures { IfOk result (λ row. row ≡ option_map (row_at target.now) (fin.get self.now.rows target.now)) }
    {
        match self.rows.get(target) {
            Some(held) => Ok(Some(row_of(target, held)?)),
            None => Ok(None),
        }
    }

    /// Takes a row in place of its target's, and answers what its target held before. After want of memory,
    /// the only error, the contents are as they were.
    pub fn put(&mut self, row: Row) -> Result<Option<Held>, Memory>
        ensures earlier { IfOk result (λ held. held ≡ fin.get self.old.rows row.target) }
        ensures ok { OnOk result (self.new ≡ with_row row self.old) }
        ensures err { OnErr result (self.new ≡ self.old) }
    {
        let Row {
            target,
            source,
            digest,
            output,
        } = row;
        let held = Held {
            source,
            digest,
            output,
        };
        Ok(self.rows.insert(target, held)?)
    }

    /// Removes the row of a target, if there is one. It takes no memory.
    pub fn forget(&mut self, target: &Text)
        ensures { self.new ≡ without_row target.now self.old }
    {
        let _ = self.rows.remove(target);
    }
}

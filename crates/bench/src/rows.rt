//! Rows of a ledger that is in memory, as a table or as an SQL database: so many are put in the order of their targets, each is
//! found, and each is put again with other digests. The microseconds of each of the three go to standard error. It prints how
//! many rows were found.

ghost use Rattle.std.specs.Prelude.{IsSome};

use crate::reading::{bad_words, undone};
use desk_base::{Memory, Text};
use desk_ledger::{Digest, Keeper, KeeperFault, MemoryKeeper, Row};
use desk_ledger_sql::SqlKeeper;
use std::alloc::Global;
use std::io;
use std::time::Instant;

/// A keeper that is attached to a ledger.
#[derive(Drop)]
struct Attached<K: Keeper> {
    keeper: Box<K>,
    ghost attached: { IsSome (K.attached keeper.value) },
}

impl<K: Keeper + Drop> Attached<K> {
    /// Attaches a keeper.
    fn of(alloc: Global, mut keeper: Box<K>) -> Result<Attached<K>, KeeperFault> {
        let name = Text::from_bytes(alloc, b"ledger")?;
        keeper.attach(&name)?;
        Ok(Attached { keeper })
    }

    fn put(&mut self, row: Row) -> Result<(), KeeperFault> {
        self.keeper.put(row)
    }

    fn has(&mut self, target: &Text) -> Result<bool, KeeperFault> {
        Ok(self.keeper.find(target)?.is_some())
    }

    /// Puts rows.
    fn put_all(&mut self, rows: Vec<Row>) -> Result<(), KeeperFault> {
        for row in rows {
            self.put(row)?;
        }
        Ok(())
    }

    /// How many of the targets of rows are found.
    fn find_all(&mut self, rows: &[Row]) -> Result<u32, KeeperFault> {
        let mut found = 0u32;
        for row in rows {
            if self.has(&row.target)? {
                found = found.saturating_add(1);
            }
        }
        Ok(found)
    }
}

/// The row of the class of a number, with digests of this byte.
fn row_of(alloc: Global, number: u32, byte: u8) -> Result<Row, Memory> {
    let path = format!(in alloc;
        "WEB-INF/classes/org/shop/orders/part{:08}/ServiceBean{number:010}.class",
        number / 50
    )?;
    Ok(Row {
        target: Text::from_bytes(alloc, path.as_bytes())?,
        source: Text::from_bytes(alloc, path.as_bytes())?,
        digest: Digest([byte; 32]),
        output: Some(Digest([byte; 32])),
    })
}

/// So many rows.
fn rows_of(alloc: Global, count: u32, byte: u8) -> Result<Vec<Row>, Memory> {
    let mut rows = Vec::new(alloc);
    for number in 0..count {
        rows.push(row_of(alloc, number, byte)?)?;
    }
    Ok(rows)
}

/// Puts rows, and tells the microseconds.
fn time_puts<K: Keeper + Drop>(
    rt: &HostRuntime,
    ledger: &mut Attached<K>,
    rows: Vec<Row>,
) -> io::Result<()> {
    let start = Instant::now(rt)?;
    let done = ledger.put_all(rows);
    eprintln!(rt; "{}", start.elapsed(rt)?.as_micros())?;
    done.map_err(|_| undone())
}

/// Finds the targets of rows, and tells the microseconds.
fn time_finds<K: Keeper + Drop>(
    rt: &HostRuntime,
    ledger: &mut Attached<K>,
    rows: &[Row],
) -> io::Result<()> {
    let start = Instant::now(rt)?;
    let found = ledger.find_all(rows);
    eprintln!(rt; "{}", start.elapsed(rt)?.as_micros())?;
    match found {
        Ok(found) => println!(rt; "{found}"),
        Err(_) => Err(undone()),
    }
}

/// Puts so many rows, finds them, and puts them again.
fn measure<K: Keeper + Drop>(rt: &HostRuntime, keeper: Box<K>, count: u32) -> io::Result<()> {
    let alloc = rt.alloc();
    let mut ledger = Attached::of(alloc, keeper).map_err(|_| undone())?;
    let rows = rows_of(alloc, count, 1).map_err(|_| undone())?;
    let others = rows_of(alloc, count, 2).map_err(|_| undone())?;
    time_puts(rt, &mut ledger, rows)?;
    time_finds(rt, &mut ledger, &others)?;
    time_puts(rt, &mut ledger, others)
}

/// An empty ledger in memory.
fn empty_ledger(alloc: Global) -> Option<Box<MemoryKeeper>> {
    let keeper = MemoryKeeper::new(alloc, Vec::new(alloc)).ok()?;
    Box::new(alloc, keeper).ok()
}

/// Times so many rows of the ledger that a word names.
pub fn run(rt: &HostRuntime, words: &[String]) -> io::Result<()> {
    let [kind, count] = words else {
        return Err(bad_words());
    };
    let alloc = rt.alloc();
    let count = count.as_str().parse::<u32>().unwrap_or(0);
    match kind.as_str() {
        "memory" => match empty_ledger(alloc) {
            Some(keeper) => measure(rt, keeper, count),
            None => Err(undone()),
        },
        "sql" => measure(rt, Box::new(alloc, SqlKeeper::in_memory(alloc))?, count),
        _ => Err(bad_words()),
    }
}

//! A ledger that is open.

ghost use Rattle.std.specs.Prelude.{◌≡◌, ◌≢◌, ◌↔◌, ◌⊎◌, ◌<◌, length, None, Some, Ok, Err, IfOk, IfSome, IsTrue, OnOk, OnErr, option_map};
ghost use Rattle.std.specs.FinMap as fin;
ghost use Rattle.desk_ledger.specs.Ledger.{row_at, with_header, without_row};
ghost use Rattle.desk_sqlite.specs.OverFile.{all_written, nothing, with_put, with_room};
ghost use Rattle.desk_sqlite.specs.WorkingFolder.{has_relative_root, is_relative};

use crate::formats::Format;
use crate::tables::{
    Pending, find_tables, pending_of, read_contents, read_folder, settle, write_folder,
    write_header, write_rows, write_then_remove,
};
use crate::waiting::UnwrittenRows;
use desk_base::{Memory, Text};
use desk_database::{Database, Log, file_path, has_room_beside};
use desk_faults::{Cause, Fault, Refusal, Tried, refusal_of};
use desk_ledger::{Contents, Header, Row};
use desk_long_names::{Shortened, is_long, may_be_database, real_path, short_path};
use std::alloc::Global;
use std::marker::Model;
use std::{env, str};

/// A ledger that is open: its name, its file, what it holds, and those of its rows that wait to be written.
/// Contracts see all but the file.
#[derive(Drop)]
pub(crate) struct Opened {
    alloc: Global,
    name: Text,
    database: Database,
    pending: Option<Pending>,
    log: Log,
    contents: Contents,
    waiting: UnwrittenRows,
}

impl Model for Opened {
    ghost use Rattle.desk_sqlite.specs.OverFile.{OpenLedger, open_code};

    ghost Value = { OpenLedger };

    ghost coded = { open_code };

    ghost view = { λ o. record { name = o.name; ledger = o.contents; waiting = o.waiting } };
}

/// A ledger as its file has it: what the tables hold, and what is still to be done to the file before it is written.
#[derive(Drop)]
struct Found {
    contents: Contents,
    pending: Option<Pending>,
}

/// The ledger that the tables of a database hold, which are made where it holds nothing. Nothing else is written: it may be
/// another run's.
fn found_in(rt: &HostRuntime, database: &mut Database) -> Result<Found, Refusal> {
    let format = find_tables(database)?;
    let contents = read_contents(rt.alloc(), database, format)?;
    let folder = folder_to_note(rt, database, format, &contents)?;
    Ok(Found {
        contents,
        pending: pending_of(format, folder),
    })
}

/// A ledger's file: the database, the ledger in it, and its log.
#[derive(Drop)]
struct Ledger {
    database: Database,
    found: Found,
    log: Log,
}

/// The ledger of a database that is open. A database with other tables is left as it was.
fn ledger_in(rt: &HostRuntime, mut database: Database, log: Log) -> Result<Ledger, Refusal> {
    match found_in(rt, &mut database) {
        Ok(found) => Ok(Ledger {
            database,
            found,
            log,
        }),
        Err(refusal) => {
            let _ = log.remove_new(rt);
            Err(refusal)
        }
    }
}

/// The ledger at a path whose name leaves room for others beside it. A file that is none is left as it was.
fn ledger_at(rt: &HostRuntime, path: &str) -> Result<Ledger, Refusal> {
    let log = Log::beside(rt, path)?;
    may_be_database(rt, path, log.was_there())?;
    has_room_beside(rt, path)?;
    let database = Database::open(rt, path, &log)?;
    ledger_in(rt, database, log)
}

/// Opens the database of a file that has its short name, and gives the file its own name back at once, also where it can't
/// be opened.
fn shortened_database(rt: &HostRuntime, file: &Shortened, log: &Log) -> Result<Database, Refusal> {
    let opened = Database::open(rt, file.short_path(), log);
    let named = file.lengthen(rt);
    let database = opened?;
    named?;
    Ok(database)
}

/// The ledger at a path whose name leaves no room for others beside it, and in which no link stands: its file has a short
/// name while it is opened.
fn shortened_ledger_at(rt: &HostRuntime, path: String) -> Result<Ledger, Refusal> {
    let short = short_path(rt.alloc(), path.as_str())?;
    let log = Log::beside(rt, short.as_str())?;
    let file = Shortened::at(rt, path, short, log.was_there())?;
    let database = shortened_database(rt, &file, &log)?;
    let ledger = ledger_in(rt, database, log)?;
    file.settle(rt)?;
    Ok(ledger)
}

/// The ledger at a path whose name leaves no room for others beside it. A link may lead to one that does.
fn long_ledger_at(rt: &HostRuntime, path: &str) -> Result<Ledger, Refusal> {
    let real = real_path(rt, path)?;
    if is_long(real.as_str()) {
        shortened_ledger_at(rt, real)
    } else {
        ledger_at(rt, real.as_str())
    }
}

/// The ledger of a name.
fn ledger_of(rt: &HostRuntime, name: &Text) -> Result<Ledger, Refusal> {
    let Ok(name) = str::from_utf8(name.as_bytes()) else {
        return Err(Refusal::Failed(Cause::NotText));
    };
    let path = file_path(rt, name)?;
    if is_long(path.as_str()) {
        long_ledger_at(rt, path.as_str())
    } else {
        ledger_at(rt, path.as_str())
    }
}

/// Whether a root is relative.
fn is_relative(root: &Text) -> bool
    ensures { result ≡ is_relative root.now }
{
    !root.as_bytes().starts_with(b"/")
}

/// Whether a header has a relative root.
fn has_relative_root(header: &Header) -> bool
    ensures { result ≡ has_relative_root header.now }
{
    is_relative(&header.from) || is_relative(&header.to)
}

/// The path of the folder that the program runs in, which relative roots are relative to.
fn working_folder(rt: &HostRuntime) -> Result<Text, Refusal> {
    match env::current_dir(rt) {
        Ok(folder) => Ok(Text::from_bytes(rt.alloc(), folder.as_str().as_bytes())?),
        Err(error) => Err(refusal_of(error)),
    }
}

/// The working folder where it is to be noted, since none is. A ledger of another one is refused.
fn unnoted(noted: Option<Text>, folder: Text) -> Result<Option<Text>, Refusal>
    ensures same { noted ≡ Some folder → result ≡ Ok None }
    ensures other { IfSome noted (λ path. path ≢ folder → result ≡ Err (Refusal.Failed Cause.Elsewhere)) }
    ensures none { noted ≡ None → result ≡ Ok (Some folder) }
{
    match noted {
        Some(noted) if noted == folder => Ok(None),
        Some(_) => Err(Refusal::Failed(Cause::Elsewhere)),
        None => Ok(Some(folder)),
    }
}

/// The working folder where it is to be noted: a ledger whose header has a relative root belongs to one, and is refused
/// in another.
fn folder_to_note(
    rt: &HostRuntime,
    database: &mut Database,
    format: Format,
    contents: &Contents,
) -> Result<Option<Text>, Refusal> {
    match contents.header()? {
        Some(header) if has_relative_root(&header) => {
            let noted = read_folder(rt.alloc(), database, format)?;
            unnoted(noted, working_folder(rt)?)
        }
        _ => Ok(None),
    }
}

impl Opened {
    /// Opens the ledger of a name, and makes it where there is no file.
    pub(crate) fn at(rt: &HostRuntime, name: &Text) -> Result<Opened, Refusal>
        ensures name { IfOk result (λ opened. opened.name ≡ name.now) }
        ensures waiting { IfOk result (λ opened. opened.waiting ≡ nothing) }
    {
        let alloc = rt.alloc();
        let Ledger {
            database,
            found,
            log,
        } = ledger_of(rt, name)?;
        let name = name.clone()?;
        Ok(Opened {
            alloc,
            name,
            database,
            pending: found.pending,
            log,
            contents: found.contents,
            waiting: UnwrittenRows::new(alloc),
        })
    }

    /// Removes the log beside the file where it is new and holds no page. The file is still locked.
    pub(crate) fn remove_new_log(&self, rt: &HostRuntime) {
        let _ = self.log.remove_new(rt);
    }

    /// The fault of a cause at this ledger.
    pub(crate) fn fault(&self, tried: Tried, cause: Cause) -> Result<Fault, Memory> {
        Fault::of(self.alloc, tried, &self.name, cause)
    }

    /// Whether this is its name.
    pub(crate) fn is_named(&self, name: &Text) -> bool
        ensures { IsTrue result ↔ (self.now.name ≡ name.now) }
    {
        self.name == *name
    }

    /// A copy of the header.
    pub(crate) fn header(&self) -> Result<Option<Header>, Memory>
        ensures { IfOk result (λ header. header ≡ self.now.ledger.header) }
    {
        self.contents.header()
    }

    /// A copy of the row of a target.
    pub(crate) fn find(&self, target: &Text) -> Result<Option<Row>, Memory>
        ensures { IfOk result (λ row. row ≡ option_map (row_at target.now) (fin.get self.now.ledger.rows target.now)) }
    {
        self.contents.find(target)
    }

    /// Does what is still to be done to the file before it is written. This is left to the first change, by which the ledger
    /// is known to be this run's.
    fn settle(&mut self) -> Result<(), Refusal>
        ensures { self.new ≡ self.old }
    {
        if let Some(pending) = &self.pending {
            settle(&mut self.database, pending)?;
            self.pending = None;
        }
        Ok(())
    }

    /// Writes the rows that wait.
    pub(crate) fn write_waiting(&mut self) -> Result<(), Refusal>
        ensures ok { OnOk result (self.new ≡ all_written self.old) }
        ensures err { OnErr result (self.new ≡ self.old) }
    {
        write_rows(&mut self.database, self.alloc, &self.waiting)?;
        self.waiting.clear();
        Ok(())
    }

    /// Writes the rows that wait to a file to which nothing else is to be done any more, also where none waits.
    pub(crate) fn commit(&mut self) -> Result<(), Refusal>
        ensures ok { OnOk result (self.new ≡ all_written self.old) }
        ensures err { OnErr result (self.new ≡ self.old) }
    {
        self.settle()?;
        self.write_waiting()
    }

    /// Makes this the header, in the file first, with the working folder where a root is relative.
    pub(crate) fn set_header(&mut self, rt: &HostRuntime, header: &Header) -> Result<(), Refusal>
        ensures ok { OnOk result (self.new ≡ record self.old { ledger = with_header header.now self.old.ledger }) }
        ensures err { OnErr result (self.new ≡ self.old) }
    {
        let copy = header.clone()?;
        self.settle()?;
        if has_relative_root(header) {
            write_folder(&mut self.database, &working_folder(rt)?)?;
        }
        write_header(&mut self.database, header)?;
        self.contents.set_header(copy);
        Ok(())
    }

    /// Takes a row, and lets a copy of it wait.
    fn take(&mut self, row: Row) -> Result<(), Memory>
        requires { length self.old.waiting.rows < 1024 }
        ensures ok { OnOk result (self.new ≡ with_put row self.old) }
        ensures err { OnErr result (self.new ≡ self.old) }
    {
        let waits = row.clone()?;
        self.waiting.push(waits)?;
        match self.contents.put(row) {
            Ok(earlier) => {
                self.waiting.note(earlier.is_some());
                Ok(())
            }
            Err(Memory) => {
                self.waiting.take_back();
                Err(Memory)
            }
        }
    }

    /// Writes the rows that wait where no other may.
    fn make_room(&mut self) -> Result<(), Refusal>
        ensures ok { OnOk result (self.new ≡ with_room self.old) }
        ensures room { OnOk result (length self.new.waiting.rows < 1024) }
        ensures err { OnErr result (self.new ≡ self.old) }
    {
        if self.waiting.is_full() {
            self.write_waiting()?;
        }
        Ok(())
    }

    /// Takes a row in place of its target's, and lets it wait. The rows that waited before are written
    /// where they are 1,024.
    pub(crate) fn put(&mut self, row: Row) -> Result<(), Refusal>
        ensures ok { OnOk result (self.new ≡ with_put row (with_room self.old)) }
        ensures err { OnErr result ((self.new ≡ self.old) ⊎ (self.new ≡ with_room self.old)) }
    {
        self.settle()?;
        self.make_room()?;
        self.take(row)?;
        Ok(())
    }

    /// Writes the rows that wait, and removes the row of a target.
    pub(crate) fn forget(&mut self, target: &Text) -> Result<(), Refusal>
        ensures ok { OnOk result (self.new ≡ record self.old { ledger = without_row target.now self.old.ledger; waiting = nothing }) }
        ensures err { OnErr result (self.new ≡ self.old) }
    {
        self.settle()?;
        write_then_remove(&mut self.database, self.alloc, &self.waiting, target)?;
        self.waiting.clear();
        self.contents.forget(target);
        Ok(())
    }
}

//! The tables of a ledger's file: one holds the header, one the rows by their targets, and one notes the working folder of
//! relative roots. In format 1 the rows have no outputs; a ledger of that format is read as it is, and taken over before
//! anything is written to it.

ghost use Rattle.std.specs.Prelude.{◌≡◌, ◌≤◌, length, string_bytes, None, IfOk, IfSome, IsOk, OnOk};
ghost use Rattle.sqlite.specs.Values.{bound};
ghost use Rattle.desk_ledger.specs.Ledger.{with_row};
ghost use Rattle.desk_ledger_tables.specs.Rows.{shown_row};
ghost use Rattle.desk_sqlite.specs.Found.{header_in, ledger_in, with_shown_rows};
ghost use Rattle.desk_sqlite.specs.Statements.{insertion, values_in, verb};

use crate::formats::{FOLDER, Format, format_of};
use crate::waiting::UnwrittenRows;
use desk_base::Text;
use desk_database::Database;
use desk_faults::{Cause, Refusal};
use desk_ledger::{Contents, Header, Row};
use desk_ledger_tables::{Statement, Unread, header_values, read_header, read_row, row_values};
use sqlite::types::ValueRef;
use sqlite::{Row as TableRow, params};
use std::alloc::{AllocError, Global};

fn make_all(database: &mut Database) -> Result<(), Refusal>
    ensures { OnOk result (database.new ≡ database.old) }
{
    database.run(Statement::MakeHeaders.text(), &[])?;
    database.run(Statement::MakeRows.text(), &[])?;
    database.run(FOLDER, &[])
}

/// Makes all tables or none.
fn make(database: &mut Database) -> Result<(), Refusal>
    ensures { OnOk result (database.new ≡ database.old) }
{
    database.run("BEGIN", &[])?;
    let made = make_all(database);
    database.end(made)
}

/// The format of the tables that a database has. They are made in one that holds nothing; one that holds any other tables
/// is refused.
pub(crate) fn find_tables(database: &mut Database) -> Result<Format, Refusal>
    ensures { OnOk result (database.new ≡ database.old) }
{
    let found = database.query(
        "SELECT sql FROM sqlite_schema WHERE sql IS NOT NULL ORDER BY name",
    )?;
    if found.is_empty() {
        make(database)?;
        return Ok(Format::Present);
    }
    let (headers, rows) = (Statement::MakeHeaders.text(), Statement::MakeRows.text());
    format_of(found.as_slice(), headers, rows).ok_or(Refusal::Failed(Cause::Tables))
}

/// Makes the table of the rows from the one of format 1: each row without an output.
fn move_rows(database: &mut Database) -> Result<(), Refusal>
    ensures { OnOk result (database.new ≡ database.old) }
{
    database.run(Statement::MakeRows.text(), &[])?;
    database.run(
        "INSERT INTO rows2 SELECT target, source, digest, NULL FROM written",
        &[],
    )?;
    database.run("DROP TABLE written", &[])
}

/// Makes the table of the working folder too, which the first ledgers lack.
fn move_rows_and_make_folder(database: &mut Database) -> Result<(), Refusal>
    ensures { OnOk result (database.new ≡ database.old) }
{
    move_rows(database)?;
    database.run(FOLDER, &[])
}

/// Makes tables of any format those of the present one.
fn take_over(database: &mut Database, format: Format) -> Result<(), Refusal>
    ensures { OnOk result (database.new ≡ database.old) }
{
    match format {
        Format::Present => Ok(()),
        Format::OneWithFolder => move_rows(database),
        Format::One => move_rows_and_make_folder(database),
    }
}

/// What is still to be done to a ledger's file before anything else is written to it: its tables are to be those of the
/// present format, and the working folder is to be noted where it isn't.
#[derive(Drop)]
pub(crate) struct Pending {
    /// The format of the tables.
    pub(crate) format: Format,
    /// The working folder that is to be noted, if it is.
    pub(crate) folder: Option<Text>,
}

/// What is still to be done to a file of a format, in which this folder is to be noted, if there is anything to do.
pub(crate) fn pending_of(format: Format, folder: Option<Text>) -> Option<Pending>
    ensures nothing { result ≡ None → (format ≡ Format.Present) × (folder ≡ None) }
    ensures is { IfSome result (λ pending. (pending.format ≡ format) × (pending.folder ≡ folder)) }
{
    match (format, folder) {
        (Format::Present, None) => None,
        (format, folder) => Some(Pending { format, folder }),
    }
}

fn take_over_and_note(database: &mut Database, pending: &Pending) -> Result<(), Refusal>
    ensures { OnOk result (database.new ≡ database.old) }
{
    take_over(database, pending.format)?;
    match &pending.folder {
        Some(folder) => write_folder(database, folder),
        None => Ok(()),
    }
}

/// Does what is still to be done to a ledger's file: all of it or nothing.
pub(crate) fn settle(database: &mut Database, pending: &Pending) -> Result<(), Refusal>
    ensures { OnOk result (database.new ≡ database.old) }
{
    database.run("BEGIN", &[])?;
    let done = take_over_and_note(database, pending);
    database.end(done)
}

/// The bytes that a row has in a column.
fn bytes_at(found: &TableRow, column: usize) -> Result<&[u8], Refusal> {
    match found.get_ref(column) {
        Ok(ValueRef::Blob(bytes)) => Ok(bytes),
        _ => Err(Refusal::Failed(Cause::Unsound)),
    }
}

fn text_at(alloc: Global, found: &TableRow, column: usize) -> Result<Text, Refusal> {
    Ok(Text::from_bytes(alloc, bytes_at(found, column)?)?)
}

/// What it means that a header or a row isn't read.
fn unread(why: Unread) -> Refusal {
    match why {
        Unread::Unsound => Refusal::Failed(Cause::Unsound),
        Unread::Memory => Refusal::Memory,
    }
}

/// The header that was found, if there is one.
fn header_in(alloc: Global, found: &[TableRow]) -> Result<Option<Header>, Refusal>
    ensures header { IfOk result (λ header. header ≡ header_in found.now) }
    ensures one { IsOk result → length found.now ≤ 1 }
{
    match found {
        [] => Ok(None),
        [one] => match read_header(alloc, one) {
            Ok(header) => Ok(Some(header)),
            Err(why) => Err(unread(why)),
        },
        _ => Err(Refusal::Failed(Cause::Unsound)),
    }
}

/// Takes a row that was found.
fn take_row(alloc: Global, found: &TableRow, contents: &mut Contents) -> Result<(), Refusal>
    ensures { OnOk result (contents.new ≡ with_row (shown_row found.now) contents.old) }
{
    let row = read_row(alloc, found).map_err(unread)?;
    contents.put(row)?;
    Ok(())
}

/// Takes each row that was found.
fn take_rows(alloc: Global, found: &[TableRow], contents: &mut Contents) -> Result<(), Refusal>
    ensures { OnOk result (contents.new ≡ with_shown_rows found.now contents.old) }
{
    for row in found {
        take_row(alloc, row, contents)?;
    }
    Ok(())
}

/// The ledger of a header and of rows that were found.
fn ledger_in(alloc: Global, headers: &[TableRow], rows: &[TableRow]) -> Result<Contents, Refusal>
    ensures { IfOk result (λ contents. contents ≡ ledger_in headers.now rows.now) }
{
    let mut contents = Contents::new(alloc);
    if let Some(header) = header_in(alloc, headers)? {
        contents.set_header(header);
    }
    take_rows(alloc, rows, &mut contents)?;
    Ok(contents)
}

/// The query for all rows in tables of a format: those of format 1 have no outputs.
fn query_of_rows(format: Format) -> &'static str {
    match format {
        Format::Present => Statement::FindRows.text(),
        Format::OneWithFolder | Format::One => "SELECT target, source, digest, NULL FROM written",
    }
}

/// All that tables of a format hold.
pub(crate) fn read_contents(
    alloc: Global,
    database: &mut Database,
    format: Format,
) -> Result<Contents, Refusal>
    ensures { OnOk result (database.new ≡ database.old) }
{
    let headers = database.query(Statement::FindHeader.text())?;
    let rows = database.query(query_of_rows(format))?;
    ledger_in(alloc, headers.as_slice(), rows.as_slice())
}

/// The working folder that tables of a format note, if they note one. The first ledgers have no table for it.
pub(crate) fn read_folder(
    alloc: Global,
    database: &mut Database,
    format: Format,
) -> Result<Option<Text>, Refusal>
    ensures { OnOk result (database.new ≡ database.old) }
{
    if matches!(format, Format::One) {
        return Ok(None);
    }
    let found = database.query("SELECT path FROM folder")?;
    match found.as_slice() {
        [] => Ok(None),
        [one] => Ok(Some(text_at(alloc, one, 0)?)),
        _ => Err(Refusal::Failed(Cause::Unsound)),
    }
}

/// Notes a working folder.
pub(crate) fn write_folder(database: &mut Database, path: &Text) -> Result<(), Refusal>
    ensures { OnOk result (database.new ≡ database.old) }
{
    database.run(
        "INSERT OR REPLACE INTO folder VALUES (1, ?1)",
        params![path.as_bytes()],
    )
}

/// Makes this the header.
pub(crate) fn write_header(database: &mut Database, header: &Header) -> Result<(), Refusal>
    ensures { OnOk result (database.new ≡ database.old) }
{
    database.run(Statement::SetHeader.text(), &header_values(header))
}

/// What a statement does with a row whose target has one already.
#[derive(Clone, Copy)]
pub(crate) enum OnConflict {
    /// It fails, and writes no row.
    Abort,
    /// It puts the new row in place of the old one.
    Replace,
}

impl OnConflict {
    /// How the statement begins.
    fn verb(self) -> &'static str
        ensures { result.now ≡ verb self }
    {
        match self {
            OnConflict::Abort => "INSERT",
            OnConflict::Replace => "INSERT OR REPLACE",
        }
    }
}

/// The statement that writes so many rows.
fn insertion_of(alloc: Global, rows: usize, on_conflict: OnConflict) -> Result<String, AllocError>
    ensures { IfOk result (λ text. string_bytes text ≡ insertion on_conflict rows) }
{
    let mut text = String::new(alloc);
    text.push_str(on_conflict.verb())?;
    text.push_str(" INTO rows2 VALUES (?, ?, ?, ?)")?;
    for _further in 0..rows.saturating_sub(1) {
        text.push_str(", (?, ?, ?, ?)")?;
    }
    Ok(text)
}

/// The values of rows, one behind the other.
fn values_of(alloc: Global, rows: &[Row]) -> Result<Vec<ValueRef<'_>>, AllocError>
    ensures { IfOk result (λ values. bound values.items ≡ values_in rows.now) }
{
    let mut values = Vec::new(alloc);
    for row in rows {
        values.extend_from_slice(&row_values(row))?;
    }
    Ok(values)
}

/// Writes the rows that wait in their order by one statement, which is one transaction and much faster than
/// one for each: all of them or none.
pub(crate) fn write_rows(
    database: &mut Database,
    alloc: Global,
    waiting: &UnwrittenRows,
) -> Result<(), Refusal>
    ensures { OnOk result (database.new ≡ database.old) }
{
    let rows = waiting.rows();
    if rows.is_empty() {
        return Ok(());
    }
    // Looking for the rows that are replaced takes longer, so it is asked for only where there are some.
    let on_conflict = if waiting.replaces() {
        OnConflict::Replace
    } else {
        OnConflict::Abort
    };
    let statement = insertion_of(alloc, rows.len(), on_conflict)?;
    let values = values_of(alloc, rows)?;
    database.run(statement.as_str(), values.as_slice())
}

fn remove(database: &mut Database, target: &Text) -> Result<(), Refusal>
    ensures { OnOk result (database.new ≡ database.old) }
{
    database.run(Statement::ForgetRow.text(), params![target.as_bytes()])
}

fn write_and_remove(
    database: &mut Database,
    alloc: Global,
    waiting: &UnwrittenRows,
    target: &Text,
) -> Result<(), Refusal>
    ensures { OnOk result (database.new ≡ database.old) }
{
    write_rows(database, alloc, waiting)?;
    remove(database, target)
}

/// Writes the rows that wait, and then removes the row of a target: all of it or nothing.
pub(crate) fn write_then_remove(
    database: &mut Database,
    alloc: Global,
    waiting: &UnwrittenRows,
    target: &Text,
) -> Result<(), Refusal>
    ensures { OnOk result (database.new ≡ database.old) }
{
    database.run("BEGIN", &[])?;
    let written = write_and_remove(database, alloc, waiting, target);
    database.end(written)
}

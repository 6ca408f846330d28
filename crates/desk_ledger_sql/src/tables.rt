//! The tables of a ledger in memory. Each function runs one statement at most, or reads what one found, since a proof that
//! carries the clauses of many takes long.

ghost use Rattle.std.specs.Prelude.{◌≡◌, ◌≢◌, [], IfOk, OnOk, OnErr, option_map};
ghost use Rattle.std.specs.FinMap as fin;
ghost use Rattle.desk_ledger.specs.Ledger.{row_at, with_header, with_row, without_row};
ghost use Rattle.desk_ledger_tables.specs.Rows.{shown_header, shown_row};
ghost use Rattle.desk_ledger_tables.specs.Tables.{no_schema, header_schema};
ghost use Rattle.desk_ledger_sql.specs.Told.{IsAt, IsLedger, Shows, connected, told, no_ledger};

use desk_base::Text;
use desk_ledger::{Header, KeeperFault, Row};
use desk_ledger_tables::{Statement, Unread, header_values, read_header, read_row, row_values};
use sqlite::types::ValueRef;
use sqlite::{Connection, Error, ErrorCode, MemStore, Row as Found};
use std::alloc::Global;

/// What an error of a statement means: want of memory is told apart from all others.
fn fault_of(error: Error) -> KeeperFault
    ensures failed { error ≢ Error.SqliteFailure ErrorCode.OutOfMemory → result ≡ KeeperFault.Failed }
    ensures memory { error ≡ Error.SqliteFailure ErrorCode.OutOfMemory → result ≡ KeeperFault.Memory }
{
    match error {
        Error::SqliteFailure(ErrorCode::OutOfMemory) => KeeperFault::Memory,
        _ => KeeperFault::Failed,
    }
}

/// What it means that a row isn't read.
fn unread(why: Unread) -> KeeperFault
    ensures failed { why ≡ Unread.Unsound → result ≡ KeeperFault.Failed }
    ensures memory { why ≡ Unread.Memory → result ≡ KeeperFault.Memory }
{
    match why {
        Unread::Unsound => KeeperFault::Failed,
        Unread::Memory => KeeperFault::Memory,
    }
}

/// Makes the table of the header.
fn make_headers(conn: &mut Connection<MemStore>) -> Result<(), KeeperFault>
    requires { IsAt no_schema (connected conn.old) }
    ensures at { OnOk result (IsAt header_schema (connected conn.new)) }
    ensures empty { OnOk result ((connected conn.new).now.trees 0 ≡ []) }
{
    match conn.execute(Statement::MakeHeaders.text(), &[]) {
        Ok(_) => Ok(()),
        Err(error) => Err(fault_of(error)),
    }
}

/// Makes the table of the rows.
fn make_rows(conn: &mut Connection<MemStore>) -> Result<(), KeeperFault>
    requires at { IsAt header_schema (connected conn.old) }
    requires empty { (connected conn.old).now.trees 0 ≡ [] }
    ensures ledger { OnOk result (IsLedger (connected conn.new)) }
    ensures told { OnOk result (told conn.new ≡ no_ledger) }
{
    match conn.execute(Statement::MakeRows.text(), &[]) {
        Ok(_) => Ok(()),
        Err(error) => Err(fault_of(error)),
    }
}

/// An empty ledger in memory.
pub(crate) fn open(alloc: Global) -> Result<Connection<MemStore>, KeeperFault>
    ensures ledger { IfOk result (λ conn. IsLedger (connected conn)) }
    ensures told { IfOk result (λ conn. told conn ≡ no_ledger) }
{
    let mut conn = Connection::open_in_memory(alloc)?;
    make_headers(&mut conn)?;
    make_rows(&mut conn)?;
    Ok(conn)
}

/// Makes this the header.
pub(crate) fn set_header(
    conn: &mut Connection<MemStore>,
    header: &Header,
) -> Result<(), KeeperFault>
    requires { IsLedger (connected conn.old) }
    ensures ledger { IsLedger (connected conn.new) }
    ensures ok { OnOk result (told conn.new ≡ with_header header.now (told conn.old)) }
    ensures err { OnErr result (told conn.new ≡ told conn.old) }
{
    match conn.execute(Statement::SetHeader.text(), &header_values(header)) {
        Ok(_) => Ok(()),
        Err(error) => Err(fault_of(error)),
    }
}

/// Puts a row in place of its target's.
pub(crate) fn put(conn: &mut Connection<MemStore>, row: &Row) -> Result<(), KeeperFault>
    requires { IsLedger (connected conn.old) }
    ensures ledger { IsLedger (connected conn.new) }
    ensures ok { OnOk result (told conn.new ≡ with_row row.now (told conn.old)) }
    ensures err { OnErr result (told conn.new ≡ told conn.old) }
{
    match conn.execute(Statement::PutRow.text(), &row_values(row)) {
        Ok(_) => Ok(()),
        Err(error) => Err(fault_of(error)),
    }
}

/// Removes the row of a target, if there is one.
pub(crate) fn forget(conn: &mut Connection<MemStore>, target: &Text) -> Result<(), KeeperFault>
    requires { IsLedger (connected conn.old) }
    ensures ledger { IsLedger (connected conn.new) }
    ensures ok { OnOk result (told conn.new ≡ without_row target.now (told conn.old)) }
    ensures err { OnErr result (told conn.new ≡ told conn.old) }
{
    match conn.execute(
        Statement::ForgetRow.text(),
        &[ValueRef::Blob(target.as_bytes())],
    ) {
        Ok(_) => Ok(()),
        Err(error) => Err(fault_of(error)),
    }
}

/// All that the query on a target shows.
fn found_at(conn: &mut Connection<MemStore>, target: &Text) -> Result<Vec<Found>, KeeperFault>
    requires { IsLedger (connected conn.old) }
    ensures ledger { IsLedger (connected conn.new) }
    ensures told { told conn.new ≡ told conn.old }
    ensures shows { IfOk result (λ found. Shows shown_row (option_map (row_at target.now) (fin.get (told conn.old).rows target.now)) found.items) }
{
    match conn.query_all(
        Statement::FindRow.text(),
        &[ValueRef::Blob(target.as_bytes())],
    ) {
        Ok(found) => Ok(found),
        Err(error) => Err(fault_of(error)),
    }
}

/// All that the query on the header shows.
fn found_header(conn: &mut Connection<MemStore>) -> Result<Vec<Found>, KeeperFault>
    requires { IsLedger (connected conn.old) }
    ensures ledger { IsLedger (connected conn.new) }
    ensures told { told conn.new ≡ told conn.old }
    ensures shows { IfOk result (λ found. Shows shown_header (told conn.old).header found.items) }
{
    match conn.query_all(Statement::FindHeader.text(), &[]) {
        Ok(found) => Ok(found),
        Err(error) => Err(fault_of(error)),
    }
}

/// The row of a target, if there is one.
pub(crate) fn find(
    conn: &mut Connection<MemStore>,
    alloc: Global,
    target: &Text,
) -> Result<Option<Row>, KeeperFault>
    requires { IsLedger (connected conn.old) }
    ensures ledger { IsLedger (connected conn.new) }
    ensures told { told conn.new ≡ told conn.old }
    ensures found { IfOk result (λ row. row ≡ option_map (row_at target.now) (fin.get (told conn.old).rows target.now)) }
{
    let found = found_at(conn, target)?;
    match found.as_slice() {
        [] => Ok(None),
        [one] => match read_row(alloc, one) {
            Ok(row) => Ok(Some(row)),
            Err(why) => Err(unread(why)),
        },
        _ => Err(KeeperFault::Failed),
    }
}

/// The header, if there is one.
pub(crate) fn header(
    conn: &mut Connection<MemStore>,
    alloc: Global,
) -> Result<Option<Header>, KeeperFault>
    requires { IsLedger (connected conn.old) }
    ensures ledger { IsLedger (connected conn.new) }
    ensures told { told conn.new ≡ told conn.old }
    ensures found { IfOk result (λ header. header ≡ (told conn.old).header) }
{
    let found = found_header(conn)?;
    match found.as_slice() {
        [] => Ok(None),
        [one] => match read_header(alloc, one) {
            Ok(header) => Ok(Some(header)),
            Err(why) => Err(unread(why)),
        },
        _ => Err(KeeperFault::Failed),
    }
}

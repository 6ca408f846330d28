//! The rows of a ledger as values of SQL, and back.

ghost use Rattle.std.specs.Prelude.{◌≡◌, true, false, Err, IfOk, IsOk};
ghost use Rattle.sqlite.specs.Value.{owned};
ghost use Rattle.sqlite.specs.Values.{bound, bound_value};
ghost use Rattle.sqlite.specs.Order.{bytes, column};
ghost use Rattle.desk_ledger_tables.specs.Rows.{digest_in, header_values, is_bytes, is_digest, is_header, is_output, is_row, output_in, output_value, row_values, shown_header, shown_row};

use desk_base::{Memory, Text};
use desk_ledger::{Digest, Header, Row};
use sqlite::Row as Found;
use sqlite::types::ValueRef;
use std::alloc::Global;

/// Why what a query shows isn't read as a header or a row.
#[derive(Clone, Copy, Debug, PartialEq, Eq)]
pub enum Unread {
    /// A column holds a value of another kind, or a digest of another length than 32 bytes.
    Unsound,
    /// Memory ran out.
    Memory,
}

impl From<Memory> for Unread {
    ghost use Rattle.std.specs.Prelude.{◌≡◌};
    ghost use Rattle.desk_ledger_tables.specs.declared.rows.Unread.TheVariants as unread;

    ghost from_gives = { λ _ it. it ≡ unread.Memory };

    fn from(_: Memory) -> Unread {
        Unread::Memory
    }
}

/// The value of a row's output: none where it has none.
fn output_value(row: &Row) -> ValueRef<'_>
    ensures { bound_value (owned result) ≡ output_value row.now.output }
{
    match &row.output {
        Some(digest) => ValueRef::Blob(digest.0.as_slice()),
        None => ValueRef::Null,
    }
}

/// The values of a row: its target, its source, its digest and its output, which is `NULL` where it has none.
pub fn row_values(row: &Row) -> [ValueRef<'_>; 4]
    ensures { bound result ≡ row_values row.now }
{
    [
        ValueRef::Blob(row.target.as_bytes()),
        ValueRef::Blob(row.source.as_bytes()),
        ValueRef::Blob(row.digest.0.as_slice()),
        output_value(row),
    ]
}

/// The values of a header: the root of the source, that of the target, and the digest of the rules.
pub fn header_values(header: &Header) -> [ValueRef<'_>; 3]
    ensures { bound result ≡ header_values header.now }
{
    [
        ValueRef::Blob(header.from.as_bytes()),
        ValueRef::Blob(header.to.as_bytes()),
        ValueRef::Blob(header.rules.0.as_slice()),
    ]
}

/// The bytes in a column.
fn bytes_at(found: &Found, place: usize) -> Result<&[u8], Unread>
    ensures is { IfOk result (λ b. b.now ≡ bytes (column found.now place)) }
    ensures ok { IsOk result → is_bytes (column found.now place) ≡ true }
    ensures unsound { result ≡ Err Unread.Unsound → is_bytes (column found.now place) ≡ false }
{
    match found.get_ref(place) {
        Ok(ValueRef::Blob(bytes)) => Ok(bytes),
        _ => Err(Unread::Unsound),
    }
}

fn text_at(alloc: Global, found: &Found, place: usize) -> Result<Text, Unread>
    ensures is { IfOk result (λ t. t ≡ bytes (column found.now place)) }
    ensures ok { IsOk result → is_bytes (column found.now place) ≡ true }
    ensures unsound { result ≡ Err Unread.Unsound → is_bytes (column found.now place) ≡ false }
{
    Ok(Text::from_bytes(alloc, bytes_at(found, place)?)?)
}

/// The digest that a value is.
fn digest_in(value: ValueRef<'_>) -> Result<Digest, Unread>
    ensures is { IfOk result (λ d. d ≡ digest_in (owned value.entry)) }
    ensures ok { IsOk result → is_digest (owned value.entry) ≡ true }
    ensures unsound { result ≡ Err Unread.Unsound → is_digest (owned value.entry) ≡ false }
{
    let ValueRef::Blob(bytes) = value else {
        return Err(Unread::Unsound);
    };
    if bytes.len() != 32 {
        return Err(Unread::Unsound);
    }
    let mut digest = [0; 32];
    digest.copy_from_slice(bytes);
    Ok(Digest(digest))
}

fn digest_at(found: &Found, place: usize) -> Result<Digest, Unread>
    ensures is { IfOk result (λ d. d ≡ digest_in (column found.now place)) }
    ensures ok { IsOk result → is_digest (column found.now place) ≡ true }
    ensures unsound { result ≡ Err Unread.Unsound → is_digest (column found.now place) ≡ false }
{
    match found.get_ref(place) {
        Ok(value) => digest_in(value),
        Err(_) => Err(Unread::Unsound),
    }
}

/// The digest in a column that may hold none. A row that ends before the column has none either.
fn output_at(found: &Found, place: usize) -> Result<Option<Digest>, Unread>
    ensures is { IfOk result (λ output. output ≡ output_in (column found.now place)) }
    ensures ok { IsOk result → is_output (column found.now place) ≡ true }
    ensures unsound { result ≡ Err Unread.Unsound → is_output (column found.now place) ≡ false }
{
    match found.get_ref(place) {
        Ok(ValueRef::Null) | Err(_) => Ok(None),
        Ok(value) => Ok(Some(digest_in(value)?)),
    }
}

/// Reads what `Statement::FindHeader` shows: the root of the source, that of the target, and the digest of the rules.
///
/// `Unsound` comes only where a column isn't bytes, or the digest hasn't 32 of them; else the only error is want of memory.
pub fn read_header(alloc: Global, found: &Found) -> Result<Header, Unread>
    ensures header { IfOk result (λ header. header ≡ shown_header found.now) }
    ensures ok { IsOk result → is_header found.now ≡ true }
    ensures unsound { result ≡ Err Unread.Unsound → is_header found.now ≡ false }
{
    Ok(Header {
        from: text_at(alloc, found, 0)?,
        to: text_at(alloc, found, 1)?,
        rules: digest_at(found, 2)?,
    })
}

/// Reads what `Statement::FindRow` and `Statement::FindRows` show: target, source, digest and output, which may be `NULL`.
///
/// `Unsound` comes only where a column isn't bytes, or a digest hasn't 32 of them; else the only error is want of memory.
pub fn read_row(alloc: Global, found: &Found) -> Result<Row, Unread>
    ensures row { IfOk result (λ row. row ≡ shown_row found.now) }
    ensures ok { IsOk result → is_row found.now ≡ true }
    ensures unsound { result ≡ Err Unread.Unsound → is_row found.now ≡ false }
{
    Ok(Row {
        target: text_at(alloc, found, 0)?,
        source: text_at(alloc, found, 1)?,
        digest: digest_at(found, 2)?,
        output: output_at(found, 3)?,
    })
}

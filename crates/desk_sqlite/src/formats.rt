//! The formats of a ledger's file, by the tables that it has.

ghost use Rattle.std.specs.Prelude.{◌≡◌, ◌↔◌, [], ◌∷◌, None, IfSome, IsTrue};
ghost use Rattle.sqlite.specs.Order.{column};
ghost use Rattle.desk_sqlite.specs.declared.formats.Format.{Format as Formats};
ghost use Rattle.desk_sqlite.specs.Formats.{made_by, shown, statements_of};

use sqlite::Row as TableRow;
use sqlite::types::ValueRef;

/// The table with the rows of format 1.
const WRITTEN: &str =
    "CREATE TABLE written (target BLOB NOT NULL PRIMARY KEY, source BLOB NOT NULL, digest BLOB NOT NULL) STRICT";

/// The table with the working folder of relative roots, whose only row has the number 1.
pub(crate) const FOLDER: &str =
    "CREATE TABLE folder (number INTEGER PRIMARY KEY, path BLOB NOT NULL) STRICT";

/// The format of a ledger's file.
#[derive(Clone, Copy)]
pub(crate) enum Format {
    /// The present one: tables of the working folder, the header, and the rows with their outputs.
    Present,
    /// Format 1 as later programs made it: tables of the working folder, the header, and the rows without outputs.
    OneWithFolder,
    /// Format 1 as the first programs made it, without a table of the working folder.
    One,
}

/// Whether a table was made by a statement with this text.
fn is_made_by(table: &TableRow, statement: &str) -> bool
    ensures { IsTrue result ↔ (made_by (table.now ∷ []) ≡ shown (statement.now ∷ [])) }
{
    match table.get_ref(0) {
        Ok(ValueRef::Text(text)) => text == statement.as_bytes(),
        _ => false,
    }
}

/// Whether these are two tables, made by two statements.
fn are_two(found: &[TableRow], first: &str, second: &str) -> bool
    ensures { IsTrue result ↔ (made_by found.now ≡ shown (first.now ∷ second.now ∷ [])) }
{
    match found {
        [one, two] => is_made_by(one, first) && is_made_by(two, second),
        _ => false,
    }
}

/// Whether these are three tables, made by three statements.
fn are_three(found: &[TableRow], first: &str, second: &str, third: &str) -> bool
    ensures { IsTrue result ↔ (made_by found.now ≡ shown (first.now ∷ second.now ∷ third.now ∷ [])) }
{
    match found {
        [one, rest @ ..] => is_made_by(one, first) && are_two(rest, second, third),
        [] => false,
    }
}

/// The format that has just these tables, which are given in the order of their names, where the tables of header and rows
/// are made by these statements; none where they are no ledger's.
pub(crate) fn format_of(found: &[TableRow], headers: &str, rows: &str) -> Option<Format>
    ensures is { IfSome result (λ format. made_by found.now ≡ shown (statements_of headers.now rows.now format)) }
    ensures none { result ≡ None → (format : Formats) → ¬ (made_by found.now ≡ shown (statements_of headers.now rows.now format)) }
{
    if are_three(found, FOLDER, headers, rows) {
        Some(Format::Present)
    } else if are_three(found, FOLDER, headers, WRITTEN) {
        Some(Format::OneWithFolder)
    } else if are_two(found, headers, WRITTEN) {
        Some(Format::One)
    } else {
        None
    }
}

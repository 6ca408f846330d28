//! The statements on the tables of a ledger.

ghost use Rattle.desk_ledger_tables.specs.Statements.{Means};

/// A statement on the tables of a ledger. One table holds the header and one the rows by their targets; texts and digests
/// stand in columns of bytes.
#[derive(Clone, Copy, Debug, PartialEq, Eq)]
pub enum Statement {
    /// Makes the table of the header, whose only row has the number 1, where there is no table.
    MakeHeaders,
    /// Makes the table of the rows, where there is the table of the header alone.
    MakeRows,
    /// Puts a header in place of the one that is there. Its parameters are the values of the header.
    SetHeader,
    /// Asks for the header: the root of the source, that of the target, and the digest of the rules.
    FindHeader,
    /// Puts a row, or writes it over the one that has its target. Its parameters are the values of the row.
    PutRow,
    /// Asks for the row of a target, its parameter: target, source, digest and output.
    FindRow,
    /// Asks for all rows: target, source, digest and output of each.
    FindRows,
    /// Removes the row of a target, its parameter.
    ForgetRow,
}

impl Statement {
    /// The statement's text in SQL.
    pub fn text(self) -> &'static str
        ensures { Means self result.now }
    {
        match self {
            Statement::MakeHeaders => {
                "CREATE TABLE header (number INTEGER PRIMARY KEY, from_root BLOB NOT NULL, to_root BLOB NOT NULL, rules BLOB NOT NULL) STRICT"
            }
            Statement::MakeRows => {
                "CREATE TABLE rows2 (target BLOB NOT NULL PRIMARY KEY, source BLOB NOT NULL, digest BLOB NOT NULL, output BLOB) STRICT"
            }
            Statement::SetHeader => "INSERT OR REPLACE INTO header VALUES (1, ?1, ?2, ?3)",
            Statement::FindHeader => "SELECT from_root, to_root, rules FROM header",
            Statement::PutRow => {
                "INSERT INTO rows2 VALUES (?1, ?2, ?3, ?4) ON CONFLICT (target) DO UPDATE SET source = excluded.source, digest = excluded.digest, output = excluded.output"
            }
            Statement::FindRow => {
                "SELECT target, source, digest, output FROM rows2 WHERE target = ?1"
            }
            Statement::FindRows => "SELECT target, source, digest, output FROM rows2",
            Statement::ForgetRow => "DELETE FROM rows2 WHERE target = ?1",
        }
    }
}

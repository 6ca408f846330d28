//! A database file. What its calls do to the file is said by no clause, so that each caller is proved
//! without the clauses of SQL; clauses count what it refused, so that no refusal is passed over.

ghost use Rattle.std.specs.Prelude.{◌≡◌, ◌≢◌, IsErr, OnOk, OnErr};
ghost use Rattle.desk_base.specs.Counts.{counted};

use crate::files::{Log, why_not_made};
use desk_faults::{Cause, Refusal};
use sqlite::types::ValueRef;
use sqlite::{Connection, Error, ErrorCode, File, FileStore, Row};
use std::marker::Model;

/// A database file that is open, and locked against other programs. Contracts see how many statements it
/// refused; the count stands still at 18,446,744,073,709,551,615.
pub struct Database {
    connection: Connection<FileStore<File>>,
    refused: u64,
}

impl Model for Database {
    ghost use Rattle.std.specs.Prelude.{ℕ};

    ghost Value = { ℕ };

    ghost view = { λ d. d.refused };
}

impl Drop for Database {
    fn drop(self) {
        let Database {
            connection: _,
            refused: _,
        } = self;
    }
}

/// What an error of a statement means: want of memory is told apart from all others.
fn fault_of(error: Error) -> Refusal
    ensures memory { error ≡ Error.SqliteFailure ErrorCode.OutOfMemory → result ≡ Refusal.Memory }
    ensures failed { error ≢ Error.SqliteFailure ErrorCode.OutOfMemory → result ≢ Refusal.Memory }
{
    match error {
        Error::SqliteFailure(ErrorCode::OutOfMemory) => Refusal::Memory,
        Error::SqliteFailure(ErrorCode::DiskFull) => Refusal::Failed(Cause::Full),
        Error::SqliteFailure(ErrorCode::DatabaseBusy) => Refusal::Failed(Cause::Busy),
        Error::SqliteFailure(ErrorCode::DatabaseCorrupt | ErrorCode::NotADatabase) => {
            Refusal::Failed(Cause::Unsound)
        }
        Error::SqliteFailure(ErrorCode::CannotOpen) => Refusal::Failed(Cause::Unopened),
        _ => Refusal::Failed(Cause::Statement),
    }
}

/// Whether a file was refused for what it holds, and not by the system or for a program that has it open.
fn is_unsound(error: &Error) -> bool {
    matches!(
        error,
        Error::SqliteFailure(ErrorCode::DatabaseCorrupt | ErrorCode::NotADatabase)
    )
}

/// Why a file isn't opened: as the system says it, where the database doesn't.
fn why_not_opened(rt: &HostRuntime, path: &str, error: Error) -> Refusal {
    match fault_of(error) {
        Refusal::Failed(Cause::Unopened) => why_not_made(rt, path),
        refusal => refusal,
    }
}

impl Database {
    /// Counts a refusal, and answers what it means.
    fn refuse(&mut self, error: Error) -> Refusal
        ensures { self.new ≡ counted self.old }
    {
        self.refused = self.refused.saturating_add(1);
        fault_of(error)
    }

    /// Opens the database file at a path, and makes an empty one where there is no file. A file that holds
    /// no sound database is left as it was. Errors are want of memory, what the file holds, another program that has it open, and what
    /// the system says.
    pub fn open(rt: &HostRuntime, path: &str, log: &Log) -> Result<Database, Refusal> {
        match Connection::open(rt, path) {
            Ok(connection) => Ok(Database {
                connection,
                refused: 0,
            }),
            Err(error) => {
                if is_unsound(&error) {
                    let _ = log.remove_new(rt);
                }
                Err(why_not_opened(rt, path, error))
            }
        }
    }

    /// Runs one statement that is no query, with these values for its parameters. A statement that is refused is counted.
    pub fn run(&mut self, statement: &str, values: &[ValueRef<'_>]) -> Result<(), Refusal>
        ensures ok { OnOk result (self.new ≡ self.old) }
        ensures err { OnErr result (self.new ≡ counted self.old) }
    {
        match self.connection.execute(statement, values) {
            Ok(_) => Ok(()),
            Err(error) => Err(self.refuse(error)),
        }
    }

    /// All rows that a query gives. A query that is refused is counted.
    pub fn query(&mut self, query: &str) -> Result<Vec<Row>, Refusal>
        ensures ok { OnOk result (self.new ≡ self.old) }
        ensures err { OnErr result (self.new ≡ counted self.old) }
    {
        match self.connection.query_all(query, &[]) {
            Ok(rows) => Ok(rows),
            Err(error) => Err(self.refuse(error)),
        }
    }

    /// Ends a transaction in which this was done: what it wrote stays, or nothing of it where it failed, which is then the error.
    pub fn end(&mut self, done: Result<(), Refusal>) -> Result<(), Refusal>
        ensures done { IsErr done → IsErr result }
        ensures ok { OnOk result (self.new ≡ self.old) }
    {
        let ended = match done {
            Ok(()) => self.run("COMMIT", &[]),
            Err(fault) => Err(fault),
        };
        if let Err(fault) = ended {
            let _ = self.run("ROLLBACK", &[]);
            return Err(fault);
        }
        Ok(())
    }
}

//! Tests of the ledger in an SQLite file, over the files of a folder of this process alone, which each case makes anew, and of
//! the ledger in an SQL database in memory. The databases of `data` were made by SQLite itself, each from its file of
//! statements.
#![tactic(auto)]

mod databases;
mod keepers;

use crate::databases::Database;
use crate::keepers::Keepers;
use desk_base::{Memory, Text};
use std::io;
use test_cases::{Answers, answer_all};
use test_commands::{OwnFolder, append_unknown};

/// The folder of a case, and its keepers over files and over a database in memory.
#[derive(Drop)]
struct Cases<'r> {
    folder: OwnFolder<'r>,
    keepers: Keepers<'r>,
    database: Database,
}

impl Answers for Cases<'_> {
    fn begin(&mut self) -> Result<(), Memory> {
        self.keepers.close();
        self.database.close();
        let _ = self.folder.make_anew();
        Ok(())
    }

    fn answer(&mut self, words: &[Text], out: &mut String) -> Result<(), Memory> {
        let [subject, words @ ..] = words else {
            return Ok(());
        };
        match subject.as_bytes() {
            b"file" => self.folder.answer(words, out),
            b"ledger" => self.keepers.answer(&self.folder, words, out),
            b"database" => self.database.answer(words, out),
            _ => append_unknown(out),
        }
    }
}

fn main(rt: HostRuntime) -> io::Result<()> {
    let mut cases = Cases {
        folder: OwnFolder::new(&rt, "test_sqlite")?,
        keepers: Keepers::new(&rt),
        database: Database::new(rt.alloc()),
    };
    let done = answer_all(&rt, &mut cases);
    let Cases {
        folder,
        keepers,
        database,
    } = cases;
    folder.remove();
    drop(keepers);
    drop(database);
    done
}

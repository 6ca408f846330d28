//! The desk: one run from its words to its report.
//!
//! ```text
//! let mut folders = DiskFolders::new(&rt);
//! let mut keeper = SqliteKeeper::new(&rt);
//! let mut out = StdSink::new(&rt);
//! let request = Request::read(rt.alloc(), &words);
//! let status = desk(&rt, rt.alloc(), &request, &mut folders, &mut keeper, &mut out, &FreeGate);
//! ExitCode::from(status.code())
//! ```
#![tactic(auto)]

ghost use Rattle.std.specs.Prelude.{◌≡◌, ◌≤◌, true};
ghost use Rattle.desk_run.specs.Answers.{first_answer};
ghost use Rattle.desk_run.specs.Classes.{Classes};
ghost use Rattle.desk_run.specs.Clauses.{Exact, Files, LedgerHolds, Left, Output};
ghost use Rattle.desk_run.specs.Endings.{Committed, HasCauses, Named, ReportedOf, StandsAfter, Tells, WhereTold, is_final};
ghost use Rattle.desk_run.specs.Follows.{Follow};
ghost use Rattle.desk_run.specs.Generated.{Generates, TellsTotals};
ghost use Rattle.desk_run.specs.GeneratedSql.{GeneratesSql, LeavesSql};
ghost use Rattle.desk_run.specs.Named.{OfCalls, OfCompare, OfGenerate, OfInvert, OfQuery, OfRun, OfSql, asked_of};
ghost use Rattle.desk_run.specs.Queries.{AnswersQuery, LeavesAnswer};
ghost use Rattle.desk_words.specs.declared.roots.Query.TheVariants as query;
ghost use Rattle.desk_run.specs.Resuming.{LeavesSources, Resumes};

mod finish;
mod gather;
mod generate;
mod opening;
mod planning;
mod queries;
mod report;
mod stops;
mod threading;

use desk_folders::Folders;
use desk_ledger::Keeper;
use desk_report::{Sink, Status, write_fault};
use desk_words::Order;
pub use desk_words::{Request, Root, Task, WordsFault, read_words};
pub use desk_workers::FreeGate;
use desk_workers::Gate;
use finish::run;
use generate::{run_generated, run_generated_sql};
use queries::run_query;
use std::alloc::Global;
use std::thread::Threads;
use stops::status_of_words;
use threading::Threading;

/// Does what words ask for, without the line of a fault.
fn follow<R: Threads + Sync, F: Folders, K: Keeper, O: Sink, G: Gate + Sync>(
    threading: &Threading<'_, R, G>,
    alloc: Global,
    words: &Request<'_>,
    folders: &mut F,
    keeper: &mut K,
    out: &mut O,
) -> Status
    ensures stands { OfRun words.now (WhereTold (F.told folders.old) (K.told keeper.old) (λ m0 l0. Tells (F.told folders.new) (K.told keeper.new) (λ m l. StandsAfter (asked_of words.now) m0 l0 m l result))) }
    ensures first { WhereTold (F.told folders.old) (K.told keeper.old) (λ m l. is_final result ≡ true → result ≡ first_answer (asked_of words.now) m l) }
    ensures output { OfRun words.now (ReportedOf (asked_of words.now) (F.told folders.old) (K.told keeper.old) (O.told out.old) (O.told out.new) result) }
    ensures named { OfRun words.now (Named (asked_of words.now) (K.attached keeper.old) (K.attached keeper.new) result) }
    ensures committed { OfRun words.now (Committed (K.waiting keeper.new) result) }
    ensures untouched { OfGenerate words.now (λ _. (folders.new ≡ folders.old) × (keeper.new ≡ keeper.old)) }
    ensures generate { OfGenerate words.now (λ count. TellsTotals count (O.told out.old) (O.told out.new) result) }
    ensures sql { OfSql words.now (λ count. LeavesSql count (K.told keeper.old) (K.told keeper.new) (K.faults keeper.old) (K.faults keeper.new) (O.told out.old) (O.told out.new) (O.faults out.old) (O.faults out.new) result) }
    ensures apart { OfSql words.now (λ _. folders.new ≡ folders.old) }
    ensures query { OfQuery words.now (λ asked. LeavesAnswer asked (F.told folders.old) (O.told out.old) (O.told out.new) (F.faults folders.old) (F.faults folders.new) (O.faults out.old) (O.faults out.new) result) }
    ensures unchanged { OfQuery words.now (λ _. (F.told folders.new ≡ F.told folders.old) × (keeper.new ≡ keeper.old)) }
    ensures causes { HasCauses (asked_of words.now) (F.told folders.old) result (F.faults folders.old) (F.faults folders.new) (K.faults keeper.old) (K.faults keeper.new) (O.faults out.old) (O.faults out.new) }
    ensures counts_f { F.faults folders.old ≤ F.faults folders.new }
    ensures counts_k { K.faults keeper.old ≤ K.faults keeper.new }
    ensures counts_o { O.faults out.old ≤ O.faults out.new }
{
    match words.order() {
        Ok(Order::Run { roots, workers }) => {
            let workers = threading.workers(*workers);
            run(&workers, alloc, roots, folders, keeper, out)
        }
        Ok(Order::Generate { count, workers }) => {
            let workers = threading.workers(*workers);
            run_generated(&workers, alloc, *count, out)
        }
        Ok(Order::GenerateSql { count, workers }) => {
            let workers = threading.workers(*workers);
            run_generated_sql(&workers, alloc, *count, keeper, out)
        }
        Ok(Order::Query(asked)) => run_query(threading, alloc, asked, folders, out),
        Err(fault) => status_of_words(fault),
    }
}

/// Migrates the application that words name, which were read once: reads the rules and, for the first time, the files of the source, opens the ledger,
/// reads each file again that isn't kept from an earlier run and writes its image, if it has one, commits the rows, and writes
/// the report; or the line of what stands against it. Digests, scans and images are made by as many workers as the words ask
/// for; `gate` is told of each item that a worker begins and ends. Of words with `--verify` it reads the target of each file
/// that it would keep, and keeps the file only where the target has the digest of what was written. (That files are read twice
/// and the readings compared, and that the gate is told, no clause says; tests do.)
///
/// Of the words `generate` it makes an application of its own in memory, runs over it, and writes the line of
/// the totals alone: the folders and the keeper stay as they are, and the status is `Done`, `OutputFault` or
/// `Memory`. With `--sql` the rows of that run go into the keeper that is handed in. Of the words `calls`, `compare` and `invert` it reads
/// applications or rules, and writes their answer; nothing is written to folders or keeper.
///
/// The statuses, of which the first that stands is the answer:
/// `Usage` (words without a task), `NestedRoots` (a root lies in another that is written to or holds the
/// ledger), `Limit` of `RuleFiles` or `RuleSize`, `BadRules`, `Limit` of `Files`, of `PathLength` with the
/// least such path, of `FileSize` with the first such file, `PathClash` with the first two files
/// of which one's target equals the other's or is a folder of it, `NameClash` with the first two names of classes that
/// would become one, of which the source defines the first, `Stranded` with the first class that isn't selected and holds
/// the name of a class of the source that changes, `OtherRun` (the ledger's header isn't
/// this run's), `Refusals` (a file is neither kept nor has an image), `Done`. Of `calls`, `compare` and `invert` it is the status
/// behind their answer, `Differs` with the least path for two applications that differ, or the `Limit`, `BadRules`, `PathClash`,
/// `NameClash`, `Stranded` or `NotInvertible` that stands against it; of `generate --sql` `OtherRun` or `Done`.
/// `FolderFault`, `LedgerFault` and `OutputFault` come only where the count of faults of that object rose
/// in this call, and `FolderFault` with no file done, or at one that isn't kept; `Moved` only where the two readings of a file
/// gave different bytes, and never where the folders tell their contents; `Memory` may come at any step. Rows that wait are
/// written outside before the report: where that fails, the run ends as `LedgerFault` with all files done, and no report is written.
///
/// Whatever the status, source and rule folder stay as they were. A run that was stopped by want of memory or a fault of the
/// outside goes on where it stood, however often: where the ledger was true before the first of these runs, or they verify over
/// a sound one, the run that completes leaves the folders of one run that was never stopped.
pub fn desk<R: Threads + Sync, F: Folders, K: Keeper, O: Sink, G: Gate + Sync>(
    rt: &R,
    alloc: Global,
    words: &Request<'_>,
    folders: &mut F,
    keeper: &mut K,
    out: &mut O,
    gate: &G,
) -> Status
    ensures files { OfRun words.now (WhereTold (F.told folders.old) (K.told keeper.old) (λ m0 l0. Tells (F.told folders.new) (K.told keeper.new) (λ m l. Files (asked_of words.now) m0 l0 m result))) }
    ensures ledger { OfRun words.now (LedgerHolds (asked_of words.now) (F.told folders.old) (F.told folders.new) (K.told keeper.old) (K.told keeper.new) (K.attached keeper.old) (K.attached keeper.new) result) }
    ensures committed { OfRun words.now (Committed (K.waiting keeper.new) result) }
    ensures output { OfRun words.now (Output (asked_of words.now) (F.told folders.old) (K.told keeper.old) (O.told out.old) (O.told out.new) (O.faults out.old) (O.faults out.new) result) }
    ensures status { WhereTold (F.told folders.old) (K.told keeper.old) (λ m l. Exact (first_answer (asked_of words.now) m l) result
        (F.faults folders.old) (F.faults folders.new) (K.faults keeper.old) (K.faults keeper.new) (O.faults out.old) (O.faults out.new)) }
    ensures causes { HasCauses (asked_of words.now) (F.told folders.old) result (F.faults folders.old) (F.faults folders.new) (K.faults keeper.old) (K.faults keeper.new) (O.faults out.old) (O.faults out.new) }
    ensures remains { OfRun words.now (WhereTold (F.told folders.old) (K.told keeper.old) (λ m0 l0. Tells (F.told folders.new) (K.told keeper.new) (λ m l. Left (asked_of words.now) m0 l0 m l result))) }
    ensures sources { OfRun words.now (WhereTold (F.told folders.old) (K.told keeper.old) (λ m0 _. Tells (F.told folders.new) (K.told keeper.new) (λ m _. LeavesSources (asked_of words.now) m0 m))) }
    ensures resume { OfRun words.now (WhereTold (F.told folders.old) (K.told keeper.old) (λ m1 l1. Tells (F.told folders.new) (K.told keeper.new) (λ m _. Resumes (asked_of words.now) m1 l1 m result))) }
    ensures classes { OfRun words.now (WhereTold (F.told folders.old) (K.told keeper.old) (λ m0 l0. Tells (F.told folders.new) (K.told keeper.new) (λ m l. Classes (asked_of words.now) m0 l0 m result))) }
    ensures follow { OfRun words.now (WhereTold (F.told folders.old) (K.told keeper.old) (λ m0 _. Follow (asked_of words.now) m0 result)) }
    ensures untouched { OfGenerate words.now (λ _. (folders.new ≡ folders.old) × (keeper.new ≡ keeper.old)) }
    ensures generate { OfGenerate words.now (λ count. Generates count (O.told out.old) (O.told out.new) (O.faults out.old) (O.faults out.new) result) }
    ensures sql { OfSql words.now (λ count. GeneratesSql count (K.told keeper.old) (K.told keeper.new) (K.faults keeper.old) (K.faults keeper.new)
        (O.told out.old) (O.told out.new) (O.faults out.old) (O.faults out.new) result) }
    ensures apart { OfSql words.now (λ _. folders.new ≡ folders.old) }
    ensures calls { OfCalls words.now (λ from scope. AnswersQuery (query.Calls from scope) (F.told folders.old) (O.told out.old) (O.told out.new)
        (F.faults folders.old) (F.faults folders.new) (O.faults out.old) (O.faults out.new) result) }
    ensures invert { OfInvert words.now (λ rules. AnswersQuery (query.Invert rules) (F.told folders.old) (O.told out.old) (O.told out.new)
        (F.faults folders.old) (F.faults folders.new) (O.faults out.old) (O.faults out.new) result) }
    ensures compare { OfCompare words.now (λ rules from other. AnswersQuery (query.Compare rules from other) (F.told folders.old) (O.told out.old) (O.told out.new)
        (F.faults folders.old) (F.faults folders.new) (O.faults out.old) (O.faults out.new) result) }
    ensures unchanged { OfQuery words.now (λ _. (F.told folders.new ≡ F.told folders.old) × (keeper.new ≡ keeper.old)) }
{
    let threading = Threading { rt, gate };
    let status = follow(&threading, alloc, words, folders, keeper, out);
    let _ = write_fault(&status, out);
    status
}

//! A run over a generated application, in folders and with a ledger of its own.

ghost use Rattle.std.specs.Prelude.{◌≡◌, ◌≤◌, true, None, Err, Ok, IfErr, IfOk, IfSome, map};
ghost use Rattle.std.specs.List.{list_all};
ghost use Rattle.desk_base.specs.Paths.{is_full_path};
ghost use Rattle.desk_report.specs.declared.status.Status.TheVariants.{Done};
ghost use Rattle.desk_run.specs.Endings.{HasCauses};
ghost use Rattle.desk_run.specs.Generated.{TellsTotals, generated_contents, generated_files, generated_roots, generated_totals, placed};
ghost use Rattle.desk_run.specs.GeneratedSql.{CompletesGenerated, LeavesSql, StopsGenerated, TellsResult, kept_status, kept_totals};

use crate::finish::totals_of_run;
use desk_base::{Memory, Text};
use desk_folders::{GenFile, MemoryFolders};
use desk_gen::{generate, rule_file};
use desk_ledger::{Keeper, MemoryKeeper};
use desk_readings::full_path;
use desk_report::{Sink, Status, Summary, write_summary};
use desk_words::Roots;
use desk_workers::{Gate, Workers};
use std::alloc::Global;
use std::thread::Threads;

/// The roots of the run.
fn roots_in_memory(alloc: Global) -> Result<Roots, Memory>
    ensures { IfOk result (λ roots. roots ≡ generated_roots) }
{
    let rules = Text::from_bytes(alloc, b"rules")?;
    let from = Text::from_bytes(alloc, b"in")?;
    let to = Text::from_bytes(alloc, b"out")?;
    let ledger = Text::from_bytes(alloc, b"ledger")?;
    Ok(Roots {
        rules,
        from,
        to,
        ledger,
        verify: false,
    })
}

/// A file with its path below a root.
fn placed(alloc: Global, root: &Text, file: GenFile) -> Result<GenFile, Memory>
    ensures { IfOk result (λ below. below ≡ placed root.now file) }
{
    let GenFile { path, content } = file;
    let path = full_path(alloc, root, &path)?;
    Ok(GenFile { path, content })
}

/// Files with their paths below a root.
fn all_placed(alloc: Global, root: &Text, files: Vec<GenFile>) -> Result<Vec<GenFile>, Memory>
    ensures { IfOk result (λ below. below.items ≡ map (placed root.now) files.items) }
{
    let mut below = Vec::new(alloc);
    for file in files {
        below.push(placed(alloc, root, file)?)?;
    }
    Ok(below)
}

/// The files of the run: the application below `in`, and its rule file below `rules`.
fn files_in_memory(alloc: Global, roots: &Roots, count: u32) -> Result<Vec<GenFile>, Memory>
    requires { roots.now ≡ generated_roots }
    ensures files { IfOk result (λ files. files.items ≡ generated_files count) }
    ensures full { IfOk result (λ files. list_all (λ file. is_full_path file.path) files.items ≡ true) }
{
    match generate(alloc, count) {
        Ok(files) => {
            let mut files = all_placed(alloc, &roots.from, files)?;
            files.push(placed(alloc, &roots.rules, rule_file(alloc)?)?)?;
            Ok(files)
        }
        Err(_) => Err(Memory),
    }
}

/// The folders of the run: the application below `in`, and its rule file below `rules`.
fn folders_in_memory(alloc: Global, roots: &Roots, count: u32) -> Result<MemoryFolders, Memory>
    requires { roots.now ≡ generated_roots }
    ensures { IfOk result (λ folders. folders.contents ≡ generated_contents count) }
{
    let files = files_in_memory(alloc, roots, count)?;
    let folders = MemoryFolders::new(alloc, files, Vec::new(alloc))?;
    Ok(folders)
}

/// How a stop of the run is told: folders in memory have no faults, and nothing of a generated application stands against it.
fn kept_status(status: Status) -> Status
    ensures { result ≡ kept_status status }
{
    match status {
        Status::OtherRun { kept, wanted } => Status::OtherRun { kept, wanted },
        Status::LedgerFault { done } => Status::LedgerFault { done },
        _ => Status::Memory,
    }
}

/// What is told of a run over a generated application: no file of one is refused.
fn kept_totals(totals: Result<Summary, Status>) -> Result<Summary, Status>
    ensures { result ≡ kept_totals totals }
{
    match totals {
        Ok(totals) if totals.refused == 0 => Ok(totals),
        Ok(_) => Err(Status::Memory),
        Err(status) => Err(kept_status(status)),
    }
}

/// The totals of the run whose rows go into this ledger, or how it ends before them.
fn totals_kept<R: Threads + Sync, K: Keeper, G: Gate + Sync>(
    workers: &Workers<'_, R, G>,
    alloc: Global,
    count: u32,
    roots: &Roots,
    keeper: &mut K,
) -> Result<Summary, Status>
    requires roots { roots.now ≡ generated_roots }
    ensures completes { IfOk result (λ totals. IfSome (K.told keeper.old) (λ l0. CompletesGenerated count l0 (K.told keeper.new) (λ t. totals ≡ t))) }
    ensures stopped { IfErr result (StopsGenerated count (K.told keeper.old) (K.told keeper.new) (K.faults keeper.old) (K.faults keeper.new)) }
    ensures counts { K.faults keeper.old ≤ K.faults keeper.new }
{
    match folders_in_memory(alloc, roots, count) {
        Ok(folders) => {
            let mut folders = folders;
            kept_totals(totals_of_run(workers, alloc, roots, &mut folders, keeper))
        }
        Err(Memory) => Err(Status::Memory),
    }
}

/// The totals of the run over a generated application of so many classes, by so many workers.
fn totals<R: Threads + Sync, G: Gate + Sync>(
    workers: &Workers<'_, R, G>,
    alloc: Global,
    count: u32,
    roots: &Roots,
) -> Result<Summary, Memory>
    requires { roots.now ≡ generated_roots }
    ensures { IfOk result (λ totals. generated_totals count ≡ Ok totals) }
{
    let mut keeper = Box::new(alloc, MemoryKeeper::new(alloc, Vec::new(alloc))?)?;
    match totals_kept(workers, alloc, count, roots, &mut *keeper) {
        Ok(totals) => Ok(totals),
        Err(_) => Err(Memory),
    }
}

/// Writes the totals of a run, or hands on how it ended before them.
fn tell_totals<O: Sink>(out: &mut O, totals: Result<Summary, Status>) -> Status
    ensures told { TellsResult totals (O.told out.old) (O.told out.new) (O.faults out.old) (O.faults out.new) result }
    ensures counts { O.faults out.old ≤ O.faults out.new }
{
    match totals {
        Ok(totals) => match write_summary(&totals, out) {
            Ok(()) => Status::Done,
            Err(_) => Status::OutputFault,
        },
        Err(status) => status,
    }
}

/// Runs over a generated application of so many classes by so many workers, in folders in memory, with its rows in this ledger,
/// and writes the line of the totals alone.
///
/// The statuses: `Done`; `OtherRun` where the ledger belongs to another run; `LedgerFault`; `OutputFault` where the line could not
/// be written; `Memory`.
pub(crate) fn run_generated_sql<R: Threads + Sync, K: Keeper, O: Sink, G: Gate + Sync>(
    workers: &Workers<'_, R, G>,
    alloc: Global,
    count: u32,
    keeper: &mut K,
    out: &mut O,
) -> Status
    ensures told { LeavesSql count (K.told keeper.old) (K.told keeper.new) (K.faults keeper.old) (K.faults keeper.new) (O.told out.old) (O.told out.new) (O.faults out.old) (O.faults out.new) result }
    ensures counts_k { K.faults keeper.old ≤ K.faults keeper.new }
    ensures counts { O.faults out.old ≤ O.faults out.new }
{
    match roots_in_memory(alloc) {
        Ok(roots) => tell_totals(out, totals_kept(workers, alloc, count, &roots, keeper)),
        Err(Memory) => Status::Memory,
    }
}

/// Runs over a generated application of so many classes by so many workers, in folders and with a ledger in memory, and
/// writes the line of the totals alone.
///
/// The statuses: `Done`; `OutputFault` where the line could not be written; `Memory`.
pub(crate) fn run_generated<R: Threads + Sync, O: Sink, G: Gate + Sync>(
    workers: &Workers<'_, R, G>,
    alloc: Global,
    count: u32,
    out: &mut O,
) -> Status
    ensures told { TellsTotals count (O.told out.old) (O.told out.new) result }
    ensures causes { HasCauses (Err (λ m l. Done)) None result 0 0 0 0 (O.faults out.old) (O.faults out.new) }
    ensures counts { O.faults out.old ≤ O.faults out.new }
{
    match roots_in_memory(alloc) {
        Ok(roots) => match totals(workers, alloc, count, &roots) {
            Ok(totals) => match write_summary(&totals, out) {
                Ok(()) => Status::Done,
                Err(_) => Status::OutputFault,
            },
            Err(Memory) => Status::Memory,
        },
        Err(Memory) => Status::Memory,
    }
}

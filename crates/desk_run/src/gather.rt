//! What a run goes by: its rules and what was read of its files, before the ledger is opened.

ghost use Rattle.std.specs.Prelude.{All, ◌≡◌, ◌≤◌, ◌<◌, ◌^◌, Ok, IfOk, IfErr, IfSome, length, map};
ghost use Rattle.desk_file.specs.Images.{target};
ghost use Rattle.desk_file.specs.Treatments.{is_whole};
ghost use Rattle.desk_folders.specs.Contents.{files_below};
ghost use Rattle.desk_run.specs.Endings.{AreRead, HasGathered};
ghost use Rattle.desk_run.specs.Halts.{HaltsAtFiles, HaltsGathering, HaltsReadingAll};
ghost use Rattle.desk_intake.specs.Rulings.{ruled};
ghost use Rattle.desk_run.specs.Asked.{asked_roots};
ghost use Rattle.desk_run.specs.Notes.{IsRead};
ghost use Rattle.desk_second.specs.Second.{AreRules};
ghost use Rattle.desk_words.specs.Roots.{AreRoots};

use desk_folders::Folders;
use desk_intake::{DigestedRules, Halt, list_routes, read_rules, refuse_clash};
use desk_readings::{MeasuredFiles, note_all};
use desk_words::Roots;
use desk_workers::{Gate, Workers};
use std::alloc::Global;
use std::thread::Threads;

/// What a run goes by: its rules, and what was read of its files.
#[derive(Drop)]
pub struct Gathered {
    /// The rule set with the digest of its files.
    pub ruled: Box<DigestedRules>,
    /// What the first reading of the source found.
    pub notes: MeasuredFiles,
}

/// Reads the files of a run for the first time, or finds what stands against them.
fn read_files<R: Threads + Sync, F: Folders, G: Gate + Sync>(
    workers: &Workers<'_, R, G>,
    alloc: Global,
    folders: &mut F,
    names: &Roots,
    ruled: &DigestedRules,
) -> Result<MeasuredFiles, Halt>
    requires roots { AreRoots names.now }
    ensures told { F.told folders.new ≡ F.told folders.old }
    ensures notes { IfOk result (λ notes. IfSome (F.told folders.old) (λ m. AreRead ruled.now.rules names.now.from m notes.files.items notes.scanned.items)) }
    ensures read { IfOk result (λ notes. All (IsRead ruled.now.rules) notes.files.items) }
    ensures few { IfOk result (λ notes. length notes.files.items < 2 ^ 32) }
    ensures few_classes { IfOk result (λ notes. length notes.scanned.items < 2 ^ 32) }
    ensures err { IfErr result (HaltsAtFiles names.now.from (target ruled.now.rules) (is_whole ruled.now.rules) (F.told folders.old) (F.faults folders.old) (F.faults folders.new)) }
    ensures counts { F.faults folders.old ≤ F.faults folders.new }
{
    let routes = list_routes(alloc, folders, &ruled.rules, &names.from)?;
    let notes = note_all(workers, alloc, folders, &ruled.rules, &names.from, routes)?;
    refuse_clash(alloc, &notes.files)?;
    Ok(notes)
}

/// Reads the rules and files of roots, or finds what stands against them.
fn gather_by<R: Threads + Sync, F: Folders, G: Gate + Sync>(
    workers: &Workers<'_, R, G>,
    alloc: Global,
    folders: &mut F,
    names: &Roots,
) -> Result<Gathered, Halt>
    requires roots { AreRoots names.now }
    ensures told { F.told folders.new ≡ F.told folders.old }
    ensures rules { IfOk result (λ g. IfSome (F.told folders.old) (λ m. ruled names.now.rules (files_below names.now.rules m) ≡ Ok g.ruled.value)) }
    ensures are { IfOk result (λ g. AreRules g.ruled.value.rules) }
    ensures notes { IfOk result (λ g. IfSome (F.told folders.old) (λ m. AreRead g.ruled.value.rules names.now.from m g.notes.files.items g.notes.scanned.items)) }
    ensures read { IfOk result (λ g. All (IsRead g.ruled.value.rules) g.notes.files.items) }
    ensures few { IfOk result (λ g. length g.notes.files.items < 2 ^ 32) }
    ensures few_classes { IfOk result (λ g. length g.notes.scanned.items < 2 ^ 32) }
    ensures err { IfErr result (HaltsReadingAll names.now (F.told folders.old) (F.faults folders.old) (F.faults folders.new)) }
    ensures counts { F.faults folders.old ≤ F.faults folders.new }
{
    let ruled = read_rules(alloc, folders, &names.rules)?;
    let notes = read_files(workers, alloc, folders, names, &ruled)?;
    Ok(Gathered { ruled, notes })
}

/// Reads the rules and files of roots.
pub(crate) fn gather<R: Threads + Sync, F: Folders, G: Gate + Sync>(
    workers: &Workers<'_, R, G>,
    alloc: Global,
    folders: &mut F,
    names: &Roots,
) -> Result<Gathered, Halt>
    requires roots { AreRoots names.now }
    ensures told { F.told folders.new ≡ F.told folders.old }
    ensures gathered { IfOk result (HasGathered names.now (F.told folders.old)) }
    ensures err { IfErr result (HaltsGathering (asked_roots names.now) (F.told folders.old) (F.faults folders.old) (F.faults folders.new)) }
    ensures counts { F.faults folders.old ≤ F.faults folders.new }
{
    gather_by(workers, alloc, folders, names)
}

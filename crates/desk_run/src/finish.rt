//! A run up to its end: what is gathered is planned, written and reported.

ghost use Rattle.std.specs.Prelude.{All, ◌≡◌, ◌≤◌, ◌<◌, ◌^◌, true, None, Some, Err, IfOk, IsOkAnd, OnOk, IfErr, IfSome, IsSome, length, map, option_map};
ghost use Rattle.desk_batches.specs.Notes.{IsNoteOf, IsSound, BecomesAsNoted};
ghost use Rattle.desk_batches.specs.Stops.{HasCause};
ghost use Rattle.desk_batches.specs.Turns.{outcome_of, works_in};
ghost use Rattle.desk_batches.specs.Works.{files_after, ledger_after};
ghost use Rattle.desk_file.specs.Linked.{image_in};
ghost use Rattle.desk_file.specs.Routes.{IsRouteBy};
ghost use Rattle.desk_folders.specs.Contents.{files_below};
ghost use Rattle.desk_graph.specs.Graphs.{graph_of};
ghost use Rattle.desk_ledger.specs.Ledger.{NoneWaits, with_header};
ghost use Rattle.desk_rename.specs.Images.{cls};
ghost use Rattle.desk_report.specs.declared.status.Status.TheVariants.{Done};
ghost use Rattle.desk_intake.specs.Standing.{names_answer};
ghost use Rattle.desk_run.specs.Answers.{first_answer, other_run};
ghost use Rattle.desk_run.specs.Endings.{Committed, HasCauses, HasGathered, IsSilent, IsTold, IsWritten, Named, Reported, ReportedOf, StandsAfter, Tells, WhereTold, is_final};
ghost use Rattle.desk_run.specs.GeneratedSql.{Completes, TellsLedger};
ghost use Rattle.desk_run.specs.Halts.{HaltsPlan, NamedAtPlan};
ghost use Rattle.desk_run.specs.Meaning.{finds_in, header_of, run_of_asked};
ghost use Rattle.desk_run.specs.Asked.{asked_roots};
ghost use Rattle.desk_intake.specs.Routes.{IsRelativeRoute};
ghost use Rattle.desk_batches.specs.Details.{bare, image_notes, notes_in};
ghost use Rattle.desk_run.specs.Notes.{measured_in, planned_by};
ghost use Rattle.desk_run.specs.Reports.{ending_by, report_by, summary_by, summary_of};
ghost use Rattle.desk_run.specs.Stops.{CommittedBehind, StopsAt};
ghost use Rattle.desk_run.specs.Truth.{IsOurs};
ghost use Rattle.desk_readings.specs.Noting.{IsWithin};
ghost use Rattle.desk_words.specs.Roots.{AreRoots};

use crate::gather::{Gathered, gather};
use crate::opening::{make_header, open_ledger};
use crate::planning::plan_files;
use crate::report::{has_refused, summary_of, write_report};
use crate::stops::{status_of_halt, status_of_stop};
use desk_batches::{Migration, Outcome, PlannedFile, Stopped, with_image_notes, write_all};
use desk_folders::Folders;
use desk_graph::ClassGraph;
use desk_intake::{DigestedRules, Halt, build_graph};
use desk_ledger::Keeper;
use desk_readings::MeasuredFiles;
use desk_report::{Sink, Status, Summary};
use desk_words::Roots;
use desk_workers::{Gate, Workers};
use std::alloc::Global;
use std::thread::Threads;

/// What a run is about to do: the graph of its classes, and what is known of its files.
#[derive(Drop)]
pub struct Prepared<'r> {
    /// The names of the application's classes with their images.
    pub graph: ClassGraph<'r>,
    /// Each file of the source with what is to be done with it, in byte order of their paths.
    pub planned: Vec<PlannedFile>,
}

/// Looks at the names of the classes, opens the ledger and looks up what is to be done with each file.
fn plan<'r, F: Folders, K: Keeper>(
    alloc: Global,
    folders: &mut F,
    keeper: &mut K,
    names: &Roots,
    ruled: &'r DigestedRules,
    notes: MeasuredFiles,
) -> Result<Prepared<'r>, Halt>
    requires roots { AreRoots names.now }
    requires few { length notes.scanned.items < 2 ^ 32 }
    requires relative { All (λ file. IsRelativeRoute file.route) notes.files.items }
    requires within { All IsWithin notes.files.items }
    ensures graph { IfOk result (λ p. p.graph ≡ graph_of ruled.entry.now.rules notes.scanned.items) }
    ensures told { F.told folders.new ≡ F.told folders.old }
    ensures planned { IfOk result (λ p. WhereTold (F.told folders.old) (K.told keeper.old) (λ m l. map bare p.planned.items ≡ map (planned_by (finds_in names.now m) l.rows) notes.files.items)) }
    ensures images { IfOk result (λ p. notes_in p.planned.items ≡ image_notes (map (λ file. file.class) notes.files.items) p.graph.link_counts) }
    ensures sound { IfOk result (λ p. All IsSound p.planned.items) }
    ensures measured { IfOk result (λ p. map measured_in p.planned.items ≡ notes.files.items) }
    ensures ledger { OnOk result (K.told keeper.new ≡ option_map (with_header (header_of names.now ruled.entry.now)) (K.told keeper.old)) }
    ensures ours { OnOk result (IfSome (K.told keeper.old) (λ l. IsOurs (header_of names.now ruled.entry.now) l.header)) }
    ensures other { OnOk result (IfSome (K.told keeper.old) (λ l. other_run (header_of names.now ruled.entry.now) l.header ≡ None)) }
    ensures attached { OnOk result (K.attached keeper.new ≡ Some names.now.ledger) }
    ensures clear { OnOk result (names_answer (cls ruled.entry.now.rules.renames) notes.scanned.items ≡ None) }
    ensures named { IfErr result (NamedAtPlan (K.attached keeper.old) (K.attached keeper.new) names.now.ledger) }
    ensures err { IfErr result (HaltsPlan (names_answer (cls ruled.entry.now.rules.renames) notes.scanned.items) (header_of names.now ruled.entry.now) (K.told keeper.old) (K.told keeper.new) (F.faults folders.old) (F.faults folders.new) (K.faults keeper.old) (K.faults keeper.new)) }
    ensures counts_f { F.faults folders.old ≤ F.faults folders.new }
    ensures counts { K.faults keeper.old ≤ K.faults keeper.new }
{
    let MeasuredFiles { files, scanned } = notes;
    let graph = build_graph(alloc, &ruled.rules, scanned)?;
    let header = make_header(names, ruled)?;
    open_ledger(keeper, &names.ledger, &header)?;
    let planned = plan_files(alloc, folders, keeper, names, files)?;
    let planned = with_image_notes(planned, graph.link_counts());
    Ok(Prepared { graph, planned })
}

/// How many files were done, of so many.
fn done_of(written: &Result<Vec<Outcome>, Stopped>, all: usize) -> usize
    ensures all { OnOk written.now (result ≡ all) }
    ensures some { IfErr written.now (λ stopped. result ≡ stopped.done) }
{
    match written {
        Ok(_) => all,
        Err(stopped) => stopped.done,
    }
}

/// Writes the files in their order, and then, also behind a stop, the rows that wait: where these can't be
/// written, that is why the writing stopped.
fn write_and_commit<R: Threads + Sync, F: Folders, K: Keeper, G: Gate + Sync>(
    workers: &Workers<'_, R, G>,
    job: &Migration<'_>,
    folders: &mut F,
    keeper: &mut K,
    names: &Roots,
    planned: &[PlannedFile],
) -> Result<Vec<Outcome>, Stopped>
    requires roots { AreRoots names.now }
    requires few { length planned.now < 2 ^ 32 }
    requires attached { IsSome (K.attached keeper.old) }
    requires sound { All IsSound planned.now }
    requires routes { All (λ one. IsRouteBy job.now.graph.now.rules one.route) planned.now }
    requires notes { IfSome (F.told folders.old) (λ m. All (IsNoteOf names.now.from m) planned.now) }
    requires images { IfSome (F.told folders.old) (λ m. All (BecomesAsNoted (image_in job.now.graph.now.rules job.now.graph.now.defined) names.now.from m) planned.now) }
    ensures folders { OnOk result (IfSome (F.told folders.old) (λ m. F.told folders.new ≡ option_map (files_after names.now.to (works_in (image_in job.now.graph.now.rules job.now.graph.now.defined) names.now.from m planned.now)) (F.told folders.old))) }
    ensures ledger { OnOk result (IfSome (F.told folders.old) (λ m. K.told keeper.new ≡ option_map (ledger_after (works_in (image_in job.now.graph.now.rules job.now.graph.now.defined) names.now.from m planned.now)) (K.told keeper.old))) }
    ensures outcomes { IfOk result (λ outcomes. IfSome (F.told folders.old) (λ m. outcomes.items ≡ map outcome_of (works_in (image_in job.now.graph.now.rules job.now.graph.now.defined) names.now.from m planned.now))) }
    ensures length { IfOk result (λ outcomes. length outcomes.items ≡ length planned.now) }
    ensures within { IfErr result (λ stopped. stopped.done ≤ length planned.now) }
    ensures err { IfErr result (λ stopped. IfSome (F.told folders.old) (λ m. StopsAt stopped.why names.now.to (works_in (image_in job.now.graph.now.rules job.now.graph.now.defined) names.now.from m planned.now) stopped.done
        (F.told folders.old) (F.told folders.new) (K.told keeper.old) (K.told keeper.new))) }
    ensures written { OnOk result (NoneWaits (K.waiting keeper.new)) }
    ensures behind { IfErr result (λ stopped. CommittedBehind (K.waiting keeper.new) stopped.why) }
    ensures attached { K.attached keeper.new ≡ K.attached keeper.old }
    ensures counts_f { F.faults folders.old ≤ F.faults folders.new }
    ensures counts_k { K.faults keeper.old ≤ K.faults keeper.new }
    ensures cause { IfErr result (λ stopped. HasCause (F.told folders.old) stopped.why (F.faults folders.old) (F.faults folders.new) (K.faults keeper.old) (K.faults keeper.new)) }
{
    let written = write_all(workers, job, folders, keeper, names, planned);
    match keeper.commit() {
        Ok(()) => written,
        Err(fault) => Err(Stopped {
            why: fault.into(),
            done: done_of(&written, planned.len()),
        }),
    }
}

/// The files of a run that are done, and what became of each.
#[derive(Drop)]
pub struct Written {
    /// Each file of the source, in byte order of their paths.
    pub planned: Vec<PlannedFile>,
    /// What became of each, in the same order.
    pub outcomes: Vec<Outcome>,
}

/// Plans and writes what was gathered: what became of each file, or how the run ends before its report.
fn write_gathered<R: Threads + Sync, F: Folders, K: Keeper, G: Gate + Sync>(
    workers: &Workers<'_, R, G>,
    alloc: Global,
    folders: &mut F,
    keeper: &mut K,
    names: &Roots,
    gathered: Gathered,
) -> Result<Written, Status>
    requires roots { AreRoots names.now }
    requires gathered { HasGathered names.now (F.told folders.old) gathered }
    ensures written { IfOk result (λ w. WhereTold (F.told folders.old) (K.told keeper.old) (λ m0 l0. Tells (F.told folders.new) (K.told keeper.new) (λ m l. IsWritten (asked_roots names.now) m0 l0 m l w.planned.items w.outcomes.items))) }
    ensures few { IfOk result (λ w. length w.outcomes.items < 2 ^ 32) }
    ensures same { IfOk result (λ w. length w.planned.items ≡ length w.outcomes.items) }
    ensures committed { OnOk result (NoneWaits (K.waiting keeper.new)) }
    ensures attached { OnOk result (K.attached keeper.new ≡ Some names.now.ledger) }
    ensures stopped { IfErr result (λ s. WhereTold (F.told folders.old) (K.told keeper.old) (λ m0 l0. Tells (F.told folders.new) (K.told keeper.new) (λ m l. StandsAfter (asked_roots names.now) m0 l0 m l s))) }
    ensures first { IfErr result (λ s. WhereTold (F.told folders.old) (K.told keeper.old) (λ m l. is_final s ≡ true → s ≡ first_answer (asked_roots names.now) m l)) }
    ensures silent { IfErr result IsSilent }
    ensures named { IfErr result (Named (asked_roots names.now) (K.attached keeper.old) (K.attached keeper.new)) }
    ensures causes { IfErr result (λ s. HasCauses (asked_roots names.now) (F.told folders.old) s (F.faults folders.old) (F.faults folders.new) (K.faults keeper.old) (K.faults keeper.new) 0 0) }
    ensures counts_f { F.faults folders.old ≤ F.faults folders.new }
    ensures counts_k { K.faults keeper.old ≤ K.faults keeper.new }
{
    let Gathered { ruled, notes } = gathered;
    let Prepared { graph, planned } = match plan(alloc, folders, keeper, names, &ruled, notes) {
        Ok(prepared) => prepared,
        Err(halt) => return Err(status_of_halt(halt)),
    };
    let job = Migration::of(alloc, &graph);
    match write_and_commit(workers, &job, folders, keeper, names, &planned) {
        Ok(outcomes) => Ok(Written { planned, outcomes }),
        Err(stopped) => Err(status_of_stop(stopped.why, stopped.done as u32)),
    }
}

/// Reads the rules and files of roots, opens the ledger, and writes the files: what became of each, or how the run ends before
/// its report.
fn write_files<R: Threads + Sync, F: Folders, K: Keeper, G: Gate + Sync>(
    workers: &Workers<'_, R, G>,
    alloc: Global,
    folders: &mut F,
    keeper: &mut K,
    names: &Roots,
) -> Result<Written, Status>
    requires roots { AreRoots names.now }
    ensures written { IfOk result (λ w. WhereTold (F.told folders.old) (K.told keeper.old) (λ m0 l0. Tells (F.told folders.new) (K.told keeper.new) (λ m l. IsWritten (asked_roots names.now) m0 l0 m l w.planned.items w.outcomes.items))) }
    ensures few { IfOk result (λ w. length w.outcomes.items < 2 ^ 32) }
    ensures same { IfOk result (λ w. length w.planned.items ≡ length w.outcomes.items) }
    ensures committed { OnOk result (NoneWaits (K.waiting keeper.new)) }
    ensures attached { OnOk result (K.attached keeper.new ≡ Some names.now.ledger) }
    ensures stopped { IfErr result (λ s. WhereTold (F.told folders.old) (K.told keeper.old) (λ m0 l0. Tells (F.told folders.new) (K.told keeper.new) (λ m l. StandsAfter (asked_roots names.now) m0 l0 m l s))) }
    ensures first { IfErr result (λ s. WhereTold (F.told folders.old) (K.told keeper.old) (λ m l. is_final s ≡ true → s ≡ first_answer (asked_roots names.now) m l)) }
    ensures silent { IfErr result IsSilent }
    ensures named { IfErr result (Named (asked_roots names.now) (K.attached keeper.old) (K.attached keeper.new)) }
    ensures causes { IfErr result (λ s. HasCauses (asked_roots names.now) (F.told folders.old) s (F.faults folders.old) (F.faults folders.new) (K.faults keeper.old) (K.faults keeper.new) 0 0) }
    ensures counts_f { F.faults folders.old ≤ F.faults folders.new }
    ensures counts_k { K.faults keeper.old ≤ K.faults keeper.new }
{
    match gather(workers, alloc, folders, names) {
        Ok(gathered) => write_gathered(workers, alloc, folders, keeper, names, gathered),
        Err(halt) => Err(status_of_halt(halt)),
    }
}

/// Reports what became of the files.
fn tell<O: Sink>(out: &mut O, written: Written) -> Status
    requires few { length written.outcomes.items < 2 ^ 32 }
    requires same { length written.planned.items ≡ length written.outcomes.items }
    ensures output { Reported (report_by written.planned.items written.outcomes.items) (O.told out.old) (O.told out.new) result }
    ensures only { IsTold result }
    ensures ends { is_final result ≡ true → result ≡ ending_by written.outcomes.items }
    ensures cause { HasCauses (Err (λ m l. Done)) None result 0 0 0 0 (O.faults out.old) (O.faults out.new) }
    ensures counts { O.faults out.old ≤ O.faults out.new }
{
    let Written { planned, outcomes } = written;
    let refused = has_refused(&outcomes);
    match write_report(out, planned, &outcomes) {
        Ok(()) if refused => Status::Refusals,
        Ok(()) => Status::Done,
        Err(_) => Status::OutputFault,
    }
}

/// A run over roots up to its end, without the line of a fault.
pub(crate) fn run<R: Threads + Sync, F: Folders, K: Keeper, O: Sink, G: Gate + Sync>(
    workers: &Workers<'_, R, G>,
    alloc: Global,
    names: &Roots,
    folders: &mut F,
    keeper: &mut K,
    out: &mut O,
) -> Status
    requires roots { AreRoots names.now }
    ensures stands { WhereTold (F.told folders.old) (K.told keeper.old) (λ m0 l0. Tells (F.told folders.new) (K.told keeper.new) (λ m l. StandsAfter (asked_roots names.now) m0 l0 m l result)) }
    ensures first { WhereTold (F.told folders.old) (K.told keeper.old) (λ m l. is_final result ≡ true → result ≡ first_answer (asked_roots names.now) m l) }
    ensures output { ReportedOf (asked_roots names.now) (F.told folders.old) (K.told keeper.old) (O.told out.old) (O.told out.new) result }
    ensures named { Named (asked_roots names.now) (K.attached keeper.old) (K.attached keeper.new) result }
    ensures committed { Committed (K.waiting keeper.new) result }
    ensures causes { HasCauses (asked_roots names.now) (F.told folders.old) result (F.faults folders.old) (F.faults folders.new) (K.faults keeper.old) (K.faults keeper.new) (O.faults out.old) (O.faults out.new) }
    ensures counts_f { F.faults folders.old ≤ F.faults folders.new }
    ensures counts_k { K.faults keeper.old ≤ K.faults keeper.new }
    ensures counts_o { O.faults out.old ≤ O.faults out.new }
{
    match write_files(workers, alloc, folders, keeper, names) {
        Ok(written) => tell(out, written),
        Err(status) => status,
    }
}

/// The totals of a run over roots that completes, or how it ends before its report.
pub(crate) fn totals_of_run<R: Threads + Sync, F: Folders, K: Keeper, G: Gate + Sync>(
    workers: &Workers<'_, R, G>,
    alloc: Global,
    names: &Roots,
    folders: &mut F,
    keeper: &mut K,
) -> Result<Summary, Status>
    requires roots { AreRoots names.now }
    ensures totals { IfOk result (λ totals. WhereTold (F.told folders.old) (K.told keeper.old) (λ m l. IsOkAnd (run_of_asked (asked_roots names.now) m) (λ run. totals ≡ summary_of run l.rows (files_below run.from m)))) }
    ensures completes { IfOk result (λ totals. WhereTold (F.told folders.old) (K.told keeper.old) (λ m0 l0. TellsLedger (K.told keeper.new) (λ l. Completes (asked_roots names.now) m0 l0 l (λ t. totals ≡ t)))) }
    ensures stopped { IfErr result (λ s. WhereTold (F.told folders.old) (K.told keeper.old) (λ m0 l0. Tells (F.told folders.new) (K.told keeper.new) (λ m l. StandsAfter (asked_roots names.now) m0 l0 m l s))) }
    ensures first { IfErr result (λ s. WhereTold (F.told folders.old) (K.told keeper.old) (λ m l. is_final s ≡ true → s ≡ first_answer (asked_roots names.now) m l)) }
    ensures causes { IfErr result (λ s. HasCauses (asked_roots names.now) (F.told folders.old) s (F.faults folders.old) (F.faults folders.new) (K.faults keeper.old) (K.faults keeper.new) 0 0) }
    ensures counts_k { K.faults keeper.old ≤ K.faults keeper.new }
{
    match write_files(workers, alloc, folders, keeper, names) {
        Ok(written) => Ok(summary_of(&written.outcomes)),
        Err(status) => Err(status),
    }
}

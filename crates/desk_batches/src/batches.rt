//! Takes the files in batches, each of which is read once more, migrated and written.

ghost use Rattle.std.specs.Prelude.{All, ◌≡◌, ◌≢◌, ◌⊎◌, ◌≤◌, ◌<◌, ◌^◌, ◌+◌, ◌++◌, ◌∷◌, [], true, vec_len, vec_capacity, slice_get, option_map, Some, None, Ok, Err, OnOk, OnErr, IfOk, IfErr, IfSome, IsSome, IsTrue, drop, length, map, take};
ghost use Rattle.std.specs.List.{slice_range, sum_by};
ghost use Rattle.desk_base.specs.Limits.{file_size};
ghost use Rattle.desk_file.specs.Linked.{image_in};
ghost use Rattle.desk_file.specs.Routes.{IsRouteBy};
ghost use Rattle.desk_batches.specs.Notes.{IsNoteOf, IsSound, BecomesAsNoted};
ghost use Rattle.desk_batches.specs.Stops.{HasCause, StoppedAt};
ghost use Rattle.desk_batches.specs.Fresh.{IsNotKept, StopsAtFresh};
ghost use Rattle.desk_batches.specs.Turns.{SourceStays, fitting, image_here, migrated, outcome_of, weight_of, works_in};
ghost use Rattle.desk_batches.specs.Works.{files_after, ledger_after};
ghost use Rattle.desk_batches.specs.declared.stops.Stop.TheVariants as stop;
ghost use Rattle.desk_words.specs.Roots.{IsPathRoot, RootsApart};

use crate::cutting::batch_end;
use crate::images::images_of_batch;
use crate::migrating::Migration;
use crate::planned::{Action, Outcome, PlannedFile};
use crate::stops::Stop;
use crate::writing::write_planned;
use desk_folders::Folders;
use desk_ledger::Keeper;
use desk_words::Roots;
use desk_workers::{Gate, Workers};
use std::alloc::Global;
use std::thread::Threads;

/// Why the writing stopped, and how many files were done before.
#[derive(Debug, Drop)]
pub struct Stopped {
    /// Why it stopped.
    pub why: Stop,
    /// How many files stand before the one at which it stopped, or before the first of a batch that isn't kept, where its
    /// second reading stopped.
    pub done: usize,
}

/// The place of the image behind a file that had this place.
fn behind(next: usize, file: &PlannedFile) -> usize
    requires { next + 1 < 2 ^ 64 }
    ensures count { result ≡ next + length (migrated (file.now ∷ [])) }
    ensures bound { result ≤ next + 1 }
{
    if file.action.is_migrated() {
        next + 1
    } else {
        next
    }
}

/// How many files at the head of a batch are kept, of which the last file of the batch is none.
fn kept_at_head(batch: &[PlannedFile]) -> usize
    requires { 0 < length batch.now }
    ensures inside { result < length batch.now }
    ensures kept { All (λ file. file.action ≡ Action.Keep) (take result batch.now) }
    ensures next { result + 1 < length batch.now → IfSome (slice_get batch.now result) IsNotKept }
{
    let mut kept = 0;
    while kept + 1 < batch.len() && batch[kept].action == Action::Keep {
        kept += 1;
    }
    kept
}

/// Room for what becomes of these files. The only error is want of memory, before the first of them.
fn outcomes_for(alloc: Global, files: &[PlannedFile]) -> Result<Vec<Outcome>, Stopped>
    ensures none { IfOk result (λ outcomes. outcomes.items ≡ []) }
    ensures empty { IfOk result (λ outcomes. vec_len outcomes ≡ 0) }
    ensures room { IfOk result (λ outcomes. length files.now ≤ vec_capacity outcomes) }
    ensures err { IfErr result (λ stopped. (stopped.why ≡ stop.Memory) × (stopped.done ≡ 0)) }
    ensures some { OnErr result (0 < length files.now) }
{
    match Vec::with_capacity(alloc, files.len()) {
        Ok(outcomes) => Ok(outcomes),
        Err(_) => Err(Stopped {
            why: Stop::Memory,
            done: 0,
        }),
    }
}

/// Reads the whole files of a batch for the second time, migrates them, and writes the files of the batch: what became of each.
fn write_batch<R: Threads + Sync, F: Folders, K: Keeper, G: Gate + Sync>(
    workers: &Workers<'_, R, G>,
    job: &Migration<'_>,
    folders: &mut F,
    keeper: &mut K,
    roots: &Roots,
    batch: &[PlannedFile],
) -> Result<Vec<Outcome>, Stopped>
    requires begins { 0 < length batch.now }
    requires few { length batch.now < 2 ^ 32 }
    requires attached { IsSome (K.attached keeper.old) }
    requires root { IsPathRoot roots.now.to }
    requires apart { RootsApart roots.now.from roots.now.to }
    requires sound { All IsSound batch.now }
    requires routes { All (λ file. IsRouteBy job.now.graph.now.rules file.route) batch.now }
    requires notes { IfSome (F.told folders.old) (λ m. All (IsNoteOf roots.now.from m) batch.now) }
    requires stays { IfSome (F.told folders.old) (λ m. All (BecomesAsNoted (image_in job.now.graph.now.rules job.now.graph.now.defined) roots.now.from m) batch.now) }
    ensures folders { OnOk result (IfSome (F.told folders.old) (λ m. F.told folders.new ≡ option_map (files_after roots.now.to (works_in (image_in job.now.graph.now.rules job.now.graph.now.defined) roots.now.from m batch.now)) (F.told folders.old))) }
    ensures ledger { OnOk result (IfSome (F.told folders.old) (λ m. K.told keeper.new ≡ option_map (ledger_after (works_in (image_in job.now.graph.now.rules job.now.graph.now.defined) roots.now.from m batch.now)) (K.told keeper.old))) }
    ensures outcomes { IfOk result (λ outcomes. IfSome (F.told folders.old) (λ m. outcomes.items ≡ map outcome_of (works_in (image_in job.now.graph.now.rules job.now.graph.now.defined) roots.now.from m batch.now))) }
    ensures length { IfOk result (λ outcomes. vec_len outcomes ≡ length batch.now) }
    ensures err { IfErr result (λ stopped. IfSome (F.told folders.old) (λ m. StoppedAt roots.now.to (works_in (image_in job.now.graph.now.rules job.now.graph.now.defined) roots.now.from m batch.now) stopped.done (F.told folders.old) (F.told folders.new) (K.told keeper.old) (K.told keeper.new))) }
    ensures within { IfErr result (λ stopped. stopped.done < length batch.now) }
    ensures fresh { IfErr result (λ stopped. StopsAtFresh batch.now stopped.done stopped.why) }
    ensures stays { SourceStays roots.now.from (F.told folders.old) (F.told folders.new) }
    ensures attached { K.attached keeper.new ≡ K.attached keeper.old }
    ensures counts_f { F.faults folders.old ≤ F.faults folders.new }
    ensures counts_k { K.faults keeper.old ≤ K.faults keeper.new }
    ensures cause { IfErr result (λ stopped. HasCause (F.told folders.old) stopped.why (F.faults folders.old) (F.faults folders.new) (K.faults keeper.old) (K.faults keeper.new)) }
{
    let mut outcomes = outcomes_for(job.alloc, batch)?;
    let made = match images_of_batch(workers, job, folders, &roots.from, batch) {
        Ok(made) => made,
        Err(why) => {
            return Err(Stopped {
                why,
                done: kept_at_head(batch),
            });
        }
    };
    let images = made.as_slice();
    let mut next = 0;
    for (i, file) in batch.iter().enumerate() {
        match write_planned(job.alloc, folders, keeper, roots, file, images.get(next)) {
            Ok(outcome) => outcomes.push_reserved(outcome),
            Err(why) => return Err(Stopped { why, done: i }),
        }
        next = behind(next, file);
    }
    Ok(outcomes)
}

/// Takes the files in their order, in batches whose whole files have at most 67,108,864 bytes together; each batch takes as many
/// files as fit. The whole files of a batch are read again, and migrated by the workers. Then, for each file of the batch in
/// order that has an image, its row is forgotten if one was found, its image is written to its target, and its row is put; any
/// other file is copied in parts as it is read again. Where the digest of a file differs from the one that was noted, the answer
/// is `Moved`: this never comes where the folders tell their contents.
pub fn write_all<R: Threads + Sync, F: Folders, K: Keeper, G: Gate + Sync>(
    workers: &Workers<'_, R, G>,
    job: &Migration<'_>,
    folders: &mut F,
    keeper: &mut K,
    roots: &Roots,
    planned: &[PlannedFile],
) -> Result<Vec<Outcome>, Stopped>
    requires few { length planned.now < 2 ^ 32 }
    requires attached { IsSome (K.attached keeper.old) }
    requires root { IsPathRoot roots.now.to }
    requires apart { RootsApart roots.now.from roots.now.to }
    requires sound { All IsSound planned.now }
    requires routes { All (λ file. IsRouteBy job.now.graph.now.rules file.route) planned.now }
    requires notes { IfSome (F.told folders.old) (λ m. All (IsNoteOf roots.now.from m) planned.now) }
    requires stays { IfSome (F.told folders.old) (λ m. All (BecomesAsNoted (image_in job.now.graph.now.rules job.now.graph.now.defined) roots.now.from m) planned.now) }
    ensures folders { OnOk result (IfSome (F.told folders.old) (λ m. F.told folders.new ≡ option_map (files_after roots.now.to (works_in (image_in job.now.graph.now.rules job.now.graph.now.defined) roots.now.from m planned.now)) (F.told folders.old))) }
    ensures ledger { OnOk result (IfSome (F.told folders.old) (λ m. K.told keeper.new ≡ option_map (ledger_after (works_in (image_in job.now.graph.now.rules job.now.graph.now.defined) roots.now.from m planned.now)) (K.told keeper.old))) }
    ensures outcomes { IfOk result (λ outcomes. IfSome (F.told folders.old) (λ m. outcomes.items ≡ map outcome_of (works_in (image_in job.now.graph.now.rules job.now.graph.now.defined) roots.now.from m planned.now))) }
    ensures length { IfOk result (λ outcomes. length outcomes.items ≡ length planned.now) }
    ensures within { IfErr result (λ stopped. stopped.done ≤ length planned.now) }
    ensures fresh { IfErr result (λ stopped. StopsAtFresh planned.now stopped.done stopped.why) }
    ensures err { IfErr result (λ stopped. IfSome (F.told folders.old) (λ m. StoppedAt roots.now.to (works_in (image_in job.now.graph.now.rules job.now.graph.now.defined) roots.now.from m planned.now) stopped.done (F.told folders.old) (F.told folders.new) (K.told keeper.old) (K.told keeper.new))) }
    ensures stays { SourceStays roots.now.from (F.told folders.old) (F.told folders.new) }
    ensures attached { K.attached keeper.new ≡ K.attached keeper.old }
    ensures counts_f { F.faults folders.old ≤ F.faults folders.new }
    ensures counts_k { K.faults keeper.old ≤ K.faults keeper.new }
    ensures cause { IfErr result (λ stopped. HasCause (F.told folders.old) stopped.why (F.faults folders.old) (F.faults folders.new) (K.faults keeper.old) (K.faults keeper.new)) }
{
    let mut outcomes = outcomes_for(job.alloc, planned)?;
    let mut at = 0;
    while at < planned.len() {
        let end = batch_end(planned, at);
        match write_batch(workers, job, folders, keeper, roots, &planned[at..end]) {
            Ok(mut more) => {
                outcomes.append(&mut more).unwrap();
                at = end;
            }
            Err(stopped) => {
                return Err(Stopped {
                    why: stopped.why,
                    done: at + stopped.done,
                });
            }
        }
    }
    Ok(outcomes)
}

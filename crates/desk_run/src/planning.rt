//! Looks up what is to be done with each file.

ghost use Rattle.std.specs.Prelude.{All, ◌≡◌, ◌≤◌, true, Err, IfOk, IfSome, IfErr, IsSome, is_some, length, map, not, option_map, take};
ghost use Rattle.std.specs.FinMap as fin;
ghost use Rattle.desk_base.specs.Counts.{Rose};
ghost use Rattle.desk_base.specs.Paths.{full, is_relative_path};
ghost use Rattle.desk_batches.specs.Notes.{IsSound};
ghost use Rattle.desk_readings.specs.Noting.{IsWithin};
ghost use Rattle.desk_file.specs.Treatments.{is_copy};
ghost use Rattle.desk_ledger.specs.Ledger.{held_in};
ghost use Rattle.desk_run.specs.Endings.{WhereTold};
ghost use Rattle.desk_run.specs.Halts.{HaltsPlanning};
ghost use Rattle.desk_run.specs.Meaning.{finds_in};
ghost use Rattle.desk_intake.specs.Routes.{IsRelativeRoute};
ghost use Rattle.desk_run.specs.Notes.{action_by, measured_in, planned_by};
ghost use Rattle.desk_run.specs.Runs.{has_output, is_candidate, is_kept};
ghost use Rattle.desk_words.specs.Roots.{AreRoots, IsPathRoot};

use desk_base::Text;
use desk_batches::{Action, ImageNote, PlannedFile};
use desk_folders::{FolderFault, Folders};
use desk_intake::Halt;
use desk_ledger::{Digest, Keeper, Row};
use desk_readings::{MeasuredFile, digest_of_front, full_path};
use desk_words::Roots;
use std::alloc::Global;

/// Whether a row is of a file with this path and digest.
fn is_of_file(row: &Row, path: &Text, digest: &Digest) -> bool
    ensures { result ≡ is_candidate (held_in row.now) path.now digest.now.0 }
{
    row.source == *path && row.digest == *digest
}

/// Whether the target of a row holds bytes with the digest that the row has for its output.
fn holds_output<F: Folders>(
    alloc: Global,
    folders: &mut F,
    to: &Text,
    target: &Text,
    output: Option<Digest>,
) -> Result<bool, FolderFault>
    requires root { IsPathRoot to.now }
    requires relative { is_relative_path target.now ≡ true }
    ensures told { F.told folders.new ≡ F.told folders.old }
    ensures holds { IfOk result (λ holds. IfSome (F.told folders.old) (λ m. holds ≡ has_output (fin.get m (full to.now target.now)) output)) }
    ensures counts { F.faults folders.old ≤ F.faults folders.new }
    ensures failed { result ≡ Err FolderFault.Failed → Rose (F.faults folders.old) (F.faults folders.new) }
{
    let Some(output) = output else {
        return Ok(false);
    };
    let path = full_path(alloc, to, target)?;
    let Some(size) = folders.size(&path)? else {
        return Ok(false);
    };
    let found = digest_of_front(folders, &path, size)?;
    Ok(found == output)
}

/// Whether a file is kept by the row at its target. A run that verifies looks at the target.
fn keeps<F: Folders>(
    alloc: Global,
    folders: &mut F,
    roots: &Roots,
    row: &Option<Row>,
    file: &MeasuredFile,
) -> Result<bool, FolderFault>
    requires roots { AreRoots roots.now }
    requires relative { IsRelativeRoute file.now.route }
    ensures told { F.told folders.new ≡ F.told folders.old }
    ensures kept { IfOk result (λ kept. IfSome (F.told folders.old) (λ m. kept ≡ is_kept (finds_in roots.now m file.now.route.target) (option_map held_in row.now) file.now.route.path file.now.digest.0)) }
    ensures counts { F.faults folders.old ≤ F.faults folders.new }
    ensures failed { result ≡ Err FolderFault.Failed → Rose (F.faults folders.old) (F.faults folders.new) }
{
    match row {
        Some(row) if is_of_file(row, &file.route.path, &file.digest) => {
            if roots.verify {
                holds_output(alloc, folders, &roots.to, &file.route.target, row.output)
            } else {
                Ok(true)
            }
        }
        _ => Ok(false),
    }
}

/// What is done with a file that is kept or not, where the ledger has a row of its target or not.
fn action_of(kept: bool, found: bool, file: &MeasuredFile) -> Action
    ensures { result ≡ action_by kept (not (is_copy file.now.route.treatment)) found }
{
    if kept {
        return Action::Keep;
    }
    if file.route.treatment.is_whole() {
        Action::Migrate { found }
    } else {
        Action::Copy { found }
    }
}

/// What is to be done with one file.
#[tactic(auto, using(crate::proofs::Measures::is_sound))]
fn plan_file<F: Folders, K: Keeper>(
    alloc: Global,
    folders: &mut F,
    keeper: &mut K,
    roots: &Roots,
    file: MeasuredFile,
) -> Result<PlannedFile, Halt>
    requires attached { IsSome (K.attached keeper.old) }
    requires roots { AreRoots roots.now }
    requires relative { IsRelativeRoute file.route }
    requires within { IsWithin file }
    ensures told_f { F.told folders.new ≡ F.told folders.old }
    ensures told { K.told keeper.new ≡ K.told keeper.old }
    ensures planned { IfOk result (λ planned. WhereTold (F.told folders.old) (K.told keeper.old) (λ m l. planned ≡ planned_by (finds_in roots.now m) l.rows file)) }
    ensures sound { IfOk result IsSound }
    ensures measured { IfOk result (λ planned. measured_in planned ≡ file) }
    ensures attached { K.attached keeper.new ≡ K.attached keeper.old }
    ensures err { IfErr result (HaltsPlanning (F.faults folders.old) (F.faults folders.new) (K.faults keeper.old) (K.faults keeper.new)) }
    ensures counts_f { F.faults folders.old ≤ F.faults folders.new }
    ensures counts { K.faults keeper.old ≤ K.faults keeper.new }
{
    let row = keeper.find(&file.route.target)?;
    let kept = keeps(alloc, folders, roots, &row, &file)?;
    let action = action_of(kept, row.is_some(), &file);
    let MeasuredFile {
        route,
        size,
        digest,
        class,
    } = file;
    Ok(PlannedFile {
        route,
        size,
        digest,
        class,
        image: ImageNote::Unknown,
        action,
    })
}

/// What is to be done with the files, in their order.
pub(crate) fn plan_files<F: Folders, K: Keeper>(
    alloc: Global,
    folders: &mut F,
    keeper: &mut K,
    roots: &Roots,
    files: Vec<MeasuredFile>,
) -> Result<Vec<PlannedFile>, Halt>
    requires attached { IsSome (K.attached keeper.old) }
    requires roots { AreRoots roots.now }
    requires relative { All (λ file. IsRelativeRoute file.route) files.items }
    requires within { All IsWithin files.items }
    ensures told_f { F.told folders.new ≡ F.told folders.old }
    ensures told { K.told keeper.new ≡ K.told keeper.old }
    ensures planned { IfOk result (λ planned. WhereTold (F.told folders.old) (K.told keeper.old) (λ m l. planned.items ≡ map (planned_by (finds_in roots.now m) l.rows) files.items)) }
    ensures sound { IfOk result (λ planned. All IsSound planned.items) }
    ensures measured { IfOk result (λ planned. map measured_in planned.items ≡ files.items) }
    ensures attached { K.attached keeper.new ≡ K.attached keeper.old }
    ensures err { IfErr result (HaltsPlanning (F.faults folders.old) (F.faults folders.new) (K.faults keeper.old) (K.faults keeper.new)) }
    ensures counts_f { F.faults folders.old ≤ F.faults folders.new }
    ensures counts { K.faults keeper.old ≤ K.faults keeper.new }
{
    let mut planned = Vec::new(alloc);
    for file in files {
        planned.push(plan_file(alloc, folders, keeper, roots, file)?)?;
    }
    Ok(planned)
}

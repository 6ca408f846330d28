//! Writes the report of a run.

ghost use Rattle.std.specs.Prelude.{◌≡◌, ◌≤◌, ◌<◌, ◌^◌, ◌++◌, OnOk, OnErr, length, count_by};
ghost use Rattle.std.specs.List.{list_any, sum_by};
ghost use Rattle.desk_base.specs.Counts.{Rose};
ghost use Rattle.desk_report.specs.Pieces.{Gathers};
ghost use Rattle.desk_report.specs.Texts.{line_text};
ghost use Rattle.desk_report.specs.Written.{WritesFront, writing};
ghost use Rattle.desk_run.specs.Reports.{added_texts, is_written, number_in, outcome_line, renamed_uses, report_by, summary_by, was_kept, was_refused};

use desk_batches::{Outcome, PlannedFile};
use desk_file::Route;
use desk_report::{
    Detail, ReportLine, Sink, SinkFault, Summary, WriteBuffer, flush, put_line, put_summary,
};

/// How many files were written.
fn count_written(outcomes: &[Outcome]) -> usize
    ensures { result ≡ count_by is_written outcomes.now }
{
    outcomes
        .iter()
        .filter(|outcome| matches!(outcome, Outcome::Written { .. }))
        .count()
}

/// How many files were kept.
fn count_kept(outcomes: &[Outcome]) -> usize
    ensures { result ≡ count_by was_kept outcomes.now }
{
    outcomes
        .iter()
        .filter(|outcome| matches!(outcome, Outcome::Kept))
        .count()
}

/// How many files were refused.
fn count_refused(outcomes: &[Outcome]) -> usize
    ensures { result ≡ count_by was_refused outcomes.now }
{
    outcomes
        .iter()
        .filter(|outcome| matches!(outcome, Outcome::Refused { .. }))
        .count()
}

/// Whether a file was refused.
pub(crate) fn has_refused(outcomes: &[Outcome]) -> bool
    ensures { result ≡ list_any was_refused outcomes.now }
{
    outcomes
        .iter()
        .any(|outcome| matches!(outcome, Outcome::Refused { .. }))
}

/// How many uses were renamed in a class that was written.
fn renamed_in(outcome: &Outcome) -> u32
    ensures { result ≡ number_in renamed_uses outcome.now }
{
    match outcome {
        Outcome::Written {
            detail: Detail::Class { renamed, .. },
        } => *renamed,
        _ => 0,
    }
}

/// How many texts were added to a class that was written.
fn added_in(outcome: &Outcome) -> u32
    ensures { result ≡ number_in added_texts outcome.now }
{
    match outcome {
        Outcome::Written {
            detail: Detail::Class { added, .. },
        } => *added,
        _ => 0,
    }
}

/// The sums over the classes that were written.
#[derive(Clone, Copy)]
struct ClassTotals {
    renamed: u64,
    added: u64,
}

/// How many uses were renamed, and how many texts added, in all classes that were written.
fn class_totals(outcomes: &[Outcome]) -> ClassTotals
    requires { length outcomes.now < 2 ^ 32 }
    ensures renamed { result.renamed ≡ sum_by (number_in renamed_uses) outcomes.now }
    ensures added { result.added ≡ sum_by (number_in added_texts) outcomes.now }
{
    let mut renamed = 0;
    let mut added = 0;
    for outcome in outcomes {
        renamed += u64::from(renamed_in(outcome));
        added += u64::from(added_in(outcome));
    }
    ClassTotals { renamed, added }
}

/// The totals of a run.
pub(crate) fn summary_of(outcomes: &[Outcome]) -> Summary
    requires { length outcomes.now < 2 ^ 32 }
    ensures { result ≡ summary_by outcomes.now }
{
    let ClassTotals { renamed, added } = class_totals(outcomes);
    Summary {
        files: outcomes.len() as u32,
        written: count_written(outcomes) as u32,
        kept: count_kept(outcomes) as u32,
        refused: count_refused(outcomes) as u32,
        renamed,
        added,
    }
}

/// The line of a file.
fn line_of(route: Route, outcome: Outcome) -> ReportLine
    ensures { line_text result ≡ outcome_line route.path route.target outcome }
{
    let Route { path, target, .. } = route;
    match outcome {
        Outcome::Kept => ReportLine::Kept { path, target },
        Outcome::Written { detail } => ReportLine::Written {
            path,
            target,
            detail,
        },
        Outcome::Refused { reason } => ReportLine::Refused { path, reason },
    }
}

/// Puts the line of a file behind what waits to be written.
fn put_outcome<O: Sink>(
    out: &mut O,
    waiting: &mut WriteBuffer,
    file: PlannedFile,
    outcome: Outcome,
) -> Result<(), SinkFault>
    ensures ok { OnOk result (Gathers (outcome_line file.route.path file.route.target outcome) waiting.old waiting.new (O.told out.old) (O.told out.new)) }
    ensures err { OnErr result (WritesFront (waiting.old ++ outcome_line file.route.path file.route.target outcome) (O.told out.old) (O.told out.new)) }
    ensures counts { O.faults out.old ≤ O.faults out.new }
    ensures failed { OnErr result (Rose (O.faults out.old) (O.faults out.new)) }
{
    put_line(&line_of(file.route, outcome), out, waiting)
}

/// Writes the report: one line a file, and the totals, as many bytes at once as wait together.
pub(crate) fn write_report<O: Sink>(
    out: &mut O,
    planned: Vec<PlannedFile>,
    outcomes: &[Outcome],
) -> Result<(), SinkFault>
    requires few { length outcomes.now < 2 ^ 32 }
    requires same { length planned.items ≡ length outcomes.now }
    ensures ok { OnOk result (O.told out.new ≡ writing (report_by planned.items outcomes.now) (O.told out.old)) }
    ensures err { OnErr result (WritesFront (report_by planned.items outcomes.now) (O.told out.old) (O.told out.new)) }
    ensures counts { O.faults out.old ≤ O.faults out.new }
    ensures failed { OnErr result (Rose (O.faults out.old) (O.faults out.new)) }
{
    let summary = summary_of(outcomes);
    let mut waiting = WriteBuffer::new();
    let mut place = 0;
    for file in planned {
        let outcome = outcomes[place];
        put_outcome(out, &mut waiting, file, outcome)?;
        place += 1;
    }
    put_summary(&summary, out, &mut waiting)?;
    flush(out, &mut waiting)
}

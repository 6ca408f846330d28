//! The comparison of two applications, from their roots to what is told.

ghost use Rattle.std.specs.Prelude.{All, ◌≡◌, ◌≤◌, Ok, IfErr, IfOk, IfSome, IsTrue};
ghost use Rattle.std.specs.Cmp.Lexicographic.{slice_cmp};
ghost use Rattle.std.specs.List.Sorted.{IsStrictlySortedBy};
ghost use Rattle.std.specs.Ordering.{nat_cmp};
ghost use Rattle.desk_base.specs.Paths.{is_root};
ghost use Rattle.desk_comparison.specs.Answers.{comparison, comparison_under};
ghost use Rattle.desk_comparison.specs.Halts.{HaltsComparing, HaltsTelling, IsEnd};
ghost use Rattle.desk_comparison.specs.Makings.{told_of};
ghost use Rattle.desk_compare.specs.Verdicts.{IsShort, paths_of};

use crate::MAX_BOTH;
use crate::images::{list_images, make_images};
use crate::made::Made;
use crate::noting::note_files;
use crate::reading::{read_other, read_source};
use crate::telling::{verdict_status, verdict_text};
use desk_base::{Memory, Text};
use desk_compare::compare;
use desk_folders::{Folders, GenFile};
use desk_intake::{Halt, build_graph, read_rule_set};
use desk_report::Status;
use desk_rules::RuleSet;
use desk_workers::{Gate, Workers};
use std::alloc::Global;
use std::thread::Threads;

/// What is told of two applications.
#[derive(Debug, Drop)]
pub struct Comparison {
    /// The line of the verdict; or the lines of the files that have no image, in byte order of their paths.
    pub text: Text,
    /// The status behind it: `Done` where both are the same, `Differs`, or `Refusals`.
    pub status: Status,
}

/// What is told of the images of an application and the files of another.
fn comparison_of<R: Threads + Sync, G: Gate + Sync>(
    workers: &Workers<'_, R, G>,
    alloc: Global,
    made: Made,
    others: &[GenFile],
) -> Result<Comparison, Memory>
    requires rising { IsStrictlySortedBy (slice_cmp nat_cmp) (paths_of others.now) }
    requires short { All IsShort others.now }
    ensures told { IfOk result (λ told. (told.text, told.status) ≡ told_of made others.now) }
    ensures ends { IfOk result (λ told. IsEnd told.status) }
{
    if made.refused {
        return Ok(Comparison {
            text: made.lines,
            status: Status::Refusals,
        });
    }
    let images = list_images(alloc, made.images)?;
    let verdict = compare(workers, alloc, &images, others)?;
    let text = verdict_text(alloc, others.len(), &verdict)?;
    Ok(Comparison {
        text,
        status: verdict_status(verdict),
    })
}

/// What is told of two applications by rules.
fn compare_under<R: Threads + Sync, F: Folders, G: Gate + Sync>(
    workers: &Workers<'_, R, G>,
    alloc: Global,
    folders: &mut F,
    rules: &RuleSet,
    from: &Text,
    other: &Text,
) -> Result<Comparison, Halt>
    requires from { IsTrue (is_root from.now) }
    requires other { IsTrue (is_root other.now) }
    ensures told { F.told folders.new ≡ F.told folders.old }
    ensures ok { IfOk result (λ found. IfSome (F.told folders.old) (λ m. comparison_under rules.now from.now other.now m ≡ Ok (found.text, found.status))) }
    ensures ends { IfOk result (λ found. IsEnd found.status) }
    ensures err { IfErr result (HaltsTelling (comparison_under rules.now from.now other.now) (F.told folders.old) (F.faults folders.old) (F.faults folders.new)) }
    ensures counts { F.faults folders.old ≤ F.faults folders.new }
{
    let mut room = MAX_BOTH;
    let source = read_source(alloc, folders, rules, from, &mut room)?;
    let noted = note_files(alloc, rules, source)?;
    let graph = build_graph(alloc, rules, noted.classes)?;
    let others = read_other(alloc, folders, other, &mut room)?;
    let made = make_images(alloc, &graph, noted.files)?;
    Ok(comparison_of(workers, alloc, made, &others)?)
}

/// Whether the application below one root is what the rules in a folder make of the application below another: the line
/// `same files=N` or `differs PATH WHAT`, or the lines of the files that have no image. A class is compared up to the order of its
/// constant pool, any other file by its bytes, and the least path in byte order is told.
///
/// The answer is `Limit` or `BadRules` of the rules; `Limit` of `Files`, `PathLength`, `FileSize` or `Both`, `PathClash`,
/// `NameClash` or `Stranded` of the application that is migrated; `Limit` of the other one; or `Limit` of `FileSize` with the
/// first file whose image has more than 67,108,864 bytes. The other halts are a fault of the folders and want of memory.
///
/// Both applications are in memory: a file has at most 67,108,864 bytes, and all files of both at most 1,073,741,824 together.
pub fn compare_applications<R: Threads + Sync, F: Folders, G: Gate + Sync>(
    workers: &Workers<'_, R, G>,
    alloc: Global,
    folders: &mut F,
    rules: &Text,
    from: &Text,
    other: &Text,
) -> Result<Comparison, Halt>
    requires rules { IsTrue (is_root rules.now) }
    requires from { IsTrue (is_root from.now) }
    requires other { IsTrue (is_root other.now) }
    ensures told { F.told folders.new ≡ F.told folders.old }
    ensures ok { IfOk result (λ found. IfSome (F.told folders.old) (λ m. comparison rules.now from.now other.now m ≡ Ok (found.text, found.status))) }
    ensures ends { IfOk result (λ found. IsEnd found.status) }
    ensures err { IfErr result (HaltsComparing rules.now from.now other.now (F.told folders.old) (F.faults folders.old) (F.faults folders.new)) }
    ensures counts { F.faults folders.old ≤ F.faults folders.new }
{
    let rules = read_rule_set(alloc, folders, rules)?;
    compare_under(workers, alloc, folders, &rules, from, other)
}

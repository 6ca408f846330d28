//! What is noted of a class before any file is written.

ghost use Rattle.std.specs.Prelude.{◌≡◌, ◌≤◌, Ok, IfOk, IfSome, length};
ghost use Rattle.desk_base.specs.Limits.{file_size};
ghost use Rattle.desk_format.specs.Classes.{Class, read_class};
ghost use Rattle.desk_file.specs.Classes.{class_image};
ghost use Rattle.desk_file.specs.ClassScans.{noted_as, noted_of, odd_as, odd_in, odd_of, scanned_as, scanned_in, unchanged_image};

use desk_base::{Memory, ReadFault, Text};
use desk_class::ClassView;
use desk_graph::{Scanned, scan};
use desk_rewrite::odd_if_unchanged;
use desk_rules::RuleSet;
use std::alloc::Global;

/// What is noted of a class before any file is written.
#[derive(Debug, Drop)]
pub struct NotedClass {
    /// What is kept of it for the graph of the application's classes.
    pub scanned: Scanned,
    /// Of a selected class in which nothing changes, how many of its uses of texts as signatures have an odd text; none of any
    /// other class.
    pub odd: Option<u32>,
}

/// How many uses of a class have an odd text, where it is selected and nothing in it changes.
fn odd_of(
    alloc: Global,
    rules: &RuleSet,
    selected: bool,
    view: &ClassView<'_>,
) -> Result<Option<u32>, Memory>
    ensures { IfOk result (λ odd. (c : Class) → read_class view.now ≡ Ok c → odd ≡ odd_of rules.now selected c) }
{
    if selected {
        odd_if_unchanged(alloc, rules, view)
    } else {
        Ok(None)
    }
}

/// What is noted of a class that was read, at a path, selected or not.
fn note_view(
    alloc: Global,
    rules: &RuleSet,
    path: &Text,
    selected: bool,
    view: &ClassView<'_>,
) -> Result<NotedClass, Memory>
    ensures { IfOk result (λ noted. (c : Class) → read_class view.now ≡ Ok c → noted ≡ noted_of rules.now path.now selected c) }
{
    let scanned = scan(alloc, path, selected, view)?;
    let odd = odd_of(alloc, rules, selected, view)?;
    Ok(NotedClass { scanned, odd })
}

/// What is noted of a class file of at most 67,108,864 bytes at a path, where it is selected or not: of a well-formed class what is
/// kept for the graph of the application's classes, and whether nothing in it changes; nothing of other bytes. A selected class in
/// which nothing changes has itself for its image. The only error is want of memory.
pub fn note_class(
    alloc: Global,
    rules: &RuleSet,
    path: &Text,
    selected: bool,
    bytes: &[u8],
) -> Result<Option<NotedClass>, Memory>
    requires { length bytes.now ≤ file_size }
    ensures noted { IfOk result (λ found. found ≡ noted_as rules.now path.now selected (read_class bytes.now)) }
    ensures scanned { IfOk result (λ found. scanned_in found ≡ scanned_as path.now selected (read_class bytes.now)) }
    ensures odd { IfOk result (λ found. odd_in found ≡ odd_as rules.now selected (read_class bytes.now)) }
    ensures image { IfOk result (λ found. IfSome (odd_in found) (λ odd. class_image rules.now bytes.now ≡ Ok (unchanged_image odd bytes.now))) }
{
    match ClassView::read(alloc, bytes) {
        Ok(view) => Ok(Some(note_view(alloc, rules, path, selected, &view)?)),
        Err(ReadFault::Malformed(_)) => Ok(None),
        Err(ReadFault::Memory) => Err(Memory),
    }
}

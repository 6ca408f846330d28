//! Two lists of files.

ghost use Rattle.std.specs.Prelude.{◌≡◌, ◌≤◌, ◌↔◌, false, true, All, IfOk, length};
ghost use Rattle.std.specs.List.Sorted.{IsStrictlySortedBy};
ghost use Rattle.std.specs.Ordering.{nat_cmp};
ghost use Rattle.std.specs.Cmp.Lexicographic.{slice_cmp};
ghost use Rattle.desk_base.specs.Limits.{file_size};
ghost use Rattle.desk_format.specs.Classes.{class_fault};
ghost use Rattle.desk_compare.specs.declared.files.Verdict.TheVariants as verdicts;
ghost use Rattle.desk_compare.specs.Verdicts.{paths_of, IsShort, AreSame, IfDiffers, IsLeastDifference, FindsDifference, holds_class, is_class, is_sound};
ghost use Rattle.desk_compare.specs.Deciding.{verdict_of};
ghost use Rattle.desk_paths.specs.Kinds.{kind_of};

use crate::ahead::Ahead;
use crate::classes::same_class;
use desk_base::{Memory, ReadFault, Text};
use desk_class::ClassView;
use desk_folders::GenFile;
use desk_paths::{Kind, place};
use desk_workers::{Gate, Workers};
use std::alloc::Global;
use std::cmp::Ordering;
use std::thread::Threads;

/// How two lists of files differ at a path. At most one of these stands at a path.
#[derive(Clone, Copy, Debug, PartialEq, Eq)]
pub enum What {
    /// Only the left list has the path.
    Missing,
    /// Only the right list has the path.
    Extra,
    /// The path isn't that of a class file or the left content isn't a well-formed class, and the bytes differ.
    Bytes,
    /// At the path of a class file the left content is a well-formed class, and the right one isn't.
    Malformed,
    /// At the path of a class file both contents are well-formed classes, which differ in more than the order of their constant
    /// pools, entries that stand twice in them, and entries that nothing names.
    Tree,
}

/// What two lists of files are to each other.
#[derive(Debug, Drop)]
pub enum Verdict {
    /// They have the same paths, and at each of them the same content, a class but for its constant pool.
    Same,
    /// They differ.
    Differs {
        /// The least path in byte order at which they differ.
        path: Text,
        /// How they differ there.
        what: What,
    },
}

/// Whether a path is that of a class file.
fn is_class(path: &[u8]) -> bool
    ensures { result ≡ is_class (kind_of path.now) }
{
    matches!(place(path).kind, Kind::Class)
}

/// How two contents differ that are compared by their bytes.
fn compare_bytes(left: &[u8], right: &[u8]) -> Option<What>
    ensures { FindsDifference false left.now right.now result }
{
    if left == right {
        None
    } else {
        Some(What::Bytes)
    }
}

/// How a well-formed class and another content differ. The only error is want of memory.
fn compare_class(alloc: Global, left: &ClassView<'_>, right: &[u8]) -> Result<Option<What>, Memory>
    requires { length right.now ≤ file_size }
    ensures { IfOk result (λ found. FindsDifference true left.now right.now found) }
{
    match ClassView::read(alloc, right) {
        Err(ReadFault::Memory) => Err(Memory),
        Err(ReadFault::Malformed(_)) => Ok(Some(What::Malformed)),
        Ok(right) => {
            if same_class(left, &right)? {
                Ok(None)
            } else {
                Ok(Some(What::Tree))
            }
        }
    }
}

/// How two contents at a path of a class file differ. The only error is want of memory.
fn compare_class_files(alloc: Global, left: &[u8], right: &[u8]) -> Result<Option<What>, Memory>
    requires left_short { length left.now ≤ file_size }
    requires right_short { length right.now ≤ file_size }
    ensures { IfOk result (λ found. FindsDifference (is_sound (class_fault left.now)) left.now right.now found) }
{
    match ClassView::read(alloc, left) {
        Err(ReadFault::Memory) => Err(Memory),
        Err(ReadFault::Malformed(_)) => Ok(compare_bytes(left, right)),
        Ok(left) => compare_class(alloc, &left, right),
    }
}

/// How two contents at a path differ. The same bytes are the same, and aren't read as classes. The only error is want of memory.
pub(crate) fn compare_contents(
    alloc: Global,
    path: &[u8],
    left: &[u8],
    right: &[u8],
) -> Result<Option<What>, Memory>
    requires left_short { length left.now ≤ file_size }
    requires right_short { length right.now ≤ file_size }
    ensures { IfOk result (λ found. FindsDifference (holds_class path.now left.now) left.now right.now found) }
{
    if left == right {
        return Ok(None);
    }
    if is_class(path) {
        compare_class_files(alloc, left, right)
    } else {
        Ok(compare_bytes(left, right))
    }
}

/// The verdict that the lists differ at the path of a file. The only error is want of memory.
fn differs(file: &GenFile, what: What) -> Result<Verdict, Memory>
    ensures { IfOk result (λ verdict. verdict ≡ verdicts.Differs file.now.path what) }
{
    let path = file.path.clone()?;
    Ok(Verdict::Differs { path, what })
}

/// Compares two lists of files, each in byte order of its paths, each path once. Two well-formed classes are the same where
/// nothing but their constant pools differs and each index leads to the same value, also those in code that reads to its end; any
/// other content is compared by its bytes. The workers compare the files of a batch, each of them two classes at a time, which are
/// in memory beside the lists; the verdict is the same for each number of them. The only error is want of memory.
pub fn compare<R: Threads + Sync, G: Gate + Sync>(
    workers: &Workers<'_, R, G>,
    alloc: Global,
    left: &[GenFile],
    right: &[GenFile],
) -> Result<Verdict, Memory>
    requires left_paths { IsStrictlySortedBy (slice_cmp nat_cmp) (paths_of left.now) }
    requires left_sizes { All IsShort left.now }
    requires right_paths { IsStrictlySortedBy (slice_cmp nat_cmp) (paths_of right.now) }
    requires right_sizes { All IsShort right.now }
    ensures same { IfOk result (λ verdict. (verdict ≡ verdicts.Same) ↔ AreSame left.now right.now) }
    ensures differs { IfOk result (λ verdict. IfDiffers verdict (IsLeastDifference left.now right.now)) }
    ensures exact { IfOk result (λ verdict. verdict ≡ verdict_of left.now right.now) }
{
    let mut one = left;
    let mut other = right;
    let mut ahead = Ahead::new(alloc);
    while let Some((a, ones)) = one.split_first() {
        let (b, others) = match other.split_first() {
            None => return differs(a, What::Missing),
            Some(both) => both,
        };
        match a.path.cmp(&b.path) {
            Ordering::Less => return differs(a, What::Missing),
            Ordering::Greater => return differs(b, What::Extra),
            Ordering::Equal => {}
        }
        if let Some(what) = ahead.next(workers, alloc, one, other)? {
            return differs(a, what);
        }
        one = ones;
        other = others;
    }
    match other.split_first() {
        None => Ok(Verdict::Same),
        Some((b, _)) => differs(b, What::Extra),
    }
}

//! Reads the classes of an application, and finds their sites.

ghost use Rattle.std.specs.Prelude.{◌≡◌, ◌≤◌, ◌<◌, ◌^◌, ◌∷◌, [], Err, Ok, OnOk, IfOk, IfErr, IfSome, IsSome, IsTrue, length, map};
ghost use Rattle.std.specs.FinMap as fin;
ghost use Rattle.desk_base.specs.Counts.{Rose};
ghost use Rattle.desk_base.specs.Limits.{file_size};
ghost use Rattle.desk_base.specs.Paths.{full, is_root};
ghost use Rattle.desk_folders.specs.Contents.{bytes_at, file_at, paths_below};
ghost use Rattle.desk_readings.specs.Sizes.{within};
ghost use Rattle.desk_calls.specs.Answers.{calls_answer};
ghost use Rattle.desk_calls.specs.Listings.{class_size_answer, is_class};
ghost use Rattle.desk_calls.specs.Reading.{HaltsAnswering, ReadsOne};
ghost use Rattle.desk_intake.specs.Halts.{HaltsAt};

use crate::WORKERS;
use crate::batches::{ClassFile, Finding};
use crate::telling::{Calls, calls_of};
use desk_base::{MAX_FILE_SIZE, Text, TextList};
use desk_folders::{FolderFault, Folders};
use desk_intake::{Halt, limit, list_paths};
use desk_paths::{Kind, place};
use desk_readings::{Content, full_path, read_whole};
use desk_report::LimitKind;
use desk_workers::{Gate, Workers};
use std::alloc::Global;
use std::thread::Threads;

/// Whether a path is that of a class file.
fn is_class(path: &Text) -> bool
    ensures { result ≡ is_class path.now }
{
    matches!(place(path.as_bytes()).kind, Kind::Class)
}

/// Reads a class file below a root; none where it has too many bytes.
fn read_class<F: Folders>(
    alloc: Global,
    folders: &mut F,
    from: &Text,
    path: &Text,
) -> Result<Option<Content>, FolderFault>
    requires { IfSome (F.told folders.old) (λ m. IsSome (fin.get m (full from.now path.now))) }
    ensures told { F.told folders.new ≡ F.told folders.old }
    ensures whole { IfOk result (λ bytes. IfSome (F.told folders.old) (λ m. bytes ≡ within file_size (bytes_at m (full from.now path.now)))) }
    ensures counts { F.faults folders.old ≤ F.faults folders.new }
    ensures failed { result ≡ Err FolderFault.Failed → Rose (F.faults folders.old) (F.faults folders.new) }
{
    let source = full_path(alloc, from, path)?;
    match read_whole(alloc, folders, &source, MAX_FILE_SIZE)? {
        Some(text) => Ok(Some(Content::new(text))),
        None => Ok(None),
    }
}

/// Reads the file at a path below a root where it is a class file: the answer is `Limit` where it has more than 67,108,864 bytes.
/// The other halts are a fault of the folders and want of memory.
fn read_file<F: Folders>(
    alloc: Global,
    folders: &mut F,
    from: &Text,
    path: Text,
) -> Result<Option<ClassFile>, Halt>
    requires { IfSome (F.told folders.old) (λ m. IsSome (fin.get m (full from.now path))) }
    ensures told { F.told folders.new ≡ F.told folders.old }
    ensures read { IfOk result (λ read. IfSome (F.told folders.old) (λ m. ReadsOne from.now m path read)) }
    ensures err { IfErr result (HaltsAt (λ m. class_size_answer (file_at from.now m path ∷ [])) (F.told folders.old) (F.faults folders.old) (F.faults folders.new)) }
    ensures counts { F.faults folders.old ≤ F.faults folders.new }
{
    if !is_class(&path) {
        return Ok(None);
    }
    match read_class(alloc, folders, from, &path)? {
        Some(bytes) => Ok(Some(ClassFile { path, bytes })),
        None => Err(limit(LimitKind::FileSize, path)),
    }
}

/// Where the classes below a root use members of the classes of a package, or of one below it: a line for each call site, in byte
/// order of the files' paths and by place, a line for each class that is refused, and the line of the totals. The answer is `Limit`
/// where there are more than 200,000 files, where a path has more than 1,024 bytes, with the first such path, or where a class file
/// has more than 67,108,864 bytes, with the first such file. The other halts are a fault of the folders and want of memory.
///
/// The classes are read in batches of at most 67,108,864 bytes, which the workers look at and which are dropped; what is kept are
/// the paths, and the lines of the classes until all are read.
pub fn find_calls<R: Threads + Sync, F: Folders, G: Gate + Sync>(
    rt: &R,
    alloc: Global,
    folders: &mut F,
    gate: &G,
    from: &Text,
    package: &TextList,
) -> Result<Calls, Halt>
    requires { IsTrue (is_root from.now) }
    ensures told { F.told folders.new ≡ F.told folders.old }
    ensures ok { IfOk result (λ calls. IfSome (F.told folders.old) (λ m. calls_answer «package».now from.now m ≡ Ok calls)) }
    ensures err { IfErr result (HaltsAnswering (calls_answer «package».now from.now) (F.told folders.old) (F.faults folders.old) (F.faults folders.new)) }
    ensures counts { F.faults folders.old ≤ F.faults folders.new }
{
    let workers = Workers {
        rt,
        gate,
        count: WORKERS,
    };
    let paths = list_paths(folders, from)?;
    let mut finding = Finding::new(alloc);
    for path in paths.into_vec() {
        let read = read_file(alloc, folders, from, path)?;
        finding.add(&workers, alloc, package, read)?;
    }
    let found = finding.finish(&workers, alloc, package)?;
    Ok(calls_of(alloc, found.as_slice())?)
}

//! The first reading of all files: each in parts, none of which is kept, but the classes, which are gathered in slices and
//! measured on the workers.

ghost use Rattle.std.specs.Prelude.{All, ◌≡◌, ◌≤◌, ◌<◌, ◌^◌, [], ◌∷◌, None, Err, IfErr, IfOk, IfSome, IsSome, length, map, option_map};
ghost use Rattle.std.specs.FinMap as fin;
ghost use Rattle.desk_base.specs.Counts.{Rose};
ghost use Rattle.desk_base.specs.Paths.{full};
ghost use Rattle.desk_folders.specs.Contents.{bytes_at};
ghost use Rattle.desk_format.specs.Laws.{IsBytes};
ghost use Rattle.desk_base.specs.Limits.{file_size};
ghost use Rattle.desk_readings.specs.Sizes.{found_within, large_size, within};
ghost use Rattle.desk_readings.specs.declared.pending.PendingContent.TheVariants.{Class, Parts};
ghost use Rattle.desk_readings.specs.Noting.{IsWithin, NoteFails, NotedTo, NotesOne, first_read};
ghost use Rattle.desk_readings.specs.Readings.{first_large, found_in, measured_by, most_by};

use crate::contents::Content;
use crate::faults::NoteFault;
use crate::gathering::MeasuredFiles;
use crate::measuring::FirstReading;
use crate::paths::full_path;
use crate::pending::{PendingContent, PendingFile};
use crate::reading::{read_first, read_whole};
use crate::unread::{Unread, read_slice};
use crate::{LARGE, WHOLE};
use desk_base::{MAX_FILE_SIZE, Text};
use desk_file::{Route, Treatment};
use desk_folders::{FolderFault, Folders};
use desk_rules::RuleSet;
use desk_workers::{Gate, Workers};
use std::alloc::Global;
use std::collections::VecDeque;
use std::thread::Threads;

/// How many bytes a file may have.
fn most_of(treatment: Treatment) -> u64
    ensures most { result ≡ most_by treatment }
    ensures within { result ≤ large_size }
{
    if treatment.is_whole() { WHOLE } else { LARGE }
}

/// A class that was read whole.
fn class_of(text: Text) -> PendingContent
    requires { length text ≤ file_size }
    ensures class { result ≡ Class text }
    ensures each { IsBytes text }
{
    let bytes = Content::new(text);
    // `as_bytes` says that they are bytes.
    let _all = bytes.as_bytes();
    PendingContent::Class(bytes)
}

/// Reads a class whole; none where it has too many bytes.
fn read_class<F: Folders>(
    alloc: Global,
    folders: &mut F,
    source: &Text,
) -> Result<Option<PendingContent>, FolderFault>
    requires there { IfSome (F.told folders.old) (λ m. IsSome (fin.get m source.now)) }
    ensures told { F.told folders.new ≡ F.told folders.old }
    ensures read { IfOk result (λ read. IfSome (F.told folders.old) (λ m. read ≡ option_map Class (within file_size (bytes_at m source.now)))) }
    ensures small { IfOk result (λ read. IfSome read (λ r. (found_in r).size ≤ file_size)) }
    ensures each { IfOk result (λ read. IfSome read (λ _. IfSome (F.told folders.old) (λ m. IsBytes (bytes_at m source.now)))) }
    ensures counts { F.faults folders.old ≤ F.faults folders.new }
    ensures failed { result ≡ Err FolderFault.Failed → Rose (F.faults folders.old) (F.faults folders.new) }
{
    match read_whole(alloc, folders, source, MAX_FILE_SIZE)? {
        Some(text) => Ok(Some(class_of(text))),
        None => Ok(None),
    }
}

/// Reads any other file in parts; none where it has too many bytes.
fn read_parts<F: Folders>(
    folders: &mut F,
    source: &Text,
    most: u64,
) -> Result<Option<PendingContent>, FolderFault>
    requires most { most ≤ large_size }
    requires there { IfSome (F.told folders.old) (λ m. IsSome (fin.get m source.now)) }
    ensures told { F.told folders.new ≡ F.told folders.old }
    ensures read { IfOk result (λ read. IfSome (F.told folders.old) (λ m. read ≡ option_map Parts (found_within most (bytes_at m source.now)))) }
    ensures small { IfOk result (λ read. IfSome read (λ r. (found_in r).size ≤ most)) }
    ensures each { IfOk result (λ read. IfSome read (λ _. IfSome (F.told folders.old) (λ m. IsBytes (bytes_at m source.now)))) }
    ensures counts { F.faults folders.old ≤ F.faults folders.new }
    ensures failed { result ≡ Err FolderFault.Failed → Rose (F.faults folders.old) (F.faults folders.new) }
{
    match read_first(folders, source, most)? {
        Some(found) => Ok(Some(PendingContent::Parts(found))),
        None => Ok(None),
    }
}

/// Reads one file for the first time; none where it has too many bytes.
fn read_route<F: Folders>(
    alloc: Global,
    folders: &mut F,
    from: &Text,
    route: &Route,
) -> Result<Option<PendingContent>, NoteFault>
    requires there { IfSome (F.told folders.old) (λ m. IsSome (fin.get m (full from.now route.now.path))) }
    ensures told { F.told folders.new ≡ F.told folders.old }
    ensures read { IfOk result (λ read. IfSome (F.told folders.old) (λ m. read ≡ first_read route.now (bytes_at m (full from.now route.now.path)))) }
    ensures small { IfOk result (λ read. IfSome read (λ r. (found_in r).size ≤ most_by route.now.treatment)) }
    ensures each { IfOk result (λ read. IfSome read (λ _. IfSome (F.told folders.old) (λ m. IsBytes (bytes_at m (full from.now route.now.path))))) }
    ensures counts { F.faults folders.old ≤ F.faults folders.new }
    ensures err { IfErr result (NoteFails (λ _. None) (F.told folders.old) (F.faults folders.old) (F.faults folders.new)) }
{
    let source = full_path(alloc, from, &route.path)?;
    let read = if route.treatment.is_class() {
        read_class(alloc, folders, &source)?
    } else {
        read_parts(folders, &source, most_of(route.treatment))?
    };
    Ok(read)
}

/// Reads one file for the first time.
pub(crate) fn note_one<F: Folders>(
    reading: &FirstReading<'_>,
    folders: &mut F,
    route: Route,
) -> Result<PendingFile, NoteFault>
    requires there { IfSome (F.told folders.old) (λ m. IsSome (fin.get m (full reading.now.from.now route.path))) }
    ensures told { F.told folders.new ≡ F.told folders.old }
    ensures one { IfOk result (λ pending. IfSome (F.told folders.old) (λ m. NotesOne reading.now.rules.now reading.now.from.now m route pending)) }
    ensures route { IfOk result (λ pending. pending.route ≡ route) }
    ensures within { IfOk result (λ pending. IsWithin (measured_by reading.now.rules.now pending)) }
    ensures counts { F.faults folders.old ≤ F.faults folders.new }
    ensures err { IfErr result (NoteFails (λ m. first_large reading.now.from.now m (route ∷ [])) (F.told folders.old) (F.faults folders.old) (F.faults folders.new)) }
{
    match read_route(reading.alloc, folders, reading.from, &route)? {
        Some(read) => Ok(PendingFile { route, read }),
        None => Err(NoteFault::TooLarge { path: route.path }),
    }
}

/// Reads all files in their order: how many bytes each has and their digest, whether it is a class in which the rules change nothing,
/// and what is kept of the classes among them for the graph. A file that is read whole has at most 67,108,864 bytes, any other at most
/// 1,099,511,627,776: the answer is `TooLarge` with the first that has more. The classes are gathered into slices, which end with the
/// class with which they have 8,388,608 bytes or more, and have at most 67,108,864; those of each are measured by these workers, while
/// this thread reads the next slice, and then dropped. No other file is kept. The other errors are a fault of the folders and want of
/// memory.
pub fn note_all<R: Threads + Sync, F: Folders, G: Gate + Sync>(
    workers: &Workers<'_, R, G>,
    alloc: Global,
    folders: &mut F,
    rules: &RuleSet,
    from: &Text,
    routes: Vec<Route>,
) -> Result<MeasuredFiles, NoteFault>
    requires few { length routes.items < 2 ^ 32 }
    requires there { IfSome (F.told folders.old) (λ m. All (λ route. IsSome (fin.get m (full from.now route.path))) routes.items) }
    ensures told { F.told folders.new ≡ F.told folders.old }
    ensures noted { IfOk result (λ notes. IfSome (F.told folders.old) (λ m. NotedTo rules.now from.now m routes.items notes.files.items notes.scanned.items)) }
    ensures routes { IfOk result (λ notes. map (λ file. file.route) notes.files.items ≡ routes.items) }
    ensures within { IfOk result (λ notes. All IsWithin notes.files.items) }
    ensures few { IfOk result (λ notes. length notes.scanned.items ≤ length routes.items) }
    ensures counts { F.faults folders.old ≤ F.faults folders.new }
    ensures err { IfErr result (NoteFails (λ m. first_large from.now m routes.items) (F.told folders.old) (F.faults folders.old) (F.faults folders.new)) }
{
    let mut unread = Unread {
        ahead: None,
        routes: VecDeque::from_vec(routes),
    };
    let reading = FirstReading { alloc, rules, from };
    let mut notes = MeasuredFiles::new(alloc);
    let mut slice = read_slice(&reading, folders, &mut unread)?;
    while !slice.is_empty() {
        slice = notes.add_and_read(workers, &reading, folders, &mut unread, slice)?;
    }
    Ok(notes)
}

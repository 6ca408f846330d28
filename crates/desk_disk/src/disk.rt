//! Folders on a disk.

ghost use Rattle.std.specs.Prelude.{◌≡◌, ◌≤◌, ◌+◌, ◌↔◌, length, None, Ok, Err, IsTrue, IfOk, IfSome, OnOk, option_map};
ghost use Rattle.std.specs.List.{list_all};
ghost use Rattle.std.specs.List.Sorted.{IsStrictlySortedBy};
ghost use Rattle.std.specs.Ordering.{nat_cmp};
ghost use Rattle.std.specs.Cmp.Lexicographic.{slice_cmp};
ghost use Rattle.desk_base.specs.Paths.{is_relative_path};
ghost use Rattle.desk_base.specs.Counts.{Rose};

use crate::guard::{known_end, last_folder, start_of};
use crate::open::{Reading, Writing, make_parents, size_of, text_of};
use crate::progress::Progress;
use crate::walk::{Below, Stopped, files_below, first_of};
use desk_base::{Text, TextList};
use desk_faults::{Fault, Refusal, Tried};
use desk_folders::{FolderFault, Folders};
use desk_places::{Apart, Node};
use std::marker::Model;

/// How many faults there were, and the last of them.
#[derive(Debug, Drop)]
pub struct Faults {
    /// How many calls failed so far.
    pub count: u64,
    /// What the last of them tried, and why it failed; none where memory for that was wanting.
    pub last: Option<Fault>,
}

/// Folders on a disk. They tell nothing. Each error counts as a fault, and so do a name that isn't UTF-8,
/// a path that isn't there but for its size, an entry that is neither a file nor a folder (a symbolic link isn't followed),
/// and a listing with more than 1,000,000 entries, folders included. The last fault is remembered, with what was
/// tried, on which path, and why it failed.
///
/// The file that is read, and the one that is written, stay open until another path is read or written, so that the next
/// part needs no look-up; both are closed where a file is created. What stands at a path that is read must be a file: a pipe there, or a device, is a fault and is not
/// waited for, and what is open must be the file that was found there. What stands at a path that is created is taken away and the file
/// is made anew: a link, a pipe or a device there is replaced, and never written through. A folder there is a fault, and so is a link in
/// place of a folder below the target that `keep_within` names, and below it a file that has another name on the disk, as on one that
/// takes upper and lower case for the same.
///
/// Where `keep_apart` says what is read and what is written, it is a fault, too, where one of the two is met in the other, as a folder is
/// that is mounted there: what is listed and lies on the way to what is written, and a folder below the target that lies on the
/// way to what is read, or was listed.
#[derive(Drop)]
pub struct DiskFolders<'r> {
    rt: &'r HostRuntime,
    reading: Option<Reading>,
    writing: Option<Writing>,
    faults: Faults,
    at: Option<Text>,
    target: Option<Text>,
    apart: Apart,
    found: Text,
    progress: Progress,
}

impl<'r> Model for DiskFolders<'r> {
    ghost use Rattle.desk_disk.specs.declared.disk.Faults.{Faults};

    ghost Value = { Faults };

    ghost view = { λ f. f.faults };
}

impl<'r> DiskFolders<'r> {
    /// The folders of the disk. It takes no memory.
    pub fn new(rt: &'r HostRuntime) -> DiskFolders<'r>
        ensures { result ≡ record { count = 0; last = None } }
    {
        DiskFolders {
            rt,
            reading: None,
            writing: None,
            faults: Faults {
                count: 0,
                last: None,
            },
            at: None,
            target: None,
            apart: Apart::nothing(rt.alloc()),
            found: Text::empty(rt.alloc()),
            progress: Progress::new(),
        }
    }

    /// Names the folder below which no link may stand in place of a folder where files are made.
    pub fn keep_within(&mut self, target: Text)
        ensures { self.new ≡ self.old }
    {
        self.target = Some(target);
    }

    /// Names the nodes that may not be met: among what is listed those on the way to what is written, and below the target those on the
    /// way to what is read.
    pub fn keep_apart(&mut self, apart: Apart)
        ensures { self.new ≡ self.old }
    {
        self.apart = apart;
    }

    /// Shows on standard error how many files were read and made, where that is a terminal.
    pub fn show_progress(&mut self)
        ensures { self.new ≡ self.old }
    {
        self.progress.show(self.rt);
    }

    /// Takes the line of the progress away from the terminal.
    pub fn end_progress(&mut self)
        ensures { self.new ≡ self.old }
    {
        self.progress.end(self.rt);
    }

    /// The last fault, where there was one and memory sufficed to remember it.
    pub fn last_fault(&self) -> Option<&Fault>
        ensures { option_map (λ fault. fault.now) result ≡ self.now.last }
    {
        self.faults.last.as_ref()
    }

    /// Counts a fault and remembers it.
    fn note(&mut self, tried: Tried, path: &Text, refusal: Refusal) -> FolderFault
        ensures memory { result ≡ FolderFault.Memory → self.new ≡ self.old }
        ensures counts { self.old.count ≤ self.new.count }
        ensures failed { result ≡ FolderFault.Failed → Rose self.old.count self.new.count }
        ensures last { result ≡ FolderFault.Failed → IfSome self.new.last (λ fault. fault.tried ≡ tried) }
    {
        let at = self.at.take();
        let Refusal::Failed(cause) = refusal else {
            return FolderFault::Memory;
        };
        self.faults.count = self.faults.count.saturating_add(1);
        let place = at.as_ref().unwrap_or(path);
        self.faults.last = Fault::of(self.rt.alloc(), tried, place, cause).ok();
        FolderFault::Failed
    }

    /// Counts a fault where a call failed, and remembers it. After an answer the last fault stays.
    fn count<T>(
        &mut self,
        tried: Tried,
        path: &Text,
        outcome: Result<T, Refusal>,
    ) -> Result<T, FolderFault>
        ensures same { (x : T) → (result ≡ Ok x) ↔ (outcome ≡ Ok x) }
        ensures counts { self.old.count ≤ self.new.count }
        ensures failed { result ≡ Err FolderFault.Failed → Rose self.old.count self.new.count }
        ensures last { result ≡ Err FolderFault.Failed → IfSome self.new.last (λ fault. fault.tried ≡ tried) }
        ensures stays { OnOk result (self.new ≡ self.old) }
        ensures memory { result ≡ Err FolderFault.Memory → self.new ≡ self.old }
    {
        match outcome {
            Ok(answer) => Ok(answer),
            Err(refusal) => Err(self.note(tried, path, refusal)),
        }
    }

    /// The file at a path, open to be read from a byte on.
    fn reading(&mut self, path: &Text, at: u64) -> Result<Reading, Refusal>
        ensures same { self.new ≡ self.old }
        ensures path { IfOk result (λ file. file.path ≡ path.now) }
        ensures at { IfOk result (λ file. file.at ≡ at) }
    {
        if let Some(file) = self.reading.take() {
            if file.stands_at(path, at) {
                return Ok(file);
            }
        }
        Reading::open(self.rt, path, at)
    }

    /// A part of the file at a path.
    fn part(&mut self, path: &Text, at: u64, want: u32) -> Result<Text, Refusal>
        ensures same { self.new ≡ self.old }
        ensures few { IfOk result (λ part. length part ≤ want) }
    {
        if at == 0 {
            self.progress.note_read(self.rt);
        }
        let mut file = self.reading(path, at)?;
        let part = file.read(self.rt.alloc(), want)?;
        self.reading = Some(file);
        Ok(part)
    }

    /// The file at a path, open to be written at its end.
    fn writing(&mut self, path: &Text) -> Result<Writing, Refusal>
        ensures same { self.new ≡ self.old }
        ensures path { IfOk result (λ file. file.path ≡ path.now) }
    {
        if let Some(file) = self.writing.take() {
            if file.is_of(path) {
                return Ok(file);
            }
        }
        Writing::open(self.rt, path)
    }

    /// Keeps the folder that ends at a byte of a path as the one that was found last.
    fn note_found(&mut self, path: &Text, end: usize) -> Result<(), Refusal>
        ensures { self.new ≡ self.old }
    {
        let folder = path.as_bytes().get(..end).unwrap_or_default();
        self.found = Text::from_bytes(self.rt.alloc(), folder)?;
        Ok(())
    }

    /// Looks for a link in place of a folder between the target and a path, and for one that is read. A folder on the way to the one that
    /// was found last isn't looked at again. The answer is whether a folder on the way was missing.
    fn look(&mut self, path: &Text) -> Result<bool, Refusal>
        ensures { self.new ≡ self.old }
    {
        let Some(target) = &self.target else {
            return Ok(false);
        };
        let folder = folder_of(path.as_bytes()).len();
        let known = known_end(self.found.as_bytes(), path.as_bytes());
        if folder < known {
            return Ok(false);
        }
        let root = text_of(target)?;
        let is_below = start_of(root) < folder;
        let end = last_folder(self.rt, root, text_of(path)?, known, &self.apart.read)?;
        self.note_found(path, end)?;
        Ok(is_below && end < folder)
    }

    /// How many bytes the file at a path has.
    fn sized(&mut self, path: &Text) -> Result<Option<u64>, Refusal>
        ensures { self.new ≡ self.old }
    {
        self.look(path)?;
        size_of(self.rt, path)
    }

    /// Makes the file at a path anew.
    fn make(&mut self, path: &Text) -> Result<(), Refusal>
        ensures { self.new ≡ self.old }
    {
        self.reading = None;
        self.writing = None;
        if self.look(path)? {
            make_parents(self.rt, text_of(path)?)?;
            self.note_found(path, folder_of(path.as_bytes()).len())?;
        }
        let file = Writing::create(self.rt, &self.target, path)?;
        self.progress.note_made(self.rt);
        self.writing = Some(file);
        Ok(())
    }

    /// Adds bytes at the end of the file at a path.
    fn add(&mut self, path: &Text, bytes: &[u8]) -> Result<(), Refusal>
        ensures { self.new ≡ self.old }
    {
        let mut file = self.writing(path)?;
        file.write(bytes)?;
        self.writing = Some(file);
        Ok(())
    }

    /// Keeps the nodes of folders that were listed from the target, where one is named.
    fn note_listed(&mut self, folders: &[Node]) -> Result<(), Refusal>
        ensures { self.new ≡ self.old }
    {
        if self.target.is_some() {
            self.apart.read.put_all(folders)?;
        }
        Ok(())
    }

    /// The files below a root, as they were found.
    fn found(&mut self, root: &Text) -> Result<Vec<Text>, Refusal>
        ensures { self.new ≡ self.old }
    {
        match files_below(self.rt, root, &self.apart.written) {
            Ok(Below { files, folders }) => {
                self.note_listed(&folders)?;
                Ok(files)
            }
            Err(Stopped { refusal, path }) => {
                self.at = path;
                Err(refusal)
            }
        }
    }

    /// The paths below a root.
    fn listed(&mut self, root: &Text, most: u32) -> Result<TextList, Refusal>
        requires { most ≤ 1000000 }
        ensures same { self.new ≡ self.old }
        ensures few { IfOk result (λ paths. length paths ≤ most + 1) }
        ensures rising { IfOk result (λ paths. IsStrictlySortedBy (slice_cmp nat_cmp) paths) }
        ensures relative { IfOk result (λ paths. IsTrue (list_all is_relative_path paths)) }
    {
        let found = self.found(root)?;
        first_of(self.rt.alloc(), found, most)
    }
}

/// What stands before the last `/` of a path.
fn folder_of(path: &[u8]) -> &[u8] {
    match path.iter().rposition(|byte| *byte == b'/') {
        Some(end) => &path[..end],
        None => b"",
    }
}

impl Folders for DiskFolders<'_> {
    ghost told = { λ _. None };

    ghost faults = { λ f. f.count };

    fn list(&mut self, root: &Text, most: u32) -> Result<TextList, FolderFault> {
        let listed = self.listed(root, most);
        self.count(Tried::Listing, root, listed)
    }

    fn read_part(&mut self, path: &Text, at: u64, want: u32) -> Result<Text, FolderFault> {
        let part = self.part(path, at, want);
        self.count(Tried::Reading, path, part)
    }

    /// Nothing is at a path below a file, and a link isn't the file of its path: both have no size, as what is
    /// missing has none, and no fault counts for them. A folder, a pipe or a device at the path is a fault,
    /// and so is a link in place of a folder below the target that `keep_within` names. Nothing is opened or
    /// waited for.
    fn size(&mut self, path: &Text) -> Result<Option<u64>, FolderFault> {
        let size = self.sized(path);
        self.count(Tried::Reading, path, size)
    }

    fn create(&mut self, path: &Text) -> Result<(), FolderFault> {
        let made = self.make(path);
        self.count(Tried::Making, path, made)
    }

    fn append(&mut self, path: &Text, bytes: &[u8]) -> Result<(), FolderFault> {
        let added = self.add(path, bytes);
        self.count(Tried::Writing, path, added)
    }
}

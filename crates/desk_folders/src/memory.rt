//! Folders in memory.

ghost use Rattle.std.specs.Prelude.{◌≡◌, ◌≢◌, ◌≤◌, ◌+◌, ◌++◌, ◌↔◌, [], length, take, drop, Some, None, Ok, Err, IsTrue, IsFalse, IsSome, IsErr, IfSome, IfOk, OnOk, OnErr};
ghost use Rattle.std.specs.Option.{option_copied};
ghost use Rattle.std.specs.List.{list_all};
ghost use Rattle.std.specs.List.Sorted.{IsStrictlySortedBy};
ghost use Rattle.std.specs.Ordering.{nat_cmp};
ghost use Rattle.std.specs.Cmp.Lexicographic.{slice_cmp};
ghost use Rattle.std.specs.FinMap as fin;
ghost use Rattle.std.specs.BTreeMap.{get};
ghost use Rattle.desk_base.specs.Paths.{is_root, is_full_path, is_relative_path};
ghost use Rattle.desk_base.specs.Counts.{Rose};
ghost use Rattle.desk_folders.specs.Contents.{ChangesOnly, IsPart, IsListing, bytes_at, size_at, holding, adding, paths_below};
ghost use Rattle.desk_folders.specs.InMemory.{called, fails, is_stopped, leaving, growing, half, filled};

use crate::listing::paths_of;
use crate::{FolderFault, Folders, GenFile};
use desk_base::{Memory, Text, TextList};
use std::alloc::Global;
use std::collections::BTreeMap;
use std::marker::Model;

/// Folders in memory, which tell their contents. Some of their calls fail, by their numbers, and all from
/// a number on where they are told to stop. Contracts see the contents, the count of faults, the count of
/// calls, the numbers of the calls that fail and the number from which on all fail.
#[derive(Drop)]
pub struct MemoryFolders {
    files: BTreeMap<Text, Text>,
    alloc: Global,
    faults: u64,
    calls: u64,
    failing: Vec<u64>,
    stop: Option<u64>,
}

impl Model for MemoryFolders {
    ghost use Rattle.std.specs.FinMap as map;
    ghost use Rattle.desk_folders.specs.InMemory.{InMemory, in_memory_code};

    ghost Value = { InMemory };

    ghost coded = { in_memory_code };

    ghost view = { λ m. record { contents = map.from_entries m.files.entries; faults = m.faults; calls = m.calls; failing = m.failing.items; stop = m.stop } };
}

/// The files by their paths; of two with one path the later counts.
fn map_of(alloc: Global, files: Vec<GenFile>) -> Result<BTreeMap<Text, Text>, Memory>
    ensures { IfOk result (λ map. fin.from_entries map.entries ≡ filled files.items fin.empty) }
{
    let mut map = BTreeMap::new(alloc);
    for file in files {
        let GenFile { path, content } = file;
        map.insert(path, content)?;
    }
    Ok(map)
}

/// The bytes at a path.
fn content_of<'a>(files: &'a BTreeMap<Text, Text>, path: &[u8]) -> Option<&'a [u8]>
    ensures { option_copied result ≡ get (slice_cmp nat_cmp) files.now path.now }
{
    for (key, content) in files.iter() {
        if key.as_bytes() == path {
            return Some(content.as_bytes());
        }
    }
    None
}

impl MemoryFolders {
    /// Folders with these files, of which the later counts where two have one path. The calls with the
    /// numbers in `failing` fail, counted from 0 over all calls; the count of calls stands still at
    /// 18,446,744,073,709,551,615. The only error is want of memory.
    pub fn new(
        alloc: Global,
        files: Vec<GenFile>,
        failing: Vec<u64>,
    ) -> Result<MemoryFolders, Memory>
        requires { IsTrue (list_all (λ file. is_full_path file.path) files.items) }
        ensures { IfOk result (λ folders. folders ≡ record { contents = filled files.items fin.empty; faults = 0; calls = 0; failing = failing.items; stop = None }) }
    {
        let files = map_of(alloc, files)?;
        Ok(MemoryFolders {
            files,
            alloc,
            faults: 0,
            calls: 0,
            failing,
            stop: None,
        })
    }

    /// The bytes of the file at a full path; none exactly where there is no such file. It takes no memory.
    pub fn content(&self, path: &[u8]) -> Option<&[u8]>
        ensures { option_copied result ≡ fin.get self.now.contents path.now }
    {
        content_of(&self.files, path)
    }

    /// Makes the call of this number fail as a failing call does, and each later call fail without any
    /// effect but on the counts. Calls are counted from 0, over all calls since the folders were made; a
    /// call with this number or a greater one that was made before stays as it was. A later stop takes
    /// the place of this one. It takes no memory.
    pub fn stop_at(&mut self, call: u64)
        ensures { self.new ≡ record self.old { stop = Some call } }
    {
        self.stop = Some(call);
    }

    /// Makes no call fail from now on: neither those with the numbers that were to fail nor those behind a
    /// stop. Calls and faults keep their counts, and the files stay as they are. It takes no memory.
    pub fn mend(&mut self)
        ensures { self.new ≡ record self.old { stop = None; failing = [] } }
    {
        self.failing.clear();
        self.stop = None;
    }

    /// Whether the calls stopped before the next one.
    fn is_stopped(&self) -> bool
        ensures { result ≡ is_stopped self.now }
    {
        match self.stop {
            Some(stop) => stop < self.calls,
            None => false,
        }
    }

    /// Whether the next call fails.
    fn is_failing(&self) -> bool
        ensures { result ≡ fails self.now }
    {
        let stops = match self.stop {
            Some(stop) => stop <= self.calls,
            None => false,
        };
        self.failing.as_slice().contains(&self.calls) || stops
    }

    /// Counts a call, and answers whether it fails.
    fn call(&mut self) -> bool
        ensures result { result ≡ fails self.old }
        ensures counts { self.old.faults ≤ self.new.faults }
        ensures rose { IsTrue result → Rose self.old.faults self.new.faults }
        ensures called { self.new ≡ called self.old }
    {
        let fails = self.is_failing();
        self.calls = self.calls.saturating_add(1);
        if fails {
            self.faults = self.faults.saturating_add(1);
        }
        fails
    }

    /// Removes a path.
    fn take_away(&mut self, path: &Text)
        ensures { self.new ≡ leaving path.now None self.old }
    {
        let _ = self.files.remove(path);
    }

    /// Makes the path hold nothing.
    fn empty(&mut self, path: &Text) -> Result<(), Memory>
        ensures ok { OnOk result (self.new ≡ leaving path.now (Some []) self.old) }
        ensures err { OnErr result (self.new ≡ self.old) }
    {
        let key = Text::from_bytes(self.alloc, path.as_bytes())?;
        let empty = Text::empty(self.alloc);
        self.files.insert(key, empty)?;
        Ok(())
    }

    /// Adds bytes where a path is.
    fn grow(&mut self, path: &Text, bytes: &[u8]) -> Result<(), Memory>
        requires { IsSome (fin.get self.old.contents path.now) }
        ensures ok { OnOk result (self.new ≡ growing path.now bytes.now self.old) }
        ensures err { OnErr result (self.new ≡ self.old) }
    {
        let Some(content) = self.files.get_mut(path) else {
            unreachable!()
        };
        content.append(bytes)?;
        Ok(())
    }
}

/// At most `want` bytes from byte `at` on.
fn part_of(bytes: &[u8], at: u64, want: u32) -> &[u8]
    ensures { result.now ≡ take want (drop at bytes.now) }
{
    let len = bytes.len() as u64;
    if len <= at {
        return &[];
    }
    let end = at + (len - at).min(want as u64);
    &bytes[at as usize..end as usize]
}

/// The first half of bytes, rounded down.
fn half_of(bytes: &[u8]) -> &[u8]
    ensures { result.now ≡ half bytes.now }
{
    &bytes[..bytes.len() / 2]
}

impl MemoryFolders {
    /// At most `want` bytes of a file from byte `at` on.
    fn part(&self, path: &Text, at: u64, want: u32) -> Result<Text, Memory>
        ensures { IfOk result (λ part. part ≡ take want (drop at (bytes_at self.now.contents path.now))) }
    {
        match self.files.get(path) {
            Some(content) => Text::from_bytes(self.alloc, part_of(content.as_bytes(), at, want)),
            None => Ok(Text::empty(self.alloc)),
        }
    }

    /// How many bytes a file has; none where it isn't there.
    fn size_of(&self, path: &Text) -> Option<u64>
        ensures { result ≡ size_at self.now.contents path.now }
    {
        match self.files.get(path) {
            Some(content) => Some(content.as_bytes().len() as u64),
            None => None,
        }
    }

    /// The first paths below a root, `most + 1` at most.
    fn listed(&self, root: &Text, most: u32) -> Result<TextList, Memory>
        requires { most ≤ 1000000 }
        ensures { IfOk result (λ paths. paths ≡ take (most + 1) (paths_below root.now self.now.contents)) }
    {
        paths_of(self.alloc, &self.files, root.as_bytes(), most)
    }
}

impl Folders for MemoryFolders {
    ghost told = { λ m. Some m.contents };

    ghost faults = { λ m. m.faults };

    /// It gives the first `most + 1` paths. It fails exactly where this call's number is among the failing or
    /// a stop is at it or before it.
    fn list(&mut self, root: &Text, most: u32) -> Result<TextList, FolderFault>
        requires most { most ≤ 1000000 }
        requires root { IsTrue (is_root root.now) }
        ensures exactly { (result ≡ Err FolderFault.Failed) ↔ IsTrue (fails self.old) }
        ensures first { IfOk result (λ paths. paths ≡ take (most + 1) (paths_below root.now self.old.contents)) }
        ensures called { self.new ≡ called self.old }
        ensures paths { IfOk result (λ paths. IfSome (Some self.old.contents) (λ m. IsListing most (paths_below root.now m) paths)) }
        ensures few { IfOk result (λ paths. length paths ≤ most + 1) }
        ensures rising { IfOk result (λ paths. IsStrictlySortedBy (slice_cmp nat_cmp) paths) }
        ensures relative { IfOk result (λ paths. IsTrue (list_all is_relative_path paths)) }
        ensures told { Some self.new.contents ≡ Some self.old.contents }
        ensures counts { self.old.faults ≤ self.new.faults }
        ensures failed { result ≡ Err FolderFault.Failed → Rose self.old.faults self.new.faults }
    {
        if self.call() {
            return Err(FolderFault::Failed);
        }
        Ok(self.listed(root, most)?)
    }

    /// It gives as many bytes as it may. It fails exactly where this call's number is among the failing or a
    /// stop is at it or before it.
    fn read_part(&mut self, path: &Text, at: u64, want: u32) -> Result<Text, FolderFault>
        requires want { want ≢ 0 }
        requires there { IfSome (Some self.old.contents) (λ m. IsSome (fin.get m path.now)) }
        ensures exactly { (result ≡ Err FolderFault.Failed) ↔ IsTrue (fails self.old) }
        ensures most { IfOk result (λ part. part ≡ take want (drop at (bytes_at self.old.contents path.now))) }
        ensures called { self.new ≡ called self.old }
        ensures part { IfOk result (λ part. IfSome (Some self.old.contents) (λ m. IsPart (bytes_at m path.now) at part)) }
        ensures few { IfOk result (λ part. length part ≤ want) }
        ensures told { Some self.new.contents ≡ Some self.old.contents }
        ensures counts { self.old.faults ≤ self.new.faults }
        ensures failed { result ≡ Err FolderFault.Failed → Rose self.old.faults self.new.faults }
    {
        if self.call() {
            return Err(FolderFault::Failed);
        }
        Ok(self.part(path, at, want)?)
    }

    /// It fails exactly where this call's number is among the failing or a stop is at it or before it, and
    /// answers the size everywhere else. It wants no memory.
    fn size(&mut self, path: &Text) -> Result<Option<u64>, FolderFault>
        requires path { IsTrue (is_full_path path.now) }
        ensures exactly { (result ≡ Err FolderFault.Failed) ↔ IsTrue (fails self.old) }
        ensures exact { IsFalse (fails self.old) → result ≡ Ok (size_at self.old.contents path.now) }
        ensures is { IfOk result (λ size. size ≡ size_at self.old.contents path.now) }
        ensures called { self.new ≡ called self.old }
        ensures size { IfOk result (λ size. IfSome (Some self.old.contents) (λ m. size ≡ size_at m path.now)) }
        ensures told { Some self.new.contents ≡ Some self.old.contents }
        ensures counts { self.old.faults ≤ self.new.faults }
        ensures failed { result ≡ Err FolderFault.Failed → Rose self.old.faults self.new.faults }
    {
        if self.call() {
            return Err(FolderFault::Failed);
        }
        Ok(self.size_of(path))
    }

    /// It fails exactly where this call's number is among the failing or a stop is at it or before it. Where
    /// it fails it removes the path, but behind a stop it leaves the path as it was; so it does after want of
    /// memory.
    fn create(&mut self, path: &Text) -> Result<(), FolderFault>
        requires path { IsTrue (is_full_path path.now) }
        ensures exactly { (result ≡ Err FolderFault.Failed) ↔ IsTrue (fails self.old) }
        ensures made { OnOk result (self.new ≡ leaving path.now (Some []) (called self.old)) }
        ensures removed { IsFalse (is_stopped self.old) → result ≡ Err FolderFault.Failed → self.new ≡ leaving path.now None (called self.old) }
        ensures stopped { IsTrue (is_stopped self.old) → self.new ≡ called self.old }
        ensures memory { result ≡ Err FolderFault.Memory → self.new ≡ called self.old }
        ensures ok { OnOk result (Some self.new.contents ≡ holding path.now [] (Some self.old.contents)) }
        ensures err { OnErr result (ChangesOnly path.now (Some self.old.contents) (Some self.new.contents)) }
        ensures counts { self.old.faults ≤ self.new.faults }
        ensures failed { result ≡ Err FolderFault.Failed → Rose self.old.faults self.new.faults }
    {
        let removes = !self.is_stopped();
        if self.call() {
            if removes {
                self.take_away(path);
            }
            return Err(FolderFault::Failed);
        }
        self.empty(path)?;
        Ok(())
    }

    /// It fails, or wants memory, exactly where this call's number is among the failing, a stop is at it or
    /// before it, or memory is wanted. Where it fails it added the first half of the bytes, but behind a stop
    /// it leaves the path as it was; so it does after want of memory.
    fn append(&mut self, path: &Text, bytes: &[u8]) -> Result<(), FolderFault>
        requires there { IfSome (Some self.old.contents) (λ m. IsSome (fin.get m path.now)) }
        ensures exactly { result ≡ Err FolderFault.Failed → IsTrue (fails self.old) }
        ensures refused { IsTrue (fails self.old) → IsErr result }
        ensures added { OnOk result (self.new ≡ growing path.now bytes.now (called self.old)) }
        ensures half { IsFalse (is_stopped self.old) → result ≡ Err FolderFault.Failed → self.new ≡ growing path.now (half bytes.now) (called self.old) }
        ensures stopped { IsTrue (is_stopped self.old) → self.new ≡ called self.old }
        ensures refused_stopped { IsTrue (is_stopped self.old) → result ≡ Err FolderFault.Failed }
        ensures memory { result ≡ Err FolderFault.Memory → self.new ≡ called self.old }
        ensures ok { OnOk result (Some self.new.contents ≡ adding path.now bytes.now (Some self.old.contents)) }
        ensures err { OnErr result (ChangesOnly path.now (Some self.old.contents) (Some self.new.contents)) }
        ensures counts { self.old.faults ≤ self.new.faults }
        ensures failed { result ≡ Err FolderFault.Failed → Rose self.old.faults self.new.faults }
    {
        let adds = !self.is_stopped();
        if self.call() {
            if adds {
                self.grow(path, half_of(bytes))?;
            }
            return Err(FolderFault::Failed);
        }
        self.grow(path, bytes)?;
        Ok(())
    }
}

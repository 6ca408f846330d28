//! The files below a folder of a disk.

ghost use Rattle.std.specs.Prelude.{◌≡◌, ◌≢◌, ◌+◌, ◌-◌, ◌<◌, ◌≤◌, ◌↔◌, [], length, slice_get, Ok, Err, true, false, IsTrue, IfOk, IfSome, OnOk};
ghost use Rattle.std.specs.declared.cmp.Ordering.TheVariants.{Less};
ghost use Rattle.std.specs.Fs.{IsDir, IsFile, IsSymlink, dir_entry_name};
ghost use Rattle.desk_faults.specs.declared.causes.Cause.TheVariants as cause;
ghost use Rattle.std.specs.List.{list_all};
ghost use Rattle.std.specs.List.Sorted.{IsStrictlySortedBy};
ghost use Rattle.std.specs.Ordering.{nat_cmp};
ghost use Rattle.std.specs.Cmp.Lexicographic.{slice_cmp};
ghost use Rattle.desk_base.specs.Paths.{folder, is_relative_path};
ghost use Rattle.desk_places.specs.Places.{holds};
ghost use Rattle.desk_disk.specs.Disk.{IsFirst, IsLooked, IsLonger, entries, entry_path, folder_path, taken};

use crate::open::{fault_of, text_of};
use desk_base::{Memory, Text, TextList};
use desk_faults::{Cause, Refusal};
use desk_folders::is_relative;
use desk_places::{Node, Nodes};
use std::alloc::Global;
use std::cmp::Ordering;
use std::fs::{self, DirEntry, FileType};
use std::marker::Model;

/// How many entries a listing looks at, folders included.
const ENTRIES: u32 = 1_000_000;

/// What a listing takes an entry of a folder for.
#[derive(Clone, Copy)]
pub(crate) enum Entry {
    File,
    Folder,
}

/// What an entry is. What is neither a file nor a folder, as a symbolic link, is refused.
fn entry_of(kind: FileType) -> Result<Entry, Cause>
    ensures folder { IsDir kind → result ≡ Ok Entry.Folder }
    ensures file { IsFile kind → result ≡ Ok Entry.File }
    ensures link { ¬ IsDir kind → ¬ IsFile kind → IsSymlink kind → result ≡ Err cause.Link }
    ensures other { ¬ IsDir kind → ¬ IsFile kind → ¬ IsSymlink kind → result ≡ Err cause.Special }
{
    if kind.is_dir() {
        Ok(Entry::Folder)
    } else if kind.is_file() {
        Ok(Entry::File)
    } else if kind.is_symlink() {
        Err(Cause::Link)
    } else {
        Err(Cause::Special)
    }
}

/// Whether what is listed is none of the nodes on the way to what is written. One that is is refused.
fn is_apart(written: &Nodes, node: Node) -> Result<(), Cause>
    ensures apart { holds written.now node ≡ false → result ≡ Ok tt }
    ensures met { holds written.now node ≡ true → result ≡ Err cause.HoldsWritten }
{
    if written.holds(node) {
        Err(Cause::HoldsWritten)
    } else {
        Ok(())
    }
}

/// A listing that goes on: the files that it found, and the folders that it has yet to enter, by their
/// paths relative to the root, how many entries it looked at, and the path at which it failed; the nodes that it may not meet,
/// and those of the folders that it met.
#[derive(Drop)]
pub(crate) struct FolderWalk<'k> {
    found: Vec<Text>,
    folders: Vec<Text>,
    looked: u32,
    at: Option<Text>,
    written: &'k Nodes,
    met: Vec<Node>,
}

impl<'k> Model for FolderWalk<'k> {
    ghost use Rattle.std.specs.Prelude.{◌≤◌};
    ghost use Rattle.desk_disk.specs.Disk.{Looked, looked_code, entries};

    ghost Value = { Looked };

    ghost coded = { looked_code };

    ghost view = { λ l. record { found = l.found.items; folders = l.folders.items; count = l.looked } };

    ghost invariant = { λ l. l.looked ≤ entries };
}

impl<'k> FolderWalk<'k> {
    fn new(alloc: Global, written: &'k Nodes) -> FolderWalk<'k>
        ensures { result ≡ record { found = []; folders = []; count = 0 } }
    {
        FolderWalk {
            found: Vec::new(alloc),
            folders: Vec::new(alloc),
            looked: 0,
            at: None,
            written,
            met: Vec::new(alloc),
        }
    }

    /// Takes an entry, where fewer than 1,000,000 were taken.
    fn take(&mut self, path: Text, entry: Entry) -> Result<(), Refusal>
        ensures ok { OnOk result (self.new ≡ taken path entry self.old) }
        ensures room { OnOk result (self.old.count < entries) }
        ensures full { entries ≤ self.old.count → result ≡ Err (Refusal.Failed cause.Entries) }
        ensures failed { result ≡ Err (Refusal.Failed cause.Entries) → entries ≤ self.old.count }
    {
        if self.looked >= ENTRIES {
            return Err(Refusal::Failed(Cause::Entries));
        }
        self.looked += 1;
        match entry {
            Entry::File => self.found.push(path)?,
            Entry::Folder => self.folders.push(path)?,
        }
        Ok(())
    }

    /// What an entry of a folder is. It must be one that may be met, and a folder's node is kept.
    fn kind_of(&mut self, entry: &DirEntry) -> Result<Entry, Refusal>
        ensures { self.new ≡ self.old }
    {
        let found = entry.metadata().map_err(fault_of)?;
        let kind = entry_of(found.file_type())?;
        let node = Node::of(&found);
        is_apart(self.written, node)?;
        if let Entry::Folder = kind {
            self.met.push(node)?;
        }
        Ok(kind)
    }

    /// Looks at the entry of a folder.
    fn look(&mut self, alloc: Global, folder: &Text, entry: &DirEntry) -> Result<(), Refusal>
        ensures looked { OnOk result (IsLooked (entry_path folder.now (dir_entry_name entry.now)) self.old self.new) }
        ensures room { OnOk result (self.old.count < entries) }
    {
        let path = path_of_entry(alloc, folder, entry.file_name())?;
        match self.kind_of(entry) {
            Ok(kind) => self.take(path, kind),
            Err(refusal) => {
                self.at = Some(path);
                Err(refusal)
            }
        }
    }

    /// Looks at each entry of a folder.
    fn enter(&mut self, rt: &HostRuntime, root: &Text, folder: &Text) -> Result<(), Refusal>
        ensures longer { OnOk result (IsLonger self.old self.new) }
        ensures most { self.old.count ≤ entries → OnOk result (self.new.count ≤ entries) }
    {
        let path = path_of_folder(rt.alloc(), root, folder)?;
        for entry in fs::read_dir(rt, text_of(&path)?).map_err(fault_of)? {
            self.look(rt.alloc(), folder, &entry.map_err(fault_of)?)?;
        }
        Ok(())
    }

    /// Notes the path at which the listing failed, unless it is noted: that of the folder that was entered.
    fn note(&mut self, folder: Text, entered: Result<(), Refusal>) -> Result<(), Refusal>
        ensures listing { self.new ≡ self.old }
        ensures outcome { result ≡ entered }
    {
        if entered.is_err() && self.at.is_none() {
            self.at = Some(folder);
        }
        entered
    }

    /// Enters each folder that is left, and those that are found on the way.
    fn enter_all(&mut self, rt: &HostRuntime, root: &Text) -> Result<(), Refusal>
        ensures { OnOk result (self.new.folders ≡ []) }
    {
        while let Some(folder) = self.folders.pop() {
            let entered = self.enter(rt, root, &folder);
            self.note(folder, entered)?;
        }
        Ok(())
    }

    /// Enters the root, and all folders below it.
    fn go(&mut self, rt: &HostRuntime, root: &Text) -> Result<(), Refusal> {
        self.enter(rt, root, &Text::empty(rt.alloc()))?;
        self.enter_all(rt, root)
    }
}

/// The path of an entry by the path of its folder, both relative to the root, whose own path is empty.
fn path_of_entry(alloc: Global, folder: &Text, name: &str) -> Result<Text, Memory>
    ensures { IfOk result (λ path. path ≡ entry_path folder.now name.now) }
{
    let (folder, name) = (folder.as_bytes(), name.as_bytes());
    if folder.is_empty() {
        return Text::from_bytes(alloc, name);
    }
    let mut path = Vec::with_capacity(alloc, folder.len() + 1 + name.len())?;
    path.extend_from_slice(folder)?;
    path.push(b'/')?;
    path.extend_from_slice(name)?;
    Ok(Text::from(path))
}

/// What stands before the paths below a root.
fn front_of(alloc: Global, root: &Text) -> Result<Text, Memory>
    ensures { IfOk result (λ front. front ≡ folder root.now) }
{
    if root.as_bytes() == b".".as_slice() {
        return Ok(Text::empty(alloc));
    }
    if root.as_bytes() == b"/".as_slice() {
        return Ok(root.clone()?);
    }
    let mut front = Text::from_bytes(alloc, root.as_bytes())?;
    front.push(b'/')?;
    Ok(front)
}

/// The path of a folder by its path relative to the root.
fn path_of_folder(alloc: Global, root: &Text, folder: &Text) -> Result<Text, Memory>
    ensures { IfOk result (λ path. path ≡ folder_path root.now folder.now) }
{
    if folder.as_bytes().is_empty() {
        return Ok(root.clone()?);
    }
    let mut path = front_of(alloc, root)?;
    path.append(folder.as_bytes())?;
    Ok(path)
}

/// Why a listing failed, and at which path where it is below the root.
#[derive(Drop)]
pub(crate) struct Stopped {
    /// What the system refused, or what stands in the folders that is neither a file nor a folder.
    pub(crate) refusal: Refusal,
    /// The full path at which it failed; none where that is the root itself, or memory is wanting.
    pub(crate) path: Option<Text>,
}

/// The full path at which a listing failed; none where it is the root, or memory is wanting.
fn full_at(alloc: Global, root: &Text, at: &Option<Text>) -> Option<Text> {
    match at {
        Some(path) => path_of_folder(alloc, root, path).ok(),
        None => None,
    }
}

/// What was found below a root.
#[derive(Drop)]
pub(crate) struct Below {
    /// The paths of the files, in the order in which they were found.
    pub(crate) files: Vec<Text>,
    /// The nodes of the folders.
    pub(crate) folders: Vec<Node>,
}

/// The files below a root, in the order in which they were found, and the nodes of the folders below it. What has one of the nodes on
/// the way to what is written is refused.
pub(crate) fn files_below(
    rt: &HostRuntime,
    root: &Text,
    written: &Nodes,
) -> Result<Below, Stopped> {
    let mut listing = FolderWalk::new(rt.alloc(), written);
    let gone = listing.go(rt, root);
    let FolderWalk { found, at, met, .. } = listing;
    match gone {
        Ok(()) => Ok(Below {
            files: found,
            folders: met,
        }),
        Err(refusal) => Err(Stopped {
            refusal,
            path: full_at(rt.alloc(), root, &at),
        }),
    }
}

/// Whether a text stands behind the last of some texts, where there is one.
fn is_behind(texts: &[Text], text: &Text) -> bool
    ensures { IsTrue result ↔ IfSome (slice_get texts.now (length texts.now - 1)) (λ last. slice_cmp nat_cmp last text.now ≡ Less) }
{
    match texts.last() {
        Some(last) => last.cmp(text) == Ordering::Less,
        None => true,
    }
}

/// The first of the paths that were found in byte order, `most + 1` at most. One that was found twice, or is no
/// relative path, is refused.
pub(crate) fn first_of(alloc: Global, found: Vec<Text>, most: u32) -> Result<TextList, Refusal>
    requires { most ≤ 1000000 }
    ensures first { IfOk result (IsFirst (most + 1) found.items) }
    ensures few { IfOk result (λ paths. length paths ≤ most + 1) }
    ensures rising { IfOk result (λ paths. IsStrictlySortedBy (slice_cmp nat_cmp) paths) }
    ensures relative { IfOk result (λ paths. IsTrue (list_all is_relative_path paths)) }
{
    let mut first = found;
    first.sort()?;
    first.truncate(most as usize + 1);
    let mut paths = TextList::empty(alloc);
    for path in first {
        if !is_behind(paths.as_slice(), &path) || !is_relative(path.as_bytes()) {
            return Err(Refusal::Failed(Cause::Twice));
        }
        paths.push(path)?;
    }
    Ok(paths)
}

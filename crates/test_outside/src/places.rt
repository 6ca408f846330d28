//! Folders in memory, and those of a disk.

ghost use Rattle.std.specs.Prelude.{◌≡◌, ◌≢◌, ◌≤◌, IsTrue};
ghost use Rattle.std.specs.List.{list_all};
ghost use Rattle.desk_base.specs.Paths.{is_full_path, is_root};

use crate::told::{say, say_bytes, say_done, say_kind};
use crate::words::text_of;
use desk_base::{Memory, Text, TextList};
use desk_disk::DiskFolders;
use desk_faults::Fault;
use desk_folders::{FolderFault, Folders, GenFile, MemoryFolders, is_full};
use desk_places::{Apart, Places, place_of};
use std::alloc::Global;
use std::fs;
use std::io::{self, ErrorKind};

/// Whether each file has a full path.
fn have_full_paths(files: &[GenFile]) -> bool
    ensures { result ≡ list_all (λ file. is_full_path file.path) files.now }
{
    files.iter().all(|file| is_full(file.path.as_bytes()))
}

/// Whether a path is that of a root.
pub fn names_root(path: &[u8]) -> bool
    ensures { result ≡ is_root path.now }
{
    path == b".".as_slice() || path == b"/".as_slice() || is_full(path)
}

/// Folders that calls go over.
#[derive(Drop)]
pub enum TestFolders<'r> {
    /// In memory.
    Memory(Box<MemoryFolders>),
    /// On a disk.
    Disk(&'r HostRuntime, Box<DiskFolders<'r>>),
}

impl<'r> TestFolders<'r> {
    /// Folders in memory with these files, of which these calls fail; none where a path is no full path.
    pub fn in_memory(
        alloc: Global,
        files: Vec<GenFile>,
        failing: Vec<u64>,
    ) -> Result<Option<TestFolders<'r>>, Memory> {
        if !have_full_paths(&files) {
            return Ok(None);
        }
        let folders = MemoryFolders::new(alloc, files, failing)?;
        Ok(Some(TestFolders::Memory(Box::new(alloc, folders)?)))
    }

    /// Folders on a disk.
    pub fn on_disk(rt: &'r HostRuntime) -> Result<TestFolders<'r>, Memory> {
        let folders = Box::new(rt.alloc(), DiskFolders::new(rt))?;
        Ok(TestFolders::Disk(rt, folders))
    }

    /// Makes a file that holds nothing.
    pub fn create(&mut self, path: &Text) -> Result<(), FolderFault>
        requires { IsTrue (is_full_path path.now) }
    {
        match self {
            TestFolders::Memory(folders) => folders.create(path),
            TestFolders::Disk(_, folders) => folders.create(path),
        }
    }

    /// How many bytes a file has.
    pub fn size(&mut self, path: &Text) -> Result<Option<u64>, FolderFault>
        requires { IsTrue (is_full_path path.now) }
    {
        match self {
            TestFolders::Memory(folders) => folders.size(path),
            TestFolders::Disk(_, folders) => folders.size(path),
        }
    }

    /// The paths below a root.
    pub fn list(&mut self, root: &Text, most: u32) -> Result<TextList, FolderFault>
        requires most { most ≤ 1000000 }
        requires root { IsTrue (is_root root.now) }
    {
        match self {
            TestFolders::Memory(folders) => folders.list(root, most),
            TestFolders::Disk(_, folders) => folders.list(root, most),
        }
    }

    /// A part of a file; none where folders in memory have no such file.
    pub fn read(&mut self, path: &Text, at: u64, want: u32) -> Option<Result<Text, FolderFault>>
        requires { want ≢ 0 }
    {
        match self {
            TestFolders::Memory(folders) => match folders.content(path.as_bytes()) {
                Some(_) => Some(folders.read_part(path, at, want)),
                None => None,
            },
            TestFolders::Disk(_, folders) => Some(folders.read_part(path, at, want)),
        }
    }

    /// Adds bytes to a file, and answers what came of it.
    pub fn append(&mut self, path: &Text, bytes: &[u8], out: &mut String) -> Result<(), Memory> {
        match self {
            TestFolders::Memory(folders) => match folders.content(path.as_bytes()) {
                Some(_) => say_done(folders.append(path, bytes), out),
                None => say("no file", out),
            },
            TestFolders::Disk(_, folders) => say_done(folders.append(path, bytes), out),
        }
    }

    /// Answers what a file holds: of folders on a disk, as the system reads it.
    pub fn answer_content(&self, path: &Text, out: &mut String) -> Result<(), Memory> {
        match self {
            TestFolders::Memory(folders) => match folders.content(path.as_bytes()) {
                Some(bytes) => say_bytes(bytes, out),
                None => say("no file", out),
            },
            TestFolders::Disk(rt, _) => match fs::read(*rt, text_of(path)) {
                Ok(bytes) => say_bytes(bytes.as_slice(), out),
                Err(error) => say_kind(Err(error), out),
            },
        }
    }

    /// Lets the call of folders in memory with this number, and each later one, fail.
    pub fn stop_at(&mut self, call: u64) {
        if let TestFolders::Memory(folders) = self {
            folders.stop_at(call);
        }
    }

    /// Lets no call of folders in memory fail from now on.
    pub fn mend(&mut self) {
        if let TestFolders::Memory(folders) = self {
            folders.mend();
        }
    }

    /// Names the target of folders on a disk.
    pub fn keep_within(&mut self, target: Text) {
        if let TestFolders::Disk(_, folders) = self {
            folders.keep_within(target);
        }
    }

    /// The nodes by which folders on a disk tell apart what is written and what is read.
    fn apart_of(
        &self,
        alloc: Global,
        written: &Text,
        read: &Text,
    ) -> Result<Option<Apart>, Memory> {
        match self {
            TestFolders::Memory(_) => Ok(None),
            TestFolders::Disk(rt, _) => {
                let places = Box::new(
                    alloc,
                    Places {
                        rules: Err(io::Error::from(ErrorKind::NotFound)),
                        from: place_of(*rt, read),
                        to: place_of(*rt, written),
                        ledger: Err(io::Error::from(ErrorKind::NotFound)),
                    },
                )?;
                Ok(Some(Apart::of(alloc, &places)?))
            }
        }
    }

    /// Names to folders on a disk what is written and what is read.
    pub fn keep_apart(&mut self, alloc: Global, written: &Text, read: &Text) -> Result<(), Memory> {
        let Some(apart) = self.apart_of(alloc, written, read)? else {
            return Ok(());
        };
        if let TestFolders::Disk(_, folders) = self {
            folders.keep_apart(apart);
        }
        Ok(())
    }

    /// The last fault that folders on a disk remember.
    pub fn last_fault(&self) -> Option<&Fault> {
        match self {
            TestFolders::Memory(_) => None,
            TestFolders::Disk(_, folders) => folders.last_fault(),
        }
    }
}

//! Folders in memory, in which a file may change while it is read, and those of the disk.

ghost use Rattle.std.specs.Prelude.{◌≡◌, ◌≤◌, IfOk, length};

use desk_base::{Memory, Text, TextList};
use desk_disk::DiskFolders;
use desk_folders::{FolderFault, Folders, MemoryFolders};
use std::alloc::Global;

/// How many files are listed at most.
const MOST_FILES: u32 = 10_000;

/// Where the files stand.
#[derive(Drop)]
enum AnyFolders<'r> {
    /// In memory.
    Memory(Box<MemoryFolders>),
    /// On the disk, in the folder that the program runs in.
    Disk(Box<DiskFolders<'r>>),
}

/// A file that gives other bytes from its second reading on. A reading begins where byte 0 is read.
#[derive(Clone, Drop)]
pub struct Change {
    path: Text,
    second: Text,
    readings: u64,
}

impl Change {
    /// The file at a path gives these bytes from its second reading on.
    pub fn new(path: Text, second: Text) -> Change {
        Change {
            path,
            second,
            readings: 0,
        }
    }

    /// Whether a read of a path belongs to a second reading of the file that changes, or a later one.
    fn is_read(&mut self, path: &Text, at: u64) -> bool {
        if *path != self.path {
            return false;
        }
        if at == 0 {
            self.readings = self.readings.saturating_add(1);
        }
        self.readings > 1
    }
}

/// At most `want` bytes from byte `at` on.
fn part_of(alloc: Global, bytes: &[u8], at: u64, want: u32) -> Result<Text, Memory>
    ensures { IfOk result (λ part. length part ≤ want) }
{
    let len = bytes.len() as u64;
    if len <= at {
        return Ok(Text::empty(alloc));
    }
    let end = at + (len - at).min(u64::from(want));
    Text::from_bytes(alloc, &bytes[at as usize..end as usize])
}

/// Folders that tell nothing of their contents. They count each call, any of which may be a fault.
#[derive(Drop)]
pub struct ChangingFolders<'r> {
    alloc: Global,
    place: AnyFolders<'r>,
    change: Option<Box<Change>>,
    calls: u64,
}

impl<'r> ChangingFolders<'r> {
    /// Folders in memory, of which a file may change.
    pub fn in_memory(
        alloc: Global,
        files: Box<MemoryFolders>,
        change: Option<Box<Change>>,
    ) -> Result<Box<ChangingFolders<'r>>, Memory> {
        let place = AnyFolders::Memory(files);
        let places = ChangingFolders {
            alloc,
            place,
            change,
            calls: 0,
        };
        Ok(Box::new(alloc, places)?)
    }

    /// The folders of the disk.
    pub fn on_disk(rt: &'r HostRuntime) -> Result<Box<ChangingFolders<'r>>, Memory> {
        let alloc = rt.alloc();
        let disk = Box::new(alloc, DiskFolders::new(rt))?;
        let places = ChangingFolders {
            alloc,
            place: AnyFolders::Disk(disk),
            change: None,
            calls: 0,
        };
        Ok(Box::new(alloc, places)?)
    }

    /// What stands at a path in memory, whatever a second reading of it gives.
    pub fn content(&self, path: &[u8]) -> Option<&[u8]> {
        match &self.place {
            AnyFolders::Memory(files) => files.content(path),
            AnyFolders::Disk(_) => None,
        }
    }

    /// The paths of all files in memory, in byte order; none where that call fails.
    pub fn paths(&mut self) -> Result<TextList, Memory> {
        let root = Text::from_bytes(self.alloc, b".")?;
        let none = TextList::empty(self.alloc);
        match &mut self.place {
            AnyFolders::Memory(files) => match files.list(&root, MOST_FILES) {
                Ok(paths) => Ok(paths),
                Err(FolderFault::Failed) => Ok(none),
                Err(FolderFault::Memory) => Err(Memory),
            },
            AnyFolders::Disk(_) => Ok(none),
        }
    }

    /// Makes the call of this number and each later one fail.
    pub fn stop_at(&mut self, call: u64) {
        if let AnyFolders::Memory(files) = &mut self.place {
            files.stop_at(call);
        }
    }

    /// Lets no call fail from now on.
    pub fn mend(&mut self) {
        if let AnyFolders::Memory(files) = &mut self.place {
            files.mend();
        }
    }
}

impl Folders for ChangingFolders<'_> {
    ghost use Rattle.std.specs.Prelude.{None};

    ghost told = { λ _. None };

    ghost faults = { λ p. p.calls };

    fn list(&mut self, root: &Text, most: u32) -> Result<TextList, FolderFault> {
        self.calls = self.calls.saturating_add(1);
        match &mut self.place {
            AnyFolders::Memory(files) => files.list(root, most),
            AnyFolders::Disk(disk) => disk.list(root, most),
        }
    }

    fn read_part(&mut self, path: &Text, at: u64, want: u32) -> Result<Text, FolderFault> {
        self.calls = self.calls.saturating_add(1);
        if let Some(change) = &mut self.change {
            if change.is_read(path, at) {
                return Ok(part_of(self.alloc, change.second.as_bytes(), at, want)?);
            }
        }
        match &mut self.place {
            AnyFolders::Memory(files) => match files.content(path.as_bytes()) {
                Some(_) => files.read_part(path, at, want),
                None => Ok(Text::empty(self.alloc)),
            },
            AnyFolders::Disk(disk) => disk.read_part(path, at, want),
        }
    }

    fn size(&mut self, path: &Text) -> Result<Option<u64>, FolderFault> {
        self.calls = self.calls.saturating_add(1);
        match &mut self.place {
            AnyFolders::Memory(files) => files.size(path),
            AnyFolders::Disk(disk) => disk.size(path),
        }
    }

    fn create(&mut self, path: &Text) -> Result<(), FolderFault> {
        self.calls = self.calls.saturating_add(1);
        match &mut self.place {
            AnyFolders::Memory(files) => files.create(path),
            AnyFolders::Disk(disk) => disk.create(path),
        }
    }

    fn append(&mut self, path: &Text, bytes: &[u8]) -> Result<(), FolderFault> {
        self.calls = self.calls.saturating_add(1);
        match &mut self.place {
            AnyFolders::Memory(files) => match files.content(path.as_bytes()) {
                Some(_) => files.append(path, bytes),
                None => Ok(()),
            },
            AnyFolders::Disk(disk) => disk.append(path, bytes),
        }
    }
}

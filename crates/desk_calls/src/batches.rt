//! Classes that were read, in batches, each of which the workers look at when it is full.

ghost use Rattle.std.specs.Prelude.{◌≡◌, ◌+◌, ◌≤◌, IfOk, length, map};
ghost use Rattle.std.specs.List.{sum_by};
ghost use Rattle.desk_base.specs.Limits.{file_size};
ghost use Rattle.desk_calls.specs.Files.{size_of, sites_in};

use desk_base::{MAX_FILE_SIZE, Memory, Text, TextList};
use desk_readings::Content;
use desk_sites::{ClassSites, class_sites};
use desk_workers::{Gate, Job, Workers, map_batch};
use std::alloc::Global;
use std::mem;
use std::thread::Threads;

/// How many bytes the classes of a batch have together at most.
const BATCH: u64 = MAX_FILE_SIZE as u64;

/// A class file that was read.
#[derive(Debug, Drop)]
pub struct ClassFile {
    /// Its path, relative to the root of the application.
    pub path: Text,
    /// Its bytes.
    pub bytes: Content,
}

/// How many bytes a class file has.
fn size_of(file: &ClassFile) -> u64
    ensures size { result ≡ size_of file.now }
    ensures small { result ≤ file_size }
{
    file.bytes.as_bytes().len() as u64
}

/// Finds the sites of a package in class files.
#[derive(Drop)]
struct FindingSites<'p> {
    alloc: Global,
    package: &'p TextList,
}

/// What a class file gives.
fn sites_in(alloc: Global, package: &TextList, file: &ClassFile) -> Result<ClassSites, Memory>
    ensures { IfOk result (λ sites. sites ≡ sites_in «package».now file.now) }
{
    class_sites(alloc, package, &file.path, file.bytes.as_bytes())
}

impl Job for FindingSites<'_> {
    ghost use Rattle.desk_calls.specs.Files.{size_of, sites_in};

    type Item = ClassFile;

    type Out = ClassSites;

    ghost value = { λ job file. sites_in job.«package».now file };

    ghost weighs = { λ _ file. size_of file };

    fn weight(&self, file: &ClassFile) -> u64 {
        size_of(file)
    }

    fn run(&self, file: &ClassFile) -> Result<ClassSites, Memory> {
        sites_in(self.alloc, self.package, file)
    }
}

/// What was found so far, the batch of classes that nobody has looked at, and how many bytes it has room for.
#[derive(Drop)]
pub struct Finding {
    /// What the classes gave that were looked at.
    pub found: Vec<ClassSites>,
    /// The classes that were read and wait.
    pub batch: Vec<ClassFile>,
    /// How many bytes the batch may still take.
    pub room: u64,
    pub ghost light: { room + sum_by size_of batch.items ≡ file_size },
}

impl Finding {
    ghost use Rattle.std.specs.Prelude.{◌≤◌, ◌<◌, ◌^◌, ◌++◌, ◌∷◌, [], OnOk, IfOk, length};
    ghost use Rattle.desk_calls.specs.Files.{classes_of};
    ghost use Rattle.desk_calls.specs.Found.{all_found};

    /// Nothing was found, and the batch has all its room. It takes no memory.
    pub(crate) fn new(alloc: Global) -> Finding
        ensures found { result.found.items ≡ [] }
        ensures batch { result.batch.items ≡ [] }
    {
        Finding {
            found: Vec::new(alloc),
            batch: Vec::new(alloc),
            room: BATCH,
        }
    }

    /// Has the workers look at the batch, whatever room it has.
    fn close_batch<R: Threads + Sync, G: Gate + Sync>(
        &mut self,
        workers: &Workers<'_, R, G>,
        alloc: Global,
        package: &TextList,
    ) -> Result<(), Memory>
        requires { length self.old.batch.items < 2 ^ 32 }
        ensures batch { self.new.batch.items ≡ [] }
        ensures room { self.new.room ≡ file_size }
        ensures found { OnOk result (all_found «package».now self.new ≡ all_found «package».now self.old) }
    {
        let batch = mem::replace(&mut self.batch, Vec::new(alloc));
        self.room = BATCH;
        let job = FindingSites { alloc, package };
        let mut sites = map_batch(workers, alloc, &batch, &job)?;
        self.found.append(&mut sites)?;
        Ok(())
    }

    /// Takes what was read of one file more: a class, or nothing. Where the batch has no room for a class, the workers look at it
    /// first.
    pub(crate) fn add<R: Threads + Sync, G: Gate + Sync>(
        &mut self,
        workers: &Workers<'_, R, G>,
        alloc: Global,
        package: &TextList,
        read: Option<ClassFile>,
    ) -> Result<(), Memory>
        requires { length self.old.batch.items < 2 ^ 32 }
        ensures found { OnOk result (all_found «package».now self.new ≡ all_found «package».now self.old ++ map (sites_in «package».now) (classes_of read)) }
        ensures batch { OnOk result (length self.new.batch.items ≤ length self.old.batch.items + 1) }
    {
        let Some(file) = read else {
            return Ok(());
        };
        let size = size_of(&file);
        if self.room < size {
            self.close_batch(workers, alloc, package)?;
        }
        self.batch.push(file)?;
        self.room -= size;
        Ok(())
    }

    /// What was found of all of them: the workers look at the last batch.
    pub(crate) fn finish<R: Threads + Sync, G: Gate + Sync>(
        self,
        workers: &Workers<'_, R, G>,
        alloc: Global,
        package: &TextList,
    ) -> Result<Vec<ClassSites>, Memory>
        requires { length self.batch.items < 2 ^ 32 }
        ensures { IfOk result (λ found. found.items ≡ all_found «package».now self) }
    {
        let mut last = self;
        last.close_batch(workers, alloc, package)?;
        let Finding { found, .. } = last;
        Ok(found)
    }
}

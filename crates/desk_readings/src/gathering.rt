//! What was found of the files that were read: each slice is measured while the next is read.

ghost use Rattle.std.specs.Prelude.{All, ◌≡◌, ◌≤◌, ◌<◌, ◌^◌, ◌+◌, ◌++◌, [], OnOk, IfErr, IfOk, IfSome, IsSome, length, map};
ghost use Rattle.std.specs.FinMap as fin;
ghost use Rattle.desk_base.specs.Paths.{full};
ghost use Rattle.desk_readings.specs.Slices.{IsAhead, SliceRead, left_in};
ghost use Rattle.desk_readings.specs.Noting.{NoteFails};
ghost use Rattle.desk_readings.specs.Readings.{all_scanned, first_large, measured_by, measures_of, scans_of};
ghost use Rattle.desk_rules.specs.Rules.{Rules};

use crate::faults::NoteFault;
use crate::measured::MeasuredFile;
use crate::measuring::{FirstReading, Measurement, add_files, add_scanned};
use crate::pending::PendingFile;
use crate::unread::{Unread, read_slice};
use desk_base::Memory;
use desk_folders::Folders;
use desk_graph::Scanned;
use desk_workers::{Gate, Workers, map_beside};
use std::alloc::Global;
use std::thread::Threads;

/// What the first reading found: the files in their order, and what is kept of the classes among them.
#[derive(Debug, Drop)]
pub struct MeasuredFiles {
    /// Each file with its size, its digest and what is noted of it as a class.
    pub files: Vec<MeasuredFile>,
    /// What is kept of the well-formed classes among them, in the files' order.
    pub scanned: Vec<Scanned>,
}

impl MeasuredFiles {
    /// No files. It takes no memory.
    pub(crate) fn new(alloc: Global) -> MeasuredFiles
        ensures files { result.files.items ≡ [] }
        ensures scanned { result.scanned.items ≡ [] }
    {
        MeasuredFiles {
            files: Vec::new(alloc),
            scanned: Vec::new(alloc),
        }
    }

    /// Adds the files of a slice, as the workers measured them.
    fn add(
        &mut self,
        alloc: Global,
        slice: Vec<PendingFile>,
        found: Vec<Measurement>,
    ) -> Result<(), Memory>
        requires count { length found.items ≡ length slice.items }
        requires classes { all_scanned found.items ≡ scans_of slice.items }
        ensures files { (rules : Rules) → found.items ≡ map (measures_of rules) slice.items → OnOk result (self.new.files.items ≡ self.old.files.items ++ map (measured_by rules) slice.items) }
        ensures classes { OnOk result (self.new.scanned.items ≡ self.old.scanned.items ++ scans_of slice.items) }
        ensures few { OnOk result (length self.new.scanned.items ≤ length self.old.scanned.items + length slice.items) }
    {
        add_files(&mut self.files, slice, &found)?;
        add_scanned(alloc, &mut self.scanned, &found)
    }

    /// Adds the files of a slice, which so many workers measure while this thread reads the next one.
    pub(crate) fn add_and_read<R: Threads + Sync, F: Folders, G: Gate + Sync>(
        &mut self,
        workers: &Workers<'_, R, G>,
        reading: &FirstReading<'_>,
        folders: &mut F,
        unread: &mut Unread,
        slice: Vec<PendingFile>,
    ) -> Result<Vec<PendingFile>, NoteFault>
        requires few { length slice.items < 2 ^ 32 }
        requires there { IfSome (F.told folders.old) (λ m. All (λ route. IsSome (fin.get m (full reading.now.from.now route.path))) unread.old.routes.items) }
        requires ahead { IsAhead reading.now.rules.now reading.now.from.now (F.told folders.old) unread.old }
        ensures files { OnOk result (self.new.files.items ≡ self.old.files.items ++ map (measured_by reading.now.rules.now) slice.items) }
        ensures classes { OnOk result (self.new.scanned.items ≡ self.old.scanned.items ++ scans_of slice.items) }
        ensures few { OnOk result (length self.new.scanned.items ≤ length self.old.scanned.items + length slice.items) }
        ensures told { F.told folders.new ≡ F.told folders.old }
        ensures read { IfOk result (λ next. SliceRead reading.now.rules.now reading.now.from.now (F.told folders.old) (left_in unread.old) (left_in unread.new) next.items) }
        ensures ahead { OnOk result (IsAhead reading.now.rules.now reading.now.from.now (F.told folders.old) unread.new) }
        ensures there { IfSome (F.told folders.old) (λ m. All (λ route. IsSome (fin.get m (full reading.now.from.now route.path))) unread.new.routes.items) }
        ensures counts { F.faults folders.old ≤ F.faults folders.new }
        ensures err { IfErr result (NoteFails (λ m. first_large reading.now.from.now m (left_in unread.old)) (F.told folders.old) (F.faults folders.old) (F.faults folders.new)) }
    {
        let (found, next) = map_beside(
            workers,
            reading.alloc,
            &slice,
            reading,
            &mut || -> Result<Vec<PendingFile>, NoteFault>
                requires { IfSome (F.told folders.now) (λ m. All (λ route. IsSome (fin.get m (full reading.now.from.now route.path))) unread.now.routes.items)
                    × IsAhead reading.now.rules.now reading.now.from.now (F.told folders.now) unread.now }
                ensures { (F.told folders.exit.now ≡ F.told folders.entry.now)
                    × IfOk result (λ next. SliceRead reading.entry.now.rules.now reading.entry.now.from.now (F.told folders.entry.now) (left_in unread.entry.now) (left_in unread.exit.now) next.items)
                    × OnOk result (IsAhead reading.entry.now.rules.now reading.entry.now.from.now (F.told folders.entry.now) unread.exit.now)
                    × IfSome (F.told folders.entry.now) (λ m. All (λ route. IsSome (fin.get m (full reading.entry.now.from.now route.path))) unread.exit.now.routes.items)
                    × (F.faults folders.entry.now ≤ F.faults folders.exit.now)
                    × IfErr result (NoteFails (λ m. first_large reading.entry.now.from.now m (left_in unread.entry.now)) (F.told folders.entry.now) (F.faults folders.entry.now) (F.faults folders.exit.now)) }
            { read_slice(reading, folders, unread) },
        );
        let next = next?;
        self.add(reading.alloc, slice, found?)?;
        Ok(next)
    }
}

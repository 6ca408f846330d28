//! The files that are still to be read, and the slices in which they are.

ghost use Rattle.std.specs.Prelude.{All, ◌≡◌, ◌≤◌, ◌∷◌, [], None, OnOk, IfErr, IfOk, IfSome, IsSome, length};
ghost use Rattle.std.specs.FinMap as fin;
ghost use Rattle.std.specs.List.{sum_by};
ghost use Rattle.desk_base.specs.Limits.{file_size};
ghost use Rattle.desk_base.specs.Paths.{full};
ghost use Rattle.desk_readings.specs.Slices.{IsAhead, IsRead, SliceRead, left_in};
ghost use Rattle.desk_readings.specs.Noting.{NoteFails};
ghost use Rattle.desk_readings.specs.Readings.{first_large, weight_in};

use crate::faults::NoteFault;
use crate::measuring::FirstReading;
use crate::noting::note_one;
use crate::pending::PendingFile;
use crate::{SLICE, WHOLE};
use desk_file::Route;
use desk_folders::Folders;
use std::collections::VecDeque;

/// The files that are still to be read, in their order.
#[derive(Drop)]
pub struct Unread {
    /// The first of them, where it was read already and didn't fit into its slice.
    pub ahead: Option<PendingFile>,
    /// The routes of the others.
    pub routes: VecDeque<Route>,
}

impl Unread {
    /// The next file, as it was read; none where none is left.
    fn next<F: Folders>(
        &mut self,
        reading: &FirstReading<'_>,
        folders: &mut F,
    ) -> Result<Option<PendingFile>, NoteFault>
        requires there { IfSome (F.told folders.old) (λ m. All (λ route. IsSome (fin.get m (full reading.now.from.now route.path))) self.old.routes.items) }
        requires ahead { IsAhead reading.now.rules.now reading.now.from.now (F.told folders.old) self.old }
        ensures told { F.told folders.new ≡ F.told folders.old }
        ensures none { IfOk result (λ next. next ≡ None → left_in self.old ≡ []) }
        ensures rest { IfOk result (λ next. next ≡ None → left_in self.new ≡ []) }
        ensures next { IfOk result (λ next. IfSome next (λ pending. left_in self.old ≡ pending.route ∷ left_in self.new)) }
        ensures read { IfOk result (λ next. IfSome next (IsRead reading.now.rules.now reading.now.from.now (F.told folders.old))) }
        ensures taken { self.new.ahead ≡ None }
        ensures there { IfSome (F.told folders.old) (λ m. All (λ route. IsSome (fin.get m (full reading.now.from.now route.path))) self.new.routes.items) }
        ensures counts { F.faults folders.old ≤ F.faults folders.new }
        ensures err { IfErr result (NoteFails (λ m. first_large reading.now.from.now m (left_in self.old)) (F.told folders.old) (F.faults folders.old) (F.faults folders.new)) }
    {
        if let Some(pending) = self.ahead.take() {
            return Ok(Some(pending));
        }
        match self.routes.pop_front() {
            Some(route) => Ok(Some(note_one(reading, folders, route)?)),
            None => Ok(None),
        }
    }
}

/// Reads the next slice: files as they come, until those of them that are held whole have 8,388,608 bytes together. The one that
/// would bring them above 67,108,864 bytes is the first of the next slice. There are none only where none was left.
pub(crate) fn read_slice<F: Folders>(
    reading: &FirstReading<'_>,
    folders: &mut F,
    unread: &mut Unread,
) -> Result<Vec<PendingFile>, NoteFault>
    requires there { IfSome (F.told folders.old) (λ m. All (λ route. IsSome (fin.get m (full reading.now.from.now route.path))) unread.old.routes.items) }
    requires ahead { IsAhead reading.now.rules.now reading.now.from.now (F.told folders.old) unread.old }
    ensures told { F.told folders.new ≡ F.told folders.old }
    ensures read { IfOk result (λ slice. SliceRead reading.now.rules.now reading.now.from.now (F.told folders.old) (left_in unread.old) (left_in unread.new) slice.items) }
    ensures light { IfOk result (λ slice. sum_by (λ pending. weight_in pending.read) slice.items ≤ file_size) }
    ensures ahead { OnOk result (IsAhead reading.now.rules.now reading.now.from.now (F.told folders.old) unread.new) }
    ensures there { IfSome (F.told folders.old) (λ m. All (λ route. IsSome (fin.get m (full reading.now.from.now route.path))) unread.new.routes.items) }
    ensures counts { F.faults folders.old ≤ F.faults folders.new }
    ensures err { IfErr result (NoteFails (λ m. first_large reading.now.from.now m (left_in unread.old)) (F.told folders.old) (F.faults folders.old) (F.faults folders.new)) }
{
    let mut slice = Vec::new(reading.alloc);
    let mut room = WHOLE;
    while room > WHOLE - SLICE {
        let Some(pending) = unread.next(reading, folders)? else {
            return Ok(slice);
        };
        let size = pending.read.weight();
        if size > room {
            unread.ahead = Some(pending);
            return Ok(slice);
        }
        room -= size;
        slice.push(pending)?;
    }
    Ok(slice)
}

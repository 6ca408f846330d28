//! The trait of folders.

ghost use Rattle.std.specs.Prelude.{◌≡◌, ◌≢◌, ◌≤◌, ◌+◌, [], ℕ, length, Option, Err, OnOk, OnErr, IfOk, IfSome, IsSome, IsTrue};
ghost use Rattle.std.specs.List.{list_all};
ghost use Rattle.std.specs.List.Sorted.{IsStrictlySortedBy};
ghost use Rattle.std.specs.Ordering.{nat_cmp};
ghost use Rattle.std.specs.Cmp.Lexicographic.{slice_cmp};
ghost use Rattle.std.specs.FinMap as fin;
ghost use Rattle.desk_base.specs.Paths.{is_root, is_full_path, is_relative_path};
ghost use Rattle.desk_base.specs.Counts.{Rose};
ghost use Rattle.desk_folders.specs.Contents.{Contents, ChangesOnly, IsPart, IsListing, holding, adding, bytes_at, size_at, paths_below};

use desk_base::{Memory, Text, TextList};
use std::alloc::{AllocError, AllocFailed};
use thiserror::Error;

/// Why a call on folders failed.
#[derive(Clone, Copy, Debug, PartialEq, Eq, Error)]
pub enum FolderFault {
    /// The outside refused; the count of faults rose in this call.
    #[error("the folders failed")]
    Failed,
    /// Memory ran out.
    #[error("out of memory")]
    Memory,
}

impl From<Memory> for FolderFault {
    ghost use Rattle.std.specs.Prelude.{◌≡◌};
    ghost use Rattle.desk_folders.specs.declared.folders.FolderFault.TheVariants as fault;

    ghost from_gives = { λ _ it. it ≡ fault.Memory };

    fn from(_: Memory) -> FolderFault {
        FolderFault::Memory
    }
}

impl From<AllocError> for FolderFault {
    ghost use Rattle.std.specs.Prelude.{◌≡◌};
    ghost use Rattle.desk_folders.specs.declared.folders.FolderFault.TheVariants as fault;

    ghost from_gives = { λ _ it. it ≡ fault.Memory };

    fn from(_: AllocError) -> FolderFault {
        FolderFault::Memory
    }
}

impl<T: Drop> From<AllocFailed<T>> for FolderFault {
    ghost use Rattle.std.specs.Prelude.{◌≡◌};
    ghost use Rattle.desk_folders.specs.declared.folders.FolderFault.TheVariants as fault;

    ghost from_gives = { λ _ it. it ≡ fault.Memory };

    fn from(_: AllocFailed<T>) -> FolderFault {
        FolderFault::Memory
    }
}

/// A file to start with: its full path and its bytes.
#[derive(Debug, Drop)]
pub struct GenFile {
    /// Its full path: a root, `/` and a relative path.
    pub path: Text,
    /// The whole of its bytes.
    pub content: Text,
}

/// Folders with files, named by their full paths. They may tell their contents, a map from full path to
/// bytes, and they count their faults. A count never falls, and rises in each call that answers
/// `Failed`, unless it stands at 18,446,744,073,709,551,615. No call changes another path than the one
/// that it names.
pub trait Folders {
    /// What they tell of their contents.
    ghost told: { Self → Option Contents };

    /// How many faults there were.
    ghost faults: { Self → ℕ };

    /// The paths below a root, relative to it, each once and in byte order: all of them where there are
    /// at most `most`, else some `most + 1` of them. A root without files gives none.
    fn list(&mut self, root: &Text, most: u32) -> Result<TextList, FolderFault>
        requires most { most ≤ 1000000 }
        requires root { IsTrue (is_root root.now) }
        ensures paths { IfOk result (λ paths. IfSome (told self.old) (λ m. IsListing most (paths_below root.now m) paths)) }
        ensures few { IfOk result (λ paths. length paths ≤ most + 1) }
        ensures rising { IfOk result (λ paths. IsStrictlySortedBy (slice_cmp nat_cmp) paths) }
        ensures relative { IfOk result (λ paths. IsTrue (list_all is_relative_path paths)) }
        ensures told { told self.new ≡ told self.old }
        ensures counts { faults self.old ≤ faults self.new }
        ensures failed { result ≡ Err FolderFault.Failed → Rose (faults self.old) (faults self.new) };

    /// At most `want` bytes of a file from byte `at` on, and at least one where one is left: an empty
    /// part means the end.
    fn read_part(&mut self, path: &Text, at: u64, want: u32) -> Result<Text, FolderFault>
        requires want { want ≢ 0 }
        requires there { IfSome (told self.old) (λ m. IsSome (fin.get m path.now)) }
        ensures part { IfOk result (λ part. IfSome (told self.old) (λ m. IsPart (bytes_at m path.now) at part)) }
        ensures few { IfOk result (λ part. length part ≤ want) }
        ensures told { told self.new ≡ told self.old }
        ensures counts { faults self.old ≤ faults self.new }
        ensures failed { result ≡ Err FolderFault.Failed → Rose (faults self.old) (faults self.new) };

    /// How many bytes the file at a path has; none where it isn't there.
    fn size(&mut self, path: &Text) -> Result<Option<u64>, FolderFault>
        requires path { IsTrue (is_full_path path.now) }
        ensures size { IfOk result (λ size. IfSome (told self.old) (λ m. size ≡ size_at m path.now)) }
        ensures told { told self.new ≡ told self.old }
        ensures counts { faults self.old ≤ faults self.new }
        ensures failed { result ≡ Err FolderFault.Failed → Rose (faults self.old) (faults self.new) };

    /// Makes the path hold nothing; folders on the way are made. After an error the path may be missing
    /// or hold anything.
    fn create(&mut self, path: &Text) -> Result<(), FolderFault>
        requires path { IsTrue (is_full_path path.now) }
        ensures ok { OnOk result (told self.new ≡ holding path.now [] (told self.old)) }
        ensures err { OnErr result (ChangesOnly path.now (told self.old) (told self.new)) }
        ensures counts { faults self.old ≤ faults self.new }
        ensures failed { result ≡ Err FolderFault.Failed → Rose (faults self.old) (faults self.new) };

    /// Adds bytes at the path's end. After an error the path may be missing or hold anything.
    fn append(&mut self, path: &Text, bytes: &[u8]) -> Result<(), FolderFault>
        requires there { IfSome (told self.old) (λ m. IsSome (fin.get m path.now)) }
        ensures ok { OnOk result (told self.new ≡ adding path.now bytes.now (told self.old)) }
        ensures err { OnErr result (ChangesOnly path.now (told self.old) (told self.new)) }
        ensures counts { faults self.old ≤ faults self.new }
        ensures failed { result ≡ Err FolderFault.Failed → Rose (faults self.old) (faults self.new) };
}

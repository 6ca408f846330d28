//! A file, read in parts.

ghost use Rattle.std.specs.Prelude.{◌≡◌, ◌≤◌, ◌<◌, ◌+◌, None, Err, OnErr, IfOk, IfSome, IsSome, length};
ghost use Rattle.std.specs.FinMap as fin;
ghost use Rattle.desk_base.specs.Counts.{Rose};
ghost use Rattle.desk_folders.specs.Contents.{bytes_at};
ghost use Rattle.desk_readings.specs.Parts.{IsNext, no_end, part_size};

use crate::PART;
use desk_base::Text;
use desk_folders::{FolderFault, Folders};

/// Reads a file in parts, one after another, up to an end.
#[derive(Clone, Copy, Debug)]
pub struct PartReader<'p> {
    /// The path of the file.
    pub path: &'p Text,
    /// How many bytes were given so far.
    pub at: u64,
    /// How many bytes are given at most, at least as many as were given.
    pub end: u64,
    pub ghost within: { at ≤ end },
}

impl<'p> PartReader<'p> {
    /// Reads so many bytes of a file, or fewer where it ends before.
    pub fn new(path: &'p Text, end: u64) -> PartReader<'p>
        ensures path { result.path.now ≡ path.now }
        ensures at { result.at ≡ 0 }
        ensures end { result.end ≡ end }
    {
        PartReader { path, at: 0, end }
    }

    /// Reads a file to its end.
    pub fn whole(path: &'p Text) -> PartReader<'p>
        ensures path { result.path.now ≡ path.now }
        ensures at { result.at ≡ 0 }
        ensures end { result.end ≡ no_end }
    {
        PartReader::new(path, u64::MAX)
    }

    /// The next part, which has at most 1,048,576 bytes; none exactly where so many bytes were given as are given at most, or the file
    /// has no more. After an error, which is one of the folders, the reader is as it was.
    pub fn next<F: Folders>(&mut self, folders: &mut F) -> Result<Option<Text>, FolderFault>
        requires there { IfSome (F.told folders.old) (λ m. IsSome (fin.get m self.old.path.now)) }
        ensures told { F.told folders.new ≡ F.told folders.old }
        ensures part { IfOk result (λ next. IfSome (F.told folders.old) (λ m. IsNext (bytes_at m self.old.path.now) self.old.at self.old.end next)) }
        ensures some { IfOk result (λ next. IfSome next (λ part. (0 < length part) × (length part ≤ part_size) × (self.new.at ≡ self.old.at + length part))) }
        ensures none { IfOk result (λ next. next ≡ None → self.new.at ≡ self.old.at) }
        ensures path { self.new.path.now ≡ self.old.path.now }
        ensures end { self.new.end ≡ self.old.end }
        ensures err { OnErr result (self.new.at ≡ self.old.at) }
        ensures counts { F.faults folders.old ≤ F.faults folders.new }
        ensures failed { result ≡ Err FolderFault.Failed → Rose (F.faults folders.old) (F.faults folders.new) }
    {
        let want = (self.end - self.at).min(u64::from(PART)) as u32;
        if want == 0 {
            return Ok(None);
        }
        let part = folders.read_part(self.path, self.at, want)?;
        if part.as_bytes().is_empty() {
            return Ok(None);
        }
        self.at += part.as_bytes().len() as u64;
        Ok(Some(part))
    }
}

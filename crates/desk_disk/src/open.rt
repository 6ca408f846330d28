//! Files that are open.

ghost use Rattle.std.specs.Prelude.{◌≡◌, ◌≢◌, ◌+◌, ◌-◌, ◌<◌, ◌≤◌, ◌↔◌, ◌⊎◌, ◌^◌, length, min, Some, None, Ok, Err, IfErr, IfOk, IsErr, IsTrue, OnOk};
ghost use Rattle.std.specs.IoError.{error_kind};
ghost use Rattle.std.specs.Io.KnownBytes.{Appends};
ghost use Rattle.std.specs.Fs.{IsDir, IsFile, IsSymlink, file_type, metadata_len};
ghost use Rattle.std.specs.Str.{IsUtf8};
ghost use Rattle.desk_faults.specs.declared.causes.Cause.TheVariants as cause;

use crate::naming::is_of_another_name;
use desk_base::Text;
use desk_faults::{Cause, Refusal, refusal_of};
use desk_places::Node;
use std::alloc::Global;
use std::fs::{self, File, FileType, Metadata, OpenOptions};
use std::io::{self, ErrorKind, Read, Seek, SeekFrom, Write};
use std::path::Path;
use std::str;

/// A file that is open to be read: its path, how many bytes it had as it was opened, and the byte that is read next.
#[derive(Drop)]
pub(crate) struct Reading {
    path: Text,
    file: File,
    len: u64,
    at: u64,
}

/// A file that is open to be written at its end.
#[derive(Drop)]
pub(crate) struct Writing {
    path: Text,
    file: File,
}

/// What an error of the system means: want of memory is told apart from all others.
pub(crate) fn fault_of(error: io::Error) -> Refusal
    ensures memory { error_kind error ≡ ErrorKind.OutOfMemory → result ≡ Refusal.Memory }
    ensures failed { error_kind error ≢ ErrorKind.OutOfMemory → result ≡ Refusal.Failed (Cause.System error) }
{
    refusal_of(error)
}

/// A path as the system takes it, which is UTF-8.
pub(crate) fn text_of(path: &Text) -> Result<&str, Refusal>
    ensures text { IfOk result (λ text. text.now ≡ path.now) }
    ensures refused { IfErr result (λ refusal. (refusal ≡ Refusal.Failed cause.NotText) × ¬ (IsUtf8 path.now)) }
{
    match str::from_utf8(path.as_bytes()) {
        Ok(text) => Ok(text),
        Err(_) => Err(Refusal::Failed(Cause::NotText)),
    }
}

/// How many bytes of a file are read at once whose length the system tells as 0.
const UNKNOWN: u32 = 65_536;

/// How many bytes a part of a file takes: those that the file has from a byte on, and at most `want`. A file whose
/// length the system tells as 0 may hold some nevertheless, as those of `/proc` do.
fn part_size(len: u64, at: u64, want: u32) -> usize
    ensures told { len ≢ 0 → result ≡ min (len - at) want }
    ensures untold { len ≡ 0 → result ≡ min 65536 want }
{
    if len == 0 {
        return UNKNOWN.min(want) as usize;
    }
    len.saturating_sub(at).min(want as u64) as usize
}

/// Reads so many bytes of a file, or those that are left where it got shorter.
fn read_bytes(alloc: Global, file: &mut File, size: usize) -> Result<Text, Refusal>
    requires { size < 2 ^ 32 }
    ensures { IfOk result (λ part. length part ≤ size) }
{
    let mut bytes = vec![in alloc; 0; size]?;
    let mut filled = 0;
    for _ in 0..size {
        if filled == size {
            break;
        }
        let taken = file.read(&mut bytes[filled..]).map_err(fault_of)?;
        if taken == 0 {
            break;
        }
        filled += taken;
    }
    bytes.truncate(filled);
    Ok(Text::from(bytes))
}

/// Writes bytes to a writer, by as many writes as it takes.
fn write_whole<W: Write>(writer: &mut W, bytes: &[u8]) -> Result<(), Refusal>
    ensures { OnOk result (Appends (W.contents writer.old) (W.contents writer.new) bytes.now) }
{
    writer.write_all(bytes).map_err(fault_of)
}

/// Why what isn't a file isn't read.
fn file_in(kind: FileType) -> Result<(), Cause>
    ensures file { IsFile kind → result ≡ Ok tt }
    ensures link { ¬ IsFile kind → IsSymlink kind → result ≡ Err cause.Link }
    ensures folder { ¬ IsFile kind → ¬ IsSymlink kind → IsDir kind → result ≡ Err cause.Folder }
    ensures other { ¬ IsFile kind → ¬ IsSymlink kind → ¬ IsDir kind → result ≡ Err cause.Special }
{
    if kind.is_file() {
        Ok(())
    } else if kind.is_symlink() {
        Err(Cause::Link)
    } else if kind.is_dir() {
        Err(Cause::Folder)
    } else {
        Err(Cause::Special)
    }
}

/// Whether an error of the system says that nothing stands at a path: it isn't there, or is below a file.
pub(crate) fn is_missing(error: &io::Error) -> bool
    ensures { IsTrue result ↔ ((error_kind error.now ≡ ErrorKind.NotFound) ⊎ (error_kind error.now ≡ ErrorKind.NotADirectory)) }
{
    let kind = error.kind();
    kind == ErrorKind::NotFound || kind == ErrorKind::NotADirectory
}

/// How many bytes the file has that was found at a path. There is none where nothing was found, or a link, which
/// is no file of its folder.
fn size_in(found: io::Result<Metadata>) -> Result<Option<u64>, Refusal>
    ensures file { IfOk found (λ found. IsFile (file_type found) → result ≡ Ok (Some (metadata_len found))) }
    ensures link { IfOk found (λ found. IsSymlink (file_type found) → result ≡ Ok None) }
    ensures other { IfOk found (λ found. ¬ IsFile (file_type found) → ¬ IsSymlink (file_type found) → IsErr result) }
    ensures missing { IfErr found (λ error. error_kind error ≡ ErrorKind.NotFound → result ≡ Ok None) }
    ensures below_file { IfErr found (λ error. error_kind error ≡ ErrorKind.NotADirectory → result ≡ Ok None) }
{
    match found {
        Ok(found) if found.is_symlink() => Ok(None),
        Ok(found) => {
            file_in(found.file_type())?;
            Ok(Some(found.len()))
        }
        Err(error) if is_missing(&error) => Ok(None),
        Err(error) => Err(fault_of(error)),
    }
}

/// How many bytes the file at a path has. Nothing is opened, so that a pipe there isn't waited for.
pub(crate) fn size_of(rt: &HostRuntime, path: &Text) -> Result<Option<u64>, Refusal> {
    size_in(fs::symlink_metadata(rt, text_of(path)?))
}

/// Why what is open isn't read: it must be the file that was found at its path just before.
fn same_file(found: Node, opened: Node, kind: FileType) -> Result<(), Cause>
    ensures same { found ≡ opened → IsFile kind → result ≡ Ok tt }
    ensures another { found ≢ opened → result ≡ Err cause.Exchanged }
    ensures no_file { ¬ IsFile kind → result ≡ Err cause.Exchanged }
{
    if found == opened && kind.is_file() {
        Ok(())
    } else {
        Err(Cause::Exchanged)
    }
}

/// Opens a file, to be read from a byte on, and answers how many bytes it has. What stands at the path is looked at first, since
/// opening a pipe waits for its other end; what is open then is compared with it.
fn open_at(rt: &HostRuntime, path: &str, at: u64) -> Result<(File, u64), Refusal> {
    let found = fs::symlink_metadata(rt, path).map_err(fault_of)?;
    file_in(found.file_type())?;
    let mut file = File::open(rt, path).map_err(fault_of)?;
    let opened = file.metadata().map_err(fault_of)?;
    same_file(Node::of(&found), Node::of(&opened), opened.file_type())?;
    if at > 0 {
        file.seek(SeekFrom::Start(at)).map_err(fault_of)?;
    }
    Ok((file, opened.len()))
}

impl Reading {
    /// Opens the file at a path, to be read from a byte on.
    pub(crate) fn open(rt: &HostRuntime, path: &Text, at: u64) -> Result<Reading, Refusal>
        ensures path { IfOk result (λ file. file.path ≡ path.now) }
        ensures at { IfOk result (λ file. file.at ≡ at) }
    {
        let (file, len) = open_at(rt, text_of(path)?, at)?;
        let path = path.clone()?;
        Ok(Reading {
            path,
            file,
            len,
            at,
        })
    }

    /// Whether this is the file at a path, and this byte is read next.
    pub(crate) fn stands_at(&self, path: &Text, at: u64) -> bool
        ensures { IsTrue result ↔ ((self.now.path ≡ path.now) × (self.now.at ≡ at)) }
    {
        self.at == at && self.path == *path
    }

    /// The next part: as many bytes as the file has and are wanted, or fewer where it got shorter. Of a file whose
    /// length is told as 0 it is what is there, at most 65,536 bytes.
    pub(crate) fn read(&mut self, alloc: Global, want: u32) -> Result<Text, Refusal>
        ensures few { IfOk result (λ part. length part ≤ want) }
        ensures told { self.old.len ≢ 0 → IfOk result (λ part. length part ≤ min (self.old.len - self.old.at) want) }
        ensures next { IfOk result (λ part. self.new.at ≡ min (self.old.at + length part) (2 ^ 64 - 1)) }
        ensures path { self.new.path ≡ self.old.path }
    {
        let size = part_size(self.len, self.at, want);
        let part = read_bytes(alloc, &mut self.file, size)?;
        self.at = self.at.saturating_add(part.as_bytes().len() as u64);
        Ok(part)
    }
}

/// Makes the folders on the way to a path.
pub(crate) fn make_parents(rt: &HostRuntime, path: &str) -> Result<(), Refusal> {
    match Path::new(path).parent() {
        Some(parent) => fs::create_dir_all(rt, parent).map_err(fault_of),
        None => Ok(()),
    }
}

/// Takes away what stands where a file is made, unless it has another name there.
fn take_away(rt: &HostRuntime, root: Option<&str>, path: &str) -> Result<(), Refusal> {
    match root {
        Some(root) if is_of_another_name(rt, root, path)? => Err(Refusal::Failed(Cause::OtherName)),
        _ => fs::remove_file(rt, path).map_err(fault_of),
    }
}

/// Makes a file that wasn't there. Where something is, or a folder on the way isn't, the first try fails.
fn create_anew(rt: &HostRuntime, root: Option<&str>, path: &str) -> Result<File, Refusal> {
    match File::create_new(rt, path) {
        Ok(file) => return Ok(file),
        Err(error) if error.kind() == ErrorKind::AlreadyExists => take_away(rt, root, path)?,
        Err(error) if error.kind() == ErrorKind::NotFound => make_parents(rt, path)?,
        Err(error) => return Err(fault_of(error)),
    }
    File::create_new(rt, path).map_err(fault_of)
}

/// A root as the system takes it, where there is one.
fn root_text(root: &Option<Text>) -> Result<Option<&str>, Refusal> {
    match root {
        Some(root) => Ok(Some(text_of(root)?)),
        None => Ok(None),
    }
}

impl Writing {
    /// Opens the file at a path, to be written at its end.
    pub(crate) fn open(rt: &HostRuntime, path: &Text) -> Result<Writing, Refusal>
        ensures { IfOk result (λ file. file.path ≡ path.now) }
    {
        let file = OpenOptions::new()
            .append(true)
            .open(rt, text_of(path)?)
            .map_err(fault_of)?;
        let path = path.clone()?;
        Ok(Writing { path, file })
    }

    /// Makes the file at a path anew, in place of what stands there, and the folders on the way. Below this root what has another name
    /// there stays, and no file is made.
    pub(crate) fn create(
        rt: &HostRuntime,
        root: &Option<Text>,
        path: &Text,
    ) -> Result<Writing, Refusal>
        ensures { IfOk result (λ file. file.path ≡ path.now) }
    {
        let file = create_anew(rt, root_text(root)?, text_of(path)?)?;
        let path = path.clone()?;
        Ok(Writing { path, file })
    }

    /// Whether this is the file at a path.
    pub(crate) fn is_of(&self, path: &Text) -> bool
        ensures { IsTrue result ↔ (self.now.path ≡ path.now) }
    {
        self.path == *path
    }

    /// Writes bytes behind those that were written.
    pub(crate) fn write(&mut self, bytes: &[u8]) -> Result<(), Refusal>
        ensures { self.new.path ≡ self.old.path }
    {
        write_whole(&mut self.file, bytes)
    }
}

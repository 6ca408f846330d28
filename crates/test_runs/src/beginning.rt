//! What the folders and the ledger of a case begin with.

ghost use Rattle.std.specs.Prelude.{◌≡◌};
ghost use Rattle.std.specs.List.{list_all};
ghost use Rattle.desk_base.specs.Paths.{is_full_path};

use crate::scene::Scene;
use crate::words::{number_of, numbers_of, text_of};
use crate::written::{class_of, say};
use desk_base::{Memory, Text};
use desk_folders::{GenFile, MemoryFolders, is_full};
use std::alloc::Global;
use test_doubles::{Change, ChangingFolders, Ledger};

/// How many bytes an output has room for, where nothing else is said.
pub const ROOM: u32 = 10_000;

/// What a line says of what a case begins with.
#[derive(Clone, Copy)]
pub enum Setting {
    /// A file of a path and a content.
    File,
    /// Files without bytes in a folder, so many.
    Files,
    /// A file of a path that begins with some bytes, with zeros behind them, so many in all.
    Large,
    /// The class of a name, at a path.
    Class,
    /// A path, and the bytes that its file gives from its second reading on.
    Changing,
    /// The calls of the folders that fail, or those of the ledger, or all commits.
    Failing,
    /// How many bytes the output has room for.
    Room,
    /// That runs wait for two items to be under way at once.
    Pairs,
    /// That the folders are those of the disk.
    RealFolders,
}

/// The files that folders begin with, and what fails.
#[derive(Drop)]
pub struct Beginning {
    alloc: Global,
    files: Vec<GenFile>,
    /// The calls of folders in memory that fail.
    pub folders_fail: Vec<u64>,
    /// The calls of the ledger that fail.
    pub ledger_fails: Vec<u64>,
    commits_fail: bool,
    change: Option<Box<Change>>,
    on_disk: bool,
    /// Whether a run waits for two items to be under way at once.
    pub pairs: bool,
    /// How many bytes an output has room for.
    pub room: u32,
}

/// Whether each file has a full path.
fn have_full_paths(files: &[GenFile]) -> bool
    ensures { result ≡ list_all (λ file. is_full_path file.path) files.now }
{
    files.iter().all(|file| is_full(file.path.as_bytes()))
}

/// A copy of a file.
fn copy_of(file: &GenFile) -> Result<GenFile, Memory> {
    let path = file.path.clone()?;
    let content = file.content.clone()?;
    Ok(GenFile { path, content })
}

/// Bytes that begin so, with zeros behind them: so many in all.
fn filled(alloc: Global, front: &Text, length: u32) -> Result<Text, Memory> {
    let mut bytes = front.as_bytes().to_vec(alloc)?;
    bytes.resize(length as usize, 0)?;
    Ok(Text::from(bytes))
}

impl Beginning {
    /// No files, and nothing fails.
    pub fn new(alloc: Global) -> Beginning {
        Beginning {
            alloc,
            files: Vec::new(alloc),
            folders_fail: Vec::new(alloc),
            ledger_fails: Vec::new(alloc),
            commits_fail: false,
            change: None,
            on_disk: false,
            pairs: false,
            room: ROOM,
        }
    }

    /// Adds a file. Of two with one path the later counts.
    fn add(&mut self, path: &[u8], content: Text) -> Result<(), Memory> {
        let path = Text::from_bytes(self.alloc, path)?;
        self.files.push(GenFile { path, content })?;
        Ok(())
    }

    /// Adds so many files without bytes to a folder.
    fn add_files(&mut self, folder: &Text, number: u32) -> Result<(), Memory> {
        for i in 0..number {
            let path = format!(in self.alloc; "{}/{i}", text_of(folder))?;
            self.add(path.as_bytes(), Text::empty(self.alloc))?;
        }
        Ok(())
    }

    /// Adds the class of a name.
    fn add_class(&mut self, path: &Text, name: &Text, out: &mut String) -> Result<(), Memory> {
        match class_of(name.as_bytes()) {
            Some(class) => self.add(path.as_bytes(), Text::from_bytes(self.alloc, class)?),
            None => say(out, "no such class"),
        }
    }

    /// Lets calls fail, or all commits.
    fn let_fail(&mut self, what: &Text, calls: &[Text], out: &mut String) -> Result<(), Memory> {
        let calls = numbers_of(self.alloc, calls)?;
        match what.as_bytes() {
            b"folders" => self.folders_fail = calls,
            b"ledger" => self.ledger_fails = calls,
            b"commits" => self.commits_fail = true,
            _ => return say(out, "nothing that fails"),
        }
        Ok(())
    }

    /// Lets a file give other bytes from its second reading on.
    fn let_change(&mut self, path: &Text, second: &Text) -> Result<(), Memory> {
        let change = Change::new(path.clone()?, second.clone()?);
        self.change = Some(Box::new(self.alloc, change)?);
        Ok(())
    }

    /// Does what a line says.
    pub fn set(
        &mut self,
        setting: Setting,
        words: &[Text],
        out: &mut String,
    ) -> Result<(), Memory> {
        match (setting, words) {
            (Setting::File, [path, content]) => self.add(path.as_bytes(), content.clone()?),
            (Setting::Files, [folder, number]) => self.add_files(folder, number_of(number)),
            (Setting::Large, [path, front, length]) => {
                let content = filled(self.alloc, front, number_of(length))?;
                self.add(path.as_bytes(), content)
            }
            (Setting::Class, [path, name]) => self.add_class(path, name, out),
            (Setting::Changing, [path, second]) => self.let_change(path, second),
            (Setting::Failing, [what, calls @ ..]) => self.let_fail(what, calls, out),
            (Setting::Room, [bytes]) => {
                self.room = number_of(bytes);
                Ok(())
            }
            (Setting::Pairs, []) => {
                self.pairs = true;
                Ok(())
            }
            (Setting::RealFolders, []) => {
                self.on_disk = true;
                Ok(())
            }
            _ => say(out, "other words are wanted"),
        }
    }

    /// Copies of the files.
    fn copies(&self) -> Result<Vec<GenFile>, Memory> {
        let mut copies = Vec::new(self.alloc);
        for file in self.files.as_slice() {
            copies.push(copy_of(file)?)?;
        }
        Ok(copies)
    }

    /// Folders in memory with these files; none where a path is no full path.
    fn in_memory(&self) -> Result<Option<Box<MemoryFolders>>, Memory> {
        let files = self.copies()?;
        if !have_full_paths(&files) {
            return Ok(None);
        }
        let failing = self.folders_fail.clone()?;
        let folders = MemoryFolders::new(self.alloc, files, failing)?;
        Ok(Some(Box::new(self.alloc, folders)?))
    }

    /// The folders; none where a path is no full path.
    pub fn folders<'r>(
        &self,
        rt: &'r HostRuntime,
    ) -> Result<Option<Box<ChangingFolders<'r>>>, Memory> {
        if self.on_disk {
            return Ok(Some(ChangingFolders::on_disk(rt)?));
        }
        match self.in_memory()? {
            Some(files) => {
                let change = self.change.clone()?;
                Ok(Some(ChangingFolders::in_memory(self.alloc, files, change)?))
            }
            None => Ok(None),
        }
    }

    /// The ledger, without rows.
    pub fn ledger(&self) -> Result<Box<Ledger>, Memory> {
        Ledger::new(self.alloc, self.ledger_fails.clone()?, self.commits_fail)
    }

    /// The folders and the ledger; none where a path is no full path.
    pub fn scene<'r>(&self, rt: &'r HostRuntime) -> Result<Option<Box<Scene<'r>>>, Memory> {
        match self.folders(rt)? {
            Some(folders) => Ok(Some(Scene::new(self.alloc, folders, self.ledger()?)?)),
            None => Ok(None),
        }
    }
}

//! What is noted of a report.

use crate::lines::{LineRead, is_archive_file, is_jsr305, is_signature, read_line};
use desk_base::{Memory, Text, TextList};
use desk_choices::{Closing, Names, Noting};
use itoa::Buffer;
use std::alloc::Global;

/// How long a line is at most that is read: two paths of 1,024 bytes, each byte shown by three, and some words.
const LINE: usize = 8192;

/// How many classes are kept in which a name was renamed.
const MOST_RENAMED: usize = 16;

/// How many files were refused, by their reason.
#[derive(Clone, Copy, Debug, PartialEq, Eq)]
pub struct Refusals {
    /// Files refused as `malformed version`.
    pub version: u32,
    /// Files refused as `malformed` of any other kind.
    pub malformed: u32,
    /// Files refused as `overlong`.
    pub overlong: u32,
    /// Files refused as `pool-full`.
    pub pool_full: u32,
    /// Files refused as `twins`.
    pub twins: u32,
    /// Files refused as `bad-line`.
    pub bad_line: u32,
    /// Files refused as `unsettled`.
    pub unsettled: u32,
    /// Files refused for any other reason.
    pub other: u32,
}

impl Refusals {
    fn none() -> Refusals {
        Refusals {
            version: 0,
            malformed: 0,
            overlong: 0,
            pool_full: 0,
            twins: 0,
            bad_line: 0,
            unsettled: 0,
            other: 0,
        }
    }

    /// The count of a reason.
    fn of(&mut self, reason: &[u8], kind: &[u8]) -> &mut u32 {
        match (reason, kind) {
            (b"malformed", b"version") => &mut self.version,
            (b"malformed", _) => &mut self.malformed,
            (b"overlong", _) => &mut self.overlong,
            (b"pool-full", _) => &mut self.pool_full,
            (b"twins", _) => &mut self.twins,
            (b"bad-line", _) => &mut self.bad_line,
            (b"unsettled", _) => &mut self.unsettled,
            _ => &mut self.other,
        }
    }

    /// How many files were refused.
    fn total(&self) -> u32 {
        let mut total = 0_u32;
        for (count, _) in self.rows().iter() {
            total = total.saturating_add(*count);
        }
        total
    }

    /// Each count with what it counts.
    fn rows(&self) -> [(u32, &'static [u8]); 8] {
        [
            (self.version, b"classes of a release that isn't read"),
            (self.malformed, b"classes that aren't well-formed"),
            (self.overlong, b"classes with a text that would be too long"),
            (self.pool_full, b"classes whose constant pool is full"),
            (self.twins, b"classes of which two members would become one"),
            (
                self.bad_line,
                b"service files and manifests with a line that is none",
            ),
            (
                self.unsettled,
                b"texts that a second migration would change again",
            ),
            (self.other, b"others"),
        ]
    }
}

/// What is noted of a report whose bytes are taken one after another.
#[derive(Debug, Drop)]
pub struct Notes {
    alloc: Global,
    line: Text,
    /// Archives that were copied unread.
    pub archives: Names,
    /// Signature files of archives.
    pub signatures: Names,
    /// Classes of a release that isn't read, by their paths as they are shown.
    pub versions: Names,
    /// Classes of JSR 305 that moved.
    pub moved: Names,
    /// Classes of JSR 305 that stayed.
    pub stayed: Names,
    /// The first classes in which a name was renamed, sixteen at most, by their paths as they are shown.
    pub renamed: TextList,
    /// Texts in which no text rule fits anything, by their paths as they are shown.
    pub unchanged: TextList,
    /// How many files were refused, by their reason.
    pub refusals: Refusals,
    /// How many files were written.
    pub written: u32,
    /// How many files were kept from an earlier run.
    pub kept: u32,
    /// How many call sites were found.
    pub sites: u64,
    /// The line of the first path at which two applications differ, without its end; empty where there is none.
    pub differs: Text,
}

impl Notes {
    /// What is noted of a report whose first byte is still to come. It takes no memory.
    pub fn new(alloc: Global) -> Notes {
        Notes {
            alloc,
            line: Text::empty(alloc),
            archives: Names::new(alloc),
            signatures: Names::new(alloc),
            versions: Names::new(alloc),
            moved: Names::new(alloc),
            stayed: Names::new(alloc),
            renamed: TextList::empty(alloc),
            unchanged: TextList::empty(alloc),
            refusals: Refusals::none(),
            written: 0,
            kept: 0,
            sites: 0,
            differs: Text::empty(alloc),
        }
    }

    /// Counts a file that was written.
    fn count_written(&mut self) {
        self.written = self.written.saturating_add(1);
    }

    /// Counts a file that was copied, and notes it where it is an archive or a signature file.
    fn copied(&mut self, path: &[u8]) -> Result<(), Memory> {
        self.count_written();
        if is_archive_file(path) {
            self.archives.take(self.alloc, path)
        } else if is_signature(path) {
            self.signatures.take(self.alloc, path)
        } else {
            Ok(())
        }
    }

    /// Keeps a class in which a name was renamed, where fewer than sixteen are.
    fn keep_renamed(&mut self, path: &[u8]) -> Result<(), Memory> {
        if self.renamed.len() < MOST_RENAMED {
            self.renamed.push(Text::from_bytes(self.alloc, path)?)?;
        }
        Ok(())
    }

    /// Counts a class that was written, and notes it where it is one of JSR 305.
    fn class(&mut self, path: &[u8], target: &[u8], is_renamed: bool) -> Result<(), Memory> {
        self.count_written();
        if is_renamed {
            self.keep_renamed(path)?;
        }
        if !is_jsr305(path) {
            Ok(())
        } else if path == target {
            self.stayed.take(self.alloc, path)
        } else {
            self.moved.take(self.alloc, path)
        }
    }

    /// Counts a text that was written, and keeps its path.
    fn unchanged(&mut self, path: &[u8]) -> Result<(), Memory> {
        self.count_written();
        self.unchanged.push(Text::from_bytes(self.alloc, path)?)
    }

    /// Counts a file that was refused, and notes a class whose release isn't read.
    fn refused(&mut self, path: &[u8], reason: &[u8], kind: &[u8]) -> Result<(), Memory> {
        let count = self.refusals.of(reason, kind);
        *count = count.saturating_add(1);
        if kind == b"version".as_slice() {
            self.versions.take(self.alloc, path)
        } else {
            Ok(())
        }
    }

    /// Keeps the line of the first path at which two applications differ.
    fn differs(&mut self, line: &[u8]) -> Result<(), Memory> {
        self.differs = Text::from_bytes(self.alloc, line)?;
        Ok(())
    }

    /// Takes a whole line. What memory doesn't suffice for is left out.
    fn take_line(&mut self, line: &[u8]) {
        let _ = match read_line(line) {
            LineRead::Copied(path) => self.copied(path),
            LineRead::Class {
                path,
                target,
                is_renamed,
            } => self.class(path, target, is_renamed),
            LineRead::Unchanged(path) => self.unchanged(path),
            LineRead::Written => {
                self.count_written();
                Ok(())
            }
            LineRead::Refused { path, reason, kind } => self.refused(path, reason, kind),
            LineRead::Kept => {
                self.kept = self.kept.saturating_add(1);
                Ok(())
            }
            LineRead::Site => {
                self.sites = self.sites.saturating_add(1);
                Ok(())
            }
            LineRead::Differs => self.differs(line),
            LineRead::Other => Ok(()),
        };
    }

    /// Reads the line that was kept, and keeps none.
    fn end_line(&mut self) {
        let line = std::mem::replace(&mut self.line, Text::empty(self.alloc));
        self.take_line(line.as_bytes());
    }

    /// Keeps bytes of a line, as many as one has that is read.
    fn keep(&mut self, bytes: &[u8]) {
        let room = LINE.saturating_sub(self.line.as_bytes().len());
        let _ = self.line.append(&bytes[..room.min(bytes.len())]);
    }

    /// Adds a line with the counts of refused files by their reasons, where there are some.
    fn append_refusals(&self, text: &mut Text) -> Result<(), Memory> {
        let mut front: &[u8] = b"migrate: refused: ";
        for (count, what) in self.refusals.rows().iter() {
            if *count > 0 {
                text.append(front)?;
                text.append(Buffer::new().format(*count).as_bytes())?;
                text.append(b" ")?;
                text.append(what)?;
                front = b", ";
            }
        }
        if front == b", ".as_slice() {
            text.append(b"\n")?;
        }
        Ok(())
    }

    /// Adds what to do about the call sites that were found, where there are some.
    fn append_sites(&self, text: &mut Text) -> Result<(), Memory> {
        if self.sites > 0 {
            text.append(b"migrate: ")?;
            text.append(Buffer::new().format(self.sites).as_bytes())?;
            text.append(SITES)?;
        }
        Ok(())
    }

    /// What came of a run that completed, with so many notes that were told.
    pub fn closing(&self, notes: u32) -> Closing {
        let refused = self.refusals.total();
        let done = self.written.saturating_add(self.kept);
        Closing {
            files: done.saturating_add(refused),
            written: self.written,
            kept: self.kept,
            refused,
            notes,
        }
    }

    /// Adds what was noted, in lines that begin with `migrate: `. The only error is want of memory.
    pub fn append_to(&self, text: &mut Text) -> Result<(), Memory> {
        self.append_refusals(text)?;
        self.archives.append_to(text, ARCHIVES)?;
        self.signatures.append_to(text, SIGNATURES)?;
        self.moved.append_to(text, MOVED)?;
        self.append_sites(text)
    }

    /// What was noted, as it is told. The only error is want of memory.
    pub fn text(&self) -> Result<Text, Memory> {
        let mut text = Text::empty(self.alloc);
        self.append_to(&mut text)?;
        Ok(text)
    }
}

const ARCHIVES: &[u8] =
    b"archives were copied unread; unpack them into folders of their names to have them migrated, the first of them:";

const SIGNATURES: &[u8] =
    b"signature files no longer fit what they sign; remove them from the target, or sign the archive anew, the first of them:";

const MOVED: &[u8] =
    b"annotations of JSR 305 moved with the package javax.annotation, and tools that look for their old names miss them; see docs/RULES.md:";

const SITES: &[u8] =
    b" instructions use members of the package; migrate the application by rules that rename it, and look again in the target\n";

impl Noting for Notes {
    /// Takes bytes of the report, behind those that were taken: each line is read as it ends.
    fn take(&mut self, bytes: &[u8]) {
        for (ended, part) in bytes.split(|byte| *byte == b'\n').enumerate() {
            if ended > 0 {
                self.end_line();
            }
            self.keep(part);
        }
    }
}

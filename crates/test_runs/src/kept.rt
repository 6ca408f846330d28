//! What a run left, kept to be compared with what others leave.

use crate::scene::{RESULTS, Scene};
use crate::written::{say, write_content, write_header, write_row};
use desk_base::{Memory, Text};
use desk_ledger::{Digest, digest_of};
use test_cases::Shown;

/// What a run left, written out, and its report.
#[derive(Drop)]
pub struct Kept {
    /// All files, the ledger's header, and the rows of the targets.
    left: String,
    targets: Vec<Text>,
    /// What the run wrote as its report.
    pub report: String,
}

impl Kept {
    /// What the last run left.
    pub fn of(scene: &mut Scene) -> Result<Box<Kept>, Memory> {
        let alloc = scene.alloc;
        let kept = Kept {
            left: scene.left()?,
            targets: scene.targets()?,
            report: String::from_str(alloc, scene.text())?,
        };
        Ok(Box::new(alloc, kept)?)
    }

    /// Answers whether a scene has the same files, header and rows.
    pub fn compare(&self, scene: &mut Scene, out: &mut String) -> Result<(), Memory> {
        let left = scene.left()?;
        say(
            out,
            if left.as_str() == self.left.as_str() {
                "alike"
            } else {
                "other files or rows"
            },
        )
    }

    /// Answers a mark for each target: `+` where a scene holds the bytes that its row says, `!` where it holds others, `-`
    /// where it has no row.
    pub fn write_marks(&self, scene: &mut Scene, out: &mut String) -> Result<(), Memory> {
        out.push_str("  rows ")?;
        for target in self.targets.as_slice() {
            out.push(scene.mark_of(target)?)?;
        }
        Ok(out.push('\n')?)
    }
}

impl Scene<'_> {
    /// Appends the paths and contents of all files, the ledger's header, and the rows of the targets in the folder for results.
    fn write_left(&mut self, out: &mut String) -> Result<(), Memory> {
        for path in self.folders.paths()?.as_slice() {
            writeln!(out, "{}", Shown(path.as_bytes()))?;
            write_content(self.folders.content(path.as_bytes()), out)?;
        }
        self.write_header(out)?;
        for target in self.targets()?.as_slice() {
            self.write_row(target, out)?;
        }
        Ok(())
    }

    /// Answers the header of the ledger.
    fn write_header(&mut self, out: &mut String) -> Result<(), Memory> {
        match self.ledger.header_of(self.alloc)? {
            Some(header) => write_header(&header, out),
            None => say(out, "no header"),
        }
    }

    /// Answers the row of a target.
    pub fn write_row(&mut self, target: &Text, out: &mut String) -> Result<(), Memory> {
        match self.ledger.row_of(self.alloc, target)? {
            Some(row) => write_row(&row, out),
            None => say(out, "no row"),
        }
    }

    /// What runs left, written out.
    fn left(&mut self) -> Result<String, Memory> {
        let mut out = String::new(self.alloc);
        self.write_left(&mut out)?;
        Ok(out)
    }

    /// The digest of what stands at a target.
    fn digest_at(&self, target: &Text) -> Result<Option<Digest>, Memory> {
        let mut path = Text::from_bytes(self.alloc, RESULTS)?;
        path.append(target.as_bytes())?;
        match self.folders.content(path.as_bytes()) {
            Some(bytes) => Ok(Some(digest_of(bytes))),
            None => Ok(None),
        }
    }

    /// The mark of a target.
    fn mark_of(&mut self, target: &Text) -> Result<char, Memory> {
        let digest = self.digest_at(target)?;
        match self.ledger.row_of(self.alloc, target)? {
            Some(row) if row.output == digest => Ok('+'),
            Some(_) => Ok('!'),
            None => Ok('-'),
        }
    }
}

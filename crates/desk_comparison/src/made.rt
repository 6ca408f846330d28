//! What files have become so far.

ghost use Rattle.std.specs.Prelude.{All, ◌≤◌, length};
ghost use Rattle.desk_base.specs.Limits.{file_size};

use desk_base::{Memory, Text};
use desk_report::{Reason, ReportLine, append_line};
use std::alloc::Global;
use std::collections::BTreeMap;

/// What files have become so far.
#[derive(Drop)]
pub struct Made {
    /// The images by their targets.
    pub images: BTreeMap<Text, Text>,
    /// The lines of the files that have no image, in the order of the files.
    pub lines: Text,
    /// Whether some file has no image.
    pub refused: bool,
    pub ghost short: { All (λ image. length image.1 ≤ file_size) images.entries },
}

impl Made {
    ghost use Rattle.std.specs.Prelude.{◌≡◌, ◌≤◌, ◌++◌, [], true, false, OnOk, length};
    ghost use Rattle.std.specs.BTreeMap.{insert_entry};
    ghost use Rattle.std.specs.Cmp.Lexicographic.{slice_cmp};
    ghost use Rattle.std.specs.Ordering.{nat_cmp};
    ghost use Rattle.desk_base.specs.Limits.{file_size};
    ghost use Rattle.desk_report.specs.Texts.{line_text};
    ghost use Rattle.desk_report.specs.declared.lines.ReportLine.TheVariants.{Refused};

    /// Of no files.
    pub(crate) fn new(alloc: Global) -> Made
        ensures images { result.images.entries ≡ [] }
        ensures lines { result.lines ≡ [] }
        ensures refused { result.refused ≡ false }
    {
        Made {
            images: BTreeMap::new(alloc),
            lines: Text::empty(alloc),
            refused: false,
        }
    }

    /// Adds an image at its target.
    pub(crate) fn accept(&mut self, target: Text, bytes: Text) -> Result<(), Memory>
        requires { length bytes ≤ file_size }
        ensures images { OnOk result (self.new.images.entries ≡ insert_entry (slice_cmp nat_cmp) self.old.images.entries target bytes) }
        ensures lines { OnOk result (self.new.lines ≡ self.old.lines) }
        ensures refused { OnOk result (self.new.refused ≡ self.old.refused) }
    {
        self.images.insert(target, bytes)?;
        Ok(())
    }

    /// Adds the line of a file that has no image.
    pub(crate) fn refuse(&mut self, path: Text, reason: Reason) -> Result<(), Memory>
        ensures images { OnOk result (self.new.images.entries ≡ self.old.images.entries) }
        ensures lines { OnOk result (self.new.lines ≡ self.old.lines ++ line_text (Refused path reason)) }
        ensures refused { OnOk result (self.new.refused ≡ true) }
    {
        self.refused = true;
        append_line(&mut self.lines, &ReportLine::Refused { path, reason })
    }
}

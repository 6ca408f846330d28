//! The image of a text whose class names are exchanged one after the other.

ghost use Rattle.std.specs.Prelude.{◌≡◌, ◌+◌, ◌<◌, ◌≤◌, ◌^◌, ◌++◌, IfOk, OnOk, MatchOption, length, drop};
ghost use Rattle.desk_base.specs.Descriptors.{as_is};
ghost use Rattle.desk_names.specs.ClassNames.{class_name};
ghost use Rattle.desk_names.specs.Pieces.{Piece, piece_of};
ghost use Rattle.desk_rename.specs.Drafts.{IsNew, IsNext, IsTaken, IsWhole, stands};

use crate::fronts::append_segments;
use desk_base::{Memory, Text};
use desk_names::{ClassName, Part};
use desk_rules::{RuleSet, Separator};
use std::alloc::Global;

/// The image of a text, as far as its parts were looked at. No memory is taken before the first part
/// that changes.
#[derive(Drop)]
pub struct Draft {
    /// How many bytes of the text were looked at.
    pub at: usize,
    /// Of how many bytes the image is written; none before the first change.
    pub copied: usize,
    /// The image of the bytes before `copied`.
    pub image: Text,
}

/// How many bytes a class name has.
fn name_length(name: &ClassName<'_>) -> usize
    requires { length (class_name name.now.package.now name.now.simple.now) < 2 ^ 64 }
    ensures { result ≡ length (class_name name.now.package.now name.now.simple.now) }
{
    if name.package.is_empty() {
        name.simple.len()
    } else {
        name.package.len() + 1 + name.simple.len()
    }
}

impl Draft {
    /// A draft that stands in front of a text, of which nothing is written yet. It takes no memory.
    pub fn new(alloc: Global) -> Draft
        ensures { IsNew result }
    {
        Draft {
            at: 0,
            copied: 0,
            image: Text::empty(alloc),
        }
    }

    /// Takes the class name that the text goes on with.
    fn take_name(
        &mut self,
        rules: &RuleSet,
        text: &[u8],
        name: &ClassName<'_>,
    ) -> Result<(), Memory>
        requires { IsNext text.now self.old (Piece.class name.now.package.now name.now.simple.now) }
        ensures { OnOk result (IsTaken rules.now.renames text.now self.old (Piece.class name.now.package.now name.now.simple.now) self.new) }
    {
        let length = name_length(name);
        match rules.package(name.package, Separator::Slash) {
            None => {
                self.at += length;
                Ok(())
            }
            Some(front) => {
                self.image.append(&text[self.copied..self.at])?;
                append_segments(&mut self.image, front.segments.as_slice(), b'/')?;
                self.copied = self.at + front.taken;
                self.at += length;
                Ok(())
            }
        }
    }

    /// Takes the part that the text goes on with.
    pub fn take(&mut self, rules: &RuleSet, text: &[u8], part: Part<'_>) -> Result<(), Memory>
        requires { IsNext text.now self.old (piece_of part) }
        ensures { OnOk result (IsTaken rules.now.renames text.now self.old (piece_of part.entry) self.new) }
    {
        match part {
            Part::Other(bytes) => {
                self.at += bytes.len();
                Ok(())
            }
            Part::Class(name) => self.take_name(rules, text, &name),
        }
    }

    /// The image of a text whose parts were all looked at; none where nothing changed.
    pub fn finish(self, text: &[u8]) -> Result<Option<Text>, Memory>
        requires { IsWhole text.now self }
        ensures { IfOk result (λ image. MatchOption image (self.copied ≡ 0) (λ image. (0 < self.copied) × (image ≡ stands text.now self))) }
    {
        if self.copied == 0 {
            return Ok(None);
        }
        let mut image = self.image;
        image.append(&text[self.copied..])?;
        Ok(Some(image))
    }
}

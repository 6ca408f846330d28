//! Texts with some of their bytes exchanged.

ghost use Rattle.std.specs.Prelude.{◌≡◌, ◌≢◌, ◌≤◌, ◌++◌, [], IfOk, OnOk, MatchOption, length, unwrap_or};
ghost use Rattle.desk_clauses.specs.Edits.{edited, between, IsEdited};

use desk_base::{Memory, Text};
use std::alloc::Global;

/// A text with some of its bytes exchanged, as far as it was gone over. It takes no memory before the first exchange.
#[derive(Drop)]
pub struct Edits {
    /// How many bytes of the text, from its first on, `image` stands for.
    pub copied: usize,
    /// What these bytes became; nothing is written before the first exchange.
    pub image: Text,
}

/// An image as an answer for its text: none exactly where the two are equal.
pub fn image_or_none(text: &[u8], image: Text) -> Option<Text>
    ensures { MatchOption result (image ≡ text.now) (λ it. (it ≡ image) × (image ≢ text.now)) }
{
    if image.as_bytes() == text {
        None
    } else {
        Some(image)
    }
}

impl Edits {
    /// Edits that start at the first byte of a text, of which nothing is exchanged yet. It takes no memory.
    pub fn new(alloc: Global) -> Edits
        ensures copied { result.copied ≡ 0 }
        ensures image { result.image ≡ [] }
    {
        Edits {
            copied: 0,
            image: Text::empty(alloc),
        }
    }

    /// Exchanges the bytes between two places. The only error is want of memory; a part may have been copied then.
    pub fn exchange(
        &mut self,
        text: &[u8],
        from: usize,
        to: usize,
        new: &[u8],
    ) -> Result<(), Memory>
        requires behind { self.old.copied ≤ from }
        requires order { from ≤ to }
        requires inside { to ≤ length text.now }
        ensures { OnOk result (IsEdited text.now self.old self.new from to new.now) }
    {
        self.image.append(&text[self.copied..from])?;
        self.image.append(new)?;
        self.copied = to;
        Ok(())
    }

    /// Exchanges the bytes between two places for their image, or keeps them where there is none. The only error is want of
    /// memory; a part may have been copied then.
    pub fn put(
        &mut self,
        text: &[u8],
        from: usize,
        to: usize,
        new: Option<Text>,
    ) -> Result<(), Memory>
        requires behind { self.old.copied ≤ from }
        requires order { from ≤ to }
        requires inside { to ≤ length text.now }
        ensures { OnOk result (IsEdited text.now self.old self.new from to (unwrap_or new (between from to text.now))) }
    {
        match new {
            None => Ok(()),
            Some(new) => self.exchange(text, from, to, new.as_bytes()),
        }
    }

    /// The image of the whole text; none exactly where it is the text itself. The only error is want of memory.
    pub fn finish(self, text: &[u8]) -> Result<Option<Text>, Memory>
        requires { self.copied ≤ length text.now }
        ensures { IfOk result (λ answer. MatchOption answer
            (edited text.now self (length text.now) ≡ text.now)
            (λ it. (it ≡ edited text.now self (length text.now)) × (edited text.now self (length text.now) ≢ text.now))) }
    {
        if self.copied == 0 && self.image.as_bytes().is_empty() {
            return Ok(None);
        }
        let mut image = self.image;
        image.append(&text[self.copied..])?;
        Ok(image_or_none(text, image))
    }

    /// The image of the whole text, also where it is the text itself. The only error is want of memory.
    pub fn into_text(self, text: &[u8]) -> Result<Text, Memory>
        requires { self.copied ≤ length text.now }
        ensures { IfOk result (λ image. image ≡ edited text.now self (length text.now)) }
    {
        let mut image = self.image;
        image.append(&text[self.copied..])?;
        Ok(image)
    }
}

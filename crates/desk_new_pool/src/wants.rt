//! What uses want.

ghost use Rattle.std.specs.Prelude.{◌≡◌, ◌<◌, length, slice_get, Some};
ghost use Rattle.std.specs.Simd.Lanes.{zip2};
ghost use Rattle.desk_new_pool.specs.Wants.{with_image, numbered};

use desk_base::Used;
use std::marker::Model;

/// A use of a text, and the image of that text.
#[derive(Clone, Copy, Debug)]
pub struct WantedText<'a> {
    /// Where the text is used, and in which role.
    pub used: Used,
    /// The image, and none where it is the text itself.
    pub image: Option<&'a [u8]>,
}

/// What the uses of a class want: each use with the image of its text. Contracts see the list of them. The uses stay where
/// they stand, and the images are few, so that a use takes four bytes here.
#[derive(Drop)]
pub struct WantedTexts<'a> {
    uses: &'a [Used],
    numbers: Vec<u32>,
    images: Vec<&'a [u8]>,
}

impl<'a> Model for WantedTexts<'a> {
    ghost use Rattle.std.specs.Prelude.{◌≡◌, List, length};
    ghost use Rattle.std.specs.Simd.Lanes.{zip2};
    ghost use Rattle.desk_new_pool.specs.declared.wants.WantedText.{WantedText};
    ghost use Rattle.desk_new_pool.specs.Wants.{with_image};

    ghost Value = { List WantedText };

    ghost view = { λ w. zip2 (with_image w.images.items) w.uses.now w.numbers.items };

    ghost invariant = { λ w. length w.numbers.items ≡ length w.uses.now };
}

/// The image of a number: that at the place before the number, counted from 0, and none where there is no such place.
fn numbered<'a>(images: &[&'a [u8]], number: u32) -> Option<&'a [u8]>
    ensures { result ≡ numbered images.now number }
{
    if number == 0 {
        return None;
    }
    match images.get(number as usize - 1) {
        None => None,
        Some(image) => Some(*image),
    }
}

impl<'a> WantedTexts<'a> {
    /// The uses, each with the image of its number: 0 where the text is its own image, and else one more than the place of
    /// the image among `images`. It takes no memory.
    pub fn new(uses: &'a [Used], numbers: Vec<u32>, images: Vec<&'a [u8]>) -> WantedTexts<'a>
        requires { length numbers.items ≡ length uses.now }
        ensures { result ≡ zip2 (with_image images.entry.items) uses.now numbers.items }
    {
        WantedTexts {
            uses,
            numbers,
            images,
        }
    }

    /// How many uses there are.
    pub fn len(&self) -> usize
        ensures { result ≡ length self.now }
    {
        self.uses.len()
    }

    /// The use at a place, counted from 0, with the image of its text.
    pub fn get(&self, place: usize) -> WantedText<'a>
        requires { place < length self.now }
        ensures { slice_get self.now place ≡ Some result }
    {
        let uses = self.uses;
        let image = numbered(self.images.as_slice(), self.numbers[place]);
        WantedText {
            used: uses[place],
            image,
        }
    }
}

//! The images for which an index is sought.

ghost use Rattle.std.specs.Prelude.{◌≡◌, ◌<◌, length, map, filter, is_none, IfOk, All, option_copied};
ghost use Rattle.desk_format.specs.Split.{holds};
ghost use Rattle.desk_new_pool.specs.Places.{place_in, not_kept};
ghost use Rattle.desk_new_pool.specs.Sought.{sought_among};
ghost use Rattle.desk_new_pool.specs.declared.wants.WantedText.{WantedText};

use crate::wants::{WantedText, WantedTexts};
use desk_base::Memory;
use std::alloc::Global;
use std::collections::{BTreeMap, BTreeSet};
use std::marker::Model;

/// How many lengths are told apart: those of most names and descriptors.
const LENGTHS: usize = 256;

/// The image of a use where its entry keeps another text.
pub fn not_kept<'a>(texts: &[Option<&'a [u8]>], want: &WantedText<'a>) -> Option<&'a [u8]>
    requires { want.now.used.index < length texts.now }
    ensures { option_copied result ≡ not_kept texts.now want.now }
{
    match want.image {
        None => None,
        Some(image) => match texts[want.used.index as usize] {
            None => Some(image),
            Some(text) => { if text == image { None } else { Some(image) } }
        },
    }
}

/// The images of the uses whose entries keep other texts. Contracts see them in byte order, each once. They are few, and most
/// other texts have the length of none of them, so that no bytes are compared to tell such a text from them.
#[derive(Drop)]
pub struct SoughtImages<'a> {
    images: BTreeSet<&'a [u8]>,
    /// Whether some image has a length, by what is left of it after division by [`LENGTHS`].
    has_length: [bool; LENGTHS],
}

impl<'a> Model for SoughtImages<'a> {
    ghost use Rattle.std.specs.Prelude.{ℕ, List};
    ghost use Rattle.desk_new_pool.specs.Places.{in_set};
    ghost use Rattle.desk_new_pool.specs.Sought.{KnowsLengths};

    ghost Value = { List (List ℕ) };

    ghost view = { λ s. in_set s.images };

    ghost invariant = { λ s. KnowsLengths s.has_length (in_set s.images) };
}

impl<'a> SoughtImages<'a> {
    /// The images of the uses whose entries keep other texts. The only error is want of memory.
    pub fn of(
        alloc: Global,
        texts: &[Option<&'a [u8]>],
        wants: &WantedTexts<'a>,
    ) -> Result<SoughtImages<'a>, Memory>
        requires { All (λ (w : WantedText). w.used.index < length texts.now) wants.now }
        ensures { IfOk result (λ sought. sought ≡ sought_among texts.now wants.now) }
    {
        let mut images = BTreeSet::new(alloc);
        let mut has_length = [false; LENGTHS];
        for place in (0..wants.len()).rev() {
            if let Some(image) = not_kept(texts, &wants.get(place)) {
                images.insert(image)?;
                has_length[image.len() % LENGTHS] = true;
            }
        }
        Ok(SoughtImages { images, has_length })
    }

    /// Whether a text is one of the images. It takes no memory.
    pub fn has(&self, text: &[u8]) -> bool
        ensures { result ≡ holds self.now text.now }
    {
        self.has_length[text.len() % LENGTHS] && self.images.contains(text)
    }

    /// The images that have no place, in byte order. The only error is want of memory.
    pub fn without_place(
        &self,
        alloc: Global,
        places: &BTreeMap<&'a [u8], u16>,
    ) -> Result<Vec<&'a [u8]>, Memory>
        ensures { IfOk result (λ missing. map (λ t. t.now) missing.items ≡ filter (λ t. is_none (place_in places.now t)) self.now) }
    {
        let mut missing = Vec::new(alloc);
        for image in &self.images {
            if !places.contains_key(*image) {
                missing.push(*image)?;
            }
        }
        Ok(missing)
    }
}

//! Images that are too long for a Utf8 (JVMS 4.4.7).

ghost use Rattle.std.specs.Prelude.{◌≡◌, ◌<◌, ◌^◌, All, length, option_copied};
ghost use Rattle.desk_base.specs.Entries.{Pool, text_at};
ghost use Rattle.desk_format.specs.Split.{wanted};
ghost use Rattle.desk_format.specs.NewClass.{greatest_length};
ghost use Rattle.desk_new_pool.specs.Wants.{IsWanted, wants_of, image_is_long, image_or};
ghost use Rattle.desk_new_pool.specs.Refusals.{IsLeastLong, lesser};
ghost use Rattle.desk_new_pool.specs.declared.wants.WantedText.{WantedText};

use crate::wants::WantedTexts;

/// The greatest length of a Utf8, in bytes.
const LONGEST: usize = 65535;

/// Whether an image is too long.
fn is_long(image: Option<&[u8]>) -> bool
    ensures { result ≡ image_is_long image.entry }
{
    match image {
        None => false,
        Some(image) => image.len() > LONGEST,
    }
}

/// The lesser of two indices, of which the first may be missing.
fn lesser(least: Option<u16>, index: u16) -> u16
    ensures { result ≡ lesser least index }
{
    match least {
        None => index,
        Some(least) => least.min(index),
    }
}

/// The least index of a use whose image is too long, and none where no image is.
pub fn least_long(wants: &WantedTexts<'_>) -> Option<u16>
    ensures { (pool : Pool) → All (IsWanted pool) wants.now → IsLeastLong (wants_of pool wants.now) result }
{
    let mut least = None;
    for place in (0..wants.len()).rev() {
        let want = wants.get(place);
        if is_long(want.image) {
            least = Some(lesser(least, want.used.index));
        }
    }
    least
}

/// The length of a wanted text.
fn wanted_length(own: &[u8], image: Option<&[u8]>) -> u64
    ensures { result ≡ length (image_or own.now image.entry) }
{
    match image {
        None => own.len() as u64,
        Some(image) => image.len() as u64,
    }
}

/// The greatest length of the texts that the uses of an index want, which has a text of its own.
pub fn greatest_length(own: &[u8], index: u16, wants: &WantedTexts<'_>) -> u64
    ensures { (pool : Pool) → text_at pool index ≡ own.now → result ≡ greatest_length (wanted index (wants_of pool wants.now)) }
{
    let mut greatest = 0;
    for place in (0..wants.len()).rev() {
        let want = wants.get(place);
        if want.used.index == index {
            greatest = wanted_length(own, want.image).max(greatest);
        }
    }
    greatest
}

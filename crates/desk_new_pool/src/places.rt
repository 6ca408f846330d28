//! The indices that uses take.

ghost use Rattle.std.specs.Prelude.{◌≡◌, ◌+◌, ◌<◌, ◌≤◌, length, IfOk, None, if◌then◌else◌};
ghost use Rattle.desk_base.specs.Names.{Text};
ghost use Rattle.desk_format.specs.Split.{holds};
ghost use Rattle.desk_new_pool.specs.Places.{least, place_in, not_kept, index_by};
ghost use Rattle.desk_base.specs.Misfits.{or_else};
ghost use Rattle.desk_new_pool.specs.declared.wants.WantedText.{WantedText};

use crate::sought::{SoughtImages, not_kept};
use crate::wants::WantedText;
use desk_base::Memory;
use std::alloc::Global;
use std::collections::BTreeMap;

/// The least index of each image that is among the texts, where the first of the texts has an index.
pub fn places<'a>(
    alloc: Global,
    texts: &[Option<&'a [u8]>],
    from: u16,
    sought: &SoughtImages<'a>,
) -> Result<BTreeMap<&'a [u8], u16>, Memory>
    requires { from + length texts.now ≤ 65536 }
    ensures { IfOk result (λ map. (t : Text) → place_in map t ≡ (if holds sought.now t then least from texts.now t else None)) }
{
    let mut places = BTreeMap::new(alloc);
    for place in (0..texts.len()).rev() {
        if let Some(text) = texts[place] {
            if sought.has(text) {
                places.insert(text, from + place as u16)?;
            }
        }
    }
    Ok(places)
}

/// The new index of a use, by the least indices of the texts that are kept, and else of those that are added.
pub fn new_index<'a>(
    texts: &[Option<&'a [u8]>],
    kept: &BTreeMap<&'a [u8], u16>,
    added: &BTreeMap<&'a [u8], u16>,
    want: &WantedText<'a>,
) -> u16
    requires { want.now.used.index < length texts.now }
    ensures { result ≡ index_by (λ t. or_else (place_in kept.now t) (place_in added.now t)) want.now.used.index (not_kept texts.now want.now) }
{
    match not_kept(texts, want) {
        None => want.used.index,
        Some(text) => match kept.get(text) {
            Some(index) => *index,
            None => match added.get(text) {
                Some(index) => *index,
                None => want.used.index,
            },
        },
    }
}

//! Which text each Utf8 keeps.

ghost use Rattle.std.specs.Prelude.{◌≡◌, ◌<◌, ℕ, suc, List, ◌∷◌, [], ◌++◌, length, get_or, All, IfOk, map, vec_len, option_copied, option_map, unwrap_or};
ghost use Rattle.desk_base.specs.Names.{Text};
ghost use Rattle.desk_base.specs.Entries.{Pool, text_at};
ghost use Rattle.desk_format.specs.Split.{wanted, kept, keep};
ghost use Rattle.desk_new_pool.specs.Keeps.{Keeps, TextsAre};
ghost use Rattle.desk_new_pool.specs.Wants.{image_or, Differs, IsWanted, wants_of};
ghost use Rattle.desk_new_pool.specs.declared.keeps.Keep.TheVariants as keeps;
ghost use Rattle.desk_new_pool.specs.declared.wants.WantedText.{WantedText};

use crate::wants::WantedTexts;
use desk_base::{Memory, PoolView};
use std::alloc::Global;

/// What is known of an entry's text, by some of its uses.
#[derive(Clone, Copy, Debug)]
pub enum Keep<'a> {
    /// No use was met.
    Unused,
    /// A use wants the entry's own text.
    Own,
    /// All uses want other texts, and the first wants this one.
    Image(&'a [u8]),
}

/// What is known after one more use, with its image.
fn after<'a>(state: Keep<'a>, image: Option<&'a [u8]>) -> Keep<'a>
    ensures { (own : Text) (ts : List Text) → Differs own image.entry → Keeps own ts state.entry → Keeps own (ts ++ image_or own image.entry ∷ []) result }
{
    match image {
        None => Keep::Own,
        Some(text) => match state {
            Keep::Unused => Keep::Image(text),
            Keep::Own => Keep::Own,
            Keep::Image(_) => state,
        },
    }
}

/// What is known of the text at each index below a count, after all uses.
fn all_keeps<'a>(
    alloc: Global,
    count: u16,
    wants: &WantedTexts<'a>,
) -> Result<Vec<Keep<'a>>, Memory>
    requires { All (λ (w : WantedText). w.used.index < count) wants.now }
    ensures count { IfOk result (λ list. vec_len list ≡ count) }
    ensures each { IfOk result (λ list. (pool : Pool) → All (IsWanted pool) wants.now → (i : ℕ) → i < count → Keeps (text_at pool i) (wanted i (wants_of pool wants.now)) (get_or list.items i keeps.Unused)) }
{
    let mut keeps = vec![in alloc; Keep::Unused; count as usize]?;
    for place in 0..wants.len() {
        let want = wants.get(place);
        let index = want.used.index as usize;
        keeps[index] = after(keeps[index], want.image);
    }
    Ok(keeps)
}

/// The text that an index keeps, by its own text, and none where it names no Utf8.
fn kept_text<'a>(own: Option<&'a [u8]>, state: Keep<'a>) -> Option<&'a [u8]>
    ensures { (ts : List Text) → Keeps (unwrap_or (option_copied own.entry) []) ts state.entry → option_copied result ≡ option_map (λ t. keep t ts) (option_copied own.entry) }
{
    match own {
        None => None,
        Some(own) => match state {
            Keep::Image(text) => Some(text),
            Keep::Unused => Some(own),
            Keep::Own => Some(own),
        },
    }
}

/// The text that each index below the pool's count keeps, from 0 on; none at an index that names no Utf8. The only error is
/// want of memory.
pub fn kept_texts<'a, P: PoolView>(
    alloc: Global,
    view: &'a P,
    count: u16,
    wants: &WantedTexts<'a>,
) -> Result<Vec<Option<&'a [u8]>>, Memory>
    requires count { count ≡ suc (length (P.pool view.now)) }
    requires wants { All (IsWanted (P.pool view.now)) wants.now }
    ensures { IfOk result (λ texts. TextsAre (kept (wants_of (P.pool view.now) wants.now) 1 (P.pool view.now)) texts.items) }
{
    let keeps = all_keeps(alloc, count, wants)?;
    let mut texts = Vec::with_capacity(alloc, count as usize)?;
    for index in 0..count {
        texts.push(kept_text(view.utf8(index), keeps[index as usize]))?;
    }
    Ok(texts)
}

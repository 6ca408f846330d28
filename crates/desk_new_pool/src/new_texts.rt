//! The texts of a new pool, and the new index of each use.

ghost use Rattle.std.specs.Prelude.{◌≡◌, ◌<◌, ◌≤◌, ◌^◌, ℕ, suc, length, map, All, IfOk, IfErr, OnOk, None, IsTrue, false};
ghost use Rattle.desk_base.specs.Names.{Text};
ghost use Rattle.desk_base.specs.Misfits.{or_else};
ghost use Rattle.desk_format.specs.Split.{split, chosen};
ghost use Rattle.desk_format.specs.NewClass.{full_at};
ghost use Rattle.desk_new_pool.specs.Keeps.{TextsAre};
ghost use Rattle.desk_new_pool.specs.Wants.{IsWanted, wants_of};
ghost use Rattle.desk_new_pool.specs.Places.{place_in, not_kept, missing_among, index_by};
ghost use Rattle.desk_new_pool.specs.NewTexts.{Adds, Splits};
ghost use Rattle.desk_new_pool.specs.Refusals.{Refuses, pool_refusal};
ghost use Rattle.desk_new_pool.specs.declared.wants.WantedText.{WantedText};

use crate::keeps::kept_texts;
use crate::overlong::{greatest_length, least_long};
use crate::places::{new_index, places};
use crate::sought::{SoughtImages, not_kept};
use crate::wants::WantedTexts;
use desk_base::{Memory, PoolView};
use std::alloc::Global;
use std::collections::BTreeMap;

/// The greatest count of a constant pool (JVMS 4.1).
const GREATEST_COUNT: usize = 65535;

/// The texts of a new pool, and the new index of each use.
#[derive(Debug, Drop)]
pub struct NewTexts<'a> {
    /// The text at each index of the new pool, from 0 on, and none at an index that names no Utf8. Behind the old indices stand
    /// the missing texts, in byte order.
    pub texts: Vec<Option<&'a [u8]>>,
    /// The new index of each use, in the order of the uses.
    pub indices: Vec<u16>,
}

/// Why there is no new pool with these texts.
#[derive(Clone, Copy, Debug, PartialEq, Eq)]
pub enum NewPoolFault {
    /// A wanted text has more than 65,535 bytes.
    Overlong {
        /// The least index with such a text.
        index: u16,
        /// The greatest length of a text that the index wants, in bytes.
        length: u64,
    },
    /// The new pool would have more than 65,535 as its count.
    PoolFull {
        /// `constant_pool_count` of the old class (JVMS 4.1).
        count: u16,
        /// How many texts are missing.
        needed: u32,
    },
    /// Memory ran out.
    Memory,
}

impl From<Memory> for NewPoolFault {
    ghost use Rattle.desk_new_pool.specs.declared.new_texts.NewPoolFault.TheVariants as pool_faults;

    ghost from_gives = { λ _ fault. fault ≡ pool_faults.Memory };

    fn from(_: Memory) -> NewPoolFault {
        NewPoolFault::Memory
    }
}

/// Whether the entry of some use keeps another text than the use's image.
fn any_not_kept<'a>(texts: &[Option<&'a [u8]>], wants: &WantedTexts<'a>) -> bool
    requires { All (λ (w : WantedText). w.used.index < length texts.now) wants.now }
    ensures { result ≡ false → All (λ (w : WantedText). not_kept texts.now w ≡ None) wants.now }
{
    for place in 0..wants.len() {
        if not_kept(texts, &wants.get(place)).is_some() {
            return true;
        }
    }
    false
}

/// The index of each use.
fn own_indices(alloc: Global, wants: &WantedTexts<'_>) -> Result<Vec<u16>, Memory>
    ensures { IfOk result (λ indices. indices.items ≡ map (λ (w : WantedText). w.used.index) wants.now) }
{
    let mut indices = Vec::with_capacity(alloc, wants.len())?;
    for place in 0..wants.len() {
        indices.push(wants.get(place).used.index)?;
    }
    Ok(indices)
}

/// The new index of each use.
fn new_indices<'a>(
    alloc: Global,
    texts: &[Option<&'a [u8]>],
    kept: &BTreeMap<&'a [u8], u16>,
    added: &BTreeMap<&'a [u8], u16>,
    wants: &WantedTexts<'a>,
) -> Result<Vec<u16>, Memory>
    requires { All (λ (w : WantedText). w.used.index < length texts.now) wants.now }
    ensures { IfOk result (λ indices. indices.items ≡ map (λ (w : WantedText). index_by (λ t. or_else (place_in kept.now t) (place_in added.now t)) w.used.index (not_kept texts.now w)) wants.now) }
{
    let mut indices = Vec::with_capacity(alloc, wants.len())?;
    for place in 0..wants.len() {
        indices.push(new_index(texts, kept, added, &wants.get(place)))?;
    }
    Ok(indices)
}

/// Adds texts behind others.
fn add_texts<'a>(texts: &mut Vec<Option<&'a [u8]>>, missing: &[&'a [u8]]) -> Result<(), Memory>
    ensures { OnOk result (Adds texts.old.items (map (λ t. t.now) missing.now) texts.new.items) }
{
    for text in missing {
        texts.push(Some(*text))?;
    }
    Ok(())
}

/// The texts that are kept alone, where each use's entry keeps its image.
fn all_kept<'a>(
    alloc: Global,
    texts: Vec<Option<&'a [u8]>>,
    wants: &WantedTexts<'a>,
) -> Result<NewTexts<'a>, NewPoolFault>
    requires count { length texts.items ≤ 65535 }
    requires kept { All (λ (w : WantedText). not_kept texts.items w ≡ None) wants.now }
    ensures split { IfOk result (Splits texts.entry.items wants.now) }
    ensures room { OnOk result (full_at (length texts.entry.items) (length (missing_among texts.entry.items wants.now)) ≡ None) }
    ensures memory { IfErr result (λ fault. fault ≡ NewPoolFault.Memory) }
{
    let indices = own_indices(alloc, wants)?;
    Ok(NewTexts { texts, indices })
}

/// The texts that are kept, and behind them the missing ones.
fn with_missing<'a>(
    alloc: Global,
    mut texts: Vec<Option<&'a [u8]>>,
    wants: &WantedTexts<'a>,
) -> Result<NewTexts<'a>, NewPoolFault>
    requires count { length texts.items ≤ 65535 }
    requires few { length wants.now < 2 ^ 32 }
    requires indices { All (λ (w : WantedText). w.used.index < length texts.items) wants.now }
    ensures split { IfOk result (Splits texts.entry.items wants.now) }
    ensures room { OnOk result (full_at (length texts.entry.items) (length (missing_among texts.entry.items wants.now)) ≡ None) }
    ensures refused { IfErr result (λ fault. Refuses fault (full_at (length texts.entry.items) (length (missing_among texts.entry.items wants.now)))) }
{
    let count = texts.len();
    let sought = SoughtImages::of(alloc, &texts, wants)?;
    let kept = places(alloc, &texts, 0, &sought)?;
    let missing = sought.without_place(alloc, &kept)?;
    if count + missing.len() > GREATEST_COUNT {
        return Err(NewPoolFault::PoolFull {
            count: count as u16,
            needed: missing.len() as u32,
        });
    }
    add_texts(&mut texts, &missing)?;
    let (_, behind) = texts.split_at(count);
    let added = places(alloc, behind, count as u16, &sought)?;
    let indices = new_indices(alloc, &texts, &kept, &added, wants)?;
    Ok(NewTexts { texts, indices })
}

/// The texts that are kept, and behind them the missing ones, where there are any.
fn new_texts<'a>(
    alloc: Global,
    texts: Vec<Option<&'a [u8]>>,
    wants: &WantedTexts<'a>,
) -> Result<NewTexts<'a>, NewPoolFault>
    requires count { length texts.items ≤ 65535 }
    requires few { length wants.now < 2 ^ 32 }
    requires indices { All (λ (w : WantedText). w.used.index < length texts.items) wants.now }
    ensures split { IfOk result (Splits texts.entry.items wants.now) }
    ensures room { OnOk result (full_at (length texts.entry.items) (length (missing_among texts.entry.items wants.now)) ≡ None) }
    ensures refused { IfErr result (λ fault. Refuses fault (full_at (length texts.entry.items) (length (missing_among texts.entry.items wants.now)))) }
{
    if any_not_kept(&texts, wants) {
        with_missing(alloc, texts, wants)
    } else {
        all_kept(alloc, texts, wants)
    }
}

/// The texts of the new pool of a class and the new index of each of its uses. An entry keeps its own text where some use
/// wants that or none uses it, and else the image of its first use. Wanted texts that no entry keeps are missing: they get
/// indices behind the old ones, in byte order. A use whose entry keeps another text takes the least index of its image.
///
/// The errors are, in this order, an image of more than 65,535 bytes, a new pool whose count would be above 65,535, and
/// want of memory.
pub fn split<'a, P: PoolView>(
    alloc: Global,
    view: &'a P,
    count: u16,
    wants: &WantedTexts<'a>,
) -> Result<NewTexts<'a>, NewPoolFault>
    requires count { count ≡ suc (length (P.pool view.now)) }
    requires wants { All (IsWanted (P.pool view.now)) wants.now }
    requires few { length wants.now < 2 ^ 32 }
    ensures texts { IfOk result (λ new. TextsAre (split (wants_of (P.pool view.now) wants.now) (P.pool view.now)) new.texts.items) }
    ensures indices { IfOk result (λ new. new.indices.items ≡ map (chosen (split (wants_of (P.pool view.now) wants.now) (P.pool view.now))) (wants_of (P.pool view.now) wants.now)) }
    ensures accepted { OnOk result (pool_refusal (P.pool view.now) (wants_of (P.pool view.now) wants.now) ≡ None) }
    ensures refused { IfErr result (λ fault. Refuses fault (pool_refusal (P.pool view.now) (wants_of (P.pool view.now) wants.now))) }
{
    if let Some(index) = least_long(wants) {
        let own = view.utf8(index).unwrap_or(b"");
        let length = greatest_length(own, index, wants);
        return Err(NewPoolFault::Overlong { index, length });
    }
    let texts = kept_texts(alloc, view, count, wants)?;
    new_texts(alloc, texts, wants)
}

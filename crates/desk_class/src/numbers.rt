//! Numbers for texts that go by indices, so that two texts are compared once, and their numbers after that.

ghost use Rattle.std.specs.Prelude.{◌≡◌, ◌⊎◌, ℕ, None, Some, IfOk, OnOk, slice_get};
ghost use Rattle.desk_base.specs.Names.{Text as TextOf};
ghost use Rattle.desk_base.specs.Entries.{text_at};
ghost use Rattle.desk_class.specs.Numbers.{IsNumbering, Keeps, number_at, number_in};

use desk_base::{Memory, PoolView};
use desk_pool::Pool;
use std::alloc::Global;
use std::collections::BTreeMap;

/// Numbers of texts that go by indices: equal texts have one number, an index that the text goes by.
#[derive(Drop)]
pub struct TextNumbers<'a> {
    by_text: BTreeMap<&'a [u8], u16>,
    by_index: Vec<Option<u16>>,
}

/// The text that an index names, or the empty text.
pub fn text_at<'a>(pool: &Pool<'a>, index: u16) -> &'a [u8]
    ensures { result.now ≡ text_at pool.now.entries index }
{
    match pool.utf8(index) {
        Some(text) => text,
        None => &[],
    }
}

/// The number of a text, which is an index that names it where it had none.
fn number_of_text<'a>(
    by_text: &mut BTreeMap<&'a [u8], u16>,
    text: &'a [u8],
    index: u16,
) -> Result<u16, Memory>
    ensures number { IfOk result (λ number. number_at by_text.new text.now ≡ Some number) }
    ensures keeps { OnOk result ((t : TextOf) (n : ℕ) → number_at by_text.old t ≡ Some n → number_at by_text.new t ≡ Some n) }
    ensures comes { OnOk result ((t : TextOf) (n : ℕ) → number_at by_text.new t ≡ Some n → (number_at by_text.old t ≡ Some n) ⊎ ((t ≡ text.now) × (n ≡ index))) }
{
    if let Some(number) = by_text.get(&text) {
        return Ok(*number);
    }
    by_text.insert(text, index)?;
    Ok(index)
}

/// Keeps the number of the text at an index.
fn keep(by_index: &mut Vec<Option<u16>>, index: u16, number: u16)
    ensures { (i n : ℕ) → slice_get by_index.new.items i ≡ Some (Some n) → (slice_get by_index.old.items i ≡ Some (Some n)) ⊎ ((i ≡ index) × (n ≡ number)) }
{
    if (index as usize) < by_index.len() {
        by_index[index as usize] = Some(number);
    }
}

impl<'a> TextNumbers<'a> {
    /// No text has a number. The indices are those below `count`; the text of one at or above it is looked up at each use.
    pub fn new(alloc: Global, count: u16) -> Result<TextNumbers<'a>, Memory>
        ensures { IfOk result (λ new. (texts : ℕ → TextOf) → IsNumbering texts new) }
    {
        let by_index = vec![in alloc; None; count as usize]?;
        Ok(TextNumbers {
            by_text: BTreeMap::new(alloc),
            by_index,
        })
    }

    /// The number of the text that goes by an index. The text is looked up at the first use of the index alone.
    pub fn number(&mut self, text: &'a [u8], index: u16) -> Result<u16, Memory>
        ensures number { IfOk result (λ number. (texts : ℕ → TextOf) → IsNumbering texts self.old → text.now ≡ texts index → number_in self.new text.now ≡ Some number) }
        ensures keeps { OnOk result (Keeps self.old self.new) }
        ensures stays { OnOk result ((texts : ℕ → TextOf) → IsNumbering texts self.old → text.now ≡ texts index → IsNumbering texts self.new) }
    {
        if let Some(Some(number)) = self.by_index.get(index as usize) {
            return Ok(*number);
        }
        let number = number_of_text(&mut self.by_text, text, index)?;
        keep(&mut self.by_index, index, number);
        Ok(number)
    }
}

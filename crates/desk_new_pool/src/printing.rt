//! The bytes of a new pool.

ghost use Rattle.std.specs.Prelude.{◌≡◌, ◌+◌, ◌<◌, ◌≤◌, ◌^◌, ◌∷◌, ◌++◌, [], ℕ, suc, length, drop, All, List, None, OnOk, option_copied, option_map, unwrap_or, false, map};
ghost use Rattle.desk_base.specs.declared.kinds.Used.{Used};
ghost use Rattle.desk_base.specs.Entries.{Pool, utf8};
ghost use Rattle.desk_format.specs.PoolBytes.{two, print_entry, print_slots, print_pool, pool_uses};
ghost use Rattle.desk_format.specs.Split.{Want, split};
ghost use Rattle.desk_format.specs.NewPool.{Choice, with_texts};
ghost use Rattle.desk_laws.specs.Sound.{IsShaped};
ghost use Rattle.desk_new_pool.specs.Keeps.{TextsAre, ForNewPool};
ghost use Rattle.desk_new_pool.specs.Printing.{named_texts, entry_size, renewed, all_named, renewed_bytes, print_texts, IsShortText, SameTexts};

use crate::new_texts::NewTexts;
use desk_base::{Memory, PoolView, Tag, Text};

/// How many texts an entry names.
fn named_texts(tag: Tag) -> usize
    ensures { result ≡ named_texts tag }
{
    match tag {
        Tag::Class | Tag::String | Tag::MethodType | Tag::Module | Tag::Package => 1,
        Tag::NameAndType => 2,
        _ => 0,
    }
}

/// How many bytes an entry takes, where a Utf8 has a text of so many bytes.
fn entry_size(tag: Tag, length: usize) -> usize
    requires { length < 2 ^ 16 }
    ensures { result ≡ entry_size tag length }
{
    match tag {
        Tag::Utf8 => 3 + length,
        Tag::Long | Tag::Double => 9,
        Tag::Class | Tag::String | Tag::MethodType | Tag::Module | Tag::Package => 3,
        Tag::MethodHandle => 4,
        _ => 5,
    }
}

/// Appends a two-byte number. The only error is want of memory.
pub fn append_two(out: &mut Text, number: u16) -> Result<(), Memory>
    ensures { OnOk result (out.new ≡ out.old ++ two number) }
{
    let [high, low] = number.to_be_bytes();
    out.append(&[high, low])
}

/// Appends a Utf8. The only error is want of memory.
fn append_utf8(out: &mut Text, text: &[u8]) -> Result<(), Memory>
    requires { length text.now < 2 ^ 16 }
    ensures { OnOk result (out.new ≡ out.old ++ print_entry (utf8 text.now)) }
{
    let [high, low] = (text.len() as u16).to_be_bytes();
    out.append(&[1, high, low])?;
    out.append(text)
}

/// Appends an entry with another text, or with these indices in place of its own.
fn append_entry(
    out: &mut Text,
    entry: &[u8],
    text: Option<&[u8]>,
    indices: &[u16],
) -> Result<(), Memory>
    requires entry { 0 < length entry.now }
    requires text { IsShortText text }
    requires indices { length indices.now ≤ 2 }
    ensures { OnOk result (out.new ≡ out.old ++ renewed_bytes entry.now (option_copied text.entry) indices.now) }
{
    if let Some(text) = text {
        return append_utf8(out, text);
    }
    if indices.is_empty() {
        return out.append(entry);
    }
    let [high, low] = indices[0].to_be_bytes();
    if indices.len() == 1 {
        return out.append(&[entry[0], high, low]);
    }
    let [second_high, second_low] = indices[1].to_be_bytes();
    out.append(&[entry[0], high, low, second_high, second_low])
}

/// Appends Utf8 entries.
fn append_texts(out: &mut Text, texts: &[Option<&[u8]>]) -> Result<(), Memory>
    requires { All IsShortText texts.now }
    ensures { OnOk result (out.new ≡ out.old ++ print_texts texts.now) }
{
    for text in texts {
        if let Some(text) = *text {
            append_utf8(out, text)?;
        }
    }
    Ok(())
}

/// Appends the entries of the old indices, from the bytes of the old entries.
fn append_entries<P: PoolView>(
    out: &mut Text,
    view: &P,
    old: &[u8],
    texts: &[Option<&[u8]>],
    indices: &[u16],
) -> Result<(), Memory>
    requires count { length texts.now ≡ suc (length (P.pool view.now)) }
    requires limit { length texts.now ≤ 65535 }
    requires shaped { IsShaped false (P.pool view.now) }
    requires bytes { (more : List ℕ) × (old.now ≡ print_slots (P.pool view.now) ++ more) }
    requires texts { SameTexts (P.pool view.now) texts.now }
    requires short { All IsShortText texts.now }
    requires indices { all_named (P.pool view.now) ≤ length indices.now }
    ensures { OnOk result (out.new ≡ out.old ++ print_slots (renewed texts.now indices.now (None ∷ P.pool view.now))) }
{
    let mut left = old;
    let mut later = indices;
    for index in 0..texts.len() {
        let Some(tag) = view.tag(index as u16) else {
            continue;
        };
        let own = view.utf8(index as u16).unwrap_or(b"");
        let (entry, behind) = left.split_at(entry_size(tag, own.len()));
        let (named, further) = later.split_at(named_texts(tag));
        append_entry(out, entry, texts[index], named)?;
        left = behind;
        later = further;
    }
    Ok(())
}

/// Appends the new constant pool of a class: its count, the entries of the old indices with the texts that they keep and the
/// new indices of their uses, and the missing texts. `old` are the bytes behind the count of the old pool. The only error is
/// want of memory.
pub fn append_pool<P: PoolView>(
    out: &mut Text,
    view: &P,
    count: u16,
    old: &[u8],
    new: &NewTexts<'_>,
) -> Result<(), Memory>
    requires count { count ≡ suc (length (P.pool view.now)) }
    requires shaped { IsShaped false (P.pool view.now) }
    requires bytes { (more : List ℕ) × (old.now ≡ print_slots (P.pool view.now) ++ more) }
    requires texts { (ws : List Want) × TextsAre (split ws (P.pool view.now)) new.now.texts.items }
    requires limit { length new.now.texts.items ≤ 65535 }
    requires short { All IsShortText new.now.texts.items }
    requires indices { length (pool_uses 10 (P.pool view.now)) ≤ length new.now.indices.items }
    ensures { ForNewPool (P.pool view.now) new.now.texts.items new.now.indices.items (λ printed. OnOk result (out.new ≡ out.old ++ printed)) }
{
    let texts = new.texts.as_slice();
    let (kept, missing) = texts.split_at(count as usize);
    append_two(out, texts.len() as u16)?;
    append_entries(out, view, old, kept, new.indices.as_slice())?;
    append_texts(out, missing)
}

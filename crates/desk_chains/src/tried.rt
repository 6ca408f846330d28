//! What was looked for in vain.

ghost use Rattle.std.specs.Prelude.{◌≡◌, ◌⊎◌, Some, true, List, ℕ};
ghost use Rattle.std.specs.Option.{option_copied};
ghost use Rattle.desk_chains.specs.Gifts.{holds, holds_gift};

use std::collections::BTreeSet;

/// Whether a set holds a text, where there is one.
pub(crate) fn holds<'a>(set: &BTreeSet<&'a [u8]>, text: Option<&'a [u8]>) -> bool
    ensures { result ≡ holds_gift set.now (option_copied text.entry) }
{
    match text {
        Some(text) => set.contains(&text),
        None => false,
    }
}

/// Puts a text into a set. Where memory lacks, the set stays as it was.
fn put<'a>(set: &mut BTreeSet<&'a [u8]>, text: &'a [u8])
    ensures { (q : List ℕ) → holds set.new q ≡ true → (holds set.old q ≡ true) ⊎ (text.now ≡ q) }
{
    let _ = set.insert(text);
}

/// Puts a text into a set, where there is one. Where memory lacks, the set stays as it was.
pub(crate) fn note<'a>(set: &mut BTreeSet<&'a [u8]>, text: Option<&'a [u8]>)
    ensures { (q : List ℕ) → holds set.new q ≡ true → (holds set.old q ≡ true) ⊎ (option_copied text.entry ≡ Some q) }
{
    match text {
        Some(text) => put(set, text),
        None => {}
    }
}

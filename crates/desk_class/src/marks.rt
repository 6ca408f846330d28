//! Numbers of texts, by which most texts are told apart.

ghost use Rattle.std.specs.Prelude.{◌≡◌, ◌==◌};
ghost use Rattle.std.proofs.Common.{rules};
ghost use Rattle.std.specs.Cmp.Rules.{comparing};
ghost use Rattle.std.specs.Cmp.Lexicographic.{pointwise};
ghost use Rattle.std.specs.Ordering.{as_partial_cmp};
ghost use Rattle.desk_class.specs.Marks.{mark, marked_cmp};
ghost use Rattle.desk_class.specs.MarkOrder.{marked_total, marked_partial, marked_ties};

use std::cmp::Ordering;
use std::hash::{FoldHasher, Hasher};
use std::marker::Model;

/// The mark of a text, which is its hash. Texts that are chosen may have one mark, so that what is ordered by marks must go
/// by the texts where these are equal. It takes no memory.
fn mark_of(text: &[u8]) -> u64
    ensures { result ≡ mark text.now }
{
    let mut hasher = FoldHasher::default();
    hasher.write(text);
    hasher.finish()
}

/// A text that stands elsewhere, with its mark. Such texts go by their marks, and by their bytes where these are equal: so a
/// set of them compares few bytes, and no choice of texts makes it slow. Contracts see the bytes.
#[derive(Debug, Drop)]
pub struct Marked<'a> {
    mark: u64,
    bytes: &'a [u8],
}

impl<'a> Model for Marked<'a> {
    ghost use Rattle.std.specs.Prelude.{◌≡◌, ℕ, List};
    ghost use Rattle.desk_class.specs.Marks.{mark as mark_of};

    ghost Value = { List ℕ };

    ghost view = { λ m. m.bytes.now };

    ghost invariant = { λ m. m.mark ≡ mark_of m.bytes.now };
}

impl<'a> Marked<'a> {
    /// The text of these bytes, with its mark.
    pub fn new(bytes: &'a [u8]) -> Marked<'a>
        ensures { result ≡ bytes.now }
    {
        Marked {
            mark: mark_of(bytes),
            bytes,
        }
    }

    /// The hash of the bytes. Other texts may have the same one.
    pub fn mark(&self) -> u64
        ensures { result ≡ mark self.now }
    {
        self.mark
    }

    /// The bytes of the text, which aren't copied.
    pub fn as_bytes(&self) -> &'a [u8]
        ensures { result.now ≡ self.now }
    {
        self.bytes
    }
}

impl PartialEq for Marked<'_> {
    ghost eq = { pointwise ◌==◌ };

    ghost laws = { Prim.search (comparing, rules) };

    fn eq(&self, other: &Self) -> bool {
        self.bytes == other.bytes
    }
}

impl Eq for Marked<'_> {
    ghost laws = { Prim.search (comparing, rules) };
}

impl PartialOrd for Marked<'_> {
    ghost partial_cmp = { as_partial_cmp marked_cmp };

    ghost laws = { marked_partial };

    fn partial_cmp(&self, other: &Self) -> Option<Ordering> {
        Some(self.cmp(other))
    }
}

impl Ord for Marked<'_> {
    ghost cmp = { marked_cmp };

    ghost total = { marked_total };

    ghost matches_partial_cmp = { Prim.search (comparing, rules) };

    ghost matches_eq = { marked_ties };

    fn cmp(&self, other: &Self) -> Ordering {
        match self.mark.cmp(&other.mark) {
            Ordering::Equal => self.bytes.cmp(&other.bytes),
            order => order,
        }
    }
}

//! Pairs of indices of two pools that were found to lead to the same value.

ghost use Rattle.std.specs.Prelude.{◌≡◌, IsTrue, true};
ghost use Rattle.desk_compare.specs.Values.{same_value};

use desk_pool::Pool;
use std::marker::Model;

/// Two indices, one of each pool.
#[derive(Clone, Copy)]
pub(crate) struct IndexPair {
    pub left: u16,
    pub right: u16,
}

/// How many pairs are kept.
const KEPT: usize = 256;

/// The constant pools of two classes, with pairs of their indices that were found to lead to the same value: the last such pair
/// for each remainder of the left index. So what is met again and again is mostly decided once, in memory that doesn't grow with
/// a class. Contracts see the pools.
#[derive(Drop)]
pub(crate) struct KnownPairs<'p, 'l, 'r> {
    left: &'p Pool<'l>,
    right: &'p Pool<'r>,
    pairs: [IndexPair; KEPT],
}

impl<'p, 'l, 'r> Model for KnownPairs<'p, 'l, 'r> {
    ghost use Rattle.std.specs.List.{All};
    ghost use Rattle.desk_compare.specs.Known.{TwoPools, AreSame};

    ghost Value = { TwoPools };

    ghost view = { λ k. record { left = k.left.now.entries; right = k.right.now.entries } };

    ghost invariant = { λ k. All (AreSame k.left.now.entries k.right.now.entries) k.pairs };
}

impl<'p, 'l, 'r> KnownPairs<'p, 'l, 'r> {
    /// The pools, with no pair but that of index 0, which leads to nothing.
    pub fn new(left: &'p Pool<'l>, right: &'p Pool<'r>) -> KnownPairs<'p, 'l, 'r>
        ensures { result ≡ record { left = left.now.entries; right = right.now.entries } }
    {
        KnownPairs {
            left,
            right,
            pairs: [IndexPair { left: 0, right: 0 }; KEPT],
        }
    }

    /// The pool of the left class.
    pub fn left(&self) -> &'p Pool<'l>
        ensures { result.now.entries ≡ self.now.left }
    {
        self.left
    }

    /// The pool of the right class.
    pub fn right(&self) -> &'p Pool<'r>
        ensures { result.now.entries ≡ self.now.right }
    {
        self.right
    }

    /// Whether two indices are among the pairs.
    pub fn has(&self, left: u16, right: u16) -> bool
        ensures { IsTrue result → same_value self.now.left self.now.right left right ≡ true }
    {
        let pair = self.pairs[usize::from(left) % KEPT];
        pair.left == left && pair.right == right
    }

    /// Keeps two indices that lead to the same value.
    pub fn keep(&mut self, left: u16, right: u16)
        requires { same_value self.old.left self.old.right left right ≡ true }
        ensures { self.new ≡ self.old }
    {
        self.pairs[usize::from(left) % KEPT] = IndexPair { left, right };
    }
}

//! Rules that exchange texts.

ghost use Rattle.std.specs.Prelude.{◌≡◌, ◌≢◌, ◌≤◌, ◌<◌, ◌∷◌, ◌++◌, [], length, drop, IfOk, IfSome, MatchOption, OnOk, OnErr};
ghost use Rattle.desk_patterns.specs.TextRules.{longest, StandsBehind, HaveSources};
ghost use Rattle.desk_patterns.specs.Tables.{last_start, IsTable, NotBehind, IsSharedBefore};
ghost use Rattle.desk_patterns.specs.Seen.{hit_seen, rules_seen, shorter_seen, NoHits, IsStart, IsPlaceFrom};

use crate::first_bytes::FirstBytes;
use crate::kept_rules::KeptRules;
use crate::sources::{Cut, find_cut, last_cut};
use desk_base::{Memory, Text};
use memchr::memmem;
use std::alloc::Global;
use std::marker::Model;

/// What stands at a place of a text: a source of so many bytes, and the target that takes their place.
#[derive(Clone, Copy, Debug)]
pub struct TextHit<'r> {
    /// How many bytes are exchanged.
    pub taken: usize,
    /// What takes their place.
    pub target: &'r [u8],
}

/// A place of a text, counted from 0, and what stands there.
#[derive(Clone, Copy, Debug)]
pub struct TextPlace<'r> {
    /// The place of the source's first byte.
    pub at: usize,
    /// The source's length, and the target.
    pub hit: TextHit<'r>,
}

/// Rules that exchange texts, in byte order of their sources. Contracts see the list of the rules, each a source and its
/// target.
#[derive(Debug, Drop)]
pub struct TextRules {
    rules: KeptRules,
    firsts: FirstBytes,
}

impl Model for TextRules {
    ghost use Rattle.std.specs.Prelude.{List};
    ghost use Rattle.std.specs.Coded.{coded_list, coded×, coded_ℕ};
    ghost use Rattle.desk_patterns.specs.TextRules.{TextRule as Rule};
    ghost use Rattle.desk_patterns.specs.Tables.{IsTextTable};
    ghost use Rattle.desk_patterns.specs.Seen.{rules_seen, shorter_seen};

    ghost Value = { List Rule };

    ghost coded = { coded_list (coded× (coded_list coded_ℕ) (coded_list coded_ℕ)) };

    ghost view = { λ t. rules_seen t.rules };

    ghost invariant = { λ t. IsTextTable (rules_seen t.rules) (shorter_seen t.rules) t.firsts };
}

/// One more than the place of the last rule, up to a cut, whose source starts a text; 0 where there is none. None of these
/// sources stands behind the text in byte order.
fn last_start(rules: &KeptRules, cut: Cut, text: &[u8]) -> usize
    requires table { IsTable (rules_seen rules.now) (shorter_seen rules.now) }
    requires within { cut.count ≤ length rules.now }
    requires not_behind { NotBehind (rules_seen rules.now) text.now cut.count }
    requires shared { IsSharedBefore (rules_seen rules.now) text.now cut.count cut.shared }
    ensures last { result ≡ last_start text.now (rules_seen rules.now) cut.count }
    ensures inside { result ≤ cut.count }
{
    let mut place = cut.count;
    while place > 0 {
        if rules.source(place - 1).len() <= cut.shared {
            return place;
        }
        place = rules.shorter(place - 1);
    }
    0
}

/// The longest source at the front of a text, and its target.
fn longest_of<'r>(rules: &'r KeptRules, text: &[u8]) -> Option<TextHit<'r>>
    requires { IsTable (rules_seen rules.now) (shorter_seen rules.now) }
    ensures { hit_seen result ≡ longest (rules_seen rules.now) text.now }
{
    let place = last_start(rules, find_cut(rules, text), text);
    if place == 0 {
        return None;
    }
    Some(TextHit {
        taken: rules.source(place - 1).len(),
        target: rules.target(place - 1),
    })
}

impl TextRules {
    /// Text rules that exchange nothing. It takes no memory.
    pub fn none(alloc: Global) -> TextRules
        ensures { result ≡ [] }
    {
        TextRules {
            rules: KeptRules::none(alloc),
            firsts: FirstBytes::none(),
        }
    }

    /// Text rules that exchange nothing, with room for so many, whose sources and targets have so many bytes together. The only
    /// error is want of memory.
    pub fn with_room(alloc: Global, rules: usize, bytes: usize) -> Result<TextRules, Memory>
        ensures { IfOk result (λ found. found ≡ []) }
    {
        let rules = KeptRules::with_room(alloc, rules, bytes)?;
        Ok(TextRules {
            rules,
            firsts: FirstBytes::none(),
        })
    }

    /// Adds a rule, whose source isn't empty and stands behind all others in byte order. After want of memory, the only
    /// error, the rules are as they were.
    pub fn push(&mut self, source: Text, target: Text) -> Result<(), Memory>
        requires some { source ≢ [] }
        requires behind { StandsBehind self.old source }
        ensures ok { OnOk result (self.new ≡ self.old ++ (source, target) ∷ []) }
        ensures err { OnErr result (self.new ≡ self.old) }
    {
        let source = source.as_bytes();
        let cut = last_cut(&self.rules, source);
        let shorter = last_start(&self.rules, cut, source);
        self.rules.push(source, target.as_bytes(), shorter)?;
        self.firsts.add(source[0]);
        Ok(())
    }

    /// The longest source that stands at a place of a text, with its target; none exactly where none stands there. The
    /// place is at most the text's length. It takes no memory, and compares as many sources with the text as a binary search
    /// of them does.
    pub fn longest(&self, text: &[u8], at: usize) -> Option<TextHit<'_>>
        requires { at ≤ length text.now }
        ensures { hit_seen result ≡ longest self.now (drop at text.now) }
    {
        longest_of(&self.rules, &text[at..])
    }

    /// A place of a text, from one on, before which no source starts; the text's length where none starts there.
    fn next_start(&self, text: &[u8], from: usize) -> usize
        requires { from ≤ length text.now }
        ensures start { IsStart self.now text.now from result }
        ensures sources { HaveSources self.now }
    {
        if self.rules.len() != 1 {
            return self.firsts.next_in(text, from);
        }
        match memmem::find(&text[from..], self.rules.source(0)) {
            None => text.len(),
            Some(at) => from + at,
        }
    }

    /// The first place of a text, from one on, at which a source stands, with the longest such source; none exactly where
    /// none stands there or behind. It takes no memory, and passes over bytes with which no source begins.
    pub fn next_place(&self, text: &[u8], from: usize) -> Option<TextPlace<'_>>
        requires { from ≤ length text.now }
        ensures place { MatchOption result (NoHits self.now text.now from (length text.now)) (IsPlaceFrom self.now text.now from) }
        ensures sources { HaveSources self.now }
    {
        let mut at = self.next_start(text, from);
        while at < text.len() {
            if let Some(hit) = self.longest(text, at) {
                return Some(TextPlace { at, hit });
            }
            at = self.next_start(text, at + 1);
        }
        None
    }
}

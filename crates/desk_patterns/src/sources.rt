//! Sources of text rules, compared with a text.

ghost use Rattle.std.specs.Prelude.{◌≡◌, ◌≤◌, ◌<◌, length};
ghost use Rattle.desk_patterns.specs.Tables.{shared, is_behind, Rise, IsCut, IsSharedBefore};
ghost use Rattle.desk_patterns.specs.Seen.{rules_seen};

use crate::kept_rules::KeptRules;

/// Where a text stands among sources in byte order.
#[derive(Clone, Copy, Debug)]
pub(crate) struct Cut {
    /// How many sources don't stand behind the text.
    pub(crate) count: usize,
    /// How many first bytes the last of these and the text share; 0 where there is none.
    pub(crate) shared: usize,
}

/// How many first bytes two texts share, of which some are known.
fn count_shared(source: &[u8], text: &[u8], known: usize) -> usize
    requires { known ≤ shared source.now text.now }
    ensures { result ≡ shared source.now text.now }
{
    let mut at = known;
    while at < source.len() && at < text.len() && source[at] == text[at] {
        at += 1;
    }
    at
}

/// Whether a source stands behind a text in byte order, with which it shares so many first bytes.
#[tactic(auto, using(crate::proofs::Cuts::front_stays, crate::proofs::Cuts::end_behind, crate::proofs::Cuts::byte_decides))]
fn stands_behind(source: &[u8], text: &[u8], front: usize) -> bool
    requires { front ≡ shared source.now text.now }
    ensures { result ≡ is_behind text.now source.now }
{
    if front >= source.len() {
        return false;
    }
    if front >= text.len() {
        return true;
    }
    text[front] < source[front]
}

/// Which of the sources from one place up to another is compared next: the first of all, the last of all, then the one in
/// the middle.
fn next_compared(low: usize, high: usize, count: usize) -> usize
    requires { low < high }
    ensures low { low ≤ result }
    ensures high { result < high }
{
    if low == 0 {
        0
    } else if high == count {
        high - 1
    } else {
        low + (high - low) / 2
    }
}

/// Where a text stands among the sources of rules. A source between two others shares with the text what both of these do,
/// so that few bytes are compared twice.
pub(crate) fn find_cut(rules: &KeptRules, text: &[u8]) -> Cut
    requires { Rise (rules_seen rules.now) }
    ensures cut { IsCut (rules_seen rules.now) text.now result.count result.count }
    ensures shared { IsSharedBefore (rules_seen rules.now) text.now result.count result.shared }
{
    let mut low = 0;
    let mut low_shared: usize = 0;
    let mut high = rules.len();
    let mut high_shared: usize = 0;
    while low < high {
        let middle = next_compared(low, high, rules.len());
        let source = rules.source(middle);
        let shared = count_shared(source, text, low_shared.min(high_shared));
        if stands_behind(source, text, shared) {
            high = middle;
            high_shared = shared;
        } else {
            low = middle + 1;
            low_shared = shared;
        }
    }
    Cut {
        count: low,
        shared: low_shared,
    }
}

/// Where a text stands among the sources of rules, none of which stands behind it.
pub(crate) fn last_cut(rules: &KeptRules, text: &[u8]) -> Cut
    ensures count { result.count ≡ length rules.now }
    ensures shared { IsSharedBefore (rules_seen rules.now) text.now result.count result.shared }
{
    let count = rules.len();
    if count == 0 {
        return Cut { count, shared: 0 };
    }
    let shared = count_shared(rules.source(count - 1), text, 0);
    Cut { count, shared }
}

//! What has a key, and how one of several is found by it.

ghost use Rattle.std.specs.Prelude.{◌≡◌, ◌==◌, MatchOption};
ghost use Rattle.std.specs.Option.{option_copied};
ghost use Rattle.std.specs.List.{find, filter, starts_with};
ghost use Rattle.std.specs.Str.{bytes_eq};
ghost use Rattle.desk_packages.specs.Keys.{RiseBy, IsNowhere, IsPlaceOf, IsCutAt, IsLeading};

use std::cmp::Ordering;

/// A rule that is found among others by its key.
pub trait Keyed {
    ghost use Rattle.std.specs.Prelude.{ℕ, List};

    ghost key_of: { Self → List ℕ };

    /// The key of the rule's entry in its rule file, by whose bytes rules are ordered.
    fn key(&self) -> &[u8]
        ensures { result.now ≡ key_of self.now };
}

/// The place of the rule with a key, counted from 0, among rules in byte order of their keys; none exactly where none has it. It
/// takes no memory.
pub fn place_of<R: Keyed>(rules: &[R], key: &[u8]) -> Option<usize>
    requires { RiseBy R.key_of rules.now }
    ensures { MatchOption result (IsNowhere R.key_of rules.now key.now) (IsPlaceOf R.key_of rules.now key.now) }
{
    let mut low = 0;
    let mut high = rules.len();
    while low < high {
        let middle = low + (high - low) / 2;
        let rule = &rules[middle];
        match rule.key().cmp(&key) {
            Ordering::Less => low = middle + 1,
            Ordering::Greater => high = middle,
            Ordering::Equal => return Some(middle),
        }
    }
    None
}

/// The rule with a key, among rules in byte order of their keys; none exactly where none has it. It takes no memory.
pub fn rule_of<'r, R: Keyed>(rules: &'r [R], key: &[u8]) -> Option<&'r R>
    requires { RiseBy R.key_of rules.now }
    ensures { option_copied result ≡ find (λ r. bytes_eq (R.key_of r) key.now) rules.now }
{
    match place_of(rules, key) {
        Some(place) => Some(&rules[place]),
        None => None,
    }
}

/// The rules with a key, which are one or none, among rules in byte order of their keys. It takes no memory.
pub fn rules_at<'r, R: Keyed>(rules: &'r [R], key: &[u8]) -> &'r [R]
    requires { RiseBy R.key_of rules.now }
    ensures { result.now ≡ filter (λ r. bytes_eq (R.key_of r) key.now) rules.now }
{
    match place_of(rules, key) {
        Some(place) => &rules[place..place + 1],
        None => &rules[..0],
    }
}

/// How many rules have a key before this text, in byte order.
fn count_before<R: Keyed>(rules: &[R], text: &[u8]) -> usize
    requires { RiseBy R.key_of rules.now }
    ensures { IsCutAt R.key_of rules.now text.now result result }
{
    let mut low = 0;
    let mut high = rules.len();
    while low < high {
        let middle = low + (high - low) / 2;
        let rule = &rules[middle];
        match rule.key().cmp(&text) {
            Ordering::Less => low = middle + 1,
            Ordering::Equal => high = middle,
            Ordering::Greater => high = middle,
        }
    }
    low
}

/// How many rules from the first on have a key that begins so.
fn count_leading<R: Keyed>(rules: &[R], start: &[u8]) -> usize
    ensures { IsLeading R.key_of rules.now start.now result }
{
    for (at, rule) in rules.iter().enumerate() {
        if !rule.key().starts_with(start) {
            return at;
        }
    }
    rules.len()
}

/// The rules whose keys begin so, among rules in byte order of their keys. It takes no memory.
pub fn rules_under<'r, R: Keyed>(rules: &'r [R], start: &[u8]) -> &'r [R]
    requires { RiseBy R.key_of rules.now }
    ensures { result.now ≡ filter (λ r. starts_with ◌==◌ (R.key_of r) start.now) rules.now }
{
    let rest = &rules[count_before(rules, start)..];
    &rest[..count_leading(rest, start)]
}

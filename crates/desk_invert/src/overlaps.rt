//! Which two renames overlap.

ghost use Rattle.std.specs.Prelude.{◌≡◌, not, ◌&&◌, false, true, None, Some, MatchOption, is_some};
ghost use Rattle.std.specs.Str.{bytes_eq};
ghost use Rattle.std.specs.List.{find, list_any, Contains};
ghost use Rattle.std.specs.Option.{option_copied};
ghost use Rattle.desk_base.specs.Names.{begins_with, front, written, dot};
ghost use Rattle.desk_packages.specs.Renames.{in_reach, key_of};
ghost use Rattle.desk_packages.specs.Keys.{IsTable, RiseBy};
ghost use Rattle.desk_invert.specs.Inverse.{reaches_meet, overlap, first_overlap};
ghost use Rattle.desk_invert.specs.Exchanged.{touches, takes_back, NoneTouches, NoneTakesBack, AreExchanged};

use crate::exchanged::Exchanged;
use desk_chains::{goes_on, meet, source_in_reach};
use desk_packages::{Keyed, PackageRename, Separator, front_end, longest_of, rule_of, rules_under};

/// Whether the front of another rename's target lies in the reach of a rename.
fn target_in_reach(rename: &PackageRename, other: &PackageRename) -> bool
    ensures { result ≡ in_reach rename.now (front other.now.target) }
{
    rename.recall_form();
    other.recall_form();
    goes_on(
        rename.dotted_target(),
        rename.is_below(),
        other.dotted_target(),
    )
}

/// Whether a rename gives what lies below its target, and another's target does or is the same.
fn covers_target(rename: &PackageRename, other: &PackageRename) -> bool
    ensures { result ≡ (rename.now.below && begins_with other.now.target rename.now.target) }
{
    let target = rename.target_segments();
    rename.is_below() && other.target_segments().starts_with(target)
}

/// Whether a package lies in both reaches.
fn reaches_meet(first: &PackageRename, second: &PackageRename) -> bool
    ensures { result ≡ reaches_meet first.now second.now }
{
    first.target_segments() == second.target_segments()
        || covers_target(second, first)
        || covers_target(first, second)
}

/// Whether two renames overlap.
fn overlaps(first: &PackageRename, second: &PackageRename) -> bool
    ensures { result ≡ overlap first.now second.now }
{
    first.changes()
        && second.changes()
        && first.key() != second.key()
        && (reaches_meet(first, second) || target_in_reach(first, second))
}

/// The first rename that overlaps with this one.
fn second_of<'r>(first: &PackageRename, renames: &'r [PackageRename]) -> Option<&'r PackageRename>
    ensures { option_copied result ≡ find (overlap first.now) renames.now }
{
    renames.iter().find(|second| overlaps(first, second))
}

/// Whether a rename takes back what another gives.
fn takes_back(back: &PackageRename, rename: &PackageRename) -> bool
    ensures { result ≡ takes_back back.now rename.now }
{
    back.source() == rename.target_segments()
        && (if rename.is_below() {
            back.is_below()
        } else {
            !back.is_below()
        })
}

/// Whether a rename touches what another gives.
fn touches(back: &PackageRename, rename: &PackageRename) -> bool
    ensures { result ≡ touches back.now rename.now }
{
    meet(rename, back) || source_in_reach(rename, back)
}

/// Whether one of some renames touches what a rename gives, and doesn't take it back.
fn is_touched(rename: &PackageRename, backs: &[PackageRename]) -> bool
    ensures { result ≡ list_any (λ t. not (takes_back t rename.now) && touches t rename.now) backs.now }
{
    backs
        .iter()
        .any(|back| !takes_back(back, rename) && touches(back, rename))
}

/// Whether a below rename gives the source of one of some renames that isn't below.
fn gives_source(rename: &PackageRename, backs: &[PackageRename]) -> bool
    requires { RiseBy key_of backs.now }
    ensures { result ≡ (rename.now.below && is_some (find (λ t. bytes_eq (key_of t) (written dot rename.now.target)) backs.now)) }
{
    rename.is_below() && rule_of(backs, rename.dotted_target()).is_some()
}

/// Whether one of some renames, but for those that take back what a rename gives, touches that: none does where this is false.
fn may_be_touched(rename: &PackageRename, backs: &[PackageRename]) -> bool
    requires { IsTable backs.now }
    ensures { result ≡ false → NoneTouches rename.now backs.now }
{
    rename.recall_form();
    let target = rename.dotted_target();
    match longest_of(backs, &target[..front_end(target, b'.')], Separator::Dot) {
        Some(_) => true,
        None if gives_source(rename, backs) => true,
        None => is_touched(rename, rules_under(backs, rename.target_start())),
    }
}

/// Whether one of some renames takes back what a rename gives, or, where that is a below rename, more: none takes it back where
/// this is false.
fn may_be_taken_back(rename: &PackageRename, backs: &[PackageRename]) -> bool
    requires { IsTable backs.now }
    ensures { result ≡ false → NoneTakesBack rename.now backs.now }
{
    rename.recall_form();
    if rename.is_below() {
        longest_of(backs, rename.dotted_target(), Separator::Dot).is_some()
    } else {
        rule_of(backs, rename.dotted_target()).is_some()
    }
}

/// Whether a rename may overlap with another: none does where this is false, as look-ups among the exchanged renames find.
fn may_overlap(rename: &PackageRename, backs: &Exchanged) -> bool
    requires once { IsTable backs.now.once.items }
    requires repeated { IsTable backs.now.repeated.items }
    ensures alone { result ≡ false → NoneTakesBack rename.now backs.now.repeated.items }
    ensures untouched { result ≡ false → NoneTouches rename.now backs.now.once.items }
{
    may_be_taken_back(rename, &backs.repeated) || may_be_touched(rename, &backs.once)
}

/// The first rename that overlaps with this one, which is looked for only where it may overlap with one.
fn looked_up<'r>(
    first: &PackageRename,
    renames: &'r [PackageRename],
    backs: &Exchanged,
) -> Option<&'r PackageRename>
    requires backs { AreExchanged renames.now backs.now.once.items backs.now.repeated.items }
    requires there { Contains renames.now first.now }
    ensures { option_copied result ≡ find (overlap first.now) renames.now }
{
    if !first.changes() {
        return None;
    }
    if !may_overlap(first, backs) {
        return None;
    }
    second_of(first, renames)
}

/// Two renames.
#[derive(Clone, Copy, Debug)]
pub(crate) struct Overlapping<'r> {
    /// The first, by its key.
    pub(crate) first: &'r PackageRename,
    /// The second.
    pub(crate) second: &'r PackageRename,
}

/// The first two renames that overlap, by the key of the first and then by that of the second.
pub(crate) fn first_overlap<'r>(
    renames: &'r [PackageRename],
    backs: &Exchanged,
) -> Option<Overlapping<'r>>
    requires { AreExchanged renames.now backs.now.once.items backs.now.repeated.items }
    ensures { MatchOption result
        (first_overlap renames.now ≡ None)
        (λ pair. first_overlap renames.now ≡ Some (pair.first.now, pair.second.now)) }
{
    for first in renames {
        if let Some(second) = looked_up(first, renames, backs) {
            return Some(Overlapping { first, second });
        }
    }
    None
}

//! Which rename is picked for a package.

ghost use Rattle.std.specs.Prelude.{◌≡◌, ◌≤◌, ◌<◌, ◌+◌, ◌==◌, None, Some, MatchOption, length, take, map};
ghost use Rattle.std.specs.List.{filter, starts_with};
ghost use Rattle.std.specs.Cmp.Lexicographic.{slice_cmp};
ghost use Rattle.std.specs.Ordering.{nat_cmp};
ghost use Rattle.desk_base.specs.Names.{segments};
ghost use Rattle.desk_packages.specs.Renames.{exact, has_source, key_of, longest, pick};
ghost use Rattle.desk_packages.specs.Keys.{byte_of, goes_below, spelled, wanted, wanted_tail, IsTable, IsSource, NoSource, AllBegin, EndsBelow, NoneEnds, IsChanging, NoneChanging, IsNoneBeyond};
ghost use Rattle.desk_packages.specs.Sought.{is_sought, IsLastBelow, NoneBelow};

use crate::keyed::Keyed;
use crate::narrowing::narrowed;
use crate::{PackageRename, Reach, Separator};
use std::cmp::Ordering;

/// A byte of a path as a key spells it: the separator and `.` change places.
fn spelled(separator: u8, byte: u8) -> u8
    ensures { result ≡ spelled separator byte }
{
    if byte == separator {
        b'.'
    } else if byte == b'.' {
        separator
    } else {
        byte
    }
}

/// What a key ends with behind its source.
fn tail(reach: Reach) -> &'static [u8]
    ensures { result.now ≡ wanted_tail (goes_below reach) }
{
    match reach {
        Reach::Exact => b"",
        Reach::Below => b".*",
    }
}

/// How a key compares with the key that a rename of this path would have.
fn compare(key: &[u8], path: &[u8], separator: u8, reach: Reach) -> Ordering
    ensures { result ≡ slice_cmp nat_cmp key.now (wanted separator path.now (goes_below reach)) }
{
    for (at, byte) in path.iter().enumerate() {
        if at >= key.len() {
            return Ordering::Less;
        }
        match key[at].cmp(&spelled(separator, *byte)) {
            Ordering::Equal => {}
            Ordering::Less => return Ordering::Less,
            Ordering::Greater => return Ordering::Greater,
        }
    }
    key[path.len()..].cmp(&tail(reach))
}

/// The rename of this reach with the source that a separator writes so; none exactly where there is none.
fn find<'r>(
    renames: &'r [PackageRename],
    path: &[u8],
    separator: Separator,
    reach: Reach,
) -> Option<&'r PackageRename>
    requires { IsTable renames.now }
    ensures { MatchOption result
        (NoSource renames.now (byte_of separator) path.now (goes_below reach))
        (λ r. IsSource renames.now (byte_of separator) path.now (goes_below reach) r.now) }
{
    let mut low = 0;
    let mut high = renames.len();
    while low < high {
        let middle = low + (high - low) / 2;
        let rename = &renames[middle];
        match compare(rename.key(), path, separator.byte(), reach) {
            Ordering::Less => low = middle + 1,
            Ordering::Greater => high = middle,
            Ordering::Equal if rename.has(reach) => return Some(rename),
            Ordering::Equal => return None,
        }
    }
    None
}

/// The exact rename of a path's package.
fn exact_of<'r>(
    renames: &'r [PackageRename],
    path: &[u8],
    separator: Separator,
) -> Option<&'r PackageRename>
    requires { IsTable renames.now }
    ensures { MatchOption result
        (exact renames.now (segments (byte_of separator) path.now) ≡ None)
        (λ r. exact renames.now (segments (byte_of separator) path.now) ≡ Some r.now) }
{
    find(renames, path, separator, Reach::Exact)
}

/// Whether a package that is written with a separator is the source of a rename, of an exception too, among renames in byte
/// order of their keys. It takes no memory.
pub fn is_source(renames: &[PackageRename], path: &[u8], separator: Separator) -> bool
    requires { IsTable renames.now }
    ensures { result ≡ has_source renames.now (segments (byte_of separator) path.now) }
{
    match find(renames, path, separator, Reach::Exact) {
        Some(_) => true,
        None => find(renames, path, separator, Reach::Below).is_some(),
    }
}

/// Which below renames are looked for.
#[derive(Clone, Copy, Debug)]
enum Sought {
    /// Each of them.
    All,
    /// Those that change.
    Changing,
}

impl Sought {
    /// Whether a rename is looked for.
    fn is_met_by(self, rename: &PackageRename) -> bool
        ensures { result ≡ is_sought self rename.now }
    {
        match self {
            Sought::All => true,
            Sought::Changing => rename.changes(),
        }
    }
}

/// The below rename whose source is a path up to a place, where a segment ends there, among renames whose keys begin with what
/// stands before that place.
fn below_at<'r>(
    renames: &'r [PackageRename],
    path: &[u8],
    separator: Separator,
    end: usize,
) -> Option<&'r PackageRename>
    requires table { IsTable renames.now }
    requires within { end ≤ length path.now }
    requires alike { AllBegin key_of renames.now (map (spelled (byte_of separator)) (take end path.now)) (length renames.now) }
    ensures { MatchOption result
        (NoneEnds renames.now (byte_of separator) path.now end)
        (λ r. EndsBelow renames.now (byte_of separator) path.now end r.now) }
{
    if end < path.len() && path[end] != separator.byte() {
        return None;
    }
    let dotted = narrowed(renames, end, b'.');
    match narrowed(dotted, end + 1, b'*') {
        [rename, ..] => Some(rename),
        [] => None,
    }
}

/// The renames whose keys go on as a path does at a place, among renames whose keys begin with what stands before it; all of them
/// where the path ends there.
fn going_on<'r>(
    renames: &'r [PackageRename],
    path: &[u8],
    separator: Separator,
    end: usize,
) -> &'r [PackageRename]
    requires table { IsTable renames.now }
    requires within { end ≤ length path.now }
    requires alike { AllBegin key_of renames.now (map (spelled (byte_of separator)) (take end path.now)) (length renames.now) }
    ensures table { IsTable result.now }
    ensures begin { result.now ≡ filter (λ r. starts_with ◌==◌ (key_of r) (map (spelled (byte_of separator)) (take (end + 1) path.now))) renames.now }
{
    if end == path.len() {
        return renames;
    }
    narrowed(renames, end, spelled(separator.byte(), path[end]))
}

/// The below rename with the longest source that fits a package that is written with a separator, of those that are looked for.
/// The path is read once, as far as a key begins with it.
fn longest_sought<'r>(
    renames: &'r [PackageRename],
    path: &[u8],
    separator: Separator,
    sought: Sought,
) -> Option<&'r PackageRename>
    requires { IsTable renames.now }
    ensures { MatchOption result
        (NoneBelow renames.now (byte_of separator) path.now sought (length path.now + 1))
        (λ r. IsLastBelow renames.now (byte_of separator) path.now sought (length path.now + 1) r.now) }
{
    let mut rest = renames;
    let mut found = None;
    for end in 0..=path.len() {
        if rest.is_empty() {
            return found;
        }
        found = match below_at(rest, path, separator, end) {
            Some(rename) if sought.is_met_by(rename) => Some(rename),
            _ => found,
        };
        rest = going_on(rest, path, separator, end);
    }
    found
}

/// The below rename with the longest source that fits a package that is written with a separator, among renames in byte order of
/// their keys; none exactly where no below rename fits. Exact renames don't count. It takes no memory.
pub fn longest_of<'r>(
    renames: &'r [PackageRename],
    path: &[u8],
    separator: Separator,
) -> Option<&'r PackageRename>
    requires { IsTable renames.now }
    ensures longest { MatchOption result
        (longest renames.now (segments (byte_of separator) path.now) ≡ None)
        (λ r. longest renames.now (segments (byte_of separator) path.now) ≡ Some r.now) }
{
    longest_sought(renames, path, separator, Sought::All)
}

/// The rename that is picked for a package that is written with a separator, among renames in byte order of their keys: the
/// exact one, else the longest below one; none exactly where none fits. It takes no memory.
pub fn pick<'r>(
    renames: &'r [PackageRename],
    path: &[u8],
    separator: Separator,
) -> Option<&'r PackageRename>
    requires { IsTable renames.now }
    ensures { MatchOption result
        (pick renames.now (segments (byte_of separator) path.now) ≡ None)
        (λ r. pick renames.now (segments (byte_of separator) path.now) ≡ Some r.now) }
{
    match exact_of(renames, path, separator) {
        Some(rename) => Some(rename),
        None => longest_of(renames, path, separator),
    }
}

/// A changing below rename that fits a path's package.
fn changing_below<'r>(
    renames: &'r [PackageRename],
    path: &[u8],
    separator: Separator,
) -> Option<&'r PackageRename>
    requires { IsTable renames.now }
    ensures { MatchOption result
        (IsNoneBeyond renames.now (byte_of separator) path.now 0)
        (λ r. IsChanging renames.now (segments (byte_of separator) path.now) r.now) }
{
    longest_sought(renames, path, separator, Sought::Changing)
}

/// A rename that changes and fits a package that is written with a separator, among renames in byte order of their keys;
/// none exactly where there is none. It takes no memory.
pub fn changing_for<'r>(
    renames: &'r [PackageRename],
    path: &[u8],
    separator: Separator,
) -> Option<&'r PackageRename>
    requires { IsTable renames.now }
    ensures { MatchOption result
        (NoneChanging renames.now (segments (byte_of separator) path.now))
        (λ r. IsChanging renames.now (segments (byte_of separator) path.now) r.now) }
{
    match exact_of(renames, path, separator) {
        Some(rename) if rename.changes() => Some(rename),
        _ => changing_below(renames, path, separator),
    }
}

//! Renames whose keys are alike up to a place, and which of them are alike up to the next.

ghost use Rattle.std.specs.Prelude.{◌≡◌, ◌≤◌, ◌<◌, ◌^◌, ◌∷◌, [], ◌++◌, ◌==◌, length, drop};
ghost use Rattle.std.specs.List.{filter, starts_with};
ghost use Rattle.desk_base.specs.Names.{Text};
ghost use Rattle.desk_packages.specs.Renames.{key_of};
ghost use Rattle.desk_packages.specs.Keys.{IsTable, KeysRise, IsCutAt, AllBegin, goes_on_below};

use crate::PackageRename;
use crate::keyed::Keyed;

/// Whether a key has ended before a place, or has a byte below a limit there.
fn is_below(key: &[u8], place: usize, limit: u16) -> bool
    ensures { result ≡ goes_on_below limit (drop place key.now) }
{
    match key.get(place) {
        None => true,
        Some(byte) => u16::from(*byte) < limit,
    }
}

/// Which of some renames is looked at first.
#[derive(Clone, Copy)]
enum End {
    /// The first of them.
    Front,
    /// The last of them.
    Back,
}

/// The place that is looked at next: halfway between two, or at an end of what lies between them.
fn probed(low: usize, high: usize, end: Option<End>) -> usize
    requires { low < high }
    ensures from { low ≤ result }
    ensures below { result < high }
{
    match end {
        Some(End::Front) => low,
        Some(End::Back) => high - 1,
        None => low + (high - low) / 2,
    }
}

/// How many renames have a key that has ended before a place, or has a byte below a limit there, among renames in byte order of
/// their keys, where these are alike up to that place. One end of them is looked at first, which tells it where all have one byte
/// there.
fn count_below(renames: &[PackageRename], place: usize, limit: u16, end: End) -> usize
    requires { KeysRise renames.now }
    ensures within { result ≤ length renames.now }
    ensures cut { (start : Text) → length start ≡ place → AllBegin key_of renames.now start (length renames.now) → IsCutAt key_of renames.now (start ++ limit ∷ []) result result }
{
    let mut low = 0;
    let mut high = renames.len();
    let mut end = Some(end);
    while low < high {
        let middle = probed(low, high, end.take());
        let rename = &renames[middle];
        if is_below(rename.key(), place, limit) {
            low = middle + 1;
        } else {
            high = middle;
        }
    }
    low
}

/// The renames whose keys have a byte at a place, among renames in byte order of their keys, where these are alike up to that
/// place. It takes no memory.
pub(crate) fn narrowed<'r>(
    renames: &'r [PackageRename],
    place: usize,
    byte: u8,
) -> &'r [PackageRename]
    requires { IsTable renames.now }
    ensures table { IsTable result.now }
    ensures narrowed { (start : Text) → length start ≡ place → AllBegin key_of renames.now start (length renames.now) → result.now ≡ filter (λ r. starts_with ◌==◌ (key_of r) (start ++ byte ∷ [])) renames.now }
{
    let limit = u16::from(byte);
    let rest = &renames[count_below(renames, place, limit, End::Front)..];
    &rest[..count_below(rest, place, limit + 1, End::Back)]
}

//! What lies in the reach or in the scope of a rename, told from its bytes.

ghost use Rattle.std.specs.Prelude.{◌≡◌};
ghost use Rattle.desk_base.specs.Names.{is_whole, front};
ghost use Rattle.desk_packages.specs.Renames.{in_reach, in_scope};
ghost use Rattle.desk_packages.specs.Keys.{goes_on};
ghost use Rattle.desk_chains.specs.Chains.{meets, front_in_reach, front_in_scope};

use desk_names::is_dotted;
use desk_packages::PackageRename;

fn has_no_dot(text: &[u8]) -> bool
    ensures { result ≡ is_whole 46 text.now }
{
    text.iter().all(|byte| *byte != b'.')
}

/// Whether a text goes on behind a start: with a dot and one more segment, or, below it, with a dot and any text. It takes no
/// memory.
pub fn goes_on(start: &[u8], below: bool, text: &[u8]) -> bool
    ensures behind { result ≡ goes_on below start.now text.now }
{
    text.starts_with(start)
        && start.len() < text.len()
        && text[start.len()] == b'.'
        && (below || has_no_dot(&text[start.len() + 1..]))
}

/// Whether a package lies in the reach of the first, which are the packages that it may give, and in the scope of the second,
/// which are those that it fits. It takes no memory.
pub fn meet(first: &PackageRename, second: &PackageRename) -> bool
    ensures shared { result ≡ meets first.now second.now }
{
    first.target_segments() == second.source()
        || (second.is_below() && first.target_segments().starts_with(second.source()))
        || (first.is_below() && second.source().starts_with(first.target_segments()))
}

/// Whether a text is a dotted name whose front lies in the reach of a rename.
pub(crate) fn front_in_reach(rename: &PackageRename, text: &[u8]) -> bool
    ensures { result ≡ front_in_reach rename.now text.now }
{
    rename.recall_form();
    is_dotted(text) && goes_on(rename.dotted_target(), rename.is_below(), text)
}

/// Whether a text is a dotted name whose front lies in the scope of a rename.
pub(crate) fn front_in_scope(rename: &PackageRename, text: &[u8]) -> bool
    ensures { result ≡ front_in_scope rename.now text.now }
{
    rename.recall_form();
    is_dotted(text) && goes_on(rename.dotted_source(), rename.is_below(), text)
}

/// Whether the front of another rename's target lies in the scope of a rename.
pub(crate) fn target_in_scope(rename: &PackageRename, other: &PackageRename) -> bool
    ensures { result ≡ in_scope rename.now (front other.now.target) }
{
    other.recall_form();
    front_in_scope(rename, other.dotted_target())
}

/// Whether the front of another rename's source, its segments but the last, lies in the reach of a rename: whether a dotted name
/// that the rename may give is that source. It takes no memory.
pub fn source_in_reach(rename: &PackageRename, other: &PackageRename) -> bool
    ensures reached { result ≡ in_reach rename.now (front other.now.source) }
{
    other.recall_form();
    front_in_reach(rename, other.dotted_source())
}

//! Whether two targets clash.

ghost use Rattle.std.specs.Prelude.{◌≡◌};
ghost use Rattle.desk_clashes.specs.Clashes.{clashes, is_folder};

/// Whether a target is a folder of another: with `/` behind it, it is a front of the other.
fn is_folder(folder: &[u8], path: &[u8]) -> bool
    ensures { result ≡ is_folder folder.now path.now }
{
    let depth = folder.len();
    if path.len() <= depth {
        return false;
    }
    path[depth] == b'/' && &path[..depth] == folder
}

/// Whether a target equals another, or one of the two is a folder of the other.
pub(crate) fn clashes(one: &[u8], other: &[u8]) -> bool
    ensures { result ≡ clashes one.now other.now }
{
    one == other || is_folder(one, other) || is_folder(other, one)
}

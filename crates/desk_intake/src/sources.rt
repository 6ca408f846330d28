//! Reads one file.

ghost use Rattle.std.specs.Prelude.{◌≡◌, ◌≤◌, length, Err, IfOk, IfSome, IsSome};
ghost use Rattle.std.specs.FinMap as fin;
ghost use Rattle.desk_base.specs.Paths.{full};
ghost use Rattle.desk_base.specs.Counts.{Rose};
ghost use Rattle.desk_folders.specs.Contents.{bytes_at};
ghost use Rattle.desk_readings.specs.Sizes.{within};

use desk_base::Text;
use desk_folders::{FolderFault, Folders};
use desk_readings::{full_path, read_whole};
use std::alloc::Global;

/// Reads a file below a root whole; none where it has more than `most` bytes. The errors are a fault of the folders and want of
/// memory.
pub fn read_below<F: Folders>(
    alloc: Global,
    folders: &mut F,
    root: &Text,
    path: &Text,
    most: usize,
) -> Result<Option<Text>, FolderFault>
    requires { IfSome (F.told folders.old) (λ m. IsSome (fin.get m (full root.now path.now))) }
    ensures told { F.told folders.new ≡ F.told folders.old }
    ensures whole { IfOk result (λ text. IfSome (F.told folders.old) (λ m. text ≡ within most (bytes_at m (full root.now path.now)))) }
    ensures small { IfOk result (λ text. IfSome text (λ bytes. length bytes ≤ most)) }
    ensures counts { F.faults folders.old ≤ F.faults folders.new }
    ensures failed { result ≡ Err FolderFault.Failed → Rose (F.faults folders.old) (F.faults folders.new) }
{
    let whole = full_path(alloc, root, path)?;
    read_whole(alloc, folders, &whole, most)
}

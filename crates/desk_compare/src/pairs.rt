//! Two files that are compared.

ghost use Rattle.std.specs.Prelude.{◌≤◌, length};
ghost use Rattle.desk_base.specs.Limits.{file_size};

use desk_folders::GenFile;

/// The files at one place of two lists, neither longer than a file may be.
#[derive(Clone, Copy)]
pub(crate) struct FilePair<'f> {
    /// That of the left list.
    pub left: &'f GenFile,
    /// That of the right list.
    pub right: &'f GenFile,
    pub ghost left_short: { length left.now.content ≤ file_size },
    pub ghost right_short: { length right.now.content ≤ file_size },
}

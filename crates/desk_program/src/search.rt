//! A look through the files of an application, for rules that nothing in them meets.

use crate::looks::{MOST_PATHS, listing_of, path_below};
use desk_base::{MAX_FILE_SIZE, Text};
use desk_disk::DiskFolders;
use desk_folders::Folders;
use desk_unmet::Sought;

/// How many bytes are read at once.
const PART: u32 = 1_048_576;

/// How many bytes of an application are looked at.
const MOST_BYTES: u64 = 1_073_741_824;

/// The files below a root, as they are looked at.
#[derive(Drop)]
struct Files<'r, 'a> {
    folders: DiskFolders<'r>,
    root: &'a Text,
    /// How many bytes may still be read.
    left: u64,
}

impl<'r, 'a> Files<'r, 'a> {
    /// The files below a root, of which none was looked at.
    fn below(rt: &'r HostRuntime, root: &'a Text) -> Files<'r, 'a> {
        Files {
            folders: DiskFolders::new(rt),
            root,
            left: MOST_BYTES,
        }
    }

    /// The next part of a file, which is empty at its end; none where it can't be read, or where more bytes were read than may be.
    fn part(&mut self, path: &Text, at: u64) -> Option<Text> {
        let part = self.folders.read_part(path, at, PART).ok()?;
        self.left = self.left.checked_sub(part.as_bytes().len() as u64)?;
        Some(part)
    }

    /// Looks at a file, at 67,108,864 bytes of it at most: no larger one is read for a rule. None where it can't be looked at.
    fn look_at(&mut self, name: &[u8], sought: &mut Sought) -> Option<()> {
        let path = path_below(self.root, name).ok()?;
        let mut at = 0;
        sought.begin(name);
        for _ in 0..MAX_FILE_SIZE {
            if at >= MAX_FILE_SIZE as u64 || sought.is_done() {
                return Some(());
            }
            let part = self.part(&path, at)?;
            if part.as_bytes().is_empty() {
                return Some(());
            }
            sought.take(part.as_bytes()).ok()?;
            at = at.saturating_add(part.as_bytes().len() as u64);
        }
        Some(())
    }

    /// Looks at files until no rule is left. None where one can't be looked at.
    fn look_at_all(&mut self, names: &[Text], sought: &mut Sought) -> Option<()> {
        for name in names {
            if sought.is_done() {
                return Some(());
            }
            self.look_at(name.as_bytes(), sought)?;
        }
        Some(())
    }
}

/// Looks for rules in files below a root until none is left: first in these, so that the root isn't listed where they meet each rule,
/// and then in all. None where they can't be looked at: one can't be read, there are more than 200,000, they have more than
/// 1,073,741,824 bytes together, or memory doesn't suffice.
pub(crate) fn look_through(
    rt: &HostRuntime,
    root: &Text,
    first: &[Text],
    sought: &mut Sought,
) -> Option<()> {
    if sought.is_done() {
        return Some(());
    }
    sought.settle().ok()?;
    Files::below(rt, root).look_at_all(first, sought)?;
    if sought.is_done() {
        return Some(());
    }
    let names = listing_of(rt, root, MOST_PATHS)?.ok()?;
    if names.len() > MOST_PATHS as usize {
        return None;
    }
    Files::below(rt, root).look_at_all(names.as_slice(), sought)
}

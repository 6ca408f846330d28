//! The paths below a root.

ghost use Rattle.std.specs.Prelude.{◌≡◌, ◌≤◌, ◌+◌, ◌++◌, ◌∷◌, [], take, OnOk, IfOk};
ghost use Rattle.std.specs.Option.{option_copied};
ghost use Rattle.std.specs.List.{filter_map};
ghost use Rattle.std.specs.BTreeMap.{keys, IsOrdered};
ghost use Rattle.std.specs.Cmp.Lexicographic.{slice_cmp};
ghost use Rattle.std.specs.Ordering.{nat_cmp};
ghost use Rattle.desk_base.specs.Paths.{is_segment, is_relative_path, is_full_path, folder};
ghost use Rattle.desk_folders.specs.Contents.{behind, below};

use desk_base::{Memory, Text, TextList};
use std::alloc::Global;
use std::collections::BTreeMap;

/// Whether a name is one of a file or folder: not empty, not `.`, not `..`.
fn is_name(name: &[u8]) -> bool
    ensures { result ≡ is_segment name.now }
{
    !name.is_empty() && name != b".".as_slice() && name != b"..".as_slice()
}

/// Whether a path is one or more names joined by `/`.
pub fn is_relative(path: &[u8]) -> bool
    ensures { result ≡ is_relative_path path.now }
{
    path.split(|byte| *byte == b'/').all(|name| is_name(name))
}

/// Whether a path is full: one or more names joined by `/`, or `/` and such a path. The folders take full paths alone.
pub fn is_full(path: &[u8]) -> bool
    ensures { result ≡ is_full_path path.now }
{
    match path {
        [] => false,
        [first, rest @ ..] => is_relative(path) || (*first == b'/' && is_relative(rest)),
    }
}

/// What a text has behind a front.
fn behind_front<'a>(front: &[u8], text: &'a [u8]) -> Option<&'a [u8]>
    ensures { option_copied result ≡ behind front.now text.now }
{
    if text.starts_with(front) {
        Some(&text[front.len()..])
    } else {
        None
    }
}

/// What a text has behind one front and then another.
fn behind_both<'a>(first: &[u8], second: &[u8], text: &'a [u8]) -> Option<&'a [u8]>
    ensures { option_copied result ≡ behind (first.now ++ second.now) text.now }
{
    let rest = behind_front(first, text)?;
    behind_front(second, rest)
}

/// What a full path has behind the folder of a root.
fn behind_folder<'a>(root: &[u8], path: &'a [u8]) -> Option<&'a [u8]>
    ensures { option_copied result ≡ behind (folder root.now) path.now }
{
    if root == b".".as_slice() {
        return Some(path);
    }
    if root == b"/".as_slice() {
        return behind_front(b"/", path);
    }
    behind_both(root, b"/", path)
}

/// The relative path below a root that a full path is.
fn below_root<'a>(root: &[u8], path: &'a [u8]) -> Option<&'a [u8]>
    ensures { option_copied result ≡ below root.now path.now }
{
    let rest = behind_folder(root, path)?;
    if is_relative(rest) { Some(rest) } else { None }
}

/// Adds a copy of a text.
fn push_copy(alloc: Global, paths: &mut TextList, text: &[u8]) -> Result<(), Memory>
    ensures { OnOk result (paths.new ≡ paths.old ++ text.now ∷ []) }
{
    paths.push(Text::from_bytes(alloc, text)?)
}

/// The first of the paths below a root, `most + 1` at most.
pub fn paths_of(
    alloc: Global,
    files: &BTreeMap<Text, Text>,
    root: &[u8],
    most: u32,
) -> Result<TextList, Memory>
    requires { most ≤ 1000000 }
    ensures paths { IfOk result (λ paths. paths ≡ take (most + 1) (filter_map (below root.now) (keys files.now))) }
    ensures ordered { OnOk result (IsOrdered (slice_cmp nat_cmp) files.now) }
{
    let mut paths = TextList::empty(alloc);
    for (path, _) in files.iter() {
        if paths.len() <= most as usize {
            if let Some(rest) = below_root(root, path.as_bytes()) {
                push_copy(alloc, &mut paths, rest)?;
            }
        }
    }
    Ok(paths)
}

//! Where files go.

ghost use Rattle.std.specs.Prelude.{◌≡◌, ◌++◌, IfOk, OnOk, IsTrue};
ghost use Rattle.desk_base.specs.Paths.{is_relative_path};
ghost use Rattle.desk_patterns.specs.Selections.{selects};
ghost use Rattle.desk_rules.specs.Images.{dotted};
ghost use Rattle.desk_rename.specs.Images.{package_image};
ghost use Rattle.desk_paths.specs.Paths.{renamed_path, target};
ghost use Rattle.desk_paths.specs.Kinds.{RenamedStays, TargetStays};
ghost use Rattle.desk_paths.specs.Walks.{IsCutAt, IsPackageEnd, Stay};

use crate::places::{CutPath, is_service_file};
use desk_base::{Memory, Text};
use desk_rename::{append_dotted, append_package};
use desk_rules::RuleSet;
use std::alloc::Global;

/// The folders of a path, with the package among them exchanged: what stands before the package, its
/// image, and what stands behind it.
fn with_package(
    alloc: Global,
    rules: &RuleSet,
    root: &[u8],
    folder: &[u8],
    behind: &[u8],
) -> Result<Text, Memory>
    ensures found { IfOk result (λ found. found ≡ (root.now ++ package_image rules.now.renames folder.now) ++ behind.now) }
    ensures stay { OnOk result (Stay rules.now.renames) }
{
    let mut found = Text::from_bytes(alloc, root)?;
    append_package(&mut found, rules, folder)?;
    found.append(behind)?;
    Ok(found)
}

/// The path of a file in these folders whose name is exchanged as a dotted name.
fn with_name(alloc: Global, rules: &RuleSet, folders: &[u8], file: &[u8]) -> Result<Text, Memory>
    ensures found { IfOk result (λ found. found ≡ folders.now ++ dotted rules.now.renames file.now) }
    ensures stay { OnOk result (Stay rules.now.renames) }
{
    let mut found = Text::from_bytes(alloc, folders)?;
    append_dotted(&mut found, rules, file)?;
    Ok(found)
}

/// Where the package of a path ends, which is without the `/` behind it.
fn package_end(path: &[u8], rest_at: usize, file_at: usize) -> usize
    requires { IsCutAt path.now rest_at file_at }
    ensures { IsPackageEnd path.now rest_at result }
{
    if rest_at < file_at {
        file_at - 1
    } else {
        file_at
    }
}

impl CutPath<'_> {
    /// Where the file goes where it is selected, as `renamed_path` says. The only error is want of memory.
    fn renamed(&self, alloc: Global, rules: &RuleSet) -> Result<Text, Memory>
        ensures target { IfOk result (λ found. found ≡ renamed_path rules.now.renames self.now) }
        ensures stays { IfOk result (λ _. RenamedStays rules.now.renames self.now) }
        ensures relative { IfOk result (λ found.
            IsTrue (is_relative_path self.now) → IsTrue (is_relative_path found)) }
    {
        let CutPath {
            path,
            rest_at,
            file_at,
        } = *self;
        if is_service_file(&path[rest_at..file_at], &path[file_at..]) {
            with_name(alloc, rules, &path[..file_at], &path[file_at..])
        } else {
            let end = package_end(path, rest_at, file_at);
            with_package(
                alloc,
                rules,
                &path[..rest_at],
                &path[rest_at..end],
                &path[end..],
            )
        }
    }

    /// Where the file goes, which is selected by the rules or not: as `target` says. The only error is want of memory.
    pub fn target(&self, alloc: Global, rules: &RuleSet, selected: bool) -> Result<Text, Memory>
        requires { selected ≡ selects rules.now.selection self.now }
        ensures target { IfOk result (λ found. found ≡ target rules.now self.now) }
        ensures stays { IfOk result (λ _. TargetStays rules.now self.now) }
        ensures relative { IfOk result (λ found.
            IsTrue (is_relative_path self.now) → IsTrue (is_relative_path found)) }
    {
        if selected {
            self.renamed(alloc, rules)
        } else {
            Text::from_bytes(alloc, self.path)
        }
    }
}

/// Where a selected file goes: a service file's path with its file name exchanged as a dotted name,
/// and any other path with the folder behind its class root exchanged as a package. The target of a
/// target is itself, with its path's class root and kind; and the target of a relative path is a
/// relative path. The only error is want of memory.
pub fn renamed_path(alloc: Global, rules: &RuleSet, path: &[u8]) -> Result<Text, Memory>
    ensures target { IfOk result (λ found. found ≡ renamed_path rules.now.renames path.now) }
    ensures stays { IfOk result (λ _. RenamedStays rules.now.renames path.now) }
    ensures relative { IfOk result (λ found.
        IsTrue (is_relative_path path.now) → IsTrue (is_relative_path found)) }
{
    CutPath::of(path).renamed(alloc, rules)
}

/// Where a file goes: a selected file as `renamed_path` says, and an unselected one keeps its path. The
/// target of a target is itself, with its path's class root and kind; and the target of a relative
/// path is a relative path. The only error is want of memory.
pub fn target(alloc: Global, rules: &RuleSet, path: &[u8]) -> Result<Text, Memory>
    ensures target { IfOk result (λ found. found ≡ target rules.now path.now) }
    ensures stays { IfOk result (λ _. TargetStays rules.now path.now) }
    ensures relative { IfOk result (λ found.
        IsTrue (is_relative_path path.now) → IsTrue (is_relative_path found)) }
{
    CutPath::of(path).target(alloc, rules, rules.selected(path))
}

//! Rule files, read entry by entry in byte order of their keys.

ghost use Rattle.std.specs.Prelude.{◌≡◌, ◌≤◌, Ok, IfOk, IfErr, length, List, ℕ, Result, map};
ghost use Rattle.std.specs.FinMap as finite;
ghost use Rattle.desk_entries.specs.Entries.{IsError};
ghost use Rattle.desk_rules.specs.Builds.{IsFaultOf, IsEntryFault};
ghost use Rattle.desk_rules.specs.Files.{renames_name, selection_name};
ghost use Rattle.desk_packages.specs.Keys.{IsTable, RiseBy};
ghost use Rattle.desk_rules.specs.RuleFiles.{entries_in, in_order, each, all_in, renames_in, fault_at, selection_entry};

use crate::keyed::{SelectionRule, VersionRule};
use crate::{BuildFault, RuleFault, RuleFiles};
use desk_base::{Memory, Text};
use desk_entries::{
    BundleRule, DirectRule, EntryError, EntryFault, check_string, read_mark, read_rename,
    read_update, read_versions,
};
use desk_packages::{Keyed, PackageRename};
use desk_patterns::Selection;
use desk_properties::{PropError, read_properties};
use indexmap::IndexMap;
use std::alloc::Global;

/// The file of the renames.
const RENAMES: &[u8] = b"renames.properties";

/// The file of the selection.
pub(crate) const SELECTION: &[u8] = b"selection.properties";

/// What an entry of a rule file says.
pub(crate) trait FromEntry: Keyed + Drop {
    ghost use Rattle.std.specs.Prelude.{ℕ, List, Result};
    ghost use Rattle.desk_entries.specs.declared.faults.EntryFault.{EntryFault as Fault};

    ghost read_entry: { List ℕ → List ℕ → Result Self Fault };

    /// What a key and its value say. The fault is that of the key, else that of the value, or want of memory.
    fn from_entry(alloc: Global, key: &[u8], value: &[u8]) -> Result<Self, EntryError>
        ensures read { IfOk result (λ rule. read_entry key.now value.now ≡ Ok rule) }
        ensures refused { IfErr result (IsError (read_entry key.now value.now)) }
        ensures keyed { IfOk result (λ rule. Self.key_of rule ≡ key.now) };
}

/// The entries of a file, of which a missing file has none. The fault is that of its properties, or want of memory.
pub(crate) fn entries_in(
    alloc: Global,
    files: &RuleFiles,
    file: &[u8],
) -> Result<IndexMap<Text, Text>, BuildFault>
    ensures read { IfOk result (λ entries. entries_in files.now file.now ≡ Ok entries.entries) }
    ensures refused { IfErr result (IsFaultOf (entries_in files.now file.now)) }
{
    let name = Text::from_bytes(alloc, file)?;
    match files.content(&name) {
        None => Ok(IndexMap::new(alloc)),
        Some(content) => match read_properties(alloc, content) {
            Ok(entries) => Ok(entries),
            Err(PropError::Fault(fault)) => Err(BuildFault::Rules(RuleFault::Properties {
                file: name,
                fault,
            })),
            Err(PropError::Memory) => Err(BuildFault::Memory),
        },
    }
}

/// Entries in byte order of their keys. The only error is want of memory.
pub(crate) fn sorted(mut entries: IndexMap<Text, Text>) -> Result<IndexMap<Text, Text>, Memory>
    ensures { IfOk result (λ sorted. sorted.entries ≡ in_order entries.entries) }
{
    entries.sort_keys()?;
    Ok(entries)
}

/// The fault of an entry of a file.
pub(crate) fn fault_of(
    alloc: Global,
    file: &[u8],
    key: &[u8],
    fault: EntryFault,
) -> Result<RuleFault, Memory>
    ensures { IfOk result (λ it. it ≡ fault_at file.now key.now fault) }
{
    let file = Text::from_bytes(alloc, file)?;
    let key = Text::from_bytes(alloc, key)?;
    match fault {
        EntryFault::Key => Ok(RuleFault::BadKey { file, key }),
        EntryFault::Value => Ok(RuleFault::BadValue { file, key }),
    }
}

/// What an entry of a file says, or its fault.
fn read_one<R: FromEntry>(
    alloc: Global,
    file: &[u8],
    key: &[u8],
    value: &[u8],
) -> Result<R, BuildFault>
    ensures read { IfOk result (λ rule. R.read_entry key.now value.now ≡ Ok rule) }
    ensures refused { IfErr result (IsEntryFault file.now key.now (R.read_entry key.now value.now)) }
    ensures keyed { IfOk result (λ rule. R.key_of rule ≡ key.now) }
{
    match R::from_entry(alloc, key, value) {
        Ok(rule) => Ok(rule),
        Err(EntryError::Memory) => Err(BuildFault::Memory),
        Err(EntryError::Fault(fault)) => {
            let fault = fault_of(alloc, file, key, fault)?;
            Err(BuildFault::Rules(fault))
        }
    }
}

/// What each entry of a file says, or the first fault.
fn read_each<R: FromEntry>(
    alloc: Global,
    file: &[u8],
    entries: &IndexMap<Text, Text>,
) -> Result<Vec<R>, BuildFault>
    ensures read { IfOk result (λ rules. each file.now R.read_entry entries.now.entries ≡ Ok rules.items) }
    ensures refused { IfErr result (IsFaultOf (each file.now R.read_entry entries.now.entries)) }
    ensures keyed { IfOk result (λ rules. map R.key_of rules.items ≡ map (λ e. e.0) entries.now.entries) }
{
    let mut rules = Vec::new(alloc);
    for i in 0..entries.len() {
        if let Some((key, value)) = entries.get_index(i) {
            let rule = read_one(alloc, file, key.as_bytes(), value.as_bytes())?;
            rules.push(rule)?;
        }
    }
    Ok(rules)
}

/// What the entries of a file say, in byte order of their keys, or the first fault.
pub(crate) fn read_all<R: FromEntry>(
    alloc: Global,
    files: &RuleFiles,
    file: &[u8],
) -> Result<Vec<R>, BuildFault>
    ensures read { IfOk result (λ rules. all_in files.now file.now R.read_entry ≡ Ok rules.items) }
    ensures refused { IfErr result (IsFaultOf (all_in files.now file.now R.read_entry)) }
    ensures rising { IfOk result (λ rules. RiseBy R.key_of rules.items) }
{
    let entries = sorted(entries_in(alloc, files, file)?)?;
    read_each(alloc, file, &entries)
}

/// The renames, of which there must be one.
pub(crate) fn read_renames(
    alloc: Global,
    files: &RuleFiles,
) -> Result<Vec<PackageRename>, BuildFault>
    ensures read { IfOk result (λ renames. renames_in files.now ≡ Ok renames.items) }
    ensures refused { IfErr result (IsFaultOf (renames_in files.now)) }
    ensures table { IfOk result (λ renames. IsTable renames.items) }
{
    let entries = entries_in(alloc, files, RENAMES)?;
    if entries.is_empty() {
        return Err(BuildFault::Rules(RuleFault::NoRenames));
    }
    let entries = sorted(entries)?;
    read_each(alloc, RENAMES, &entries)
}

/// The selection of these patterns. The only error is want of memory.
fn selection_from(alloc: Global, rules: &[SelectionRule]) -> Result<Selection, Memory>
    ensures { IfOk result (λ selection. selection ≡ rules.now) }
{
    let mut selection = Selection::new(alloc);
    for rule in rules {
        let pattern = Text::from_bytes(alloc, rule.key())?;
        selection.push(pattern, rule.mark())?;
    }
    Ok(selection)
}

/// The selection of a rule folder, or the first fault of its file.
pub(crate) fn read_selection(alloc: Global, files: &RuleFiles) -> Result<Selection, BuildFault>
    ensures read { IfOk result (λ selection. all_in files.now selection_name selection_entry ≡ Ok selection) }
    ensures refused { IfErr result (IsFaultOf (all_in files.now selection_name selection_entry)) }
{
    let rules: Vec<SelectionRule> = read_all(alloc, files, SELECTION)?;
    Ok(selection_from(alloc, &rules)?)
}

impl FromEntry for PackageRename {
    ghost use Rattle.desk_rules.specs.RuleFiles.{rename_entry};

    ghost read_entry = { rename_entry };

    fn from_entry(alloc: Global, key: &[u8], value: &[u8]) -> Result<PackageRename, EntryError> {
        let entry = read_rename(alloc, key, value)?;
        Ok(PackageRename::new(alloc, entry.source, entry.target, entry.reach)?)
    }
}

impl FromEntry for VersionRule {
    ghost use Rattle.desk_rules.specs.RuleFiles.{versions_entry};

    ghost read_entry = { versions_entry };

    fn from_entry(alloc: Global, key: &[u8], value: &[u8]) -> Result<VersionRule, EntryError> {
        let versions = read_versions(alloc, key, value)?;
        let package = Text::from_bytes(alloc, key)?;
        Ok(VersionRule { package, versions })
    }
}

impl FromEntry for BundleRule {
    ghost use Rattle.desk_rules.specs.RuleFiles.{update_entry};

    ghost read_entry = { update_entry };

    fn from_entry(alloc: Global, key: &[u8], value: &[u8]) -> Result<BundleRule, EntryError> {
        let update = read_update(alloc, key, value)?;
        let old_name = Text::from_bytes(alloc, key)?;
        Ok(BundleRule::new(old_name, update))
    }
}

impl FromEntry for DirectRule {
    ghost use Rattle.desk_rules.specs.RuleFiles.{direct_entry};

    ghost read_entry = { direct_entry };

    fn from_entry(alloc: Global, key: &[u8], value: &[u8]) -> Result<DirectRule, EntryError> {
        check_string(key, value)?;
        let source = Text::from_bytes(alloc, key)?;
        let target = Text::from_bytes(alloc, value)?;
        Ok(DirectRule::new(source, target))
    }
}

impl FromEntry for SelectionRule {
    ghost use Rattle.desk_rules.specs.RuleFiles.{selection_entry};

    ghost read_entry = { selection_entry };

    fn from_entry(alloc: Global, key: &[u8], value: &[u8]) -> Result<SelectionRule, EntryError> {
        let mark = read_mark(key, value)?;
        let pattern = Text::from_bytes(alloc, key)?;
        Ok(SelectionRule { pattern, mark })
    }
}

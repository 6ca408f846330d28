//! The rules of a run, read from the rule folder.

ghost use Rattle.std.specs.Prelude.{◌≡◌, ◌≢◌, ◌≤◌, ◌++◌, ◌<◌, ◌^◌, None, Ok, OnOk, IfOk, IfErr, IfSome, IsSome, IsTrue, ℕ, List, length};
ghost use Rattle.std.specs.Cmp.Lexicographic.{slice_cmp};
ghost use Rattle.std.specs.FinMap as fin;
ghost use Rattle.std.specs.List.{flat_map};
ghost use Rattle.std.specs.List.Sorted.{IsStrictlySortedBy};
ghost use Rattle.std.specs.Ordering.{nat_cmp};
ghost use Rattle.desk_base.specs.Paths.{full, is_root};
ghost use Rattle.desk_folders.specs.Contents.{file_at, files_below, paths_below};
ghost use Rattle.desk_ledger.specs.Digests.{HasTaken, digest};
ghost use Rattle.desk_rules.specs.RuleFiles.{rules_of_files};
ghost use Rattle.desk_intake.specs.Halts.{HaltsAtRules, HaltsBuilding, HaltsTaking, HaltsTakingOne};
ghost use Rattle.desk_intake.specs.Rulings.{digest_entry, ruled, ruled_with};
ghost use Rattle.desk_intake.specs.RuleFolders.{HasReadRules, HasTakenAll, Takes, files_in};
ghost use Rattle.desk_second.specs.Second.{AreRules};

use crate::MAX_RULE_FILES;
use crate::halts::{Halt, limit};
use crate::sources::read_below;
use desk_base::{MAX_RULE_FILE_SIZE, Text, TextList};
use desk_folders::Folders;
use desk_ledger::{Digest, Digester};
use desk_report::{LimitKind, Status};
use desk_rules::{BuildFault, RuleFiles, RuleSet};
use std::alloc::Global;

/// A rule set, and the digest of the rule files that it was built from.
#[derive(Drop)]
pub struct DigestedRules {
    pub rules: RuleSet,
    pub digest: Digest,
}

/// The files of a rule folder, as they were read.
#[derive(Drop)]
pub struct RuleFolder {
    /// Their names, which are their paths below the folder, in byte order.
    pub names: TextList,
    /// Their bytes by their names.
    pub files: RuleFiles,
}

/// Takes a rule file into a digest: the length of its name as eight bytes, its name, the length of its
/// content as four bytes, and its content.
fn digest_file(digester: &mut Digester, name: &Text, content: &[u8])
    requires { length content.now < 2 ^ 32 }
    ensures { (taken : List ℕ) → HasTaken digester.old taken → HasTaken digester.new (taken ++ digest_entry (record { path = name.now; bytes = content.now })) }
{
    digester.update(&(name.as_bytes().len() as u64).to_be_bytes());
    digester.update(name.as_bytes());
    digester.update(&(content.len() as u32).to_be_bytes());
    digester.update(content);
}

/// The digest of the files of a rule folder, one after another in the order of their names.
fn digest_of_files(folder: &RuleFolder) -> Digest
    ensures { result ≡ digest (flat_map digest_entry (files_in folder.now)) }
{
    let mut digester = Digester::new();
    for name in folder.names.as_slice() {
        let content = folder.files.content(name).unwrap_or(&[]);
        digest_file(&mut digester, name, content);
    }
    digester.finish()
}

/// The rules of rule files.
#[tactic(auto, using(crate::proofs::Ruling::are))]
fn build(alloc: Global, files: &RuleFiles) -> Result<RuleSet, Halt>
    ensures ok { IfOk result (λ rules. rules_of_files files.now ≡ Ok rules) }
    ensures err { IfErr result (HaltsBuilding (rules_of_files files.now)) }
    ensures are { IfOk result (λ rules. AreRules rules) }
{
    match RuleSet::build(alloc, files) {
        Ok(rules) => Ok(rules),
        Err(BuildFault::Rules(fault)) => Err(Halt::Answer(Status::BadRules(fault))),
        Err(BuildFault::Memory) => Err(Halt::Memory),
    }
}

/// Reads one rule file, and takes it in.
fn take_file<F: Folders>(
    alloc: Global,
    folders: &mut F,
    root: &Text,
    path: &Text,
    files: &mut RuleFiles,
) -> Result<(), Halt>
    requires there { IfSome (F.told folders.old) (λ m. IsSome (fin.get m (full root.now path.now))) }
    requires absent { fin.get files.old path.now ≡ None }
    ensures told { F.told folders.new ≡ F.told folders.old }
    ensures takes { OnOk result (IfSome (F.told folders.old) (λ m. Takes (file_at root.now m path.now) files.old files.new)) }
    ensures others { OnOk result ((name : List ℕ) → name ≢ path.now → fin.get files.new name ≡ fin.get files.old name) }
    ensures err { IfErr result (HaltsTakingOne root.now path.now (F.told folders.old) (F.faults folders.old) (F.faults folders.new)) }
    ensures counts { F.faults folders.old ≤ F.faults folders.new }
{
    let name = Text::from_bytes(alloc, path.as_bytes())?;
    let Some(content) = read_below(alloc, folders, root, path, MAX_RULE_FILE_SIZE)? else {
        return Err(limit(LimitKind::RuleSize, name));
    };
    files.add(name, content)?;
    Ok(())
}

/// Reads rule files in their order, or finds the first that is too large.
fn take_all<F: Folders>(
    alloc: Global,
    folders: &mut F,
    root: &Text,
    paths: &[Text],
) -> Result<RuleFiles, Halt>
    requires listed { IfSome (F.told folders.old) (λ m. paths.now ≡ paths_below root.now m) }
    requires rising { IsStrictlySortedBy (slice_cmp nat_cmp) paths.now }
    ensures told { F.told folders.new ≡ F.told folders.old }
    ensures taken { IfOk result (λ files. IfSome (F.told folders.old) (λ m. HasTakenAll root.now m files)) }
    ensures err { IfErr result (HaltsTaking root.now (F.told folders.old) (F.faults folders.old) (F.faults folders.new)) }
    ensures counts { F.faults folders.old ≤ F.faults folders.new }
{
    let mut files = RuleFiles::new(alloc);
    for path in paths {
        take_file(alloc, folders, root, path, &mut files)?;
    }
    Ok(files)
}

/// Reads the files of a rule folder: the answer is `Limit` where they are more than 1,000, or one has more than 1,048,576 bytes.
fn read_folder<F: Folders>(alloc: Global, folders: &mut F, root: &Text) -> Result<RuleFolder, Halt>
    requires { IsTrue (is_root root.now) }
    ensures told { F.told folders.new ≡ F.told folders.old }
    ensures read { IfOk result (λ folder. IfSome (F.told folders.old) (λ m. HasReadRules root.now m folder)) }
    ensures err { IfErr result (HaltsAtRules root.now (F.told folders.old) (F.faults folders.old) (F.faults folders.new)) }
    ensures counts { F.faults folders.old ≤ F.faults folders.new }
{
    let names = folders.list(root, MAX_RULE_FILES)?;
    if names.len() > MAX_RULE_FILES as usize {
        return Err(limit(LimitKind::RuleFiles, root.clone()?));
    }
    let files = take_all(alloc, folders, root, names.as_slice())?;
    Ok(RuleFolder { names, files })
}

/// Reads the rules below a root, with the digest of their files: the answer is `Limit` where the folder has more than 1,000 files, or
/// one of more than 1,048,576 bytes, and else `BadRules` where its files make no rule set. The other halts are a fault of the folders
/// and want of memory.
pub fn read_rules<F: Folders>(
    alloc: Global,
    folders: &mut F,
    root: &Text,
) -> Result<Box<DigestedRules>, Halt>
    requires { IsTrue (is_root root.now) }
    ensures told { F.told folders.new ≡ F.told folders.old }
    ensures ok { IfOk result (λ read. IfSome (F.told folders.old) (λ m. ruled root.now (files_below root.now m) ≡ Ok read.value)) }
    ensures err { IfErr result (HaltsAtRules root.now (F.told folders.old) (F.faults folders.old) (F.faults folders.new)) }
    ensures counts { F.faults folders.old ≤ F.faults folders.new }
    ensures are { IfOk result (λ ruled. AreRules ruled.value.rules) }
{
    let folder = read_folder(alloc, folders, root)?;
    let rules = build(alloc, &folder.files)?;
    let digest = digest_of_files(&folder);
    Ok(Box::new(alloc, DigestedRules { rules, digest })?)
}

/// The rules that `read_rules` reads, for whom the digest isn't needed: it isn't taken. The halts are the same.
pub fn read_rule_set<F: Folders>(
    alloc: Global,
    folders: &mut F,
    root: &Text,
) -> Result<Box<RuleSet>, Halt>
    requires { IsTrue (is_root root.now) }
    ensures told { F.told folders.new ≡ F.told folders.old }
    ensures ok { IfOk result (λ rules. IfSome (F.told folders.old) (λ m. ruled root.now (files_below root.now m) ≡ Ok (ruled_with rules.value (files_below root.now m)))) }
    ensures err { IfErr result (HaltsAtRules root.now (F.told folders.old) (F.faults folders.old) (F.faults folders.new)) }
    ensures counts { F.faults folders.old ≤ F.faults folders.new }
    ensures are { IfOk result (λ rules. AreRules rules.value) }
{
    let folder = read_folder(alloc, folders, root)?;
    let rules = build(alloc, &folder.files)?;
    Ok(Box::new(alloc, rules)?)
}

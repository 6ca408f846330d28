//! The hints behind a status: what stands against the run, and what to do.

ghost use Rattle.std.specs.Prelude.{◌≡◌};
ghost use Rattle.desk_hints.specs.Hints.{hint_text, hint_of, limit_hint, rule_hint, key_hint, chain_hint, other_hint, invert_hint};
ghost use Rattle.desk_hints.specs.declared.hints.Hint.TheVariants as case;

use desk_ledger::Header;
use desk_report::{LimitKind, Status};
use desk_rules::{ChainKind, InvertFault, PropFault, RuleFault};

/// The rule file whose keys are packages alone.
const RENAMES: &[u8] = b"renames.properties";

/// Why a run ended, as far as there is a hint for it.
#[derive(Clone, Copy, Debug, PartialEq, Eq)]
pub enum Hint {
    /// Status 2.
    Refusals,
    /// Status 3.
    Differs,
    /// Status 10.
    Memory,
    /// Status 11.
    Folders,
    /// Status 11 where a file stands in place of a folder that is listed.
    FileAsFolder,
    /// Status 11 where a folder that is listed isn't there.
    NoFolder,
    /// Status 12.
    Ledger,
    /// Status 13.
    Output,
    /// Status 20.
    Usage,
    /// Status 21.
    Nested,
    /// Status 22: the rule folder has no `renames.properties`, or it has no key.
    NoRenames,
    /// Status 22: a rule file isn't in UTF-8, from the byte on that is told.
    NotUtf8,
    /// Status 22: a rule file has a `\u` that isn't followed by four hexadecimal digits of a character, at
    /// the byte that is told.
    Escape,
    /// Status 22: a key of `renames.properties` is no package.
    BadPackage,
    /// Status 22: a key of another rule file hasn't the form that the file asks for.
    BadKey,
    /// Status 22: a value of a rule file hasn't the form that the file asks for.
    BadValue,
    /// Status 22: `text.properties` names a file that the rule folder lacks.
    MissingText,
    /// Status 22: a chain of kind 1.
    Chain1,
    /// Status 22: a chain of kind 2.
    Chain2,
    /// Status 22: a chain of kind 3.
    Chain3,
    /// Status 22: a chain of kind 4.
    Chain4,
    /// Status 22: a chain of kind 5.
    Chain5,
    /// Status 22: a chain of kind 6.
    Chain6,
    /// Status 22: a chain of kind 7.
    Chain7,
    /// Status 22: a chain of kind 8.
    Chain8,
    /// Status 22: a chain of kind 9.
    Chain9,
    /// Status 23: the source holds more than 200,000 files.
    Files,
    /// Status 23: a path of the source, or its target, has more than 1,024 bytes.
    PathLength,
    /// Status 23: a file of the source that is read whole has more than 67,108,864 bytes, or another more than 1,099,511,627,776.
    FileSize,
    /// Status 23: the rule folder holds more than 1,000 files.
    RuleFiles,
    /// Status 23: a rule file has more than 1,048,576 bytes.
    RuleSize,
    /// Status 23: two applications that are compared have more than 1,073,741,824 bytes together.
    Both,
    /// Status 24.
    Clash,
    /// Status 25.
    NameClash,
    /// Status 26.
    Stranded,
    /// Status 27: ledger belongs to another run.
    Other,
    /// Status 27: ledger belongs to a run with other rules.
    OtherRules,
    /// Status 27: ledger belongs to a run with another target.
    OtherTarget,
    /// Status 27: ledger belongs to a run with other target and rules.
    OtherTargetRules,
    /// Status 27: ledger belongs to a run with another source.
    OtherSource,
    /// Status 27: ledger belongs to a run with other source and rules.
    OtherSourceRules,
    /// Status 27: ledger belongs to a run with other source and target.
    OtherSourceTarget,
    /// Status 27: ledger belongs to a run with other source, target and rules.
    OtherSourceTargetRules,
    /// Status 28.
    Moved,
    /// Status 31: the rules have more than renames.
    NotRenames,
    /// Status 31: no rename changes its package.
    NothingToInvert,
    /// Status 31: two renames give one package, or a name in it.
    Overlap,
}

/// Every hint with its text, in the order of the statuses that it is for. A text is two lines: what stands against the run, and
/// what to do.
pub const HINTS: &[(Hint, &[u8])] = &[
    (
        Hint::Refusals,
        b"migrate: some files were refused, and nothing was written for them\n         the target isn't ready to be used until each line `refused` is dealt with: see the counts by reason\n",
    ),
    (
        Hint::Differs,
        b"migrate: the other application isn't what the rules make of this one: the line `differs` names the first path that differs, and how\n         let `migrate run` write that file, and compare both by `javap -v -p`: order, duplicates and unused entries of a constant pool don't count\n",
    ),
    (
        Hint::Memory,
        b"migrate: memory ran out, so the run stopped\n         give it more memory and run again: what was written and noted in the ledger is kept\n",
    ),
    (
        Hint::Folders,
        b"migrate: a file or folder could not be used as it should, so the run stopped\n         put right what is said above and run again: what was done is kept\n",
    ),
    (
        Hint::FileAsFolder,
        b"migrate: it is a file, and a folder is wanted, so nothing was begun; an archive is unpacked first: tools/unpack.py ARCHIVE FOLDER\n         run again with that folder in its place\n",
    ),
    (
        Hint::NoFolder,
        b"migrate: there is no such folder, so nothing was begun\n         mend its name, or make it: an archive is unpacked by tools/unpack.py ARCHIVE FOLDER\n",
    ),
    (
        Hint::Ledger,
        b"migrate: the ledger could not be used, so the run stopped\n         put right what is said above and run again, or name another ledger, which starts anew\n",
    ),
    (
        Hint::Output,
        b"migrate: standard output took no more, so the report isn't whole; all files are done\n         run again with an output that takes it: the files are kept, and the report is printed\n",
    ),
    (
        Hint::Usage,
        b"migrate: these words ask for nothing that can be done\n         give the words as in the line of usage; docs/REFERENCE.md says each\n",
    ),
    (
        Hint::Nested,
        b"migrate: no root may lie where another would be changed: source and target, rules and target, the ledger in any\n         name a target and a ledger that lie in none of the other folders\n",
    ),
    (
        Hint::NoRenames,
        b"migrate: the rule folder has no `renames.properties`, or it has no key\n         write into it a line for each package, as `javax.servlet.*=jakarta.servlet`\n",
    ),
    (
        Hint::NotUtf8,
        b"migrate: a rule file isn't in UTF-8, from the byte on that is told\n         store the file in UTF-8 without a byte order mark\n",
    ),
    (
        Hint::Escape,
        b"migrate: a rule file has a `\\u` that isn't followed by four hexadecimal digits of a character, at the byte that is told\n         write the character itself, or two backslashes where one is meant\n",
    ),
    (
        Hint::BadPackage,
        b"migrate: a key of `renames.properties` isn't a package\n         mend that line: a package is identifiers joined by `.`, with `.*` at its end for all below it\n",
    ),
    (
        Hint::BadKey,
        b"migrate: a key of a rule file hasn't the form that the file asks for\n         mend that line: docs/REFERENCE.md lists for each file what a key may be\n",
    ),
    (
        Hint::BadValue,
        b"migrate: a value of a rule file hasn't the form that the file asks for\n         mend that line: docs/REFERENCE.md lists for each file what a value may be\n",
    ),
    (
        Hint::MissingText,
        b"migrate: `text.properties` names a file that the rule folder lacks\n         add the file, or mend its name\n",
    ),
    (
        Hint::Chain1,
        b"migrate: rules must not change what another rule gives: the first rename gives a package that the second renames\n         let the first give the last name at once, or remove one of the two\n",
    ),
    (
        Hint::Chain2,
        b"migrate: rules must not change what another rule gives: a rename gives a name that a direct rule changes\n         remove one of the two rules, or let both give the same name\n",
    ),
    (
        Hint::Chain3,
        b"migrate: rules must not change what another rule gives: a direct rule gives a string that the second direct rule changes\n         let the first give the last string at once, or remove one of the two\n",
    ),
    (
        Hint::Chain4,
        b"migrate: rules must not change what another rule gives: a direct rule gives a name that a rename changes\n         let the direct rule give the renamed name, or remove one of the two\n",
    ),
    (
        Hint::Chain5,
        b"migrate: rules must not change what another rule gives: a bundle update gives a name that the second update changes\n         let the first give the last name at once, or remove one of the two\n",
    ),
    (
        Hint::Chain6,
        b"migrate: the package that the first rename gives is itself, read as a class name, renamed by the second\n         give the first another package, or remove one of the two\n",
    ),
    (
        Hint::Chain7,
        b"migrate: the first rename gives, read as a class name, the very package that the second renames\n         give the first another package, or remove one of the two\n",
    ),
    (
        Hint::Chain8,
        b"migrate: the package that a rename gives is a string that a direct rule changes\n         remove the direct rule, or give the rename another package\n",
    ),
    (
        Hint::Chain9,
        b"migrate: a direct rule gives the package of a rename, which would change it once more\n         let the direct rule give the new package, or remove it\n",
    ),
    (
        Hint::Files,
        b"migrate: the source holds more than 200,000 files\n         migrate it in parts, each with a target and a ledger of its own\n",
    ),
    (
        Hint::PathLength,
        b"migrate: a path of the source, or its target, has more than 1,024 bytes\n         shorten the names of its folders, or leave the file out of the source\n",
    ),
    (
        Hint::FileSize,
        b"migrate: a file of the source is too large: one that is migrated may have 67,108,864 bytes, another 1,099,511,627,776\n         leave it out of the source, and copy it by hand\n",
    ),
    (
        Hint::RuleFiles,
        b"migrate: the rule folder holds more than 1,000 files\n         keep nothing but rule files there\n",
    ),
    (
        Hint::RuleSize,
        b"migrate: a rule file has more than 1,048,576 bytes\n         keep nothing but rule files there, or split a long one\n",
    ),
    (
        Hint::Both,
        b"migrate: the files of the two applications have more than 1,073,741,824 bytes together\n         compare them part by part, as folder by folder\n",
    ),
    (
        Hint::Clash,
        b"migrate: two files of the source would get one target, or the target of one would be a folder of the other's\n         rename or remove one of the two, or leave one out by `selection.properties`\n",
    ),
    (
        Hint::NameClash,
        b"migrate: a class of the source and another name that it uses would get one name\n         change the rules so that the two stay apart, or leave the class out by `selection.properties`\n",
    ),
    (
        Hint::Stranded,
        b"migrate: a class that is left out by `selection.properties` names a class of the source that is renamed, and would not find it\n         select that class too, or leave out the class that it names\n",
    ),
    (
        Hint::Other,
        b"migrate: the ledger belongs to another run\n         name what it was made with, or another ledger: another one starts anew, and writes every file\n",
    ),
    (
        Hint::OtherRules,
        b"migrate: the ledger belongs to a run with other rules\n         name what it was made with, or another ledger: another one starts anew, and writes every file\n",
    ),
    (
        Hint::OtherTarget,
        b"migrate: the ledger belongs to a run with another target\n         name what it was made with, or another ledger: another one starts anew, and writes every file\n",
    ),
    (
        Hint::OtherTargetRules,
        b"migrate: the ledger belongs to a run with other target and rules\n         name what it was made with, or another ledger: another one starts anew, and writes every file\n",
    ),
    (
        Hint::OtherSource,
        b"migrate: the ledger belongs to a run with another source\n         name what it was made with, or another ledger: another one starts anew, and writes every file\n",
    ),
    (
        Hint::OtherSourceRules,
        b"migrate: the ledger belongs to a run with other source and rules\n         name what it was made with, or another ledger: another one starts anew, and writes every file\n",
    ),
    (
        Hint::OtherSourceTarget,
        b"migrate: the ledger belongs to a run with other source and target\n         name what it was made with, or another ledger: another one starts anew, and writes every file\n",
    ),
    (
        Hint::OtherSourceTargetRules,
        b"migrate: the ledger belongs to a run with other source, target and rules\n         name what it was made with, or another ledger: another one starts anew, and writes every file\n",
    ),
    (
        Hint::Moved,
        b"migrate: a file of the source changed while the run read it\n         run again once nothing writes to the source\n",
    ),
    (
        Hint::NotRenames,
        b"migrate: the rules have more than renames, and only renames can be taken back\n         take that file out, or invert a folder that holds `renames.properties` alone\n",
    ),
    (
        Hint::NothingToInvert,
        b"migrate: no rename of the rules changes its package, so there is nothing to take back\n         name rules that rename a package to another one\n",
    ),
    (
        Hint::Overlap,
        b"migrate: two renames give one package, or a name in it, so it can not be told which of them to take back\n         give them targets of which neither is, or holds, what the other gives\n",
    ),
];

impl Hint {
    /// The text of the table.
    pub fn text(self) -> &'static [u8]
        ensures { result.now ≡ hint_text self }
    {
        HINTS[self as usize].1
    }
}

/// The hint of a chain of rules.
fn chain_hint(kind: ChainKind) -> Hint
    ensures { result ≡ chain_hint kind }
{
    match kind {
        ChainKind::RenameThenRename => Hint::Chain1,
        ChainKind::RenameThenDirect => Hint::Chain2,
        ChainKind::DirectThenDirect => Hint::Chain3,
        ChainKind::DirectThenRename => Hint::Chain4,
        ChainKind::BundleThenBundle => Hint::Chain5,
        ChainKind::PackageThenName => Hint::Chain6,
        ChainKind::NameThenPackage => Hint::Chain7,
        ChainKind::PackageThenDirect => Hint::Chain8,
        ChainKind::DirectThenPackage => Hint::Chain9,
    }
}

/// The hint of a key that hasn't the form that its rule file asks for, by the file's name.
fn key_hint(file: &[u8]) -> Hint
    ensures { result ≡ key_hint file.now }
{
    if file == RENAMES {
        Hint::BadPackage
    } else {
        Hint::BadKey
    }
}

/// The hint of a fault of rule files.
fn rule_hint(fault: &RuleFault) -> Hint
    ensures { result ≡ rule_hint fault.now }
{
    match fault {
        RuleFault::NoRenames => Hint::NoRenames,
        RuleFault::Properties { fault, .. } => match fault {
            PropFault::NotUtf8 { .. } => Hint::NotUtf8,
            PropFault::Escape { .. } => Hint::Escape,
        },
        RuleFault::BadKey { file, .. } => key_hint(file.as_bytes()),
        RuleFault::BadValue { .. } => Hint::BadValue,
        RuleFault::MissingText { .. } => Hint::MissingText,
        RuleFault::Chain { kind, .. } => chain_hint(*kind),
    }
}

/// The hint of a limit.
fn limit_hint(kind: LimitKind) -> Hint
    ensures { result ≡ limit_hint kind }
{
    match kind {
        LimitKind::Files => Hint::Files,
        LimitKind::PathLength => Hint::PathLength,
        LimitKind::FileSize => Hint::FileSize,
        LimitKind::RuleFiles => Hint::RuleFiles,
        LimitKind::RuleSize => Hint::RuleSize,
        LimitKind::Both => Hint::Both,
    }
}

/// The hint of a ledger of another run, by which of source, target and rules differ.
fn other_hint(kept: &Header, wanted: &Header) -> Hint
    ensures { result ≡ other_hint kept.now wanted.now }
{
    let differ = (
        kept.from != wanted.from,
        kept.to != wanted.to,
        kept.rules != wanted.rules,
    );
    match differ {
        (false, false, false) => Hint::Other,
        (false, false, true) => Hint::OtherRules,
        (false, true, false) => Hint::OtherTarget,
        (false, true, true) => Hint::OtherTargetRules,
        (true, false, false) => Hint::OtherSource,
        (true, false, true) => Hint::OtherSourceRules,
        (true, true, false) => Hint::OtherSourceTarget,
        (true, true, true) => Hint::OtherSourceTargetRules,
    }
}

/// The hint of rules that have no inverse.
fn invert_hint(fault: &InvertFault) -> Hint
    ensures { result ≡ invert_hint fault.now }
{
    match fault {
        InvertFault::NotRenames { .. } => Hint::NotRenames,
        InvertFault::Nothing => Hint::NothingToInvert,
        InvertFault::Overlap { .. } => Hint::Overlap,
    }
}

/// The hint of a status; none of `Done`.
pub fn hint_of(status: &Status) -> Option<Hint>
    ensures { result ≡ hint_of status.now }
{
    match status {
        Status::Done => None,
        Status::Refusals => Some(Hint::Refusals),
        Status::Differs { .. } => Some(Hint::Differs),
        Status::Memory => Some(Hint::Memory),
        Status::FolderFault { .. } => Some(Hint::Folders),
        Status::LedgerFault { .. } => Some(Hint::Ledger),
        Status::OutputFault => Some(Hint::Output),
        Status::Usage => Some(Hint::Usage),
        Status::NestedRoots { .. } => Some(Hint::Nested),
        Status::BadRules(fault) => Some(rule_hint(fault)),
        Status::Limit { kind, .. } => Some(limit_hint(*kind)),
        Status::PathClash { .. } => Some(Hint::Clash),
        Status::NameClash { .. } => Some(Hint::NameClash),
        Status::Stranded { .. } => Some(Hint::Stranded),
        Status::OtherRun { kept, wanted } => Some(other_hint(kept, wanted)),
        Status::Moved { .. } => Some(Hint::Moved),
        Status::NotInvertible(fault) => Some(invert_hint(fault)),
    }
}

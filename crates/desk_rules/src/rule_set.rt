//! A rule set, which is well-formed and settled by its type.

ghost use Rattle.std.specs.Prelude.{◌≡◌, ◌==◌, None, Some, Ok, length, slice_get, IsTrue, MatchOption, IfOk, IfErr, if◌then◌else◌};
ghost use Rattle.std.specs.Option.{option_copied};
ghost use Rattle.std.specs.FinMap as finite;
ghost use Rattle.desk_base.specs.Names.{segments, dot};
ghost use Rattle.desk_patterns.specs.PatternTexts.{texts_of, texts_for};
ghost use Rattle.desk_patterns.specs.SeenTexts.{both_seen};
ghost use Rattle.desk_patterns.specs.Selections.{selects};
ghost use Rattle.desk_packages.specs.Keys.{byte_of, IsTable, RiseBy};
ghost use Rattle.desk_packages.specs.Renames.{key_of, has_source};
ghost use Rattle.desk_rules.specs.Builds.{IsFaultOf};
ghost use Rattle.desk_rules.specs.RuleFiles.{rules_of_files, settled};
ghost use Rattle.desk_rules.specs.Others.{first_other};
ghost use Rattle.desk_rules.specs.Sides.{exports};
ghost use Rattle.desk_rules.specs.Firsts.{begins_as};
ghost use Rattle.desk_rules.specs.RuleSets.{changing_pick, IsFrontOf, IsRuleSet, AreWritten, HaveUtf8Targets, HaveUtf8Texts, HaveVersions, HaveUpdates, PackagesStay, ClassesStay, ClassesKeepForm, DottedStay, DottedKeepForm, StringsStay, BundlesStay, version_of, changing_update, update_of, rules_of};

use crate::firsts::{FirstBytes, FirstSegments};
use crate::keyed::VersionRule;
use crate::reading::{SELECTION, read_all, read_renames, read_selection};
use crate::texts::{TEXT, read_texts};
use crate::{BuildFault, RuleFault, RuleFiles, Side};
use desk_base::{Text, TextList};
use desk_chains::first_chain;
use desk_entries::{BundleRule, DirectRule};
use desk_packages::{PackageRename, Separator, is_source, pick, rule_of};
use desk_patterns::{PathTexts, PatternTexts, Selection, TextRules};
use std::alloc::Global;
use std::marker::Model;

/// The file of the versions.
const VERSIONS: &[u8] = b"versions.properties";

/// The file of the bundle updates.
const BUNDLES: &[u8] = b"bundles.properties";

/// The file of the direct strings.
const DIRECT: &[u8] = b"direct.properties";

/// What is exchanged of a package: its first `taken` bytes, for these segments.
#[derive(Clone, Copy, Debug)]
pub struct PackageFront<'r> {
    /// How many bytes of the package are exchanged, from its first on.
    pub taken: usize,
    /// The segments that take their place.
    pub segments: &'r TextList,
}

/// What a bundle is updated to, by a rule of `bundles.properties`.
#[derive(Clone, Copy, Debug)]
pub struct BundleUpdate<'r> {
    /// The new symbolic name.
    pub name: &'r [u8],
    /// The new version; none where the bundle keeps its own.
    pub version: Option<&'r [u8]>,
}

/// What a rule updates its bundle to.
fn updated_by(rule: &BundleRule) -> BundleUpdate<'_>
    ensures { update_of result.name.now (option_copied result.version) ≡ rule.now.1 }
{
    let update = rule.update();
    BundleUpdate {
        name: update.name.as_bytes(),
        version: match &update.version {
            None => None,
            Some(version) => Some(version.as_bytes()),
        },
    }
}

/// The rules of rule files as they were read. An image under them may still be changed again.
#[derive(Drop)]
struct FileRules {
    /// The rules of `renames.properties`, exceptions among them, in byte order of their keys.
    renames: Vec<PackageRename>,
    /// The rules of `versions.properties`, in byte order of their keys.
    versions: Vec<VersionRule>,
    /// The rules of `bundles.properties`, in byte order of their keys.
    bundles: Vec<BundleRule>,
    /// The rules of `direct.properties`, in byte order of their keys.
    direct: Vec<DirectRule>,
    /// Which paths `selection.properties` selects.
    selection: Selection,
    /// The patterns of `text.properties` in the order of that file, each with the rules of the file that it names.
    texts: PatternTexts,
}

/// The rules of a rule folder. No image under them is changed again.
#[derive(Drop)]
pub struct RuleSet {
    renames: Vec<PackageRename>,
    /// The first segments of the renames: a package that begins with none of them has no rename.
    firsts: FirstSegments,
    versions: Vec<VersionRule>,
    bundles: Vec<BundleRule>,
    direct: Vec<DirectRule>,
    /// Which bytes the direct texts begin with.
    begun: FirstBytes,
    selection: Selection,
    texts: PatternTexts,
}

impl Model for RuleSet {
    ghost use Rattle.desk_rules.specs.Rules.{Rules, rules_code};
    ghost use Rattle.desk_rules.specs.RuleSets.{rules_of, IsKept};

    ghost Value = { Rules };

    ghost coded = { rules_code };

    ghost view = { λ r. rules_of r.renames.items r.versions.items r.bundles.items r.direct.items r.selection r.texts };

    ghost invariant = { λ r. IsKept r.renames.items r.versions.items r.bundles.items r.direct.items r.firsts r.begun };
}

impl RuleSet {
    /// The rule set of rules in byte order of their keys. The fault is their first chain, or want of memory.
    fn settled(alloc: Global, rules: FileRules) -> Result<RuleSet, BuildFault>
        requires renames { IsTable rules.renames.items }
        requires versions { RiseBy (λ v. v.0) rules.versions.items }
        requires bundles { RiseBy (λ b. b.0) rules.bundles.items }
        requires direct { RiseBy (λ d. d.0) rules.direct.items }
        requires utf8 { HaveUtf8Targets rules.renames.items }
        requires packages { AreWritten rules.renames.items }
        requires direct_utf8 { HaveUtf8Texts (finite.from_entries rules.direct.items) }
        requires versioned { HaveVersions (finite.from_entries rules.versions.items) }
        requires updated { HaveUpdates (finite.from_entries rules.bundles.items) }
        ensures built { IfOk result (λ set. settled (rules_of rules.renames.items rules.versions.items rules.bundles.items rules.direct.items rules.selection rules.texts) ≡ Ok set) }
        ensures refused { IfErr result (IsFaultOf (settled (rules_of rules.renames.items rules.versions.items rules.bundles.items rules.direct.items rules.selection rules.texts))) }
        ensures settled { IfOk result IsRuleSet }
    {
        if let Some(chain) = first_chain(alloc, &rules.renames, &rules.direct, &rules.bundles) {
            return Err(BuildFault::Rules(RuleFault::Chain {
                kind: chain.kind,
                first: Text::from_bytes(alloc, chain.first)?,
                second: Text::from_bytes(alloc, chain.second)?,
            }));
        }
        let firsts = FirstSegments::of(alloc, &rules.renames)?;
        let begun = FirstBytes::of(&rules.direct);
        Ok(RuleSet {
            renames: rules.renames,
            firsts,
            versions: rules.versions,
            bundles: rules.bundles,
            direct: rules.direct,
            begun,
            selection: rules.selection,
            texts: rules.texts,
        })
    }

    /// The rule set of rule files. The files are looked at in the order `renames.properties`, `versions.properties`,
    /// `bundles.properties`, `direct.properties`, `selection.properties`, `text.properties`, and then the text rule files
    /// that it names, in byte order of their names; a missing file is read as an empty one. In each file first comes the
    /// fault of its properties, and for the renames `NoRenames` where there is no key; then each key is looked at in byte
    /// order, `BadKey` before `MissingText`, and this before `BadValue`. `Chain` comes last. The only other error is want
    /// of memory.
    pub fn build(alloc: Global, files: &RuleFiles) -> Result<RuleSet, BuildFault>
        ensures built { IfOk result (λ rules. rules_of_files files.now ≡ Ok rules) }
        ensures refused { IfErr result (IsFaultOf (rules_of_files files.now)) }
        ensures settled { IfOk result IsRuleSet }
    {
        let renames = read_renames(alloc, files)?;
        let versions = read_all(alloc, files, VERSIONS)?;
        let bundles = read_all(alloc, files, BUNDLES)?;
        let direct = read_all(alloc, files, DIRECT)?;
        let selection = read_selection(alloc, files)?;
        let texts = read_texts(alloc, files)?;
        let rules = FileRules {
            renames,
            versions,
            bundles,
            direct,
            selection,
            texts,
        };
        RuleSet::settled(alloc, rules)
    }

    /// Recalls what every rule set promises by its type, for a proof: the rules are well-formed and settled, their new packages and
    /// direct texts are modified UTF-8 (JVMS 4.4.7), their versions are versions or ranges of versions, and the new names of bundles
    /// symbolic names (OSGi Core 3.2.4, 3.2.5). It does nothing.
    pub fn recall_settled(&self)
        ensures settled { IsRuleSet self.now }
    {
        let _ = &self.renames;
    }

    /// How many renames there are, exceptions among them. It takes no memory.
    pub fn rename_count(&self) -> usize
        ensures { result ≡ length self.now.renames }
    {
        self.renames.len()
    }

    /// The rename at a place, counted from 0, in byte order of their keys; none exactly where the place isn't below their
    /// count. It takes no memory.
    pub fn rename(&self, place: usize) -> Option<&PackageRename>
        ensures { option_copied result ≡ slice_get self.now.renames place }
    {
        self.renames.get(place)
    }

    /// The renames, in byte order of their keys and each key once. It takes no memory.
    pub fn renames(&self) -> &[PackageRename]
        ensures all { result.now ≡ self.now.renames }
        ensures table { IsTable result.now }
    {
        &self.renames
    }

    /// The name of the first of `versions.properties`, `bundles.properties`, `direct.properties`, `selection.properties` and
    /// `text.properties` that has a key; none exactly where none of them has one: the rules are renames alone. It takes no
    /// memory.
    pub fn first_other(&self) -> Option<&'static [u8]>
        ensures { option_copied result ≡ first_other self.now }
    {
        if !self.versions.is_empty() {
            Some(VERSIONS)
        } else if !self.bundles.is_empty() {
            Some(BUNDLES)
        } else if !self.direct.is_empty() {
            Some(DIRECT)
        } else if !self.selection.is_empty() {
            Some(SELECTION)
        } else if !self.texts.is_empty() {
            Some(TEXT)
        } else {
            None
        }
    }

    /// What is exchanged of a package that is written with a separator: something exactly where a
    /// changing rule is picked for it. It takes no memory. Every rule set is settled: under
    /// it the image of a package, of a class name or of a dotted name is its own image, and the image
    /// of a name is a name of its kind with the same last part.
    pub fn package(&self, path: &[u8], separator: Separator) -> Option<PackageFront<'_>>
        ensures answer { MatchOption result
            (changing_pick self.now.renames (segments (byte_of separator) path.now) ≡ None)
            (λ front. IsFrontOf self.now.renames (byte_of separator) path.now front.taken front.segments.now) }
        ensures settled { IsRuleSet self.now }
        ensures packages_stay { PackagesStay self.now.renames }
        ensures classes_stay { ClassesStay self.now.renames }
        ensures classes_keep_form { ClassesKeepForm self.now.renames }
        ensures dotted_stay { DottedStay self.now.renames }
        ensures dotted_keep_form { DottedKeepForm self.now.renames }
    {
        if !self.firsts.begins(path, separator) {
            return None;
        }
        match pick(&self.renames, path, separator) {
            Some(rename) if rename.changes() => Some(PackageFront {
                taken: rename.source_text(separator).len(),
                segments: rename.target(),
            }),
            _ => None,
        }
    }

    /// Whether a package that is written with a separator begins with the first segment of a rename, of an exception too. Where
    /// it doesn't, no rename is for it. It takes no memory.
    pub fn begins(&self, path: &[u8], separator: Separator) -> bool
        ensures { result ≡ begins_as self.now.renames (segments (byte_of separator) path.now) }
    {
        self.firsts.begins(path, separator)
    }

    /// Whether a text, read as a package that is written with dots, is the source of a rename, of an exception too. It takes
    /// no memory.
    pub fn is_source(&self, text: &[u8]) -> bool
        ensures { result ≡ has_source self.now.renames (segments dot text.now) }
    {
        self.firsts.begins(text, Separator::Dot) && is_source(&self.renames, text, Separator::Dot)
    }

    /// The new text of an old one: something exactly where the text is a direct source, also where the two are
    /// equal. It takes no memory. Under a rule set the image of a string is its own image.
    pub fn direct(&self, text: &[u8]) -> Option<&[u8]>
        ensures answer { option_copied result ≡ finite.get self.now.direct text.now }
        ensures settled { IsRuleSet self.now }
        ensures strings_stay { StringsStay self.now }
    {
        if !self.begun.may_begin(text) {
            return None;
        }
        match rule_of(&self.direct, text) {
            None => None,
            Some(rule) => Some(rule.target()),
        }
    }

    /// The version of a new package that is written with dots, where it is exported or where it is imported; none
    /// exactly where the package has no versions. It takes no memory.
    pub fn version(&self, package: &[u8], side: Side) -> Option<&[u8]>
        ensures { option_copied result ≡ version_of self.now.versions «package».now (exports side) }
    {
        match rule_of(&self.versions, package) {
            None => None,
            Some(rule) => Some(rule.version(side)),
        }
    }

    /// What a bundle of this symbolic name is updated to: something exactly where its update changes the name. It takes
    /// no memory. Under a rule set no new name is updated again.
    pub fn bundle(&self, name: &[u8]) -> Option<BundleUpdate<'_>>
        ensures answer { MatchOption result
            (changing_update self.now.bundles name.now ≡ None)
            (λ update. changing_update self.now.bundles name.now ≡ Some (update_of update.name.now (option_copied update.version))) }
        ensures bundles_stay { BundlesStay self.now.bundles }
    {
        match rule_of(&self.bundles, name) {
            Some(rule) if rule.changes() => Some(updated_by(rule)),
            _ => None,
        }
    }

    /// The text rules of a path: those of the first pattern that fits it, in the order in which the patterns first stand in
    /// their file; none exactly where none fits. It takes no memory.
    pub fn texts(&self, path: &[u8]) -> Option<&TextRules>
        ensures { option_copied result ≡ texts_of self.now.texts path.now }
    {
        self.texts.find(path)
    }

    /// The text rules of a file, by its path and its target: those of the first pattern that fits each, and none where only
    /// the other has one; nothing exactly where no pattern fits either. It takes no memory.
    pub fn texts_for(&self, path: &[u8], target: &[u8]) -> Option<PathTexts<'_>>
        ensures { both_seen result ≡ texts_for self.now.texts path.now target.now }
    {
        self.texts.find_both(path, target)
    }

    /// Whether a path is selected: where no pattern includes or one that includes fits it, and none that excludes fits it.
    /// It takes no memory.
    pub fn selected(&self, path: &[u8]) -> bool
        ensures { result ≡ selects self.now.selection path.now }
    {
        self.selection.selects(path)
    }
}

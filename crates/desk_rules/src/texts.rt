//! Text rules of paths: the patterns of `text.properties`, and the files of rules that they name.

ghost use Rattle.std.specs.Prelude.{◌≡◌, ◌≢◌, [], Ok, IfOk, IfErr, OnOk, map};
ghost use Rattle.desk_packages.specs.Keys.{RiseBy};
ghost use Rattle.desk_rules.specs.Builds.{IsFaultOf};
ghost use Rattle.desk_rules.specs.TextFiles.{named_by, named_all, rule_texts, checked_texts, pattern_text, pattern_texts, texts_in, IsNamed, AfterCheck};
ghost use Rattle.desk_patterns.specs.SeenTexts.{texts_seen, ArePlaces};
ghost use Rattle.desk_rules.specs.LoadedTexts.{IsLoaded, IsPlaceOf, IsPatternAt};

use crate::reading::{FromEntry, entries_in, fault_of, read_all, sorted};
use crate::{BuildFault, RuleFault, RuleFiles};
use desk_base::{Memory, Text};
use desk_entries::{EntryError, check_text_rule, read_text_name};
use desk_packages::Keyed;
use desk_patterns::{PatternPlace, PatternTexts, TextRules};
use indexmap::IndexMap;
use std::alloc::Global;
use std::marker::Model;

/// The file of the patterns.
pub(crate) const TEXT: &[u8] = b"text.properties";

/// A text that isn't empty, and what it is exchanged for.
#[derive(Debug, Drop)]
struct TextRule {
    source: Text,
    target: Text,
}

impl Model for TextRule {
    ghost use Rattle.std.specs.Prelude.{◌≢◌, []};
    ghost use Rattle.std.specs.Coded.{coded×};
    ghost use Rattle.desk_entries.specs.Exchanges.{Exchange};
    ghost use Rattle.desk_rules.specs.Rules.{text_code};

    ghost Value = { Exchange };

    ghost coded = { coded× text_code text_code };

    ghost view = { λ r. (r.source, r.target) };

    ghost invariant = { λ r. r.source ≢ [] };
}

impl TextRule {
    /// The text that is exchanged.
    fn source(&self) -> &[u8]
        ensures value { result.now ≡ self.now.0 }
        ensures filled { self.now.0 ≢ [] }
    {
        self.source.as_bytes()
    }

    /// What it is exchanged for.
    fn target(&self) -> &[u8]
        ensures { result.now ≡ self.now.1 }
    {
        self.target.as_bytes()
    }
}

impl Keyed for TextRule {
    ghost key_of = { λ r. r.0 };

    fn key(&self) -> &[u8] {
        self.source.as_bytes()
    }
}

impl FromEntry for TextRule {
    ghost use Rattle.desk_rules.specs.TextFiles.{text_rule_entry};

    ghost read_entry = { text_rule_entry };

    fn from_entry(alloc: Global, key: &[u8], value: &[u8]) -> Result<TextRule, EntryError> {
        check_text_rule(key)?;
        let source = Text::from_bytes(alloc, key)?;
        let target = Text::from_bytes(alloc, value)?;
        Ok(TextRule { source, target })
    }
}

/// Files of text rules that were read, each once.
#[derive(Drop)]
struct LoadedTexts {
    /// The place of each file among the rules, under its name.
    places: IndexMap<Text, usize>,
    rules: Vec<TextRules>,
}

/// The file that a pattern names, which must be there.
fn named(alloc: Global, files: &RuleFiles, key: &[u8], value: &[u8]) -> Result<Text, BuildFault>
    ensures read { IfOk result (λ name. named_by files.now key.now value.now ≡ Ok name) }
    ensures refused { IfErr result (IsFaultOf (named_by files.now key.now value.now)) }
{
    match read_text_name(key, value) {
        Err(fault) => {
            let fault = fault_of(alloc, TEXT, key, fault)?;
            Err(BuildFault::Rules(fault))
        }
        Ok(name) => {
            let name = Text::from_bytes(alloc, name)?;
            match files.content(&name) {
                Some(_) => Ok(name),
                None => Err(BuildFault::Rules(RuleFault::MissingText {
                    key: Text::from_bytes(alloc, key)?,
                    name,
                })),
            }
        }
    }
}

/// The files that patterns name, as the keys of a map, or the first fault.
fn names_of(
    alloc: Global,
    files: &RuleFiles,
    entries: &IndexMap<Text, Text>,
) -> Result<IndexMap<Text, Text>, BuildFault>
    ensures read { IfOk result (λ names. IsNamed files.now entries.now.entries names.entries) }
    ensures refused { IfErr result (IsFaultOf (named_all files.now entries.now.entries)) }
{
    let mut names = IndexMap::new(alloc);
    for i in 0..entries.len() {
        if let Some((key, value)) = entries.get_index(i) {
            let name = named(alloc, files, key.as_bytes(), value.as_bytes())?;
            names.insert(name, Text::empty(alloc))?;
        }
    }
    Ok(names)
}

/// How many bytes the sources and targets of rules have together; 2^64 - 1 where they are more.
fn room_for(rules: &[TextRule]) -> usize {
    let mut bytes = 0usize;
    for rule in rules {
        bytes = bytes
            .saturating_add(rule.source().len())
            .saturating_add(rule.target().len());
    }
    bytes
}

/// Text rules of a file, as they are searched.
fn rules_from(alloc: Global, rules: &[TextRule]) -> Result<TextRules, Memory>
    requires { RiseBy (λ rule. rule.0) rules.now }
    ensures { IfOk result (λ found. found ≡ rules.now) }
{
    let mut found = TextRules::with_room(alloc, rules.len(), room_for(rules))?;
    for rule in rules {
        let source = Text::from_bytes(alloc, rule.source())?;
        let target = Text::from_bytes(alloc, rule.target())?;
        found.push(source, target)?;
    }
    Ok(found)
}

/// The text rules of a file, as they are searched.
fn read_rules(alloc: Global, files: &RuleFiles, name: &Text) -> Result<TextRules, BuildFault>
    ensures read { IfOk result (λ rules. rule_texts files.now name.now ≡ Ok rules) }
    ensures refused { IfErr result (IsFaultOf (rule_texts files.now name.now)) }
{
    let rules: Vec<TextRule> = read_all(alloc, files, name.as_bytes())?;
    Ok(rules_from(alloc, &rules)?)
}

impl LoadedTexts {
    /// Text rules to begin with: no file is read yet.
    fn none(alloc: Global) -> LoadedTexts
        ensures places { result.places.entries ≡ [] }
        ensures rules { result.rules.items ≡ [] }
    {
        LoadedTexts {
            places: IndexMap::new(alloc),
            rules: Vec::new(alloc),
        }
    }

    /// The place of a file's rules, which are read where they weren't before.
    fn place(&mut self, alloc: Global, files: &RuleFiles, name: Text) -> Result<usize, BuildFault>
        requires { IsLoaded files.now self.old.places.entries self.old.rules.items }
        ensures read { IfOk result (IsPlaceOf files.now name self.old.rules.items self.new.places.entries self.new.rules.items) }
        ensures refused { IfErr result (IsFaultOf (rule_texts files.now name)) }
    {
        if let Some(place) = self.places.get(&name) {
            return Ok(*place);
        }
        let rules = read_rules(alloc, files, &name)?;
        let place = self.rules.len();
        self.rules.push(rules)?;
        self.places.insert(name, place)?;
        Ok(place)
    }
}

/// Reads the files of rules of these names, up to their first fault.
fn load(
    alloc: Global,
    files: &RuleFiles,
    names: &IndexMap<Text, Text>,
    loaded: &mut LoadedTexts,
) -> Result<(), BuildFault>
    requires { IsLoaded files.now loaded.old.places.entries loaded.old.rules.items }
    ensures read { OnOk result (checked_texts files.now (map (λ e. e.0) names.now.entries) ≡ Ok tt) }
    ensures loaded { OnOk result (IsLoaded files.now loaded.new.places.entries loaded.new.rules.items) }
    ensures refused { IfErr result (IsFaultOf (checked_texts files.now (map (λ e. e.0) names.now.entries))) }
{
    for i in 0..names.len() {
        if let Some((name, _)) = names.get_index(i) {
            let name = Text::from_bytes(alloc, name.as_bytes())?;
            loaded.place(alloc, files, name)?;
        }
    }
    Ok(())
}

/// A pattern with the place of its file's rules.
fn pattern_at(
    alloc: Global,
    files: &RuleFiles,
    key: &[u8],
    value: &[u8],
    loaded: &mut LoadedTexts,
) -> Result<PatternPlace, BuildFault>
    requires { IsLoaded files.now loaded.old.places.entries loaded.old.rules.items }
    ensures read { IfOk result (IsPatternAt files.now key.now value.now loaded.old.rules.items loaded.new.places.entries loaded.new.rules.items) }
    ensures refused { IfErr result (IsFaultOf (pattern_text files.now (key.now, value.now))) }
{
    let name = named(alloc, files, key, value)?;
    let file = loaded.place(alloc, files, name)?;
    let pattern = Text::from_bytes(alloc, key)?;
    Ok(PatternPlace { pattern, file })
}

/// Patterns, each with the place of its file's rules, or the first fault.
fn patterns_at(
    alloc: Global,
    files: &RuleFiles,
    entries: &IndexMap<Text, Text>,
    loaded: &mut LoadedTexts,
) -> Result<Vec<PatternPlace>, BuildFault>
    requires { IsLoaded files.now loaded.old.places.entries loaded.old.rules.items }
    ensures read { IfOk result (λ patterns. pattern_texts files.now entries.now.entries ≡ Ok (texts_seen loaded.new.rules.items patterns.items)) }
    ensures places { IfOk result (λ patterns. ArePlaces loaded.new.rules.items patterns.items) }
    ensures refused { IfErr result (IsFaultOf (pattern_texts files.now entries.now.entries)) }
{
    let mut patterns = Vec::new(alloc);
    for i in 0..entries.len() {
        if let Some((key, value)) = entries.get_index(i) {
            let pattern = pattern_at(alloc, files, key.as_bytes(), value.as_bytes(), loaded)?;
            patterns.push(pattern)?;
        }
    }
    Ok(patterns)
}

/// Reads the files of rules that the patterns name, up to the first fault: the patterns are looked at in byte order, then
/// the files in byte order of their names.
fn load_named(alloc: Global, files: &RuleFiles, loaded: &mut LoadedTexts) -> Result<(), BuildFault>
    requires { IsLoaded files.now loaded.old.places.entries loaded.old.rules.items }
    ensures read { OnOk result (AfterCheck files.now) }
    ensures loaded { OnOk result (IsLoaded files.now loaded.new.places.entries loaded.new.rules.items) }
    ensures refused { IfErr result (IsFaultOf (texts_in files.now)) }
{
    let entries = sorted(entries_in(alloc, files, TEXT)?)?;
    let names = sorted(names_of(alloc, files, &entries)?)?;
    load(alloc, files, &names, loaded)
}

/// The patterns of a rule folder, each with the place of its file's rules, or the first fault.
fn patterns_in(
    alloc: Global,
    files: &RuleFiles,
    loaded: &mut LoadedTexts,
) -> Result<Vec<PatternPlace>, BuildFault>
    requires { IsLoaded files.now loaded.old.places.entries loaded.old.rules.items }
    ensures read { IfOk result (λ patterns. texts_in files.now ≡ Ok (texts_seen loaded.new.rules.items patterns.items)) }
    ensures places { IfOk result (λ patterns. ArePlaces loaded.new.rules.items patterns.items) }
    ensures refused { IfErr result (IsFaultOf (texts_in files.now)) }
{
    load_named(alloc, files, loaded)?;
    let entries = entries_in(alloc, files, TEXT)?;
    patterns_at(alloc, files, &entries, loaded)
}

/// The patterns with text rules of a rule folder, in the order in which their keys first stand. The keys are looked at in
/// byte order, and then the files that they name in byte order of their names, each of which is read once. The fault is the
/// first, or want of memory.
pub(crate) fn read_texts(alloc: Global, files: &RuleFiles) -> Result<PatternTexts, BuildFault>
    ensures read { IfOk result (λ patterns. texts_in files.now ≡ Ok patterns) }
    ensures refused { IfErr result (IsFaultOf (texts_in files.now)) }
{
    let mut loaded = LoadedTexts::none(alloc);
    let patterns = patterns_in(alloc, files, &mut loaded)?;
    Ok(PatternTexts::new(alloc, loaded.rules, patterns))
}

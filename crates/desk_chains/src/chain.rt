//! Chains of rules, of which the second changes what the first gives.

ghost use Rattle.std.specs.Prelude.{◌≡◌, ◌==◌, ◌&&◌, ◌++◌, ◌∷◌, [], None, Some, MatchOption, IfSome};
ghost use Rattle.std.specs.Option.{option_copied};
ghost use Rattle.std.specs.List.{find, filter, list_any, starts_with};
ghost use Rattle.desk_base.specs.Names.{written, dot};
ghost use Rattle.desk_packages.specs.Renames.{changes, key_of};
ghost use Rattle.desk_packages.specs.Keys.{IsTable, RiseBy};
ghost use Rattle.desk_chains.specs.Gifts.{IsGift, Tells};
ghost use Rattle.desk_chains.specs.Chains.{first_pair, chain_of, first_chain_of, first_package_chain, first_chain_in, chain_at};

use crate::ChainKind;
use crate::reaches::{front_in_reach, front_in_scope, meet, source_in_reach, target_in_scope};
use crate::tried::{holds, note};
use desk_entries::{BundleRule, DirectRule};
use desk_names::is_dotted;
use desk_packages::{
    Keyed, PackageRename, Separator, changing_for, front_end, rules_at, rules_under,
};
use std::alloc::Global;
use std::collections::BTreeSet;

/// What the first of two rules gives is changed as what it is: a package as a package, a name as a name.
struct AsGiven;

/// The package that a rename gives is a dotted name or a text for the second rule.
struct PackageAsText;

/// A text that the first rule gives is a package for the second.
struct TextAsPackage;

/// What may come first in a chain: what it gives may be changed by a second rule, which takes it for a package or for a text.
trait LeadsTo<B: Keyed, Taken>: Keyed {
    ghost use Rattle.std.specs.Prelude.{Bool, List, ℕ};

    ghost leads: { Self → B → Bool };

    ghost gives: { Self → List ℕ → Type 0 };

    ghost in_order: { List B → Type 0 };

    /// Whether a rule changes what this one gives.
    fn leads_to(&self, second: &B) -> bool
        ensures { result ≡ leads self.now second.now };

    /// Those of the rules that are looked through for the first that changes what this one gives: it stands among them where
    /// there is one.
    fn candidates<'r>(&self, rules: &'r [B]) -> &'r [B]
        requires { in_order rules.now }
        ensures { find (leads self.now) result.now ≡ find (leads self.now) rules.now };

    /// Where there may be many candidates, a text that tells what this one gives: what gives the same leads to no other rule.
    fn gift(&self) -> Option<&[u8]>
        ensures { IfSome result (λ text. Tells gives leads self.now text.now) };
}

/// Whether one of the renames changes.
fn some_change(renames: &[PackageRename]) -> bool
    ensures { result ≡ list_any changes renames.now }
{
    renames.iter().any(|rename| rename.changes())
}

/// Whether a rename gives packages below its target, and a changing rename has its source there.
fn leads_below(first: &PackageRename, renames: &[PackageRename]) -> bool
    requires { RiseBy key_of renames.now }
    ensures { result ≡ (first.now.below && list_any changes (filter (λ r. starts_with ◌==◌ (key_of r) (written dot first.now.target ++ 46 ∷ [])) renames.now)) }
{
    first.is_below() && some_change(rules_under(renames, first.target_start()))
}

/// What a changing rename gives, as a text: its target with dots, and a dot behind it where it gives packages below too.
fn gift_of(rename: &PackageRename) -> Option<&[u8]>
    ensures { IfSome result (λ text. IsGift rename.now text.now) }
{
    rename.recall_form();
    if !rename.changes() {
        return None;
    }
    if rename.is_below() {
        Some(rename.target_start())
    } else {
        Some(rename.dotted_target())
    }
}

impl LeadsTo<PackageRename, AsGiven> for PackageRename {
    ghost use Rattle.desk_packages.specs.Keys.{IsTable};
    ghost use Rattle.desk_chains.specs.Chains.{rename_then_rename};
    ghost use Rattle.desk_chains.specs.Gifts.{IsGift};

    ghost leads = { rename_then_rename };

    ghost gives = { IsGift };

    ghost in_order = { IsTable };

    fn leads_to(&self, second: &PackageRename) -> bool {
        self.changes() && second.changes() && meet(self, second)
    }

    fn candidates<'r>(&self, rules: &'r [PackageRename]) -> &'r [PackageRename] {
        if !self.changes() {
            return &rules[..0];
        }
        self.recall_form();
        match changing_for(rules, self.dotted_target(), Separator::Dot) {
            Some(_) => rules,
            None if leads_below(self, rules) => rules,
            None => &rules[..0],
        }
    }

    fn gift(&self) -> Option<&[u8]> {
        gift_of(self)
    }
}

impl LeadsTo<DirectRule, AsGiven> for PackageRename {
    ghost use Rattle.desk_packages.specs.Keys.{RiseBy};
    ghost use Rattle.desk_chains.specs.Chains.{rename_then_direct};
    ghost use Rattle.desk_entries.specs.Exchanges.{old_text};
    ghost use Rattle.desk_chains.specs.Gifts.{IsGift};

    ghost leads = { rename_then_direct };

    ghost gives = { IsGift };

    ghost in_order = { RiseBy old_text };

    fn leads_to(&self, second: &DirectRule) -> bool {
        self.changes() && second.changes() && front_in_reach(self, second.key())
    }

    fn candidates<'r>(&self, rules: &'r [DirectRule]) -> &'r [DirectRule] {
        self.recall_form();
        rules_under(rules, self.target_start())
    }

    fn gift(&self) -> Option<&[u8]> {
        gift_of(self)
    }
}

impl LeadsTo<DirectRule, AsGiven> for DirectRule {
    ghost use Rattle.desk_packages.specs.Keys.{RiseBy};
    ghost use Rattle.desk_chains.specs.Chains.{one_then_another};
    ghost use Rattle.desk_entries.specs.Exchanges.{old_text};
    ghost use Rattle.desk_chains.specs.Gifts.{GivesNoText};

    ghost leads = { one_then_another };

    ghost gives = { GivesNoText };

    ghost in_order = { RiseBy old_text };

    fn leads_to(&self, second: &DirectRule) -> bool {
        self.changes() && second.changes() && self.target() == second.key()
    }

    fn candidates<'r>(&self, rules: &'r [DirectRule]) -> &'r [DirectRule] {
        rules_at(rules, self.target())
    }

    fn gift(&self) -> Option<&[u8]> {
        None
    }
}

impl LeadsTo<PackageRename, AsGiven> for DirectRule {
    ghost use Rattle.desk_packages.specs.Keys.{IsTable};
    ghost use Rattle.desk_chains.specs.Chains.{direct_then_rename};
    ghost use Rattle.desk_chains.specs.Gifts.{GivesNoText};

    ghost leads = { direct_then_rename };

    ghost gives = { GivesNoText };

    ghost in_order = { IsTable };

    fn leads_to(&self, second: &PackageRename) -> bool {
        self.changes() && second.changes() && front_in_scope(second, self.target())
    }

    fn candidates<'r>(&self, rules: &'r [PackageRename]) -> &'r [PackageRename] {
        let text = self.target();
        if !self.changes() {
            return &rules[..0];
        }
        if !is_dotted(text) {
            return &rules[..0];
        }
        match changing_for(rules, &text[..front_end(text, b'.')], Separator::Dot) {
            Some(_) => rules,
            None => &rules[..0],
        }
    }

    fn gift(&self) -> Option<&[u8]> {
        None
    }
}

impl LeadsTo<BundleRule, AsGiven> for BundleRule {
    ghost use Rattle.desk_packages.specs.Keys.{RiseBy};
    ghost use Rattle.desk_chains.specs.Chains.{update_then_update};
    ghost use Rattle.desk_entries.specs.Exchanges.{old_name};
    ghost use Rattle.desk_chains.specs.Gifts.{GivesNoText};

    ghost leads = { update_then_update };

    ghost gives = { GivesNoText };

    ghost in_order = { RiseBy old_name };

    fn leads_to(&self, second: &BundleRule) -> bool {
        self.changes() && second.changes() && self.name() == second.key()
    }

    fn candidates<'r>(&self, rules: &'r [BundleRule]) -> &'r [BundleRule] {
        rules_at(rules, self.name())
    }

    fn gift(&self) -> Option<&[u8]> {
        None
    }
}

impl LeadsTo<PackageRename, PackageAsText> for PackageRename {
    ghost use Rattle.desk_packages.specs.Keys.{IsTable};
    ghost use Rattle.desk_chains.specs.Chains.{package_then_name};
    ghost use Rattle.desk_chains.specs.Gifts.{GivesNoText};

    ghost leads = { package_then_name };

    ghost gives = { GivesNoText };

    ghost in_order = { IsTable };

    fn leads_to(&self, second: &PackageRename) -> bool {
        self.changes() && second.changes() && target_in_scope(second, self)
    }

    fn candidates<'r>(&self, rules: &'r [PackageRename]) -> &'r [PackageRename] {
        if !self.changes() {
            return &rules[..0];
        }
        self.recall_form();
        let target = self.dotted_target();
        match changing_for(rules, &target[..front_end(target, b'.')], Separator::Dot) {
            Some(_) => rules,
            None => &rules[..0],
        }
    }

    fn gift(&self) -> Option<&[u8]> {
        None
    }
}

impl LeadsTo<PackageRename, TextAsPackage> for PackageRename {
    ghost use Rattle.desk_packages.specs.Keys.{IsTable};
    ghost use Rattle.desk_chains.specs.Chains.{name_then_package};
    ghost use Rattle.desk_chains.specs.Gifts.{IsGift};

    ghost leads = { name_then_package };

    ghost gives = { IsGift };

    ghost in_order = { IsTable };

    fn leads_to(&self, second: &PackageRename) -> bool {
        self.changes() && second.changes() && source_in_reach(self, second)
    }

    fn candidates<'r>(&self, rules: &'r [PackageRename]) -> &'r [PackageRename] {
        self.recall_form();
        rules_under(rules, self.target_start())
    }

    fn gift(&self) -> Option<&[u8]> {
        gift_of(self)
    }
}

impl LeadsTo<DirectRule, PackageAsText> for PackageRename {
    ghost use Rattle.desk_packages.specs.Keys.{RiseBy};
    ghost use Rattle.desk_chains.specs.Chains.{package_then_direct};
    ghost use Rattle.desk_entries.specs.Exchanges.{old_text};
    ghost use Rattle.desk_chains.specs.Gifts.{GivesNoText};

    ghost leads = { package_then_direct };

    ghost gives = { GivesNoText };

    ghost in_order = { RiseBy old_text };

    fn leads_to(&self, second: &DirectRule) -> bool {
        self.changes() && second.changes() && self.dotted_target() == second.key()
    }

    fn candidates<'r>(&self, rules: &'r [DirectRule]) -> &'r [DirectRule] {
        rules_at(rules, self.dotted_target())
    }

    fn gift(&self) -> Option<&[u8]> {
        None
    }
}

impl LeadsTo<PackageRename, TextAsPackage> for DirectRule {
    ghost use Rattle.desk_packages.specs.Keys.{IsTable};
    ghost use Rattle.desk_chains.specs.Chains.{direct_then_package};
    ghost use Rattle.desk_chains.specs.Gifts.{GivesNoText};

    ghost leads = { direct_then_package };

    ghost gives = { GivesNoText };

    ghost in_order = { IsTable };

    fn leads_to(&self, second: &PackageRename) -> bool {
        self.changes() && second.changes() && self.target() == second.dotted_source()
    }

    fn candidates<'r>(&self, rules: &'r [PackageRename]) -> &'r [PackageRename] {
        let text = self.target();
        if !self.changes() {
            return &rules[..0];
        }
        if !is_dotted(text) {
            return &rules[..0];
        }
        match changing_for(rules, text, Separator::Dot) {
            Some(_) => rules,
            None => &rules[..0],
        }
    }

    fn gift(&self) -> Option<&[u8]> {
        None
    }
}

/// Two rules, by their keys, of which the second changes what the first gives.
#[derive(Clone, Copy, Debug)]
pub struct Chained<'r> {
    /// Which two rules they are.
    pub kind: ChainKind,
    /// The key of the first, as its rule file has it.
    pub first: &'r [u8],
    /// The key of the second, as its rule file has it.
    pub second: &'r [u8],
}

/// The first of some rules that changes what another gives.
fn first_led<'r, Taken, A: LeadsTo<B, Taken>, B: Keyed>(first: &A, rules: &'r [B]) -> Option<&'r B>
    ensures { option_copied result ≡ find (A.leads first.now) rules.now }
{
    rules.iter().find(|second| first.leads_to(second))
}

/// The first rule, by its key, that changes what another gives.
fn second_of<'r, Taken, A: LeadsTo<B, Taken>, B: Keyed>(first: &A, rules: &'r [B]) -> Option<&'r B>
    requires { A.in_order rules.now }
    ensures { option_copied result ≡ find (A.leads first.now) rules.now }
{
    first_led::<Taken, _, _>(first, first.candidates(rules))
}

/// The first chain of a kind: by the first key, then by the second. What gives what an earlier rule gave in vain isn't looked
/// for again, unless memory lacks to note it.
fn first_between<'r, Taken, A: LeadsTo<B, Taken>, B: Keyed>(
    alloc: Global,
    kind: ChainKind,
    firsts: &'r [A],
    seconds: &'r [B],
) -> Option<Chained<'r>>
    requires { A.in_order seconds.now }
    ensures { MatchOption result
        (chain_of kind A.key_of B.key_of (first_pair A.leads firsts.now seconds.now) ≡ None)
        (λ f. chain_of kind A.key_of B.key_of (first_pair A.leads firsts.now seconds.now) ≡ Some (chain_at f.kind f.first.now f.second.now)) }
{
    let mut tried = BTreeSet::new(alloc);
    for first in firsts {
        let given = first.gift();
        if holds(&tried, given) {
            continue;
        }
        if let Some(second) = second_of::<Taken, _, _>(first, seconds) {
            return Some(Chained {
                kind,
                first: first.key(),
                second: second.key(),
            });
        }
        note(&mut tried, given);
    }
    None
}

/// The first chain of a kind among renames, direct rules and bundle updates.
fn first_of<'r>(
    alloc: Global,
    kind: ChainKind,
    renames: &'r [PackageRename],
    direct: &'r [DirectRule],
    bundles: &'r [BundleRule],
) -> Option<Chained<'r>>
    requires renames { IsTable renames.now }
    requires direct { RiseBy (λ d. d.0) direct.now }
    requires bundles { RiseBy (λ b. b.0) bundles.now }
    ensures { MatchOption result
        (first_chain_of kind renames.now direct.now bundles.now ≡ None)
        (λ f. first_chain_of kind renames.now direct.now bundles.now ≡ Some (chain_at f.kind f.first.now f.second.now)) }
{
    match kind {
        ChainKind::RenameThenRename => first_between::<AsGiven, _, _>(
            alloc, kind, renames, renames,
        ),
        ChainKind::RenameThenDirect => first_between::<AsGiven, _, _>(alloc, kind, renames, direct),
        ChainKind::DirectThenDirect => first_between::<AsGiven, _, _>(alloc, kind, direct, direct),
        ChainKind::DirectThenRename => first_between::<AsGiven, _, _>(alloc, kind, direct, renames),
        ChainKind::BundleThenBundle => first_between::<AsGiven, _, _>(
            alloc, kind, bundles, bundles,
        ),
        ChainKind::PackageThenName => first_between::<PackageAsText, _, _>(
            alloc, kind, renames, renames,
        ),
        ChainKind::NameThenPackage => first_between::<TextAsPackage, _, _>(
            alloc, kind, renames, renames,
        ),
        ChainKind::PackageThenDirect => first_between::<PackageAsText, _, _>(
            alloc, kind, renames, direct,
        ),
        ChainKind::DirectThenPackage => first_between::<TextAsPackage, _, _>(
            alloc, kind, direct, renames,
        ),
    }
}

/// The first chain of the kinds in which a string is a package.
fn first_with_packages<'r>(
    alloc: Global,
    renames: &'r [PackageRename],
    direct: &'r [DirectRule],
    bundles: &'r [BundleRule],
) -> Option<Chained<'r>>
    requires renames { IsTable renames.now }
    requires direct { RiseBy (λ d. d.0) direct.now }
    requires bundles { RiseBy (λ b. b.0) bundles.now }
    ensures { MatchOption result
        (first_package_chain renames.now direct.now bundles.now ≡ None)
        (λ f. first_package_chain renames.now direct.now bundles.now ≡ Some (chain_at f.kind f.first.now f.second.now)) }
{
    let found = first_of(alloc, ChainKind::PackageThenName, renames, direct, bundles);
    if found.is_some() {
        return found;
    }
    let found = first_of(alloc, ChainKind::NameThenPackage, renames, direct, bundles);
    if found.is_some() {
        return found;
    }
    let found = first_of(
        alloc,
        ChainKind::PackageThenDirect,
        renames,
        direct,
        bundles,
    );
    if found.is_some() {
        return found;
    }
    first_of(
        alloc,
        ChainKind::DirectThenPackage,
        renames,
        direct,
        bundles,
    )
}

/// The first chain among renames, direct rules and bundle updates: by its kind, in the order of `ChainKind`, then by the first
/// key, then by the second; none exactly where no rule changes what another gives. The rules of each kind stand in byte order of
/// their keys, and each rename has the form of one. It takes memory to look only once for what several rules give, and where that
/// lacks it looks again.
pub fn first_chain<'r>(
    alloc: Global,
    renames: &'r [PackageRename],
    direct: &'r [DirectRule],
    bundles: &'r [BundleRule],
) -> Option<Chained<'r>>
    requires renames { IsTable renames.now }
    requires direct { RiseBy (λ d. d.0) direct.now }
    requires bundles { RiseBy (λ b. b.0) bundles.now }
    ensures { MatchOption result
        (first_chain_in renames.now direct.now bundles.now ≡ None)
        (λ f. first_chain_in renames.now direct.now bundles.now ≡ Some (chain_at f.kind f.first.now f.second.now)) }
{
    let found = first_of(alloc, ChainKind::RenameThenRename, renames, direct, bundles);
    if found.is_some() {
        return found;
    }
    let found = first_of(alloc, ChainKind::RenameThenDirect, renames, direct, bundles);
    if found.is_some() {
        return found;
    }
    let found = first_of(alloc, ChainKind::DirectThenDirect, renames, direct, bundles);
    if found.is_some() {
        return found;
    }
    let found = first_of(alloc, ChainKind::DirectThenRename, renames, direct, bundles);
    if found.is_some() {
        return found;
    }
    let found = first_of(alloc, ChainKind::BundleThenBundle, renames, direct, bundles);
    if found.is_some() {
        return found;
    }
    first_with_packages(alloc, renames, direct, bundles)
}

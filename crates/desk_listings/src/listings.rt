//! Header values as lists of clauses.

ghost use Rattle.std.specs.Prelude.{◌≡◌, IfOk, IfErr, OnOk, map, true, false};
ghost use Rattle.std.specs.Option.{option_copied};
ghost use Rattle.std.specs.List.{list_all};
ghost use Rattle.desk_rules.specs.Images.{IsImage};
ghost use Rattle.desk_clauses.specs.Grammar.{parts, clauses, clause_text, value_text, is_clause};
ghost use Rattle.desk_listings.specs.Images.{lists_packages, is_export, version_name, version_behind, clause_image, listing_image, identity_version};
ghost use Rattle.desk_listings.specs.declared.listings.ListingFault.TheVariants as listing_faults;

use crate::parts::{path_version, rename_part};
use desk_base::{Memory, Text};
use desk_clauses::{
    ClausePlace, Edits, Part, first_path, is_closed, is_in_grammar, split_first_part,
};
use desk_lines::trim_blanks;
use desk_rules::RuleSet;
use std::alloc::Global;

/// What a header of a bundle lists (OSGi Core 3.2.1), by which its paths and versions are renamed.
#[derive(Clone, Copy, Debug, PartialEq, Eq)]
pub enum Listing {
    /// Packages that a bundle needs: Import-Package, DynamicImport-Package.
    Imports,
    /// Packages that a bundle offers: Export-Package.
    Exports,
    /// The bundle itself: Bundle-SymbolicName.
    Identity,
    /// Other bundles: Require-Bundle, Fragment-Host.
    Bundles,
}

impl Listing {
    /// Whether it lists packages.
    pub(crate) fn lists_packages(self) -> bool
        ensures { result ≡ lists_packages self }
    {
        match self {
            Listing::Imports | Listing::Exports => true,
            Listing::Identity | Listing::Bundles => false,
        }
    }

    /// Whether it lists packages that the bundle offers.
    pub(crate) fn is_export(self) -> bool
        ensures { result ≡ is_export self }
    {
        match self {
            Listing::Exports => true,
            Listing::Imports | Listing::Identity | Listing::Bundles => false,
        }
    }

    /// The attribute that takes a new version.
    pub(crate) fn version_name(self) -> &'static [u8]
        ensures { result.now ≡ version_name self }
    {
        match self {
            Listing::Imports | Listing::Exports => b"version",
            Listing::Identity | Listing::Bundles => b"bundle-version",
        }
    }
}

/// Why a list of clauses has no image.
#[derive(Clone, Copy)]
enum ListingFault {
    /// A clause isn't in the grammar.
    OutsideGrammar,
    /// Memory ran out.
    Memory,
}

impl From<Memory> for ListingFault {
    ghost from_gives = { λ _ fault. fault ≡ listing_faults.Memory };

    fn from(_: Memory) -> ListingFault {
        ListingFault::Memory
    }
}

/// The version that a clause has brought behind one more part: that of its first path that brings one. The only error is want of
/// memory.
fn version_behind<'r>(
    alloc: Global,
    rules: &'r RuleSet,
    listing: Listing,
    version: Option<&'r [u8]>,
    part: &Part<'_>,
) -> Result<Option<&'r [u8]>, Memory>
    ensures { IfOk result (λ behind. option_copied behind ≡ version_behind rules.now listing (option_copied version.entry) part.now.text.now) }
{
    if version.is_some() || part.is_parameter() {
        return Ok(version);
    }
    path_version(alloc, rules, listing, trim_blanks(part.text))
}

/// The image of a clause; none exactly where it is the clause itself. Each part is cut once: in the grammar all paths stand before
/// the first parameter, so that the version of the clause is known there. The errors are a clause outside the grammar and want of
/// memory.
fn rename_clause(
    alloc: Global,
    rules: &RuleSet,
    listing: Listing,
    clause: &[u8],
) -> Result<Option<Text>, ListingFault>
    ensures image { IfOk result (IsImage clause.now (clause_text (clause_image rules.now listing (parts clause.now)))) }
    ensures formed { OnOk result (is_clause (parts clause.now) ≡ true) }
    ensures fault { IfErr result (λ fault. fault ≡ listing_faults.OutsideGrammar → is_clause (parts clause.now) ≡ false) }
{
    let mut edits = Edits::new(alloc);
    let mut place = ClausePlace::Start;
    let mut version = None;
    let mut rest = Some(clause);
    let mut from = 0;
    while let Some(text) = rest {
        let (first, more) = split_first_part(text, b';');
        let part = Part::of(first);
        match place.behind(&part) {
            None => return Err(ListingFault::OutsideGrammar),
            Some(next) => place = next,
        }
        version = version_behind(alloc, rules, listing, version, &part)?;
        let to = from + part.text.len();
        let image = rename_part(alloc, rules, listing, version, &part)?;
        edits.put(clause, from, to, image)?;
        from = to + 1;
        rest = more;
    }
    Ok(edits.finish(clause)?)
}

/// The image of the clauses of a value; none exactly where it is the value itself. The errors are a clause outside the grammar and
/// want of memory.
fn rename_clauses(
    alloc: Global,
    rules: &RuleSet,
    listing: Listing,
    value: &[u8],
) -> Result<Option<Text>, ListingFault>
    ensures image { IfOk result (IsImage value.now (value_text (map (clause_image rules.now listing) (clauses value.now)))) }
    ensures formed { OnOk result (list_all is_clause (clauses value.now) ≡ true) }
    ensures fault { IfErr result (λ fault. fault ≡ listing_faults.OutsideGrammar → list_all is_clause (clauses value.now) ≡ false) }
{
    let mut edits = Edits::new(alloc);
    let mut rest = Some(value);
    let mut from = 0;
    while let Some(text) = rest {
        let (clause, more) = split_first_part(text, b',');
        let to = from + clause.len();
        let image = rename_clause(alloc, rules, listing, clause)?;
        edits.put(value, from, to, image)?;
        from = to + 1;
        rest = more;
    }
    Ok(edits.finish(value)?)
}

/// The image of a header's value. In a list of packages each path that is a dotted name goes as a package, and so does what
/// stands before `.*`; where a clause has a path that changes and whose new package has a version, the argument of each
/// attribute `version` becomes the version of the first such path, in quotes; and the packages of each directive `uses` of an
/// export go too. In a list of bundles each symbolic name that is updated becomes the new one, and the argument of each
/// attribute `bundle-version` the version of the first updated one that has a version, but for the bundle's own name. A value
/// outside the grammar stays. None exactly where the image is the value itself. The only error is want of memory.
pub fn rename_listing(
    alloc: Global,
    rules: &RuleSet,
    listing: Listing,
    value: &[u8],
) -> Result<Option<Text>, Memory>
    ensures { IfOk result (IsImage value.now (listing_image rules.now listing value.now)) }
{
    if !is_closed(value) {
        return Ok(None);
    }
    match rename_clauses(alloc, rules, listing, value) {
        Ok(image) => Ok(image),
        Err(ListingFault::OutsideGrammar) => Ok(None),
        Err(ListingFault::Memory) => Err(Memory),
    }
}

/// The new version of the bundle that a Bundle-SymbolicName of this value names: that of the update of its first path; none
/// where that doesn't change, or its update has no version, or the value isn't in the grammar. It takes no memory.
pub fn identity_version<'r>(rules: &'r RuleSet, value: &[u8]) -> Option<&'r [u8]>
    ensures { option_copied result ≡ identity_version rules.now value.now }
{
    if !is_in_grammar(value) {
        return None;
    }
    match rules.bundle(first_path(value)) {
        None => None,
        Some(update) => update.version,
    }
}

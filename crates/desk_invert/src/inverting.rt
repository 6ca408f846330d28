//! The file of the inverse of a rule set, or why there is none.

ghost use Rattle.std.specs.Prelude.{◌≡◌, Ok, IfOk, IfErr, OnOk};
ghost use Rattle.std.specs.List.{filter};
ghost use Rattle.desk_packages.specs.Keys.{IsTable};
ghost use Rattle.desk_packages.specs.Renames.{changes};
ghost use Rattle.desk_rules.specs.RuleFiles.{rules_of_files};
ghost use Rattle.desk_rules.specs.RuleSets.{IsRuleSet};
ghost use Rattle.desk_invert.specs.Answers.{inversion, inverted, IsFaultOf, IsOverlapOf};
ghost use Rattle.desk_invert.specs.Files.{only_renames};
ghost use Rattle.desk_invert.specs.Inverse.{inverse};
ghost use Rattle.desk_invert.specs.Laws.{inverse_rules, IsInvertible, TakesPackagesBack};

use crate::InvertError;
use crate::exchanged::{exchange_all, file_of};
use crate::overlaps::first_overlap;
use desk_base::{Memory, Text};
use desk_packages::{Keyed, PackageRename};
use desk_rules::{InvertFault, RuleSet};
use std::alloc::Global;

/// The fault of two renames. The only error is want of memory.
fn overlap_of(
    alloc: Global,
    first: &PackageRename,
    second: &PackageRename,
) -> Result<InvertFault, Memory>
    ensures { IfOk result (IsOverlapOf first.now second.now) }
{
    Ok(InvertFault::Overlap {
        first: Text::from_bytes(alloc, first.key())?,
        second: Text::from_bytes(alloc, second.key())?,
    })
}

/// The file of the inverse of renames. The fault is that none changes, or the first two that overlap; the only other error is
/// want of memory.
fn invert_renames(alloc: Global, renames: &[PackageRename]) -> Result<Text, InvertError>
    requires { IsTable renames.now }
    ensures inverted { IfOk result (λ file. inverted renames.now ≡ Ok file) }
    ensures refused { IfErr result (IsFaultOf (inverted renames.now)) }
{
    let backs = exchange_all(alloc, renames)?;
    if backs.once.is_empty() {
        return Err(InvertError::Fault(InvertFault::Nothing));
    }
    match first_overlap(renames, &backs) {
        Some(pair) => {
            let fault = overlap_of(alloc, pair.first, pair.second)?;
            Err(InvertError::Fault(fault))
        }
        None => Ok(file_of(alloc, &backs.once)?),
    }
}

/// The file of the inverse of a rule set: a line `KEY=PACKAGE` and a line feed for each changing rename, with source and target
/// exchanged and the key's `.*` kept, in byte order of the new keys. As `renames.properties` alone it builds, and the rules are
/// the inverse.
///
/// The first fault, in this order: `NotRenames`, where a rule file beside `renames.properties` has a key, with the name of the
/// first as `first_other` says it; `Nothing`, where no rename changes; `Overlap`, where two changing renames overlap: a package
/// lies in both reaches, or the front of the second's target, its segments but the last, lies in the reach of the first. Of all
/// such two these have the least first key in byte order, and for it the least second. The only other error is want of memory.
///
/// It takes as long as sorting the renames: what overlaps with a rename is looked up by its target, and the two that are told
/// are looked for once.
pub fn invert(alloc: Global, rules: &RuleSet) -> Result<Text, InvertError>
    ensures inverted { IfOk result (λ file. inversion rules.now ≡ Ok file) }
    ensures refused { IfErr result (IsFaultOf (inversion rules.now)) }

    // The inverse is settled, and is read back from the file.
    ensures settled { OnOk result (IsRuleSet (inverse_rules rules.now)) }
    ensures builds { IfOk result (λ file. rules_of_files (only_renames file) ≡ Ok (inverse_rules rules.now)) }

    // It takes packages back, and its own inverse are the changing renames.
    ensures packages { OnOk result (TakesPackagesBack rules.now.renames (inverse rules.now.renames)) }
    ensures again { OnOk result (inverse (inverse rules.now.renames) ≡ filter changes rules.now.renames) }

    // What the laws of classes ask for.
    ensures invertible { OnOk result (IsInvertible rules.now) }
{
    rules.recall_settled();
    if let Some(file) = rules.first_other() {
        return Err(InvertError::Fault(InvertFault::NotRenames {
            file: Text::from_bytes(alloc, file)?,
        }));
    }
    invert_renames(alloc, rules.renames())
}

//! Laws of whole applications. Each function runs to no effect: what it says is its contract.

ghost use Rattle.desk_second.specs.Second.{DefinitionsFollow, ReferencesFollow, RulesOfFiles, SecondMigration};

/// Where no defined name shares its image with another name, a selected class that is accepted holds a defined name exactly
/// where its image holds the image of that name; and its image defines the image of its name.
pub fn references_follow()
    ensures { ReferencesFollow }
{}

/// Where no class is stranded, the image of each well-formed class that is accepted, selected or not, defines the image of its
/// name.
pub fn definitions_follow()
    ensures { DefinitionsFollow }
{}

/// The accepted images of an application without clashes and stranded classes are, at their targets, an application of the
/// same kind: the image of each is itself, at its own path; and no two targets clash, no two names clash, and no class is
/// stranded.
pub fn second_migration()
    ensures { SecondMigration }
{}

/// Each text rule of rule files has a source that isn't empty: the key of its entry.
#[tactic(auto, using(crate::proofs::Sources::are_rules))]
pub fn rules_of_files()
    ensures { RulesOfFiles }
{}

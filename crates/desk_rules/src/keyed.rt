//! Rules by a key text: versions and patterns of paths.

ghost use Rattle.std.specs.Prelude.{◌≡◌, if◌then◌else◌};
ghost use Rattle.desk_patterns.specs.Selections.{is_exclude};
ghost use Rattle.desk_rules.specs.Sides.{exports};

use crate::Side;
use desk_base::Text;
use desk_entries::Versions;
use desk_packages::Keyed;
use desk_patterns::Mark;
use std::marker::Model;

/// The versions of a new package, where it is imported and where it is exported.
#[derive(Debug, Drop)]
pub(crate) struct VersionRule {
    /// The new package, written with dots: the rule's key.
    pub(crate) package: Text,
    /// Its version where it is imported, and where it is exported.
    pub(crate) versions: Versions,
}

impl Model for VersionRule {
    ghost use Rattle.std.specs.Coded.{coded×};
    ghost use Rattle.desk_base.specs.Names.{Text as Bytes};
    ghost use Rattle.desk_rules.specs.Rules.{Versions, versions_code, text_code};

    ghost Value = { Bytes × Versions };

    ghost coded = { coded× text_code versions_code };

    ghost view = { λ r. (r.package, r.versions) };
}

impl Keyed for VersionRule {
    ghost key_of = { λ r. r.0 };

    fn key(&self) -> &[u8] {
        self.package.as_bytes()
    }
}

impl VersionRule {
    /// The version where the package is exported, or where it is imported.
    pub(crate) fn version(&self, side: Side) -> &[u8]
        ensures { result.now ≡ (if exports side then self.now.1.exported else self.now.1.imported) }
    {
        match side {
            Side::Export => self.versions.exported.as_bytes(),
            Side::Import => self.versions.imported.as_bytes(),
        }
    }
}

/// A pattern of paths, and what it says of them.
#[derive(Debug, Drop)]
pub(crate) struct SelectionRule {
    /// The pattern of paths: the rule's key.
    pub(crate) pattern: Text,
    /// Whether it includes or excludes the paths that fit it.
    pub(crate) mark: Mark,
}

impl Model for SelectionRule {
    ghost use Rattle.std.specs.Coded.{coded×, coded_bool};
    ghost use Rattle.desk_patterns.specs.Selections.{Choice, is_exclude};
    ghost use Rattle.desk_rules.specs.Rules.{text_code};

    ghost Value = { Choice };

    ghost coded = { coded× text_code coded_bool };

    ghost view = { λ r. (r.pattern, is_exclude r.mark) };
}

impl Keyed for SelectionRule {
    ghost key_of = { λ r. r.0 };

    fn key(&self) -> &[u8] {
        self.pattern.as_bytes()
    }
}

impl SelectionRule {
    /// What the pattern says of the paths that it fits.
    pub(crate) fn mark(&self) -> Mark
        ensures { is_exclude result ≡ self.now.1 }
    {
        self.mark
    }
}

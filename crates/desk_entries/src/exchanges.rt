//! Rules by a key text as a rule set keeps them: direct strings and bundle updates.

ghost use Rattle.std.specs.Prelude.{◌≡◌};
ghost use Rattle.desk_entries.specs.Exchanges.{alters, renames_bundle};

use crate::bundles::Update;
use desk_base::Text;
use desk_packages::Keyed;
use std::marker::Model;

/// The new name of a bundle, and its new version where it gets one: an entry of `bundles.properties`. Its key is the old
/// symbolic name.
#[derive(Debug, Drop)]
pub struct BundleRule {
    old_name: Text,
    update: Update,
}

impl Model for BundleRule {
    ghost use Rattle.std.specs.Coded.{coded×};
    ghost use Rattle.desk_base.specs.Names.{Text as Bytes};
    ghost use Rattle.desk_entries.specs.Exchanges.{Update, update_code, text_code};

    ghost Value = { Bytes × Update };

    ghost coded = { coded× text_code update_code };

    ghost view = { λ r. (r.old_name, r.update) };
}

impl Keyed for BundleRule {
    ghost key_of = { λ r. r.0 };

    fn key(&self) -> &[u8] {
        self.old_name.as_bytes()
    }
}

/// An old string, and the new one: an entry of `direct.properties`. Its key is the old string.
#[derive(Debug, Drop)]
pub struct DirectRule {
    source: Text,
    target: Text,
}

impl Model for DirectRule {
    ghost use Rattle.std.specs.Coded.{coded×};
    ghost use Rattle.desk_entries.specs.Exchanges.{Exchange, text_code};

    ghost Value = { Exchange };

    ghost coded = { coded× text_code text_code };

    ghost view = { λ r. (r.source, r.target) };
}

impl Keyed for DirectRule {
    ghost key_of = { λ r. r.0 };

    fn key(&self) -> &[u8] {
        self.source.as_bytes()
    }
}

impl DirectRule {
    /// The rule that exchanges one string for another. It takes no memory.
    pub fn new(source: Text, target: Text) -> DirectRule
        ensures { result ≡ (source, target) }
    {
        DirectRule { source, target }
    }

    /// The new string.
    pub fn target(&self) -> &[u8]
        ensures { result.now ≡ self.now.1 }
    {
        self.target.as_bytes()
    }

    /// Whether the new string differs from the old one.
    pub fn changes(&self) -> bool
        ensures { result ≡ alters self.now }
    {
        self.source != self.target
    }
}

impl BundleRule {
    /// The rule that updates the bundle of an old symbolic name. It takes no memory.
    pub fn new(old_name: Text, update: Update) -> BundleRule
        ensures { result ≡ (old_name, update) }
    {
        BundleRule { old_name, update }
    }

    /// The new name, and the new version where there is one.
    pub fn update(&self) -> &Update
        ensures { result.now ≡ self.now.1 }
    {
        &self.update
    }

    /// The new name.
    pub fn name(&self) -> &[u8]
        ensures { result.now ≡ self.now.1.name }
    {
        self.update.name.as_bytes()
    }

    /// Whether the new name differs from the old one.
    pub fn changes(&self) -> bool
        ensures { result ≡ renames_bundle self.now }
    {
        self.old_name != self.update.name
    }
}

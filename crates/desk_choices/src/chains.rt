//! The rule files of the two rules of a chain.

ghost use Rattle.std.specs.Prelude.{◌≡◌};
ghost use Rattle.desk_choices.specs.ChainFiles.{first_file, second_file};

use desk_rules::ChainKind;

const RENAMES: &[u8] = b"renames.properties";

const BUNDLES: &[u8] = b"bundles.properties";

const DIRECT: &[u8] = b"direct.properties";

/// The rule file of the first rule of a chain.
pub fn first_file(kind: ChainKind) -> &'static [u8]
    ensures { result.now ≡ first_file kind }
{
    match kind {
        ChainKind::RenameThenRename
        | ChainKind::RenameThenDirect
        | ChainKind::PackageThenName
        | ChainKind::NameThenPackage
        | ChainKind::PackageThenDirect => RENAMES,
        ChainKind::DirectThenDirect | ChainKind::DirectThenRename | ChainKind::DirectThenPackage =>
            DIRECT,
        ChainKind::BundleThenBundle => BUNDLES,
    }
}

/// The rule file of the second rule of a chain.
pub fn second_file(kind: ChainKind) -> &'static [u8]
    ensures { result.now ≡ second_file kind }
{
    match kind {
        ChainKind::RenameThenRename
        | ChainKind::DirectThenRename
        | ChainKind::PackageThenName
        | ChainKind::NameThenPackage
        | ChainKind::DirectThenPackage => RENAMES,
        ChainKind::RenameThenDirect | ChainKind::DirectThenDirect | ChainKind::PackageThenDirect =>
            DIRECT,
        ChainKind::BundleThenBundle => BUNDLES,
    }
}

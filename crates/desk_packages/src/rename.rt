//! One rename of packages.

ghost use Rattle.std.specs.Prelude.{◌≡◌, ◌++◌, ◌∷◌, [], IfOk, IsTrue};
ghost use Rattle.desk_base.specs.Names.{written, dot};
ghost use Rattle.desk_packages.specs.Renames.{key_of, changes, is_rename, renaming_code};
ghost use Rattle.desk_packages.specs.Keys.{byte_of, goes_below, renaming, is_of_kind, key_with};

use crate::keyed::Keyed;
use crate::{Reach, Separator};
use desk_base::{Memory, Text, TextList};
use std::alloc::Global;
use std::marker::Model;

/// A rename of packages: of its source alone, or of all packages below the source too. It keeps its
/// texts as they are asked for.
#[derive(Debug, Drop)]
pub struct PackageRename {
    source: TextList,
    target: TextList,
    reach: Reach,
    changing: bool,
    key: Text,
    slashed: Text,
    target_start: Text,
}

impl Model for PackageRename {
    ghost use Rattle.desk_packages.specs.Renames.{Renaming, renaming_code};
    ghost use Rattle.desk_packages.specs.Keys.{IsSpelled, goes_below};

    ghost Value = { Renaming };

    ghost coded = { renaming_code };

    ghost view = { λ r. record { source = r.source; target = r.target; below = goes_below r.reach } };

    ghost invariant = { λ r. IsSpelled (record { source = r.source; target = r.target; below = goes_below r.reach }) r.changing r.key r.slashed r.target_start };
}

/// The segments of a package with a separator between each two. The only error is want of memory.
fn joined(alloc: Global, segments: &[Text], separator: Separator) -> Result<Text, Memory>
    ensures { IfOk result (λ text. text ≡ written (byte_of separator) segments.now) }
{
    let mut text = Text::empty(alloc);
    for (i, segment) in segments.iter().enumerate() {
        if i > 0 {
            text.push(separator.byte())?;
        }
        text.append(segment.as_bytes())?;
    }
    Ok(text)
}

/// The key of a rename of a source that is written with dots. The only error is want of memory.
fn key_for(alloc: Global, source: &[Text], reach: Reach) -> Result<Text, Memory>
    ensures { IfOk result (λ key. key ≡ key_with source.now (goes_below reach)) }
{
    let mut key = joined(alloc, source, Separator::Dot)?;
    if reach == Reach::Below {
        key.append(b".*")?;
    }
    Ok(key)
}

/// A package with dots, and a dot behind it. The only error is want of memory.
fn start_of(alloc: Global, package: &[Text]) -> Result<Text, Memory>
    ensures { IfOk result (λ start. start ≡ written dot «package».now ++ 46 ∷ []) }
{
    let mut start = joined(alloc, package, Separator::Dot)?;
    start.push(b'.')?;
    Ok(start)
}

impl PackageRename {
    /// The rename of one package to another. The only error is want of memory.
    pub fn new(
        alloc: Global,
        source: TextList,
        target: TextList,
        reach: Reach,
    ) -> Result<PackageRename, Memory>
        requires { IsTrue (is_rename (renaming source target (goes_below reach))) }
        ensures { IfOk result (λ rename. rename ≡ renaming source target (goes_below reach)) }
    {
        Ok(PackageRename {
            reach,
            changing: source.as_slice() != target.as_slice(),
            key: key_for(alloc, source.as_slice(), reach)?,
            slashed: joined(alloc, source.as_slice(), Separator::Slash)?,
            target_start: start_of(alloc, target.as_slice())?,
            source,
            target,
        })
    }

    /// Whether it renames the packages below its source too.
    pub fn is_below(&self) -> bool
        ensures { result ≡ self.now.below }
    {
        self.reach == Reach::Below
    }

    /// Whether the target differs from the source.
    pub fn changes(&self) -> bool
        ensures { result ≡ changes self.now }
    {
        self.changing
    }

    /// The segments of the package that is renamed.
    pub fn source(&self) -> &[Text]
        ensures { result.now ≡ self.now.source }
    {
        self.source.as_slice()
    }

    /// The segments of the package that it becomes.
    pub fn target(&self) -> &TextList
        ensures { result.now ≡ self.now.target }
    {
        &self.target
    }

    /// The segments of the target, as a slice.
    pub fn target_segments(&self) -> &[Text]
        ensures { result.now ≡ self.now.target }
    {
        self.target.as_slice()
    }

    /// The package that is renamed, written with dots.
    pub fn dotted_source(&self) -> &[u8]
        ensures { result.now ≡ written dot self.now.source }
    {
        let key = self.key.as_bytes();
        if self.reach == Reach::Below {
            &key[..key.len() - 2]
        } else {
            key
        }
    }

    /// The package that is renamed, as it is written with a separator.
    pub fn source_text(&self, separator: Separator) -> &[u8]
        ensures { result.now ≡ written (byte_of separator) self.now.source }
    {
        match separator {
            Separator::Dot => self.dotted_source(),
            Separator::Slash => self.slashed.as_bytes(),
        }
    }

    /// The package that it becomes, written with dots.
    pub fn dotted_target(&self) -> &[u8]
        ensures { result.now ≡ written dot self.now.target }
    {
        let start = self.target_start.as_bytes();
        &start[..start.len() - 1]
    }

    /// The target with dots, and a dot behind it, as what lies below it begins.
    pub fn target_start(&self) -> &[u8]
        ensures { result.now ≡ written dot self.now.target ++ 46 ∷ [] }
    {
        self.target_start.as_bytes()
    }

    /// Whether it is a rename of this reach.
    pub fn has(&self, reach: Reach) -> bool
        ensures { result ≡ is_of_kind (goes_below reach) self.now }
    {
        self.reach == reach
    }

    /// Recalls what every rename promises by its type, for a proof: source and target are packages. It does nothing.
    pub fn recall_form(&self)
        ensures formed { IsTrue (is_rename self.now) }
    {
        let _ = &self.source;
    }
}

impl Keyed for PackageRename {
    ghost use Rattle.desk_packages.specs.Renames.{key_of as key_of_rename};

    ghost key_of = { key_of_rename };

    /// The key in the file: `a.b`, or `a.b.*`.
    fn key(&self) -> &[u8] {
        self.key.as_bytes()
    }
}

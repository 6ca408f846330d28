//! A name and what it becomes.

ghost use Rattle.std.specs.Prelude.{◌≡◌, IfOk, map, not};
ghost use Rattle.std.specs.Str.{bytes_eq};
ghost use Rattle.desk_rename.specs.Images.{cls};
ghost use Rattle.desk_graph.specs.Application.{with_image};

use crate::name::Name;
use desk_base::{Memory, Text};
use desk_packages::Keyed;
use desk_rename::rename_class;
use desk_rules::RuleSet;
use std::alloc::Global;
use std::marker::Model;

/// A class name with its image, which is kept only where it is another text. Contracts see both.
#[derive(Debug, Drop)]
pub struct NameAndImage {
    name: Text,
    image: Option<Box<Text>>,
}

impl Model for NameAndImage {
    ghost use Rattle.std.specs.Prelude.{unwrap_or, option_map};
    ghost use Rattle.std.specs.Coded.{coded×};
    ghost use Rattle.desk_base.specs.Names.{Text as Bytes};
    ghost use Rattle.desk_rules.specs.Rules.{text_code};
    ghost use Rattle.desk_graph.specs.Tables.{IsOther};

    ghost Value = { Bytes × Bytes };

    ghost coded = { coded× text_code text_code };

    ghost view = { λ k. (k.name, unwrap_or (option_map (λ image. image.value) k.image) k.name) };

    ghost invariant = { λ k. IsOther k.name (option_map (λ image. image.value) k.image) };
}

impl NameAndImage {
    /// A name, which is copied, with its image. The only error is want of memory.
    pub fn new(alloc: Global, rules: &RuleSet, name: &[u8]) -> Result<NameAndImage, Memory>
        ensures { IfOk result (λ known. known ≡ with_image (cls rules.now.renames) name.now) }
    {
        let image = match rename_class(alloc, rules, name)? {
            Some(image) => Some(Box::new(alloc, image)?),
            None => None,
        };
        let name = Text::from_bytes(alloc, name)?;
        Ok(NameAndImage { name, image })
    }

    /// The class name, with `/` between packages.
    pub fn name(&self) -> &[u8]
        ensures { result.now ≡ self.now.0 }
    {
        self.name.as_bytes()
    }

    /// The class name that it becomes; the name itself where no rule changes it.
    pub fn image(&self) -> &[u8]
        ensures { result.now ≡ self.now.1 }
    {
        match &self.image {
            Some(image) => image.as_bytes(),
            None => self.name.as_bytes(),
        }
    }

    /// Whether a rule changes the name.
    pub fn changes(&self) -> bool
        ensures { result ≡ not (bytes_eq self.now.1 self.now.0) }
    {
        self.image.is_some()
    }
}

impl Keyed for NameAndImage {
    ghost key_of = { λ k. k.0 };

    /// The class name.
    fn key(&self) -> &[u8] {
        self.name.as_bytes()
    }
}

/// Names with their images. Each is copied once. The only error is want of memory.
pub fn known_of(
    alloc: Global,
    rules: &RuleSet,
    names: Vec<Name<'_>>,
) -> Result<Vec<NameAndImage>, Memory>
    ensures { IfOk result (λ list. list.items ≡ map (with_image (cls rules.now.renames)) names.entry.items) }
{
    let mut list = Vec::with_capacity(alloc, names.len())?;
    for name in names {
        list.push(NameAndImage::new(alloc, rules, name.bytes())?)?;
    }
    Ok(list)
}

//! Images of class names that are known.

ghost use Rattle.std.specs.Prelude.{◌≡◌, IfSome, IsNone, List};
ghost use Rattle.desk_packages.specs.Renames.{Renaming};
ghost use Rattle.desk_rename.specs.Images.{cls};

use desk_rules::RuleSet;
use std::marker::Model;

/// Images of class names under the renames that they were made under. No call takes memory.
pub trait Images {
    /// The renames that the images are made under.
    ghost renames: { Self → List Renaming };

    /// The image of the name of a class or an array, where it is known.
    fn image_of(&self, name: &[u8]) -> Option<&[u8]>
        ensures { IfSome result (λ image. image.now ≡ cls (renames self.now) name.now) };
}

/// No images are known. Contracts see the renames.
#[derive(Drop)]
pub struct NoImages<'r> {
    rules: &'r RuleSet,
}

impl<'r> Model for NoImages<'r> {
    ghost use Rattle.std.specs.Prelude.{List};
    ghost use Rattle.desk_packages.specs.Renames.{Renaming};

    ghost Value = { List Renaming };

    ghost view = { λ n. n.rules.now.renames };
}

impl<'r> NoImages<'r> {
    /// No images under a rule set. It takes no memory.
    pub fn new(rules: &'r RuleSet) -> NoImages<'r>
        ensures { result ≡ rules.entry.now.renames }
    {
        NoImages { rules }
    }
}

impl Images for NoImages<'_> {
    ghost renames = { λ renames. renames };

    fn image_of(&self, _name: &[u8]) -> Option<&[u8]>
        ensures known { IfSome result (λ image. image.now ≡ cls self.now _name.now) }
        ensures none { IsNone result }
    {
        None
    }
}

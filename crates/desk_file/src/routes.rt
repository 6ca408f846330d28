//! Where a file goes, and how it is treated there.

ghost use Rattle.std.specs.Prelude.{◌≡◌, true, IfOk, IsTrue};
ghost use Rattle.desk_base.specs.Paths.{is_relative_path};
ghost use Rattle.desk_file.specs.Routes.{route_of};

use crate::treatments::{Treatment, treatment_by};
use desk_base::{Memory, Text};
use desk_paths::CutPath;
use desk_rules::RuleSet;
use std::alloc::Global;

/// A file of the source: its path, its target, and how it is treated.
#[derive(Clone, Debug, Drop)]
pub struct Route {
    /// Its path, relative to the root of the source.
    pub path: Text,
    /// The path of its target, relative to the root of the target.
    pub target: Text,
    /// What makes its image, or that it is copied.
    pub treatment: Treatment,
}

/// The route of a file, by its path and the rules: its path is cut once, and they are asked once whether they select it. The
/// target of a relative path is a relative path. The only error is want of memory.
pub fn route_of(alloc: Global, rules: &RuleSet, path: Text) -> Result<Route, Memory>
    requires { IsTrue (is_relative_path path) }
    ensures route { IfOk result (λ route. route ≡ route_of rules.now path) }
    ensures relative { IfOk result (λ route. is_relative_path route.target ≡ true) }
{
    let selected = rules.selected(path.as_bytes());
    let cut = CutPath::of(path.as_bytes());
    let target = cut.target(alloc, rules, selected)?;
    // A copy has no room to spare, and is kept to the end of the run.
    let target = Text::from_bytes(alloc, target.as_bytes())?;
    let treatment = treatment_by(rules, selected, cut.kind(), &path, &target);
    Ok(Route {
        path,
        target,
        treatment,
    })
}

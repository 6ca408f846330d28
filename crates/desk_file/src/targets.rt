//! Where files go.

ghost use Rattle.std.specs.Prelude.{◌≡◌, IfOk, IsTrue};
ghost use Rattle.desk_base.specs.Paths.{is_relative_path};
ghost use Rattle.desk_file.specs.Images.{target};

use desk_base::{Memory, Text};
use desk_paths::target;
use desk_rules::RuleSet;
use std::alloc::Global;

/// Where a file goes. The target of a relative path is a relative path. The only error is want of
/// memory.
#[tactic(auto, unfolding(crate::specs::Images::target))]
pub fn target_of(alloc: Global, rules: &RuleSet, path: &Text) -> Result<Text, Memory>
    ensures target { IfOk result (λ found. found ≡ target rules.now path.now) }
    ensures relative { IfOk result (λ found. IsTrue (is_relative_path path.now) → IsTrue (is_relative_path found)) }
{
    target(alloc, rules, path.as_bytes())
}

//! The graph of the names of classes.

ghost use Rattle.std.specs.Prelude.{◌≡◌, ◌<◌, ◌^◌, None, IfOk, IfErr, OnOk, length};
ghost use Rattle.desk_graph.specs.Graphs.{graph_of};
ghost use Rattle.desk_rename.specs.Images.{cls};
ghost use Rattle.desk_intake.specs.Standing.{names_answer};
ghost use Rattle.desk_intake.specs.Halts.{HaltsAtNames};

use crate::halts::Halt;
use desk_graph::{ClassGraph, Scanned};
use desk_rules::RuleSet;
use std::alloc::Global;

/// The graph of the classes of an application. The answer is `NameClash` where a defined name and another would become one, and else
/// `Stranded` where a class that isn't selected holds a defined name that changes. The only other halt is want of memory.
pub fn build_graph<'r>(
    alloc: Global,
    rules: &'r RuleSet,
    classes: Vec<Scanned>,
) -> Result<ClassGraph<'r>, Halt>
    requires { length classes.items < 2 ^ 32 }
    ensures graph { IfOk result (λ graph. graph ≡ graph_of rules.entry.now classes.items) }
    ensures clear { OnOk result (names_answer (cls rules.entry.now.renames) classes.items ≡ None) }
    ensures err { IfErr result (HaltsAtNames (names_answer (cls rules.entry.now.renames) classes.items)) }
{
    Ok(ClassGraph::build(alloc, classes, rules)?)
}

//! What is kept of a class.

ghost use Rattle.std.specs.Prelude.{◌≡◌, Ok, IfOk};
ghost use Rattle.desk_format.specs.Classes.{Class, read_class};
ghost use Rattle.desk_graph.specs.Scans.{scan_of};
ghost use Rattle.desk_graph.specs.Alike.{AreAlike};

use desk_base::{Memory, Text};
use desk_class::{ClassView, HeldNames};
use std::alloc::Global;

/// A class of an application: where it stands, whether it is selected, its name, and the class names that it holds.
#[derive(Debug, Drop)]
pub struct Scanned {
    /// The path of the class file, relative to the root of the source.
    pub path: Text,
    /// Whether the rules select that path.
    pub selected: bool,
    /// Its name, with `/` between packages, as `this_class` gives it (JVMS 4.1).
    pub name: Text,
    /// Each class name that it holds, once, in the order in which they first stand in it.
    pub held: HeldNames,
}

/// What is kept of the class at a path. It holds each class name once, in the order in which
/// they first stand in the class. The only error is want of memory.
pub fn scan(
    alloc: Global,
    path: &Text,
    selected: bool,
    view: &ClassView<'_>,
) -> Result<Scanned, Memory>
    ensures { IfOk result (λ s. (c : Class) → read_class view.now ≡ Ok c → s ≡ scan_of path.now selected c) }
{
    let path = Text::from_bytes(alloc, path.as_bytes())?;
    let name = Text::from_bytes(alloc, view.name())?;
    let held = view.held_names(alloc)?;
    Ok(Scanned {
        path,
        selected,
        name,
        held,
    })
}

/// Names, copied. The only error is want of memory.
fn copied_names(alloc: Global, held: &HeldNames) -> Result<HeldNames, Memory>
    ensures { IfOk result (λ copy. copy ≡ held.now) }
{
    let mut names = Vec::with_capacity(alloc, held.len())?;
    for place in 0..held.len() {
        names.push(held.get(place))?;
    }
    HeldNames::of(alloc, &names)
}

impl Scanned {
    /// A copy in memory that the calling thread takes, whichever took that of the class. The only error is want of memory.
    pub fn copied(&self, alloc: Global) -> Result<Scanned, Memory>
        ensures { IfOk result (λ copy. copy ≡ self.now) }
    {
        Ok(Scanned {
            path: self.path.clone()?,
            selected: self.selected,
            name: self.name.clone()?,
            held: copied_names(alloc, &self.held)?,
        })
    }
}

/// Classes without the paths of those that are selected, of which nothing is told. Their memory is free then.
pub fn without_paths(alloc: Global, classes: Vec<Scanned>) -> Vec<Scanned>
    ensures { AreAlike result.items classes.items }
{
    let mut kept = classes;
    for place in 0..kept.len() {
        if kept[place].selected {
            kept[place].path = Text::empty(alloc);
        }
    }
    kept
}

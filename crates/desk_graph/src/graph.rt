//! The graph of an application's classes.

ghost use Rattle.std.specs.Prelude.{◌≡◌, ◌<◌, ◌^◌, length, None, MatchOption, OnOk, IfOk, IfErr, IfSome, Contains};
ghost use Rattle.desk_packages.specs.Keys.{IsNowhere, IsPlaceOf};
ghost use Rattle.desk_rename.specs.Images.{cls};
ghost use Rattle.desk_graph.specs.Application.{name_clash, stranded, OneImage, NoneStranded};
ghost use Rattle.desk_graph.specs.Graphs.{graph_of, links_of};
ghost use Rattle.desk_graph.specs.Tables.{as_is};
ghost use Rattle.desk_graph.specs.Refusals.{Refuses};
ghost use Rattle.desk_graph.specs.declared.graph.GraphFault.TheVariants as graph_faults;

use crate::clashes::first_clash;
use crate::counts::count_links;
use crate::known::{NameAndImage, known_of};
use crate::names::{all_names, defined_in, held_in_order};
use crate::nodes::{node_in, nodes_of};
use crate::scanned::{Scanned, without_paths};
use crate::stranded::first_stranded;
use desk_base::{Memory, Text};
use desk_class::ClassView;
use desk_packages::place_of;
use desk_rename::Images;
use desk_rules::RuleSet;
use std::alloc::Global;
use std::marker::Model;

/// Why an application has no graph.
#[derive(Debug, Drop)]
pub enum GraphFault {
    /// A defined name shares its image with another name.
    NameClash {
        defined: Text,
        other: Text,
        image: Text,
    },
    /// The class at a path, which isn't selected, holds a defined name that changes.
    Stranded {
        path: Text,
        name: Text,
    },
    /// Memory ran out.
    Memory,
}

impl From<Memory> for GraphFault {
    ghost from_gives = { λ _ fault. fault ≡ graph_faults.Memory };

    fn from(_: Memory) -> GraphFault {
        GraphFault::Memory
    }
}

/// The names of an application under a rule set: those that its classes define, and all names with their images. Contracts
/// see the rules, both lists of names, and how many defined names each class holds. No call but `build` and `links` takes
/// memory.
#[derive(Drop)]
pub struct ClassGraph<'r> {
    rules: &'r RuleSet,
    known: Vec<NameAndImage>,
    nodes: Vec<Option<u32>>,
    counts: Vec<u32>,
}

impl<'r> Model for ClassGraph<'r> {
    ghost use Rattle.desk_graph.specs.Nodes.{defined_of, firsts};
    ghost use Rattle.desk_graph.specs.Graphs.{Graph, graph_code, IsGraph};

    ghost Value = { Graph };

    ghost coded = { graph_code };

    ghost view = { λ g. record { rules = g.rules.now; defined = defined_of (firsts g.known.items) g.nodes.items; names = firsts g.known.items; link_counts = g.counts.items } };

    ghost invariant = { λ g. IsGraph g.rules.now.renames g.known.items g.nodes.items };
}

impl<'r> ClassGraph<'r> {
    /// The graph of an application's classes under a rule set, in which no defined name shares its image with another name,
    /// and no unselected class holds a defined name that changes. The errors are, in this order, the first two names that
    /// would become one, the first class that would be left behind, and want of memory.
    pub fn build(
        alloc: Global,
        scanned: Vec<Scanned>,
        rules: &'r RuleSet,
    ) -> Result<ClassGraph<'r>, GraphFault>
        requires { length scanned.items < 2 ^ 32 }
        ensures graph { IfOk result (λ graph. graph ≡ graph_of rules.entry.now scanned.items) }
        ensures no_clash { OnOk result (name_clash (cls rules.entry.now.renames) scanned.items ≡ None) }
        ensures none_stranded { OnOk result (stranded (cls rules.entry.now.renames) scanned.items ≡ None) }
        ensures fault { IfErr result (Refuses (cls rules.entry.now.renames) scanned.items) }
        ensures one_image { OnOk result (OneImage (cls rules.entry.now.renames) scanned.items) }
        ensures stays { OnOk result (NoneStranded (cls rules.entry.now.renames) scanned.items) }
    {
        let kept = without_paths(alloc, scanned);
        let classes = kept.as_slice();
        let names = all_names(alloc, classes)?;
        let defined = defined_in(alloc, classes)?;
        let nodes = nodes_of(alloc, names.as_slice(), &defined)?;
        let known = known_of(alloc, rules, names)?;
        if let Some(clash) = first_clash(alloc, known.as_slice(), nodes.as_slice())? {
            return Err(GraphFault::NameClash {
                defined: Text::from_bytes(alloc, clash.defined.name())?,
                other: Text::from_bytes(alloc, clash.other.name())?,
                image: Text::from_bytes(alloc, clash.defined.image())?,
            });
        }
        if let Some(one) = first_stranded(known.as_slice(), nodes.as_slice(), classes) {
            return Err(GraphFault::Stranded {
                path: Text::from_bytes(alloc, one.path.as_bytes())?,
                name: Text::from_bytes(alloc, one.name)?,
            });
        }
        let counts = count_links(alloc, &defined, classes)?;
        Ok(ClassGraph {
            rules,
            known,
            nodes,
            counts,
        })
    }

    /// The rules under which the names have their images.
    pub fn rules(&self) -> &'r RuleSet
        ensures { result.now ≡ self.now.rules }
    {
        self.rules
    }

    /// Of each class of the application, in the order in which they were given, how many defined names it holds, its own
    /// included.
    pub fn link_counts(&self) -> &[u32]
        ensures { result.now ≡ self.now.link_counts }
    {
        self.counts.as_slice()
    }

    /// The place of a defined name among the defined names in byte order, each counted once; none exactly where the name is
    /// not defined.
    pub fn node_of(&self, name: &[u8]) -> Option<u32>
        ensures { MatchOption result (IsNowhere as_is self.now.defined name.now) (IsPlaceOf as_is self.now.defined name.now) }
    {
        node_in(self.known.as_slice(), self.nodes.as_slice(), name)
    }

    /// The nodes of the defined names that a class holds, its own included, ascending, each once. The only error is want of
    /// memory.
    pub fn links(&self, alloc: Global, view: &ClassView<'_>) -> Result<Vec<u32>, Memory>
        ensures links { IfOk result (λ links. links.items ≡ links_of self.now.defined view.now) }
        ensures few { IfOk result (λ links. length links.items < 2 ^ 32) }
    {
        let known = self.known.as_slice();
        let nodes = self.nodes.as_slice();
        let held = view.held_names(alloc)?;
        let names = held_in_order(alloc, &held)?;
        let mut links = Vec::new(alloc);
        for name in names.as_slice() {
            if let Some(place) = node_in(known, nodes, name.bytes()) {
                links.push(place)?;
            }
        }
        Ok(links)
    }
}

impl Images for ClassGraph<'_> {
    ghost renames = { λ g. g.rules.renames };

    /// The image of a name of the application; none exactly where the name is none of it.
    fn image_of(&self, name: &[u8]) -> Option<&[u8]>
        ensures image { IfSome result (λ image. image.now ≡ cls self.now.rules.renames name.now) }
        ensures known { MatchOption result (IsNowhere as_is self.now.names name.now) (λ _. Contains self.now.names name.now) }
    {
        match place_of(self.known.as_slice(), name) {
            Some(place) => Some(self.known[place].image()),
            None => None,
        }
    }
}

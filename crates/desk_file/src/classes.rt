//! The image of a class.

ghost use Rattle.std.specs.Prelude.{◌≡◌, ◌≤◌, Ok, IfOk, IfErr, length};
ghost use Rattle.desk_base.specs.Limits.{file_size};
ghost use Rattle.desk_file.specs.Faults.{IsFaultOf};
ghost use Rattle.desk_file.specs.Classes.{class_image};
ghost use Rattle.desk_file.specs.Linked.{linked_class, with_links};
ghost use Rattle.desk_file.specs.NewClasses.{IsNewClassOf};
ghost use Rattle.desk_graph.specs.Graphs.{links_of};

use crate::images::{FileFault, Image};
use desk_base::{Memory, ReadFault};
use desk_class::ClassView;
use desk_graph::ClassGraph;
use desk_rename::NoImages;
use desk_report::{Detail, Reason};
use desk_rewrite::{RewriteFault, Rewritten, rewrite};
use desk_rules::RuleSet;
use std::alloc::Global;

impl From<ReadFault> for FileFault {
    ghost use Rattle.desk_file.specs.Faults.{read_fault};

    ghost from_gives = { λ why fault. fault ≡ read_fault why };

    fn from(why: ReadFault) -> FileFault {
        match why {
            ReadFault::Malformed(fault) => FileFault::Refused(Reason::Malformed(fault)),
            ReadFault::Memory => FileFault::Memory,
        }
    }
}

impl From<RewriteFault> for FileFault {
    ghost use Rattle.desk_file.specs.Faults.{file_fault};

    ghost from_gives = { λ why fault. fault ≡ file_fault why };

    fn from(why: RewriteFault) -> FileFault {
        match why {
            RewriteFault::Overlong { index, length } => {
                FileFault::Refused(Reason::Overlong { index, length })
            }
            RewriteFault::PoolFull { count, needed } => {
                FileFault::Refused(Reason::PoolFull { count, needed })
            }
            RewriteFault::Twins { first, second } => {
                FileFault::Refused(Reason::Twins { first, second })
            }
            RewriteFault::Memory => FileFault::Memory,
        }
    }
}

/// How many defined names of the application a class holds, its own included.
fn count_links(alloc: Global, graph: &ClassGraph<'_>, view: &ClassView<'_>) -> Result<u32, Memory>
    ensures { IfOk result (λ count. count ≡ length (links_of graph.now.defined view.now)) }
{
    let links = graph.links(alloc, view)?;
    Ok(links.len() as u32)
}

/// The image of a class that was read, under a rule set, with so many links in its detail.
fn image_of_view(
    alloc: Global,
    rules: &RuleSet,
    view: &ClassView<'_>,
    links: u32,
) -> Result<Image, FileFault>
    ensures ok { IfOk result (λ found. with_links links (class_image rules.now view.now) ≡ Ok found) }
    ensures class { IfOk result (λ found. IsNewClassOf rules.now view.now found.bytes) }
    ensures err { IfErr result (IsFaultOf (with_links links (class_image rules.now view.now))) }
{
    // `bytes` says that they are a well-formed class.
    let _class = view.bytes();
    let new = rewrite(alloc, rules, &NoImages::new(rules), view)?;
    let Rewritten {
        bytes,
        renamed,
        added,
        odd,
    } = new;
    Ok(Image {
        bytes,
        detail: Detail::Class {
            renamed,
            added,
            odd,
            links,
        },
    })
}

/// The image of a class of at most 67,108,864 bytes under a rule set: the new class, in which each use of a text has the image of the
/// text, and all else stays. Its detail has so many links, which is how many defined names of its application the class holds, where
/// that is known. `Refused` comes exactly where there is none: `Malformed` with the first fault of bytes that are no well-formed class,
/// else `Overlong`, `PoolFull` or `Twins`, in this order. The only other error is want of memory.
#[tactic(auto, using(crate::proofs::ClassImages::malformed, crate::proofs::ClassImages::linked_fault))]
pub fn migrate_class(
    alloc: Global,
    rules: &RuleSet,
    bytes: &[u8],
    links: u32,
) -> Result<Image, FileFault>
    requires { length bytes.now ≤ file_size }
    ensures ok { IfOk result (λ found. with_links links (class_image rules.now bytes.now) ≡ Ok found) }
    ensures class { IfOk result (λ found. IsNewClassOf rules.now bytes.now found.bytes) }
    ensures err { IfErr result (IsFaultOf (with_links links (class_image rules.now bytes.now))) }
{
    let view = ClassView::read(alloc, bytes)?;
    image_of_view(alloc, rules, &view, links)
}

/// The image of a class of at most 67,108,864 bytes in the application of a graph, under its rules: the new class, in which each
/// use of a text has the image of the text, and all else stays. `Refused` comes exactly where there is none: `Malformed` with the
/// first fault of bytes that are no well-formed class, else `Overlong`, `PoolFull` or `Twins`, in this order. The only other error
/// is want of memory.
#[tactic(auto, using(crate::proofs::ClassImages::malformed, crate::proofs::ClassImages::linked_fault))]
pub(crate) fn class_image(
    alloc: Global,
    graph: &ClassGraph<'_>,
    bytes: &[u8],
) -> Result<Image, FileFault>
    requires { length bytes.now ≤ file_size }
    ensures ok { IfOk result (λ found. linked_class graph.now.rules graph.now.defined bytes.now ≡ Ok found) }
    ensures class { IfOk result (λ found. IsNewClassOf graph.now.rules bytes.now found.bytes) }
    ensures err { IfErr result (IsFaultOf (linked_class graph.now.rules graph.now.defined bytes.now)) }
{
    let view = ClassView::read(alloc, bytes)?;
    let links = count_links(alloc, graph, &view)?;
    image_of_view(alloc, graph.rules(), &view, links)
}

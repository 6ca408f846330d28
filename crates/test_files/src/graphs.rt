//! Graphs of classes.

ghost use Rattle.std.specs.Prelude.{◌≡◌, IfOk};

use crate::told;
use crate::words::{content, word};
use desk_base::{Memory, Text};
use desk_class::ClassView;
use desk_graph::{ClassGraph, GraphFault, Scanned};
use desk_rename::Images;
use desk_rules::RuleSet;
use std::alloc::Global;

/// How many classes a case may have.
const MOST: usize = 100_000;

/// The graph of classes, or why there is none.
pub fn graph_of(
    alloc: Global,
    rules: &RuleSet,
    classes: Vec<Scanned>,
) -> Result<ClassGraph<'_>, GraphFault>
    ensures { IfOk result (λ graph. graph.rules ≡ rules.entry.now) }
{
    if classes.len() > MOST {
        return Err(GraphFault::Memory);
    }
    ClassGraph::build(alloc, classes, rules)
}

/// Tells why classes have no graph.
pub fn tell_fault(fault: &GraphFault, out: &mut String) -> Result<(), Memory> {
    match fault {
        GraphFault::NameClash {
            defined,
            other,
            image,
        } => told::words(
            out,
            "clash",
            &[defined.as_bytes(), other.as_bytes(), image.as_bytes()],
        ),
        GraphFault::Stranded { path, name } => {
            told::words(out, "stranded", &[path.as_bytes(), name.as_bytes()])
        }
        GraphFault::Memory => told::text(out, "out of memory"),
    }
}

/// Tells the image of a name.
fn tell_image(graph: &ClassGraph<'_>, name: &[u8], out: &mut String) -> Result<(), Memory> {
    match graph.image_of(name) {
        Some(image) => told::bytes(out, image),
        None => told::text(out, "none"),
    }
}

/// Workers share one graph.
fn shared<T: Sync>(value: &T) -> &T {
    value
}

/// Tells the nodes of the names that a class holds.
fn tell_links(
    alloc: Global,
    graph: &ClassGraph<'_>,
    words: &[Text],
    out: &mut String,
) -> Result<(), Memory> {
    match ClassView::read(alloc, content(words, 1)) {
        Ok(view) => told::value(out, &graph.links(alloc, &view)?),
        Err(fault) => told::value(out, &fault),
    }
}

/// Tells what a graph says: the words are what is asked, and of what.
fn tell_answer(
    alloc: Global,
    graph: &ClassGraph<'_>,
    words: &[Text],
    out: &mut String,
) -> Result<(), Memory> {
    match word(words, 0) {
        b"image" => tell_image(graph, word(words, 1), out),
        b"node" => told::value(out, &shared(graph).node_of(word(words, 1))),
        _ => tell_links(alloc, graph, words, out),
    }
}

/// Tells that a graph was built, and what it says to each question.
pub fn tell_graph(
    alloc: Global,
    graph: &ClassGraph<'_>,
    words: &[Text],
    out: &mut String,
) -> Result<(), Memory> {
    told::text(out, "built")?;
    for question in words.chunks_exact(2) {
        tell_answer(alloc, graph, question, out)?;
    }
    Ok(())
}

//! Files under rules.

ghost use Rattle.std.specs.Prelude.{◌≤◌, length};
ghost use Rattle.desk_base.specs.Limits.{file_size};

use crate::told;
use crate::words::{content, word};
use desk_base::{Memory, Text};
use desk_file::{Image, Route, is_whole, migrate_file, route_of, target_of, treatment_of};
use desk_folders::is_relative;
use desk_graph::ClassGraph;
use desk_rules::RuleSet;
use std::alloc::Global;
use test_cases::Shown;

/// Tells where a file goes, how it is treated there, and by both calls whether it is read whole.
pub fn tell_treatment(
    alloc: Global,
    rules: &RuleSet,
    path: &[u8],
    out: &mut String,
) -> Result<(), Memory> {
    let path = Text::from_bytes(alloc, path)?;
    let target = target_of(alloc, rules, &path)?;
    let treatment = treatment_of(rules, &path, &target);
    let whole = [is_whole(rules, &path, &target), treatment.is_whole()];
    let to = Shown(target.as_bytes());
    Ok(writeln!(out, "  {to} {treatment:?} {whole:?}")?)
}

/// Tells a target, what an image is made of, and its bytes.
fn tell_image(target: &[u8], image: &Image, out: &mut String) -> Result<(), Memory> {
    let (to, bytes) = (Shown(target), Shown(image.bytes.as_bytes()));
    Ok(writeln!(out, "  {to} {:?} {bytes}", image.detail)?)
}

/// Tells what becomes of a file along its route, in the application of a graph.
fn tell_routed(
    alloc: Global,
    graph: &ClassGraph<'_>,
    route: &Route,
    bytes: &[u8],
    out: &mut String,
) -> Result<(), Memory>
    requires { length bytes.now ≤ file_size }
{
    match migrate_file(alloc, graph, route, bytes) {
        Ok(image) => tell_image(route.target.as_bytes(), &image, out),
        Err(fault) => told::value(out, &fault),
    }
}

/// Tells what becomes of a file in the application of a graph: the words are its path and its bytes.
pub fn tell_file(
    alloc: Global,
    graph: &ClassGraph<'_>,
    words: &[Text],
    out: &mut String,
) -> Result<(), Memory> {
    let path = word(words, 0);
    if !is_relative(path) {
        return told::text(out, "not a relative path");
    }
    let route = route_of(alloc, graph.rules(), Text::from_bytes(alloc, path)?)?;
    tell_routed(alloc, graph, &route, content(words, 1), out)
}

//! What is noted of the files of the application that is migrated, before any of them is.

ghost use Rattle.std.specs.Prelude.{All, ◌≡◌, ◌≤◌, ◌++◌, IfOk, OnOk, is_some, length, map, true};
ghost use Rattle.desk_comparison.specs.Files.{IsNoted, KeepsBytes, scans_of, source_of};
ghost use Rattle.desk_file.specs.ClassScans.{odd_in, scanned_in};
ghost use Rattle.desk_readings.specs.Readings.{scanned_route};

use crate::reading::SourceFile;
use desk_base::Memory;
use desk_file::{NotedClass, note_class};
use desk_graph::Scanned;
use desk_rules::RuleSet;
use std::alloc::Global;

/// A file, and whether it is known to keep its bytes.
#[derive(Debug, Drop)]
pub struct NotedFile {
    /// The file.
    pub file: SourceFile,
    /// Whether it is a class that is known to be its own image.
    pub unchanged: bool,
}

/// The files of an application, with what was noted of them.
#[derive(Debug, Drop)]
pub struct NotedFiles {
    /// The files, in their order.
    pub files: Vec<NotedFile>,
    /// What is kept of the classes among them for the graph: of each well-formed one its path, its name and the names that it
    /// holds.
    pub classes: Vec<Scanned>,
}

/// What is noted of a file; nothing where it is no well-formed class.
fn note_file(
    alloc: Global,
    rules: &RuleSet,
    file: &SourceFile,
) -> Result<Option<NotedClass>, Memory>
    ensures scanned { IfOk result (λ found. scanned_in found ≡ scanned_route file.now.route file.now.content) }
    ensures unchanged { IfOk result (λ found. is_some (odd_in found) ≡ true → KeepsBytes rules.now file.now) }
{
    if !file.route.treatment.is_class() {
        return Ok(None);
    }
    let selected = file.route.treatment.is_selected_class();
    note_class(
        alloc,
        rules,
        &file.route.path,
        selected,
        file.content.as_bytes(),
    )
}

/// Whether a class is noted as one in which nothing changes.
fn is_unchanged(class: &Option<NotedClass>) -> bool
    ensures { result ≡ is_some (odd_in class.now) }
{
    match class {
        Some(class) => class.odd.is_some(),
        None => false,
    }
}

/// Adds what is kept of a class for the graph, if it is one.
fn add_class(classes: &mut Vec<Scanned>, class: Option<NotedClass>) -> Result<(), Memory>
    ensures { OnOk result (classes.new.items ≡ classes.old.items ++ scanned_in class) }
{
    if let Some(class) = class {
        classes.push(class.scanned)?;
    }
    Ok(())
}

/// Notes of each file what is known of it before any is migrated. Each class is read once for that. The only error is want of memory.
pub(crate) fn note_files(
    alloc: Global,
    rules: &RuleSet,
    files: Vec<SourceFile>,
) -> Result<NotedFiles, Memory>
    ensures files { IfOk result (λ noted. map source_of noted.files.items ≡ files.items) }
    ensures noted { IfOk result (λ noted. All (IsNoted rules.now) noted.files.items) }
    ensures classes { IfOk result (λ noted. noted.classes.items ≡ scans_of files.items) }
    ensures few { IfOk result (λ noted. length noted.classes.items ≤ length files.items) }
{
    let mut kept = Vec::new(alloc);
    let mut classes = Vec::new(alloc);
    for file in files {
        let class = note_file(alloc, rules, &file)?;
        let unchanged = is_unchanged(&class);
        add_class(&mut classes, class)?;
        kept.push(NotedFile { file, unchanged })?;
    }
    Ok(NotedFiles {
        files: kept,
        classes,
    })
}

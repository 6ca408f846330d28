//! Classes that are made up, or that a list names; what is kept of them; and their graph. It prints a number of what came out.
//!
//! ```text
//! bench graph make 3000      a generated application, of at most 20,000 classes
//! bench graph read 3000      and reads each of its classes
//! bench graph graph 3000     and scans them and builds the graph
//! bench graph make LIST      the files that a list names, one a line; read and graph as above
//! bench graph names 200000   what a scan keeps of so many classes, each with sixteen names
//! bench graph build 200000   and builds their graph
//! ```

use crate::made::class_of;
use crate::reading::{bad_words, file_lines, rule_set, undone};
use desk_base::{MAX_FILE_SIZE, Text};
use desk_class::ClassView;
use desk_folders::GenFile;
use desk_gen::generate;
use desk_graph::{ClassGraph, Scanned, scan};
use std::alloc::Global;
use std::{fs, io};

/// Keeps what a scan keeps of a class.
fn keep(alloc: Global, path: &Text, view: &ClassView<'_>, kept: &mut Vec<Scanned>) -> Option<()> {
    kept.push(scan(alloc, path, true, view).ok()?).ok()
}

/// Reads the class of a file, and keeps what a scan keeps of it where that is asked for.
fn read_one(alloc: Global, file: &GenFile, scans: bool, kept: &mut Vec<Scanned>) -> Option<()> {
    let bytes = file.content.as_bytes();
    if !file.path.as_bytes().ends_with(b".class") || bytes.len() > MAX_FILE_SIZE {
        return Some(());
    }
    let view = ClassView::read(alloc, bytes).ok()?;
    if scans {
        keep(alloc, &file.path, &view, kept)
    } else {
        Some(())
    }
}

/// Reads each class of an application, and keeps what a scan keeps of it where that is asked for.
fn read_all(alloc: Global, files: &[GenFile], scans: bool) -> Option<Vec<Scanned>> {
    let mut kept = Vec::new(alloc);
    for file in files {
        read_one(alloc, file, scans, &mut kept)?;
    }
    Some(kept)
}

/// So many classes as a scan keeps them.
fn made_up(alloc: Global, count: u32) -> Option<Vec<Scanned>> {
    let mut classes = Vec::with_capacity(alloc, count as usize).ok()?;
    for number in 0..count {
        classes.push(class_of(alloc, number, count).ok()?).ok()?;
    }
    Some(classes)
}

/// Builds the graph of classes under one rename, and gives the node of one name.
fn build(alloc: Global, classes: Vec<Scanned>, rename: &[u8], name: &[u8]) -> Option<usize> {
    let rules = rule_set(alloc, &[b"renames.properties"], rename)?;
    if classes.len() > 4_000_000_000 {
        return None;
    }
    let graph = ClassGraph::build(alloc, classes, &rules).ok()?;
    Some(graph.node_of(name)? as usize)
}

/// Builds a graph from what a scan keeps of so many made-up classes, or only makes that up.
fn run_made_up(alloc: Global, mode: &str, count: u32) -> Option<usize> {
    let classes = made_up(alloc, count)?;
    if mode == "names" {
        return Some(classes.len());
    }
    let name = b"org/shop/orders/part000000/ServiceBean000001";
    build(alloc, classes, b"javax.servlet.*=jakarta.servlet", name)
}

/// Goes as far over files as a mode says, and gives a number of what came out.
fn run_files(
    alloc: Global,
    mode: &str,
    files: &[GenFile],
    rename: &[u8],
    name: &[u8],
) -> Option<usize> {
    if mode == "make" {
        return Some(files.len());
    }
    let kept = read_all(alloc, files, mode == "graph")?;
    if mode == "read" {
        return Some(files.len());
    }
    build(alloc, kept, rename, name)
}

/// Goes as far as a mode says over so many classes that are made up.
fn run_generated(alloc: Global, mode: &str, count: u32) -> Option<usize> {
    let files = generate(alloc, count).ok()?;
    let rename = b"javax.gen.*=jakarta.gen";
    run_files(alloc, mode, &files, rename, b"javax/gen/p1/C1")
}

/// A file of some bytes.
fn file_of(alloc: Global, path: &str, bytes: &[u8]) -> Option<GenFile> {
    Some(GenFile {
        path: Text::from_bytes(alloc, path.as_bytes()).ok()?,
        content: Text::from_bytes(alloc, bytes).ok()?,
    })
}

/// The files that a list names, one a line; none where memory ran out.
fn listed(rt: &HostRuntime, list: &str) -> io::Result<Option<Vec<GenFile>>> {
    let mut files = Vec::new(rt.alloc());
    for path in &file_lines(rt, list)? {
        let bytes = fs::read(rt, path.as_str())?;
        match file_of(rt.alloc(), path.as_str(), &bytes) {
            Some(file) => files.push(file)?,
            None => return Ok(None),
        }
    }
    Ok(Some(files))
}

/// Goes as far as a mode says over the classes that a list names.
fn run_listed(rt: &HostRuntime, mode: &str, list: &str) -> io::Result<Option<usize>> {
    let rename = b"javax.swing.*=jakarta.swing";
    Ok(match listed(rt, list)? {
        Some(files) => run_files(rt.alloc(), mode, &files, rename, b"java/lang/String"),
        None => None,
    })
}

/// Goes as far as a mode says over so many classes that are made up, or over those that a list names.
fn answer(rt: &HostRuntime, mode: &str, word: &str) -> io::Result<Option<usize>> {
    match word.parse::<u32>() {
        Ok(count) if mode == "names" || mode == "build" => {
            Ok(run_made_up(rt.alloc(), mode, count))
        }
        Ok(count) => Ok(run_generated(rt.alloc(), mode, count)),
        Err(_) => run_listed(rt, mode, word),
    }
}

/// Prints what came out.
pub fn run(rt: &HostRuntime, words: &[String]) -> io::Result<()> {
    let [mode, word] = words else {
        return Err(bad_words());
    };
    match answer(rt, mode.as_str(), word.as_str())? {
        Some(number) => println!(rt; "{number}"),
        None => Err(undone()),
    }
}

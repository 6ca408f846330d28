//! Class files, whose paths stand one a line in the file that a word names, or on standard input. It counts what they hold, and
//! has one class in memory at a time.

use crate::counts::Counts;
use crate::reading::{file_lines, input_lines, undone};
use desk_base::{MAX_FILE_SIZE, Memory, ReadFault};
use desk_class::ClassView;
use std::alloc::Global;
use std::{fs, io};

/// Counts a file by its bytes.
fn count(alloc: Global, bytes: &[u8], counts: &mut Counts) -> Result<(), Memory> {
    if bytes.len() > MAX_FILE_SIZE {
        counts.add_unreadable();
        return Ok(());
    }
    match ClassView::read(alloc, bytes) {
        Ok(class) => counts.add_class(bytes.len(), class.uses().len()),
        Err(ReadFault::Malformed(fault)) => counts.add_fault(bytes.len(), fault.kind),
        Err(ReadFault::Memory) => return Err(Memory),
    }
    Ok(())
}

/// Reads one class file, and counts it.
fn scan_file(rt: &HostRuntime, path: &str, counts: &mut Counts) -> io::Result<()> {
    let Some(bytes) = fs::read(rt, path).ok() else {
        counts.add_unreadable();
        return Ok(());
    };
    count(rt.alloc(), &bytes, counts).map_err(|_| undone())
}

/// Reads the class files that a list names, and prints the counts.
pub fn run(rt: &HostRuntime, words: &[String]) -> io::Result<()> {
    let paths = match words {
        [list, ..] => file_lines(rt, list.as_str())?,
        [] => input_lines(rt)?,
    };
    let mut counts = Counts::new();
    for path in &paths {
        scan_file(rt, path.as_str(), &mut counts)?;
    }
    counts.print(rt)
}

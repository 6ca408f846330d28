//! The task that words mean, and the files of a generated application.

use crate::words::number_of;
use crate::written::say;
use desk_base::{Memory, Text, TextList};
use desk_folders::GenFile;
use desk_gen::{GenFault, generate, rule_file};
use desk_run::{Root, Task, WordsFault, read_words};
use std::alloc::Global;
use test_cases::Shown;

/// Answers roots as they are written, and the number of workers.
fn write_run(
    alloc: Global,
    roots: [&Root; 4],
    workers: u32,
    out: &mut String,
) -> Result<(), Memory> {
    out.push(' ')?;
    for root in roots {
        let text = root.written(alloc)?;
        write!(out, " {}", Shown(text.as_bytes()))?;
    }
    write!(out, " {workers}")?;
    Ok(())
}

/// Answers a root as it is written, and the segments of a package.
fn write_calls(
    alloc: Global,
    from: &Root,
    package: &TextList,
    out: &mut String,
) -> Result<(), Memory> {
    let from = from.written(alloc)?;
    write!(out, "  calls {}", Shown(from.as_bytes()))?;
    for segment in package.as_slice() {
        write!(out, " {}", Shown(segment.as_bytes()))?;
    }
    Ok(out.push('\n')?)
}

/// Answers the root of rules that are to be inverted, as it is written.
fn write_invert(alloc: Global, rules: &Root, out: &mut String) -> Result<(), Memory> {
    let rules = rules.written(alloc)?;
    Ok(writeln!(out, "  invert {}", Shown(rules.as_bytes()))?)
}

/// Answers the roots of two applications that are to be compared, and of their rules, as they are written.
fn write_compare(alloc: Global, roots: [&Root; 3], out: &mut String) -> Result<(), Memory> {
    out.push_str("  compare")?;
    for root in roots {
        let text = root.written(alloc)?;
        write!(out, " {}", Shown(text.as_bytes()))?;
    }
    Ok(out.push('\n')?)
}

/// Answers the task of words: that of a run by its roots, its workers and whether it verifies, that of a generated application
/// by its two numbers and whether its ledger is SQL, and those of queries by what they ask.
pub fn write_task(alloc: Global, words: &[Text], out: &mut String) -> Result<(), Memory> {
    match read_words(alloc, words) {
        Ok(
            Task::Run {
                rules,
                from,
                to,
                ledger,
                workers,
                verify,
            },
        ) => {
            write_run(alloc, [&rules, &from, &to, &ledger], workers, out)?;
            out.push_str(if verify { " verify\n" } else { "\n" })?;
            Ok(())
        }
        Ok(
            Task::Generate {
                count,
                workers,
                sql,
            },
        ) => {
            let ledger = if sql { " sql" } else { "" };
            Ok(writeln!(out, "  generate {count} {workers}{ledger}")?)
        }
        Ok(Task::Calls { from, package }) => write_calls(alloc, &from, &package, out),
        Ok(Task::Compare { rules, from, other }) => {
            write_compare(alloc, [&rules, &from, &other], out)
        }
        Ok(Task::Invert { rules }) => write_invert(alloc, &rules, out),
        Err(WordsFault::Usage) => say(out, "usage"),
        Err(WordsFault::Memory) => Err(Memory),
    }
}

/// Answers the path and the content of a file.
fn write_file(file: &GenFile, out: &mut String) -> Result<(), Memory> {
    let path = Shown(file.path.as_bytes());
    Ok(writeln!(out, "  {path} {}", Shown(file.content.as_bytes()))?)
}

/// Answers the file in a place.
fn write_place(files: &[GenFile], place: usize, out: &mut String) -> Result<(), Memory> {
    match files.get(place) {
        Some(file) => write_file(file, out),
        None => say(out, "no file"),
    }
}

/// The application of so many classes; none where there is no such application.
fn application(alloc: Global, count: u32) -> Result<Option<Vec<GenFile>>, Memory> {
    match generate(alloc, count) {
        Ok(files) => Ok(Some(files)),
        Err(GenFault::Limit) => Ok(None),
        Err(GenFault::Memory) => Err(Memory),
    }
}

/// Answers how many files an application has.
fn write_count(files: &[GenFile], out: &mut String) -> Result<(), Memory> {
    Ok(writeln!(out, "  {} files", files.len())?)
}

/// Answers how many files an application of so many classes has, or the file in a place of it; without a number the rule file
/// of all of them.
pub fn write_generated(alloc: Global, words: &[Text], out: &mut String) -> Result<(), Memory> {
    let [count, place @ ..] = words else {
        return write_file(&rule_file(alloc)?, out);
    };
    match (application(alloc, number_of(count))?, place) {
        (Some(files), []) => write_count(&files, out),
        (Some(files), [place, ..]) => write_place(&files, number_of(place) as usize, out),
        (None, _) => say(out, "no application"),
    }
}

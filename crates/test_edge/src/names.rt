//! What is read from lines of a report, and from texts that are shown.

use crate::told;
use desk_base::Memory;
use desk_notes::{LineRead, read_line, unshown};
use std::alloc::Global;
use test_cases::Shown;

/// Tells what a line of a report says.
pub fn tell_said(line: &[u8], out: &mut String) -> Result<(), Memory> {
    match read_line(line) {
        LineRead::Copied(path) => Ok(writeln!(out, "  copied {}", Shown(path))?),
        LineRead::Class {
            path,
            target,
            is_renamed,
        } => {
            let what = if is_renamed { "renamed" } else { "as it was" };
            let (path, target) = (Shown(path), Shown(target));
            Ok(writeln!(out, "  class {path} {target} {what}")?)
        }
        LineRead::Unchanged(path) => Ok(writeln!(out, "  unchanged {}", Shown(path))?),
        LineRead::Written => told::text(out, "written"),
        LineRead::Kept => told::text(out, "kept"),
        LineRead::Refused { path, reason, kind } => {
            let (path, reason, kind) = (Shown(path), Shown(reason), Shown(kind));
            Ok(writeln!(out, "  refused {path} {reason} {kind}")?)
        }
        LineRead::Site => told::text(out, "site"),
        LineRead::Differs => told::text(out, "differs"),
        LineRead::Other => told::text(out, "other"),
    }
}

/// Tells the text that is shown so.
pub fn tell_unshown(alloc: Global, shown: &[u8], out: &mut String) -> Result<(), Memory> {
    let text = unshown(alloc, shown)?;
    told::bytes(out, text.as_bytes())
}

//! What is told behind the end of a run.

use crate::looks::{MOST_PATHS, front_of, paths_below};
use crate::rules::{folder_notes, places_of, renames_below, run_notes};
use crate::telling::{Told, tell, tell_again, tell_hint, tell_status, tell_text};
use crate::words::rules_of;
use desk_base::{Memory, Text};
use desk_choices::{Names, closing_line};
use desk_faults::{Fault, fault_line};
use desk_hints::{Listed, listed_by, release_line, slip_line};
use desk_notes::{Notes, is_utf16, unshown};
use desk_report::Status;
use desk_rules::RuleFault;
use desk_words::{Request, Roots, find_slip};

/// Writes the line of a fault that is remembered.
fn tell_fault(rt: &HostRuntime, fault: Option<&Fault>) {
    if let Some(fault) = fault {
        tell_text(rt, &fault_line(rt.alloc(), fault));
    }
}

/// What is known of the folder that was listed last.
fn listed(fault: Option<&Fault>) -> Listed {
    match fault {
        Some(fault) => listed_by(fault),
        None => Listed::Unknown,
    }
}

/// The major version of the class at a path below the source, as it is shown.
fn major_of(rt: &HostRuntime, from: &Text, shown: &Text) -> Option<u16> {
    let name = unshown(rt.alloc(), shown.as_bytes()).ok()?;
    let head = front_of(rt, from, name.as_bytes(), 8)?;
    match head.as_bytes() {
        [_, _, _, _, _, _, high, low] => Some(u16::from_be_bytes([*high, *low])),
        _ => None,
    }
}

/// Tells of which Java release the first classes are that were refused for their version.
fn tell_releases(rt: &HostRuntime, roots: &Roots, notes: &Notes) {
    for shown in notes.versions.first.as_slice() {
        if let Some(major) = major_of(rt, &roots.from, shown) {
            tell_text(rt, &release_line(rt.alloc(), shown.as_bytes(), major));
        }
    }
}

/// How many files the target holds, at most 200,001.
fn count_in(rt: &HostRuntime, to: &Text) -> usize {
    match paths_below(rt, to, MOST_PATHS) {
        Some(paths) => paths.len(),
        None => usize::MAX,
    }
}

const ON_TRUST: &[u8] =
    b"migrate: files were kept because the ledger says so, but the target folder holds fewer than these\n         run again with `--verify`, which writes what isn't there, or name another ledger\n";

/// Tells where files were kept that the target doesn't hold.
fn tell_kept(roots: &Roots, notes: &Notes, told: &mut Told<'_>) {
    if notes.kept > 0 && count_in(told.rt, &roots.to) < notes.kept as usize {
        told.note(ON_TRUST);
    }
}

const UTF16: &[u8] =
    b"texts are in UTF-16, in which no text rule fits anything; store them in UTF-8, and run again:";

/// Of the texts in which no text rule fits anything those that are in UTF-16.
fn in_utf16(rt: &HostRuntime, from: &Text, notes: &Notes) -> Result<Names, Memory> {
    let mut names = Names::new(rt.alloc());
    for shown in notes.unchanged.as_slice() {
        let path = unshown(rt.alloc(), shown.as_bytes())?;
        match front_of(rt, from, path.as_bytes(), 2) {
            Some(front) if is_utf16(front.as_bytes()) => {
                names.take(rt.alloc(), shown.as_bytes())?;
            }
            _ => {}
        }
    }
    Ok(names)
}

/// What is noted of texts in UTF-16.
fn utf16_notes(rt: &HostRuntime, from: &Text, notes: &Notes) -> Result<Text, Memory> {
    let mut text = Text::empty(rt.alloc());
    in_utf16(rt, from, notes)?.append_to(&mut text, UTF16)?;
    Ok(text)
}

const STAYED: &[u8] =
    b"annotations of JSR 305 stay in javax.annotation, and so do those of JSR 250, as @PostConstruct, which servers then pass over; see docs/RULES.md:";

/// What is noted of annotations of JSR 305 that stay, where the rules rename packages below theirs.
fn stayed_notes(rt: &HostRuntime, rules: &Text, notes: &Notes) -> Result<Text, Memory> {
    let mut text = Text::empty(rt.alloc());
    if notes.stayed.count > 0 && renames_below(rt, rules, b"javax.annotation.")? {
        notes.stayed.append_to(&mut text, STAYED)?;
    }
    Ok(text)
}

/// Tells what stands beside the report of a run that completed, and what is left to look at.
fn tell_run(rt: &HostRuntime, roots: &Roots, notes: &Notes) {
    let mut told = Told { rt, notes: 0 };
    told.note_text(&notes.text());
    tell_releases(rt, roots, notes);
    tell_kept(roots, notes, &mut told);
    told.note_text(&stayed_notes(rt, &roots.rules, notes));
    told.note_text(&utf16_notes(rt, &roots.from, notes));
    told.note_text(&run_notes(rt, roots, &notes.renamed));
    tell_text(rt, &closing_line(rt.alloc(), &notes.closing(told.notes)));
}

/// Tells which word stands against words that ask for nothing.
fn tell_slip(rt: &HostRuntime, request: &Request<'_>) {
    if let Ok(Some(slip)) = find_slip(rt.alloc(), request.words()) {
        tell_text(rt, &slip_line(rt.alloc(), &slip));
    }
}

/// How a run ended.
#[derive(Drop)]
pub struct Ending<'a> {
    /// The words that the program was given, and what they were read as.
    pub request: &'a Request<'a>,
    /// The roots of a run that was begun; none of other words.
    pub roots: Option<&'a Roots>,
    /// The status that the program ends with.
    pub status: &'a Status,
    /// The last fault of the folders; none where they refused nothing.
    pub folders: Option<&'a Fault>,
    /// The last fault of the ledger; none where it refused nothing.
    pub ledger: Option<&'a Fault>,
    /// What was noted of the report.
    pub notes: &'a Notes,
}

/// Tells in which lines of the rule files stands what is against them.
fn tell_places(rt: &HostRuntime, request: &Request<'_>, fault: &RuleFault) {
    if let Some(rules) = rules_of(request) {
        tell_text(rt, &places_of(rt, rules, fault));
    }
}

/// Tells what looks like a slip in the rules that stood against a run.
fn tell_rules(rt: &HostRuntime, request: &Request<'_>) {
    if let Some(rules) = rules_of(request) {
        tell_text(rt, &folder_notes(rt, rules));
    }
}

/// Tells what stands behind a status: which call failed, which word or which line stands against the run, and where two applications
/// differ.
fn tell_cause(rt: &HostRuntime, ending: &Ending<'_>) {
    match ending.status {
        Status::FolderFault { .. } => tell_fault(rt, ending.folders),
        Status::LedgerFault { .. } => tell_fault(rt, ending.ledger),
        Status::Usage => tell_slip(rt, ending.request),
        Status::BadRules(fault) => tell_places(rt, ending.request, fault),
        Status::Differs { .. } => tell_again(rt, ending.notes.differs.as_bytes()),
        _ => {}
    }
}

/// Tells what stands behind an end: the line of the status, its cause and its hint, and what the report's lines and the rules say
/// beside what they are for.
pub fn tell_end(rt: &HostRuntime, ending: &Ending<'_>) {
    tell_status(rt, ending.status);
    tell_cause(rt, ending);
    tell_hint(rt, ending.status, listed(ending.folders));
    match (ending.status, ending.roots) {
        (Status::Done | Status::Refusals, Some(roots)) => tell_run(rt, roots, ending.notes),
        (Status::Done | Status::Refusals, None) => tell_text(rt, &ending.notes.text()),
        (Status::BadRules(_), _) => tell_rules(rt, ending.request),
        _ => {}
    }
}

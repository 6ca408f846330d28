//! What words ask for, done over the real outside.

use crate::ledger::AnyLedger;
use desk_base::{Memory, Text};
use desk_choices::{NotingSink, unread};
use desk_disk::DiskFolders;
use desk_faults::Fault;
use desk_notes::Notes;
use desk_program::{
    Asked, Ending, Stopped, asked_of, ended_by_streams, guarded, tell_end, tell_unread,
};
use desk_report::{Sink, Status, write_fault};
use desk_run::{FreeGate, desk};
use desk_words::{Request, Roots};
use std::io::ErrorKind;
use std::thread::Threads;

/// The real folders and a ledger, with an output.
#[derive(Drop)]
struct Outside<'r, O> {
    rt: &'r HostRuntime,
    folders: DiskFolders<'r>,
    ledger: Box<AnyLedger<'r>>,
    out: NotingSink<'r, O, Notes>,
    before: Option<Fault>,
}

impl<'r, O: Sink> Outside<'r, O> {
    fn new(rt: &'r HostRuntime, ledger: Box<AnyLedger<'r>>, out: O) -> Outside<'r, O> {
        Outside {
            rt,
            folders: DiskFolders::new(rt),
            ledger,
            out: NotingSink::new(rt, out, Notes::new(rt.alloc())),
            before: None,
        }
    }

    /// Guards a run, and shows its progress from then on; or writes the line of the status that it ends with before it begins, and keeps
    /// the fault behind it.
    fn begin(&mut self, roots: &Roots) -> Option<Status> {
        let Some(Stopped { status, fault }) = guarded(self.rt, roots, &mut self.folders) else {
            self.folders.show_progress();
            return None;
        };
        let _ = write_fault(&status, &mut self.out);
        self.before = fault;
        Some(status)
    }

    /// Shows how far a task is, unless its ledger is in memory: that of `generate --sql` touches no folder on disk.
    fn show_progress(&mut self) {
        if !self.ledger.is_in_memory {
            self.folders.show_progress();
        }
    }

    /// Follows the words.
    fn run<R: Threads + Sync>(&mut self, threads: &R, request: &Request<'_>) -> Status {
        let status = desk(
            threads,
            self.rt.alloc(),
            request,
            &mut self.folders,
            &mut *self.ledger,
            &mut self.out,
            &FreeGate,
        );
        self.folders.end_progress();
        self.ledger.file.remove_new_log();
        status
    }

    /// Tells what stands behind a status.
    fn tell(&self, request: &Request<'_>, roots: Option<&Roots>, status: &Status) {
        tell_end(
            self.rt,
            &Ending {
                request,
                roots,
                status,
                folders: self.before.as_ref().or(self.folders.last_fault()),
                ledger: self.before.as_ref().or(self.ledger.file.last_fault()),
                notes: &self.out.notes,
            },
        );
    }

    /// The output, behind which all else is let go.
    fn into_out(self) -> O {
        let Outside {
            folders,
            ledger,
            out,
            before,
            ..
        } = self;
        drop(before);
        drop(ledger);
        drop(folders);
        let NotingSink { out, .. } = out;
        out
    }
}

/// The status that a task ended with, and the output that it was written to.
#[derive(Drop)]
pub struct Followed<O> {
    /// The status.
    pub status: Status,
    /// The output.
    pub out: O,
}

/// Follows the words of a run over these roots, and tells what stands behind the status.
fn follow_run<R: Threads + Sync, O: Sink + Drop>(
    rt: &HostRuntime,
    threads: &R,
    request: &Request<'_>,
    roots: &Roots,
    out: O,
) -> Followed<O> {
    match ended_by_streams(rt, roots) {
        Ok(None) => {}
        Ok(Some(status)) => return Followed { status, out },
        Err(Memory) => return end_without_task(rt, Status::Memory, out),
    }
    let Ok(ledger) = AnyLedger::boxed(rt, false) else {
        return end_without_task(rt, Status::Memory, out);
    };
    let mut outside = Outside::new(rt, ledger, out);
    let (status, roots) = match outside.begin(roots) {
        Some(status) => (status, None),
        None => (outside.run(threads, request), Some(roots)),
    };
    outside.tell(request, roots, &status);
    Followed {
        status,
        out: outside.into_out(),
    }
}

/// Follows the words of any other task with a ledger in a file or in memory, and tells what stands behind the status.
fn follow_other<R: Threads + Sync, O: Sink + Drop>(
    rt: &HostRuntime,
    threads: &R,
    request: &Request<'_>,
    sql: bool,
    out: O,
) -> Followed<O> {
    let Ok(ledger) = AnyLedger::boxed(rt, sql) else {
        return end_without_task(rt, Status::Memory, out);
    };
    let mut outside = Outside::new(rt, ledger, out);
    outside.show_progress();
    let status = outside.run(threads, request);
    outside.tell(request, None, &status);
    Followed {
        status,
        out: outside.into_out(),
    }
}

/// Ends where there is no task yet.
fn end_without_task<O: Sink>(rt: &HostRuntime, status: Status, mut out: O) -> Followed<O> {
    let _ = write_fault(&status, &mut out);
    tell_unread(rt, &status);
    Followed { status, out }
}

/// Follows words as the program does: they are read once, what they ask for is done over the real folders, with its report on an
/// output, and what stands behind the status is told on standard error. Where the words ask for nothing, the status is `Usage`.
pub fn follow_words<R: Threads + Sync, O: Sink + Drop>(
    rt: &HostRuntime,
    threads: &R,
    words: &[Text],
    out: O,
) -> Followed<O> {
    let request = Request::read(rt.alloc(), words);
    match asked_of(&request) {
        Asked::Run(roots) => follow_run(rt, threads, &request, roots, out),
        Asked::Sql => follow_other(rt, threads, &request, true, out),
        Asked::Other => follow_other(rt, threads, &request, false, out),
        Asked::Memory => end_without_task(rt, Status::Memory, out),
    }
}

/// Ends where the words can't be read, by the kind of that error: the status is `Memory` for want of memory, and else `Usage`. Its
/// line is written to the output.
pub fn end_unread<O: Sink>(rt: &HostRuntime, kind: ErrorKind, out: O) -> Followed<O> {
    end_without_task(rt, unread(kind), out)
}

//! Takes the digests of classes that were read whole, and notes what is kept of them, on the workers.

ghost use Rattle.std.specs.Prelude.{◌≡◌, ◌≤◌, ◌<◌, ◌+◌, ◌++◌, ◌^◌, IfOk, OnOk, length, map};
ghost use Rattle.desk_readings.specs.Sizes.{found_of};
ghost use Rattle.desk_readings.specs.Readings.{all_scanned, measured_by, measured_with, measures_of, noted_in};
ghost use Rattle.desk_rules.specs.Rules.{Rules};
ghost use Rattle.desk_readings.specs.declared.pending.PendingContent.TheVariants.{Class};

use crate::contents::Content;
use crate::measured::{ClassNote, MeasuredFile};
use crate::pending::{PendingContent, PendingFile};
use crate::reading::SizeAndDigest;
use desk_base::{Memory, Text};
use desk_file::{NotedClass, Route, note_class};
use desk_graph::Scanned;
use desk_ledger::digest_of;
use desk_rules::RuleSet;
use desk_workers::Job;
use std::alloc::Global;

/// What a worker finds of a file: how many bytes it has and their digest, and what is kept of a class.
#[derive(Debug, Drop)]
pub struct Measurement {
    /// Its size and its digest.
    pub found: SizeAndDigest,
    /// What is noted of a well-formed class; none of any other file.
    pub class: Option<NotedClass>,
}

/// What is noted of a class; nothing of bytes that are none.
fn note_read(
    alloc: Global,
    rules: &RuleSet,
    route: &Route,
    bytes: &Content,
) -> Result<Option<NotedClass>, Memory>
    ensures { IfOk result (λ found. found ≡ noted_in rules.now route.now (Class bytes.now)) }
{
    let selected = route.treatment.is_selected_class();
    note_class(alloc, rules, &route.path, selected, bytes.as_bytes())
}

/// How many bytes there are, and their digest.
fn found_of(bytes: &Content) -> SizeAndDigest
    ensures { result ≡ found_of bytes.now }
{
    SizeAndDigest {
        size: bytes.as_bytes().len() as u64,
        digest: digest_of(bytes.as_bytes()),
    }
}

/// What a worker finds of a file.
fn measure(alloc: Global, rules: &RuleSet, pending: &PendingFile) -> Result<Measurement, Memory>
    ensures { IfOk result (λ measures. measures ≡ measures_of rules.now pending.now) }
{
    match &pending.read {
        PendingContent::Class(bytes) => {
            let class = note_read(alloc, rules, &pending.route, bytes)?;
            Ok(Measurement {
                found: found_of(bytes),
                class,
            })
        }
        PendingContent::Parts(found) => Ok(Measurement {
            found: *found,
            class: None,
        }),
    }
}

/// What the first reading of all files goes by. As a job, it measures a file that was read.
#[derive(Drop)]
pub(crate) struct FirstReading<'r> {
    pub(crate) alloc: Global,
    /// The rules by which classes are noted.
    pub(crate) rules: &'r RuleSet,
    /// The root below which the files stand.
    pub(crate) from: &'r Text,
}

impl Job for FirstReading<'_> {
    ghost use Rattle.desk_readings.specs.Readings.{measures_of, weight_in};

    type Item = PendingFile;

    type Out = Measurement;

    ghost value = { λ job pending. measures_of job.rules.now pending };

    ghost weighs = { λ _ pending. weight_in pending.read };

    fn weight(&self, pending: &PendingFile) -> u64 {
        pending.read.weight()
    }

    fn run(&self, pending: &PendingFile) -> Result<Measurement, Memory> {
        measure(self.alloc, self.rules, pending)
    }
}

/// A file with what was found of it.
fn measured_with(pending: PendingFile, measures: &Measurement) -> MeasuredFile
    ensures { result ≡ measured_with pending.route measures.now }
{
    MeasuredFile {
        route: pending.route,
        size: measures.found.size,
        digest: measures.found.digest,
        class: ClassNote::of(&measures.class),
    }
}

/// Adds the files of a slice, as its workers measured them.
pub(crate) fn add_files(
    files: &mut Vec<MeasuredFile>,
    slice: Vec<PendingFile>,
    found: &[Measurement],
) -> Result<(), Memory>
    requires { length found.now ≡ length slice.items }
    ensures files { (rules : Rules) → found.now ≡ map (measures_of rules) slice.items → OnOk result (files.new.items ≡ files.old.items ++ map (measured_by rules) slice.items) }
{
    for (i, pending) in slice.into_iter().enumerate() {
        files.push(measured_with(pending, &found[i]))?;
    }
    Ok(())
}

/// Adds what is kept of classes, copied: it is kept long, and what workers took for it is free for the next classes once all of it
/// is let go. (Where one were let go before the next is copied, the copy would take its memory.)
pub(crate) fn add_scanned(
    alloc: Global,
    scanned: &mut Vec<Scanned>,
    found: &[Measurement],
) -> Result<(), Memory>
    ensures classes { OnOk result (scanned.new.items ≡ scanned.old.items ++ all_scanned found.now) }
    ensures few { OnOk result (length scanned.new.items ≤ length scanned.old.items + length found.now) }
{
    for one in found {
        if let Some(class) = &one.class {
            scanned.push(class.scanned.copied(alloc)?)?;
        }
    }
    Ok(())
}

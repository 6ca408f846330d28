//! Migrates files that were read whole, on the workers.

ghost use Rattle.std.specs.Prelude.{All, ◌≡◌, ◌≢◌, ◌≤◌, ◌<◌, ◌^◌, ◌∷◌, [], IfErr, IfOk, IfSome, OnErr, length, map};
ghost use Rattle.desk_file.specs.Faults.{IsFaultOf};
ghost use Rattle.desk_ledger.specs.Digests.{digest as digest_by};
ghost use Rattle.desk_batches.specs.Notes.{IsNoteOf, IsSound};
ghost use Rattle.desk_batches.specs.Stops.{HasCause};
ghost use Rattle.desk_batches.specs.Turns.{HasItsDigest, MovedIn, image_of_input, input_in, made_of_input, migrated, reading_by};

use crate::digested::DigestedImage;
use crate::inputs::{Input, read_batch};
use crate::planned::{ImageNote, PlannedFile};
use crate::replacing::moved;
use crate::stops::Stop;
use desk_base::{MAX_FILE_SIZE, Memory, Text};
use desk_file::{FileFault, Image, migrate_class, migrate_file, outgrows};
use desk_folders::Folders;
use desk_graph::ClassGraph;
use desk_ledger::{Digest, digest_of};
use desk_report::{Detail, Reason};
use desk_workers::{Gate, Job, Workers, map_batch, map_beside};
use std::alloc::Global;
use std::thread::Threads;

/// What a worker makes of a file that was read whole for the second time.
#[derive(Debug, Drop)]
pub enum SecondReading {
    /// Its bytes have the digest that was noted, and are known to stay as they are: the detail of its image.
    Stays(Detail),
    /// Its bytes have the digest that was noted: its image, or why it has none.
    Same(Result<DigestedImage, Reason>),
    /// They have this digest instead.
    Other(Digest),
}

/// Migrates files that were read whole, in an application: what the workers share.
#[derive(Drop)]
pub struct Migration<'r> {
    /// Where memory is taken.
    pub alloc: Global,
    /// The graph of the application's classes, under its rules.
    pub graph: &'r ClassGraph<'r>,
}

impl<'r> Migration<'r> {
    /// Migrates in the application of this graph, by its rules.
    pub fn of(alloc: Global, graph: &'r ClassGraph<'r>) -> Migration<'r>
        ensures graph { result.graph ≡ graph.entry }
    {
        Migration { alloc, graph }
    }
}

/// The image of a file along its route. Where it is known how many links a selected class has, they aren't counted again.
#[tactic(auto, using(crate::proofs::Relinking::class_relinked, crate::proofs::Relinking::class_fault))]
fn image_of(job: &Migration<'_>, input: &Input<'_>) -> Result<Image, FileFault>
    ensures ok { IfOk result (λ found. made_of_input job.now.graph.now.rules job.now.graph.now.defined input.now ≡ Ok found) }
    ensures err { IfErr result (IsFaultOf (made_of_input job.now.graph.now.rules job.now.graph.now.defined input.now)) }
{
    let file = input.file();
    let bytes = input.content().as_bytes();
    match file.image {
        ImageNote::Links(links) if file.route.treatment.is_selected_class() => {
            migrate_class(job.alloc, job.graph.rules(), bytes, links)
        }
        _ => migrate_file(job.alloc, job.graph, &file.route, bytes),
    }
}

/// The image of a file with this digest along its route, or why it has none. The only error is want of memory, which also comes for a
/// text whose image would have more than 67,108,864 bytes: it is measured before it is made.
fn image_under(
    job: &Migration<'_>,
    input: &Input<'_>,
    digest: Digest,
) -> Result<Result<DigestedImage, Reason>, Memory>
    requires digest { digest ≡ digest_by input.now.bytes }
    ensures { IfOk result (λ fate. fate ≡ made_of_input job.now.graph.now.rules job.now.graph.now.defined input.now) }
{
    let bytes = input.content().as_bytes();
    if outgrows(job.graph.rules(), &input.file().route, bytes, MAX_FILE_SIZE) {
        return Err(Memory);
    }
    match image_of(job, input) {
        Ok(image) => Ok(Ok(DigestedImage::of(image, bytes, digest))),
        Err(FileFault::Refused(reason)) => Ok(Err(reason)),
        Err(FileFault::Memory) => Err(Memory),
    }
}

/// What a worker makes of a file that was read whole. That of a file which is known to stay as it is has no bytes of its own.
fn reading_under(job: &Migration<'_>, input: &Input<'_>) -> Result<SecondReading, Memory>
    ensures { IfOk result (λ reading. reading ≡ reading_by job.now.graph.now.rules job.now.graph.now.defined input.now) }
{
    let second = digest_of(input.content().as_bytes());
    if second == input.file().digest {
        match input.file().image {
            ImageNote::Unchanged(detail) => Ok(SecondReading::Stays(detail)),
            ImageNote::Unknown | ImageNote::Links(_) => {
                Ok(SecondReading::Same(image_under(job, input, second)?))
            }
        }
    } else {
        Ok(SecondReading::Other(second))
    }
}

impl<'r> Job for Migration<'r> {
    ghost use Rattle.std.specs.Prelude.{length};
    ghost use Rattle.desk_batches.specs.Turns.{reading_by};

    type Item = Input<'r>;

    type Out = SecondReading;

    ghost value = { λ job input. reading_by job.graph.now.rules job.graph.now.defined input };

    ghost weighs = { λ _ input. length input.bytes };

    fn weight(&self, input: &Input<'r>) -> u64 {
        input.content().as_bytes().len() as u64
    }

    fn run(&self, input: &Input<'r>) -> Result<SecondReading, Memory> {
        reading_under(self, input)
    }
}

/// The image of a file, by what a worker made of it, where it has the digest that was noted. A file that is known to stay as it is gives
/// its bytes; any other is taken over from the threads, where they made it.
fn image_read(
    job: &Migration<'_>,
    input: Input<'_>,
    reading: SecondReading,
    is_of_thread: bool,
) -> Result<Result<DigestedImage, Reason>, Stop>
    requires { reading ≡ reading_by job.now.graph.now.rules job.now.graph.now.defined input }
    ensures image { IfOk result (λ image. image ≡ image_of_input job.now.graph.now.rules job.now.graph.now.defined input.entry) }
    ensures same { IfOk result (λ _. HasItsDigest input.entry) }
    ensures err { IfErr result (MovedIn (input.entry ∷ [])) }
{
    let file = input.file();
    match reading {
        SecondReading::Stays(detail) => {
            let bytes = input.into_text();
            Ok(Ok(DigestedImage::unchanged(bytes, detail, file.digest)))
        }
        SecondReading::Same(Ok(image)) => Ok(Ok(image.taken_over(is_of_thread)?)),
        SecondReading::Same(Err(reason)) => Ok(Err(reason)),
        SecondReading::Other(second) => Err(moved(
            job.alloc,
            &file.route.path,
            file.digest,
            second,
        )),
    }
}

/// The images of files, by what the workers made of them, each on a thread of its own where there are several; where each file has
/// the digest that was noted.
fn images_in(
    job: &Migration<'_>,
    inputs: Vec<Input<'_>>,
    made: Vec<SecondReading>,
    workers: u32,
) -> Result<Vec<Result<DigestedImage, Reason>>, Stop>
    requires { made.items ≡ map (reading_by job.now.graph.now.rules job.now.graph.now.defined) inputs.items }
    ensures images { IfOk result (λ images. images.items ≡ map (image_of_input job.now.graph.now.rules job.now.graph.now.defined) inputs.entry.items) }
    ensures same { IfOk result (λ _. All HasItsDigest inputs.entry.items) }
    ensures err { IfErr result (MovedIn inputs.entry.items) }
{
    let mut images = Vec::new(job.alloc);
    for (input, reading) in inputs.into_iter().zip(made) {
        images.push(image_read(job, input, reading, workers > 1)?)?;
    }
    Ok(images)
}

/// The images of files that were read whole, by so many workers; `Moved` where the bytes of one have another digest than the one
/// that was noted.
pub(crate) fn migrate_batch<'r, R: Threads + Sync, G: Gate + Sync>(
    workers: &Workers<'_, R, G>,
    job: &Migration<'r>,
    inputs: Vec<Input<'r>>,
) -> Result<Vec<Result<DigestedImage, Reason>>, Stop>
    requires few { length inputs.items < 2 ^ 32 }
    ensures images { IfOk result (λ images. images.items ≡ map (image_of_input job.now.graph.now.rules job.now.graph.now.defined) inputs.entry.items) }
    ensures same { IfOk result (λ _. All HasItsDigest inputs.entry.items) }
    ensures err { IfErr result (MovedIn inputs.entry.items) }
{
    let made = map_batch(workers, job.alloc, &inputs, job)?;
    images_in(job, inputs, made, workers.count)
}

/// What `migrate_batch` gives for files that were read whole, and what `read_batch` gives for the next, which this thread reads
/// meanwhile.
pub(crate) fn migrate_and_read<'r, R: Threads + Sync, F: Folders, G: Gate + Sync>(
    workers: &Workers<'_, R, G>,
    job: &Migration<'r>,
    folders: &mut F,
    from: &Text,
    inputs: Vec<Input<'r>>,
    next: &'r [PlannedFile],
) -> (
    Result<Vec<Result<DigestedImage, Reason>>, Stop>,
    Result<Vec<Input<'r>>, Stop>,
)
    requires few { length inputs.items < 2 ^ 32 }
    requires sound { All IsSound next.now }
    requires notes { IfSome (F.told folders.old) (λ m. All (IsNoteOf from.now m) next.now) }
    ensures images { IfOk result.0 (λ images. images.items ≡ map (image_of_input job.now.graph.now.rules job.now.graph.now.defined) inputs.entry.items) }
    ensures err { IfErr result.0 (MovedIn inputs.entry.items) }
    ensures told { F.told folders.new ≡ F.told folders.old }
    ensures inputs { IfOk result.1 (λ inputs. IfSome (F.told folders.old) (λ m. inputs.items ≡ map (input_in from.now m) (migrated next.now))) }
    ensures files { IfOk result.1 (λ inputs. map (λ input. input.file) inputs.items ≡ migrated next.now) }
    ensures counts { F.faults folders.old ≤ F.faults folders.new }
    ensures some { OnErr result.1 (0 < length (migrated next.now)) }
    ensures cause { IfErr result.1 (λ stop. HasCause (F.told folders.old) stop (F.faults folders.old) (F.faults folders.new) 0 0) }
{
    let alloc = job.alloc;
    let (made, read) = map_beside(
        workers,
        alloc,
        &inputs,
        job,
        &mut || -> Result<Vec<Input<'_>>, Stop>
            requires { All IsSound next.now × IfSome (F.told folders.now) (λ m. All (IsNoteOf from.now m) next.now) }
            ensures { (F.told folders.exit.now ≡ F.told folders.entry.now)
                × IfOk result (λ inputs. IfSome (F.told folders.entry.now) (λ m. inputs.items ≡ map (input_in from.entry.now m) (migrated next.entry.now)))
                × IfOk result (λ inputs. map (λ input. input.file) inputs.items ≡ migrated next.entry.now)
                × (F.faults folders.entry.now ≤ F.faults folders.exit.now)
                × OnErr result (0 < length (migrated next.entry.now))
                × IfErr result (λ stop. HasCause (F.told folders.entry.now) stop (F.faults folders.entry.now) (F.faults folders.exit.now) 0 0) }
        { read_batch(alloc, folders, from, next) },
    );
    let images = match made {
        Ok(made) => images_in(job, inputs, made, workers.count),
        Err(Memory) => Err(Stop::Memory),
    };
    (images, read)
}

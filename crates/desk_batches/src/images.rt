//! The images of a batch, slice by slice: while the workers migrate one slice, this thread reads the next.

ghost use Rattle.std.specs.Prelude.{All, ◌≡◌, ◌⊎◌, ◌≤◌, ◌<◌, ◌^◌, ◌++◌, OnOk, Err, IfOk, IfErr, IfSome, IsOk, length, map};
ghost use Rattle.desk_file.specs.Linked.{image_in};
ghost use Rattle.desk_file.specs.Routes.{IsRouteBy};
ghost use Rattle.desk_batches.specs.Notes.{IsNoteOf, IsSound, BecomesAsNoted};
ghost use Rattle.desk_batches.specs.Stops.{HasCause};
ghost use Rattle.desk_batches.specs.Turns.{HasItsDigest, image_here, migrated};
ghost use Rattle.desk_batches.specs.declared.stops.Stop.TheVariants as stop;

use crate::cutting::split_slice;
use crate::digested::DigestedImage;
use crate::inputs::read_batch;
use crate::migrating::{Migration, migrate_and_read, migrate_batch};
use crate::planned::PlannedFile;
use crate::stops::Stop;
use desk_base::Text;
use desk_folders::Folders;
use desk_report::Reason;
use desk_workers::{Gate, Workers};
use std::thread::Threads;

/// Puts the images of a slice behind those before it.
fn append_images(
    images: &mut Vec<Result<DigestedImage, Reason>>,
    made: Result<Vec<Result<DigestedImage, Reason>>, Stop>,
) -> Result<(), Stop>
    ensures ok { OnOk result (IfOk made (λ more. images.new.items ≡ images.old.items ++ more.items)) }
    ensures made { OnOk result (IsOk made) }
    ensures err { IfErr result (λ why. (why ≡ stop.Memory) ⊎ (made ≡ Err why)) }
{
    let mut more = made?;
    images.append(&mut more)?;
    Ok(())
}

/// The images of the files of a batch that are read whole, in their order. They are read again slice by slice: while the workers
/// migrate one slice, this thread reads the next. Where a slice has no images, the rest of the batch is read before that is told, since
/// what stops this reading comes first.
pub(crate) fn images_of_batch<'f, R: Threads + Sync, F: Folders, G: Gate + Sync>(
    workers: &Workers<'_, R, G>,
    job: &Migration<'f>,
    folders: &mut F,
    from: &Text,
    batch: &'f [PlannedFile],
) -> Result<Vec<Result<DigestedImage, Reason>>, Stop>
    requires few { length batch.now < 2 ^ 32 }
    requires sound { All IsSound batch.now }
    requires routes { All (λ file. IsRouteBy job.now.graph.now.rules file.route) batch.now }
    requires notes { IfSome (F.told folders.old) (λ m. All (IsNoteOf from.now m) batch.now) }
    requires stays { IfSome (F.told folders.old) (λ m. All (BecomesAsNoted (image_in job.now.graph.now.rules job.now.graph.now.defined) from.now m) batch.now) }
    ensures told { F.told folders.new ≡ F.told folders.old }
    ensures images { IfOk result (λ images. IfSome (F.told folders.old) (λ m. images.items ≡ map (image_here (image_in job.now.graph.now.rules job.now.graph.now.defined) from.now m) (migrated batch.now))) }
    ensures count { IfOk result (λ images. length images.items ≡ length (migrated batch.now)) }
    ensures counts { F.faults folders.old ≤ F.faults folders.new }
    ensures some { IfErr result (λ why. (why ≡ stop.Memory) ⊎ (0 < length (migrated batch.now))) }
    ensures cause { IfErr result (λ stop. HasCause (F.told folders.old) stop (F.faults folders.old) (F.faults folders.new) 0 0) }
{
    let mut images = Vec::new(job.alloc);
    let (slice, mut rest) = split_slice(batch);
    let mut inputs = read_batch(job.alloc, folders, from, slice)?;
    while !rest.is_empty() {
        let (next, behind) = split_slice(rest);
        let (made, read) = migrate_and_read(workers, job, folders, from, inputs, next);
        let ahead = read?;
        if let Err(why) = append_images(&mut images, made) {
            read_batch(job.alloc, folders, from, behind)?;
            return Err(why);
        }
        inputs = ahead;
        rest = behind;
    }
    let last = migrate_batch(workers, job, inputs);
    append_images(&mut images, last)?;
    Ok(images)
}

//! Finds two files whose targets clash.

ghost use Rattle.std.specs.Prelude.{◌≡◌, ◌<◌, None, IfOk, IfErr, OnOk, length, map};
ghost use Rattle.desk_clashes.specs.Clashes.{first_clash};
ghost use Rattle.desk_intake.specs.Halts.{HaltsClashing};
ghost use Rattle.desk_intake.specs.Standing.{clash_status};

use crate::halts::Halt;
use desk_base::{Memory, Text};
use desk_clashes::{Clash, Targets};
use desk_file::Route;
use desk_readings::MeasuredFile;
use desk_report::Status;
use std::alloc::Global;

/// A file of the source with its route.
pub trait HasRoute {
    ghost use Rattle.desk_file.specs.declared.routes.Route.{Route};

    /// The route of a file.
    ghost along: { Self → Route };

    /// Its route.
    fn route(&self) -> &Route
        ensures { result.now ≡ along self.now };
}

impl HasRoute for MeasuredFile {
    ghost along = { λ file. file.route };

    fn route(&self) -> &Route {
        &self.route
    }
}

/// The targets of files.
fn targets_of<T: HasRoute>(alloc: Global, files: &[T]) -> Result<Targets<'_>, Memory>
    ensures { IfOk result (λ targets. targets ≡ map (λ file. (T.along file).target) files.now) }
{
    let mut targets = Targets::new(alloc);
    for file in files {
        targets.push(file.route().target.as_bytes())?;
    }
    Ok(targets)
}

/// The status of two files whose targets clash.
fn path_clash(first: &Text, second: &Text) -> Result<Status, Memory>
    ensures { IfOk result (λ status. status ≡ Status.PathClash first.now second.now) }
{
    let first = first.clone()?;
    let second = second.clone()?;
    Ok(Status::PathClash { first, second })
}

/// Refuses files of which two have targets that clash: the answer is `PathClash` with the first two of which one's target equals the
/// other's, or is a folder of it. The only other halt is want of memory.
pub fn refuse_clash<T: HasRoute>(alloc: Global, files: &[T]) -> Result<(), Halt>
    ensures ok { OnOk result (clash_status (map (λ file. (T.along file).path) files.now) (first_clash (map (λ file. (T.along file).target) files.now)) ≡ None) }
    ensures err { IfErr result (HaltsClashing (map (λ file. (T.along file).path) files.now) (map (λ file. (T.along file).target) files.now)) }
{
    let targets = targets_of(alloc, files)?;
    match targets.first_clash(alloc)? {
        None => Ok(()),
        Some(Clash { first, second }) => Err(Halt::Answer(path_clash(
            &files[first].route().path,
            &files[second].route().path,
        )?)),
    }
}

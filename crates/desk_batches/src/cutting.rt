//! Where batches end, and the slices of a batch.

ghost use Rattle.std.specs.Prelude.{All, ◌≡◌, ◌≤◌, ◌<◌, ◌+◌, ◌^◌, drop, length};
ghost use Rattle.std.specs.List.{IsSplitAt, slice_range, sum_by};
ghost use Rattle.desk_base.specs.Limits.{file_size};
ghost use Rattle.desk_batches.specs.Notes.{IsSound};
ghost use Rattle.desk_batches.specs.Turns.{fitting, slice_length, weight_of};

use crate::planned::PlannedFile;
use desk_readings::{SLICE, WHOLE};

/// How many bytes of a batch a file takes: none where it is not read whole.
fn weight_of(file: &PlannedFile) -> u64
    requires { IsSound file.now }
    ensures weight { result ≡ weight_of file.now }
    ensures small { result ≤ file_size }
{
    if file.action.is_migrated() {
        file.size
    } else {
        0
    }
}

/// Where the files from this place on end whose whole files fit into so much room, as many as fit.
fn fitting_end(planned: &[PlannedFile], at: usize, room: u64) -> usize
    requires inside { at ≤ length planned.now }
    requires sound { All IsSound planned.now }
    ensures end { result ≡ at + fitting room (drop at planned.now) }
    ensures some { at < length planned.now → file_size ≤ room → at < result }
    ensures inside { result ≤ length planned.now }
    ensures light { sum_by weight_of (slice_range planned.now at result) ≤ room }
{
    let mut end = at;
    let mut left = room;
    while end < planned.len() {
        let weight = weight_of(&planned[end]);
        if weight > left {
            return end;
        }
        left -= weight;
        end += 1;
    }
    end
}

/// The end of the batch that begins at this place: it takes as many files as fit.
pub(crate) fn batch_end(planned: &[PlannedFile], at: usize) -> usize
    requires inside { at < length planned.now }
    requires sound { All IsSound planned.now }
    ensures end { result ≡ at + fitting file_size (drop at planned.now) }
    ensures some { at < result }
    ensures inside { result ≤ length planned.now }
    ensures light { sum_by weight_of (slice_range planned.now at result) ≤ file_size }
{
    fitting_end(planned, at, WHOLE)
}

/// The first slice of files, and the files behind it: it takes as many files as fit, and one where none does.
pub(crate) fn split_slice(planned: &[PlannedFile]) -> (&[PlannedFile], &[PlannedFile])
    requires { All IsSound planned.now }
    ensures { IsSplitAt planned.now (slice_length planned.now) result.0.now result.1.now }
{
    let end = fitting_end(planned, 0, SLICE).max(1);
    planned.split_at(end.min(planned.len()))
}

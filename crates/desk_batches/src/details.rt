//! What is known of the images of files that were noted as classes.

ghost use Rattle.std.specs.Prelude.{◌≡◌, length, map};
ghost use Rattle.desk_batches.specs.Details.{bare, counts_behind, image_note, image_notes, notes_in};

use crate::planned::{ImageNote, PlannedFile};
use desk_readings::ClassNote;
use desk_report::Detail;

/// What is known of a file's image, and the numbers of the classes behind it. Where it is a class, the first of these numbers says how
/// many defined names of the application it holds.
fn next_note(note: ClassNote, counts: &[u32]) -> (ImageNote, &[u32])
    ensures note { result.0 ≡ image_note note counts.now }
    ensures behind { result.1.now ≡ counts_behind note counts.now }
{
    let Some((links, behind)) = counts.split_first() else {
        return (ImageNote::Unknown, counts);
    };
    match note {
        ClassNote::NoClass => (ImageNote::Unknown, counts),
        ClassNote::Changes => (ImageNote::Links(*links), behind),
        ClassNote::Stays { odd } => {
            let detail = Detail::Class {
                renamed: 0,
                added: 0,
                odd,
                links: *links,
            };
            (ImageNote::Unchanged(detail), behind)
        }
    }
}

/// The files, each with what is known of its image, by what was noted of it as a class, and how many defined names of the application
/// each class holds, in the files' order: of a class in which nothing changes the detail, of any other class that number.
pub fn with_image_notes(planned: Vec<PlannedFile>, counts: &[u32]) -> Vec<PlannedFile>
    ensures bare { map bare result.items ≡ map bare planned.items }
    ensures images { notes_in result.items ≡ image_notes (map (λ file. file.class) planned.items) counts.now }
{
    let mut known = planned;
    let mut left = counts;
    for place in 0..known.len() {
        let (note, behind) = next_note(known[place].class, left);
        known[place].image = note;
        left = behind;
    }
    known
}

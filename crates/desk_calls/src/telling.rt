//! What was found, as it is written.

ghost use Rattle.std.specs.Prelude.{◌≡◌, ◌≤◌, ◌<◌, ◌^◌, ◌*◌, ◌++◌, ◌∷◌, [], IfOk, OnOk, codes, count_by, decimal, length};
ghost use Rattle.std.specs.List.{flat_map, list_any, sum_by};
ghost use Rattle.desk_report.specs.Joined.{joined};
ghost use Rattle.desk_calls.specs.Told.{calls_of, lines_in, totals_text, was_refused, site_count};

use desk_base::{Memory, Text};
use desk_sites::ClassSites;
use itoa::Buffer;
use std::alloc::Global;

/// What is told of the calls of an application.
#[derive(Debug, Drop)]
pub struct Calls {
    /// The lines of its classes, in byte order of their paths, and the line of the totals, each with LF at its end.
    pub text: Text,
    /// Whether some class was refused.
    pub refused: bool,
}

/// How many classes were refused.
fn count_refused(found: &[ClassSites]) -> usize
    ensures count { result ≡ count_by was_refused found.now }
{
    found.iter().filter(|one| one.refused).count()
}

/// Whether some class was refused.
fn has_refused(found: &[ClassSites]) -> bool
    ensures { result ≡ list_any was_refused found.now }
{
    found.iter().any(|one| one.refused)
}

/// How many sites there are in all classes.
fn count_sites(found: &[ClassSites]) -> u128
    requires { length found.now < 2 ^ 32 }
    ensures { result ≡ sum_by site_count found.now }
{
    let mut sites = 0;
    for one in found {
        sites += u128::from(one.sites);
    }
    sites
}

/// Adds the lines of classes, one behind the other.
#[tactic(auto, using(desk_base::proofs::Lists::texts_more))]
fn append_lines(text: &mut Text, found: &[ClassSites]) -> Result<(), Memory>
    ensures { OnOk result (text.new ≡ text.old ++ flat_map lines_in found.now) }
{
    for one in found {
        text.append(one.lines.as_bytes())?;
    }
    Ok(())
}

/// Adds a number behind what stands before it.
fn append_number(text: &mut Text, front: &[u8], number: u128) -> Result<(), Memory>
    ensures { OnOk result (text.new ≡ text.old ++ joined (front.now ∷ decimal number ∷ [])) }
{
    text.append(front)?;
    text.append(Buffer::new().format(number).as_bytes())
}

/// Adds the line of the totals.
fn append_totals(text: &mut Text, found: &[ClassSites]) -> Result<(), Memory>
    requires { length found.now < 2 ^ 32 }
    ensures { OnOk result (text.new ≡ text.old ++ totals_text found.now) }
{
    append_number(text, b"sites classes=", found.len() as u128)?;
    append_number(text, b" refused=", count_refused(found) as u128)?;
    append_number(text, b" sites=", count_sites(found))?;
    text.append(b"\n")
}

/// What is told of what was found: the lines of the classes, and the line of the totals.
pub(crate) fn calls_of(alloc: Global, found: &[ClassSites]) -> Result<Calls, Memory>
    requires { length found.now < 2 ^ 32 }
    ensures { IfOk result (λ calls. calls ≡ calls_of found.now) }
{
    let mut text = Text::empty(alloc);
    append_lines(&mut text, found)?;
    append_totals(&mut text, found)?;
    Ok(Calls {
        text,
        refused: has_refused(found),
    })
}

//! What is done before a run: the roots that are written apart are looked at, whether they are one on the disk, and the
//! target is guarded against links, and against folders that are mounted in one another.

use desk_base::{Memory, Text};
use desk_choices::unplaced;
use desk_disk::DiskFolders;
use desk_faults::{Cause, Fault, Tried};
use desk_places::{Apart, Obstacle, Pair, Place, Places, RootName, first_obstacle, place_of};
use desk_report::Status;
use desk_words::Roots;
use std::io::{self, ErrorKind};

/// The place of a root, or why the system doesn't tell it.
fn place(rt: &HostRuntime, root: &Text) -> Result<io::Result<Place>, Memory> {
    match place_of(rt, root) {
        Err(error) if error.kind() == ErrorKind::OutOfMemory => Err(Memory),
        place => Ok(place),
    }
}

/// The places of the roots.
fn places_of(rt: &HostRuntime, roots: &Roots) -> Result<Places, Memory> {
    let rules = place(rt, &roots.rules)?;
    let from = place(rt, &roots.from)?;
    let to = place(rt, &roots.to)?;
    let ledger = place(rt, &roots.ledger)?;
    Ok(Places {
        rules,
        from,
        to,
        ledger,
    })
}

/// The two roots of a pair, as they are written.
fn named<'a>(pair: Pair, roots: &'a Roots) -> (&'a Text, &'a Text) {
    match pair {
        Pair::FromTo => (&roots.from, &roots.to),
        Pair::RulesTo => (&roots.rules, &roots.to),
        Pair::LedgerFrom => (&roots.ledger, &roots.from),
        Pair::LedgerTo => (&roots.ledger, &roots.to),
        Pair::LedgerRules => (&roots.ledger, &roots.rules),
    }
}

/// The status of a pair that is nested.
fn nested(pair: Pair, roots: &Roots) -> Result<Status, Memory> {
    let (first, second) = named(pair, roots);
    let first = first.clone()?;
    let second = second.clone()?;
    Ok(Status::NestedRoots { first, second })
}

/// A root as it is written, and what was found of its place.
fn root_of<'a>(
    name: RootName,
    roots: &'a Roots,
    places: &'a Places,
) -> (&'a Text, &'a io::Result<Place>) {
    match name {
        RootName::Rules => (&roots.rules, &places.rules),
        RootName::From => (&roots.from, &places.from),
        RootName::To => (&roots.to, &places.to),
        RootName::Ledger => (&roots.ledger, &places.ledger),
    }
}

/// The fault of a root whose place isn't told; none of one whose place is.
fn fault_of(
    rt: &HostRuntime,
    name: RootName,
    roots: &Roots,
    places: &Places,
) -> Result<Option<Fault>, Memory> {
    let (root, place) = root_of(name, roots, places);
    match place {
        Ok(_) => Ok(None),
        Err(error) => {
            let cause = Cause::System(*error);
            Ok(Some(Fault::of(rt.alloc(), Tried::Placing, root, cause)?))
        }
    }
}

/// How a run ended before it began.
#[derive(Drop)]
pub struct Stopped {
    /// Its status.
    pub status: Status,
    /// What the system refused; none where it refused nothing.
    pub fault: Option<Fault>,
}

/// How a run ends that something stands against.
fn stopped_by(
    rt: &HostRuntime,
    obstacle: Obstacle,
    roots: &Roots,
    places: &Places,
) -> Result<Stopped, Memory> {
    match obstacle {
        Obstacle::Nested(pair) => Ok(Stopped {
            status: nested(pair, roots)?,
            fault: None,
        }),
        Obstacle::Unknown(name) => Ok(Stopped {
            status: unplaced(name),
            fault: fault_of(rt, name, roots, places)?,
        }),
    }
}

/// Looks at the roots, and names to the folders the target, and what may not be met.
fn guard(
    rt: &HostRuntime,
    roots: &Roots,
    folders: &mut DiskFolders<'_>,
) -> Result<Option<Stopped>, Memory> {
    let places = places_of(rt, roots)?;
    if let Some(obstacle) = first_obstacle(&places) {
        return Ok(Some(stopped_by(rt, obstacle, roots, &places)?));
    }
    folders.keep_within(roots.to.clone()?);
    folders.keep_apart(Apart::of(rt.alloc(), &places)?);
    Ok(None)
}

/// Guards a run: none of its roots may lie in another on the disk, the place of each must be told, no link may stand in place of a
/// folder of its target, and no folder may be mounted where what it reads and what it writes would be one. How a run ends by the first
/// two, also where memory doesn't suffice for them. Nothing is changed.
pub fn guarded(rt: &HostRuntime, roots: &Roots, folders: &mut DiskFolders<'_>) -> Option<Stopped> {
    match guard(rt, roots, folders) {
        Ok(stopped) => stopped,
        Err(Memory) => Some(Stopped {
            status: Status::Memory,
            fault: None,
        }),
    }
}

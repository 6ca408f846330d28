//! A walk along a body by the table.

ghost use Rattle.std.specs.Prelude.{map};
ghost use Rattle.desk_format.specs.Rows.{rows, row_layout, slot_layout};
ghost use Rattle.desk_format.specs.ClassBody.{class_body};
ghost use Rattle.desk_parts.specs.Steps.{along, times_on, location_on};
ghost use Rattle.desk_parts.specs.Gives.{Gives};
ghost use Rattle.desk_parts.specs.Parts.{part_layout};

use crate::parts::{ClassPart, Part, Structure, attribute_part, selected_part, structure_of};
use crate::walker::{Stop, Walker};
use desk_format::{Location, Slot};

/// A slot.
#[tactic(auto, unfolding(crate::specs::Steps::along))]
fn walk_slot<W: Walker>(slot: Slot, position: &mut W::Position, walker: &W) -> Result<(), Stop>
    ensures { Gives result (along (W.steps walker.now) (slot_layout slot) (W.state position.old)) (W.state position.new) }
{
    match slot {
        Slot::Number => walker.bytes(2, position),
        Slot::Index(kind) => walker.index(kind, position),
    }
}

/// A row of slots.
#[tactic(auto, using(crate::proofs::Walking::slots_on, crate::proofs::Walking::slots_stop, crate::proofs::Walking::slots_done))]
fn walk_slots<W: Walker>(slots: &[Slot], position: &mut W::Position, walker: &W) -> Result<(), Stop>
    ensures { Gives result (along (W.steps walker.now) (row_layout slots.now) (W.state position.old)) (W.state position.new) }
{
    for slot in slots {
        walk_slot(*slot, position, walker)?;
    }
    Ok(())
}

/// Parts one behind the other.
#[cycle(parts)]
#[tactic(auto, using(crate::proofs::Walking::row_on, crate::proofs::Walking::row_stop, crate::proofs::Walking::row_done, crate::proofs::Walking::row_rank))]
fn walk_row<W: Walker>(parts: &[Part], position: &mut W::Position, walker: &W) -> Result<(), Stop>
    ensures { Gives result (along (W.steps walker.now) (rows (map part_layout parts.now)) (W.state position.old)) (W.state position.new) }
{
    for part in parts {
        walk_part(*part, position, walker)?;
    }
    Ok(())
}

/// So many of a part.
#[cycle(parts)]
#[tactic(auto, using(crate::proofs::Walking::times_begin, crate::proofs::Walking::times_more, crate::proofs::Walking::times_stop, crate::proofs::Walking::times_done))]
fn walk_times<W: Walker>(
    count: u16,
    part: Part,
    position: &mut W::Position,
    walker: &W,
) -> Result<(), Stop>
    ensures { Gives result (times_on count (along (W.steps walker.now) (part_layout part)) (W.state position.old)) (W.state position.new) }
{
    for _ in 0..count {
        walk_part(part, position, walker)?;
    }
    Ok(())
}

/// An attribute at a location.
#[cycle(parts)]
#[tactic(auto, using(crate::proofs::Walking::name_stops, crate::proofs::Walking::length_stops, crate::proofs::Walking::enter_stops, crate::proofs::Walking::body_stops, crate::proofs::Walking::body_same), unfolding(crate::specs::Steps::location_on))]
fn walk_attribute<W: Walker>(
    location: Location,
    position: &mut W::Position,
    walker: &W,
) -> Result<(), Stop>
    ensures { Gives result (location_on (W.steps walker.now) location (W.state position.old)) (W.state position.new) }
{
    let attribute = walker.name(position)?;
    let length = walker.u4(position)?;
    let behind = walker.enter(length, position)?;
    walk_part(
        attribute_part(location, attribute, length),
        position,
        walker,
    )?;
    walker.leave(behind, position)
}

/// So many attributes at a location.
#[cycle(parts)]
#[tactic(auto, using(crate::proofs::Walking::times_begin, crate::proofs::Walking::times_more, crate::proofs::Walking::times_stop, crate::proofs::Walking::times_done))]
fn walk_attributes<W: Walker>(
    count: u16,
    location: Location,
    position: &mut W::Position,
    walker: &W,
) -> Result<(), Stop>
    ensures { Gives result (times_on count (location_on (W.steps walker.now) location) (W.state position.old)) (W.state position.new) }
{
    for _ in 0..count {
        walk_attribute(location, position, walker)?;
    }
    Ok(())
}

/// A part of a body.
#[cycle(parts)]
#[tactic(auto, using(crate::proofs::Walking::structured, crate::proofs::Walking::on_stops, crate::proofs::Walking::attributes_on), unfolding(crate::specs::Steps::along, crate::specs::Steps::location_on))]
fn walk_part<W: Walker>(part: Part, position: &mut W::Position, walker: &W) -> Result<(), Stop>
    ensures { Gives result (along (W.steps walker.now) (part_layout part) (W.state position.old)) (W.state position.new) }
{
    match structure_of(part) {
        Structure::Nothing => Ok(()),
        Structure::U1 | Structure::PathKind => walker.bytes(1, position),
        Structure::U2 => walker.bytes(2, position),
        Structure::Raw(size) => walker.bytes(size, position),
        Structure::CodeBytes => {
            let length = walker.u4(position)?;
            walker.code(length, position)
        }
        Structure::Index(kind) => walker.index(kind, position),
        Structure::Slots(slots) => walk_slots(slots, position, walker),
        Structure::Member(first, second) => {
            walker.member(position);
            walk_part(first, position, walker)?;
            walk_part(second, position, walker)
        }
        Structure::Both(first, second) => {
            walk_part(first, position, walker)?;
            walk_part(second, position, walker)
        }
        Structure::Row(parts) => walk_row(parts, position, walker),
        Structure::Table(each) => {
            let count = walker.u2(position)?;
            walk_times(count, each, position, walker)
        }
        Structure::ShortTable(each) => {
            let count = walker.u1(position)?;
            walk_times(u16::from(count), each, position, walker)
        }
        Structure::Attributes(location) => {
            let count = walker.u2(position)?;
            walk_attributes(count, location, position, walker)
        }
        Structure::Union(union) => {
            let tag = walker.u1(position)?;
            walk_part(selected_part(union, tag), position, walker)
        }
        Structure::Fault => Err(Stop::Ended),
    }
}

/// Walks along the body of a class (JVMS 4.1), item after item, as the layouts of its structures say. The position begins
/// behind the constant pool. Where a call of the walker ends or runs out of memory, the walk does. Time is linear in the
/// bytes; the walk itself takes no memory, and it goes at most 65 element values deep.
pub fn walk_body<W: Walker>(position: &mut W::Position, walker: &W) -> Result<(), Stop>
    ensures { Gives result (along (W.steps walker.now) class_body (W.state position.old)) (W.state position.new) }
{
    walk_part(Part::Class(ClassPart::Body), position, walker)
}

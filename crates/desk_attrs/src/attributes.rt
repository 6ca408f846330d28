//! Attributes, with their bodies fenced by their lengths.

ghost use Rattle.std.specs.Prelude.{◌≡◌, ◌+◌};
ghost use Rattle.desk_format.specs.Layouts.{Layout};
ghost use Rattle.desk_format.specs.Rows.{many};
ghost use Rattle.desk_format.specs.Attributes.{attribute_named, body_at, attributes_of, code_head, component_head, inner_attributes};
ghost use Rattle.desk_format.specs.declared.attributes.Location.TheVariants.{OfCode, OfComponent};
ghost use Rattle.desk_format.specs.Reading.{read, times, attribute_at};
ghost use Rattle.desk_format.specs.Walk.{walk, walk_at, Walks, fault_in_fence};
ghost use Rattle.desk_annos.specs.Stands.{StandsWithin};

use crate::bodies::walk_known;
use crate::heads::walk_head;
use crate::parts::{walk_code_head, walk_raw};
use crate::places::may_stand;
use desk_annos::{walk_row, walk_u2};
use desk_base::{Cursor, FaultKind, Malformed, PoolView, ReadFault, UseKind, Visit};
use desk_format::{Attribute, Location, Slot};

/// The fault of a body whose length stands at an offset, as it is seen from outside.
fn in_fence(length_at: u32, fault: ReadFault) -> ReadFault
    ensures { result ≡ fault_in_fence (length_at + 4) fault }
{
    match fault {
        ReadFault::Malformed(
            Malformed {
                kind: FaultKind::Truncated,
                at: _,
            },
        ) => ReadFault::Malformed(Malformed {
            kind: FaultKind::AttributeLength,
            at: length_at,
        }),
        fault => fault,
    }
}

/// The body of a Code: its code, its table of handlers, and its own attributes (JVMS 4.7.3).
#[cycle(attributes)]
#[tactic(auto, using(crate::proofs::Nests::code_walked, desk_format::proofs::Walks::row_stopped))]
fn walk_code<P: PoolView, V: Visit>(
    cursor: &mut Cursor<'_>,
    pool: &P,
    visit: &mut V,
) -> Result<(), ReadFault>
    ensures walks { Walks result (walk (read (P.pool pool.now) (Layout.row code_head (inner_attributes OfCode))) (walk_at (V.taken visit.old) cursor.old)) cursor.new (V.taken visit.new) }
    ensures stands { StandsWithin cursor.old cursor.new }
{
    walk_code_head(cursor, pool, visit)?;
    walk_attributes(Location::OfCode, cursor, pool, visit)
}

/// A component of a record (JVMS 4.7.30).
#[cycle(attributes)]
#[tactic(auto, using(crate::proofs::Nests::component_walked, desk_format::proofs::Walks::row_stopped))]
fn walk_component<P: PoolView, V: Visit>(
    cursor: &mut Cursor<'_>,
    pool: &P,
    visit: &mut V,
) -> Result<(), ReadFault>
    ensures walks { Walks result (walk (read (P.pool pool.now) (Layout.row component_head (inner_attributes OfComponent))) (walk_at (V.taken visit.old) cursor.old)) cursor.new (V.taken visit.new) }
    ensures stands { StandsWithin cursor.old cursor.new }
{
    let head = [
        Slot::Index(UseKind::Plain),
        Slot::Index(UseKind::FieldDescriptor),
    ];
    walk_row(&head, cursor, pool, visit)?;
    walk_attributes(Location::OfComponent, cursor, pool, visit)
}

/// So many components of a record, one behind the other.
#[cycle(attributes)]
#[tactic(auto, using(desk_format::proofs::Walks::times_begin, desk_format::proofs::Walks::times_on, desk_format::proofs::Walks::times_stopped, desk_format::proofs::Walks::times_done))]
fn walk_components<P: PoolView, V: Visit>(
    count: u16,
    cursor: &mut Cursor<'_>,
    pool: &P,
    visit: &mut V,
) -> Result<(), ReadFault>
    ensures walks { Walks result (walk (times count (read (P.pool pool.now) (Layout.row component_head (inner_attributes OfComponent)))) (walk_at (V.taken visit.old) cursor.old)) cursor.new (V.taken visit.new) }
    ensures stands { StandsWithin cursor.old cursor.new }
{
    for _ in 0..count {
        walk_component(cursor, pool, visit)?;
    }
    Ok(())
}

/// The body of a Record: its components, behind their two-byte count (JVMS 4.7.30).
#[cycle(attributes)]
#[tactic(auto, using(desk_format::proofs::Walks::table_walked, desk_format::proofs::Walks::table_stopped))]
fn walk_record<P: PoolView, V: Visit>(
    cursor: &mut Cursor<'_>,
    pool: &P,
    visit: &mut V,
) -> Result<(), ReadFault>
    ensures walks { Walks result (walk (read (P.pool pool.now) (many (Layout.row component_head (inner_attributes OfComponent)))) (walk_at (V.taken visit.old) cursor.old)) cursor.new (V.taken visit.new) }
    ensures stands { StandsWithin cursor.old cursor.new }
{
    let count = walk_u2(cursor)?;
    walk_components(count, cursor, pool, visit)
}

/// The body of an attribute of a name at a place; raw where it has no layout there.
#[cycle(attributes)]
fn walk_body<P: PoolView, V: Visit>(
    place: Location,
    attribute: Option<Attribute>,
    length: u32,
    cursor: &mut Cursor<'_>,
    pool: &P,
    visit: &mut V,
) -> Result<(), ReadFault>
    ensures walks { Walks result (walk (read (P.pool pool.now) (body_at place length attribute)) (walk_at (V.taken visit.old) cursor.old)) cursor.new (V.taken visit.new) }
    ensures stands { StandsWithin cursor.old cursor.new }
{
    let known = match attribute {
        Some(known) => known,
        None => return walk_raw(length, cursor),
    };
    if !may_stand(known, place) {
        return walk_raw(length, cursor);
    }
    match known {
        Attribute::Code => walk_code(cursor, pool, visit),
        Attribute::Record => walk_record(cursor, pool, visit),
        known => walk_known(known, place, length, cursor, pool, visit),
    }
}

/// One attribute at a place (JVMS 4.7): its name, the length of its body, and the body.
///
/// The body is read by the layout of its name at this place, and is raw where the name has none there.
///
/// A name index that names no Utf8 is Index at its place. Where the body has fewer or more bytes than its layout reads, the
/// length is AttributeLength, at its first byte: so is an attribute in the body that reaches past it, at the outer length. A
/// body that reaches past the cursor's end is Truncated at its first byte. Any other fault of the body stands as its walker
/// says. The first of these is the answer; what was handed over by then are the uses before it.
#[cycle(attributes)]
pub fn walk_attribute<P: PoolView, V: Visit>(
    place: Location,
    cursor: &mut Cursor<'_>,
    pool: &P,
    visit: &mut V,
) -> Result<(), ReadFault>
    ensures walks { Walks result (walk (attribute_at (P.pool pool.now) (λ size name. read (P.pool pool.now) (body_at place size (attribute_named name)))) (walk_at (V.taken visit.old) cursor.old)) cursor.new (V.taken visit.new) }
    ensures stands { StandsWithin cursor.old cursor.new }
{
    let head = walk_head(cursor, pool, visit)?;
    let mut inner = cursor.fence(head.length)?;
    match walk_body(place, head.attribute, head.length, &mut inner, pool, visit) {
        Err(fault) => Err(in_fence(head.length_at, fault)),
        Ok(()) => {
            if inner.left() > 0 {
                return Err(ReadFault::Malformed(Malformed {
                    kind: FaultKind::AttributeLength,
                    at: head.length_at,
                }));
            }
            Ok(())
        }
    }
}

/// So many attributes that stand at one place, one behind the other.
#[cycle(attributes)]
#[tactic(auto, using(desk_format::proofs::Walks::times_begin, desk_format::proofs::Walks::times_on, desk_format::proofs::Walks::times_stopped, desk_format::proofs::Walks::times_done))]
fn walk_each_attribute<P: PoolView, V: Visit>(
    count: u16,
    place: Location,
    cursor: &mut Cursor<'_>,
    pool: &P,
    visit: &mut V,
) -> Result<(), ReadFault>
    ensures walks { Walks result (walk (times count (attribute_at (P.pool pool.now) (λ size name. read (P.pool pool.now) (body_at place size (attribute_named name))))) (walk_at (V.taken visit.old) cursor.old)) cursor.new (V.taken visit.new) }
    ensures stands { StandsWithin cursor.old cursor.new }
{
    for _ in 0..count {
        walk_attribute(place, cursor, pool, visit)?;
    }
    Ok(())
}

/// The attributes at a place, behind their two-byte count.
///
/// A name index that names no Utf8 is Index at its place. Where the body of one has fewer or more bytes than its layout reads, the
/// length is AttributeLength, at its first byte: so is an attribute in the body that reaches past it, at the outer length. A
/// body that reaches past the cursor's end is Truncated at its first byte. Any other fault of the body stands as its walker
/// says. The first of these is the answer; what was handed over by then are the uses before it.
#[cycle(attributes)]
#[tactic(auto, using(crate::proofs::Nests::attributes_walked, crate::proofs::Nests::attributes_stopped))]
pub fn walk_attributes<P: PoolView, V: Visit>(
    place: Location,
    cursor: &mut Cursor<'_>,
    pool: &P,
    visit: &mut V,
) -> Result<(), ReadFault>
    ensures walks { Walks result (walk (read (P.pool pool.now) (attributes_of place)) (walk_at (V.taken visit.old) cursor.old)) cursor.new (V.taken visit.new) }
    ensures stands { StandsWithin cursor.old cursor.new }
{
    let count = walk_u2(cursor)?;
    walk_each_attribute(count, place, cursor, pool, visit)
}

//! Element values and annotations (JVMS 4.7.16).

ghost use Rattle.std.specs.Prelude.{◌≡◌, ◌≢◌, ◌-◌, ◌≤◌, ◌∷◌, [], IfSome, IfNone, Some, None};
ghost use Rattle.std.specs.Int.{w8};
ghost use Rattle.desk_format.specs.Layouts.{Layout};
ghost use Rattle.desk_format.specs.Rows.{rows, many, tag_check, tag_branch};
ghost use Rattle.desk_format.specs.Annotations.{element, element_cases, annotation, annotation_of, pair_of};
ghost use Rattle.desk_format.specs.Reading.{read, times};
ghost use Rattle.desk_format.specs.Walk.{walk, walk_at, Walks};
ghost use Rattle.desk_annos.specs.Stands.{StandsWithin};

use crate::items::{read_tag, walk_index, walk_u1, walk_u2};
use desk_base::{Cursor, FaultKind, Malformed, PoolView, ReadFault, UseKind, Visit};

/// What an element value's one index must name, where its tag stands for a constant, a string or a class.
fn constant_kind(tag: u8) -> Option<UseKind>
    ensures some { IfSome result (λ kind. (inner : Layout) → (tag_check FaultKind.ElementTag (element_cases inner) tag ≡ None) × (tag_branch (element_cases inner) tag ≡ Layout.index kind)) }
    ensures none { IfNone result (tag ≢ 101 → tag ≢ 64 → tag ≢ 91 → (inner : Layout) → tag_check FaultKind.ElementTag (element_cases inner) tag ≡ Some FaultKind.ElementTag) }
{
    match tag {
        b'B' | b'C' | b'I' | b'S' | b'Z' => Some(UseKind::Integer),
        b'D' => Some(UseKind::Double),
        b'F' => Some(UseKind::Float),
        b'J' => Some(UseKind::Long),
        b's' => Some(UseKind::Str),
        b'c' => Some(UseKind::ReturnDescriptor),
        _ => None,
    }
}

/// An enum constant: its type, and its name.
#[tactic(auto, using(desk_format::proofs::Walks::row_walked, desk_format::proofs::Walks::row_stopped, crate::proofs::Steps::last_walked))]
fn walk_constant<P: PoolView, V: Visit>(
    cursor: &mut Cursor<'_>,
    pool: &P,
    visit: &mut V,
) -> Result<(), ReadFault>
    ensures walks { Walks result (walk (read (P.pool pool.now) (rows (Layout.index UseKind.FieldDescriptor ∷ Layout.index UseKind.Plain ∷ []))) (walk_at (V.taken visit.old) cursor.old)) cursor.new (V.taken visit.new) }
    ensures stands { StandsWithin cursor.old cursor.new }
{
    walk_index(UseKind::FieldDescriptor, cursor, pool, visit)?;
    walk_index(UseKind::Plain, cursor, pool, visit)
}

/// An element value of a depth. One that stands in no other has depth 1, and one inside another the outer depth plus 1.
///
/// From depth 65 on it is Depth at the cursor's place, and nothing is read. An unknown tag is ElementTag at the tag. An item that
/// reaches past the cursor's end is Truncated at its first byte. The first of these, or of the faults of the indices, is the
/// answer; what was handed over by then are the uses before it.
#[cycle(elements)]
#[tactic(auto, using(crate::proofs::Depths::too_deep, crate::proofs::Depths::element_selected, crate::proofs::Depths::element_refused, crate::proofs::Depths::element_stopped))]
pub fn walk_element<P: PoolView, V: Visit>(
    cursor: &mut Cursor<'_>,
    depth: u8,
    pool: &P,
    visit: &mut V,
) -> Result<(), ReadFault>
    ensures walks { Walks result (walk (read (P.pool pool.now) (element (65 - depth))) (walk_at (V.taken visit.old) cursor.old)) cursor.new (V.taken visit.new) }
    ensures stands { StandsWithin cursor.old cursor.new }
{
    let at = cursor.at();
    if depth >= 65 {
        return Err(ReadFault::Malformed(Malformed {
            kind: FaultKind::Depth,
            at,
        }));
    }
    let tag = read_tag(cursor)?;
    match tag {
        b'e' => walk_constant(cursor, pool, visit),
        b'@' => walk_annotation(cursor, depth + 1, pool, visit),
        b'[' => walk_array(cursor, depth + 1, pool, visit),
        _ => match constant_kind(tag) {
            Some(kind) => walk_index(kind, cursor, pool, visit),
            None => Err(ReadFault::Malformed(Malformed {
                kind: FaultKind::ElementTag,
                at,
            })),
        },
    }
}

/// So many element values of a depth.
#[cycle(elements)]
#[tactic(auto, using(desk_format::proofs::Walks::times_begin, desk_format::proofs::Walks::times_on, desk_format::proofs::Walks::times_stopped, desk_format::proofs::Walks::times_done))]
fn walk_elements<P: PoolView, V: Visit>(
    count: u16,
    cursor: &mut Cursor<'_>,
    depth: u8,
    pool: &P,
    visit: &mut V,
) -> Result<(), ReadFault>
    ensures walks { Walks result (walk (times count (read (P.pool pool.now) (element (65 - depth)))) (walk_at (V.taken visit.old) cursor.old)) cursor.new (V.taken visit.new) }
    ensures stands { StandsWithin cursor.old cursor.new }
{
    for _ in 0..count {
        walk_element(cursor, depth, pool, visit)?;
    }
    Ok(())
}

/// An array of element values of a depth.
#[cycle(elements)]
#[tactic(auto, using(desk_format::proofs::Walks::table_walked, desk_format::proofs::Walks::table_stopped))]
fn walk_array<P: PoolView, V: Visit>(
    cursor: &mut Cursor<'_>,
    depth: u8,
    pool: &P,
    visit: &mut V,
) -> Result<(), ReadFault>
    ensures walks { Walks result (walk (read (P.pool pool.now) (many (element (65 - depth)))) (walk_at (V.taken visit.old) cursor.old)) cursor.new (V.taken visit.new) }
    ensures stands { StandsWithin cursor.old cursor.new }
{
    let count = walk_u2(cursor)?;
    walk_elements(count, cursor, depth, pool, visit)
}

/// A name, and an element value of a depth.
#[cycle(elements)]
#[tactic(auto, using(desk_format::proofs::Walks::row_walked, desk_format::proofs::Walks::row_stopped))]
fn walk_pair<P: PoolView, V: Visit>(
    cursor: &mut Cursor<'_>,
    depth: u8,
    pool: &P,
    visit: &mut V,
) -> Result<(), ReadFault>
    ensures walks { Walks result (walk (read (P.pool pool.now) (pair_of (element (65 - depth)))) (walk_at (V.taken visit.old) cursor.old)) cursor.new (V.taken visit.new) }
    ensures stands { StandsWithin cursor.old cursor.new }
{
    walk_index(UseKind::Plain, cursor, pool, visit)?;
    walk_element(cursor, depth, pool, visit)
}

/// So many names with element values of a depth.
#[cycle(elements)]
#[tactic(auto, using(desk_format::proofs::Walks::times_begin, desk_format::proofs::Walks::times_on, desk_format::proofs::Walks::times_stopped, desk_format::proofs::Walks::times_done))]
fn walk_pairs<P: PoolView, V: Visit>(
    count: u16,
    cursor: &mut Cursor<'_>,
    depth: u8,
    pool: &P,
    visit: &mut V,
) -> Result<(), ReadFault>
    ensures walks { Walks result (walk (times count (read (P.pool pool.now) (pair_of (element (65 - depth))))) (walk_at (V.taken visit.old) cursor.old)) cursor.new (V.taken visit.new) }
    ensures stands { StandsWithin cursor.old cursor.new }
{
    for _ in 0..count {
        walk_pair(cursor, depth, pool, visit)?;
    }
    Ok(())
}

/// A table of names with element values of a depth.
#[cycle(elements)]
#[tactic(auto, using(desk_format::proofs::Walks::table_walked, desk_format::proofs::Walks::table_stopped))]
fn walk_pair_table<P: PoolView, V: Visit>(
    cursor: &mut Cursor<'_>,
    depth: u8,
    pool: &P,
    visit: &mut V,
) -> Result<(), ReadFault>
    ensures walks { Walks result (walk (read (P.pool pool.now) (many (pair_of (element (65 - depth))))) (walk_at (V.taken visit.old) cursor.old)) cursor.new (V.taken visit.new) }
    ensures stands { StandsWithin cursor.old cursor.new }
{
    let count = walk_u2(cursor)?;
    walk_pairs(count, cursor, depth, pool, visit)
}

/// An annotation: its type, and its elements, whose values have a depth.
#[cycle(elements)]
#[tactic(auto, using(desk_format::proofs::Walks::row_walked, desk_format::proofs::Walks::row_stopped))]
pub(crate) fn walk_annotation<P: PoolView, V: Visit>(
    cursor: &mut Cursor<'_>,
    depth: u8,
    pool: &P,
    visit: &mut V,
) -> Result<(), ReadFault>
    ensures walks { Walks result (walk (read (P.pool pool.now) (annotation_of (element (65 - depth)))) (walk_at (V.taken visit.old) cursor.old)) cursor.new (V.taken visit.new) }
    ensures stands { StandsWithin cursor.old cursor.new }
{
    walk_index(UseKind::FieldDescriptor, cursor, pool, visit)?;
    walk_pair_table(cursor, depth, pool, visit)
}

/// So many annotations, one behind the other.
#[tactic(auto, using(desk_format::proofs::Walks::times_begin, desk_format::proofs::Walks::times_on, desk_format::proofs::Walks::times_stopped, desk_format::proofs::Walks::times_done))]
fn walk_each_annotation<P: PoolView, V: Visit>(
    count: u16,
    cursor: &mut Cursor<'_>,
    pool: &P,
    visit: &mut V,
) -> Result<(), ReadFault>
    ensures walks { Walks result (walk (times count (read (P.pool pool.now) annotation)) (walk_at (V.taken visit.old) cursor.old)) cursor.new (V.taken visit.new) }
    ensures stands { StandsWithin cursor.old cursor.new }
{
    for _ in 0..count {
        walk_annotation(cursor, 1, pool, visit)?;
    }
    Ok(())
}

/// A table of annotations, as in the body of a RuntimeVisibleAnnotations.
///
/// An element value of depth 65 is Depth, and an unknown tag of one is ElementTag, both at the tag. An item that reaches past
/// the cursor's end is Truncated at its first byte. The first of these, or of the faults of the indices, is the answer; what
/// was handed over by then are the uses before it.
#[tactic(auto, using(desk_format::proofs::Walks::table_walked, desk_format::proofs::Walks::table_stopped))]
pub fn walk_annotations<P: PoolView, V: Visit>(
    cursor: &mut Cursor<'_>,
    pool: &P,
    visit: &mut V,
) -> Result<(), ReadFault>
    ensures walks { Walks result (walk (read (P.pool pool.now) (many annotation)) (walk_at (V.taken visit.old) cursor.old)) cursor.new (V.taken visit.new) }
    ensures stands { StandsWithin cursor.old cursor.new }
{
    let count = walk_u2(cursor)?;
    walk_each_annotation(count, cursor, pool, visit)
}

/// So many tables of annotations, one for each parameter (JVMS 4.7.18).
#[tactic(auto, using(desk_format::proofs::Walks::times_begin, desk_format::proofs::Walks::times_on, desk_format::proofs::Walks::times_stopped, desk_format::proofs::Walks::times_done))]
fn walk_each_parameter<P: PoolView, V: Visit>(
    count: u8,
    cursor: &mut Cursor<'_>,
    pool: &P,
    visit: &mut V,
) -> Result<(), ReadFault>
    ensures walks { Walks result (walk (times count (read (P.pool pool.now) (many annotation))) (walk_at (V.taken visit.old) cursor.old)) cursor.new (V.taken visit.new) }
    ensures stands { StandsWithin cursor.old cursor.new }
{
    for _ in 0..count {
        walk_annotations(cursor, pool, visit)?;
    }
    Ok(())
}

/// For each parameter a table of annotations, behind a one-byte count, as in the body of a
/// RuntimeVisibleParameterAnnotations.
///
/// An element value of depth 65 is Depth, and an unknown tag of one is ElementTag, both at the tag. An item that reaches past
/// the cursor's end is Truncated at its first byte. The first of these, or of the faults of the indices, is the answer; what
/// was handed over by then are the uses before it.
#[tactic(auto, using(crate::proofs::Steps::sized_table_walked, crate::proofs::Steps::sized_table_stopped))]
pub fn walk_parameter_annotations<P: PoolView, V: Visit>(
    cursor: &mut Cursor<'_>,
    pool: &P,
    visit: &mut V,
) -> Result<(), ReadFault>
    ensures walks { Walks result (walk (read (P.pool pool.now) (Layout.table w8 (many annotation))) (walk_at (V.taken visit.old) cursor.old)) cursor.new (V.taken visit.new) }
    ensures stands { StandsWithin cursor.old cursor.new }
{
    let count = walk_u1(cursor)?;
    walk_each_parameter(count, cursor, pool, visit)
}

//! Type annotations (JVMS 4.7.20).

ghost use Rattle.std.specs.Prelude.{◌≡◌, ◌∷◌, [], ℕ, List};
ghost use Rattle.std.specs.Int.{w8};
ghost use Rattle.desk_base.specs.Entries.{Pool};
ghost use Rattle.desk_base.specs.declared.kinds.Used.{Used as UsedOf};
ghost use Rattle.desk_format.specs.Layouts.{Layout};
ghost use Rattle.desk_format.specs.Rows.{u1, u2, rows, many, row_layout, table_layout};
ghost use Rattle.desk_format.specs.Annotations.{annotation, target, path_kind, path_step, type_path, type_annotation};
ghost use Rattle.desk_format.specs.Reading.{read, times};
ghost use Rattle.desk_format.specs.Walk.{walk, walk_at, Walks};
ghost use Rattle.desk_annos.specs.Stands.{StandsWithin};

use crate::elements::walk_annotation;
use crate::items::{read_tag, walk_u1, walk_u2};
use crate::rows::walk_table;
use desk_base::{Cursor, FaultKind, Malformed, PoolView, ReadFault, Visit};
use desk_format::Slot;

/// Two one-byte numbers.
#[tactic(auto, using(crate::proofs::Steps::pair_walked, crate::proofs::Steps::pair_stopped, desk_format::proofs::Walks::row_stopped))]
fn walk_two_u1(cursor: &mut Cursor<'_>) -> Result<(), ReadFault>
    ensures walks { (us : List UsedOf) (entries : Pool) → Walks result (walk (read entries (rows (u1 ∷ u1 ∷ []))) (walk_at us cursor.old)) cursor.new us }
    ensures stands { StandsWithin cursor.old cursor.new }
{
    walk_u1(cursor)?;
    walk_u1(cursor)?;
    Ok(())
}

/// An offset, and the number of a type argument.
#[tactic(auto, using(crate::proofs::Steps::pair_walked, crate::proofs::Steps::pair_stopped, desk_format::proofs::Walks::row_stopped))]
fn walk_offset_and_argument(cursor: &mut Cursor<'_>) -> Result<(), ReadFault>
    ensures walks { (us : List UsedOf) (entries : Pool) → Walks result (walk (read entries (rows (u2 ∷ u1 ∷ []))) (walk_at us cursor.old)) cursor.new us }
    ensures stands { StandsWithin cursor.old cursor.new }
{
    walk_u2(cursor)?;
    walk_u1(cursor)?;
    Ok(())
}

/// A target type, and what it selects.
fn walk_target<P: PoolView, V: Visit>(
    cursor: &mut Cursor<'_>,
    pool: &P,
    visit: &mut V,
) -> Result<(), ReadFault>
    ensures walks { Walks result (walk (read (P.pool pool.now) target) (walk_at (V.taken visit.old) cursor.old)) cursor.new (V.taken visit.new) }
    ensures stands { StandsWithin cursor.old cursor.new }
{
    let at = cursor.at();
    let tag = read_tag(cursor)?;
    match tag {
        0x00 | 0x01 | 0x16 => {
            walk_u1(cursor)?;
            Ok(())
        }
        0x11 | 0x12 => walk_two_u1(cursor),
        0x13..=0x15 => Ok(()),
        0x40 | 0x41 => walk_table(
            &[Slot::Number, Slot::Number, Slot::Number],
            cursor,
            pool,
            visit,
        ),
        0x10 | 0x17 | 0x42..=0x46 => {
            walk_u2(cursor)?;
            Ok(())
        }
        0x47..=0x4B => walk_offset_and_argument(cursor),
        _ => Err(ReadFault::Malformed(Malformed {
            kind: FaultKind::TargetType,
            at,
        })),
    }
}

/// The kind of a step of a type path, 0 to 3.
#[tactic(auto, unfolding(desk_format::specs::Walk::walk, desk_format::specs::Reading::number_at, desk_format::specs::Reading::read))]
fn walk_path_kind(cursor: &mut Cursor<'_>) -> Result<(), ReadFault>
    ensures walks { (us : List UsedOf) (entries : Pool) → Walks result (walk (read entries (Layout.number w8 path_kind)) (walk_at us cursor.old)) cursor.new us }
    ensures stands { StandsWithin cursor.old cursor.new }
{
    let at = cursor.at();
    let kind = cursor.u1()?;
    if kind > 3 {
        return Err(ReadFault::Malformed(Malformed {
            kind: FaultKind::PathKind,
            at,
        }));
    }
    Ok(())
}

/// A step of a type path: its kind, and the number of a type argument.
#[tactic(auto, using(crate::proofs::Steps::pair_walked, crate::proofs::Steps::pair_stopped, desk_format::proofs::Walks::row_stopped))]
fn walk_step(cursor: &mut Cursor<'_>) -> Result<(), ReadFault>
    ensures walks { (us : List UsedOf) (entries : Pool) → Walks result (walk (read entries path_step) (walk_at us cursor.old)) cursor.new us }
    ensures stands { StandsWithin cursor.old cursor.new }
{
    walk_path_kind(cursor)?;
    walk_u1(cursor)?;
    Ok(())
}

/// So many steps of a type path, each two bytes: a kind, and the number of a type argument (JVMS 4.7.20.2).
#[tactic(auto, using(desk_format::proofs::Walks::times_begin, desk_format::proofs::Walks::times_on, desk_format::proofs::Walks::times_stopped, desk_format::proofs::Walks::times_done))]
fn walk_steps(count: u8, cursor: &mut Cursor<'_>) -> Result<(), ReadFault>
    ensures walks { (us : List UsedOf) (entries : Pool) → Walks result (walk (times count (read entries path_step)) (walk_at us cursor.old)) cursor.new us }
    ensures stands { StandsWithin cursor.old cursor.new }
{
    for _ in 0..count {
        walk_step(cursor)?;
    }
    Ok(())
}

/// A type path, behind its one-byte count.
#[tactic(auto, using(crate::proofs::Steps::sized_table_walked, crate::proofs::Steps::sized_table_stopped))]
fn walk_path(cursor: &mut Cursor<'_>) -> Result<(), ReadFault>
    ensures walks { (us : List UsedOf) (entries : Pool) → Walks result (walk (read entries type_path) (walk_at us cursor.old)) cursor.new us }
    ensures stands { StandsWithin cursor.old cursor.new }
{
    let count = walk_u1(cursor)?;
    walk_steps(count, cursor)
}

/// A type path, and an annotation.
#[tactic(auto, using(desk_format::proofs::Walks::row_walked, desk_format::proofs::Walks::row_stopped, crate::proofs::Steps::last_walked))]
fn walk_path_and_annotation<P: PoolView, V: Visit>(
    cursor: &mut Cursor<'_>,
    pool: &P,
    visit: &mut V,
) -> Result<(), ReadFault>
    ensures walks { Walks result (walk (read (P.pool pool.now) (rows (type_path ∷ annotation ∷ []))) (walk_at (V.taken visit.old) cursor.old)) cursor.new (V.taken visit.new) }
    ensures stands { StandsWithin cursor.old cursor.new }
{
    walk_path(cursor)?;
    walk_annotation(cursor, 1, pool, visit)
}

/// A type annotation: its target, its path, and an annotation.
#[tactic(auto, using(desk_format::proofs::Walks::row_walked, desk_format::proofs::Walks::row_stopped))]
fn walk_type_annotation<P: PoolView, V: Visit>(
    cursor: &mut Cursor<'_>,
    pool: &P,
    visit: &mut V,
) -> Result<(), ReadFault>
    ensures walks { Walks result (walk (read (P.pool pool.now) type_annotation) (walk_at (V.taken visit.old) cursor.old)) cursor.new (V.taken visit.new) }
    ensures stands { StandsWithin cursor.old cursor.new }
{
    walk_target(cursor, pool, visit)?;
    walk_path_and_annotation(cursor, pool, visit)
}

/// So many type annotations, one behind the other.
#[tactic(auto, using(desk_format::proofs::Walks::times_begin, desk_format::proofs::Walks::times_on, desk_format::proofs::Walks::times_stopped, desk_format::proofs::Walks::times_done))]
fn walk_each_type_annotation<P: PoolView, V: Visit>(
    count: u16,
    cursor: &mut Cursor<'_>,
    pool: &P,
    visit: &mut V,
) -> Result<(), ReadFault>
    ensures walks { Walks result (walk (times count (read (P.pool pool.now) type_annotation)) (walk_at (V.taken visit.old) cursor.old)) cursor.new (V.taken visit.new) }
    ensures stands { StandsWithin cursor.old cursor.new }
{
    for _ in 0..count {
        walk_type_annotation(cursor, pool, visit)?;
    }
    Ok(())
}

/// A table of type annotations, as in the body of a RuntimeVisibleTypeAnnotations.
///
/// An unknown target type is TargetType, a path kind above 3 PathKind, an element value of depth 65 Depth, and an unknown tag
/// of one ElementTag, each at its place. An item that reaches past the cursor's end is Truncated at its first byte. The first
/// of these, or of the faults of the indices, is the answer; what was handed over by then are the uses before it.
#[tactic(auto, using(desk_format::proofs::Walks::table_walked, desk_format::proofs::Walks::table_stopped))]
pub fn walk_type_annotations<P: PoolView, V: Visit>(
    cursor: &mut Cursor<'_>,
    pool: &P,
    visit: &mut V,
) -> Result<(), ReadFault>
    ensures walks { Walks result (walk (read (P.pool pool.now) (many type_annotation)) (walk_at (V.taken visit.old) cursor.old)) cursor.new (V.taken visit.new) }
    ensures stands { StandsWithin cursor.old cursor.new }
{
    let count = walk_u2(cursor)?;
    walk_each_type_annotation(count, cursor, pool, visit)
}

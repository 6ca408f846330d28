//! Stack map frames (JVMS 4.7.4).

ghost use Rattle.std.specs.Prelude.{◌≡◌, replicate, ◌∷◌, [], ℕ, List};
ghost use Rattle.desk_format.specs.Layouts.{Layout};
ghost use Rattle.desk_format.specs.Rows.{u2, rows, many};
ghost use Rattle.desk_format.specs.Frames.{verification_type, frame};
ghost use Rattle.desk_format.specs.Reading.{read, times};
ghost use Rattle.desk_format.specs.Walk.{walk, walk_at, Walks};
ghost use Rattle.desk_annos.specs.Stands.{StandsWithin};

use crate::items::{read_tag, walk_index, walk_u2};
use desk_base::{Cursor, FaultKind, Malformed, PoolView, ReadFault, UseKind, Visit};

/// A verification type: a one-byte tag, and behind 7 the index of a Class, behind 8 an offset (JVMS 4.7.4).
fn walk_type<P: PoolView, V: Visit>(
    cursor: &mut Cursor<'_>,
    pool: &P,
    visit: &mut V,
) -> Result<(), ReadFault>
    ensures walks { Walks result (walk (read (P.pool pool.now) verification_type) (walk_at (V.taken visit.old) cursor.old)) cursor.new (V.taken visit.new) }
    ensures stands { StandsWithin cursor.old cursor.new }
{
    let at = cursor.at();
    let tag = read_tag(cursor)?;
    match tag {
        0..=6 => Ok(()),
        7 => walk_index(UseKind::Class, cursor, pool, visit),
        8 => {
            walk_u2(cursor)?;
            Ok(())
        }
        _ => Err(ReadFault::Malformed(Malformed {
            kind: FaultKind::TypeTag,
            at,
        })),
    }
}

/// So many verification types, one behind the other.
#[tactic(auto, using(desk_format::proofs::Walks::times_begin, desk_format::proofs::Walks::times_on, desk_format::proofs::Walks::times_stopped, desk_format::proofs::Walks::times_done))]
fn walk_types<P: PoolView, V: Visit>(
    count: u16,
    cursor: &mut Cursor<'_>,
    pool: &P,
    visit: &mut V,
) -> Result<(), ReadFault>
    ensures walks { Walks result (walk (times count (read (P.pool pool.now) verification_type)) (walk_at (V.taken visit.old) cursor.old)) cursor.new (V.taken visit.new) }
    ensures stands { StandsWithin cursor.old cursor.new }
{
    for _ in 0..count {
        walk_type(cursor, pool, visit)?;
    }
    Ok(())
}

/// A table of verification types, behind its two-byte count.
#[tactic(auto, using(desk_format::proofs::Walks::table_walked, desk_format::proofs::Walks::table_stopped))]
fn walk_type_table<P: PoolView, V: Visit>(
    cursor: &mut Cursor<'_>,
    pool: &P,
    visit: &mut V,
) -> Result<(), ReadFault>
    ensures walks { Walks result (walk (read (P.pool pool.now) (many verification_type)) (walk_at (V.taken visit.old) cursor.old)) cursor.new (V.taken visit.new) }
    ensures stands { StandsWithin cursor.old cursor.new }
{
    let count = walk_u2(cursor)?;
    walk_types(count, cursor, pool, visit)
}

/// An offset, and so many verification types.
#[tactic(auto, using(desk_format::proofs::Walks::row_walked, desk_format::proofs::Walks::row_stopped, crate::proofs::Steps::copies_walked))]
fn walk_offset_and_types<P: PoolView, V: Visit>(
    count: u8,
    cursor: &mut Cursor<'_>,
    pool: &P,
    visit: &mut V,
) -> Result<(), ReadFault>
    ensures walks { Walks result (walk (read (P.pool pool.now) (rows (u2 ∷ replicate count verification_type))) (walk_at (V.taken visit.old) cursor.old)) cursor.new (V.taken visit.new) }
    ensures stands { StandsWithin cursor.old cursor.new }
{
    walk_u2(cursor)?;
    walk_types(u16::from(count), cursor, pool, visit)
}

/// The tables of all locals and of the stack.
#[tactic(auto, using(desk_format::proofs::Walks::row_walked, desk_format::proofs::Walks::row_stopped, crate::proofs::Steps::last_walked))]
fn walk_locals_and_stack<P: PoolView, V: Visit>(
    cursor: &mut Cursor<'_>,
    pool: &P,
    visit: &mut V,
) -> Result<(), ReadFault>
    ensures walks { Walks result (walk (read (P.pool pool.now) (rows (many verification_type ∷ many verification_type ∷ []))) (walk_at (V.taken visit.old) cursor.old)) cursor.new (V.taken visit.new) }
    ensures stands { StandsWithin cursor.old cursor.new }
{
    walk_type_table(cursor, pool, visit)?;
    walk_type_table(cursor, pool, visit)
}

/// An offset, and the tables of all locals and of the stack.
#[tactic(auto, using(desk_format::proofs::Walks::row_walked, desk_format::proofs::Walks::row_stopped))]
fn walk_full_frame<P: PoolView, V: Visit>(
    cursor: &mut Cursor<'_>,
    pool: &P,
    visit: &mut V,
) -> Result<(), ReadFault>
    ensures walks { Walks result (walk (read (P.pool pool.now) (rows (u2 ∷ many verification_type ∷ many verification_type ∷ []))) (walk_at (V.taken visit.old) cursor.old)) cursor.new (V.taken visit.new) }
    ensures stands { StandsWithin cursor.old cursor.new }
{
    walk_u2(cursor)?;
    walk_locals_and_stack(cursor, pool, visit)
}

/// A frame of a stack map: its one-byte tag, and what that tag says comes behind it (JVMS 4.7.4).
fn walk_frame<P: PoolView, V: Visit>(
    cursor: &mut Cursor<'_>,
    pool: &P,
    visit: &mut V,
) -> Result<(), ReadFault>
    ensures walks { Walks result (walk (read (P.pool pool.now) frame) (walk_at (V.taken visit.old) cursor.old)) cursor.new (V.taken visit.new) }
    ensures stands { StandsWithin cursor.old cursor.new }
{
    let at = cursor.at();
    let tag = read_tag(cursor)?;
    match tag {
        0..=63 => Ok(()),
        64..=127 => walk_type(cursor, pool, visit),
        247 => walk_offset_and_types(1, cursor, pool, visit),
        248..=251 => {
            walk_u2(cursor)?;
            Ok(())
        }
        252 => walk_offset_and_types(1, cursor, pool, visit),
        253 => walk_offset_and_types(2, cursor, pool, visit),
        254 => walk_offset_and_types(3, cursor, pool, visit),
        255 => walk_full_frame(cursor, pool, visit),
        _ => Err(ReadFault::Malformed(Malformed {
            kind: FaultKind::FrameTag,
            at,
        })),
    }
}

/// So many frames of a stack map, one behind the other.
#[tactic(auto, using(desk_format::proofs::Walks::times_begin, desk_format::proofs::Walks::times_on, desk_format::proofs::Walks::times_stopped, desk_format::proofs::Walks::times_done))]
fn walk_each_frame<P: PoolView, V: Visit>(
    count: u16,
    cursor: &mut Cursor<'_>,
    pool: &P,
    visit: &mut V,
) -> Result<(), ReadFault>
    ensures walks { Walks result (walk (times count (read (P.pool pool.now) frame)) (walk_at (V.taken visit.old) cursor.old)) cursor.new (V.taken visit.new) }
    ensures stands { StandsWithin cursor.old cursor.new }
{
    for _ in 0..count {
        walk_frame(cursor, pool, visit)?;
    }
    Ok(())
}

/// A table of stack map frames, as in the body of a StackMapTable.
///
/// A tag from 128 to 246 is FrameTag, and a verification type's tag above 8 is TypeTag, both at the tag. An item that
/// reaches past the cursor's end is Truncated at its first byte. The first of these, or of the faults of the indices, is the
/// answer; what was handed over by then are the uses before it.
#[tactic(auto, using(desk_format::proofs::Walks::table_walked, desk_format::proofs::Walks::table_stopped))]
pub fn walk_frames<P: PoolView, V: Visit>(
    cursor: &mut Cursor<'_>,
    pool: &P,
    visit: &mut V,
) -> Result<(), ReadFault>
    ensures walks { Walks result (walk (read (P.pool pool.now) (many frame)) (walk_at (V.taken visit.old) cursor.old)) cursor.new (V.taken visit.new) }
    ensures stands { StandsWithin cursor.old cursor.new }
{
    let count = walk_u2(cursor)?;
    walk_each_frame(count, cursor, pool, visit)
}

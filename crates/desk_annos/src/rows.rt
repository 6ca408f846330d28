//! Rows of slots, each two bytes wide, and tables of such rows.

ghost use Rattle.std.specs.Prelude.{◌≡◌};
ghost use Rattle.desk_format.specs.Layouts.{Layout};
ghost use Rattle.desk_format.specs.Rows.{slot_layout, row_layout, table_layout};
ghost use Rattle.desk_format.specs.Reading.{read, times};
ghost use Rattle.desk_format.specs.Walk.{walk, walk_at, Walks};
ghost use Rattle.desk_annos.specs.Stands.{StandsWithin};

use crate::items::{walk_index, walk_u2};
use desk_base::{Cursor, PoolView, ReadFault, Visit};
use desk_format::Slot;

/// A slot: a number, or an index of the constant pool.
fn walk_slot<P: PoolView, V: Visit>(
    slot: Slot,
    cursor: &mut Cursor<'_>,
    pool: &P,
    visit: &mut V,
) -> Result<(), ReadFault>
    ensures walks { Walks result (walk (read (P.pool pool.now) (slot_layout slot)) (walk_at (V.taken visit.old) cursor.old)) cursor.new (V.taken visit.new) }
    ensures stands { StandsWithin cursor.old cursor.new }
{
    match slot {
        Slot::Number => {
            walk_u2(cursor)?;
            Ok(())
        }
        Slot::Index(kind) => walk_index(kind, cursor, pool, visit),
    }
}

/// One row of slots. The first fault of a slot, in their order, is the answer.
#[tactic(auto, using(desk_format::proofs::Walks::row_on, desk_format::proofs::Walks::row_done, crate::proofs::Steps::slot_stopped))]
pub fn walk_row<P: PoolView, V: Visit>(
    slots: &[Slot],
    cursor: &mut Cursor<'_>,
    pool: &P,
    visit: &mut V,
) -> Result<(), ReadFault>
    ensures walks { Walks result (walk (read (P.pool pool.now) (row_layout slots.now)) (walk_at (V.taken visit.old) cursor.old)) cursor.new (V.taken visit.new) }
    ensures stands { StandsWithin cursor.old cursor.new }
{
    for slot in slots {
        walk_slot(*slot, cursor, pool, visit)?;
    }
    Ok(())
}

/// So many rows of slots.
///
/// A slot that reaches past the cursor's end is Truncated at its first byte, and an index that doesn't fit has its fault, at
/// its place. The first of these is the answer; what was handed over by then are the uses before it.
#[tactic(auto, using(desk_format::proofs::Walks::times_begin, desk_format::proofs::Walks::times_on, desk_format::proofs::Walks::times_stopped, desk_format::proofs::Walks::times_done))]
pub fn walk_rows<const N: usize, P: PoolView, V: Visit>(
    rows: u32,
    slots: &[Slot; N],
    cursor: &mut Cursor<'_>,
    pool: &P,
    visit: &mut V,
) -> Result<(), ReadFault>
    ensures walks { Walks result (walk (times rows (read (P.pool pool.now) (row_layout slots.now))) (walk_at (V.taken visit.old) cursor.old)) cursor.new (V.taken visit.new) }
    ensures stands { StandsWithin cursor.old cursor.new }
{
    for _ in 0..rows {
        walk_row(slots, cursor, pool, visit)?;
    }
    Ok(())
}

/// A table of rows of slots, behind its two-byte count.
///
/// A slot that reaches past the cursor's end is Truncated at its first byte, and an index that doesn't fit has its fault, at
/// its place. The first of these is the answer; what was handed over by then are the uses before it.
#[tactic(auto, using(desk_format::proofs::Walks::table_walked, desk_format::proofs::Walks::table_stopped))]
pub fn walk_table<const N: usize, P: PoolView, V: Visit>(
    slots: &[Slot; N],
    cursor: &mut Cursor<'_>,
    pool: &P,
    visit: &mut V,
) -> Result<(), ReadFault>
    ensures walks { Walks result (walk (read (P.pool pool.now) (table_layout slots.now)) (walk_at (V.taken visit.old) cursor.old)) cursor.new (V.taken visit.new) }
    ensures stands { StandsWithin cursor.old cursor.new }
{
    let count = walk_u2(cursor)?;
    walk_rows(u32::from(count), slots, cursor, pool, visit)
}

//! The parts of bodies that are more than a row or a table of slots.

ghost use Rattle.std.specs.Prelude.{◌≡◌, ◌∷◌, [], List, IfOk, take};
ghost use Rattle.std.specs.Int.{w8, w32, from_be_bytes};
ghost use Rattle.desk_base.specs.Entries.{Pool};
ghost use Rattle.desk_base.specs.declared.kinds.UseKind.TheVariants as kinds;
ghost use Rattle.desk_base.specs.declared.kinds.Used.{Used as UsedOf};
ghost use Rattle.desk_format.specs.declared.attributes.Slot.TheVariants as slots;
ghost use Rattle.desk_format.specs.Layouts.{Layout};
ghost use Rattle.desk_format.specs.Rows.{rows, many, row_layout, table_layout};
ghost use Rattle.desk_format.specs.Attributes.{code_length, code_head, module_body};
ghost use Rattle.desk_format.specs.Reading.{read, times, number_at};
ghost use Rattle.desk_format.specs.Walk.{walk, walk_at, Walks};
ghost use Rattle.desk_annos.specs.Stands.{StandsWithin};
ghost use Rattle.desk_attrs.specs.Modules.{packages, provided, required, used};

use desk_annos::{walk_row, walk_rows, walk_table, walk_u1, walk_u2};
use desk_base::{Cursor, FaultKind, Malformed, PoolView, ReadFault, UseKind, Visit};
use desk_format::Slot;

/// Raw bytes, so many.
#[tactic(auto, unfolding(desk_format::specs::Walk::walk, desk_format::specs::Reading::raw_at, desk_format::specs::Reading::read))]
pub(crate) fn walk_raw(size: u32, cursor: &mut Cursor<'_>) -> Result<(), ReadFault>
    ensures walks { (us : List UsedOf) (entries : Pool) → Walks result (walk (read entries (Layout.raw size)) (walk_at us cursor.old)) cursor.new us }
    ensures stands { StandsWithin cursor.old cursor.new }
{
    cursor.take(size)?;
    Ok(())
}

/// The length of code, 1 to 65,535 bytes.
#[tactic(auto, unfolding(desk_format::specs::Walk::walk, desk_format::specs::Reading::number_at))]
fn walk_code_length(cursor: &mut Cursor<'_>) -> Result<u32, ReadFault>
    ensures walks { (us : List UsedOf) → Walks result (walk (number_at w32 code_length) (walk_at us cursor.old)) cursor.new us }
    ensures value { IfOk result (λ n. n ≡ from_be_bytes w32 (take 4 cursor.old.left)) }
    ensures stands { StandsWithin cursor.old cursor.new }
{
    let at = cursor.at();
    let length = cursor.u4()?;
    if length < 1 || length > 65535 {
        return Err(ReadFault::Malformed(Malformed {
            kind: FaultKind::CodeLength,
            at,
        }));
    }
    Ok(length)
}

/// The bytes of code, behind their length.
fn walk_code_bytes(cursor: &mut Cursor<'_>) -> Result<(), ReadFault>
    ensures walks { (us : List UsedOf) (entries : Pool) → Walks result (walk (read entries (Layout.sized w32 code_length)) (walk_at us cursor.old)) cursor.new us }
    ensures stands { StandsWithin cursor.old cursor.new }
{
    let length = walk_code_length(cursor)?;
    walk_raw(length, cursor)
}

/// The bytes of code, and the exception table.
#[tactic(auto, using(desk_format::proofs::Walks::row_walked, desk_format::proofs::Walks::row_stopped, desk_annos::proofs::Steps::last_walked))]
fn walk_code_and_handlers<P: PoolView, V: Visit>(
    cursor: &mut Cursor<'_>,
    pool: &P,
    visit: &mut V,
) -> Result<(), ReadFault>
    ensures walks { Walks result (walk (read (P.pool pool.now) (rows (Layout.sized w32 code_length ∷ table_layout (slots.Number ∷ slots.Number ∷ slots.Number ∷ slots.Index kinds.ClassOrNone ∷ []) ∷ []))) (walk_at (V.taken visit.old) cursor.old)) cursor.new (V.taken visit.new) }
    ensures stands { StandsWithin cursor.old cursor.new }
{
    walk_code_bytes(cursor)?;
    walk_table(
        &[
            Slot::Number,
            Slot::Number,
            Slot::Number,
            Slot::Index(UseKind::ClassOrNone),
        ],
        cursor,
        pool,
        visit,
    )
}

/// A Code without its attributes (JVMS 4.7.3).
#[tactic(auto, using(desk_format::proofs::Walks::row_walked, desk_format::proofs::Walks::row_stopped))]
pub(crate) fn walk_code_head<P: PoolView, V: Visit>(
    cursor: &mut Cursor<'_>,
    pool: &P,
    visit: &mut V,
) -> Result<(), ReadFault>
    ensures walks { Walks result (walk (read (P.pool pool.now) code_head) (walk_at (V.taken visit.old) cursor.old)) cursor.new (V.taken visit.new) }
    ensures stands { StandsWithin cursor.old cursor.new }
{
    walk_row(&[Slot::Number, Slot::Number], cursor, pool, visit)?;
    walk_code_and_handlers(cursor, pool, visit)
}

/// So many rows of a table of line numbers. Where one is cut, the number that is cut is Truncated at its first byte.
#[tactic(auto, using(crate::proofs::Lines::lines_passed))]
fn walk_lines<P: PoolView, V: Visit>(
    rows: u16,
    cursor: &mut Cursor<'_>,
    pool: &P,
    visit: &mut V,
) -> Result<(), ReadFault>
    ensures walks { Walks result (walk (times rows (read (P.pool pool.now) (row_layout (slots.Number ∷ slots.Number ∷ [])))) (walk_at (V.taken visit.old) cursor.old)) cursor.new (V.taken visit.new) }
    ensures stands { StandsWithin cursor.old cursor.new }
{
    let rows = u32::from(rows);
    match cursor.take(4 * rows) {
        Ok(_) => Ok(()),
        Err(_) => walk_rows(rows, &[Slot::Number, Slot::Number], cursor, pool, visit),
    }
}

/// A table of line numbers: rows of two numbers, behind their two-byte count (JVMS 4.7.12). None of them is an index of the
/// constant pool, so that all rows are passed at once where none is cut; where one is, its place is found row by row.
#[tactic(auto, using(desk_format::proofs::Walks::table_walked, desk_format::proofs::Walks::table_stopped))]
pub(crate) fn walk_line_numbers<P: PoolView, V: Visit>(
    cursor: &mut Cursor<'_>,
    pool: &P,
    visit: &mut V,
) -> Result<(), ReadFault>
    ensures walks { Walks result (walk (read (P.pool pool.now) (table_layout (slots.Number ∷ slots.Number ∷ []))) (walk_at (V.taken visit.old) cursor.old)) cursor.new (V.taken visit.new) }
    ensures stands { StandsWithin cursor.old cursor.new }
{
    let count = walk_u2(cursor)?;
    walk_lines(count, cursor, pool, visit)
}

/// A row of slots, and a table of rows of other slots behind it.
#[tactic(auto, using(desk_format::proofs::Walks::row_walked, desk_format::proofs::Walks::row_stopped, desk_annos::proofs::Steps::last_walked))]
fn walk_row_and_table<const N: usize, const M: usize, P: PoolView, V: Visit>(
    row: &[Slot; N],
    behind: &[Slot; M],
    cursor: &mut Cursor<'_>,
    pool: &P,
    visit: &mut V,
) -> Result<(), ReadFault>
    ensures walks { Walks result (walk (read (P.pool pool.now) (rows (row_layout row.now ∷ table_layout behind.now ∷ []))) (walk_at (V.taken visit.old) cursor.old)) cursor.new (V.taken visit.new) }
    ensures stands { StandsWithin cursor.old cursor.new }
{
    walk_row(row, cursor, pool, visit)?;
    walk_table(behind, cursor, pool, visit)
}

/// So many such rows with tables.
#[tactic(auto, using(desk_format::proofs::Walks::times_begin, desk_format::proofs::Walks::times_on, desk_format::proofs::Walks::times_stopped, desk_format::proofs::Walks::times_done))]
fn walk_each_row_and_table<const N: usize, const M: usize, P: PoolView, V: Visit>(
    count: u16,
    row: &[Slot; N],
    behind: &[Slot; M],
    cursor: &mut Cursor<'_>,
    pool: &P,
    visit: &mut V,
) -> Result<(), ReadFault>
    ensures walks { Walks result (walk (times count (read (P.pool pool.now) (rows (row_layout row.now ∷ table_layout behind.now ∷ [])))) (walk_at (V.taken visit.old) cursor.old)) cursor.new (V.taken visit.new) }
    ensures stands { StandsWithin cursor.old cursor.new }
{
    for _ in 0..count {
        walk_row_and_table(row, behind, cursor, pool, visit)?;
    }
    Ok(())
}

/// A table of rows of slots, each with a table of rows of other slots behind it.
#[tactic(auto, using(desk_format::proofs::Walks::table_walked, desk_format::proofs::Walks::table_stopped))]
pub(crate) fn walk_tables<const N: usize, const M: usize, P: PoolView, V: Visit>(
    row: &[Slot; N],
    behind: &[Slot; M],
    cursor: &mut Cursor<'_>,
    pool: &P,
    visit: &mut V,
) -> Result<(), ReadFault>
    ensures walks { Walks result (walk (read (P.pool pool.now) (many (rows (row_layout row.now ∷ table_layout behind.now ∷ [])))) (walk_at (V.taken visit.old) cursor.old)) cursor.new (V.taken visit.new) }
    ensures stands { StandsWithin cursor.old cursor.new }
{
    let count = walk_u2(cursor)?;
    walk_each_row_and_table(count, row, behind, cursor, pool, visit)
}

/// The parameters of a method, behind their one-byte count (JVMS 4.7.24).
#[tactic(auto, using(desk_annos::proofs::Steps::sized_table_walked, desk_annos::proofs::Steps::sized_table_stopped))]
pub(crate) fn walk_method_parameters<P: PoolView, V: Visit>(
    cursor: &mut Cursor<'_>,
    pool: &P,
    visit: &mut V,
) -> Result<(), ReadFault>
    ensures walks { Walks result (walk (read (P.pool pool.now) (Layout.table w8 (row_layout (slots.Index kinds.PlainOrNone ∷ slots.Number ∷ [])))) (walk_at (V.taken visit.old) cursor.old)) cursor.new (V.taken visit.new) }
    ensures stands { StandsWithin cursor.old cursor.new }
{
    let count = walk_u1(cursor)?;
    walk_rows(
        u32::from(count),
        &[Slot::Index(UseKind::PlainOrNone), Slot::Number],
        cursor,
        pool,
        visit,
    )
}

/// What a module exports, or what it opens: packages, each with modules.
fn walk_packages<P: PoolView, V: Visit>(
    cursor: &mut Cursor<'_>,
    pool: &P,
    visit: &mut V,
) -> Result<(), ReadFault>
    ensures walks { Walks result (walk (read (P.pool pool.now) packages) (walk_at (V.taken visit.old) cursor.old)) cursor.new (V.taken visit.new) }
    ensures stands { StandsWithin cursor.old cursor.new }
{
    walk_tables(
        &[Slot::Index(UseKind::Package), Slot::Number],
        &[Slot::Index(UseKind::Module)],
        cursor,
        pool,
        visit,
    )
}

/// What a module provides: services, each with its implementations.
fn walk_provides<P: PoolView, V: Visit>(
    cursor: &mut Cursor<'_>,
    pool: &P,
    visit: &mut V,
) -> Result<(), ReadFault>
    ensures walks { Walks result (walk (read (P.pool pool.now) provided) (walk_at (V.taken visit.old) cursor.old)) cursor.new (V.taken visit.new) }
    ensures stands { StandsWithin cursor.old cursor.new }
{
    walk_tables(
        &[Slot::Index(UseKind::Class)],
        &[Slot::Index(UseKind::Class)],
        cursor,
        pool,
        visit,
    )
}

/// What a module uses, and what it provides.
#[tactic(auto, using(desk_format::proofs::Walks::row_walked, desk_format::proofs::Walks::row_stopped, desk_annos::proofs::Steps::last_walked))]
fn walk_services<P: PoolView, V: Visit>(
    cursor: &mut Cursor<'_>,
    pool: &P,
    visit: &mut V,
) -> Result<(), ReadFault>
    ensures walks { Walks result (walk (read (P.pool pool.now) (rows (used ∷ provided ∷ []))) (walk_at (V.taken visit.old) cursor.old)) cursor.new (V.taken visit.new) }
    ensures stands { StandsWithin cursor.old cursor.new }
{
    walk_table(&[Slot::Index(UseKind::Class)], cursor, pool, visit)?;
    walk_provides(cursor, pool, visit)
}

/// What a module opens, uses and provides.
#[tactic(auto, using(desk_format::proofs::Walks::row_walked, desk_format::proofs::Walks::row_stopped))]
fn walk_opens<P: PoolView, V: Visit>(
    cursor: &mut Cursor<'_>,
    pool: &P,
    visit: &mut V,
) -> Result<(), ReadFault>
    ensures walks { Walks result (walk (read (P.pool pool.now) (rows (packages ∷ used ∷ provided ∷ []))) (walk_at (V.taken visit.old) cursor.old)) cursor.new (V.taken visit.new) }
    ensures stands { StandsWithin cursor.old cursor.new }
{
    walk_packages(cursor, pool, visit)?;
    walk_services(cursor, pool, visit)
}

/// What a module exports, opens, uses and provides.
#[tactic(auto, using(desk_format::proofs::Walks::row_walked, desk_format::proofs::Walks::row_stopped))]
fn walk_exports<P: PoolView, V: Visit>(
    cursor: &mut Cursor<'_>,
    pool: &P,
    visit: &mut V,
) -> Result<(), ReadFault>
    ensures walks { Walks result (walk (read (P.pool pool.now) (rows (packages ∷ packages ∷ used ∷ provided ∷ []))) (walk_at (V.taken visit.old) cursor.old)) cursor.new (V.taken visit.new) }
    ensures stands { StandsWithin cursor.old cursor.new }
{
    walk_packages(cursor, pool, visit)?;
    walk_opens(cursor, pool, visit)
}

/// What a module requires, exports, opens, uses and provides.
#[tactic(auto, using(desk_format::proofs::Walks::row_walked, desk_format::proofs::Walks::row_stopped))]
fn walk_requires<P: PoolView, V: Visit>(
    cursor: &mut Cursor<'_>,
    pool: &P,
    visit: &mut V,
) -> Result<(), ReadFault>
    ensures walks { Walks result (walk (read (P.pool pool.now) (rows (required ∷ packages ∷ packages ∷ used ∷ provided ∷ []))) (walk_at (V.taken visit.old) cursor.old)) cursor.new (V.taken visit.new) }
    ensures stands { StandsWithin cursor.old cursor.new }
{
    walk_table(
        &[
            Slot::Index(UseKind::Module),
            Slot::Number,
            Slot::Index(UseKind::PlainOrNone),
        ],
        cursor,
        pool,
        visit,
    )?;
    walk_exports(cursor, pool, visit)
}

/// A module: itself, and what it requires, exports, opens, uses and provides (JVMS 4.7.25).
#[tactic(auto, using(desk_format::proofs::Walks::row_walked, desk_format::proofs::Walks::row_stopped))]
pub(crate) fn walk_module<P: PoolView, V: Visit>(
    cursor: &mut Cursor<'_>,
    pool: &P,
    visit: &mut V,
) -> Result<(), ReadFault>
    ensures walks { Walks result (walk (read (P.pool pool.now) module_body) (walk_at (V.taken visit.old) cursor.old)) cursor.new (V.taken visit.new) }
    ensures stands { StandsWithin cursor.old cursor.new }
{
    walk_row(
        &[
            Slot::Index(UseKind::Module),
            Slot::Number,
            Slot::Index(UseKind::PlainOrNone),
        ],
        cursor,
        pool,
        visit,
    )?;
    walk_requires(cursor, pool, visit)
}

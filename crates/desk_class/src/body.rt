//! What stands behind the pool (JVMS 4.1).

ghost use Rattle.std.specs.Prelude.{◌≡◌, false, List, IfOk};
ghost use Rattle.desk_base.specs.Spot.{past};
ghost use Rattle.desk_base.specs.declared.kinds.Used.{Used as UsedOf};
ghost use Rattle.desk_format.specs.Layouts.{Layout};
ghost use Rattle.desk_format.specs.ClassBody.{class_body};
ghost use Rattle.desk_format.specs.Reading.{read, times};
ghost use Rattle.desk_format.specs.Walk.{walk, walk_at, Walks};
ghost use Rattle.desk_class.specs.Scan.{scan, scan_at, Scans, class_head, class_kind, interfaces, number_ahead};

use crate::items::{read_class, read_number};
use crate::members::walk_members;
use desk_attrs::walk_attributes;
use desk_base::{Cursor, ReadFault, Used};
use desk_format::{Location, Member};
use desk_pool::Pool;

/// The access flags, this class and the super class. The answer is the index of this class.
#[tactic(auto, using(crate::proofs::Uses::head_walked, crate::proofs::Uses::head_first, crate::proofs::Uses::head_second, crate::proofs::Uses::head_third))]
fn read_head(cursor: &mut Cursor<'_>, pool: &Pool<'_>) -> Result<u16, ReadFault>
    ensures walks { (us : List UsedOf) → Walks result (walk (read pool.now.entries class_head) (walk_at us cursor.old)) cursor.new us }
    ensures this { IfOk result (λ index. index ≡ number_ahead (past 2 cursor.old)) }
{
    let _flags = read_number(cursor)?;
    let this = read_class(false, cursor, pool)?;
    read_class(true, cursor, pool)?;
    Ok(this)
}

/// So many entries of the table `interfaces`, each the index of a Class (JVMS 4.1).
#[tactic(auto, using(desk_format::proofs::Walks::times_begin, desk_format::proofs::Walks::times_on, desk_format::proofs::Walks::times_stopped, desk_format::proofs::Walks::times_done))]
fn read_each_interface(
    count: u16,
    cursor: &mut Cursor<'_>,
    pool: &Pool<'_>,
) -> Result<(), ReadFault>
    ensures { (us : List UsedOf) → Walks result (walk (times count (read pool.now.entries (Layout.index (class_kind false)))) (walk_at us cursor.old)) cursor.new us }
{
    for _ in 0..count {
        read_class(false, cursor, pool)?;
    }
    Ok(())
}

/// The table of the direct superinterfaces, behind its two-byte count (JVMS 4.1).
#[tactic(auto, using(crate::proofs::Uses::interfaces_walked, crate::proofs::Uses::interfaces_stopped))]
fn read_interfaces(cursor: &mut Cursor<'_>, pool: &Pool<'_>) -> Result<(), ReadFault>
    ensures { (us : List UsedOf) → Walks result (walk (read pool.now.entries interfaces) (walk_at us cursor.old)) cursor.new us }
{
    let count = read_number(cursor)?;
    read_each_interface(count, cursor, pool)
}

/// The body of a class. Its uses and its members are handed over; the answer is the index of this class.
#[tactic(auto, using(crate::proofs::Bodies::head_stops))]
pub fn walk_body(
    cursor: &mut Cursor<'_>,
    pool: &Pool<'_>,
    uses: &mut Vec<Used>,
    members: &mut Vec<Member>,
) -> Result<u16, ReadFault>
    ensures scans { Scans result (scan (read pool.now.entries class_body) (scan_at uses.old.items members.old.items cursor.old)) cursor.new uses.new.items members.new.items }
    ensures this { IfOk result (λ index. index ≡ number_ahead (past 2 cursor.old)) }
{
    let this = read_head(cursor, pool)?;
    read_interfaces(cursor, pool)?;
    walk_members(false, cursor, pool, uses, members)?;
    walk_members(true, cursor, pool, uses, members)?;
    walk_attributes(Location::OfClass, cursor, pool, uses)?;
    Ok(this)
}

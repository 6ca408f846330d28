//! Fields and methods, with their attributes (JVMS 4.5, 4.6).

ghost use Rattle.std.specs.Prelude.{◌≡◌, IfOk};
ghost use Rattle.desk_format.specs.Layouts.{Layout};
ghost use Rattle.desk_format.specs.Reading.{read, times};
ghost use Rattle.desk_format.specs.Rows.{many};
ghost use Rattle.desk_format.specs.Walk.{walk, walk_at, Walks};
ghost use Rattle.desk_class.specs.Scan.{scan, scan_at, Scans, head_layout, member_place, member_layout, member_ahead};

use crate::items::{read_number, walk_descriptor, walk_name};
use desk_attrs::walk_attributes;
use desk_base::{Cursor, ReadFault, Used};
use desk_format::{Location, Member};
use desk_pool::Pool;

/// The access flags, name and descriptor of a method or a field.
#[tactic(auto, using(crate::proofs::Uses::head_walked, crate::proofs::Uses::head_first, crate::proofs::Uses::head_second, crate::proofs::Uses::head_third))]
fn walk_head(
    method: bool,
    cursor: &mut Cursor<'_>,
    pool: &Pool<'_>,
    uses: &mut Vec<Used>,
) -> Result<Member, ReadFault>
    ensures walks { Walks result (walk (read pool.now.entries (head_layout method)) (walk_at uses.old.items cursor.old)) cursor.new uses.new.items }
    ensures member { IfOk result (λ member. member ≡ member_ahead method cursor.old) }
{
    let at = cursor.at();
    let _flags = read_number(cursor)?;
    let name = walk_name(cursor, pool, uses)?;
    let descriptor = walk_descriptor(method, cursor, pool, uses)?;
    Ok(Member {
        at,
        name,
        descriptor,
        method,
    })
}

/// The place of the attributes of a method or a field.
fn place_of(method: bool) -> Location
    ensures { result ≡ member_place method }
{
    if method {
        Location::OfMethod
    } else {
        Location::OfField
    }
}

/// A method or a field: its flags, its name, its descriptor and its attributes (JVMS 4.5, 4.6).
#[tactic(auto, using(desk_format::proofs::Walks::row_stopped))]
fn walk_member(
    method: bool,
    cursor: &mut Cursor<'_>,
    pool: &Pool<'_>,
    uses: &mut Vec<Used>,
) -> Result<Member, ReadFault>
    ensures walks { Walks result (walk (read pool.now.entries (member_layout method)) (walk_at uses.old.items cursor.old)) cursor.new uses.new.items }
    ensures member { IfOk result (λ member. member ≡ member_ahead method cursor.old) }
{
    let member = walk_head(method, cursor, pool, uses)?;
    walk_attributes(place_of(method), cursor, pool, uses)?;
    Ok(member)
}

/// So many methods or fields, one behind the other.
#[tactic(auto, using(crate::proofs::Scans::times_scan_begin, crate::proofs::Scans::times_scan_stopped, crate::proofs::Heads::member_stops))]
fn walk_each_member(
    method: bool,
    count: u16,
    cursor: &mut Cursor<'_>,
    pool: &Pool<'_>,
    uses: &mut Vec<Used>,
    members: &mut Vec<Member>,
) -> Result<(), ReadFault>
    ensures { Scans result (scan (times count (read pool.now.entries (Layout.member (member_layout method)))) (scan_at uses.old.items members.old.items cursor.old)) cursor.new uses.new.items members.new.items }
{
    for _ in 0..count {
        let member = walk_member(method, cursor, pool, uses)?;
        members.push(member)?;
    }
    Ok(())
}

/// The table of the methods or of the fields, behind its two-byte count (JVMS 4.1).
#[tactic(auto, using(crate::proofs::Scans::table_scanned, crate::proofs::Scans::table_scan_stopped))]
pub fn walk_members(
    method: bool,
    cursor: &mut Cursor<'_>,
    pool: &Pool<'_>,
    uses: &mut Vec<Used>,
    members: &mut Vec<Member>,
) -> Result<(), ReadFault>
    ensures { Scans result (scan (read pool.now.entries (many (Layout.member (member_layout method)))) (scan_at uses.old.items members.old.items cursor.old)) cursor.new uses.new.items members.new.items }
{
    let count = read_number(cursor)?;
    walk_each_member(method, count, cursor, pool, uses, members)
}

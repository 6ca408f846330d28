//! Numbers and indices of a class's body.

ghost use Rattle.std.specs.Prelude.{◌≡◌, ◌++◌, ◌+◌, ◌≤◌, length, List, IfOk, IfErr, OnOk, Ok};
ghost use Rattle.std.specs.Int.{w16};
ghost use Rattle.desk_base.specs.Spot.{past};
ghost use Rattle.desk_base.specs.declared.kinds.Used.{Used as UsedOf};
ghost use Rattle.desk_format.specs.Layouts.{Layout, any};
ghost use Rattle.desk_format.specs.Reading.{read, number_at};
ghost use Rattle.desk_format.specs.Trees.{text_use, uses_of};
ghost use Rattle.desk_format.specs.Walk.{walk, walk_at, Walks, Stops};
ghost use Rattle.desk_class.specs.Scan.{number_ahead, class_kind, descriptor_kind};

use desk_base::{Cursor, Malformed, PoolView, ReadFault, Role, UseKind, Used};
use desk_pool::Pool;

/// A two-byte number. Past the cursor's end it is Truncated, at its place.
#[tactic(auto, unfolding(desk_format::specs::Walk::walk, desk_format::specs::Reading::number_at))]
pub fn read_number(cursor: &mut Cursor<'_>) -> Result<u16, ReadFault>
    ensures walks { (us : List UsedOf) → Walks result (walk (number_at w16 any) (walk_at us cursor.old)) cursor.new us }
    ensures value { IfOk result (λ number. number ≡ number_ahead cursor.old) }
    ensures moved { OnOk result (cursor.new ≡ past 2 cursor.old) }
{
    Ok(cursor.u2()?)
}

/// An index of the pool that must name an entry that fits a use kind. Past the cursor's end it is Truncated, and where the
/// entry doesn't fit, that fault, both at its place.
#[tactic(auto, unfolding(desk_format::specs::Walk::walk, desk_format::specs::Reading::index_at, desk_format::specs::Reading::read))]
pub fn read_index(kind: UseKind, cursor: &mut Cursor<'_>, pool: &Pool<'_>) -> Result<u16, ReadFault>
    ensures walks { OnOk result ((us : List UsedOf) → walk (read pool.now.entries (Layout.index kind)) (walk_at us cursor.old) ≡ Ok (walk_at (us ++ uses_of (text_use (record { at = cursor.old.at; kind = kind; index = number_ahead cursor.old }))) cursor.new)) }
    ensures stops { IfErr result (λ fault. (us : List UsedOf) → Stops fault (walk (read pool.now.entries (Layout.index kind)) (walk_at us cursor.old)) us) }
    ensures value { IfOk result (λ index. index ≡ number_ahead cursor.old) }
    ensures moved { OnOk result (cursor.new ≡ past 2 cursor.old) }
{
    let at = cursor.at();
    let index = cursor.u2()?;
    match pool.check(index, kind) {
        None => Ok(index),
        Some(kind) => Err(ReadFault::Malformed(Malformed { kind, at })),
    }
}

/// The index of a Class whose text is a class name; or index 0, where that is allowed. It hands over no use.
#[tactic(auto, using(crate::proofs::Uses::no_text))]
pub fn read_class(
    optional: bool,
    cursor: &mut Cursor<'_>,
    pool: &Pool<'_>,
) -> Result<u16, ReadFault>
    ensures walks { (us : List UsedOf) → Walks result (walk (read pool.now.entries (Layout.index (class_kind optional))) (walk_at us cursor.old)) cursor.new us }
    ensures value { IfOk result (λ index. index ≡ number_ahead cursor.old) }
    ensures moved { OnOk result (cursor.new ≡ past 2 cursor.old) }
{
    let kind = if optional {
        UseKind::ClassNameOrNone
    } else {
        UseKind::ClassName
    };
    read_index(kind, cursor, pool)
}

/// The index of a member's name, whose use is handed over.
pub fn walk_name(
    cursor: &mut Cursor<'_>,
    pool: &Pool<'_>,
    uses: &mut Vec<Used>,
) -> Result<u16, ReadFault>
    ensures walks { Walks result (walk (read pool.now.entries (Layout.index UseKind.Plain)) (walk_at uses.old.items cursor.old)) cursor.new uses.new.items }
    ensures value { IfOk result (λ index. index ≡ number_ahead cursor.old) }
    ensures moved { OnOk result (cursor.new ≡ past 2 cursor.old) }
{
    let at = cursor.at();
    let index = read_index(UseKind::Plain, cursor, pool)?;
    uses.push(Used {
        at,
        index,
        role: Role::Plain,
    })?;
    Ok(index)
}

/// The index of the descriptor of a method or a field, whose use is handed over.
pub fn walk_descriptor(
    method: bool,
    cursor: &mut Cursor<'_>,
    pool: &Pool<'_>,
    uses: &mut Vec<Used>,
) -> Result<u16, ReadFault>
    ensures walks { Walks result (walk (read pool.now.entries (Layout.index (descriptor_kind method))) (walk_at uses.old.items cursor.old)) cursor.new uses.new.items }
    ensures value { IfOk result (λ index. index ≡ number_ahead cursor.old) }
    ensures moved { OnOk result (cursor.new ≡ past 2 cursor.old) }
{
    let at = cursor.at();
    let kind = if method {
        UseKind::MethodDescriptor
    } else {
        UseKind::FieldDescriptor
    };
    let index = read_index(kind, cursor, pool)?;
    uses.push(Used {
        at,
        index,
        role: Role::Descriptor,
    })?;
    Ok(index)
}

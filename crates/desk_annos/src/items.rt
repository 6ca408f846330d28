//! Single items: numbers, and indices of the constant pool.

ghost use Rattle.std.specs.Prelude.{◌≡◌, ◌++◌, ℕ, List, Err, IfOk, IfErr, OnOk, take, option_map};
ghost use Rattle.std.specs.Int.{w8, w16, from_be_bytes};
ghost use Rattle.desk_base.specs.declared.kinds.Used.{Used as UsedOf};
ghost use Rattle.desk_format.specs.Layouts.{Layout, Check, any};
ghost use Rattle.desk_format.specs.Trees.{text_use, uses_of};
ghost use Rattle.desk_format.specs.Reading.{read, number_at};
ghost use Rattle.desk_format.specs.Walk.{walk, walk_at, Walks, Stops};
ghost use Rattle.desk_annos.specs.TagReads.{ReadsTag};
ghost use Rattle.desk_base.specs.Entries.{Pool};
ghost use Rattle.desk_annos.specs.Stands.{StandsWithin};

use desk_base::{Cursor, Malformed, PoolView, ReadFault, Role, UseKind, Used, Visit};

/// A one-byte number. Past the cursor's end it is Truncated, at its place.
#[tactic(auto, unfolding(desk_format::specs::Walk::walk, desk_format::specs::Reading::number_at, desk_format::specs::Reading::read))]
pub fn walk_u1(cursor: &mut Cursor<'_>) -> Result<u8, ReadFault>
    ensures walks { (us : List UsedOf) → Walks result (walk (number_at w8 any) (walk_at us cursor.old)) cursor.new us }
    ensures reads { (us : List UsedOf) (entries : Pool) → Walks result (walk (read entries (Layout.number w8 any)) (walk_at us cursor.old)) cursor.new us }
    ensures value { IfOk result (λ n. n ≡ from_be_bytes w8 (take 1 cursor.old.left)) }
    ensures stands { StandsWithin cursor.old cursor.new }
{
    Ok(cursor.u1()?)
}

/// A two-byte number. Past the cursor's end it is Truncated, at its place.
#[tactic(auto, unfolding(desk_format::specs::Walk::walk, desk_format::specs::Reading::number_at, desk_format::specs::Reading::read))]
pub fn walk_u2(cursor: &mut Cursor<'_>) -> Result<u16, ReadFault>
    ensures walks { (us : List UsedOf) → Walks result (walk (number_at w16 any) (walk_at us cursor.old)) cursor.new us }
    ensures reads { (us : List UsedOf) (entries : Pool) → Walks result (walk (read entries (Layout.number w16 any)) (walk_at us cursor.old)) cursor.new us }
    ensures value { IfOk result (λ n. n ≡ from_be_bytes w16 (take 2 cursor.old.left)) }
    ensures stands { StandsWithin cursor.old cursor.new }
{
    Ok(cursor.u2()?)
}

/// The one-byte tag of a choice. Past the cursor's end it is Truncated, at its place.
#[tactic(auto, using(crate::proofs::Steps::reads_tag, desk_format::proofs::Walks::tagged_truncated))]
pub(crate) fn read_tag(cursor: &mut Cursor<'_>) -> Result<u8, ReadFault>
    ensures ok { IfOk result (ReadsTag cursor.old cursor.new) }
    ensures err { IfErr result (λ fault. (us : List UsedOf) (entries : Pool) (check : Check) (branch : ℕ → Layout) → Stops fault (walk (read entries (Layout.tagged check branch)) (walk_at us cursor.old)) us) }
    ensures stands { StandsWithin cursor.old cursor.new }
{
    Ok(cursor.u1()?)
}

/// The role of the text that an index of a use kind names, where it names a text.
fn role_of(kind: UseKind, index: u16) -> Option<Role>
    ensures { (at : ℕ) → text_use (record { at = at; kind = kind; index = index }) ≡ option_map (λ role. record { at = at; index = index; role = role }) result }
{
    match kind {
        UseKind::PlainOrNone if index == 0 => None,
        UseKind::Plain | UseKind::PlainOrNone => Some(Role::Plain),
        UseKind::AttrName => Some(Role::AttrName),
        UseKind::FieldDescriptor | UseKind::MethodDescriptor | UseKind::ReturnDescriptor => {
            Some(Role::Descriptor)
        }
        UseKind::ClassSig => Some(Role::ClassSig),
        UseKind::MethodSig => Some(Role::MethodSig),
        UseKind::FieldSig => Some(Role::FieldSig),
        UseKind::Str => Some(Role::Str),
        _ => None,
    }
}

/// Hands over the use of a text, where an index of a use kind names one.
fn hand_over<V: Visit>(kind: UseKind, at: u32, index: u16, visit: &mut V) -> Result<(), ReadFault>
    ensures ok { OnOk result (V.taken visit.new ≡ V.taken visit.old ++ uses_of (text_use (record { at = at; kind = kind; index = index }))) }
    ensures err { IfErr result (λ fault. fault ≡ ReadFault.Memory) }
{
    match role_of(kind, index) {
        None => Ok(()),
        Some(role) => Ok(visit.visit(Used { at, index, role })?),
    }
}

/// An index of the constant pool that must name an entry that fits a use kind. Past the cursor's end it is Truncated, and
/// where the entry doesn't fit, that fault, both at its place. Hands over the text that it names, if it names one.
#[tactic(auto, unfolding(desk_format::specs::Walk::walk, desk_format::specs::Reading::index_at, desk_format::specs::Reading::read))]
pub fn walk_index<P: PoolView, V: Visit>(
    kind: UseKind,
    cursor: &mut Cursor<'_>,
    pool: &P,
    visit: &mut V,
) -> Result<(), ReadFault>
    ensures walks { Walks result (walk (read (P.pool pool.now) (Layout.index kind)) (walk_at (V.taken visit.old) cursor.old)) cursor.new (V.taken visit.new) }
    ensures stands { StandsWithin cursor.old cursor.new }
{
    let at = cursor.at();
    let index = cursor.u2()?;
    match pool.check(index, kind) {
        Some(kind) => Err(ReadFault::Malformed(Malformed { kind, at })),
        None => hand_over(kind, at, index, visit),
    }
}

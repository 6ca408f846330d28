//! The heads of attributes: the index of a name, and the length of a body (JVMS 4.7).

ghost use Rattle.std.specs.Prelude.{◌≡◌, ◌+◌, ℕ, List, take, IfOk, IfErr, OnOk, Option};
ghost use Rattle.std.specs.Int.{w16, w32, from_be_bytes};
ghost use Rattle.desk_base.specs.Entries.{text_at};
ghost use Rattle.desk_base.specs.declared.kinds.Used.{Used as UsedOf};
ghost use Rattle.desk_format.specs.declared.attributes.Attribute.{Attribute as AttributeOf};
ghost use Rattle.desk_format.specs.Layouts.{Layout, any};
ghost use Rattle.desk_format.specs.Attributes.{attribute_named};
ghost use Rattle.desk_format.specs.Reading.{read, index_at, number_at, attribute_at};
ghost use Rattle.desk_format.specs.Walk.{walk, walk_at, Walks, Stops};
ghost use Rattle.desk_annos.specs.Stands.{StandsWithin};
ghost use Rattle.desk_attrs.specs.Heads.{HeadWalked};

use crate::names::attribute_named;
use desk_base::{Cursor, Malformed, PoolView, ReadFault, Role, UseKind, Used, Visit};
use desk_format::Attribute;

/// What stands before the body of an attribute.
#[derive(Clone, Copy)]
pub(crate) struct Head {
    /// The attribute that is named, if its name is known.
    pub attribute: Option<Attribute>,
    /// `attribute_length`: how many bytes the body has (JVMS 4.7).
    pub length: u32,
    /// The offset of `attribute_length` from the start of the file, in bytes.
    pub length_at: u32,
}

/// The attribute that the text at an index names.
fn attribute_under<P: PoolView>(pool: &P, index: u16) -> Option<Attribute>
    ensures { result ≡ attribute_named (text_at (P.pool pool.now) index) }
{
    match pool.utf8(index) {
        Some(name) => attribute_named(name),
        None => None,
    }
}

/// The index of an attribute's name.
#[tactic(auto, unfolding(desk_format::specs::Walk::walk, desk_format::specs::Reading::index_at))]
fn walk_name<P: PoolView, V: Visit>(
    cursor: &mut Cursor<'_>,
    pool: &P,
    visit: &mut V,
) -> Result<u16, ReadFault>
    ensures walks { Walks result (walk (index_at (P.pool pool.now) UseKind.AttrName) (walk_at (V.taken visit.old) cursor.old)) cursor.new (V.taken visit.new) }
    ensures value { IfOk result (λ n. n ≡ from_be_bytes w16 (take 2 cursor.old.left)) }
    ensures stands { StandsWithin cursor.old cursor.new }
{
    let at = cursor.at();
    let index = cursor.u2()?;
    if let Some(kind) = pool.check(index, UseKind::AttrName) {
        return Err(ReadFault::Malformed(Malformed { kind, at }));
    }
    visit.visit(Used {
        at,
        index,
        role: Role::AttrName,
    })?;
    Ok(index)
}

/// The length of an attribute's body.
#[tactic(auto, unfolding(desk_format::specs::Walk::walk, desk_format::specs::Reading::number_at))]
fn walk_length(cursor: &mut Cursor<'_>) -> Result<u32, ReadFault>
    ensures walks { (us : List UsedOf) → Walks result (walk (number_at w32 any) (walk_at us cursor.old)) cursor.new us }
    ensures value { IfOk result (λ n. n ≡ from_be_bytes w32 (take 4 cursor.old.left)) }
    ensures at { OnOk result (cursor.new.at ≡ cursor.old.at + 4) }
    ensures stands { StandsWithin cursor.old cursor.new }
{
    Ok(cursor.u4()?)
}

/// The name of an attribute, and the length of its body. A name index that names no Utf8 is Index, and a number that
/// reaches past the cursor's end Truncated, each at its place. Hands over the name.
pub(crate) fn walk_head<P: PoolView, V: Visit>(
    cursor: &mut Cursor<'_>,
    pool: &P,
    visit: &mut V,
) -> Result<Head, ReadFault>
    ensures ok { IfOk result (λ head. HeadWalked (P.pool pool.now) (walk_at (V.taken visit.old) cursor.old) (walk_at (V.taken visit.new) cursor.new) head.attribute head.length head.length_at) }
    ensures err { IfErr result (λ fault. (body : ℕ → Option AttributeOf → Layout) → Stops fault (walk (attribute_at (P.pool pool.now) (λ size name. read (P.pool pool.now) (body size (attribute_named name)))) (walk_at (V.taken visit.old) cursor.old)) (V.taken visit.new)) }
    ensures stands { StandsWithin cursor.old cursor.new }
{
    let index = walk_name(cursor, pool, visit)?;
    let attribute = attribute_under(pool, index);
    let length_at = cursor.at();
    let length = walk_length(cursor)?;
    Ok(Head {
        attribute,
        length,
        length_at,
    })
}

//! The member that an instruction names: a field or a method, with its class (JVMS 4.4.2).

ghost use Rattle.std.specs.Prelude.{◌≡◌};
ghost use Rattle.desk_base.specs.Entries.{text_at};
ghost use Rattle.desk_sites.specs.Members.{operands_or, member_class, member_name, member_descriptor};

use desk_pool::Pool;

/// The numbers of an entry, or 0 for each.
fn operands_or(pool: &Pool<'_>, index: u16) -> (u16, u16)
    ensures { result ≡ operands_or pool.now.entries index }
{
    match pool.operands(index) {
        Some(operands) => operands,
        None => (0, 0),
    }
}

/// The text that an index names, or the empty text.
pub fn text_at<'a>(pool: &Pool<'a>, index: u16) -> &'a [u8]
    ensures { result.now ≡ text_at pool.now.entries index }
{
    match pool.utf8(index) {
        Some(text) => text,
        None => &[],
    }
}

/// The text of a member's class, as it stands.
pub fn member_class<'a>(pool: &Pool<'a>, index: u16) -> &'a [u8]
    ensures { result.now ≡ member_class pool.now.entries index }
{
    let (class, _) = operands_or(pool, index);
    let (name, _) = operands_or(pool, class);
    text_at(pool, name)
}

/// A member's name.
pub fn member_name<'a>(pool: &Pool<'a>, index: u16) -> &'a [u8]
    ensures { result.now ≡ member_name pool.now.entries index }
{
    let (_, name_and_type) = operands_or(pool, index);
    let (name, _) = operands_or(pool, name_and_type);
    text_at(pool, name)
}

/// A member's descriptor.
pub fn member_descriptor<'a>(pool: &Pool<'a>, index: u16) -> &'a [u8]
    ensures { result.now ≡ member_descriptor pool.now.entries index }
{
    let (_, name_and_type) = operands_or(pool, index);
    let (_, descriptor) = operands_or(pool, name_and_type);
    text_at(pool, descriptor)
}

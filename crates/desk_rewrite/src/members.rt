//! The fields and methods of a new class, with numbers of the texts that tell them apart.

ghost use Rattle.std.specs.Prelude.{◌≡◌, IfOk, map, unwrap_or, option_copied};
ghost use Rattle.desk_format.specs.Resolved.{Images};
ghost use Rattle.desk_format.specs.NewClass.{renamed_in};
ghost use Rattle.desk_new_pool.specs.Twins.{AreNumbered, member_in};
ghost use Rattle.desk_rewrite.specs.Tables.{HasDescriptors};

use crate::table::{ImageTable, image_in, text_at};
use desk_base::{Memory, Role};
use desk_class::TextNumbers;
use desk_format::Member;
use desk_new_pool::NumberedMember;
use desk_pool::Pool;
use std::alloc::Global;

/// An image, or the text itself where it has none.
fn image_or<'a>(image: Option<&'a [u8]>, text: &'a [u8]) -> &'a [u8]
    ensures { result.now ≡ unwrap_or (option_copied image.entry) text.now }
{
    match image {
        Some(image) => image,
        None => text,
    }
}

/// The members, each with a number of its name and one of the image of its descriptor. The only error is want of memory.
pub fn numbered_members(
    alloc: Global,
    pool: &Pool<'_>,
    table: &ImageTable,
    members: &[Member],
) -> Result<Vec<NumberedMember>, Memory>
    ensures members { IfOk result (λ numbered. map member_in numbered.items ≡ members.now) }
    ensures numbered { IfOk result (λ numbered. (im : Images) → HasDescriptors im pool.now.entries table.now members.now → AreNumbered (renamed_in im pool.now.entries) numbered.items) }
{
    let mut names = TextNumbers::new(alloc, pool.count())?;
    let mut descriptors = TextNumbers::new(alloc, pool.count())?;
    let mut numbered = Vec::with_capacity(alloc, members.len())?;
    for member in members {
        let image = image_in(table, member.descriptor, Role::Descriptor);
        let descriptor = image_or(image, text_at(pool, member.descriptor));
        numbered.push(NumberedMember {
            member: *member,
            name: names.number(text_at(pool, member.name), member.name)?,
            descriptor: descriptors.number(descriptor, member.descriptor)?,
        })?;
    }
    Ok(numbered)
}

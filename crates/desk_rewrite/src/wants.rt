//! What the uses of a class want.

ghost use Rattle.std.specs.Prelude.{◌≡◌, All, IfOk, map};
ghost use Rattle.desk_base.specs.Entries.{Pool};
ghost use Rattle.desk_base.specs.declared.kinds.Used.{Used};
ghost use Rattle.desk_format.specs.Resolved.{Images};
ghost use Rattle.desk_new_pool.specs.Wants.{numbered};
ghost use Rattle.desk_rewrite.specs.Tables.{HasImages, image_found};
ghost use Rattle.desk_rewrite.specs.Wanting.{used_in, IsWantedUnder};

use crate::table::{ImageTable, number_in};
use desk_base::{Memory, Used};
use desk_new_pool::WantedTexts;
use std::alloc::Global;

/// The images of a table, by their numbers. They aren't copied.
fn images_in(alloc: Global, table: &ImageTable) -> Result<Vec<&[u8]>, Memory>
    ensures { IfOk result (λ images. map (λ t. t.now) images.items ≡ table.now.images.items) }
{
    let texts = table.images();
    let mut images = Vec::with_capacity(alloc, texts.len())?;
    for text in texts {
        images.push(text.as_bytes())?;
    }
    Ok(images)
}

/// The number of the image of each use.
fn numbers_in(alloc: Global, table: &ImageTable, uses: &[Used]) -> Result<Vec<u32>, Memory>
    ensures { IfOk result (λ numbers. map (numbered table.now.images.items) numbers.items ≡ map (λ (u : Used). image_found table.now u.index u.role) uses.now) }
{
    let mut numbers = Vec::with_capacity(alloc, uses.len())?;
    for used in uses {
        numbers.push(number_in(table, used.index, used.role))?;
    }
    Ok(numbers)
}

/// The uses, each with the image of its text. The only error is want of memory.
pub fn wanted_texts<'a>(
    alloc: Global,
    table: &'a ImageTable,
    uses: &'a [Used],
) -> Result<WantedTexts<'a>, Memory>
    ensures used { IfOk result (λ wants. map used_in wants ≡ uses.now) }
    ensures each { IfOk result (λ wants. (im : Images) (pool : Pool) → HasImages im pool uses.now table.now → All (IsWantedUnder im pool) wants) }
{
    let images = images_in(alloc, table)?;
    let numbers = numbers_in(alloc, table, uses)?;
    Ok(WantedTexts::new(uses, numbers, images))
}

//! The bytes of a new class.

ghost use Rattle.std.specs.Prelude.{◌≡◌, ◌≤◌, ℕ, List, [], None, Ok, All, IfOk, length};
ghost use Rattle.desk_base.specs.Limits.{file_size};
ghost use Rattle.desk_format.specs.Classes.{Class, class_fault, read_class, uses_in};
ghost use Rattle.desk_format.specs.Laws.{IsBytes};
ghost use Rattle.desk_format.specs.NewClass.{new_bytes};
ghost use Rattle.desk_format.specs.Resolved.{Images};
ghost use Rattle.desk_format.specs.Split.{Want, split};
ghost use Rattle.desk_class.specs.Parts.{pool_in};
ghost use Rattle.desk_new_pool.specs.Keeps.{TextsAre};
ghost use Rattle.desk_new_pool.specs.Printing.{IsShortText};
ghost use Rattle.desk_rewrite.specs.Wanting.{IsNewTexts};

use desk_base::{Memory, Text};
use desk_class::ClassView;
use desk_new_pool::{NewTexts, append_body, append_pool};
use desk_pool::Pool;
use std::alloc::Global;

/// The whole class file of a view.
pub fn bytes_of<'a>(view: &ClassView<'a>) -> &'a [u8]
    ensures bytes { result.now ≡ view.now }
    ensures each { IsBytes view.now }
    ensures sound { class_fault view.now ≡ None }
    ensures short { length view.now ≤ file_size }
{
    let bytes = view.bytes();
    bytes
}

/// How many bytes a text takes as an entry of a pool: its tag, its length, and itself (JVMS 4.4.7). No text takes none.
fn text_size(text: Option<&[u8]>) -> usize {
    text.map_or(0, |text| text.len().saturating_add(3))
}

/// Room for the new class of a class of so many bytes, whose pool gets these texts: as many bytes as it will have, so that none is kept
/// for what never comes. The only error is want of memory.
fn room_for(alloc: Global, size: usize, pool: &Pool<'_>, new: &NewTexts<'_>) -> Result<Text, Memory>
    requires { length new.now.texts.items ≤ 65535 }
    ensures { IfOk result (λ text. text ≡ []) }
{
    let mut room = size;
    for (index, text) in new.texts.iter().enumerate() {
        let own = pool.utf8(index as u16);
        room = room
            .saturating_add(text_size(*text))
            .saturating_sub(text_size(own));
    }
    Ok(Text::from(Vec::with_capacity(alloc, room)?))
}

/// The bytes of the new class with these texts: magic and version, the new pool, and the body with its new indices. The
/// only error is want of memory.
pub fn new_bytes(alloc: Global, view: &ClassView<'_>, new: &NewTexts<'_>) -> Result<Text, Memory>
    requires texts { (ws : List Want) × TextsAre (split ws (pool_in view.now)) new.now.texts.items }
    requires limit { length new.now.texts.items ≤ 65535 }
    requires short { All IsShortText new.now.texts.items }
    requires indices { length new.now.indices.items ≡ length (uses_in view.now) }
    ensures { IfOk result (λ bytes. (im : Images) (c : Class) → read_class view.now ≡ Ok c → IsNewTexts im c new.now → bytes ≡ new_bytes im view.now c) }
{
    let bytes = bytes_of(view);
    let pool = view.pool();
    let first = pool.uses().len();
    let (_, uses) = view.uses().split_at(first);
    let (_, indices) = new.indices.split_at(first);
    let (front, _) = bytes.split_at(8);
    let (_, entries) = bytes.split_at(10);
    let (_, body) = bytes.split_at(view.body_at() as usize);
    let mut out = room_for(alloc, bytes.len(), pool, new)?;
    out.append(front)?;
    append_pool(&mut out, pool, pool.count(), entries, new)?;
    append_body(&mut out, view.body_at(), body, uses, indices)?;
    Ok(out)
}

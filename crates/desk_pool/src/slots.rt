//! Reading what each index names.

ghost use Rattle.std.specs.Prelude.{◌≡◌, ◌+◌, ◌≤◌, false, length, IfOk};
ghost use Rattle.desk_format.specs.PoolBytes.{print_slots};
ghost use Rattle.desk_format.specs.PoolReading.{read_slots};
ghost use Rattle.desk_pool.specs.Seen.{seen, ReadsAll};

use crate::constant::{Constant, is_wide, read_entry};
use desk_base::{Cursor, ReadFault};
use std::alloc::Global;

/// What so many indices name, from 1 on: an entry, or nothing at the second index of a Long or Double.
pub fn read_slots<'a>(
    alloc: Global,
    count: u16,
    cursor: &mut Cursor<'a>,
) -> Result<Vec<Option<Constant<'a>>>, ReadFault>
    ensures slots { ReadsAll result (λ slots. seen slots.items) (read_slots count false cursor.old.at cursor.old.left) cursor.new }
    ensures many { IfOk result (λ slots. length slots.items ≡ count) }
    ensures size { IfOk result (λ slots. cursor.old.at + length (print_slots (seen slots.items)) ≡ cursor.new.at) }
    ensures ahead { cursor.old.at ≤ cursor.new.at }
    ensures end { cursor.new.at + length cursor.new.left ≡ cursor.old.at + length cursor.old.left }
{
    // An entry takes three bytes at least, so that a count with few bytes behind it takes little memory.
    let room = u32::from(count).min(cursor.left() / 3);
    let mut slots = Vec::with_capacity(alloc, room as usize)?;
    let mut later = count;
    let mut second = false;
    while later > 0 {
        later -= 1;
        if second {
            second = false;
            slots.push(None)?;
        } else {
            let constant = read_entry(later, cursor)?;
            second = is_wide(constant.tag());
            slots.push(Some(constant))?;
        }
    }
    Ok(slots)
}

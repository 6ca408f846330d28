//! Which texts of a pool are class names, found once for each text that a Class or a Package leads to.

ghost use Rattle.std.specs.Prelude.{◌≡◌, option_map};
ghost use Rattle.desk_pool.specs.Seen.{entry_of, seen};

use crate::constant::Constant;

/// What an index names, of which it is then found whether it is a class name.
fn with_class_name(slot: Option<Constant<'_>>) -> Option<Constant<'_>>
    ensures { option_map entry_of result ≡ option_map entry_of slot.entry }
{
    match slot {
        Some(Constant::Utf8(text)) => Some(Constant::Utf8(text.with_class_name())),
        _ => slot,
    }
}

/// Finds whether the text that an index names is a class name. What each index names stays as it is.
pub fn find_class_name(slots: &mut [Option<Constant<'_>>], index: u16)
    ensures { seen slots.new ≡ seen slots.old }
{
    if index == 0 || slots.len() < index as usize {
        return;
    }
    let place = index as usize - 1;
    let slot = slots[place];
    slots[place] = with_class_name(slot);
}

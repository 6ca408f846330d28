//! Patterns of paths: what is selected, and which file of text rules is meant.

ghost use Rattle.std.specs.Prelude.{◌≡◌, Ok, Err, MatchResult};
ghost use Rattle.desk_entries.specs.Entries.{mark_of, text_name_of};

use crate::faults::EntryFault;
use desk_lines::trim_trailing_blanks;
use desk_patterns::Mark;

/// The mark of an entry of `selection.properties`: the key is a pattern, which isn't empty; the value, without blanks at its
/// end, is empty for `Include` or `!` for `Exclude`. The fault is `Key` where the key is empty, else `Value` at any other
/// value. It takes no memory.
pub fn read_mark(key: &[u8], value: &[u8]) -> Result<Mark, EntryFault>
    ensures { result ≡ mark_of key.now value.now }
{
    if key.is_empty() {
        return Err(EntryFault::Key);
    }
    match trim_trailing_blanks(value) {
        [] => Ok(Mark::Include),
        [b'!'] => Ok(Mark::Exclude),
        _ => Err(EntryFault::Value),
    }
}

/// The name of the file of text rules of an entry of `text.properties`: the value without blanks at its end. The key is a
/// pattern, which isn't empty, else the fault is `Key`. It takes no memory.
pub fn read_text_name<'a>(key: &[u8], value: &'a [u8]) -> Result<&'a [u8], EntryFault>
    ensures { MatchResult result (λ name. text_name_of key.now value.now ≡ Ok name.now) (λ fault. text_name_of key.now value.now ≡ Err fault) }
{
    if key.is_empty() {
        Err(EntryFault::Key)
    } else {
        Ok(trim_trailing_blanks(value))
    }
}

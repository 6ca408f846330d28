//! Direct rules of strings, and rules of texts.

ghost use Rattle.std.specs.Prelude.{◌≡◌};
ghost use Rattle.std.specs.List.{list_all};
ghost use Rattle.desk_entries.specs.Forms.{is_plain_byte, is_plain};
ghost use Rattle.desk_entries.specs.Entries.{string_check, text_rule_check};

use crate::faults::EntryFault;
use crate::values::is_stored;

/// Whether a byte of a text in UTF-8 belongs to a character from U+0001 to U+FFFF: it isn't 0, and doesn't lead four bytes.
fn is_plain_byte(byte: u8) -> bool
    ensures { result ≡ is_plain_byte byte }
{
    0 < byte && byte < 0xF0
}

/// Whether a text in UTF-8 holds no U+0000 and no character above U+FFFF.
fn is_plain(text: &[u8]) -> bool
    ensures { result ≡ is_plain text.now }
{
    text.iter().all(|byte| is_plain_byte(*byte))
}

/// Looks at an entry of `direct.properties`: the key isn't empty, key and value hold no U+0000 and no character above U+FFFF,
/// and the value is modified UTF-8, as a class file stores texts (JVMS 4.4.7). The fault is `Key` where the key hasn't its
/// form, else `Value` where the value hasn't. It takes no memory.
pub fn check_string(key: &[u8], value: &[u8]) -> Result<(), EntryFault>
    ensures { result ≡ string_check key.now value.now }
{
    if key.is_empty() || !is_plain(key) {
        return Err(EntryFault::Key);
    }
    if !is_plain(value) || !is_stored(value) {
        return Err(EntryFault::Value);
    }
    Ok(())
}

/// Looks at an entry of a text rule file: the key isn't empty, else the fault is `Key`. Any value will do. It takes no memory.
pub fn check_text_rule(key: &[u8]) -> Result<(), EntryFault>
    ensures { result ≡ text_rule_check key.now }
{
    if key.is_empty() {
        Err(EntryFault::Key)
    } else {
        Ok(())
    }
}

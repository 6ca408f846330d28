//! Values as they are read: in two parts, and as a class file stores texts.

ghost use Rattle.std.specs.Prelude.{◌≡◌};
ghost use Rattle.std.specs.List.{list_any, before_first, after_first, position_or_len};
ghost use Rattle.std.specs.Str.{is_utf8};
ghost use Rattle.desk_entries.specs.Forms.{is_semicolon, is_stored};

use desk_base::{MAX_FILE_SIZE, check_utf8};

/// The place of the first `;`, or the text's length.
fn place_of_semicolon(text: &[u8]) -> usize
    ensures { result ≡ position_or_len is_semicolon text.now }
{
    for (i, byte) in text.iter().enumerate() {
        if *byte == b';' {
            return i;
        }
    }
    text.len()
}

/// Whether a text holds a `;`.
pub fn has_semicolon(text: &[u8]) -> bool
    ensures { result ≡ list_any is_semicolon text.now }
{
    text.iter().any(|byte| *byte == b';')
}

/// What stands before the first `;`, and what stands behind it; nothing behind where there is none.
pub fn cut_at_semicolon(text: &[u8]) -> (&[u8], &[u8])
    ensures before { result.0.now ≡ before_first is_semicolon text.now }
    ensures behind { result.1.now ≡ after_first is_semicolon text.now }
{
    let at = place_of_semicolon(text);
    if at < text.len() {
        (&text[..at], &text[at + 1..])
    } else {
        (text, &text[text.len()..])
    }
}

/// Whether a text is modified UTF-8, as a class file stores texts (JVMS 4.4.7). A text of more than 67,108,864 bytes, which no
/// rule file holds, is said not to be. It takes no memory.
pub fn is_stored(text: &[u8]) -> bool
    ensures { result ≡ is_stored text.now }
{
    text.len() <= MAX_FILE_SIZE && check_utf8(text).is_ok()
}

/// Whether a text is UTF-8. It takes no memory.
pub(crate) fn is_utf8(text: &[u8]) -> bool
    ensures { result ≡ is_utf8 text.now }
{
    match str::from_utf8(text) {
        Ok(_) => true,
        Err(_) => false,
    }
}

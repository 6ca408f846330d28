//! Blanks, which are spaces and tabs, and texts without them at their ends.

ghost use Rattle.std.specs.Prelude.{◌≡◌, ◌≤◌, length};
ghost use Rattle.std.specs.List.{list_any};
ghost use Rattle.desk_lines.specs.Blanks.{is_blank, leading_blanks, trimmed_end, trimmed, IsTrimmed};

/// Whether a byte is a space or a tab.
pub fn is_blank(byte: u8) -> bool
    ensures { result ≡ is_blank byte }
{
    byte == b' ' || byte == b'\t'
}

/// Whether a text holds a blank.
pub fn has_blank(text: &[u8]) -> bool
    ensures { result ≡ list_any is_blank text.now }
{
    text.iter().any(|byte| is_blank(*byte))
}

/// How many blanks stand at the front of a text.
pub fn count_leading_blanks(text: &[u8]) -> usize
    ensures count { result ≡ length (leading_blanks text.now) }
    ensures inside { result ≤ length text.now }
{
    for (i, byte) in text.iter().enumerate() {
        if !is_blank(*byte) {
            return i;
        }
    }
    text.len()
}

/// A text without its blanks at the end.
pub fn trim_trailing_blanks(text: &[u8]) -> &[u8]
    ensures { result.now ≡ trimmed_end text.now }
{
    let mut end = text.len();
    while end > 0 && is_blank(text[end - 1]) {
        end -= 1;
    }
    &text[..end]
}

/// A text without its blanks at the front and at the end.
pub fn trim_blanks(text: &[u8]) -> &[u8]
    ensures trimmed { result.now ≡ trimmed text.now }
    ensures between { IsTrimmed text.now result.now }
{
    let front = count_leading_blanks(text);
    trim_trailing_blanks(&text[front..])
}

//! Keys of rule files that look like a slip.

ghost use Rattle.std.specs.Prelude.{◌≡◌};
ghost use Rattle.desk_notes.specs.Keys.{has_mark};

use desk_unmet::package_of;

/// A byte order mark in UTF-8 (U+FEFF).
pub(crate) const MARK: &[u8] = b"\xEF\xBB\xBF";

/// Why a key looks like a slip.
#[derive(Clone, Copy, Debug, PartialEq, Eq)]
pub enum Slip {
    /// It begins with a byte order mark (U+FEFF), which no package begins with.
    Mark,
    /// Its last segment begins with a capital letter, as the name of a class does.
    Capital,
}

/// Whether a key begins with a byte order mark.
fn has_mark(key: &[u8]) -> bool
    ensures { result ≡ has_mark key.now }
{
    matches!(key, [0xEF, 0xBB, 0xBF, ..])
}

/// What stands behind the last `.` of a key, or the whole key.
fn last_segment(key: &[u8]) -> &[u8] {
    match key.iter().rposition(|byte| *byte == b'.') {
        Some(dot) => &key[dot + 1..],
        None => key,
    }
}

/// Whether a text begins with a capital letter of ASCII.
fn is_capital(text: &[u8]) -> bool {
    match text {
        [first, ..] => first.is_ascii_uppercase(),
        [] => false,
    }
}

/// Why a key of `renames.properties` looks like a slip, if it does.
pub fn slip_of(key: &[u8]) -> Option<Slip> {
    if has_mark(key) {
        Some(Slip::Mark)
    } else if is_capital(last_segment(package_of(key))) {
        Some(Slip::Capital)
    } else {
        None
    }
}

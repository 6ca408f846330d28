//! Identifiers, dotted names and class names.

ghost use Rattle.std.specs.Prelude.{◌≡◌, ◌-◌, ◌<◌, ◌≤◌, length, drop, slice_index, IfSome, true, is_some};
ghost use Rattle.desk_base.specs.Names.{is_letter, is_digit, is_identifier_byte, is_identifier, is_dotted, is_class_name, is_reserved, is_whole, slash};
ghost use Rattle.desk_names.specs.ClassNames.{package_of, simple_of};

/// A class name in internal form (JVMS 4.2.1), cut at its last `/`. The package is without that `/`, and empty where the
/// name has none.
#[derive(Clone, Copy, Debug, PartialEq, Eq)]
pub struct ClassName<'a> {
    /// All parts but the last, with a `/` between each two.
    pub package: &'a [u8],
    /// The part behind the last `/`; the whole name where there is none.
    pub simple: &'a [u8],
}

fn is_digit(byte: u8) -> bool
    ensures { result ≡ is_digit byte }
{
    b'0' <= byte && byte <= b'9'
}

fn is_letter(byte: u8) -> bool
    ensures { result ≡ is_letter byte }
{
    (b'A' <= byte && byte <= b'Z') || (b'a' <= byte && byte <= b'z')
}

fn is_identifier_byte(byte: u8) -> bool
    ensures { result ≡ is_identifier_byte byte }
{
    is_letter(byte)
        || is_digit(byte)
        || byte == b'_'
        || byte == b'$'
        || (0x80 <= byte && byte <= 0xEF)
}

/// A byte that no part of a class name holds: `.` `;` `[` or `/` (JVMS 4.2.2).
pub fn is_reserved(byte: u8) -> bool
    ensures { result ≡ is_reserved byte }
{
    byte == b'.' || byte == b';' || byte == b'[' || byte == b'/'
}

/// Whether a text is an identifier: one or more bytes, each an ASCII letter, an ASCII digit, `_`, `$` or a byte from 0x80
/// to 0xEF, the first no digit. It takes no memory.
pub fn is_identifier(text: &[u8]) -> bool
    ensures { result ≡ is_identifier text.now }
{
    match text.first() {
        None => return false,
        Some(first) => {
            if is_digit(*first) {
                return false;
            }
        }
    }
    for byte in text {
        if !is_identifier_byte(*byte) {
            return false;
        }
    }
    true
}

/// Whether a text is a dotted name: one or more identifiers with a `.` between each two. It takes no memory.
#[tactic(auto, using(crate::proofs::Bytes::dotted_is), unfolding(crate::proofs::Bytes::parts_from))]
pub fn is_dotted(text: &[u8]) -> bool
    ensures { result ≡ is_dotted text.now }
{
    let mut inside = false;
    for byte in text {
        if *byte == b'.' {
            if !inside {
                return false;
            }
            inside = false;
        } else {
            if !is_identifier_byte(*byte) || (!inside && is_digit(*byte)) {
                return false;
            }
            inside = true;
        }
    }
    inside
}

/// Whether a text is a class name in internal form: one or more parts with a `/` between each two.
#[tactic(auto, using(crate::proofs::Bytes::class_name_is), unfolding(crate::proofs::Bytes::name_from))]
fn is_class_name(text: &[u8]) -> bool
    ensures { result ≡ is_class_name text.now }
{
    let mut inside = false;
    for byte in text {
        if !is_reserved(*byte) {
            inside = true;
        } else if inside && *byte == b'/' {
            inside = false;
        } else {
            return false;
        }
    }
    inside
}

/// Where the last part of a name begins.
fn simple_at(name: &[u8]) -> usize
    ensures within { result ≤ length name.now }
    ensures whole { is_whole slash (drop result name.now) ≡ true }
    ensures behind_slash { 0 < result → slice_index name.now (result - 1) ≡ slash }
{
    let mut at = name.len();
    while at > 0 {
        if name[at - 1] == b'/' {
            return at;
        }
        at -= 1;
    }
    0
}

/// A class name in internal form, cut at its last `/`.
pub fn cut_name(name: &[u8]) -> ClassName<'_>
    ensures package { result.package.now ≡ package_of name.now }
    ensures simple { result.simple.now ≡ simple_of name.now }
{
    let at = simple_at(name);
    let (front, simple) = name.split_at(at);
    if at == 0 {
        return ClassName {
            package: front,
            simple,
        };
    }
    let (package, _) = name.split_at(at - 1);
    ClassName { package, simple }
}

/// A class name in internal form, cut into package and simple name; none exactly where the text is no class name. It
/// takes no memory.
pub fn split_class(text: &[u8]) -> Option<ClassName<'_>>
    ensures named { is_some result ≡ is_class_name text.now }
    ensures package { IfSome result (λ name. name.package.now ≡ package_of text.now) }
    ensures simple { IfSome result (λ name. name.simple.now ≡ simple_of text.now) }
{
    if is_class_name(text) {
        Some(cut_name(text))
    } else {
        None
    }
}

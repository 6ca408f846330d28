//! Which classes lie in a package.

ghost use Rattle.std.specs.Prelude.{◌≡◌, ◌≤◌, ◌-◌, length, take, drop, option_copied};
ghost use Rattle.std.specs.List.{before_first, after_first, position_or_len};
ghost use Rattle.desk_sites.specs.Packages.{is_slash, behind_dimensions, class_of_type, named_class, lies_in, is_in_package};

use desk_base::Text;
use memchr::memchr;

/// What stands behind the `[`s at the start of a text.
#[tactic(auto, using(crate::proofs::Dimensions::dimensions_end))]
fn behind_dimensions(text: &[u8]) -> &[u8]
    ensures { result.now ≡ behind_dimensions text.now }
{
    for (at, byte) in text.iter().enumerate() {
        if *byte != b'[' {
            return &text[at..];
        }
    }
    &[]
}

/// The class that a field descriptor without dimensions names; None of a base type (JVMS 4.3.2).
fn class_of_type(text: &[u8]) -> Option<&[u8]>
    ensures { option_copied result ≡ class_of_type text.now }
{
    match text {
        [b'L', name @ ..] => Some(&name[..name.len().saturating_sub(1)]),
        _ => None,
    }
}

/// The class that the text of a class entry names: itself, or the element class of an array; None of an array of a base type
/// (JVMS 4.4.1).
fn named_class(text: &[u8]) -> Option<&[u8]>
    ensures { option_copied result ≡ named_class text.now }
{
    match text {
        [b'[', ..] => class_of_type(behind_dimensions(text)),
        _ => Some(text),
    }
}

/// How many bytes of a name stand before its first `/`; all where it has none.
fn slash_place(name: &[u8]) -> usize
    ensures place { result ≡ position_or_len is_slash name.now }
    ensures inside { result ≤ length name.now }
{
    match memchr(b'/', name) {
        None => name.len(),
        Some(at) => at,
    }
}

/// Whether a class lies in a package or below it: its name begins with the package's segments, each with a `/` behind it. It
/// takes the time of one pass over the name.
#[tactic(auto, using(crate::proofs::Segments::lies_end, crate::proofs::Segments::lies_over, crate::proofs::Segments::lies_apart, crate::proofs::Segments::lies_on))]
fn lies_in(scope: &[Text], name: &[u8]) -> bool
    ensures { result ≡ lies_in scope.now name.now }
{
    let mut rest = name;
    for segment in scope {
        let end = slash_place(rest);
        if end == rest.len() {
            return false;
        }
        if segment.as_bytes() != &rest[..end] {
            return false;
        }
        rest = &rest[end + 1..];
    }
    true
}

/// Whether the class that the text of a class entry names lies in a package or below it.
pub fn is_in_package(scope: &[Text], text: &[u8]) -> bool
    ensures { result ≡ is_in_package scope.now (named_class text.now) }
{
    match named_class(text) {
        Some(name) => lies_in(scope, name),
        None => false,
    }
}

//! The tags of the structures of a body.

ghost use Rattle.std.specs.Prelude.{◌≡◌, ◌||◌, ◌==◌};
ghost use Rattle.desk_base.specs.Descriptors.{is_base};
ghost use Rattle.desk_format.specs.Tags.{may_begin, is_numbered};
ghost use Rattle.desk_format.specs.Frames.{frame, verification_type};
ghost use Rattle.desk_format.specs.Annotations.{element_value, target, path_step};

/// Whether a byte is the tag of an entry of the constant pool (JVMS 4.4).
#[tactic(auto, using(crate::proofs::TagLemmas::pool_tags))]
pub fn is_pool_tag(tag: u8) -> bool
    ensures { result ≡ is_numbered tag }
{
    matches!(tag, 1 | 3..=12 | 15..=20)
}

/// Whether a byte is the tag of a stack map frame (JVMS 4.7.4).
#[tactic(auto, using(crate::proofs::TagLemmas::frame_tags))]
pub fn is_frame_tag(tag: u8) -> bool
    ensures { result ≡ may_begin frame tag }
{
    matches!(tag, 0..=127 | 247..=255)
}

/// Whether a byte is the tag of a verification type (JVMS 4.7.4).
#[tactic(auto, using(crate::proofs::TagLemmas::verification_tags))]
pub fn is_verification_tag(tag: u8) -> bool
    ensures { result ≡ may_begin verification_type tag }
{
    matches!(tag, 0..=8)
}

/// Whether a byte stands for a base type (JVMS 4.3.2).
pub fn is_base_type(tag: u8) -> bool
    ensures { result ≡ is_base tag }
{
    matches!(tag, b'B'..=b'D' | b'F' | b'I' | b'J' | b'S' | b'Z')
}

/// Whether a byte stands for an element value that is a string, an enum constant, a class, an
/// annotation or an array (JVMS 4.7.16.1).
fn is_other_element(tag: u8) -> bool
    ensures { result ≡ (tag == 115 || (tag == 101 || (tag == 99 || (tag == 64 || tag == 91)))) }
{
    matches!(tag, b's' | b'e' | b'c' | b'@' | b'[')
}

/// Whether a byte is the tag of an element value (JVMS 4.7.16.1).
#[tactic(auto, using(crate::proofs::TagLemmas::element_tags))]
pub fn is_element_tag(tag: u8) -> bool
    ensures { result ≡ may_begin element_value tag }
{
    is_base_type(tag) || is_other_element(tag)
}

/// Whether a byte is the target type of a type annotation (JVMS 4.7.20.1).
#[tactic(auto, using(crate::proofs::TagLemmas::target_types))]
pub fn is_target_type(tag: u8) -> bool
    ensures { result ≡ may_begin target tag }
{
    matches!(tag, 0x00 | 0x01 | 0x10..=0x17 | 0x40..=0x4B)
}

/// Whether a byte is the kind of a step of a type path (JVMS 4.7.20.2).
#[tactic(auto, using(crate::proofs::TagLemmas::path_kinds))]
pub fn is_path_kind(kind: u8) -> bool
    ensures { result ≡ may_begin path_step kind }
{
    kind <= 3
}

//! The parts of descriptors.

ghost use Rattle.std.specs.Prelude.{◌≡◌, ◌<◌, ◌≤◌, [], ◌∷◌, length, true, false, is_some, IfSome, IfNone, OnSome};
ghost use Rattle.std.specs.Iterator.{YieldsFirstBy, item_count};
ghost use Rattle.desk_base.specs.Descriptors.{as_is, is_descriptor};
ghost use Rattle.desk_names.specs.States.{wanted_kind};
ghost use Rattle.desk_names.specs.Laws.{HasDescriptor, HasNoDescriptor};
ghost use Rattle.desk_names.specs.Pieces.{AreCut, place_of, cut, piece_of, pieces, joined};

use crate::descriptors::{Want, is_descriptor};
use crate::names::{ClassName, cut_name};
use std::marker::Model;

/// A part of a descriptor or a signature: a class name, or what stands between class names.
#[derive(Clone, Copy, Debug, PartialEq, Eq)]
pub enum Part<'a> {
    /// What stands before, between or behind class names.
    Other(&'a [u8]),
    /// A class name, cut at its last `/`.
    Class(ClassName<'a>),
}

/// The parts of a descriptor, in their order. No step takes memory. Contracts see the parts that are left.
#[derive(Debug, Drop)]
pub struct DescParts<'a> {
    rest: &'a [u8],
    inside: bool,
}

impl<'a> Model for DescParts<'a> {
    ghost use Rattle.std.specs.Prelude.{List, []};
    ghost use Rattle.desk_names.specs.Pieces.{Piece, cut};

    ghost Value = { List Piece };

    ghost view = { λ p. cut p.inside [] p.rest.now };
}

/// The first place of a byte, or the length.
#[tactic(auto, unfolding(crate::specs::Pieces::place_of))]
fn place_of(text: &[u8], byte: u8) -> usize
    ensures value { result ≡ place_of byte text.now }
    ensures bound { result ≤ length text.now }
{
    for (i, each) in text.iter().enumerate() {
        if *each == byte {
            return i;
        }
    }
    text.len()
}

/// A class name in front of a text, and what is left behind it.
fn first_name(text: &[u8]) -> (Part<'_>, &[u8])
    requires some { 0 < length text.now }
    ensures { cut true [] text.now ≡ piece_of result.0 ∷ cut false [] result.1.now }
{
    let at = place_of(text, b';');
    let (name, rest) = text.split_at(at);
    if at < text.len() {
        (Part::Class(cut_name(name)), rest)
    } else {
        (Part::Other(text), rest)
    }
}

/// What stands in front of a class name in a text, and that name with what is behind it; `true` where there is one.
fn first_other(text: &[u8]) -> (Part<'_>, &[u8], bool)
    requires some { 0 < length text.now }
    ensures { cut false [] text.now ≡ piece_of result.0 ∷ cut result.2 [] result.1.now }
{
    let at = place_of(text, b'L');
    if at < text.len() {
        let (other, rest) = text.split_at(at + 1);
        (Part::Other(other), rest, true)
    } else {
        let (_, rest) = text.split_at(at);
        (Part::Other(text), rest, false)
    }
}

impl<'a> Iterator for DescParts<'a> {
    type Item = Part<'a>;

    ghost next_gives = { YieldsFirstBy piece_of (λ p. p) };

    ghost remaining = { item_count (λ p. p) };

    #[tactic(auto, using(crate::proofs::Places::none_left, crate::proofs::Places::left_at))]
    fn next(&mut self) -> Option<Part<'a>> {
        if self.rest.is_empty() {
            return None;
        }
        if self.inside {
            let (part, rest) = first_name(self.rest);
            self.rest = rest;
            self.inside = false;
            Some(part)
        } else {
            let (part, rest, inside) = first_other(self.rest);
            self.rest = rest;
            self.inside = inside;
            Some(part)
        }
    }
}

/// The parts of a text that is known to be a descriptor, which isn't checked again. They are those that [`read_descriptor`]
/// answers where it answers any; a text that is no descriptor is cut in the same way. It takes no memory.
pub fn descriptor_parts(text: &[u8]) -> DescParts<'_>
    ensures parts { result ≡ pieces text.now }
    ensures cut { AreCut result }
{
    DescParts {
        rest: text,
        inside: false,
    }
}

/// The parts of a descriptor; none exactly where the text is no descriptor of the wanted kind (JVMS 4.3), with at most 255
/// dimensions in each type and parameters of at most 255 units, J and D counting two and `this` not counted. It takes no
/// memory.
pub fn read_descriptor(text: &[u8], want: Want) -> Option<DescParts<'_>>
    ensures read { is_some result ≡ is_descriptor (wanted_kind want) text.now }
    ensures tree { OnSome result (HasDescriptor (wanted_kind want) text.now) }
    ensures none { IfNone result (HasNoDescriptor (wanted_kind want) text.now) }
    ensures parts { IfSome result (λ parts. parts ≡ pieces text.now) }
    ensures joined { IfSome result (λ parts. joined as_is parts ≡ text.now) }
    ensures cut { IfSome result AreCut }
{
    if is_descriptor(text, want) {
        Some(descriptor_parts(text))
    } else {
        None
    }
}

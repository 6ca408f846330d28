//! The parts of signatures.

ghost use Rattle.std.specs.Prelude.{◌≡◌, ◌<◌, ◌≤◌, [], ◌∷◌, length, drop, take, true, false, is_some, IfSome, IfNone, OnSome};
ghost use Rattle.std.specs.Iterator.{YieldsFirstBy, item_count};
ghost use Rattle.desk_base.specs.Descriptors.{as_is};
ghost use Rattle.desk_names.specs.Laws.{HasSignature, HasNoSignature};
ghost use Rattle.desk_names.specs.Pieces.{AreCut, Piece, piece_of, joined};
ghost use Rattle.desk_names.specs.SignatureScan.{wanted_signature, is_sound_signature};
ghost use Rattle.desk_names.specs.SignaturePieces.{is_naming, ends_name, named, name_end, sig_cut, sig_pieces};

use crate::names::cut_name;
use crate::parts::Part;
use crate::signatures::{
    RefState, SigState, Spot, Which, is_mark, is_signature, is_within, mark_from, sig_start,
    sig_step,
};
use std::marker::Model;

/// The parts of a signature, in their order. No step takes memory. Contracts see the parts that are left.
#[derive(Debug, Drop)]
pub struct SigParts<'a> {
    rest: &'a [u8],
    state: SigState,
}

impl<'a> Model for SigParts<'a> {
    ghost use Rattle.std.specs.Prelude.{List, []};
    ghost use Rattle.desk_names.specs.Pieces.{Piece};
    ghost use Rattle.desk_names.specs.SignaturePieces.{sig_cut};

    ghost Value = { List Piece };

    ghost view = { λ p. sig_cut p.state [] p.rest.now };
}

/// Whether a class name stands in front.
fn is_naming(state: SigState) -> bool
    ensures { result ≡ is_naming state }
{
    match state {
        SigState::In(_, RefState::Class(_, Spot::Package(_))) => true,
        _ => false,
    }
}

/// The state behind a class name.
fn named(state: SigState) -> SigState
    ensures { result ≡ named state }
{
    match state {
        SigState::In(place, RefState::Class(depth, _)) => SigState::In(
            place,
            RefState::Class(depth, Spot::Inner(true)),
        ),
        _ => state,
    }
}

/// The first place of a byte that ends a class name, or the length.
#[tactic(auto, unfolding(crate::specs::SignaturePieces::name_end))]
fn name_end(text: &[u8]) -> usize
    ensures value { result ≡ name_end text.now }
    ensures bound { result ≤ length text.now }
{
    for (i, byte) in text.iter().enumerate() {
        if is_mark(*byte) && *byte != b'/' {
            return i;
        }
    }
    text.len()
}

/// How far what is no class name reaches in front of a text, and the state behind it.
fn other_end(text: &[u8], state: SigState) -> (usize, SigState)
    requires plain { is_naming state ≡ false }
    requires some { 0 < length text.now }
    ensures first { sig_cut state [] text.now ≡ Piece.other (take result.0 text.now) ∷ sig_cut result.1 [] (drop result.0 text.now) }
    ensures bound { result.0 ≤ length text.now }
{
    let mut state = state;
    let mut at = 0;
    while at < text.len() {
        state = sig_step(state, text[at], &text[at + 1..]);
        at += 1;
        if is_naming(state) {
            return (at, state);
        }
        if is_within(state) {
            at = mark_from(text, at);
        }
    }
    (at, state)
}

/// A class name in front of a text, what is left behind it, and the state there.
fn first_name(text: &[u8], state: SigState) -> (Part<'_>, &[u8], SigState)
    requires naming { is_naming state ≡ true }
    requires some { 0 < length text.now }
    ensures { sig_cut state [] text.now ≡ piece_of result.0 ∷ sig_cut result.2 [] result.1.now }
{
    let at = name_end(text);
    let (name, rest) = text.split_at(at);
    if at < text.len() {
        (Part::Class(cut_name(name)), rest, named(state))
    } else {
        (Part::Other(text), rest, state)
    }
}

/// What stands in front of a class name in a text, what is left behind it, and the state there.
fn first_other(text: &[u8], state: SigState) -> (Part<'_>, &[u8], SigState)
    requires plain { is_naming state ≡ false }
    requires some { 0 < length text.now }
    ensures { sig_cut state [] text.now ≡ piece_of result.0 ∷ sig_cut result.2 [] result.1.now }
{
    let (at, behind) = other_end(text, state);
    let (other, rest) = text.split_at(at);
    (Part::Other(other), rest, behind)
}

impl<'a> Iterator for SigParts<'a> {
    type Item = Part<'a>;

    ghost next_gives = { YieldsFirstBy piece_of (λ p. p) };

    ghost remaining = { item_count (λ p. p) };

    #[tactic(auto, using(crate::proofs::SigPlaces::sig_none_left, crate::proofs::SigPlaces::sig_left_at))]
    fn next(&mut self) -> Option<Part<'a>> {
        if self.rest.is_empty() {
            return None;
        }
        if is_naming(self.state) {
            let (part, rest, state) = first_name(self.rest, self.state);
            self.rest = rest;
            self.state = state;
            Some(part)
        } else {
            let (part, rest, state) = first_other(self.rest, self.state);
            self.rest = rest;
            self.state = state;
            Some(part)
        }
    }
}

/// The parts of a signature; none exactly where the text is no signature of the wanted kind (JVMS 4.7.9.1), or one whose
/// type arguments nest more than 64 deep. It takes no memory.
pub fn read_signature(text: &[u8], which: Which) -> Option<SigParts<'_>>
    ensures read { is_some result ≡ is_sound_signature (wanted_signature which) text.now }
    ensures tree { OnSome result (HasSignature (wanted_signature which) text.now) }
    ensures none { IfNone result (HasNoSignature (wanted_signature which) text.now) }
    ensures parts { IfSome result (λ parts. parts ≡ sig_pieces (wanted_signature which) text.now) }
    ensures joined { IfSome result (λ parts. joined as_is parts ≡ text.now) }
    ensures cut { IfSome result AreCut }
{
    if is_signature(text, which) {
        Some(SigParts {
            rest: text,
            state: sig_start(which),
        })
    } else {
        None
    }
}

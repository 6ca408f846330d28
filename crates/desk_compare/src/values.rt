//! Two indices of two constant pools.

ghost use Rattle.std.specs.Prelude.{◌≡◌, ◌≤◌, ◌<◌, ℕ, ◌-◌, ◌==◌};
ghost use Rattle.desk_base.specs.Entries.{text_at, tag_at};
ghost use Rattle.desk_base.specs.Referents.{referent_of, may_be_none};
ghost use Rattle.desk_pool.specs.Bodies.{operands_at, number_at};
ghost use Rattle.desk_compare.specs.Values.{tag_number, same_within, same_value, same_text, is_text, same_of_kind, first_of, second_of, bytes_or_none};
ghost use Rattle.desk_compare.specs.Agreements.{agrees, agreement_of};

use crate::known::{IndexPair, KnownPairs};
use desk_base::{Tag, UseKind};
use desk_pool::Pool;

/// What two entries need to lead to the same value.
#[derive(Clone, Copy)]
enum Agreement {
    /// Nothing more: whether they do is known.
    Decided(bool),
    /// That an index of each leads to the same value.
    One(IndexPair),
    /// That two indices of each do.
    Both(IndexPair, IndexPair),
}

/// The text of the Utf8 at an index, or the empty text.
#[tactic(auto, using(crate::proofs::Levels::no_text))]
pub(crate) fn text_at<'a>(pool: &Pool<'a>, index: u16) -> &'a [u8]
    ensures { result.now ≡ text_at pool.now.entries index }
{
    match pool.utf8(index) {
        Some(text) => text,
        None => &[],
    }
}

/// The bytes of the number at an index, or none.
fn number_at<'a>(pool: &Pool<'a>, index: u16) -> &'a [u8]
    ensures { result.now ≡ bytes_or_none (number_at pool.now.entries index) }
{
    match pool.number(index) {
        Some(bytes) => bytes,
        None => &[],
    }
}

/// The two numbers in the body of the entry at an index, or 0.
fn operands_at(pool: &Pool<'_>, index: u16) -> (u16, u16)
    ensures first { result.0 ≡ first_of (operands_at pool.now.entries index) }
    ensures second { result.1 ≡ second_of (operands_at pool.now.entries index) }
{
    match pool.operands(index) {
        Some(operands) => operands,
        None => (0, 0),
    }
}

/// Whether two entries have the same tag, or neither is there.
fn same_tag(left: Option<Tag>, right: Option<Tag>) -> bool
    ensures { result ≡ (tag_number left == tag_number right) }
{
    left == right
}

/// What two entries of a tag need.
fn agreement_of(left: &Pool<'_>, right: &Pool<'_>, tag: Tag, i: u16, j: u16) -> Agreement
    ensures { result ≡ agreement_of left.now.entries right.now.entries tag i j }
{
    let (a, b) = operands_at(left, i);
    let (c, d) = operands_at(right, j);
    match tag {
        Tag::Utf8 => Agreement::Decided(text_at(left, i) == text_at(right, j)),
        Tag::Integer | Tag::Float | Tag::Long | Tag::Double => {
            Agreement::Decided(number_at(left, i) == number_at(right, j))
        }
        Tag::Class | Tag::String | Tag::MethodType | Tag::Module | Tag::Package => {
            Agreement::Decided(text_at(left, a) == text_at(right, c))
        }
        Tag::NameAndType => Agreement::Decided(
            text_at(left, a) == text_at(right, c) && text_at(left, b) == text_at(right, d),
        ),
        Tag::Fieldref | Tag::Methodref | Tag::InterfaceMethodref => Agreement::Both(
            IndexPair { left: a, right: c },
            IndexPair { left: b, right: d },
        ),
        Tag::MethodHandle | Tag::Dynamic | Tag::InvokeDynamic => {
            if a == c {
                Agreement::One(IndexPair { left: b, right: d })
            } else {
                Agreement::Decided(false)
            }
        }
    }
}

/// What the entries at two indices need, one level deep.
fn agreement_at(left: &Pool<'_>, right: &Pool<'_>, i: u16, j: u16) -> Agreement
    ensures { (n : ℕ) → 0 < n → same_within n left.now.entries right.now.entries i j ≡ agrees (n - 1) left.now.entries right.now.entries result }
{
    let tag = left.tag(i);
    if !same_tag(tag, right.tag(j)) {
        return Agreement::Decided(false);
    }
    match tag {
        None => Agreement::Decided(true),
        Some(tag) => agreement_of(left, right, tag, i, j),
    }
}

/// How many levels deep an index leads at most: a method handle, its member, and the class and the name and type of that.
const LEVELS: u8 = 3;

/// Whether two indices, followed so many levels deep, lead to the same value. Pairs whose entries lead no further are kept.
fn same_within(known: &mut KnownPairs<'_, '_, '_>, levels: u8, i: u16, j: u16) -> bool
    requires { levels ≤ 3 }
    ensures same { result ≡ same_within levels known.old.left known.old.right i j }
    ensures pools { known.new ≡ known.old }
{
    if levels == 0 {
        return true;
    }
    if known.has(i, j) {
        return true;
    }
    match agreement_at(known.left(), known.right(), i, j) {
        Agreement::Decided(false) => false,
        Agreement::Decided(true) => {
            known.keep(i, j);
            true
        }
        Agreement::One(pair) => same_within(known, levels - 1, pair.left, pair.right),
        Agreement::Both(first, second) => {
            if !same_within(known, levels - 1, first.left, first.right) {
                return false;
            }
            same_within(known, levels - 1, second.left, second.right)
        }
    }
}

/// Whether two indices lead to the same value, which is kept if they do.
pub(crate) fn same_value(known: &mut KnownPairs<'_, '_, '_>, i: u16, j: u16) -> bool
    ensures same { result ≡ same_value known.old.left known.old.right i j }
    ensures pools { known.new ≡ known.old }
{
    if known.has(i, j) {
        return true;
    }
    if !same_within(known, LEVELS, i, j) {
        return false;
    }
    known.keep(i, j);
    true
}

/// Whether two indices name the same text, where 0 may name none.
fn same_text(left: &Pool<'_>, right: &Pool<'_>, none: bool, i: u16, j: u16) -> bool
    ensures { result ≡ same_text left.now.entries right.now.entries none i j }
{
    if none && (i == 0 || j == 0) {
        i == 0 && j == 0
    } else {
        text_at(left, i) == text_at(right, j)
    }
}

/// Whether an index of a use kind names a text.
fn is_text(kind: UseKind) -> bool
    ensures { result ≡ is_text (referent_of kind) }
{
    matches!(
        kind,
        UseKind::Plain
            | UseKind::PlainOrNone
            | UseKind::AttrName
            | UseKind::FieldDescriptor
            | UseKind::MethodDescriptor
            | UseKind::ReturnDescriptor
            | UseKind::ClassSig
            | UseKind::MethodSig
            | UseKind::FieldSig
            | UseKind::Str
    )
}

/// Whether an index of a use kind may be 0, which names nothing.
fn may_be_none(kind: UseKind) -> bool
    ensures { result ≡ may_be_none kind }
{
    matches!(
        kind,
        UseKind::PlainOrNone
            | UseKind::ClassNameOrNone
            | UseKind::ClassOrNone
            | UseKind::NameAndTypeOrNone
    )
}

/// Whether two indices of a use kind lead to the same value. Two Utf8s of the same text, whose pair is kept, name that text.
#[tactic(auto, unfolding(crate::specs::Values::same_of_kind), using(crate::proofs::KnownValues::text_known))]
pub(crate) fn same_of_kind(
    known: &mut KnownPairs<'_, '_, '_>,
    kind: UseKind,
    i: u16,
    j: u16,
) -> bool
    ensures same { result ≡ same_of_kind known.old.left known.old.right kind i j }
    ensures pools { known.new ≡ known.old }
{
    if !is_text(kind) {
        return same_value(known, i, j);
    }
    if i != 0 && j != 0 && same_value(known, i, j) {
        return true;
    }
    same_text(known.left(), known.right(), may_be_none(kind), i, j)
}

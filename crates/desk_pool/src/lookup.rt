//! What an index names, and what it must name.

ghost use Rattle.std.specs.Prelude.{◌≡◌, ◌&&◌, option_map, option_copied};
ghost use Rattle.desk_base.specs.Entries.{number_of, entry_at, tag_at, utf8_at, text_at, class_name_at, descriptor_at};
ghost use Rattle.desk_base.specs.Referents.{begins_array, has_form, is_tag, is_chosen, allows, form_of, text_led_to, referent_of, may_be_none};
ghost use Rattle.desk_base.specs.Misfits.{form_fault, wrong_entry, wrong_text, misfit_of, misfit};
ghost use Rattle.desk_pool.specs.Seen.{entry_of, seen};
ghost use Rattle.desk_pool.specs.Bodies.{operands_at, number_at};

use crate::constant::Constant;
use crate::texts::PoolText;
use desk_base::{Choice, FaultKind, Form, Referent, Role, Tag, UseKind};

/// The entry that an index names; none of index 0, of the second index of a Long or Double, and behind the last entry.
pub fn constant_at<'a>(slots: &[Option<Constant<'a>>], index: u16) -> Option<Constant<'a>>
    ensures { option_map entry_of result ≡ entry_at (seen slots.now) index }
{
    if index == 0 {
        return None;
    }
    match slots.get(index as usize - 1) {
        Some(slot) => *slot,
        None => None,
    }
}

/// The tag of the entry that an index names.
pub fn tag_at(slots: &[Option<Constant<'_>>], index: u16) -> Option<Tag>
    ensures { result ≡ tag_at (seen slots.now) index }
{
    match constant_at(slots, index) {
        Some(constant) => Some(constant.tag()),
        None => None,
    }
}

/// The text of the Utf8 that an index names; none where it names no Utf8.
pub fn utf8_at<'a>(slots: &[Option<Constant<'a>>], index: u16) -> Option<&'a [u8]>
    ensures { option_copied result ≡ utf8_at (seen slots.now) index }
{
    match constant_at(slots, index) {
        Some(Constant::Utf8(text)) => Some(text.bytes),
        _ => None,
    }
}

/// The numbers of the body of the entry that an index names, in order, the second 0 where there is one alone; none at a text
/// or a number.
pub fn operands_at(slots: &[Option<Constant<'_>>], index: u16) -> Option<(u16, u16)>
    ensures { result ≡ operands_at (seen slots.now) index }
{
    let constant = match constant_at(slots, index) {
        Some(constant) => constant,
        None => return None,
    };
    match constant {
        Constant::Utf8(_)
        | Constant::Integer(_)
        | Constant::Float(_)
        | Constant::Long(_)
        | Constant::Double(_) => None,
        Constant::Class(only)
        | Constant::String(only)
        | Constant::MethodType(only)
        | Constant::Module(only)
        | Constant::Package(only) => Some((only, 0)),
        Constant::Fieldref(first, second)
        | Constant::Methodref(first, second)
        | Constant::InterfaceMethodref(first, second)
        | Constant::NameAndType(first, second)
        | Constant::Dynamic(first, second)
        | Constant::InvokeDynamic(first, second) => Some((first, second)),
        Constant::MethodHandle(kind, member) => Some((u16::from(kind), member)),
    }
}

/// The bytes of the number that an index names; none where it names no number.
pub fn number_at<'a>(slots: &[Option<Constant<'a>>], index: u16) -> Option<&'a [u8]>
    ensures { option_copied result ≡ number_at (seen slots.now) index }
{
    match constant_at(slots, index) {
        Some(
            Constant::Integer(bytes)
            | Constant::Float(bytes)
            | Constant::Long(bytes)
            | Constant::Double(bytes),
        ) => Some(bytes),
        _ => None,
    }
}

/// The text of the Utf8 that an index names, or the empty text.
pub fn text_at<'a>(slots: &[Option<Constant<'a>>], index: u16) -> PoolText<'a>
    ensures { result.bytes.now ≡ text_at (seen slots.now) index }
{
    match constant_at(slots, index) {
        Some(Constant::Utf8(text)) => text,
        _ => PoolText::new(&[]),
    }
}

/// The text that the Class at an index leads to, or the empty text.
pub fn class_name_at<'a>(slots: &[Option<Constant<'a>>], index: u16) -> PoolText<'a>
    ensures { result.bytes.now ≡ class_name_at (seen slots.now) index }
{
    match constant_at(slots, index) {
        Some(Constant::Class(name)) => text_at(slots, name),
        _ => PoolText::new(&[]),
    }
}

/// The descriptor that the NameAndType at an index leads to, or the empty text.
fn descriptor_at<'a>(slots: &[Option<Constant<'a>>], index: u16) -> PoolText<'a>
    ensures { result.bytes.now ≡ descriptor_at (seen slots.now) index }
{
    match constant_at(slots, index) {
        Some(Constant::NameAndType(_, descriptor)) => text_at(slots, descriptor),
        _ => PoolText::new(&[]),
    }
}

/// Whether two tags are the same.
fn is_tag(wanted: Tag, tag: Tag) -> bool
    ensures { result ≡ is_tag wanted tag }
{
    number_of(wanted) == number_of(tag)
}

/// The byte that stands for a tag.
fn number_of(tag: Tag) -> u8
    ensures { result ≡ number_of tag }
{
    match tag {
        Tag::Utf8 => 1,
        Tag::Integer => 3,
        Tag::Float => 4,
        Tag::Long => 5,
        Tag::Double => 6,
        Tag::Class => 7,
        Tag::String => 8,
        Tag::Fieldref => 9,
        Tag::Methodref => 10,
        Tag::InterfaceMethodref => 11,
        Tag::NameAndType => 12,
        Tag::MethodHandle => 15,
        Tag::MethodType => 16,
        Tag::Dynamic => 17,
        Tag::InvokeDynamic => 18,
        Tag::Module => 19,
        Tag::Package => 20,
    }
}

/// Whether an entry of a tag is among those of a choice.
fn is_chosen(choice: Choice, tag: Tag) -> bool
    ensures { result ≡ is_chosen choice tag }
{
    match choice {
        Choice::Only(wanted) => is_tag(wanted, tag),
        Choice::Constant => matches!(
            tag,
            Tag::Integer | Tag::Float | Tag::Long | Tag::Double | Tag::String
        ),
        Choice::Loadable => matches!(
            tag,
            Tag::Integer
                | Tag::Float
                | Tag::Long
                | Tag::Double
                | Tag::Class
                | Tag::String
                | Tag::MethodHandle
                | Tag::MethodType
                | Tag::Dynamic
        ),
        Choice::AnyMethod => matches!(tag, Tag::Methodref | Tag::InterfaceMethodref),
    }
}

/// Whether an entry of a tag is what a referent asks for.
fn allows(referent: Referent, tag: Tag) -> bool
    ensures { result ≡ allows referent tag }
{
    match referent {
        Referent::Text(_, _) => is_tag(Tag::Utf8, tag),
        Referent::Class(_) => is_tag(Tag::Class, tag),
        Referent::NameAndType(_) => is_tag(Tag::NameAndType, tag),
        Referent::Entry(choice) => is_chosen(choice, tag),
    }
}

/// The form that a referent asks of the text that it leads to.
fn form_of(referent: Referent) -> Form
    ensures { result ≡ form_of referent }
{
    match referent {
        Referent::Text(_, form) | Referent::Class(form) | Referent::NameAndType(form) => form,
        Referent::Entry(_) => Form::Any,
    }
}

/// The text that has this form.
fn text_led_to<'a>(slots: &[Option<Constant<'a>>], referent: Referent, index: u16) -> PoolText<'a>
    ensures { result.bytes.now ≡ text_led_to referent (seen slots.now) index }
{
    match referent {
        Referent::Text(_, _) => text_at(slots, index),
        Referent::Class(_) => class_name_at(slots, index),
        Referent::NameAndType(_) => descriptor_at(slots, index),
        Referent::Entry(_) => PoolText::new(&[]),
    }
}

/// What a text without its form is.
fn form_fault(form: Form) -> FaultKind
    ensures { result ≡ form_fault form }
{
    match form {
        Form::ClassName | Form::ClassOrArray => FaultKind::ClassName,
        _ => FaultKind::Descriptor,
    }
}

/// Index where an index names no entry that the referent asks for.
pub fn wrong_entry(
    slots: &[Option<Constant<'_>>],
    referent: Referent,
    index: u16,
) -> Option<FaultKind>
    ensures { result ≡ wrong_entry (seen slots.now) referent index }
{
    match tag_at(slots, index) {
        Some(tag) => {
            if allows(referent, tag) {
                None
            } else {
                Some(FaultKind::Index)
            }
        }
        None => Some(FaultKind::Index),
    }
}

/// ClassName or Descriptor where an index leads to a text without its form.
pub fn wrong_text(
    slots: &[Option<Constant<'_>>],
    referent: Referent,
    index: u16,
) -> Option<FaultKind>
    ensures { result ≡ wrong_text (seen slots.now) referent index }
{
    let form = form_of(referent);
    if text_led_to(slots, referent, index).has_form(form) {
        None
    } else {
        Some(form_fault(form))
    }
}

/// What an index of a use kind must name.
fn referent_of(kind: UseKind) -> Referent
    ensures { result ≡ referent_of kind }
{
    match kind {
        UseKind::Plain | UseKind::PlainOrNone => Referent::Text(Role::Plain, Form::Any),
        UseKind::AttrName => Referent::Text(Role::AttrName, Form::Any),
        UseKind::FieldDescriptor => Referent::Text(Role::Descriptor, Form::Field),
        UseKind::MethodDescriptor => Referent::Text(Role::Descriptor, Form::Method),
        UseKind::ReturnDescriptor => Referent::Text(Role::Descriptor, Form::Return),
        UseKind::ClassSig => Referent::Text(Role::ClassSig, Form::Any),
        UseKind::MethodSig => Referent::Text(Role::MethodSig, Form::Any),
        UseKind::FieldSig => Referent::Text(Role::FieldSig, Form::Any),
        UseKind::Str => Referent::Text(Role::Str, Form::Any),
        UseKind::ClassName | UseKind::ClassNameOrNone => Referent::Class(Form::ClassName),
        UseKind::Class | UseKind::ClassOrNone => Referent::Class(Form::Any),
        UseKind::NameAndTypeOrNone => Referent::NameAndType(Form::Any),
        UseKind::Module => Referent::Entry(Choice::Only(Tag::Module)),
        UseKind::Package => Referent::Entry(Choice::Only(Tag::Package)),
        UseKind::Constant => Referent::Entry(Choice::Constant),
        UseKind::Integer => Referent::Entry(Choice::Only(Tag::Integer)),
        UseKind::Float => Referent::Entry(Choice::Only(Tag::Float)),
        UseKind::Long => Referent::Entry(Choice::Only(Tag::Long)),
        UseKind::Double => Referent::Entry(Choice::Only(Tag::Double)),
        UseKind::Loadable => Referent::Entry(Choice::Loadable),
        UseKind::MethodHandle => Referent::Entry(Choice::Only(Tag::MethodHandle)),
    }
}

/// Whether index 0 is allowed, which names nothing.
fn may_be_none(kind: UseKind) -> bool
    ensures { result ≡ may_be_none kind }
{
    matches!(
        kind,
        UseKind::PlainOrNone
            | UseKind::ClassNameOrNone
            | UseKind::ClassOrNone
            | UseKind::NameAndTypeOrNone
    )
}

/// Why an index doesn't fit a use kind; none where it fits.
#[tactic(auto, unfolding(desk_base::specs::Misfits::misfit))]
pub fn misfit(slots: &[Option<Constant<'_>>], kind: UseKind, index: u16) -> Option<FaultKind>
    ensures { result ≡ misfit (seen slots.now) kind index }
{
    if may_be_none(kind) && index == 0 {
        return None;
    }
    let referent = referent_of(kind);
    match wrong_entry(slots, referent, index) {
        Some(fault) => Some(fault),
        None => wrong_text(slots, referent, index),
    }
}

//! One pass over entries: whether each index names an entry of a fitting tag and leads to a text of its form, and which
//! texts are used.

ghost use Rattle.std.specs.Prelude.{◌≡◌, ◌+◌, ◌++◌, ◌≤◌, ◌∷◌, [], false, length, IfOk, OnOk, MatchOption};
ghost use Rattle.desk_base.specs.Limits.{file_size};
ghost use Rattle.desk_base.specs.Referents.{links, has_form};
ghost use Rattle.desk_base.specs.declared.kinds.Role.TheVariants as roles;
ghost use Rattle.desk_base.specs.declared.referents.Form.TheVariants as forms;
ghost use Rattle.desk_base.specs.declared.referents.Referent.TheVariants as referents;
ghost use Rattle.desk_format.specs.PoolBytes.{print_slots, uses_among, pool_uses};
ghost use Rattle.desk_pool.specs.Seen.{entry_of, seen};
ghost use Rattle.desk_pool.specs.Fits.{index_fits, links_fit, slots_fit, Faultless, text_used};

use crate::constant::Constant;
use crate::links::handled;
use crate::lookup::{constant_at, text_at, wrong_entry, wrong_text};
use crate::named::find_class_name;
use crate::passes::size_of;
use desk_base::{Form, Memory, Referent, Role, Used};
use std::alloc::Global;

/// Whether an index names a Utf8 whose text has a form.
fn names_text(slots: &[Option<Constant<'_>>], index: u16, form: Form) -> bool
    ensures { result ≡ index_fits (seen slots.now) (referents.Text roles.Plain form) index }
{
    match constant_at(slots, index) {
        Some(Constant::Utf8(text)) => text.has_form(form),
        _ => false,
    }
}

/// Whether an index names a Class.
#[tactic(auto, unfolding(desk_base::specs::Referents::has_form))]
fn names_class(slots: &[Option<Constant<'_>>], index: u16) -> bool
    ensures { result ≡ index_fits (seen slots.now) (referents.Class forms.Any) index }
{
    matches!(constant_at(slots, index), Some(Constant::Class(_)))
}

/// Whether an index names a NameAndType that leads to a descriptor of a form.
fn names_member(slots: &[Option<Constant<'_>>], index: u16, form: Form) -> bool
    ensures { result ≡ index_fits (seen slots.now) (referents.NameAndType form) index }
{
    match constant_at(slots, index) {
        Some(Constant::NameAndType(_, descriptor)) => text_at(slots, descriptor).has_form(form),
        _ => false,
    }
}

/// Whether an index fits a referent.
fn index_fits(slots: &[Option<Constant<'_>>], referent: Referent, index: u16) -> bool
    ensures { result ≡ index_fits (seen slots.now) referent index }
{
    wrong_entry(slots, referent, index).is_none() && wrong_text(slots, referent, index).is_none()
}

/// Whether an index names a Utf8 whose text has a form of class names. It is then known of the text whether it is one.
fn names_class_text(slots: &mut [Option<Constant<'_>>], index: u16, form: Form) -> bool
    ensures fits { result ≡ index_fits (seen slots.old) (referents.Text roles.Plain form) index }
    ensures same { seen slots.new ≡ seen slots.old }
{
    find_class_name(slots, index);
    names_text(slots, index, form)
}

/// Whether each index of an entry fits. It is then known of the texts of a Class and of a Package whether they are class
/// names; what each index names stays as it is.
fn entry_fits(slots: &mut [Option<Constant<'_>>], constant: &Constant<'_>) -> bool
    ensures fits { result ≡ links_fit (seen slots.old) (links (entry_of constant.now)) }
    ensures same { seen slots.new ≡ seen slots.old }
{
    match *constant {
        Constant::Utf8(_)
        | Constant::Integer(_)
        | Constant::Float(_)
        | Constant::Long(_)
        | Constant::Double(_) => true,
        Constant::Class(name) => names_class_text(slots, name, Form::ClassOrArray),
        Constant::String(text) | Constant::Module(text) => names_text(slots, text, Form::Any),
        Constant::Fieldref(class, named) => {
            names_class(slots, class) && names_member(slots, named, Form::Field)
        }
        Constant::Methodref(class, named) | Constant::InterfaceMethodref(class, named) => {
            names_class(slots, class) && names_member(slots, named, Form::Method)
        }
        Constant::NameAndType(name, descriptor) => {
            names_text(slots, name, Form::Any) && names_text(slots, descriptor, Form::FieldOrMethod)
        }
        Constant::MethodHandle(kind, member) => index_fits(slots, handled(kind), member),
        Constant::MethodType(descriptor) => names_text(slots, descriptor, Form::Method),
        Constant::Dynamic(_, named) => names_member(slots, named, Form::Field),
        Constant::InvokeDynamic(_, named) => names_member(slots, named, Form::Method),
        Constant::Package(name) => names_class_text(slots, name, Form::ClassName),
    }
}

/// Adds the use of a text.
fn push_use(uses: &mut Vec<Used>, at: u32, index: u16, role: Role) -> Result<(), Memory>
    ensures { OnOk result (uses.new.items ≡ uses.old.items ++ text_used at index role ∷ []) }
{
    uses.push(Used { at, index, role })?;
    Ok(())
}

/// Adds the texts that the indices of an entry name, by place, where its tag stands at a place.
fn push_uses(uses: &mut Vec<Used>, constant: &Constant<'_>, at: u32) -> Result<(), Memory>
    requires { at ≤ file_size }
    ensures { OnOk result (uses.new.items ≡ uses.old.items ++ uses_among at (links (entry_of constant.now))) }
{
    match *constant {
        Constant::Class(name) => push_use(uses, at + 1, name, Role::Class),
        Constant::String(text) => push_use(uses, at + 1, text, Role::Str),
        Constant::NameAndType(name, descriptor) => {
            push_use(uses, at + 1, name, Role::Plain)?;
            push_use(uses, at + 3, descriptor, Role::Descriptor)
        }
        Constant::MethodType(descriptor) => push_use(uses, at + 1, descriptor, Role::Descriptor),
        Constant::Module(name) => push_use(uses, at + 1, name, Role::Module),
        Constant::Package(name) => push_use(uses, at + 1, name, Role::Package),
        Constant::Utf8(_)
        | Constant::Integer(_)
        | Constant::Float(_)
        | Constant::Long(_)
        | Constant::Double(_)
        | Constant::Fieldref(_, _)
        | Constant::Methodref(_, _)
        | Constant::InterfaceMethodref(_, _)
        | Constant::MethodHandle(_, _)
        | Constant::Dynamic(_, _)
        | Constant::InvokeDynamic(_, _) => Ok(()),
    }
}

/// The texts that entries use, in index order and then by place, where each of their indices fits and the first entry
/// stands at a place; none where an index doesn't fit. What each index names stays as it is.
pub fn uses_if_fitting(
    alloc: Global,
    slots: &mut [Option<Constant<'_>>],
    start: u32,
) -> Result<Option<Vec<Used>>, Memory>
    requires { start + length (print_slots (seen slots.old)) ≤ file_size }
    ensures uses { IfOk result (λ found. MatchOption found (slots_fit (seen slots.old) (seen slots.old) ≡ false) (λ uses. Faultless start (seen slots.old) uses.items)) }
    ensures same { seen slots.new ≡ seen slots.old }
{
    let mut uses = Vec::with_capacity(alloc, slots.len())?;
    let mut at = start;
    for place in 0..slots.len() {
        let slot = slots[place];
        let Some(constant) = slot else {
            continue;
        };
        if entry_fits(slots, &constant) {
            push_uses(&mut uses, &constant, at)?;
            at += size_of(&constant);
        } else {
            return Ok(None);
        }
    }
    Ok(Some(uses))
}

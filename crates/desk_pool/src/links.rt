//! The indices that stand in an entry (JVMS 4.4.1 to 4.4.12).

ghost use Rattle.std.specs.Prelude.{◌≡◌, [], ◌∷◌};
ghost use Rattle.desk_base.specs.Referents.{link, links, handled};
ghost use Rattle.desk_pool.specs.Seen.{entry_of, links_in};

use crate::constant::Constant;
use desk_base::{Choice, Form, Referent, Role, Tag};

/// An index of an entry: how many bytes behind the tag it stands, what it must name, and its value.
#[derive(Clone, Copy)]
pub struct Link {
    /// The offset of the index from the entry's tag, in bytes.
    pub behind: u8,
    /// What the entry that it names must be.
    pub referent: Referent,
    /// The index into the constant pool.
    pub index: u16,
}

/// The indices of an entry, of which there are at most two, by place.
#[derive(Clone, Copy)]
pub struct Links {
    /// The index that stands first; none where the entry has none, as a Utf8 or an Integer.
    pub first: Option<Link>,
    /// The index behind it; none where the entry has one or none.
    pub second: Option<Link>,
}

impl Links {
    /// The indices of an entry that names no other, as a Utf8.
    fn none() -> Links
        ensures { links_in result ≡ [] }
    {
        Links {
            first: None,
            second: None,
        }
    }

    /// One index, so many bytes behind the tag.
    fn one(behind: u8, referent: Referent, index: u16) -> Links
        ensures { links_in result ≡ link behind referent index ∷ [] }
    {
        Links {
            first: Some(Link {
                behind,
                referent,
                index,
            }),
            second: None,
        }
    }

    /// Two indices, of which the first stands behind the tag, and the second behind the first.
    fn two(first: (Referent, u16), second: (Referent, u16)) -> Links
        ensures { links_in result ≡ link 1 first.0 first.1 ∷ link 3 second.0 second.1 ∷ [] }
    {
        Links {
            first: Some(Link {
                behind: 1,
                referent: first.0,
                index: first.1,
            }),
            second: Some(Link {
                behind: 3,
                referent: second.0,
                index: second.1,
            }),
        }
    }
}

/// Which member a method handle of a kind must name (JVMS 4.4.8).
pub fn handled(kind: u8) -> Referent
    ensures { result ≡ handled kind }
{
    if kind < 5 {
        Referent::Entry(Choice::Only(Tag::Fieldref))
    } else if kind == 5 || kind == 8 {
        Referent::Entry(Choice::Only(Tag::Methodref))
    } else if kind == 9 {
        Referent::Entry(Choice::Only(Tag::InterfaceMethodref))
    } else {
        Referent::Entry(Choice::AnyMethod)
    }
}

/// The indices that stand in an entry, with what each must name.
pub fn links_of(constant: &Constant<'_>) -> Links
    ensures { links_in result ≡ links (entry_of constant.now) }
{
    match *constant {
        Constant::Class(name) => {
            Links::one(1, Referent::Text(Role::Class, Form::ClassOrArray), name)
        }
        Constant::String(text) => Links::one(1, Referent::Text(Role::Str, Form::Any), text),
        Constant::Fieldref(class, named) => Links::two(
            (Referent::Class(Form::Any), class),
            (Referent::NameAndType(Form::Field), named),
        ),
        Constant::Methodref(class, named) | Constant::InterfaceMethodref(class, named) => {
            Links::two(
                (Referent::Class(Form::Any), class),
                (Referent::NameAndType(Form::Method), named),
            )
        }
        Constant::NameAndType(name, descriptor) => Links::two(
            (Referent::Text(Role::Plain, Form::Any), name),
            (
                Referent::Text(Role::Descriptor, Form::FieldOrMethod),
                descriptor,
            ),
        ),
        Constant::MethodHandle(kind, member) => Links::one(2, handled(kind), member),
        Constant::MethodType(descriptor) => {
            Links::one(
                1,
                Referent::Text(Role::Descriptor, Form::Method),
                descriptor,
            )
        }
        Constant::Dynamic(_, named) => Links::one(3, Referent::NameAndType(Form::Field), named),
        Constant::InvokeDynamic(_, named) => {
            Links::one(3, Referent::NameAndType(Form::Method), named)
        }
        Constant::Module(name) => Links::one(1, Referent::Text(Role::Module, Form::Any), name),
        Constant::Package(name) => {
            Links::one(1, Referent::Text(Role::Package, Form::ClassName), name)
        }
        Constant::Utf8(_)
        | Constant::Integer(_)
        | Constant::Float(_)
        | Constant::Long(_)
        | Constant::Double(_) => Links::none(),
    }
}

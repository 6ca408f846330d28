//! What an index of a class file must name, with the form of the text that it leads to.

use crate::kinds::{Role, Tag};

/// A form that a text must have where some index leads to it.
#[derive(Clone, Copy, Debug, PartialEq, Eq)]
pub enum Form {
    /// Every text has it.
    Any,
    /// A class name in internal form (JVMS 4.2.1).
    ClassName,
    /// A class name, or a field descriptor that begins with `[`.
    ClassOrArray,
    /// A field descriptor (JVMS 4.3.2).
    Field,
    /// A method descriptor (JVMS 4.3.3).
    Method,
    /// A field or a method descriptor.
    FieldOrMethod,
    /// A field descriptor or `V` (JVMS 4.3.3).
    Return,
}

/// Entries that are told apart by their tags alone.
#[derive(Clone, Copy, Debug, PartialEq, Eq)]
pub enum Choice {
    /// Entries of one tag.
    Only(Tag),
    /// Integer, Float, Long, Double and String, which a field's ConstantValue may name (JVMS 4.7.2).
    Constant,
    /// The entries that an instruction can load (JVMS 4.4).
    Loadable,
    /// Methodref and InterfaceMethodref.
    AnyMethod,
}

/// What the entry that an index names must be, and the form of the text that it leads to.
#[derive(Clone, Copy, Debug, PartialEq, Eq)]
pub enum Referent {
    /// A Utf8 that is used in a role, with a text of a form.
    Text(Role, Form),
    /// A Class, with a text of a form.
    Class(Form),
    /// A NameAndType, with a descriptor of a form.
    NameAndType(Form),
    /// One of these entries.
    Entry(Choice),
}

//! The texts of a pool, each with the forms that it has.

ghost use Rattle.std.specs.Prelude.{◌≡◌, ◌&&◌, ◌||◌, ◌==◌, length, unwrap_or};
ghost use Rattle.desk_base.specs.Descriptors.{DescriptorKind, is_descriptor};
ghost use Rattle.desk_base.specs.Names.{is_class_name};
ghost use Rattle.desk_base.specs.Referents.{begins_array, has_form};
ghost use Rattle.desk_pool.specs.Begins.{begins};

use desk_base::Form;
use desk_names::{Want, read_descriptor, split_class};

/// A text, with the forms that were found when the pool was read, so that a use of it takes constant time. Whether it is a
/// class name is looked for only where a Class or a Package leads to it.
#[derive(Clone, Copy)]
pub struct PoolText<'a> {
    /// The bytes of the text, in modified UTF-8 (JVMS 4.4.7).
    pub bytes: &'a [u8],
    class_name: Option<bool>,
    field: bool,
    method: bool,
    ghost class_name_found: { unwrap_or class_name (is_class_name bytes.now) ≡ is_class_name bytes.now },
    ghost field_found: { field ≡ is_descriptor DescriptorKind.field bytes.now },
    ghost method_found: { method ≡ is_descriptor DescriptorKind.method bytes.now },
}

/// Whether a text is a field descriptor, which is one byte long or begins with `L` or `[` (JVMS 4.3.2).
fn is_field(text: &[u8]) -> bool
    ensures { result ≡ is_descriptor DescriptorKind.field text.now }
{
    may_be_field(text) && read_descriptor(text, Want::Field).is_some()
}

/// Whether a text is one byte long, or begins with `L` or `[`.
fn may_be_field(text: &[u8]) -> bool
    ensures { result ≡ (length text.now == 1 || (begins 76 text.now || begins 91 text.now)) }
{
    text.len() == 1 || begins(text, b'L') || begins(text, b'[')
}

/// Whether a text is a method descriptor, which begins with `(` (JVMS 4.3.3).
fn is_method(text: &[u8]) -> bool
    ensures { result ≡ is_descriptor DescriptorKind.method text.now }
{
    begins(text, b'(') && read_descriptor(text, Want::Method).is_some()
}

/// Whether a text begins with a byte.
fn begins(text: &[u8], byte: u8) -> bool
    ensures { result ≡ begins byte text.now }
{
    match text.first() {
        Some(first) => *first == byte,
        None => false,
    }
}

impl<'a> PoolText<'a> {
    /// A text, of which it is found whether it is a descriptor.
    pub fn new(bytes: &'a [u8]) -> PoolText<'a>
        ensures { result.bytes.now ≡ bytes.now }
    {
        let field = is_field(bytes);
        let method = is_method(bytes);
        PoolText {
            bytes,
            class_name: None,
            field,
            method,
        }
    }

    /// Whether it is a class name in internal form (JVMS 4.2.1).
    fn is_class_name(&self) -> bool
        ensures { result ≡ is_class_name self.now.bytes.now }
    {
        match self.class_name {
            Some(found) => found,
            None => split_class(self.bytes).is_some(),
        }
    }

    /// The text, of which it is then found whether it is a class name.
    pub fn with_class_name(&self) -> PoolText<'a>
        ensures { result.bytes.now ≡ self.now.bytes.now }
    {
        PoolText {
            bytes: self.bytes,
            class_name: Some(self.is_class_name()),
            field: self.field,
            method: self.method,
        }
    }

    /// Whether the text has a form that an index may want. It takes constant time.
    #[tactic(auto, unfolding(desk_base::specs::Referents::has_form), using(crate::proofs::Begins::returned_is))]
    pub fn has_form(&self, form: Form) -> bool
        ensures { result ≡ has_form form self.now.bytes.now }
    {
        match form {
            Form::Any => true,
            Form::ClassName => self.is_class_name(),
            Form::ClassOrArray => self.is_class_name() || (begins(self.bytes, b'[') && self.field),
            Form::Field => self.field,
            Form::Method => self.method,
            Form::FieldOrMethod => self.field || self.method,
            Form::Return => self.field || self.bytes == b"V".as_slice(),
        }
    }
}

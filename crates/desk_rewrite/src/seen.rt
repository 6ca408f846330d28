//! What is known of texts, by index and role.

ghost use Rattle.std.specs.Prelude.{◌≡◌, ◌<◌, if◌then◌else◌, length};
ghost use Rattle.std.specs.Ordering.{nat_cmp, is_eq};
ghost use Rattle.desk_rewrite.specs.Tables.{rank, looked_of, looked_at, Notes};
ghost use Rattle.desk_rewrite.specs.declared.table.TextRole.{TextRole as RoleOf};

use crate::table::TextRole;

/// What is known of a text in a role.
#[derive(Clone, Copy, Debug)]
pub enum Looked {
    /// It wasn't looked at.
    NotYet,
    /// It is its own image.
    Own,
    /// Its image is another text, of this number.
    Image(u32),
}

/// What is known of a text in each role.
#[derive(Clone, Copy, Debug)]
pub struct ByRole {
    /// As the name of a class or an array.
    class: Looked,
    /// As a package.
    package: Looked,
    /// As a descriptor.
    descriptor: Looked,
    /// As the signature of a class.
    class_signature: Looked,
    /// As the signature of a method.
    method_signature: Looked,
    /// As the signature of a field.
    field_signature: Looked,
    /// As a string constant.
    string: Looked,
}

impl ByRole {
    /// What is known of a text that wasn't looked at.
    pub fn unseen() -> ByRole
        ensures { (k : RoleOf) → looked_of result k ≡ Looked.NotYet }
    {
        ByRole {
            class: Looked::NotYet,
            package: Looked::NotYet,
            descriptor: Looked::NotYet,
            class_signature: Looked::NotYet,
            method_signature: Looked::NotYet,
            field_signature: Looked::NotYet,
            string: Looked::NotYet,
        }
    }

    /// What is known in a role.
    fn get(&self, text_role: TextRole) -> Looked
        ensures { result ≡ looked_of self.now text_role }
    {
        match text_role {
            TextRole::Class => self.class,
            TextRole::Package => self.package,
            TextRole::Descriptor => self.descriptor,
            TextRole::ClassSig => self.class_signature,
            TextRole::MethodSig => self.method_signature,
            TextRole::FieldSig => self.field_signature,
            TextRole::Str => self.string,
        }
    }

    /// Notes what is known in a role.
    fn set(&mut self, text_role: TextRole, looked: Looked)
        ensures { (k : RoleOf) → looked_of self.new k ≡ (if is_eq (nat_cmp (rank text_role) (rank k)) then looked else looked_of self.old k) }
    {
        match text_role {
            TextRole::Class => self.class = looked,
            TextRole::Package => self.package = looked,
            TextRole::Descriptor => self.descriptor = looked,
            TextRole::ClassSig => self.class_signature = looked,
            TextRole::MethodSig => self.method_signature = looked,
            TextRole::FieldSig => self.field_signature = looked,
            TextRole::Str => self.string = looked,
        }
    }
}

/// What is known of the text at an index in a role.
pub fn looked_at(rows: &[ByRole], key: (u16, TextRole)) -> Looked
    ensures { result ≡ looked_at rows.now key }
{
    match rows.get(key.0 as usize) {
        None => Looked::NotYet,
        Some(row) => row.get(key.1),
    }
}

/// Notes what is known of the text at an index in a role.
pub fn note(rows: &mut [ByRole], key: (u16, TextRole), looked: Looked)
    requires { key.0 < length rows.old }
    ensures notes { Notes rows.old key looked rows.new }
    ensures length { length rows.new ≡ length rows.old }
{
    rows[key.0 as usize].set(key.1, looked);
}

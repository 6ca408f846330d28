//! Fields and methods.

/// A field or a method of a class (JVMS 4.5, 4.6).
#[derive(Clone, Copy, Debug, PartialEq, Eq)]
pub struct Member {
    /// The offset of its access flags from the start of the file, in bytes.
    pub at: u32,
    /// `name_index` (JVMS 4.5, 4.6): the index of its name in the constant pool.
    pub name: u16,
    /// `descriptor_index` (JVMS 4.5, 4.6): the index of its descriptor in the constant pool.
    pub descriptor: u16,
    /// Whether it is a method, and not a field.
    pub method: bool,
}

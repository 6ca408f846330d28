//! What an index of a class file names, and what a text is used as.

/// The tag of an entry of the constant pool (JVMS 4.4).
#[derive(Clone, Copy, Debug, PartialEq, Eq)]
pub enum Tag {
    /// 1: a text in modified UTF-8 (JVMS 4.4.7).
    Utf8,
    /// 3: a constant of type `int` (JVMS 4.4.4).
    Integer,
    /// 4: a constant of type `float` (JVMS 4.4.4).
    Float,
    /// 5: a constant of type `long`, which takes two indices (JVMS 4.4.5).
    Long,
    /// 6: a constant of type `double`, which takes two indices (JVMS 4.4.5).
    Double,
    /// 7: a class, an interface or an array (JVMS 4.4.1).
    Class,
    /// 8: a constant of type `String` (JVMS 4.4.3).
    String,
    /// 9: a field of a class (JVMS 4.4.2).
    Fieldref,
    /// 10: a method of a class (JVMS 4.4.2).
    Methodref,
    /// 11: a method of an interface (JVMS 4.4.2).
    InterfaceMethodref,
    /// 12: a name and a descriptor (JVMS 4.4.6).
    NameAndType,
    /// 15: a method handle (JVMS 4.4.8).
    MethodHandle,
    /// 16: a method type (JVMS 4.4.9).
    MethodType,
    /// 17: a constant that is computed (JVMS 4.4.10).
    Dynamic,
    /// 18: a call site that is computed (JVMS 4.4.10).
    InvokeDynamic,
    /// 19: a module (JVMS 4.4.11).
    Module,
    /// 20: a package of a module (JVMS 4.4.12).
    Package,
}

/// What a text is used as, which decides how it is renamed.
#[derive(Clone, Copy, Debug, PartialEq, Eq)]
pub enum Role {
    /// A class name in internal form, or the descriptor of an array.
    Class,
    /// A package in internal form.
    Package,
    /// The name of a module.
    Module,
    /// A field, method or return descriptor.
    Descriptor,
    /// The signature of a class.
    ClassSig,
    /// The signature of a method.
    MethodSig,
    /// The signature of a field, a local variable or a record component.
    FieldSig,
    /// The text of a string constant.
    Str,
    /// Any other text, as the name of a field or a method; it isn't renamed.
    Plain,
    /// The name of an attribute.
    AttrName,
}

/// Which entry a two-byte index of a class's body must name (JVMS 4.1, 4.5 to 4.7).
#[derive(Clone, Copy, Debug, PartialEq, Eq)]
pub enum UseKind {
    /// A Utf8.
    Plain,
    /// A Utf8, or index 0.
    PlainOrNone,
    /// A Utf8 that names an attribute.
    AttrName,
    /// A Utf8 that is a field descriptor.
    FieldDescriptor,
    /// A Utf8 that is a method descriptor.
    MethodDescriptor,
    /// A Utf8 that is a field descriptor or `V`.
    ReturnDescriptor,
    /// A Utf8 that is used as the signature of a class.
    ClassSig,
    /// A Utf8 that is used as the signature of a method.
    MethodSig,
    /// A Utf8 that is used as the signature of a field.
    FieldSig,
    /// A Utf8 that is used as a string.
    Str,
    /// A Class whose text is a class name, and no array.
    ClassName,
    /// A Class whose text is a class name, and no array, or index 0.
    ClassNameOrNone,
    /// A Class.
    Class,
    /// A Class, or index 0.
    ClassOrNone,
    /// A NameAndType, or index 0.
    NameAndTypeOrNone,
    /// A Module.
    Module,
    /// A Package.
    Package,
    /// An Integer, Float, Long, Double or String.
    Constant,
    /// An Integer.
    Integer,
    /// A Float.
    Float,
    /// A Long.
    Long,
    /// A Double.
    Double,
    /// An entry that an instruction can load: an Integer, Float, Long, Double, Class, String, MethodHandle,
    /// MethodType or Dynamic.
    Loadable,
    /// A MethodHandle.
    MethodHandle,
}

/// A two-byte place of a class file that holds the index of a Utf8.
#[derive(Clone, Copy, Debug, PartialEq, Eq)]
pub struct Used {
    /// The place's offset from the start of the file, in bytes.
    pub at: u32,
    /// The index that stands there.
    pub index: u16,
    /// What the text is used as.
    pub role: Role,
}

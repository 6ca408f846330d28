//! Where attributes stand, which attributes have a layout, and the slots of their rows.

use desk_base::UseKind;

/// Where an attribute stands (JVMS 4.7, table 4.7-C): in the table of a class, a field, a method, a
/// Code attribute or a record component.
#[derive(Clone, Copy, Debug, PartialEq, Eq)]
pub enum Location {
    /// In the table of a class (JVMS 4.1).
    OfClass,
    /// In the table of a field (JVMS 4.5).
    OfField,
    /// In the table of a method (JVMS 4.6).
    OfMethod,
    /// In the table of a Code attribute (JVMS 4.7.3).
    OfCode,
    /// In the table of a component of a Record attribute (JVMS 4.7.30).
    OfComponent,
}

/// One slot of a row, two bytes wide: a number, or an index of the constant pool of a use kind.
#[derive(Clone, Copy, Debug, PartialEq, Eq)]
pub enum Slot {
    /// A number, which is kept as it is.
    Number,
    /// An index that must name what this use kind says.
    Index(UseKind),
}

/// The thirty attributes of JVMS 4.7, each named as in the file.
#[derive(Clone, Copy, Debug, PartialEq, Eq)]
pub enum Attribute {
    /// JVMS 4.7.2.
    ConstantValue,
    /// JVMS 4.7.3.
    Code,
    /// JVMS 4.7.4.
    StackMapTable,
    /// JVMS 4.7.5.
    Exceptions,
    /// JVMS 4.7.6.
    InnerClasses,
    /// JVMS 4.7.7.
    EnclosingMethod,
    /// JVMS 4.7.8.
    Synthetic,
    /// JVMS 4.7.9.
    Signature,
    /// JVMS 4.7.10.
    SourceFile,
    /// JVMS 4.7.11.
    SourceDebugExtension,
    /// JVMS 4.7.12.
    LineNumberTable,
    /// JVMS 4.7.13.
    LocalVariableTable,
    /// JVMS 4.7.14.
    LocalVariableTypeTable,
    /// JVMS 4.7.15.
    Deprecated,
    /// JVMS 4.7.16.
    RuntimeVisibleAnnotations,
    /// JVMS 4.7.17.
    RuntimeInvisibleAnnotations,
    /// JVMS 4.7.18.
    RuntimeVisibleParameterAnnotations,
    /// JVMS 4.7.19.
    RuntimeInvisibleParameterAnnotations,
    /// JVMS 4.7.20.
    RuntimeVisibleTypeAnnotations,
    /// JVMS 4.7.21.
    RuntimeInvisibleTypeAnnotations,
    /// JVMS 4.7.22.
    AnnotationDefault,
    /// JVMS 4.7.23.
    BootstrapMethods,
    /// JVMS 4.7.24.
    MethodParameters,
    /// JVMS 4.7.25.
    Module,
    /// JVMS 4.7.26.
    ModulePackages,
    /// JVMS 4.7.27.
    ModuleMainClass,
    /// JVMS 4.7.28.
    NestHost,
    /// JVMS 4.7.29.
    NestMembers,
    /// JVMS 4.7.30.
    Record,
    /// JVMS 4.7.31.
    PermittedSubclasses,
}

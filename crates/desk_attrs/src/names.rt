//! Which attribute a name means.

ghost use Rattle.std.specs.Prelude.{◌≡◌, length};
ghost use Rattle.desk_base.specs.Names.{Text};
ghost use Rattle.desk_format.specs.Attributes.{attribute_name, attribute_named, first_named};

use desk_format::Attribute;

/// The name of an attribute.
fn attribute_name(attribute: Attribute) -> &'static [u8]
    ensures { result.now ≡ attribute_name attribute }
{
    match attribute {
        Attribute::ConstantValue => b"ConstantValue",
        Attribute::Code => b"Code",
        Attribute::StackMapTable => b"StackMapTable",
        Attribute::Exceptions => b"Exceptions",
        Attribute::InnerClasses => b"InnerClasses",
        Attribute::EnclosingMethod => b"EnclosingMethod",
        Attribute::Synthetic => b"Synthetic",
        Attribute::Signature => b"Signature",
        Attribute::SourceFile => b"SourceFile",
        Attribute::SourceDebugExtension => b"SourceDebugExtension",
        Attribute::LineNumberTable => b"LineNumberTable",
        Attribute::LocalVariableTable => b"LocalVariableTable",
        Attribute::LocalVariableTypeTable => b"LocalVariableTypeTable",
        Attribute::Deprecated => b"Deprecated",
        Attribute::RuntimeVisibleAnnotations => b"RuntimeVisibleAnnotations",
        Attribute::RuntimeInvisibleAnnotations => b"RuntimeInvisibleAnnotations",
        Attribute::RuntimeVisibleParameterAnnotations => b"RuntimeVisibleParameterAnnotations",
        Attribute::RuntimeInvisibleParameterAnnotations => b"RuntimeInvisibleParameterAnnotations",
        Attribute::RuntimeVisibleTypeAnnotations => b"RuntimeVisibleTypeAnnotations",
        Attribute::RuntimeInvisibleTypeAnnotations => b"RuntimeInvisibleTypeAnnotations",
        Attribute::AnnotationDefault => b"AnnotationDefault",
        Attribute::BootstrapMethods => b"BootstrapMethods",
        Attribute::MethodParameters => b"MethodParameters",
        Attribute::Module => b"Module",
        Attribute::ModulePackages => b"ModulePackages",
        Attribute::ModuleMainClass => b"ModuleMainClass",
        Attribute::NestHost => b"NestHost",
        Attribute::NestMembers => b"NestMembers",
        Attribute::Record => b"Record",
        Attribute::PermittedSubclasses => b"PermittedSubclasses",
    }
}

/// The attributes whose names have a length in bytes.
fn named_by_length(size: usize) -> &'static [Attribute]
    ensures { (name : Text) → length name ≡ size → attribute_named name ≡ first_named name result.now }
{
    match size {
        4 => &[Attribute::Code],
        6 => &[Attribute::Module, Attribute::Record],
        8 => &[Attribute::NestHost],
        9 => &[Attribute::Synthetic, Attribute::Signature],
        10 => &[
            Attribute::Exceptions,
            Attribute::SourceFile,
            Attribute::Deprecated,
        ],
        11 => &[Attribute::NestMembers],
        12 => &[Attribute::InnerClasses],
        13 => &[Attribute::ConstantValue, Attribute::StackMapTable],
        14 => &[Attribute::ModulePackages],
        15 => &[
            Attribute::EnclosingMethod,
            Attribute::LineNumberTable,
            Attribute::ModuleMainClass,
        ],
        16 => &[Attribute::BootstrapMethods, Attribute::MethodParameters],
        17 => &[Attribute::AnnotationDefault],
        18 => &[Attribute::LocalVariableTable],
        19 => &[Attribute::PermittedSubclasses],
        20 => &[Attribute::SourceDebugExtension],
        22 => &[Attribute::LocalVariableTypeTable],
        25 => &[Attribute::RuntimeVisibleAnnotations],
        27 => &[Attribute::RuntimeInvisibleAnnotations],
        29 => &[Attribute::RuntimeVisibleTypeAnnotations],
        31 => &[Attribute::RuntimeInvisibleTypeAnnotations],
        34 => &[Attribute::RuntimeVisibleParameterAnnotations],
        36 => &[Attribute::RuntimeInvisibleParameterAnnotations],
        _ => &[],
    }
}

/// The attribute of a name; none where no attribute has that name.
pub fn attribute_named(name: &[u8]) -> Option<Attribute>
    ensures { result ≡ attribute_named name.now }
{
    for attribute in named_by_length(name.len()) {
        if name == attribute_name(*attribute) {
            return Some(*attribute);
        }
    }
    None
}

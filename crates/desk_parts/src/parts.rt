//! The table of the parts of a class's body: which part is made of which.

ghost use Rattle.std.specs.Prelude.{◌≡◌, ◌≤◌, ◌<◌, ◌+◌, ◌-◌, ◌*◌, true};
ghost use Rattle.desk_parts.specs.Parts.{part_layout, class_layout, stack_layout, annotation_layout, type_annotation_layout, structure_layout, branch_of, union_rank, rank, class_rank, stack_rank, annotation_rank, type_annotation_rank, level, Below};
ghost use Rattle.desk_format.specs.Attributes.{body_at, row_of, inner_attributes, is_among, signature_kind};

use desk_base::UseKind;
use desk_format::Slot::{Index, Number};
use desk_format::{Attribute, Location, Slot};

/// A part of the body of a class (JVMS 4.1, 4.5 to 4.7): what the table has a row for.
#[derive(Clone, Copy)]
pub enum Part {
    /// No bytes.
    Nothing,
    /// A number of one byte.
    U1,
    /// A number of two bytes.
    U2,
    /// So many raw bytes.
    Raw(u32),
    /// Code behind its length (JVMS 4.7.3).
    CodeBytes,
    /// An index of the constant pool.
    Index(UseKind),
    /// Slots, one behind the other.
    Slots(&'static [Slot]),
    /// A two-byte count, and as many rows of slots.
    Table(&'static [Slot]),
    /// Slots, and a table of slots behind them.
    SlotsAndTable(&'static [Slot], &'static [Slot]),
    /// A two-byte count, and as many of these.
    SlotsAndTables(&'static [Slot], &'static [Slot]),
    /// A table of slots at the end of a row.
    LastTable(&'static [Slot]),
    /// The attributes at a location (JVMS 4.7).
    Attributes(Location),
    /// A class, or a piece of it.
    Class(ClassPart),
    /// The frames of a stack map, or a piece of them.
    Stack(StackPart),
    /// Annotations, or a piece of them.
    Annotation(AnnotationPart),
    /// Type annotations, or a piece of them.
    TypeAnnotation(TypeAnnotationPart),
}

/// A class, its members, and what its attributes hold that is neither slots nor annotations.
#[derive(Clone, Copy)]
pub enum ClassPart {
    /// All of a class behind its constant pool (JVMS 4.1).
    Body,
    /// The fields of a class.
    Fields,
    /// JVMS 4.5.
    Field,
    /// The methods of a class.
    Methods,
    /// JVMS 4.6.
    Method,
    /// The names of parameters (JVMS 4.7.24).
    MethodParameters,
    /// The body of a Code attribute (JVMS 4.7.3).
    Code,
    /// Code without its attributes.
    CodeHead,
    /// The components of a Record attribute (JVMS 4.7.30).
    Components,
    /// One of them.
    Component,
    /// The body of a Module attribute (JVMS 4.7.25).
    Module,
}

/// The frames of a StackMapTable attribute (JVMS 4.7.4).
#[derive(Clone, Copy)]
pub enum StackPart {
    /// All of them.
    Frames,
    /// One of them.
    Frame,
    /// A verification type.
    Type,
    /// A two-byte count, and as many verification types.
    Types,
    /// A frame's offset delta, and a verification type.
    OffsetAndType,
    /// A frame's offset delta, and two verification types.
    OffsetAndTwoTypes,
    /// A frame's offset delta, and three verification types.
    OffsetAndThreeTypes,
    /// A full frame behind its tag.
    FullFrame,
}

/// Annotations (JVMS 4.7.16), whose element values are of a depth, from 1 on.
#[derive(Clone, Copy)]
pub enum AnnotationPart {
    /// An annotation.
    One(u8),
    /// A two-byte count, and as many annotations.
    Many(u8),
    /// The annotations of parameters (JVMS 4.7.18).
    OfParameters,
    /// The name of an element, and its value.
    Pair(u8),
    /// A two-byte count, and as many of these.
    Pairs(u8),
    /// An element value (JVMS 4.7.16.1) of this depth.
    Element(u8),
    /// A two-byte count, and as many element values.
    Elements(u8),
}

/// Type annotations (JVMS 4.7.20).
#[derive(Clone, Copy)]
pub enum TypeAnnotationPart {
    /// One of them.
    One,
    /// All of an attribute.
    Many,
    /// The target of one, behind its type (JVMS 4.7.20.1).
    Target,
    /// The target of a bound of a type parameter.
    TypeParameterBound,
    /// The target of a type argument.
    TypeArgument,
    /// The path to a type (JVMS 4.7.20.2).
    TypePath,
    /// A step of such a path.
    PathStep,
    /// The kind of a step.
    PathKind,
}

/// What a part is made of.
#[derive(Clone, Copy)]
pub enum Structure {
    /// No bytes.
    Nothing,
    /// A number of one byte.
    U1,
    /// A number of two bytes.
    U2,
    /// The kind of a step of a type path.
    PathKind,
    /// So many raw bytes.
    Raw(u32),
    /// Code behind its length.
    CodeBytes,
    /// An index of the constant pool.
    Index(UseKind),
    /// Slots, one behind the other.
    Slots(&'static [Slot]),
    /// One part, and another behind it.
    Both(Part, Part),
    /// The same, of a field or a method.
    Member(Part, Part),
    /// Parts, one behind the other.
    Row(&'static [Part]),
    /// A two-byte count, and as many of a part.
    Table(Part),
    /// A one-byte count, and as many of a part.
    ShortTable(Part),
    /// The attributes at a location.
    Attributes(Location),
    /// A one-byte tag, and the part that it selects.
    Union(Union),
    /// What may not stand here, whatever its bytes.
    Fault,
}

/// What begins with a one-byte tag, which selects what is behind it.
#[derive(Clone, Copy)]
pub enum Union {
    /// A frame of a stack map (JVMS 4.7.4).
    Frame,
    /// A verification type (JVMS 4.7.4).
    VerificationType,
    /// The target of a type annotation (JVMS 4.7.20.1).
    Target,
    /// An element value whose own element values are of this depth (JVMS 4.7.16.1).
    Element(u8),
}

const CLASS_HEAD: &[Slot] = &[
    Number,
    Index(UseKind::ClassName),
    Index(UseKind::ClassNameOrNone),
];

const INTERFACES: &[Slot] = &[Index(UseKind::ClassName)];

const FIELD_HEAD: &[Slot] = &[
    Number,
    Index(UseKind::Plain),
    Index(UseKind::FieldDescriptor),
];

const METHOD_HEAD: &[Slot] = &[
    Number,
    Index(UseKind::Plain),
    Index(UseKind::MethodDescriptor),
];

const TWO_NUMBERS: &[Slot] = &[Number, Number];

const HANDLERS: &[Slot] = &[Number, Number, Number, Index(UseKind::ClassOrNone)];

const COMPONENT_HEAD: &[Slot] = &[Index(UseKind::Plain), Index(UseKind::FieldDescriptor)];

const MODULE_HEAD: &[Slot] = &[Index(UseKind::Module), Number, Index(UseKind::PlainOrNone)];

const PACKAGE: &[Slot] = &[Index(UseKind::Package), Number];

const MODULE: &[Slot] = &[Index(UseKind::Module)];

const CLASS: &[Slot] = &[Index(UseKind::Class)];

const NAME_AND_FLAGS: &[Slot] = &[Index(UseKind::PlainOrNone), Number];

const CONSTANT: &[Slot] = &[Index(UseKind::FieldDescriptor), Index(UseKind::Plain)];

const THREE_NUMBERS: &[Slot] = &[Number, Number, Number];

const BODY: &[Part] = &[
    Part::Slots(CLASS_HEAD),
    Part::Table(INTERFACES),
    Part::Class(ClassPart::Fields),
    Part::Class(ClassPart::Methods),
    Part::Attributes(Location::OfClass),
];

const CODE_HEAD: &[Part] = &[
    Part::Slots(TWO_NUMBERS),
    Part::CodeBytes,
    Part::Table(HANDLERS),
];

const MODULE_BODY: &[Part] = &[
    Part::Slots(MODULE_HEAD),
    Part::Table(MODULE_HEAD),
    Part::SlotsAndTables(PACKAGE, MODULE),
    Part::SlotsAndTables(PACKAGE, MODULE),
    Part::Table(CLASS),
    Part::SlotsAndTables(CLASS, CLASS),
];

const OFFSET_AND_TYPE: &[Part] = &[Part::U2, Part::Stack(StackPart::Type)];

const OFFSET_AND_TWO_TYPES: &[Part] = &[
    Part::U2,
    Part::Stack(StackPart::Type),
    Part::Stack(StackPart::Type),
];

const OFFSET_AND_THREE_TYPES: &[Part] = &[
    Part::U2,
    Part::Stack(StackPart::Type),
    Part::Stack(StackPart::Type),
    Part::Stack(StackPart::Type),
];

const FULL_FRAME: &[Part] = &[
    Part::U2,
    Part::Stack(StackPart::Types),
    Part::Stack(StackPart::Types),
];

const TYPE_ANNOTATION: &[Part] = &[
    Part::TypeAnnotation(TypeAnnotationPart::Target),
    Part::TypeAnnotation(TypeAnnotationPart::TypePath),
    Part::Annotation(AnnotationPart::One(1)),
];

const TYPE_PARAMETER_BOUND: &[Part] = &[Part::U1, Part::U1];

const TYPE_ARGUMENT: &[Part] = &[Part::U2, Part::U1];

const PATH_STEP: &[Part] = &[Part::TypeAnnotation(TypeAnnotationPart::PathKind), Part::U1];

/// What a class, or a piece of it, is made of.
#[tactic(auto, using(crate::proofs::Depths::code_is, crate::proofs::Depths::component_is), unfolding(desk_format::specs::Rows::row_layout, desk_format::specs::ClassBody::class_body))]
fn class_structure(part: ClassPart) -> Structure
    ensures layout { class_layout part ≡ structure_layout result }
    ensures below { Below (class_rank part) result }
{
    match part {
        ClassPart::Body => Structure::Row(BODY),
        ClassPart::Fields => Structure::Table(Part::Class(ClassPart::Field)),
        ClassPart::Field => Structure::Member(
            Part::Slots(FIELD_HEAD),
            Part::Attributes(Location::OfField),
        ),
        ClassPart::Methods => Structure::Table(Part::Class(ClassPart::Method)),
        ClassPart::Method => Structure::Member(
            Part::Slots(METHOD_HEAD),
            Part::Attributes(Location::OfMethod),
        ),
        ClassPart::MethodParameters => Structure::ShortTable(Part::Slots(NAME_AND_FLAGS)),
        ClassPart::Code => Structure::Both(
            Part::Class(ClassPart::CodeHead),
            Part::Attributes(Location::OfCode),
        ),
        ClassPart::CodeHead => Structure::Row(CODE_HEAD),
        ClassPart::Components => Structure::Table(Part::Class(ClassPart::Component)),
        ClassPart::Component => Structure::Both(
            Part::Slots(COMPONENT_HEAD),
            Part::Attributes(Location::OfComponent),
        ),
        ClassPart::Module => Structure::Row(MODULE_BODY),
    }
}

/// What the frames of a stack map, or a piece of them, are made of.
fn stack_structure(part: StackPart) -> Structure
    ensures layout { stack_layout part ≡ structure_layout result }
    ensures below { Below (stack_rank part) result }
{
    match part {
        StackPart::Frames => Structure::Table(Part::Stack(StackPart::Frame)),
        StackPart::Frame => Structure::Union(Union::Frame),
        StackPart::Type => Structure::Union(Union::VerificationType),
        StackPart::Types => Structure::Table(Part::Stack(StackPart::Type)),
        StackPart::OffsetAndType => Structure::Row(OFFSET_AND_TYPE),
        StackPart::OffsetAndTwoTypes => Structure::Row(OFFSET_AND_TWO_TYPES),
        StackPart::OffsetAndThreeTypes => Structure::Row(OFFSET_AND_THREE_TYPES),
        StackPart::FullFrame => Structure::Row(FULL_FRAME),
    }
}

/// What annotations, or a piece of them, are made of.
#[tactic(auto, using(crate::proofs::Depths::element_is, crate::proofs::Depths::element_ends))]
fn annotation_structure(part: AnnotationPart) -> Structure
    ensures layout { annotation_layout part ≡ structure_layout result }
    ensures below { Below (annotation_rank part) result }
{
    match part {
        AnnotationPart::One(depth) => Structure::Both(
            Part::Index(UseKind::FieldDescriptor),
            Part::Annotation(AnnotationPart::Pairs(depth)),
        ),
        AnnotationPart::Many(depth) => {
            Structure::Table(Part::Annotation(AnnotationPart::One(depth)))
        }
        AnnotationPart::OfParameters => {
            Structure::ShortTable(Part::Annotation(AnnotationPart::Many(1)))
        }
        AnnotationPart::Pair(depth) => Structure::Both(
            Part::Index(UseKind::Plain),
            Part::Annotation(AnnotationPart::Element(depth)),
        ),
        AnnotationPart::Pairs(depth) => {
            Structure::Table(Part::Annotation(AnnotationPart::Pair(depth)))
        }
        AnnotationPart::Element(depth) => {
            if depth >= 65 {
                Structure::Fault
            } else {
                Structure::Union(Union::Element(depth + 1))
            }
        }
        AnnotationPart::Elements(depth) => {
            Structure::Table(Part::Annotation(AnnotationPart::Element(depth)))
        }
    }
}

/// What type annotations, or a piece of them, are made of.
fn type_annotation_structure(part: TypeAnnotationPart) -> Structure
    ensures layout { type_annotation_layout part ≡ structure_layout result }
    ensures below { Below (type_annotation_rank part) result }
{
    match part {
        TypeAnnotationPart::One => Structure::Row(TYPE_ANNOTATION),
        TypeAnnotationPart::Many => {
            Structure::Table(Part::TypeAnnotation(TypeAnnotationPart::One))
        }
        TypeAnnotationPart::Target => Structure::Union(Union::Target),
        TypeAnnotationPart::TypeParameterBound => Structure::Row(TYPE_PARAMETER_BOUND),
        TypeAnnotationPart::TypeArgument => Structure::Row(TYPE_ARGUMENT),
        TypeAnnotationPart::TypePath => {
            Structure::ShortTable(Part::TypeAnnotation(TypeAnnotationPart::PathStep))
        }
        TypeAnnotationPart::PathStep => Structure::Row(PATH_STEP),
        TypeAnnotationPart::PathKind => Structure::PathKind,
    }
}

/// What a part is made of, by the table.
#[tactic(auto, unfolding(desk_format::specs::Rows::row_layout))]
pub fn structure_of(part: Part) -> Structure
    ensures layout { part_layout part ≡ structure_layout result }
    ensures below { Below (rank part) result }
{
    match part {
        Part::Nothing => Structure::Nothing,
        Part::U1 => Structure::U1,
        Part::U2 => Structure::U2,
        Part::Raw(size) => Structure::Raw(size),
        Part::CodeBytes => Structure::CodeBytes,
        Part::Index(kind) => Structure::Index(kind),
        Part::Slots(slots) => Structure::Slots(slots),
        Part::Table(slots) => Structure::Table(Part::Slots(slots)),
        Part::SlotsAndTable(slots, table) => Structure::Both(
            Part::Slots(slots),
            Part::LastTable(table),
        ),
        Part::SlotsAndTables(slots, table) => Structure::Table(Part::SlotsAndTable(slots, table)),
        Part::LastTable(table) => Structure::Both(Part::Table(table), Part::Nothing),
        Part::Attributes(location) => Structure::Attributes(location),
        Part::Class(piece) => class_structure(piece),
        Part::Stack(piece) => stack_structure(piece),
        Part::Annotation(piece) => annotation_structure(piece),
        Part::TypeAnnotation(piece) => type_annotation_structure(piece),
    }
}

fn frame_part(tag: u8) -> Part
    ensures layout { part_layout result ≡ branch_of Union.Frame tag }
    ensures below { rank result < 11 }
{
    match tag {
        64..=127 => Part::Stack(StackPart::Type),
        247 | 252 => Part::Stack(StackPart::OffsetAndType),
        248..=251 => Part::U2,
        253 => Part::Stack(StackPart::OffsetAndTwoTypes),
        254 => Part::Stack(StackPart::OffsetAndThreeTypes),
        255 => Part::Stack(StackPart::FullFrame),
        _ => Part::Nothing,
    }
}

fn type_part(tag: u8) -> Part
    ensures layout { part_layout result ≡ branch_of Union.VerificationType tag }
    ensures below { rank result < 1 }
{
    match tag {
        7 => Part::Index(UseKind::Class),
        8 => Part::U2,
        _ => Part::Nothing,
    }
}

#[tactic(auto, unfolding(desk_format::specs::Rows::row_layout))]
fn target_part(tag: u8) -> Part
    ensures layout { part_layout result ≡ branch_of Union.Target tag }
    ensures below { rank result < 4 }
{
    match tag {
        0x00 | 0x01 | 0x16 => Part::U1,
        0x10 | 0x17 | 0x42..=0x46 => Part::U2,
        0x11 | 0x12 => Part::TypeAnnotation(TypeAnnotationPart::TypeParameterBound),
        0x40 | 0x41 => Part::Table(THREE_NUMBERS),
        0x47..=0x4B => Part::TypeAnnotation(TypeAnnotationPart::TypeArgument),
        _ => Part::Nothing,
    }
}

#[tactic(auto, unfolding(desk_format::specs::Rows::row_layout))]
fn element_part(depth: u8, tag: u8) -> Part
    ensures layout { part_layout result ≡ branch_of (Union.Element depth) tag }
    ensures below { rank result < 10 * (65 - depth) + 7 }
{
    match tag {
        b'B' | b'C' | b'I' | b'S' | b'Z' => Part::Index(UseKind::Integer),
        b'D' => Part::Index(UseKind::Double),
        b'F' => Part::Index(UseKind::Float),
        b'J' => Part::Index(UseKind::Long),
        b's' => Part::Index(UseKind::Str),
        b'c' => Part::Index(UseKind::ReturnDescriptor),
        b'e' => Part::Slots(CONSTANT),
        b'@' => Part::Annotation(AnnotationPart::One(depth)),
        b'[' => Part::Annotation(AnnotationPart::Elements(depth)),
        _ => Part::Nothing,
    }
}

/// The part that a tag selects.
pub fn selected_part(union: Union, tag: u8) -> Part
    ensures layout { part_layout result ≡ branch_of union tag }
    ensures below { rank result < union_rank union }
{
    match union {
        Union::Frame => frame_part(tag),
        Union::VerificationType => type_part(tag),
        Union::Target => target_part(tag),
        Union::Element(depth) => element_part(depth, tag),
    }
}

/// Whether an attribute has its layout at a location (JVMS 4.7, table 4.7-C).
fn has_layout(attribute: Attribute, location: Location) -> bool
    ensures { result ≡ is_among (row_of inner_attributes attribute).places location }
{
    match attribute {
        Attribute::ConstantValue => matches!(location, Location::OfField),
        Attribute::Code
        | Attribute::Exceptions
        | Attribute::RuntimeVisibleParameterAnnotations
        | Attribute::RuntimeInvisibleParameterAnnotations
        | Attribute::AnnotationDefault
        | Attribute::MethodParameters => matches!(location, Location::OfMethod),
        Attribute::StackMapTable
        | Attribute::LineNumberTable
        | Attribute::LocalVariableTable
        | Attribute::LocalVariableTypeTable => matches!(location, Location::OfCode),
        Attribute::Synthetic | Attribute::Deprecated => {
            matches!(
                location,
                Location::OfClass | Location::OfField | Location::OfMethod
            )
        }
        Attribute::Signature
        | Attribute::RuntimeVisibleAnnotations
        | Attribute::RuntimeInvisibleAnnotations => !matches!(location, Location::OfCode),
        Attribute::RuntimeVisibleTypeAnnotations | Attribute::RuntimeInvisibleTypeAnnotations =>
            true,
        _ => matches!(location, Location::OfClass),
    }
}

const CONSTANT_VALUE: &[Slot] = &[Index(UseKind::Constant)];

const INNER_CLASSES: &[Slot] = &[
    Index(UseKind::Class),
    Index(UseKind::ClassOrNone),
    Index(UseKind::PlainOrNone),
    Number,
];

const ENCLOSING_METHOD: &[Slot] = &[Index(UseKind::Class), Index(UseKind::NameAndTypeOrNone)];

const CLASS_SIGNATURE: &[Slot] = &[Index(UseKind::ClassSig)];

const METHOD_SIGNATURE: &[Slot] = &[Index(UseKind::MethodSig)];

const FIELD_SIGNATURE: &[Slot] = &[Index(UseKind::FieldSig)];

const PLAIN: &[Slot] = &[Index(UseKind::Plain)];

const LOCAL_VARIABLES: &[Slot] = &[
    Number,
    Number,
    Index(UseKind::Plain),
    Index(UseKind::FieldDescriptor),
    Number,
];

const LOCAL_VARIABLE_TYPES: &[Slot] = &[
    Number,
    Number,
    Index(UseKind::Plain),
    Index(UseKind::FieldSig),
    Number,
];

const HANDLE: &[Slot] = &[Index(UseKind::MethodHandle)];

const LOADABLE: &[Slot] = &[Index(UseKind::Loadable)];

const PACKAGES: &[Slot] = &[Index(UseKind::Package)];

/// The slots of a Signature at a location (JVMS 4.7.9).
#[tactic(auto, unfolding(desk_format::specs::Rows::row_layout))]
fn signature(location: Location) -> Part
    ensures layout { part_layout result ≡ (row_of inner_attributes Attribute.Signature).body location 0 }
    ensures below { rank result ≡ 0 }
{
    match location {
        Location::OfClass => Part::Slots(CLASS_SIGNATURE),
        Location::OfMethod => Part::Slots(METHOD_SIGNATURE),
        _ => Part::Slots(FIELD_SIGNATURE),
    }
}

/// The body of a known attribute at one of its places, of a length.
#[tactic(auto, using(crate::proofs::Depths::in_method, crate::proofs::Depths::in_class, crate::proofs::Depths::high), unfolding(desk_format::specs::Rows::row_layout))]
fn known_part(attribute: Attribute, location: Location, length: u32) -> Part
    ensures layout { part_layout result ≡ (row_of inner_attributes attribute).body location length }
    ensures below { is_among (row_of inner_attributes attribute).places location ≡ true → rank result < level location }
{
    match attribute {
        Attribute::ConstantValue => Part::Slots(CONSTANT_VALUE),
        Attribute::Code => Part::Class(ClassPart::Code),
        Attribute::StackMapTable => Part::Stack(StackPart::Frames),
        Attribute::Exceptions => Part::Table(CLASS),
        Attribute::InnerClasses => Part::Table(INNER_CLASSES),
        Attribute::EnclosingMethod => Part::Slots(ENCLOSING_METHOD),
        Attribute::Synthetic | Attribute::Deprecated => Part::Nothing,
        Attribute::Signature => signature(location),
        Attribute::SourceFile => Part::Slots(PLAIN),
        Attribute::SourceDebugExtension => Part::Raw(length),
        Attribute::LineNumberTable => Part::Table(TWO_NUMBERS),
        Attribute::LocalVariableTable => Part::Table(LOCAL_VARIABLES),
        Attribute::LocalVariableTypeTable => Part::Table(LOCAL_VARIABLE_TYPES),
        Attribute::RuntimeVisibleAnnotations | Attribute::RuntimeInvisibleAnnotations => {
            Part::Annotation(AnnotationPart::Many(1))
        }
        Attribute::RuntimeVisibleParameterAnnotations
        | Attribute::RuntimeInvisibleParameterAnnotations => Part::Annotation(
            AnnotationPart::OfParameters,
        ),
        Attribute::RuntimeVisibleTypeAnnotations | Attribute::RuntimeInvisibleTypeAnnotations => {
            Part::TypeAnnotation(TypeAnnotationPart::Many)
        }
        Attribute::AnnotationDefault => Part::Annotation(AnnotationPart::Element(1)),
        Attribute::BootstrapMethods => Part::SlotsAndTables(HANDLE, LOADABLE),
        Attribute::MethodParameters => Part::Class(ClassPart::MethodParameters),
        Attribute::Module => Part::Class(ClassPart::Module),
        Attribute::ModulePackages => Part::Table(PACKAGES),
        Attribute::ModuleMainClass | Attribute::NestHost => Part::Slots(CLASS),
        Attribute::NestMembers | Attribute::PermittedSubclasses => Part::Table(CLASS),
        Attribute::Record => Part::Class(ClassPart::Components),
    }
}

/// The body of an attribute at a location, of so many bytes; raw where it has no layout there.
pub fn attribute_part(location: Location, attribute: Option<Attribute>, length: u32) -> Part
    ensures layout { part_layout result ≡ body_at location length attribute }
    ensures below { rank result < level location }
{
    match attribute {
        None => Part::Raw(length),
        Some(known) => {
            if has_layout(known, location) {
                known_part(known, location, length)
            } else {
                Part::Raw(length)
            }
        }
    }
}

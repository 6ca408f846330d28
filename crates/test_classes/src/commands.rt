//! The commands by their names.

use desk_attrs::Location;
use desk_base::UseKind;

/// What a command asks of a pool.
#[derive(Clone, Copy)]
pub enum PoolQuestion {
    /// Whether the bytes hold one.
    Whether,
    Count,
    Uses,
    Tag,
    Text,
    ClassName,
    Check(UseKind),
}

/// A part of an attribute.
#[derive(Clone, Copy)]
pub enum Part {
    Element,
    Frames,
    TypeAnnotations,
    ParameterAnnotations,
}

/// What a command walks over.
#[derive(Clone, Copy)]
pub enum Walk {
    Part(Part),
    Attribute(Location),
    Attributes(Location),
}

/// What a command asks of a class.
#[derive(Clone, Copy)]
pub enum ClassQuestion {
    /// Whether the bytes hold one.
    Whether,
    Bytes,
    Body,
    Name,
    Count,
    Members,
    Uses,
    ClassNames,
    HeldNames,
}

/// A command of a case.
#[derive(Clone, Copy)]
pub enum Command {
    Pool,
    OfPool(PoolQuestion),
    Walk(Walk),
    Class,
    Servlet,
    OfClass(ClassQuestion),
    Cuts,
    FaultsWith255,
}

/// The name of each command.
const COMMANDS: &[(&[u8], Command)] = &[
    (b"pool", Command::Pool),
    (b"pool-count", Command::OfPool(PoolQuestion::Count)),
    (b"pool-uses", Command::OfPool(PoolQuestion::Uses)),
    (b"tag", Command::OfPool(PoolQuestion::Tag)),
    (b"text", Command::OfPool(PoolQuestion::Text)),
    (b"class-name", Command::OfPool(PoolQuestion::ClassName)),
    (
        b"check-class",
        Command::OfPool(PoolQuestion::Check(UseKind::Class)),
    ),
    (
        b"check-class-name",
        Command::OfPool(PoolQuestion::Check(UseKind::ClassName)),
    ),
    (
        b"check-class-name-or-none",
        Command::OfPool(PoolQuestion::Check(UseKind::ClassNameOrNone)),
    ),
    (
        b"check-field-descriptor",
        Command::OfPool(PoolQuestion::Check(UseKind::FieldDescriptor)),
    ),
    (b"element", Command::Walk(Walk::Part(Part::Element))),
    (b"frames", Command::Walk(Walk::Part(Part::Frames))),
    (
        b"type-annotations",
        Command::Walk(Walk::Part(Part::TypeAnnotations)),
    ),
    (
        b"parameter-annotations",
        Command::Walk(Walk::Part(Part::ParameterAnnotations)),
    ),
    (
        b"class-attribute",
        Command::Walk(Walk::Attribute(Location::OfClass)),
    ),
    (
        b"method-attribute",
        Command::Walk(Walk::Attribute(Location::OfMethod)),
    ),
    (
        b"method-attributes",
        Command::Walk(Walk::Attributes(Location::OfMethod)),
    ),
    (b"class", Command::Class),
    (b"servlet", Command::Servlet),
    (b"bytes", Command::OfClass(ClassQuestion::Bytes)),
    (b"body", Command::OfClass(ClassQuestion::Body)),
    (b"name", Command::OfClass(ClassQuestion::Name)),
    (b"count", Command::OfClass(ClassQuestion::Count)),
    (b"members", Command::OfClass(ClassQuestion::Members)),
    (b"uses", Command::OfClass(ClassQuestion::Uses)),
    (b"class-names", Command::OfClass(ClassQuestion::ClassNames)),
    (b"held-names", Command::OfClass(ClassQuestion::HeldNames)),
    (b"cuts", Command::Cuts),
    (b"faults-with-255", Command::FaultsWith255),
];

/// The command of a name.
pub fn command_of(name: &[u8]) -> Option<Command> {
    for (known, command) in COMMANDS.iter() {
        if *known == name {
            return Some(*command);
        }
    }
    None
}

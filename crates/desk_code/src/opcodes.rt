//! The table of opcodes (JVMS 6.5).

ghost use Rattle.std.specs.Prelude.{◌≡◌};
ghost use Rattle.desk_code.specs.Opcodes.{is_named, shape_of, index_size, wide_size};

use desk_base::Tag;

/// What the index of an instruction must name: an entry of one of these tags (JVMS 4.4, 6.5).
#[derive(Clone, Copy, Debug, PartialEq, Eq)]
pub enum Operand {
    /// An Integer, Float, String, Class, MethodHandle, MethodType or Dynamic.
    Loadable,
    /// A Long, Double or Dynamic.
    WideLoadable,
    /// A Fieldref.
    Field,
    /// A Methodref.
    Method,
    /// A Methodref or InterfaceMethodref.
    AnyMethod,
    /// An InterfaceMethodref.
    InterfaceMethod,
    /// An InvokeDynamic.
    CallSite,
    /// A Class.
    Class,
}

/// What stands behind an opcode.
#[derive(Clone, Copy, Debug, PartialEq, Eq)]
pub enum Shape {
    /// So many bytes that hold no index.
    Bytes(u8),
    /// A one-byte index.
    ByteIndex(Operand),
    /// A two-byte index, and so many bytes behind it.
    Index(Operand, u8),
    /// Padding, the default, and a table from a low to a high number (`tableswitch`).
    TableSwitch,
    /// Padding, the default, and pairs (`lookupswitch`).
    LookupSwitch,
    /// A second opcode, with wide numbers (`wide`).
    Wide,
}

/// Whether an index that names an entry of a tag, or none, is an operand (JVMS 6.5). It takes no memory.
pub fn is_named(operand: Operand, tag: Option<Tag>) -> bool
    ensures { result ≡ is_named operand tag }
{
    let tag = match tag {
        Some(tag) => tag,
        None => return false,
    };
    match operand {
        Operand::Loadable => matches!(
            tag,
            Tag::Integer
                | Tag::Float
                | Tag::String
                | Tag::Class
                | Tag::MethodHandle
                | Tag::MethodType
                | Tag::Dynamic
        ),
        Operand::WideLoadable => matches!(tag, Tag::Long | Tag::Double | Tag::Dynamic),
        Operand::Field => matches!(tag, Tag::Fieldref),
        Operand::Method => matches!(tag, Tag::Methodref),
        Operand::InterfaceMethod => matches!(tag, Tag::InterfaceMethodref),
        Operand::CallSite => matches!(tag, Tag::InvokeDynamic),
        Operand::Class => matches!(tag, Tag::Class),
        Operand::AnyMethod => matches!(tag, Tag::Methodref | Tag::InterfaceMethodref),
    }
}

/// What stands behind an opcode; None of a byte that is no opcode of the table.
#[tactic(auto, unfolding(crate::specs::Opcodes::shape_of))]
pub fn shape_of(opcode: u8) -> Option<Shape>
    ensures { result ≡ shape_of opcode }
{
    match opcode {
        0x00..=0x0F | 0x1A..=0x35 | 0x3B..=0x83 | 0x85..=0x98 | 0xAC..=0xB1 => {
            Some(Shape::Bytes(0))
        }
        0xBE | 0xBF | 0xC2 | 0xC3 => Some(Shape::Bytes(0)),
        0x10 | 0x15..=0x19 | 0x36..=0x3A | 0xA9 | 0xBC => Some(Shape::Bytes(1)),
        0x11 | 0x84 | 0x99..=0xA8 | 0xC6 | 0xC7 => Some(Shape::Bytes(2)),
        0xC8 | 0xC9 => Some(Shape::Bytes(4)),
        0x12 => Some(Shape::ByteIndex(Operand::Loadable)),
        0x13 => Some(Shape::Index(Operand::Loadable, 0)),
        0x14 => Some(Shape::Index(Operand::WideLoadable, 0)),
        0xAA => Some(Shape::TableSwitch),
        0xAB => Some(Shape::LookupSwitch),
        0xB2..=0xB5 => Some(Shape::Index(Operand::Field, 0)),
        0xB6 => Some(Shape::Index(Operand::Method, 0)),
        0xB7 | 0xB8 => Some(Shape::Index(Operand::AnyMethod, 0)),
        0xB9 => Some(Shape::Index(Operand::InterfaceMethod, 2)),
        0xBA => Some(Shape::Index(Operand::CallSite, 2)),
        0xBB | 0xBD | 0xC0 | 0xC1 => Some(Shape::Index(Operand::Class, 0)),
        0xC4 => Some(Shape::Wide),
        0xC5 => Some(Shape::Index(Operand::Class, 1)),
        _ => None,
    }
}

/// How many bytes of index stand behind an opcode.
pub(crate) fn index_size(opcode: u8) -> usize
    ensures { result ≡ index_size (shape_of opcode) }
{
    match shape_of(opcode) {
        Some(Shape::ByteIndex(_)) => 1,
        Some(Shape::Index(_, _)) => 2,
        _ => 0,
    }
}

/// How many bytes stand behind an opcode that stands behind C4.
#[tactic(auto, unfolding(crate::specs::Opcodes::wide_size))]
pub(crate) fn wide_size(opcode: u8) -> Option<u8>
    ensures { result ≡ wide_size opcode }
{
    match opcode {
        0x15..=0x19 | 0x36..=0x3A | 0xA9 => Some(2),
        0x84 => Some(4),
        _ => None,
    }
}

//! Reading one entry (JVMS 4.4.1 to 4.4.12).

ghost use Rattle.std.specs.Prelude.{◌≡◌, ◌+◌, ◌≤◌, length, Err};
ghost use Rattle.desk_base.specs.Entries.{tag_of, is_wide};
ghost use Rattle.desk_format.specs.PoolReading.{item, number_read, text_read, kind_read, body, tag_numbered, entry_read};
ghost use Rattle.desk_pool.specs.Seen.{entry_of, Reads};

use crate::texts::PoolText;
use desk_base::{Cursor, FaultKind, Malformed, Tag, check_utf8};

/// An entry, whose texts and numbers lie in the class: the bytes of a text or a number, indices of other entries, the kind
/// of a method handle, the number of a bootstrap method.
#[derive(Clone, Copy)]
pub enum Constant<'a> {
    /// Its text (JVMS 4.4.7).
    Utf8(PoolText<'a>),
    /// Its four bytes (JVMS 4.4.4).
    Integer(&'a [u8]),
    /// Its four bytes (JVMS 4.4.4).
    Float(&'a [u8]),
    /// Its eight bytes, the high ones first (JVMS 4.4.5).
    Long(&'a [u8]),
    /// Its eight bytes, the high ones first (JVMS 4.4.5).
    Double(&'a [u8]),
    /// `name_index` (JVMS 4.4.1).
    Class(u16),
    /// `string_index` (JVMS 4.4.3).
    String(u16),
    /// `class_index` and `name_and_type_index` (JVMS 4.4.2).
    Fieldref(u16, u16),
    /// `class_index` and `name_and_type_index` (JVMS 4.4.2).
    Methodref(u16, u16),
    /// `class_index` and `name_and_type_index` (JVMS 4.4.2).
    InterfaceMethodref(u16, u16),
    /// `name_index` and `descriptor_index` (JVMS 4.4.6).
    NameAndType(u16, u16),
    /// `reference_kind`, 1 to 9, and `reference_index` (JVMS 4.4.8).
    MethodHandle(u8, u16),
    /// `descriptor_index` (JVMS 4.4.9).
    MethodType(u16),
    /// `bootstrap_method_attr_index` and `name_and_type_index` (JVMS 4.4.10).
    Dynamic(u16, u16),
    /// `bootstrap_method_attr_index` and `name_and_type_index` (JVMS 4.4.10).
    InvokeDynamic(u16, u16),
    /// `name_index` (JVMS 4.4.11).
    Module(u16),
    /// `name_index` (JVMS 4.4.12).
    Package(u16),
}

fn fault<T>(kind: FaultKind, at: u32) -> Result<T, Malformed>
    ensures { result ≡ Err (record { kind = kind; at = at }) }
{
    Err(Malformed { kind, at })
}

/// The bytes of an item.
fn read_bytes<'a>(n: u32, cursor: &mut Cursor<'a>) -> Result<&'a [u8], Malformed>
    ensures item { Reads result (λ b. b.now) (item n cursor.old.at cursor.old.left) cursor.new }
    ensures ahead { cursor.old.at ≤ cursor.new.at }
    ensures end { cursor.new.at + length cursor.new.left ≡ cursor.old.at + length cursor.old.left }
{
    Ok(cursor.take(n)?)
}

/// The number in the next two bytes, which is big-endian (JVMS 4).
pub fn read_number(cursor: &mut Cursor<'_>) -> Result<u16, Malformed>
    ensures number { Reads result (λ i. i) (number_read cursor.old.at cursor.old.left) cursor.new }
    ensures ahead { cursor.old.at ≤ cursor.new.at }
    ensures end { cursor.new.at + length cursor.new.left ≡ cursor.old.at + length cursor.old.left }
{
    Ok(cursor.u2()?)
}

/// A text behind its length.
fn read_text<'a>(cursor: &mut Cursor<'a>) -> Result<&'a [u8], Malformed>
    ensures text { Reads result (λ t. t.now) (text_read cursor.old.at cursor.old.left) cursor.new }
    ensures ahead { cursor.old.at ≤ cursor.new.at }
    ensures end { cursor.new.at + length cursor.new.left ≡ cursor.old.at + length cursor.old.left }
{
    let length = read_number(cursor)?;
    let start = cursor.at();
    let text = read_bytes(u32::from(length), cursor)?;
    match check_utf8(text) {
        Ok(()) => Ok(text),
        Err(offset) => fault(FaultKind::Utf8Form, start + offset),
    }
}

/// The kind of a method handle.
fn read_kind(cursor: &mut Cursor<'_>) -> Result<u8, Malformed>
    ensures kind { Reads result (λ k. k) (kind_read cursor.old.at cursor.old.left) cursor.new }
    ensures ahead { cursor.old.at ≤ cursor.new.at }
    ensures end { cursor.new.at + length cursor.new.left ≡ cursor.old.at + length cursor.old.left }
{
    let at = cursor.at();
    let kind = cursor.u1()?;
    if kind == 0 || kind > 9 {
        fault(FaultKind::RefKind, at)
    } else {
        Ok(kind)
    }
}

/// What stands behind a tag.
#[tactic(auto, unfolding(desk_format::specs::PoolReading::body))]
fn read_body<'a>(tag: Tag, cursor: &mut Cursor<'a>) -> Result<Constant<'a>, Malformed>
    ensures body { Reads result entry_of (body tag cursor.old.at cursor.old.left) cursor.new }
    ensures ahead { cursor.old.at ≤ cursor.new.at }
    ensures end { cursor.new.at + length cursor.new.left ≡ cursor.old.at + length cursor.old.left }
{
    match tag {
        Tag::Utf8 => Ok(Constant::Utf8(PoolText::new(read_text(cursor)?))),
        Tag::Integer => Ok(Constant::Integer(read_bytes(4, cursor)?)),
        Tag::Float => Ok(Constant::Float(read_bytes(4, cursor)?)),
        Tag::Long => Ok(Constant::Long(read_bytes(8, cursor)?)),
        Tag::Double => Ok(Constant::Double(read_bytes(8, cursor)?)),
        Tag::Class => Ok(Constant::Class(read_number(cursor)?)),
        Tag::String => Ok(Constant::String(read_number(cursor)?)),
        Tag::Fieldref => Ok(Constant::Fieldref(read_number(cursor)?, read_number(cursor)?)),
        Tag::Methodref => Ok(Constant::Methodref(read_number(cursor)?, read_number(cursor)?)),
        Tag::InterfaceMethodref => Ok(Constant::InterfaceMethodref(
            read_number(cursor)?,
            read_number(cursor)?,
        )),
        Tag::NameAndType => Ok(Constant::NameAndType(read_number(cursor)?, read_number(cursor)?)),
        Tag::MethodHandle => Ok(Constant::MethodHandle(read_kind(cursor)?, read_number(cursor)?)),
        Tag::MethodType => Ok(Constant::MethodType(read_number(cursor)?)),
        Tag::Dynamic => Ok(Constant::Dynamic(read_number(cursor)?, read_number(cursor)?)),
        Tag::InvokeDynamic => Ok(Constant::InvokeDynamic(
            read_number(cursor)?,
            read_number(cursor)?,
        )),
        Tag::Module => Ok(Constant::Module(read_number(cursor)?)),
        Tag::Package => Ok(Constant::Package(read_number(cursor)?)),
    }
}

/// The tag that a byte stands for.
#[tactic(auto, unfolding(desk_format::specs::PoolReading::tag_numbered))]
fn tag_numbered(number: u8) -> Option<Tag>
    ensures { result ≡ tag_numbered number }
{
    match number {
        1 => Some(Tag::Utf8),
        3 => Some(Tag::Integer),
        4 => Some(Tag::Float),
        5 => Some(Tag::Long),
        6 => Some(Tag::Double),
        7 => Some(Tag::Class),
        8 => Some(Tag::String),
        9 => Some(Tag::Fieldref),
        10 => Some(Tag::Methodref),
        11 => Some(Tag::InterfaceMethodref),
        12 => Some(Tag::NameAndType),
        15 => Some(Tag::MethodHandle),
        16 => Some(Tag::MethodType),
        17 => Some(Tag::Dynamic),
        18 => Some(Tag::InvokeDynamic),
        19 => Some(Tag::Module),
        20 => Some(Tag::Package),
        _ => None,
    }
}

/// Whether an entry of a tag takes two indices.
pub fn is_wide(tag: Tag) -> bool
    ensures { result ≡ is_wide tag }
{
    matches!(tag, Tag::Long | Tag::Double)
}

impl<'a> Constant<'a> {
    /// The tag that the entry begins with (JVMS 4.4, table 4.4-A).
    pub fn tag(&self) -> Tag
        ensures { result ≡ tag_of (entry_of self.now) }
    {
        match *self {
            Constant::Utf8(_) => Tag::Utf8,
            Constant::Integer(_) => Tag::Integer,
            Constant::Float(_) => Tag::Float,
            Constant::Long(_) => Tag::Long,
            Constant::Double(_) => Tag::Double,
            Constant::Class(_) => Tag::Class,
            Constant::String(_) => Tag::String,
            Constant::Fieldref(_, _) => Tag::Fieldref,
            Constant::Methodref(_, _) => Tag::Methodref,
            Constant::InterfaceMethodref(_, _) => Tag::InterfaceMethodref,
            Constant::NameAndType(_, _) => Tag::NameAndType,
            Constant::MethodHandle(_, _) => Tag::MethodHandle,
            Constant::MethodType(_) => Tag::MethodType,
            Constant::Dynamic(_, _) => Tag::Dynamic,
            Constant::InvokeDynamic(_, _) => Tag::InvokeDynamic,
            Constant::Module(_) => Tag::Module,
            Constant::Package(_) => Tag::Package,
        }
    }
}

/// An entry behind which so many indices are to come.
#[tactic(auto, unfolding(desk_format::specs::PoolReading::entry_read))]
pub fn read_entry<'a>(later: u16, cursor: &mut Cursor<'a>) -> Result<Constant<'a>, Malformed>
    ensures entry { Reads result entry_of (entry_read later cursor.old.at cursor.old.left) cursor.new }
    ensures ahead { cursor.old.at ≤ cursor.new.at }
    ensures end { cursor.new.at + length cursor.new.left ≡ cursor.old.at + length cursor.old.left }
{
    let at = cursor.at();
    let number = cursor.u1()?;
    match tag_numbered(number) {
        None => fault(FaultKind::Tag, at),
        Some(tag) => {
            if later == 0 && is_wide(tag) {
                fault(FaultKind::PoolCount, at)
            } else {
                read_body(tag, cursor)
            }
        }
    }
}

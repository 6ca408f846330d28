//! Small class files, whole and damaged, with what the definitions say of them.

ghost use Rattle.std.specs.Prelude.{◌≡◌, map, Some};
ghost use Rattle.desk_format.specs.Classes.{class_fault};
ghost use Rattle.worked_classes.specs.Samples.{bytes_of, cut_fault, cut_faults};

use desk_base::{FaultKind, Malformed};

/// The smallest class: `A`, which extends `java/lang/Object` and has no members.
pub const CLASS_A: [u8; 53] = [
    0xCA, 0xFE, 0xBA, 0xBE, 0x00, 0x00, 0x00, 0x34, 0x00, 0x05, 0x01, 0x00, 0x01, 0x41, 0x07, 0x00,
    0x01, 0x01, 0x00, 0x10, 0x6A, 0x61, 0x76, 0x61, 0x2F, 0x6C, 0x61, 0x6E, 0x67, 0x2F, 0x4F, 0x62,
    0x6A, 0x65, 0x63, 0x74, 0x07, 0x00, 0x03, 0x00, 0x21, 0x00, 0x02, 0x00, 0x04, 0x00, 0x00, 0x00,
    0x00, 0x00, 0x00, 0x00, 0x00,
];

/// A class that is made of the smallest one, mostly with one fault.
#[derive(Clone, Copy, Debug, PartialEq, Eq)]
pub enum Sample {
    /// `CLASS_A` as it is.
    Whole,
    /// The first byte of the magic number differs.
    OtherMagic,
    /// A byte stands behind the class.
    OneByteMore,
    /// The text `A` is a zero byte.
    ZeroByte,
    /// Major version 44.
    Major44,
    /// Major version 65, that of Java SE 21.
    Major65,
    /// Major version 66.
    Major66,
    /// Major version 56, the first with a rule for the minor version, and minor version 1.
    Minor1,
    /// Major version 65 and minor version 65,535, a class that uses preview features.
    Preview,
    /// The pool's count is 0.
    CountZero,
    /// The first entry has the tag 2.
    UnknownTag,
    /// Entry 5 is a Long, and the count is 7.
    LongInside,
    /// Entry 5 is a Long, and the count is 6.
    LongLast,
    /// Entry 5 is a Long, and entry 7 a String to index 6.
    SecondSlot,
    /// Entry 5 is a MethodHandle of kind 0.
    HandleKind,
    /// Entry 5 is a NameAndType whose descriptor is `A`.
    NoDescriptor,
    /// The class is named `[A`.
    ArrayName,
    /// InnerClasses names a Utf8 in place of a Class.
    InnerText,
    /// SourceFile is one byte longer than its index.
    LongAttribute,
    /// SourceFile is one byte shorter.
    ShortAttribute,
    /// SourceFile reaches past the file.
    PastEnd,
    /// An attribute of an unknown name.
    Unknown,
    /// A Code among the attributes of the class.
    Misplaced,
    /// An element value that nests 64 deep.
    Nested64,
    /// An element value that nests 65 deep.
    Nested65,
    /// A Code without code.
    NoCode,
    /// A frame of the reserved tag 128.
    ReservedFrame,
    /// A verification type of the tag 9.
    UnknownType,
    /// An element value of the tag `X`.
    UnknownElement,
    /// A type annotation of the target type 2.
    UnknownTarget,
    /// A type path with a step of the kind 4.
    UnknownPath,
    /// A StackMapTable that reaches past its Code.
    PastCode,
    /// A StackMapTable that is shorter than its count.
    ShortInCode,
    /// Two methods of one name and descriptor.
    TwoMethods,
}

/// A fault at a place.
fn fault(kind: FaultKind, at: u32) -> Option<Malformed>
    ensures { result ≡ Some (record { kind = kind; at = at }) }
{
    Some(Malformed { kind, at })
}

/// The first fault of a sample, and none where it is well-formed.
#[tactic(auto, using(crate::proofs::SampleFaults::faults_of))]
pub fn fault_of(sample: Sample) -> Option<Malformed>
    ensures { result ≡ class_fault (bytes_of sample) }
{
    match sample {
        Sample::Whole => None,
        Sample::OtherMagic => fault(FaultKind::Magic, 0),
        Sample::OneByteMore => fault(FaultKind::Trailing, 53),
        Sample::ZeroByte => fault(FaultKind::Utf8Form, 13),
        Sample::Major44 => fault(FaultKind::Version, 6),
        Sample::Major65 => None,
        Sample::Major66 => fault(FaultKind::Version, 6),
        Sample::Minor1 => fault(FaultKind::Version, 4),
        Sample::Preview => None,
        Sample::CountZero => fault(FaultKind::PoolCount, 8),
        Sample::UnknownTag => fault(FaultKind::Tag, 10),
        Sample::LongInside => None,
        Sample::LongLast => fault(FaultKind::PoolCount, 39),
        Sample::SecondSlot => fault(FaultKind::Index, 49),
        Sample::HandleKind => fault(FaultKind::RefKind, 40),
        Sample::NoDescriptor => fault(FaultKind::Descriptor, 42),
        Sample::ArrayName => fault(FaultKind::ClassName, 16),
        Sample::InnerText => fault(FaultKind::Index, 86),
        Sample::LongAttribute => fault(FaultKind::AttributeLength, 78),
        Sample::ShortAttribute => fault(FaultKind::AttributeLength, 78),
        Sample::PastEnd => fault(FaultKind::Truncated, 82),
        Sample::Unknown => None,
        Sample::Misplaced => None,
        Sample::Nested64 => None,
        Sample::Nested65 => fault(FaultKind::Depth, 297),
        Sample::NoCode => fault(FaultKind::CodeLength, 98),
        Sample::ReservedFrame => fault(FaultKind::FrameTag, 115),
        Sample::UnknownType => fault(FaultKind::TypeTag, 116),
        Sample::UnknownElement => fault(FaultKind::ElementTag, 105),
        Sample::UnknownTarget => fault(FaultKind::TargetType, 103),
        Sample::UnknownPath => fault(FaultKind::PathKind, 105),
        Sample::PastCode => fault(FaultKind::AttributeLength, 90),
        Sample::ShortInCode => fault(FaultKind::AttributeLength, 109),
        Sample::TwoMethods => fault(FaultKind::Twins, 88),
    }
}

/// For each number of bytes below 53, where the item begins within which `CLASS_A` ends when it is
/// cut to so many bytes.
pub fn cut_places() -> [u32; 53]
    ensures { cut_faults ≡ map cut_fault result }
{
    [
        0, 0, 0, 0, 4, 4, 6, 6, 8, 8, 10, 11, 11, 13, 14, 15, 15, 17, 18, 18, 20, 20, 20, 20, 20,
        20, 20, 20, 20, 20, 20, 20, 20, 20, 20, 20, 36, 37, 37, 39, 39, 41, 41, 43, 43, 45, 45, 47,
        47, 49, 49, 51, 51,
    ]
}

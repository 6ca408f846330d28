//! What can be wrong with a class file.

ghost use Rattle.std.specs.Prelude.{◌≡◌};
ghost use Rattle.desk_base.specs.declared.faults.FaultKind.TheVariants as kinds;
ghost use Rattle.desk_base.specs.declared.faults.ReadFault.TheVariants as read_faults;

use crate::{Memory, UnexpectedEnd};
use std::alloc::{AllocError, AllocFailed};

/// What makes a class file malformed.
#[derive(Clone, Copy, Debug, PartialEq, Eq)]
pub enum FaultKind {
    /// The first four bytes aren't CAFEBABE.
    Magic,
    /// A version that isn't accepted.
    Version,
    /// The file ends within an item.
    Truncated,
    /// A count of the pool that is 0, or within a Long or Double.
    PoolCount,
    /// An unknown tag of the pool.
    Tag,
    /// A text that isn't modified UTF-8.
    Utf8Form,
    /// An index that names no entry, or one that doesn't fit.
    Index,
    /// An unknown kind of a method handle.
    RefKind,
    /// A text that isn't a class name where one is wanted.
    ClassName,
    /// A text that isn't a descriptor of the wanted form.
    Descriptor,
    /// A known attribute whose body needs more or fewer bytes than its length.
    AttributeLength,
    /// A length of code that is 0 or above 65,535.
    CodeLength,
    /// An unknown tag of a stack map frame.
    FrameTag,
    /// An unknown tag of a verification type.
    TypeTag,
    /// An unknown tag of an element value.
    ElementTag,
    /// An unknown referent type of a type annotation.
    TargetType,
    /// An unknown kind of a type path's step.
    PathKind,
    /// An element value of depth 65.
    Depth,
    /// Bytes behind the class.
    Trailing,
    /// Two fields or two methods of one name and descriptor.
    Twins,
}

/// The first fault of a class file, and where it is.
#[derive(Clone, Copy, Debug, PartialEq, Eq)]
pub struct Malformed {
    /// What makes the file malformed.
    pub kind: FaultKind,
    /// The offset from the start of the file, in bytes.
    pub at: u32,
}

/// Why a class file, or a part of it, wasn't read.
#[derive(Clone, Copy, Debug, PartialEq, Eq)]
pub enum ReadFault {
    /// The file isn't well-formed: its first fault.
    Malformed(Malformed),
    /// Memory ran out.
    Memory,
}

/// Why a code array doesn't read as instructions (JVMS 4.9.1, 6.5): its first fault. Places are offsets in bytes, from the
/// first byte of the code or of the file, as the call says that answers it.
#[derive(Clone, Copy, Debug, PartialEq, Eq)]
pub enum CodeFault {
    /// A byte that is no opcode, alone or behind the byte C4 that widens one.
    Opcode {
        /// The place of that byte.
        at: u32,
    },
    /// An instruction that passes the end of its code.
    UnexpectedEnd {
        /// The place of its first byte.
        at: u32,
    },
    /// A `tableswitch` whose low is over its high, or a `lookupswitch` whose count is negative.
    Switch {
        /// The place of its opcode.
        at: u32,
    },
    /// An index that names no entry of a tag that its opcode takes.
    Operand {
        /// The place of the index.
        at: u32,
    },
}

/// An item that reaches past the end is Truncated at its first byte.
impl From<UnexpectedEnd> for Malformed {
    ghost from_gives = { λ short malformed. malformed ≡ record { kind = kinds.Truncated; at = short.at } };

    fn from(short: UnexpectedEnd) -> Malformed {
        Malformed {
            kind: FaultKind::Truncated,
            at: short.at,
        }
    }
}

impl From<UnexpectedEnd> for ReadFault {
    ghost from_gives = { λ short fault. fault ≡ read_faults.Malformed (record { kind = kinds.Truncated; at = short.at }) };

    fn from(short: UnexpectedEnd) -> ReadFault {
        ReadFault::Malformed(Malformed::from(short))
    }
}

impl From<Memory> for ReadFault {
    ghost from_gives = { λ _ fault. fault ≡ read_faults.Memory };

    fn from(_: Memory) -> ReadFault {
        ReadFault::Memory
    }
}

impl From<Malformed> for ReadFault {
    ghost from_gives = { λ malformed fault. fault ≡ read_faults.Malformed malformed };

    fn from(malformed: Malformed) -> ReadFault {
        ReadFault::Malformed(malformed)
    }
}

impl From<AllocError> for ReadFault {
    ghost from_gives = { λ _ fault. fault ≡ read_faults.Memory };

    fn from(_: AllocError) -> ReadFault {
        ReadFault::Memory
    }
}

impl<T: Drop> From<AllocFailed<T>> for ReadFault {
    ghost from_gives = { λ _ fault. fault ≡ read_faults.Memory };

    fn from(_: AllocFailed<T>) -> ReadFault {
        ReadFault::Memory
    }
}

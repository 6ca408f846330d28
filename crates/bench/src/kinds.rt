//! The kinds of faults.

use desk_base::FaultKind;

/// Each kind, in the order in which they are printed.
pub const KINDS: [FaultKind; 20] = [
    FaultKind::Magic,
    FaultKind::Version,
    FaultKind::Truncated,
    FaultKind::PoolCount,
    FaultKind::Tag,
    FaultKind::Utf8Form,
    FaultKind::Index,
    FaultKind::RefKind,
    FaultKind::ClassName,
    FaultKind::Descriptor,
    FaultKind::AttributeLength,
    FaultKind::CodeLength,
    FaultKind::FrameTag,
    FaultKind::TypeTag,
    FaultKind::ElementTag,
    FaultKind::TargetType,
    FaultKind::PathKind,
    FaultKind::Depth,
    FaultKind::Trailing,
    FaultKind::Twins,
];

//! The names of commands.

use crate::lines::{Made, Refusal, Told};
use crate::names::Command as OnName;
use crate::statuses::{Ended, Fault, Outside, Source, Uninverted};
use crate::texts::Command as OnTexts;
use desk_names::{Want, Which};
use desk_report::LimitKind;

/// A command.
#[derive(Clone, Copy)]
pub enum Command {
    /// One on texts.
    Texts(OnTexts),
    /// One on a text that may be a name, a descriptor or a signature.
    Name(OnName),
    /// The line of a file.
    File(Told),
    /// The line of the totals.
    Total,
    /// The code and the line of a status.
    Status(Ended),
    /// The writes to a sink in memory with this room.
    Sink(u32),
    /// The writes to standard output.
    Standard,
}

/// The names of the commands.
pub const COMMANDS: &[(&[u8], Command)] = &[
    (b"text", Command::Texts(OnTexts::Text)),
    (b"vector", Command::Texts(OnTexts::Vector)),
    (b"list", Command::Texts(OnTexts::List)),
    (b"utf8", Command::Texts(OnTexts::Utf8)),
    (b"shown", Command::Texts(OnTexts::Shown)),
    (b"visit", Command::Texts(OnTexts::Visit)),
    (b"cursor", Command::Texts(OnTexts::Cursor)),
    (b"clash", Command::Texts(OnTexts::Clash)),
    (
        b"field-descriptor",
        Command::Name(OnName::Descriptor(Want::Field)),
    ),
    (
        b"method-descriptor",
        Command::Name(OnName::Descriptor(Want::Method)),
    ),
    (
        b"return-descriptor",
        Command::Name(OnName::Descriptor(Want::Return)),
    ),
    (
        b"is-field-descriptor",
        Command::Name(OnName::IsDescriptor(Want::Field)),
    ),
    (
        b"is-method-descriptor",
        Command::Name(OnName::IsDescriptor(Want::Method)),
    ),
    (
        b"class-signature",
        Command::Name(OnName::Signature(Which::Class)),
    ),
    (
        b"method-signature",
        Command::Name(OnName::Signature(Which::Method)),
    ),
    (
        b"field-signature",
        Command::Name(OnName::Signature(Which::Field)),
    ),
    (
        b"is-field-signature",
        Command::Name(OnName::IsSignature(Which::Field)),
    ),
    (b"name", Command::Name(OnName::Name)),
    (b"class", Command::Name(OnName::Class)),
    (b"written-class", Command::File(Told::Written(Made::Class))),
    (
        b"written-service",
        Command::File(Told::Written(Made::Service)),
    ),
    (
        b"written-manifest",
        Command::File(Told::Written(Made::Manifest)),
    ),
    (b"written-text", Command::File(Told::Written(Made::Texts))),
    (b"written-copy", Command::File(Told::Written(Made::Copy))),
    (b"kept", Command::File(Told::Kept)),
    (b"bad-line", Command::File(Told::Refused(Refusal::BadLine))),
    (
        b"unsettled",
        Command::File(Told::Refused(Refusal::Unsettled)),
    ),
    (
        b"attribute-length",
        Command::File(Told::Refused(Refusal::AttributeLength)),
    ),
    (b"twins", Command::File(Told::Refused(Refusal::Twins))),
    (b"overlong", Command::File(Told::Refused(Refusal::Overlong))),
    (
        b"pool-full",
        Command::File(Told::Refused(Refusal::PoolFull)),
    ),
    (
        b"code-opcode",
        Command::File(Told::Refused(Refusal::CodeOpcode)),
    ),
    (
        b"code-short",
        Command::File(Told::Refused(Refusal::CodeShort)),
    ),
    (
        b"code-switch",
        Command::File(Told::Refused(Refusal::CodeSwitch)),
    ),
    (
        b"code-operand",
        Command::File(Told::Refused(Refusal::CodeOperand)),
    ),
    (
        b"not-renames",
        Command::Status(Ended::NotInvertible(Uninverted::NotRenames)),
    ),
    (
        b"nothing-to-invert",
        Command::Status(Ended::NotInvertible(Uninverted::Nothing)),
    ),
    (
        b"overlap",
        Command::Status(Ended::NotInvertible(Uninverted::Overlap)),
    ),
    (b"total", Command::Total),
    (b"done", Command::Status(Ended::Done)),
    (b"refusals", Command::Status(Ended::Refusals)),
    (b"differs", Command::Status(Ended::Differs)),
    (b"memory", Command::Status(Ended::Outside(Outside::Memory))),
    (
        b"folder-fault",
        Command::Status(Ended::Outside(Outside::Folder)),
    ),
    (
        b"ledger-fault",
        Command::Status(Ended::Outside(Outside::Ledger)),
    ),
    (
        b"output-fault",
        Command::Status(Ended::Outside(Outside::Output)),
    ),
    (b"usage", Command::Status(Ended::Usage)),
    (b"nested-roots", Command::Status(Ended::NestedRoots)),
    (
        b"no-renames",
        Command::Status(Ended::BadRules(Fault::NoRenames)),
    ),
    (
        b"not-utf8",
        Command::Status(Ended::BadRules(Fault::NotUtf8)),
    ),
    (b"escape", Command::Status(Ended::BadRules(Fault::Escape))),
    (b"bad-key", Command::Status(Ended::BadRules(Fault::BadKey))),
    (
        b"bad-value",
        Command::Status(Ended::BadRules(Fault::BadValue)),
    ),
    (
        b"missing-text",
        Command::Status(Ended::BadRules(Fault::MissingText)),
    ),
    (b"chain", Command::Status(Ended::BadRules(Fault::Chain))),
    (
        b"limit-files",
        Command::Status(Ended::Limit(LimitKind::Files)),
    ),
    (
        b"limit-path-length",
        Command::Status(Ended::Limit(LimitKind::PathLength)),
    ),
    (
        b"limit-file-size",
        Command::Status(Ended::Limit(LimitKind::FileSize)),
    ),
    (
        b"limit-rule-files",
        Command::Status(Ended::Limit(LimitKind::RuleFiles)),
    ),
    (
        b"limit-rule-size",
        Command::Status(Ended::Limit(LimitKind::RuleSize)),
    ),
    (
        b"limit-both",
        Command::Status(Ended::Limit(LimitKind::Both)),
    ),
    (
        b"path-clash",
        Command::Status(Ended::Source(Source::PathClash)),
    ),
    (
        b"name-clash",
        Command::Status(Ended::Source(Source::NameClash)),
    ),
    (
        b"stranded",
        Command::Status(Ended::Source(Source::Stranded)),
    ),
    (b"other-run", Command::Status(Ended::OtherRun)),
    (b"moved", Command::Status(Ended::Source(Source::Moved))),
    (b"sink-4", Command::Sink(4)),
    (b"standard", Command::Standard),
];

//! The commands by their names.

use desk_names::Which;
use desk_packages::Separator;
use desk_rules::Side;

/// What a command reads an entry as.
#[derive(Clone, Copy)]
pub enum Entry {
    Rename,
    Versions,
    Update,
    String,
    Mark,
    TextName,
    TextRule,
}

/// What a command looks up in the rule set.
#[derive(Clone, Copy)]
pub enum LookUp {
    Package(Separator),
    Source,
    Version(Side),
    Bundle,
    Direct,
    Selected,
    Longest,
}

/// What a command takes a text for, whose image it asks for.
#[derive(Clone, Copy)]
pub enum TextKind {
    Dotted,
    String,
    Package,
    Class,
    Descriptor,
    Signature(Which),
}

/// A command of a case.
#[derive(Clone, Copy)]
pub enum Command {
    Properties,
    Fits,
    Selects,
    Read(Entry),
    Rules,
    LookUp(LookUp),
    Rename(TextKind),
    Becomes(TextKind),
    Append,
    Known,
}

/// The name of each command that needs no rule set.
const COMMANDS: &[(&[u8], Command)] = &[
    (b"properties", Command::Properties),
    (b"fits", Command::Fits),
    (b"selects", Command::Selects),
    (b"read-rename", Command::Read(Entry::Rename)),
    (b"read-versions", Command::Read(Entry::Versions)),
    (b"read-update", Command::Read(Entry::Update)),
    (b"check-string", Command::Read(Entry::String)),
    (b"read-mark", Command::Read(Entry::Mark)),
    (b"read-text-name", Command::Read(Entry::TextName)),
    (b"check-text-rule", Command::Read(Entry::TextRule)),
    (b"rules", Command::Rules),
];

/// The name of each command that goes by the rule set.
const COMMANDS_BY_RULES: &[(&[u8], Command)] = &[
    (
        b"package",
        Command::LookUp(LookUp::Package(Separator::Slash)),
    ),
    (
        b"dotted-package",
        Command::LookUp(LookUp::Package(Separator::Dot)),
    ),
    (b"is-source", Command::LookUp(LookUp::Source)),
    (
        b"import-version",
        Command::LookUp(LookUp::Version(Side::Import)),
    ),
    (
        b"export-version",
        Command::LookUp(LookUp::Version(Side::Export)),
    ),
    (b"bundle", Command::LookUp(LookUp::Bundle)),
    (b"direct", Command::LookUp(LookUp::Direct)),
    (b"selected", Command::LookUp(LookUp::Selected)),
    (b"longest", Command::LookUp(LookUp::Longest)),
    (b"rename-dotted", Command::Rename(TextKind::Dotted)),
    (b"rename-string", Command::Rename(TextKind::String)),
    (b"rename-package", Command::Rename(TextKind::Package)),
    (b"rename-class", Command::Rename(TextKind::Class)),
    (b"rename-descriptor", Command::Rename(TextKind::Descriptor)),
    (
        b"rename-class-signature",
        Command::Rename(TextKind::Signature(Which::Class)),
    ),
    (
        b"rename-field-signature",
        Command::Rename(TextKind::Signature(Which::Field)),
    ),
    (
        b"field-signature-becomes",
        Command::Becomes(TextKind::Signature(Which::Field)),
    ),
    (b"append", Command::Append),
    (b"known", Command::Known),
];

/// The command of a name among these.
fn command_in(commands: &[(&[u8], Command)], name: &[u8]) -> Option<Command> {
    for (known, command) in commands.iter() {
        if *known == name {
            return Some(*command);
        }
    }
    None
}

/// The command of a name.
pub fn command_of(name: &[u8]) -> Option<Command> {
    match command_in(COMMANDS, name) {
        Some(command) => Some(command),
        None => command_in(COMMANDS_BY_RULES, name),
    }
}

//! Names, descriptors and signatures of class files.

use crate::answering::{As, answer, answer_three, answer_two};
use desk_base::Memory;
use desk_names::{
    ClassName, Part, Want, Which, is_dotted, is_identifier, read_descriptor, read_signature,
    split_class,
};
use test_cases::Shown;

/// A command on a text.
#[derive(Clone, Copy)]
pub enum Command {
    /// The parts of a descriptor.
    Descriptor(Want),
    /// The parts of a signature.
    Signature(Which),
    /// Whether the text is a descriptor.
    IsDescriptor(Want),
    /// Whether the text is a signature.
    IsSignature(Which),
    /// Whether the text is an identifier, a dotted name and a class name.
    Name,
    /// The package and the simple name of a class name.
    Class,
}

/// Appends a part of a descriptor or a signature, a class name as `{package|simple}`.
fn append_part(part: Part<'_>, out: &mut String) -> Result<(), Memory> {
    match part {
        Part::Other(text) => write!(out, "{}", Shown(text))?,
        Part::Class(name) => write!(out, "{{{}|{}}}", Shown(name.package), Shown(name.simple))?,
    }
    Ok(())
}

fn answer_descriptor(want: Want, text: &[u8], out: &mut String) -> Result<(), Memory> {
    let Some(parts) = read_descriptor(text, want) else {
        return answer(out, &"none");
    };
    out.push_str("  ")?;
    for part in parts {
        append_part(part, out)?;
    }
    out.push('\n')?;
    Ok(())
}

fn answer_signature(which: Which, text: &[u8], out: &mut String) -> Result<(), Memory> {
    let Some(parts) = read_signature(text, which) else {
        return answer(out, &"none");
    };
    out.push_str("  ")?;
    for part in parts {
        append_part(part, out)?;
    }
    out.push('\n')?;
    Ok(())
}

fn answer_class(name: Option<ClassName<'_>>, out: &mut String) -> Result<(), Memory> {
    match name {
        None => answer(out, &"none"),
        Some(name) => answer_two(
            out,
            &As("package", &Shown(name.package)),
            &As("simple", &Shown(name.simple)),
        ),
    }
}

/// Answers a command on a text.
pub fn answer_command(command: Command, text: &[u8], out: &mut String) -> Result<(), Memory> {
    match command {
        Command::Descriptor(want) => answer_descriptor(want, text, out),
        Command::Signature(which) => answer_signature(which, text, out),
        Command::IsDescriptor(want) => answer(out, &read_descriptor(text, want).is_some()),
        Command::IsSignature(which) => answer(out, &read_signature(text, which).is_some()),
        Command::Name => answer_three(
            out,
            &As("identifier", &is_identifier(text)),
            &As("dotted", &is_dotted(text)),
            &As("class", &split_class(text).is_some()),
        ),
        Command::Class => answer_class(split_class(text), out),
    }
}

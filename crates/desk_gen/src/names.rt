//! The names of a generated class.

ghost use Rattle.std.specs.Prelude.{◌≡◌, IfOk};
ghost use Rattle.desk_gen.specs.Names.{class_name, dotted_name, descriptor};

use desk_base::{Memory, Text};
use std::alloc::Global;

/// The name of the class of a number, as a class file has it.
pub(crate) fn class_name(alloc: Global, number: u32) -> Result<Text, Memory>
    ensures { IfOk result (λ text. text ≡ class_name number) }
{
    let package = number % 10;
    let text = format!(in alloc; "javax/gen/p{package}/C{number}")?;
    Text::from_bytes(alloc, text.as_bytes())
}

/// The name of the class of a number, with dots.
pub(crate) fn dotted_name(alloc: Global, number: u32) -> Result<Text, Memory>
    ensures { IfOk result (λ text. text ≡ dotted_name number) }
{
    let package = number % 10;
    let text = format!(in alloc; "javax.gen.p{package}.C{number}")?;
    Text::from_bytes(alloc, text.as_bytes())
}

/// The descriptor of a field of the class of a number.
pub(crate) fn descriptor(alloc: Global, number: u32) -> Result<Text, Memory>
    ensures { IfOk result (λ text. text ≡ descriptor number) }
{
    let package = number % 10;
    let text = format!(in alloc; "Ljavax/gen/p{package}/C{number};")?;
    Text::from_bytes(alloc, text.as_bytes())
}

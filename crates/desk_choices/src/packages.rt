//! Packages as class files write them.

ghost use Rattle.std.specs.Prelude.{◌≡◌, IfOk, map};
ghost use Rattle.desk_choices.specs.Packages.{slashed_byte};

use desk_base::{Memory, Text};
use std::alloc::Global;

/// A byte of a package, with `/` for `.`.
fn slashed_byte(byte: u8) -> u8
    ensures { result ≡ slashed_byte byte }
{
    if byte == b'.' { b'/' } else { byte }
}

/// A package written with `/` for each `.` (JVMS 4.2.1). The only error is want of memory.
pub fn slashed(alloc: Global, name: &[u8]) -> Result<Text, Memory>
    ensures { IfOk result (λ text. text ≡ map slashed_byte name.now) }
{
    let mut text = Text::empty(alloc);
    for byte in name {
        text.push(slashed_byte(*byte))?;
    }
    Ok(text)
}

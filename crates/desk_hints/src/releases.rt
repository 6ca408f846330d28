//! Which Java release a class is of.

ghost use Rattle.std.specs.Prelude.{◌≡◌, ◌-◌, ◌≤◌, ◌<◌, None, Some};

use desk_base::{Memory, Text};
use itoa::Buffer;
use std::alloc::Global;

/// The Java release that a major version of class files is of (JVMS 4.1): that of 49, Java 5, and each later one is less
/// by 44. None before, where releases were counted otherwise.
pub fn release_of(major: u16) -> Option<u16>
    ensures later { 49 ≤ major → result ≡ Some (major - 44) }
    ensures earlier { major < 49 → result ≡ None }
{
    if major < 49 { None } else { Some(major - 44) }
}

/// The line of a class, by its path as it is shown, that was refused for its major version. The only error is want of
/// memory.
pub fn release_line(alloc: Global, shown: &[u8], major: u16) -> Result<Text, Memory> {
    let mut line = Text::from_bytes(alloc, b"migrate:   ")?;
    line.append(shown)?;
    match release_of(major) {
        Some(release) => {
            line.append(b" is of Java ")?;
            line.append(Buffer::new().format(release).as_bytes())?;
        }
        None => {
            line.append(b" has major version ")?;
            line.append(Buffer::new().format(major).as_bytes())?;
        }
    }
    line.append(b"; classes of Java 1.1 to 21 are read\n")?;
    Ok(line)
}

//! A code array as it is gathered.

ghost use Rattle.std.specs.Prelude.{◌<◌, length};

/// A code array in a class file.
#[derive(Clone, Copy)]
pub struct Code<'a> {
    /// The offset of the last field or method before it from the start of the file, in bytes.
    pub member: u32,
    /// The offset of its first byte from the start of the file, in bytes.
    pub at: u32,
    /// Its bytes.
    pub code: &'a [u8],
    ghost short: { length code.now < 4294967296 },
}

//! Bytes as a word of a case.

use std::fmt;

/// How many equal bytes are shown as a repetition.
const MANY: usize = 32;

/// One byte as it stands in a word.
#[derive(Drop)]
struct Escaped(u8);

impl fmt::Display for Escaped {
    fn fmt<W: fmt::Write>(&self, f: &mut fmt::Formatter<W>) -> fmt::Result {
        match self.0 {
            b' ' => f.write_str("\\s"),
            b'\n' => f.write_str("\\n"),
            b'\r' => f.write_str("\\r"),
            b'\t' => f.write_str("\\t"),
            b'\\' => f.write_str("\\\\"),
            byte @ b'!'..=b'~' => f.write_char(char::from(byte)),
            byte => write!(f, "\\x{byte:02X}"),
        }
    }
}

/// Bytes as a word of a case, which reads as these bytes.
#[derive(Drop)]
pub struct Shown<'a>(pub &'a [u8]);

impl fmt::Display for Shown<'_> {
    fn fmt<W: fmt::Write>(&self, f: &mut fmt::Formatter<W>) -> fmt::Result {
        if self.0.is_empty() {
            return f.write_str("\\e");
        }
        let mut left = self.0;
        while let Some((first, behind)) = left.split_first() {
            let same = left.iter().take_while(|byte| **byte == *first).count();
            if same < MANY {
                write!(f, "{}", Escaped(*first))?;
                left = behind;
            } else {
                write!(f, "\\{{{same}*{}}}", Escaped(*first))?;
                left = left.get(same..).unwrap_or(&[]);
            }
        }
        Ok(())
    }
}

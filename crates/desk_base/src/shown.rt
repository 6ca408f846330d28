//! Bytes as they are shown in a report.

ghost use Rattle.std.specs.Prelude.{◌≡◌, ◌<◌, ◌≤◌, length, take};
ghost use Rattle.desk_base.specs.Shown.{is_plain, hex_digit, shown_byte};

use std::marker::Model;

/// A byte as it is shown in a report: one byte, or three. Contracts see the list of these.
#[derive(Debug, Drop)]
pub struct ShownByte {
    bytes: [u8; 3],
    plain: bool,
}

impl Model for ShownByte {
    ghost use Rattle.std.specs.Prelude.{ℕ, List, take, if◌then◌else◌};

    ghost Value = { List ℕ };

    ghost view = { λ s. take (if s.plain then 1 else 3) s.bytes };
}

impl ShownByte {
    /// The bytes that stand for it. It takes no memory.
    pub fn as_bytes(&self) -> &[u8]
        ensures { result.now ≡ self.now }
    {
        if self.plain {
            &self.bytes[..1]
        } else {
            &self.bytes
        }
    }
}

fn hex_digit(digit: u8) -> u8
    requires { digit < 16 }
    ensures { result ≡ hex_digit digit }
{
    if digit < 10 {
        b'0' + digit
    } else {
        b'a' - 10 + digit
    }
}

/// A byte as it is shown: itself where it is from 0x21 to 0x7E and no `\`, else `\` and two digits of base 16 in lower
/// case. It takes no memory.
pub fn show_byte(byte: u8) -> ShownByte
    ensures { result ≡ shown_byte byte }
{
    let plain = b'!' <= byte && byte <= b'~' && byte != b'\\';
    if plain {
        ShownByte {
            bytes: [byte, 0, 0],
            plain,
        }
    } else {
        ShownByte {
            bytes: [b'\\', hex_digit(byte / 16), hex_digit(byte % 16)],
            plain,
        }
    }
}

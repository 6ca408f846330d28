//! Magic and version (JVMS 4.1).

ghost use Rattle.std.specs.Prelude.{◌≡◌, ◌+◌, OnOk, Err};
ghost use Rattle.desk_format.specs.PoolReading.{number_read};
ghost use Rattle.desk_format.specs.Classes.{version_read, header_read};
ghost use Rattle.desk_pool.specs.Seen.{Reads};
ghost use Rattle.desk_class.specs.Parts.{version_of};

use desk_base::{Cursor, FaultKind, Malformed};

/// The version of the class file format that a class file states (JVMS 4.1).
#[derive(Clone, Copy)]
pub struct Version {
    /// `minor_version` (JVMS 4.1).
    pub minor: u16,
    /// `major_version` (JVMS 4.1): 45 of JDK 1.1, 52 of Java 8.
    pub major: u16,
}

fn fault<T>(kind: FaultKind, at: u32) -> Result<T, Malformed>
    ensures { result ≡ Err (record { kind = kind; at = at }) }
{
    Err(Malformed { kind, at })
}

fn read_number(cursor: &mut Cursor<'_>) -> Result<u16, Malformed>
    ensures number { Reads result (λ n. n) (number_read cursor.old.at cursor.old.left) cursor.new }
    ensures moved { OnOk result (cursor.new.at ≡ cursor.old.at + 2) }
{
    Ok(cursor.u2()?)
}

/// The minor and the major version. Major 45 to 65 is accepted, that of Java SE 21; from 56 on the minor must be 0 or 65,535.
fn read_version(cursor: &mut Cursor<'_>) -> Result<Version, Malformed>
    ensures version { Reads result version_of (version_read cursor.old.at cursor.old.left) cursor.new }
    ensures moved { OnOk result (cursor.new.at ≡ cursor.old.at + 4) }
{
    let minor = read_number(cursor)?;
    let major = read_number(cursor)?;
    if major < 45 || 65 < major {
        fault(FaultKind::Version, 6)
    } else if 56 <= major && !(minor == 0 || minor == 65535) {
        fault(FaultKind::Version, 4)
    } else {
        Ok(Version { minor, major })
    }
}

/// Magic and version, at the start of the file.
pub fn read_header(cursor: &mut Cursor<'_>) -> Result<Version, Malformed>
    ensures header { Reads result version_of (header_read cursor.old.at cursor.old.left) cursor.new }
    ensures moved { OnOk result (cursor.new.at ≡ cursor.old.at + 8) }
{
    let magic = cursor.take(4)?;
    if magic == [0xCA, 0xFE, 0xBA, 0xBE].as_slice() {
        read_version(cursor)
    } else {
        fault(FaultKind::Magic, 0)
    }
}

//! Digests.

use desk_base::{Memory, Text};
use desk_ledger::{Digest, Digester, digest_of};

/// Answers a digest in digits of base 16.
fn say_digest(digest: Digest, out: &mut String) -> Result<(), Memory> {
    out.push_str("  ")?;
    for byte in digest.0.iter() {
        write!(out, "{byte:02x}")?;
    }
    Ok(out.push('\n')?)
}

/// Answers the digest of bytes.
pub fn answer_whole(bytes: &Text, out: &mut String) -> Result<(), Memory> {
    say_digest(digest_of(bytes.as_bytes()), out)
}

/// Answers the digest of bytes that are taken in parts.
pub fn answer_parts(parts: &[Text], out: &mut String) -> Result<(), Memory> {
    let mut digester = Digester::new();
    for part in parts {
        digester.update(part.as_bytes());
    }
    say_digest(digester.finish(), out)
}

//! Digests by SHA-256.

ghost use Rattle.std.specs.Prelude.{◌≡◌, ◌++◌, [], ℕ, List};
ghost use Rattle.desk_ledger.specs.Digests.{digest, HasTaken};

use sha2::{Digest as _, Sha256};
use std::marker::Model;

/// A digest of bytes by SHA-256 (FIPS 180-4).
#[derive(Clone, Copy, Debug, PartialEq, Eq)]
pub struct Digest(pub [u8; 32]);

/// The SHA-256 of bytes that are there at once. It takes no memory.
pub fn digest_of(bytes: &[u8]) -> Digest
    ensures { result ≡ digest bytes.now }
{
    Digest(Sha256::digest(bytes))
}

/// Takes bytes part by part, and gives the digest of all of them joined. It takes no memory.
#[derive(Drop)]
pub struct Digester {
    hasher: Sha256,
}

impl Model for Digester {
    ghost use Rattle.sha2.specs.declared.Sha256.{Sha256 as Hasher};

    ghost Value = { Hasher };

    ghost view = { λ d. d.hasher };
}

impl Digester {
    /// A digester to begin with: it took no byte.
    pub fn new() -> Digester
        ensures { HasTaken result [] }
    {
        Digester {
            hasher: Sha256::new(),
        }
    }

    /// Takes bytes behind those that were taken.
    pub fn update(&mut self, part: &[u8])
        ensures { (taken : List ℕ) → HasTaken self.old taken → HasTaken self.new (taken ++ part.now) }
    {
        self.hasher.update(part);
    }

    /// The SHA-256 of all bytes that were taken, in their order.
    pub fn finish(self) -> Digest
        ensures { (taken : List ℕ) → HasTaken self taken → result ≡ digest taken }
    {
        let Digester { hasher } = self;
        Digest(hasher.finalize())
    }
}

//! A class that was read.

ghost use Rattle.std.specs.Prelude.{◌≡◌, ◌≤◌, ℕ, List, length, None, Some, OnOk, IfOk, IfErr};
ghost use Rattle.desk_base.specs.Entries.{class_name_at};
ghost use Rattle.desk_base.specs.Limits.{file_size};
ghost use Rattle.desk_format.specs.Classes.{class_fault, entries_at, uses_in, members_in};
ghost use Rattle.desk_format.specs.PoolBytes.{pool_uses};
ghost use Rattle.desk_class.specs.Parts.{IsRead, pool_in, body_at_in, name_in};
ghost use Rattle.desk_class.specs.Held.{ascending, each_once, held_in};
ghost use Rattle.desk_class.specs.Faults.{IsFirst};

use crate::body::walk_body;
use crate::header::read_header;
use crate::held::HeldNames;
use crate::names::{held_names, in_order};
use crate::twins::first_twin;
use desk_base::{Cursor, FaultKind, Malformed, Memory, ReadFault, TextList, Used};
use desk_format::Member;
use desk_pool::Pool;
use std::alloc::Global;
use std::marker::Model;

/// The text that the Class at an index leads to, or the empty text.
#[tactic(auto, using(crate::proofs::Wholes::not_class))]
fn name_of<'a>(pool: &Pool<'a>, index: u16) -> &'a [u8]
    ensures { result.now ≡ class_name_at pool.now.entries index }
{
    match pool.name_of_class(index) {
        Some(name) => name,
        None => &[],
    }
}

/// A class file without a fault (JVMS 4.1), whose texts lie in its bytes. Contracts see the bytes; that they read as a class
/// belongs to the type. No call but `read`, `held_names` and
/// `class_names` takes memory.
#[derive(Drop)]
pub struct ClassView<'a> {
    bytes: &'a [u8],
    pool: Pool<'a>,
    body_at: u32,
    uses: Vec<Used>,
    members: Vec<Member>,
    name: &'a [u8],
}

impl<'a> Model for ClassView<'a> {
    ghost Value = { List ℕ };

    ghost view = { λ c. c.bytes.now };

    ghost invariant = { λ c. IsRead c.bytes.now c.pool c.body_at c.uses.items c.members.items c.name.now };
}

impl<'a> ClassView<'a> {
    /// Reads a class from its first byte to its last. Malformed is the first fault of the bytes with its place: of magic and
    /// version, of the pool, of the body, bytes behind the class, or twins. Memory is want of memory.
    pub fn read(alloc: Global, bytes: &'a [u8]) -> Result<ClassView<'a>, ReadFault>
        requires { length bytes.now ≤ file_size }
        ensures bytes { IfOk result (λ class. class ≡ bytes.now) }
        ensures sound { OnOk result (class_fault bytes.now ≡ None) }
        ensures fault { IfErr result (IsFirst (class_fault bytes.now)) }
    {
        let mut cursor = Cursor::new(bytes);
        let _version = read_header(&mut cursor)?;
        let pool = Pool::read(alloc, &mut cursor)?;
        let body_at = cursor.at();
        let mut uses = pool.uses().to_vec(alloc)?;
        let mut members = Vec::new(alloc);
        let this = walk_body(&mut cursor, &pool, &mut uses, &mut members)?;
        if cursor.left() > 0 {
            return Err(ReadFault::Malformed(Malformed {
                kind: FaultKind::Trailing,
                at: cursor.at(),
            }));
        }
        if let Some(twin) = first_twin(alloc, &pool, &members)? {
            return Err(ReadFault::Malformed(Malformed {
                kind: FaultKind::Twins,
                at: twin.at,
            }));
        }
        let name = name_of(&pool, this);
        Ok(ClassView {
            bytes,
            pool,
            body_at,
            uses,
            members,
            name,
        })
    }

    /// The whole class file.
    pub fn bytes(&self) -> &'a [u8]
        ensures bytes { result.now ≡ self.now }
        ensures sound { class_fault self.now ≡ None }
        ensures short { length self.now ≤ file_size }
    {
        self.bytes
    }

    /// The constant pool of the class (JVMS 4.4).
    pub fn pool(&self) -> &Pool<'a>
        ensures entries { result.now.entries ≡ pool_in self.now }
        ensures uses { result.now.uses ≡ pool_uses entries_at (pool_in self.now) }
    {
        &self.pool
    }

    /// The offset of the body, which stands behind the pool, in bytes.
    pub fn body_at(&self) -> u32
        ensures { result ≡ body_at_in self.now }
    {
        self.body_at
    }

    /// The uses of texts: those of the pool in index order, then those of the body by place.
    pub fn uses(&self) -> &[Used]
        ensures { result.now ≡ uses_in self.now }
    {
        self.uses.as_slice()
    }

    /// The fields, and then the methods, by place.
    pub fn members(&self) -> &[Member]
        ensures { result.now ≡ members_in self.now }
    {
        self.members.as_slice()
    }

    /// The name of the class in internal form (JVMS 4.2.1).
    pub fn name(&self) -> &'a [u8]
        ensures { result.now ≡ name_in self.now }
    {
        self.name
    }

    /// The class names that the class holds in its texts, each once, in the order in which they first stand: those of class
    /// names, descriptors and signatures. An array gives its element class, and a signature each class name up to its first
    /// simple class. The only error is want of memory.
    pub fn held_names(&self, alloc: Global) -> Result<HeldNames, Memory>
        ensures held { IfOk result (λ names. names ≡ each_once (held_in self.now)) }
    {
        held_names(alloc, &self.pool, &self.uses)
    }

    /// The class names that the class holds in its texts, each once, in byte order. The only error is want of memory.
    pub fn class_names(&self, alloc: Global) -> Result<TextList, Memory>
        ensures held { IfOk result (λ names. names ≡ ascending (held_in self.now)) }
    {
        let names = self.held_names(alloc)?;
        in_order(alloc, &names)
    }
}

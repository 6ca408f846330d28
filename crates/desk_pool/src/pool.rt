//! A constant pool that was read.

ghost use Rattle.std.specs.Prelude.{◌≡◌, ◌+◌, ◌<◌, ◌≤◌, ◌↔◌, length, IfOk, IfSome, IsSome, Some, option_copied};
ghost use Rattle.desk_base.specs.Entries.{tag_at, utf8_at, class_name_at};
ghost use Rattle.desk_base.specs.declared.kinds.Tag.TheVariants as tags;
ghost use Rattle.desk_format.specs.PoolBytes.{pool_uses};
ghost use Rattle.desk_format.specs.PoolReading.{read_pool};
ghost use Rattle.desk_pool.specs.Seen.{ReadPool, ReadsAll, seen};
ghost use Rattle.desk_pool.specs.Bodies.{operands_at, number_at};

use crate::constant::{Constant, read_number};
use crate::fitting::uses_if_fitting;
use crate::lookup::{class_name_at, constant_at, misfit, number_at, operands_at, tag_at, utf8_at};
use crate::passes::first_misfit;
use crate::slots::read_slots;
use desk_base::{Cursor, FaultKind, Malformed, PoolView, ReadFault, Tag, UseKind, Used};
use std::alloc::Global;
use std::marker::Model;

/// A constant pool (JVMS 4.4) without a fault, whose texts lie in the class. Contracts see its entries, a map from index to
/// entry, and its uses of texts. Each look-up by an index takes constant time and no memory.
#[derive(Drop)]
pub struct Pool<'a> {
    slots: Vec<Option<Constant<'a>>>,
    uses: Vec<Used>,
}

impl<'a> Model for Pool<'a> {
    ghost Value = { ReadPool };

    ghost view = { λ p. record { entries = seen p.slots.items; uses = p.uses.items } };

    ghost invariant = { λ p. length p.slots.items < 65535 };
}

impl<'a> Pool<'a> {
    /// Reads from the count to the end of the pool, and checks the entries, what their indices name, and the forms of the
    /// texts that they lead to. Malformed is the first fault of three passes, one for each of these, with its place; Memory
    /// is want of memory. The cursor then stands behind the pool, and after an error between where it stood and its end.
    ///
    /// Entries without a fault are gone through once behind their reading. Only others are gone through again, by the passes.
    #[tactic(auto, unfolding(desk_format::specs::PoolReading::read_pool))]
    pub fn read(alloc: Global, cursor: &mut Cursor<'a>) -> Result<Pool<'a>, ReadFault>
        ensures pool { ReadsAll result (λ pool. pool.entries) (read_pool cursor.old.at cursor.old.left) cursor.new }
        ensures uses { IfOk result (λ pool. pool.uses ≡ pool_uses (cursor.old.at + 2) pool.entries) }
        ensures ahead { cursor.old.at ≤ cursor.new.at }
        ensures end { cursor.new.at + length cursor.new.left ≡ cursor.old.at + length cursor.old.left }
    {
        let place = cursor.at();
        let count = read_number(cursor)?;
        if count == 0 {
            return Err(ReadFault::Malformed(Malformed {
                kind: FaultKind::PoolCount,
                at: place,
            }));
        }
        let start = cursor.at();
        let mut slots = read_slots(alloc, count - 1, cursor)?;
        match uses_if_fitting(alloc, &mut slots, start)? {
            Some(uses) => Ok(Pool { slots, uses }),
            None => Err(ReadFault::Malformed(first_misfit(&slots, start))),
        }
    }

    /// The pool's count, which is one more than its last index (JVMS 4.1).
    pub fn count(&self) -> u16
        ensures { result ≡ length self.now.entries + 1 }
    {
        self.slots.len() as u16 + 1
    }

    /// The tag of the entry that an index names; none exactly for 0, an index not below the count, and the second index of
    /// a Long or Double.
    pub fn tag(&self, index: u16) -> Option<Tag>
        ensures { result ≡ tag_at self.now.entries index }
    {
        tag_at(&self.slots, index)
    }

    /// The text of the Utf8 that an index names; none exactly where it names no Utf8.
    pub fn utf8(&self, index: u16) -> Option<&'a [u8]>
        ensures { option_copied result ≡ utf8_at self.now.entries index }
    {
        utf8_at(&self.slots, index)
    }

    /// The numbers of the body of an entry of a tag from 7 to 12 or from 15 to 20, in order (JVMS 4.4); the second is 0
    /// where there is one alone. None exactly at another index.
    pub fn operands(&self, index: u16) -> Option<(u16, u16)>
        ensures { result ≡ operands_at self.now.entries index }
    {
        operands_at(&self.slots, index)
    }

    /// The bytes of the body of an entry of a tag from 3 to 6; none exactly at another index.
    pub fn number(&self, index: u16) -> Option<&'a [u8]>
        ensures { option_copied result ≡ number_at self.now.entries index }
    {
        number_at(&self.slots, index)
    }

    /// The text that the Class at an index leads to; none exactly where the index names no Class.
    pub fn name_of_class(&self, index: u16) -> Option<&'a [u8]>
        ensures class { IsSome result ↔ (tag_at self.now.entries index ≡ Some tags.Class) }
        ensures text { IfSome result (λ text. text.now ≡ class_name_at self.now.entries index) }
    {
        match constant_at(&self.slots, index) {
            Some(Constant::Class(_)) => Some(class_name_at(&self.slots, index).bytes),
            _ => None,
        }
    }

    /// The uses of texts, in index order and then by place.
    pub fn uses(&self) -> &[Used]
        ensures { result.now ≡ self.now.uses }
    {
        self.uses.as_slice()
    }
}

impl<'a> PoolView for Pool<'a> {
    ghost pool = { λ p. p.entries };

    fn tag(&self, index: u16) -> Option<Tag> {
        tag_at(&self.slots, index)
    }

    fn utf8(&self, index: u16) -> Option<&[u8]> {
        utf8_at(&self.slots, index)
    }

    fn check(&self, index: u16, kind: UseKind) -> Option<FaultKind> {
        misfit(&self.slots, kind, index)
    }
}

//! Words, and what they were read as.

ghost use Rattle.std.specs.Prelude.{◌≡◌, Ok, Result, IfErr, IfOk};
ghost use Rattle.desk_words.specs.Roots.{IsSound, RefusedBy, order_of_words};

use crate::roots::{Order, RootsFault, read_order};
use desk_base::{Memory, Text};
use std::alloc::Global;
use std::marker::Model;

/// The fault of two nested roots once more.
fn nested_again(first: &Text, second: &Text) -> Result<RootsFault, Memory>
    ensures { IfOk result (λ fault. fault ≡ RootsFault.Nested first.now second.now) }
{
    let first = first.clone()?;
    let second = second.clone()?;
    Ok(RootsFault::Nested { first, second })
}

/// A fault once more, or want of memory.
fn again(fault: &RootsFault) -> RootsFault
    ensures { (order : Result Order RootsFault) → RefusedBy order fault.now → RefusedBy order result }
{
    match fault {
        RootsFault::Usage => RootsFault::Usage,
        RootsFault::Nested { first, second } => match nested_again(first, second) {
            Ok(fault) => fault,
            Err(Memory) => RootsFault::Memory,
        },
        RootsFault::Memory => RootsFault::Memory,
    }
}

/// Words that were read once: with them goes what they ask for. Contracts see the words.
#[derive(Drop)]
pub struct Request<'w> {
    words: &'w [Text],
    order: Result<Order, RootsFault>,
}

impl<'w> Model for Request<'w> {
    ghost use Rattle.std.specs.Prelude.{ℕ, List, ◌≡◌, Ok, IfErr, IfOk};
    ghost use Rattle.desk_words.specs.Roots.{IsSound, RefusedBy, order_of_words};

    ghost Value = { List (List ℕ) };

    ghost view = { λ r. r.words.now };

    ghost invariant = { λ r. IfOk r.order (λ order. (order_of_words r.words.now ≡ Ok order) × IsSound order) × IfErr r.order (RefusedBy (order_of_words r.words.now)) };
}

impl<'w> Request<'w> {
    /// Reads words. What stands against them is a part of it, as `order` tells it, want of memory too.
    pub fn read(alloc: Global, words: &'w [Text]) -> Request<'w>
        ensures { result ≡ words.entry.now }
    {
        let order = read_order(alloc, words);
        Request { words, order }
    }

    /// The words, as they were given.
    pub fn words(&self) -> &'w [Text]
        ensures { result.now ≡ self.now }
    {
        self.words
    }

    /// What the words ask for, or why they ask for nothing, as `read_order` says it.
    pub fn order(&self) -> Result<&Order, RootsFault>
        ensures ok { IfOk result (λ order. order_of_words self.now ≡ Ok order.now) }
        ensures sound { IfOk result (λ order. IsSound order.now) }
        ensures err { IfErr result (RefusedBy (order_of_words self.now)) }
    {
        match &self.order {
            Ok(order) => Ok(order),
            Err(fault) => Err(again(fault)),
        }
    }
}

//! Two bodies, and a walk along both at once.

ghost use Rattle.std.specs.Prelude.{◌≡◌, ◌≤◌, ◌<◌, ◌↔◌, [], length, take, drop, Some, IsTrue, IfNone, IfSome, IfOk, OnOk, OnSome};
ghost use Rattle.std.specs.Int.{w16};
ghost use Rattle.std.specs.Str.{bytes_eq};
ghost use Rattle.desk_format.specs.Attributes.{attribute_named};
ghost use Rattle.desk_format.specs.ClassBody.{class_body};
ghost use Rattle.desk_parts.specs.Gives.{Gives};
ghost use Rattle.desk_parts.specs.Steps.{along};
ghost use Rattle.desk_compare.specs.Bodies.{Pair, pair, ahead, bytes_by, enter_by, leave_by, comparing, two_pools, Place, place, comparing_at};

use crate::codes::same_code;
use crate::known::KnownPairs;
use crate::values::{same_of_kind, text_at};
use byteorder::{BigEndian, ByteOrder};
use desk_attrs::attribute_named;
use desk_base::{Memory, UseKind};
use desk_format::Attribute;
use desk_parts::{Stop, Walker, walk_body};
use desk_pool::Pool;
use std::marker::Model;

/// What is left of two bodies. Contracts see the bytes of both.
#[derive(Drop)]
pub(crate) struct BodyPair<'l, 'r> {
    left: &'l [u8],
    right: &'r [u8],
}

impl<'l, 'r> Model for BodyPair<'l, 'r> {
    ghost Value = { Pair };

    ghost view = { λ s. record { left = s.left.now; right = s.right.now } };
}

impl<'l, 'r> BodyPair<'l, 'r> {
    /// Takes the next `n` bytes of both; None where one of them has fewer.
    fn take(&mut self, n: usize) -> Option<(&'l [u8], &'r [u8])>
        ensures none { IfNone result (n ≤ length self.old.left → length self.old.right < n) }
        ensures room { OnSome result ((n ≤ length self.old.left) × (n ≤ length self.old.right)) }
        ensures left { IfSome result (λ both. both.0.now ≡ take n self.old.left) }
        ensures right { IfSome result (λ both. both.1.now ≡ take n self.old.right) }
        ensures moved { OnSome result (self.new ≡ pair (drop n self.old.left) (drop n self.old.right)) }
    {
        if self.left.len() < n || self.right.len() < n {
            return None;
        }
        let (left, left_rest) = self.left.split_at(n);
        let (right, right_rest) = self.right.split_at(n);
        self.left = left_rest;
        self.right = right_rest;
        Some((left, right))
    }

    /// Takes the next `n` bytes of both, which must be the same, and answers them.
    fn take_same(&mut self, n: usize) -> Result<&'l [u8], Stop>
        ensures bytes { IfOk result (λ bytes. bytes.now ≡ take n self.old.left) }
        ensures room { OnOk result (n ≤ length self.old.left) }
        ensures step { Gives result (bytes_by n bytes_eq self.old) self.new }
    {
        let (left, right) = match self.take(n) {
            None => return Err(Stop::Ended),
            Some(both) => both,
        };
        if left == right {
            Ok(left)
        } else {
            Err(Stop::Ended)
        }
    }

    /// The two-byte number in front of the left body.
    fn ahead(&self) -> Option<u16>
        ensures some { IfSome result (λ n. n ≡ ahead w16 self.now) }
        ensures none { IfNone result (length self.now.left < 2) }
    {
        if self.left.len() < 2 {
            return None;
        }
        Some(BigEndian::read_u16(&self.left[..2]))
    }

    /// Goes into the next `n` bytes of the left body, and answers what is behind them.
    fn enter(&mut self, n: usize) -> Result<&'l [u8], Stop>
        ensures step { Gives result (enter_by n self.old) self.new }
        ensures behind { IfOk result (λ behind. behind.now ≡ drop n self.old.left) }
    {
        if self.left.len() < n {
            return Err(Stop::Ended);
        }
        let (front, rest) = self.left.split_at(n);
        self.left = front;
        Ok(rest)
    }

    /// Goes on behind the bytes of the left body, of which none may be left.
    fn leave(&mut self, behind: &'l [u8]) -> Result<(), Stop>
        ensures { Gives result (leave_by behind.now self.old) self.new }
    {
        if !self.left.is_empty() {
            return Err(Stop::Ended);
        }
        self.left = behind;
        Ok(())
    }

    /// Whether nothing is left of either.
    fn is_done(&self) -> bool
        ensures { IsTrue result ↔ (self.now ≡ pair [] []) }
    {
        self.left.is_empty() && self.right.is_empty()
    }
}

/// What is left of two bodies, with the pools of both classes.
#[derive(Drop)]
pub(crate) struct BodyPlace<'p, 'l, 'r> {
    bodies: BodyPair<'l, 'r>,
    known: KnownPairs<'p, 'l, 'r>,
}

/// The constant pools of two classes, over which their bodies are walked along at once. The walk goes by the layout of the left
/// body: it ends where the right one has other bytes, another value at an index, or another code.
#[derive(Drop)]
pub(crate) struct PoolPair<'p, 'l, 'r> {
    pub left: &'p Pool<'l>,
    pub right: &'p Pool<'r>,
}

#[tactic(auto, using(crate::proofs::Places::on_at, crate::proofs::Places::stops_at))]
impl<'p, 'l, 'r> Walker for PoolPair<'p, 'l, 'r> {
    type Position = BodyPlace<'p, 'l, 'r>;

    type Behind = &'l [u8];

    ghost State = { Place };

    ghost place_behind = { λ bytes. record { at = 0; left = bytes.now } };

    ghost state = { λ position. place position.known position.bodies };

    ghost steps = { λ pools. comparing_at };

    fn bytes(&self, n: u32, position: &mut BodyPlace<'p, 'l, 'r>) -> Result<(), Stop> {
        position.bodies.take_same(n as usize)?;
        Ok(())
    }

    fn u1(&self, position: &mut BodyPlace<'p, 'l, 'r>) -> Result<u8, Stop> {
        let bytes = position.bodies.take_same(1)?;
        Ok(bytes[0])
    }

    fn u2(&self, position: &mut BodyPlace<'p, 'l, 'r>) -> Result<u16, Stop> {
        let bytes = position.bodies.take_same(2)?;
        Ok(BigEndian::read_u16(bytes))
    }

    fn u4(&self, position: &mut BodyPlace<'p, 'l, 'r>) -> Result<u32, Stop> {
        let bytes = position.bodies.take_same(4)?;
        Ok(BigEndian::read_u32(bytes))
    }

    fn index(&self, kind: UseKind, position: &mut BodyPlace<'p, 'l, 'r>) -> Result<(), Stop> {
        let (left, right) = match position.bodies.take(2) {
            None => return Err(Stop::Ended),
            Some(both) => both,
        };
        let i = BigEndian::read_u16(left);
        let j = BigEndian::read_u16(right);
        if same_of_kind(&mut position.known, kind, i, j) {
            Ok(())
        } else {
            Err(Stop::Ended)
        }
    }

    fn code(&self, n: u32, position: &mut BodyPlace<'p, 'l, 'r>) -> Result<(), Stop> {
        let (left, right) = match position.bodies.take(n as usize) {
            None => return Err(Stop::Ended),
            Some(both) => both,
        };
        if same_code(&mut position.known, left, right) {
            Ok(())
        } else {
            Err(Stop::Ended)
        }
    }

    fn name(&self, position: &mut BodyPlace<'p, 'l, 'r>) -> Result<Option<Attribute>, Stop> {
        let index = match position.bodies.ahead() {
            None => return Err(Stop::Ended),
            Some(index) => index,
        };
        self.index(UseKind::AttrName, position)?;
        Ok(attribute_named(text_at(position.known.left(), index)))
    }

    fn enter(&self, n: u32, position: &mut BodyPlace<'p, 'l, 'r>) -> Result<&'l [u8], Stop> {
        position.bodies.enter(n as usize)
    }

    fn leave(&self, behind: &'l [u8], position: &mut BodyPlace<'p, 'l, 'r>) -> Result<(), Stop> {
        position.bodies.leave(behind)
    }

    fn member(&self, _position: &mut BodyPlace<'p, 'l, 'r>) {}
}

/// Whether a walk goes along two bodies of classes to their ends. The only error is want of memory.
#[tactic(auto, using(crate::proofs::Places::walked, crate::proofs::Places::ended))]
pub(crate) fn same_body<'l, 'r>(
    left: &'l [u8],
    right: &'r [u8],
    pools: &PoolPair<'_, 'l, 'r>,
) -> Result<bool, Memory>
    ensures { IfOk result (λ same. IsTrue same ↔ (along (comparing (two_pools pools.now.left.now.entries pools.now.right.now.entries)) class_body (pair left.now right.now) ≡ Some (pair [] []))) }
{
    let mut position = BodyPlace {
        bodies: BodyPair { left, right },
        known: KnownPairs::new(pools.left, pools.right),
    };
    match walk_body(&mut position, pools) {
        Ok(()) => Ok(position.bodies.is_done()),
        Err(Stop::Ended) => Ok(false),
        Err(Stop::Memory) => Err(Memory),
    }
}

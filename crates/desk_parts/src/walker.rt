//! What a walk along the body of a class does at each of its items.

ghost use Rattle.std.specs.Prelude.{◌≡◌, OnOk, IfOk, IfErr, Some};
ghost use Rattle.std.specs.Int.{w8, w16, w32};
ghost use Rattle.desk_base.specs.Spot.{Spot};
ghost use Rattle.desk_parts.specs.Steps.{Steps};
ghost use Rattle.desk_parts.specs.Gives.{Gives, Stops, Counts, Names};

use desk_base::UseKind;
use desk_format::Attribute;

/// Why a walk doesn't go on. The position is of no use afterwards.
#[derive(Clone, Copy, Debug, PartialEq, Eq)]
pub enum Stop {
    /// The steps end here: an item that isn't there, or one that the walk doesn't go along.
    Ended,
    /// Memory ran out.
    Memory,
}

/// How a walk goes on from a position over the next item, or ends there. An impl says its steps by `steps`, over what a
/// position stands for, its `state`; each call is the step of its name.
pub trait Walker {
    /// Where a walk stands, with what it gathered.
    type Position: Drop;

    /// The place behind the body of an attribute, from which the walk goes on once that body has ended.
    type Behind: Drop;

    ghost State: { Type 0 };

    ghost place_behind: { Self.Behind → Spot };

    ghost state: { Self.Position → State };

    ghost steps: { Self → Steps State };

    /// Goes over `n` bytes that hold no index and no code.
    fn bytes(&self, n: u32, position: &mut Self::Position) -> Result<(), Stop>
        ensures { Gives result ((steps self.now).bytes n (state position.old)) (state position.new) };

    /// Goes over a number of one byte, and answers it.
    fn u1(&self, position: &mut Self::Position) -> Result<u8, Stop>
        ensures { Counts result (steps self.now) w8 (state position.old) (state position.new) };

    /// Goes over a number of two bytes, and answers it.
    fn u2(&self, position: &mut Self::Position) -> Result<u16, Stop>
        ensures { Counts result (steps self.now) w16 (state position.old) (state position.new) };

    /// Goes over a number of four bytes, and answers it.
    fn u4(&self, position: &mut Self::Position) -> Result<u32, Stop>
        ensures { Counts result (steps self.now) w32 (state position.old) (state position.new) };

    /// Goes over an index of the constant pool, of two bytes.
    fn index(&self, kind: UseKind, position: &mut Self::Position) -> Result<(), Stop>
        ensures { Gives result ((steps self.now).index kind (state position.old)) (state position.new) };

    /// Goes over a code array of `n` bytes (JVMS 4.7.3).
    fn code(&self, n: u32, position: &mut Self::Position) -> Result<(), Stop>
        ensures { Gives result ((steps self.now).code n (state position.old)) (state position.new) };

    /// Goes over the index of an attribute's name, and answers which of the known attributes it names; None for any other.
    fn name(&self, position: &mut Self::Position) -> Result<Option<Attribute>, Stop>
        ensures { Names result (steps self.now) (state position.old) (state position.new) };

    /// Goes into the body of an attribute, of `n` bytes: from here on, until `leave`, these bytes are all that is left.
    fn enter(&self, n: u32, position: &mut Self::Position) -> Result<Self::Behind, Stop>
        ensures on { OnOk result ((steps self.now).enter n (state position.old) ≡ Some (state position.new)) }
        ensures behind { IfOk result (λ behind. place_behind behind ≡ (steps self.now).behind n (state position.old)) }
        ensures stop { IfErr result (λ e. Stops e ((steps self.now).enter n (state position.old))) };

    /// Goes on behind the body of an attribute, at whose end the walk must stand.
    fn leave(&self, behind: Self::Behind, position: &mut Self::Position) -> Result<(), Stop>
        ensures { Gives result ((steps self.now).leave (place_behind behind) (state position.old)) (state position.new) };

    /// A field or a method begins here.
    fn member(&self, position: &mut Self::Position)
        ensures { state position.new ≡ (steps self.now).member (state position.old) };
}

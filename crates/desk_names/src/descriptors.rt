//! Reading a descriptor byte by byte (JVMS 4.3).

ghost use Rattle.std.specs.Prelude.{◌≡◌, ◌≤◌, length, drop};
ghost use Rattle.desk_base.specs.Descriptors.{Position, Awaited, is_base, is_wide, step, run, behind, ends, start, is_descriptor};
ghost use Rattle.desk_names.specs.States.{wanted_kind, position_of, awaited_of};

use crate::names::is_reserved;

/// Which descriptor is wanted: of a field, of a method, or of what a method returns, which is a field descriptor or `V`.
#[derive(Clone, Copy, Debug, PartialEq, Eq)]
pub enum Want {
    /// A field descriptor (JVMS 4.3.2).
    Field,
    /// A method descriptor (JVMS 4.3.3).
    Method,
    /// A return descriptor (JVMS 4.3.3).
    Return,
}

/// Where a type stands: alone, as a parameter behind others of so many units, or as what a method returns.
#[derive(Clone, Copy)]
pub enum TypePosition {
    /// Alone: a field's type.
    Alone,
    /// As a parameter, behind others of so many units: two of a `long` or a `double`, one of any other type.
    Parameter(u32),
    /// As what a method returns.
    Outcome,
}

/// What a descriptor goes on with: a method's `(`, a type behind so many `[`, or the rest of a class name, of which a part
/// has begun or not.
#[derive(Clone, Copy)]
pub enum State {
    /// A method's `(`.
    Opening,
    /// A type at this place, behind so many `[`.
    Type(TypePosition, u32),
    /// The rest of the class name of a type at this place; whether a part of it has begun.
    Name(TypePosition, bool),
    /// Nothing: the descriptor is whole.
    Over,
    /// Nothing: what was read begins no descriptor.
    Wrong,
}

/// One of the letters that stand for a base type.
pub fn is_base(byte: u8) -> bool
    ensures { result ≡ is_base byte }
{
    byte == b'B'
        || byte == b'C'
        || byte == b'D'
        || byte == b'F'
        || byte == b'I'
        || byte == b'J'
        || byte == b'S'
        || byte == b'Z'
}

fn is_wide(byte: u8) -> bool
    ensures { result ≡ is_wide byte }
{
    byte == b'J' || byte == b'D'
}

/// The state in front of a descriptor.
fn start(want: Want) -> State
    ensures { awaited_of result ≡ start (wanted_kind want) }
{
    match want {
        Want::Field => State::Type(TypePosition::Alone, 0),
        Want::Method => State::Opening,
        Want::Return => State::Type(TypePosition::Outcome, 0),
    }
}

/// The state behind a type.
fn behind(place: TypePosition, wide: bool) -> State
    ensures { awaited_of result ≡ behind (position_of place) wide }
{
    match place {
        TypePosition::Alone | TypePosition::Outcome => State::Over,
        TypePosition::Parameter(units) => {
            if wide {
                if units < 254 {
                    State::Type(TypePosition::Parameter(units + 2), 0)
                } else {
                    State::Wrong
                }
            } else {
                if units < 255 {
                    State::Type(TypePosition::Parameter(units + 1), 0)
                } else {
                    State::Wrong
                }
            }
        }
    }
}

/// The state behind a byte that begins no type.
fn ends(place: TypePosition, byte: u8) -> State
    ensures { awaited_of result ≡ ends (position_of place) byte }
{
    match place {
        TypePosition::Alone => State::Wrong,
        TypePosition::Outcome => {
            if byte == b'V' {
                State::Over
            } else {
                State::Wrong
            }
        }
        TypePosition::Parameter(_) => {
            if byte == b')' {
                State::Type(TypePosition::Outcome, 0)
            } else {
                State::Wrong
            }
        }
    }
}

/// The state behind a byte that stands in a class name, where a part of it has begun or not.
#[tactic(auto, unfolding(desk_base::specs::Descriptors::step))]
fn name_step(place: TypePosition, inside: bool, byte: u8) -> State
    ensures { awaited_of result ≡ step (awaited_of (State.Name place inside)) byte }
{
    if byte == b';' {
        if inside {
            behind(place, false)
        } else {
            State::Wrong
        }
    } else if byte == b'/' {
        if inside {
            State::Name(place, false)
        } else {
            State::Wrong
        }
    } else if is_reserved(byte) {
        State::Wrong
    } else {
        State::Name(place, true)
    }
}

/// The state behind a byte.
#[tactic(auto, unfolding(desk_base::specs::Descriptors::step))]
fn step(state: State, byte: u8) -> State
    ensures { awaited_of result ≡ step (awaited_of state) byte }
{
    match state {
        State::Opening => {
            if byte == b'(' {
                State::Type(TypePosition::Parameter(0), 0)
            } else {
                State::Wrong
            }
        }
        State::Type(place, dimensions) => {
            if byte == b'[' {
                if dimensions < 255 {
                    State::Type(place, dimensions + 1)
                } else {
                    State::Wrong
                }
            } else if byte == b'L' {
                State::Name(place, false)
            } else if is_base(byte) {
                behind(place, dimensions == 0 && is_wide(byte))
            } else if dimensions == 0 {
                ends(place, byte)
            } else {
                State::Wrong
            }
        }
        State::Name(place, inside) => name_step(place, inside, byte),
        State::Over => State::Wrong,
        State::Wrong => State::Wrong,
    }
}

/// How far the rest of a class name reaches from a place on, up to the byte that ends or breaks it, and whether a part has
/// begun there.
fn name_rest(text: &[u8], from: usize, begun: bool) -> (usize, bool)
    requires { from ≤ length text.now }
    ensures onward { from ≤ result.0 }
    ensures within { result.0 ≤ length text.now }
    ensures passed { (place : Position) → run (Awaited.name_rest place result.1) (drop result.0 text.now) ≡ run (Awaited.name_rest place begun) (drop from text.now) }
{
    let mut at = from;
    let mut inside = begun;
    while at < text.len() {
        let byte = text[at];
        if !is_reserved(byte) {
            inside = true;
        } else if inside && byte == b'/' {
            inside = false;
        } else {
            return (at, inside);
        }
        at += 1;
    }
    (at, inside)
}

/// Whether a text is a descriptor of a kind. It takes no memory.
#[tactic(auto, unfolding(desk_base::specs::Descriptors::run, desk_base::specs::Descriptors::is_descriptor))]
pub fn is_descriptor(text: &[u8], want: Want) -> bool
    ensures { result ≡ is_descriptor (wanted_kind want) text.now }
{
    let mut state = start(want);
    let mut at = 0;
    while at < text.len() {
        state = step(state, text[at]);
        at += 1;
        if let State::Name(place, begun) = state {
            let (end, inside) = name_rest(text, at, begun);
            state = State::Name(place, inside);
            at = end;
        }
    }
    match state {
        State::Over => true,
        _ => false,
    }
}

//! Reading a signature byte by byte (JVMS 4.7.9.1).

ghost use Rattle.std.specs.Prelude.{◌≡◌, ◌+◌, ◌≤◌, length, drop, []};
ghost use Rattle.desk_base.specs.Signatures.{is_mark};
ghost use Rattle.desk_names.specs.SignatureScan.{wanted_signature, ref_behind, in_class, ref_step, after, at_place, has_bound, first_bound, body_step, sig_step, sig_start, is_sound_signature, is_within, mark_place};

use crate::descriptors::is_base;

/// Which signature is wanted: of a class, of a method, or of a field.
#[derive(Clone, Copy, Debug, PartialEq, Eq)]
pub enum Which {
    /// The signature of a class or interface.
    Class,
    /// The signature of a method or constructor.
    Method,
    /// The signature of a field, a local variable or a record component.
    Field,
}

/// What declares type parameters, and decides what stands behind them.
#[derive(Clone, Copy, Debug)]
pub enum Owner {
    /// A class or an interface.
    Class,
    /// A method or a constructor.
    Method,
}

/// Where a reference stands: alone, as a bound of a type parameter, as a class's super class or interface, as a method's
/// parameter, its result, or what it throws.
#[derive(Clone, Copy, Debug)]
pub enum RefPlace {
    /// Alone: the type of a field, a local variable or a record component.
    Alone,
    /// As a bound of a type parameter of a class or a method.
    Bound(Owner),
    /// As the super class of a class, or as one of its interfaces.
    Super,
    /// As a parameter of a method.
    Parameter,
    /// As what a method returns.
    Outcome,
    /// As what a method throws, behind `^`.
    Thrown,
}

/// Where a class type stands: in its class name, in a simple name behind a `.`, or behind its arguments.
#[derive(Clone, Copy, Debug)]
pub enum Spot {
    /// In its class name, with the packages before it; whether a part of it has begun.
    Package(bool),
    /// In a simple name behind a `.`; whether it has begun.
    Inner(bool),
    /// Behind the `>` of its arguments.
    Closed,
}

/// What a reference goes on with, in so many open argument lists: a reference (where a base type may stand for it), a class
/// type, a type variable, or an argument (or the `>`).
#[derive(Clone, Copy, Debug)]
pub enum RefState {
    /// A reference in so many open argument lists; whether a base type may stand for it, as behind `[`.
    Ref(u32, bool),
    /// A class type in so many open argument lists, at this spot of it.
    Class(u32, Spot),
    /// The name of a type variable in so many open argument lists; whether it has begun.
    Variable(u32, bool),
    /// An argument of so many open lists, or the `>`; whether the innermost list has one already.
    Args(u32, bool),
    /// Nothing: the reference is whole.
    Over,
    /// Nothing: what was read begins no reference.
    Wrong,
}

/// What a signature goes on with: the `<` of type parameters or what stands behind them; a type parameter's name; further
/// bounds, the next name or the `>`; what stands behind type parameters; interfaces; parameters; a result; a `^`; what
/// stands behind that; or a reference.
#[derive(Clone, Copy, Debug)]
pub enum SigState {
    /// The `<` of type parameters, or what stands behind them.
    Opening(Owner),
    /// The name of a type parameter; whether it has begun.
    ParamName(Owner, bool),
    /// Further bounds of a type parameter, the next one's name, or the `>`.
    Bounds(Owner),
    /// What stands behind type parameters.
    Body(Owner),
    /// A further interface of a class, or the end.
    Supers,
    /// A parameter of a method, or the `)`.
    Parameters,
    /// What a method returns.
    Outcome,
    /// A `^`, or the end.
    Throws,
    /// What a method throws, behind a `^`.
    Thrown,
    /// A reference at this place.
    In(RefPlace, RefState),
    /// Nothing: the signature is whole.
    Over,
    /// Nothing: what was read begins no signature.
    Wrong,
}

/// A byte that no identifier of a signature holds: `.` `;` `[` `/` `<` `>` or `:`.
pub fn is_mark(byte: u8) -> bool
    ensures { result ≡ is_mark byte }
{
    byte == b'.'
        || byte == b';'
        || byte == b'['
        || byte == b'/'
        || byte == b'<'
        || byte == b'>'
        || byte == b':'
}

/// The state behind a reference.
fn ref_behind(depth: u32) -> RefState
    ensures { result ≡ ref_behind depth }
{
    if depth == 0 {
        RefState::Over
    } else {
        RefState::Args(depth, true)
    }
}

/// The state behind a byte of a class type, where a name or its arguments are whole.
fn in_class(depth: u32, wide: bool, byte: u8) -> RefState
    ensures { result ≡ in_class depth wide byte }
{
    if byte == b';' {
        ref_behind(depth)
    } else if byte == b'.' {
        RefState::Class(depth, Spot::Inner(false))
    } else if byte == b'<' {
        if wide && depth < 64 {
            RefState::Args(depth + 1, false)
        } else {
            RefState::Wrong
        }
    } else {
        RefState::Wrong
    }
}

/// The state behind a byte of an argument list.
#[tactic(auto, unfolding(crate::specs::SignatureScan::ref_step))]
fn in_args(depth: u32, some: bool, byte: u8) -> RefState
    ensures { result ≡ ref_step (RefState.Args depth some) byte }
{
    if byte == b'*' {
        RefState::Args(depth, true)
    } else if byte == b'+' || byte == b'-' {
        RefState::Ref(depth, false)
    } else if byte == b'>' {
        if some && 0 < depth {
            RefState::Class(depth - 1, Spot::Closed)
        } else {
            RefState::Wrong
        }
    } else if byte == b'L' {
        RefState::Class(depth, Spot::Package(false))
    } else if byte == b'T' {
        RefState::Variable(depth, false)
    } else if byte == b'[' {
        RefState::Ref(depth, true)
    } else {
        RefState::Wrong
    }
}

/// The state behind the first byte of a reference.
#[tactic(auto, unfolding(crate::specs::SignatureScan::ref_step))]
fn in_ref(depth: u32, base: bool, byte: u8) -> RefState
    ensures { result ≡ ref_step (RefState.Ref depth base) byte }
{
    if byte == b'L' {
        RefState::Class(depth, Spot::Package(false))
    } else if byte == b'T' {
        RefState::Variable(depth, false)
    } else if byte == b'[' {
        RefState::Ref(depth, true)
    } else if base && is_base(byte) {
        ref_behind(depth)
    } else {
        RefState::Wrong
    }
}

/// The state behind a byte within a reference.
#[tactic(auto, unfolding(crate::specs::SignatureScan::ref_step))]
fn ref_step(state: RefState, byte: u8) -> RefState
    ensures { result ≡ ref_step state byte }
{
    match state {
        RefState::Ref(depth, base) => in_ref(depth, base, byte),
        RefState::Class(depth, Spot::Package(inside)) => {
            if !is_mark(byte) {
                RefState::Class(depth, Spot::Package(true))
            } else if !inside {
                RefState::Wrong
            } else if byte == b'/' {
                RefState::Class(depth, Spot::Package(false))
            } else {
                in_class(depth, true, byte)
            }
        }
        RefState::Class(depth, Spot::Inner(inside)) => {
            if !is_mark(byte) {
                RefState::Class(depth, Spot::Inner(true))
            } else if inside {
                in_class(depth, true, byte)
            } else {
                RefState::Wrong
            }
        }
        RefState::Class(depth, Spot::Closed) => in_class(depth, false, byte),
        RefState::Variable(depth, inside) => {
            if !is_mark(byte) {
                RefState::Variable(depth, true)
            } else if inside && byte == b';' {
                ref_behind(depth)
            } else {
                RefState::Wrong
            }
        }
        RefState::Args(depth, some) => in_args(depth, some, byte),
        RefState::Over => RefState::Wrong,
        RefState::Wrong => RefState::Wrong,
    }
}

/// The state behind a reference at a place.
fn after(place: RefPlace) -> SigState
    ensures { result ≡ after place }
{
    match place {
        RefPlace::Alone => SigState::Over,
        RefPlace::Bound(owner) => SigState::Bounds(owner),
        RefPlace::Super => SigState::Supers,
        RefPlace::Parameter => SigState::Parameters,
        RefPlace::Outcome => SigState::Throws,
        RefPlace::Thrown => SigState::Throws,
    }
}

/// A state within a reference at a place, or what stands behind it.
fn at_place(place: RefPlace, state: RefState) -> SigState
    ensures { result ≡ at_place place state }
{
    match state {
        RefState::Over => after(place),
        RefState::Wrong => SigState::Wrong,
        _ => SigState::In(place, state),
    }
}

/// Whether what stands behind a type parameter's first `:` is a bound. Such a bound and the next parameter's name can begin
/// alike, as in `A:LB:Lx/Y;`: the first mark tells them apart.
#[tactic(auto, unfolding(crate::specs::SignatureScan::has_bound))]
fn has_bound(text: &[u8]) -> bool
    ensures { result ≡ has_bound text.now }
{
    for byte in text {
        if is_mark(*byte) {
            return *byte != b':' && *byte != b'>';
        }
    }
    true
}

/// The state behind a type parameter's first `:`.
fn first_bound(owner: Owner, text: &[u8]) -> SigState
    ensures { result ≡ first_bound owner text.now }
{
    if has_bound(text) {
        SigState::In(RefPlace::Bound(owner), RefState::Ref(0, false))
    } else {
        SigState::Bounds(owner)
    }
}

/// The state behind the first byte that stands behind type parameters.
fn body_step(owner: Owner, byte: u8) -> SigState
    ensures { result ≡ body_step owner byte }
{
    match owner {
        Owner::Class => {
            if byte == b'L' {
                SigState::In(RefPlace::Super, RefState::Class(0, Spot::Package(false)))
            } else {
                SigState::Wrong
            }
        }
        Owner::Method => {
            if byte == b'(' {
                SigState::Parameters
            } else {
                SigState::Wrong
            }
        }
    }
}

/// The state behind a byte of type parameters, in front of a text.
#[tactic(auto, unfolding(crate::specs::SignatureScan::sig_step))]
fn in_params(owner: Owner, inside: bool, byte: u8, behind: &[u8]) -> SigState
    ensures { result ≡ sig_step (SigState.ParamName owner inside) byte behind.now }
{
    if !is_mark(byte) {
        SigState::ParamName(owner, true)
    } else if inside && byte == b':' {
        first_bound(owner, behind)
    } else {
        SigState::Wrong
    }
}

/// The state behind a byte that stands behind the bounds of a type parameter.
#[tactic(auto, unfolding(crate::specs::SignatureScan::sig_step))]
fn bounds_step(owner: Owner, byte: u8) -> SigState
    ensures { result ≡ sig_step (SigState.Bounds owner) byte [] }
{
    if !is_mark(byte) {
        SigState::ParamName(owner, true)
    } else if byte == b':' {
        SigState::In(RefPlace::Bound(owner), RefState::Ref(0, false))
    } else if byte == b'>' {
        SigState::Body(owner)
    } else {
        SigState::Wrong
    }
}

/// The state behind a byte that stands behind `^`.
#[tactic(auto, unfolding(crate::specs::SignatureScan::sig_step))]
fn thrown_step(byte: u8) -> SigState
    ensures { result ≡ sig_step SigState.Thrown byte [] }
{
    if byte == b'L' {
        SigState::In(RefPlace::Thrown, RefState::Class(0, Spot::Package(false)))
    } else if byte == b'T' {
        SigState::In(RefPlace::Thrown, RefState::Variable(0, false))
    } else {
        SigState::Wrong
    }
}

/// The state behind a byte, in front of a text.
#[tactic(auto, unfolding(crate::specs::SignatureScan::sig_step))]
pub fn sig_step(state: SigState, byte: u8, behind: &[u8]) -> SigState
    ensures { result ≡ sig_step state byte behind.now }
{
    match state {
        SigState::In(place, state) => at_place(place, ref_step(state, byte)),
        SigState::Opening(owner) => {
            if byte == b'<' {
                SigState::ParamName(owner, false)
            } else {
                body_step(owner, byte)
            }
        }
        SigState::ParamName(owner, inside) => in_params(owner, inside, byte, behind),
        SigState::Bounds(owner) => bounds_step(owner, byte),
        SigState::Body(owner) => body_step(owner, byte),
        SigState::Supers => body_step(Owner::Class, byte),
        SigState::Parameters => {
            if byte == b')' {
                SigState::Outcome
            } else {
                at_place(RefPlace::Parameter, in_ref(0, true, byte))
            }
        }
        SigState::Outcome => {
            if byte == b'V' {
                SigState::Throws
            } else {
                at_place(RefPlace::Outcome, in_ref(0, true, byte))
            }
        }
        SigState::Throws => {
            if byte == b'^' {
                SigState::Thrown
            } else {
                SigState::Wrong
            }
        }
        SigState::Thrown => thrown_step(byte),
        SigState::Over => SigState::Wrong,
        SigState::Wrong => SigState::Wrong,
    }
}

/// The state in front of a signature.
pub fn sig_start(which: Which) -> SigState
    ensures { result ≡ sig_start (wanted_signature which) }
{
    match which {
        Which::Class => SigState::Opening(Owner::Class),
        Which::Method => SigState::Opening(Owner::Method),
        Which::Field => SigState::In(RefPlace::Alone, RefState::Ref(0, false)),
    }
}

/// Whether a state stands within a name, of which a byte has been read.
pub fn is_within(state: SigState) -> bool
    ensures { result ≡ is_within state }
{
    match state {
        SigState::In(_, RefState::Class(_, Spot::Package(inside))) => inside,
        SigState::In(_, RefState::Class(_, Spot::Inner(inside))) => inside,
        SigState::In(_, RefState::Variable(_, inside)) => inside,
        SigState::ParamName(_, inside) => inside,
        _ => false,
    }
}

/// The first place of a mark from a place on, or the length.
#[tactic(auto, using(crate::proofs::Skips::mark_more, crate::proofs::Skips::mark_here, crate::proofs::Skips::mark_none))]
pub fn mark_from(text: &[u8], from: usize) -> usize
    requires { from ≤ length text.now }
    ensures value { result ≡ from + mark_place (drop from text.now) }
    ensures bound { result ≤ length text.now }
{
    let mut at = from;
    while at < text.len() {
        if is_mark(text[at]) {
            return at;
        }
        at += 1;
    }
    at
}

/// Whether a text is a signature of a kind. It takes no memory.
#[tactic(auto, unfolding(crate::specs::SignatureScan::sig_run, crate::specs::SignatureScan::is_sound_signature))]
pub fn is_signature(text: &[u8], which: Which) -> bool
    ensures { result ≡ is_sound_signature (wanted_signature which) text.now }
{
    let mut state = sig_start(which);
    let mut at = 0;
    while at < text.len() {
        state = sig_step(state, text[at], &text[at + 1..]);
        at += 1;
        if is_within(state) {
            at = mark_from(text, at);
        }
    }
    match state {
        SigState::Supers | SigState::Throws | SigState::Over => true,
        _ => false,
    }
}

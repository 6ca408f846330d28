//! Classes as a scan keeps them, made up.

use desk_base::{Memory, Text, TextList};
use desk_class::HeldNames;
use desk_graph::Scanned;
use std::alloc::Global;

/// How many names a class holds beside its own.
const HELD: u32 = 15;

/// Adds the decimal digits of a number.
fn push_number(name: &mut Text, number: u32) -> Result<(), Memory> {
    let mut divisor = 100_000u32;
    for _ in 0..6 {
        let digit = number.checked_div(divisor).unwrap_or(0) % 10;
        name.push(b'0' + digit as u8)?;
        divisor = divisor / 10;
    }
    Ok(())
}

/// A class name: a front, a package of a number, and a simple name of a number.
fn name_of(alloc: Global, front: &[u8], number: u32) -> Result<Text, Memory> {
    let mut name = Text::from_bytes(alloc, front)?;
    push_number(&mut name, number / 50)?;
    name.append(b"/ServiceBean")?;
    push_number(&mut name, number)?;
    Ok(name)
}

/// Names as a scan packs them.
fn packed(alloc: Global, names: &[Text]) -> Result<HeldNames, Memory> {
    let mut texts = Vec::with_capacity(alloc, names.len())?;
    for name in names {
        texts.push(name.as_bytes())?;
    }
    HeldNames::of(alloc, texts.as_slice())
}

/// The name at a place among those that the class of a number among so many holds: three are of the rename, three of libraries
/// that no class defines, and all others of the application.
fn held_name(alloc: Global, number: u32, place: u32, count: u32) -> Result<Text, Memory> {
    let other = number
        .wrapping_mul(7919)
        .wrapping_add(place.wrapping_mul(104_729));
    if place < 3 {
        name_of(alloc, b"javax/servlet/part", other % 1000)
    } else if place < 6 {
        name_of(alloc, b"com/library/part", other % 60_000)
    } else {
        let other = other.checked_rem(count).unwrap_or(0);
        name_of(alloc, b"org/shop/orders/part", other)
    }
}

/// The names that the class of a number among so many holds, its own first.
fn held_names(alloc: Global, number: u32, count: u32) -> Result<TextList, Memory> {
    let mut held = TextList::empty(alloc);
    held.push(name_of(alloc, b"org/shop/orders/part", number)?)?;
    for place in 0..HELD {
        held.push(held_name(alloc, number, place, count)?)?;
    }
    Ok(held)
}

/// The class of a number among so many.
pub fn class_of(alloc: Global, number: u32, count: u32) -> Result<Scanned, Memory> {
    let held = packed(alloc, held_names(alloc, number, count)?.as_slice())?;
    Ok(Scanned {
        path: name_of(alloc, b"WEB-INF/classes/org/shop/orders/part", number)?,
        selected: number % 10 > 0,
        name: name_of(alloc, b"org/shop/orders/part", number)?,
        held,
    })
}

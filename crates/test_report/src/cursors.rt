//! Cursors.

use crate::answering::{As, Named, answer, answer_two, other_words};
use crate::words::{front, meant};
use desk_base::{Cursor, Memory, Text};

/// A step of one of two cursors, of which the inner one is made by a fence of the outer one.
#[derive(Clone, Copy)]
enum Step {
    One,
    Two,
    Four,
    Place,
    Fence,
    InnerOne,
    InnerTake,
    InnerPlace,
}

/// The names of the steps.
const STEPS: &[(&[u8], Step)] = &[
    (b"u1", Step::One),
    (b"u2", Step::Two),
    (b"u4", Step::Four),
    (b"place", Step::Place),
    (b"fence-2", Step::Fence),
    (b"inner-u1", Step::InnerOne),
    (b"inner-take-2", Step::InnerTake),
    (b"inner-place", Step::InnerPlace),
];

/// Answers where a cursor stands, and how many bytes are left.
fn answer_place(cursor: &Cursor<'_>, out: &mut String) -> Result<(), Memory> {
    answer_two(out, &As("at", &cursor.at()), &As("left", &cursor.left()))
}

/// Makes the inner cursor one over the next two bytes.
fn fence<'a>(
    cursor: &mut Cursor<'a>,
    inner: &mut Cursor<'a>,
    out: &mut String,
) -> Result<(), Memory> {
    match cursor.fence(2) {
        Err(short) => answer(out, &Named(&short)),
        Ok(made) => {
            *inner = made;
            Ok(())
        }
    }
}

/// Answers a step.
fn answer_step<'a>(
    cursor: &mut Cursor<'a>,
    inner: &mut Cursor<'a>,
    step: Step,
    out: &mut String,
) -> Result<(), Memory> {
    match step {
        Step::One => answer(out, &Named(&cursor.u1())),
        Step::Two => answer(out, &Named(&cursor.u2())),
        Step::Four => answer(out, &Named(&cursor.u4())),
        Step::Place => answer_place(cursor, out),
        Step::Fence => fence(cursor, inner, out),
        Step::InnerOne => answer(out, &Named(&inner.u1())),
        Step::InnerTake => answer(out, &Named(&inner.take(2))),
        Step::InnerPlace => answer_place(inner, out),
    }
}

/// Answers the steps of a cursor over bytes.
pub fn answer_cursor(bytes: &[u8], steps: &[Text], out: &mut String) -> Result<(), Memory> {
    let mut cursor = Cursor::new(front(bytes));
    let mut inner = Cursor::new(b"");
    for step in steps {
        match meant(STEPS, step) {
            None => other_words(out)?,
            Some(step) => answer_step(&mut cursor, &mut inner, step, out)?,
        }
    }
    Ok(())
}

//! Walks over parts of attributes and over attributes.

use crate::commands::{Part, Walk};
use crate::pools::pool_of;
use crate::told;
use crate::words::content;
use desk_annos::{walk_element, walk_frames, walk_parameter_annotations, walk_type_annotations};
use desk_attrs::{walk_attribute, walk_attributes};
use desk_base::{Cursor, Memory, ReadFault, Used};
use desk_pool::Pool;
use std::alloc::Global;

/// Walks over a part of an attribute.
fn walk_part(
    part: Part,
    cursor: &mut Cursor<'_>,
    pool: &Pool<'_>,
    uses: &mut Vec<Used>,
) -> Result<(), ReadFault> {
    match part {
        Part::Element => walk_element(cursor, 1, pool, uses),
        Part::Frames => walk_frames(cursor, pool, uses),
        Part::TypeAnnotations => walk_type_annotations(cursor, pool, uses),
        Part::ParameterAnnotations => walk_parameter_annotations(cursor, pool, uses),
    }
}

/// Walks over a part of an attribute, or over attributes.
fn walk_over(
    walk: Walk,
    cursor: &mut Cursor<'_>,
    pool: &Pool<'_>,
    uses: &mut Vec<Used>,
) -> Result<(), ReadFault> {
    match walk {
        Walk::Part(part) => walk_part(part, cursor, pool, uses),
        Walk::Attribute(place) => walk_attribute(place, cursor, pool, uses),
        Walk::Attributes(place) => walk_attributes(place, cursor, pool, uses),
    }
}

/// Walks by a pool, and tells what a walk tells.
fn tell_by_pool(
    alloc: Global,
    walk: Walk,
    pool: &Pool<'_>,
    bytes: &[u8],
    out: &mut String,
) -> Result<(), Memory> {
    let mut uses = Vec::new(alloc);
    let mut cursor = Cursor::new(content(bytes));
    match walk_over(walk, &mut cursor, pool, &mut uses) {
        Ok(()) => {
            writeln!(out, "  reads, {} left", cursor.left())?;
            told::each(out, &uses)
        }
        Err(fault) => told::fault(out, fault),
    }
}

/// Walks by the pool that bytes hold, and tells the fault, or how many bytes are left and which texts are used.
pub fn tell(
    alloc: Global,
    walk: Walk,
    of_pool: &[u8],
    bytes: &[u8],
    out: &mut String,
) -> Result<(), Memory> {
    match pool_of(alloc, of_pool) {
        Ok(pool) => tell_by_pool(alloc, walk, &pool, bytes, out),
        Err(fault) => told::fault(out, fault),
    }
}

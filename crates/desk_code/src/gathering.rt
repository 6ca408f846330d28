//! A walk that gathers code arrays.

ghost use Rattle.std.specs.Prelude.{◌≡◌, ◌≢◌, IfOk, IfErr, Ok};
ghost use Rattle.desk_format.specs.Reading.{Got, read};
ghost use Rattle.desk_format.specs.ClassBody.{class_body};
ghost use Rattle.desk_base.specs.Entries.{text_at};
ghost use Rattle.desk_format.specs.Attributes.{attribute_named};
ghost use Rattle.desk_parts.specs.Steps.{Steps};
ghost use Rattle.desk_code.specs.Gathering.{none_found, found_in, Gather, gathering};
ghost use Rattle.desk_code.specs.Seen.{seen};

use crate::array::Code;
use desk_attrs::attribute_named;
use desk_base::{Cursor, PoolView, UseKind};
use desk_format::Attribute;
use desk_parts::{Stop, Walker, walk_body};
use desk_pool::Pool;
use std::alloc::Global;
use std::marker::Model;

/// Where the walk stands, and what it gathered.
#[derive(Drop)]
pub struct Gathered<'a> {
    cursor: Cursor<'a>,
    member: u32,
    codes: Vec<Code<'a>>,
}

impl<'a> Model for Gathered<'a> {
    ghost Value = { Gather };

    ghost view = { λ g. record { at = g.cursor.at; left = g.cursor.left; found = record { member = g.member; codes = seen g.codes.items } } };
}

/// The walk over a class's body, by its pool.
#[derive(Drop)]
pub struct CodeWalker<'p, 'a> {
    pool: &'p Pool<'a>,
}

impl<'p, 'a> Walker for CodeWalker<'p, 'a> {
    type Position = Gathered<'a>;

    type Behind = Cursor<'a>;

    ghost State = { Gather };

    ghost place_behind = { λ cursor. cursor };

    ghost state = { λ position. position };

    ghost steps = { λ walker. gathering walker.pool.now.entries };

    fn bytes(&self, n: u32, position: &mut Gathered<'a>) -> Result<(), Stop> {
        match position.cursor.take(n) {
            Ok(_) => Ok(()),
            Err(_) => Err(Stop::Ended),
        }
    }

    fn u1(&self, position: &mut Gathered<'a>) -> Result<u8, Stop> {
        match position.cursor.u1() {
            Ok(number) => Ok(number),
            Err(_) => Err(Stop::Ended),
        }
    }

    fn u2(&self, position: &mut Gathered<'a>) -> Result<u16, Stop> {
        match position.cursor.u2() {
            Ok(number) => Ok(number),
            Err(_) => Err(Stop::Ended),
        }
    }

    fn u4(&self, position: &mut Gathered<'a>) -> Result<u32, Stop> {
        match position.cursor.u4() {
            Ok(number) => Ok(number),
            Err(_) => Err(Stop::Ended),
        }
    }

    fn index(&self, _kind: UseKind, position: &mut Gathered<'a>) -> Result<(), Stop> {
        match position.cursor.u2() {
            Ok(_) => Ok(()),
            Err(_) => Err(Stop::Ended),
        }
    }

    fn code(&self, n: u32, position: &mut Gathered<'a>) -> Result<(), Stop> {
        let at = position.cursor.at();
        match position.cursor.take(n) {
            Ok(code) => {
                let found = Code {
                    member: position.member,
                    at,
                    code,
                };
                match position.codes.push(found) {
                    Ok(()) => Ok(()),
                    Err(_) => Err(Stop::Memory),
                }
            }
            Err(_) => Err(Stop::Ended),
        }
    }

    fn name(&self, position: &mut Gathered<'a>) -> Result<Option<Attribute>, Stop> {
        match position.cursor.u2() {
            Ok(index) => Ok(attribute_under(self.pool, index)),
            Err(_) => Err(Stop::Ended),
        }
    }

    fn enter(&self, n: u32, position: &mut Gathered<'a>) -> Result<Cursor<'a>, Stop> {
        match position.cursor.fence(n) {
            Ok(inner) => Ok(std::mem::replace(&mut position.cursor, inner)),
            Err(_) => Err(Stop::Ended),
        }
    }

    fn leave(&self, behind: Cursor<'a>, position: &mut Gathered<'a>) -> Result<(), Stop> {
        if position.cursor.left() > 0 {
            return Err(Stop::Ended);
        }
        position.cursor = behind;
        Ok(())
    }

    fn member(&self, position: &mut Gathered<'a>) {
        position.member = position.cursor.at();
    }
}

/// The code arrays of a class's body, in order of place, where the body reads. Its cursor stands behind the pool.
#[tactic(auto, using(crate::proofs::Gathers::gathered_body, crate::proofs::Gathers::never_ends))]
pub(crate) fn gathered_codes<'a>(
    alloc: Global,
    pool: &Pool<'a>,
    cursor: Cursor<'a>,
) -> Result<Vec<Code<'a>>, Stop>
    ensures codes { IfOk result (λ codes. (got : Got) → read pool.now.entries class_body cursor.entry.at cursor.entry.left ≡ Ok got → seen codes.items ≡ (found_in none_found cursor.entry.at got.tree).codes) }
    ensures ends { IfErr result (λ stop. stop ≡ Stop.Ended → (got : Got) → read pool.now.entries class_body cursor.entry.at cursor.entry.left ≢ Ok got) }
{
    let mut position = Gathered {
        cursor,
        member: 0,
        codes: Vec::new(alloc),
    };
    let walker = CodeWalker { pool };
    walk_body(&mut position, &walker)?;
    Ok(position.codes)
}

/// The attribute that the text at an index names.
fn attribute_under(pool: &Pool<'_>, index: u16) -> Option<Attribute>
    ensures { result ≡ attribute_named (text_at pool.now.entries index) }
{
    match PoolView::utf8(pool, index) {
        Some(name) => attribute_named(name),
        None => None,
    }
}

//! Constant pools.

use crate::commands::PoolQuestion;
use crate::told;
use crate::words::{content, number};
use desk_base::{Cursor, Memory, PoolView, ReadFault, Text};
use desk_pool::Pool;
use std::alloc::Global;

/// The pool behind the magic number and the versions.
pub fn pool_of(alloc: Global, bytes: &[u8]) -> Result<Box<Pool<'_>>, ReadFault> {
    let mut cursor = Cursor::new(content(bytes));
    cursor.take(8)?;
    let pool = Pool::read(alloc, &mut cursor)?;
    Ok(Box::new(alloc, pool)?)
}

/// Answers a question on a pool: the first word is an index.
fn answer(
    pool: &Pool<'_>,
    question: PoolQuestion,
    words: &[Text],
    out: &mut String,
) -> Result<(), Memory> {
    let index = number(words, 0);
    match question {
        PoolQuestion::Whether => told::text(out, "reads"),
        PoolQuestion::Count => told::value(out, &pool.count()),
        PoolQuestion::Uses => told::each(out, pool.uses()),
        PoolQuestion::Tag => told::value(out, &pool.tag(index)),
        PoolQuestion::Text => told::optional(out, pool.utf8(index)),
        PoolQuestion::ClassName => told::optional(out, pool.name_of_class(index)),
        PoolQuestion::Check(kind) => told::value(out, &pool.check(index, kind)),
    }
}

/// Answers a question on the pool that bytes hold.
pub fn ask(
    alloc: Global,
    bytes: &[u8],
    question: PoolQuestion,
    words: &[Text],
    out: &mut String,
) -> Result<(), Memory> {
    match pool_of(alloc, bytes) {
        Ok(pool) => answer(&pool, question, words, out),
        Err(fault) => told::fault(out, fault),
    }
}

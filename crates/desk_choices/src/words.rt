//! The words that the program was given.

ghost use Rattle.std.specs.Prelude.{◌≡◌, IfOk, drop, map, string_bytes};

use desk_base::{Memory, Text};
use std::alloc::Global;

/// Words as texts, as they were given.
fn texts_of(alloc: Global, given: &[String]) -> Result<Vec<Text>, Memory>
    ensures { IfOk result (λ words. words.items ≡ map string_bytes given.now) }
{
    let mut words = Vec::new(alloc);
    for word in given {
        words.push(Text::from_bytes(alloc, word.as_bytes())?)?;
    }
    Ok(words)
}

/// The words behind the program's name, as they were given. The only error is want of memory.
pub fn words_behind(alloc: Global, args: &[String]) -> Result<Vec<Text>, Memory>
    ensures { IfOk result (λ words. words.items ≡ map string_bytes (drop 1 args.now)) }
{
    match args.split_first() {
        Some((_, given)) => texts_of(alloc, given),
        None => Ok(Vec::new(alloc)),
    }
}

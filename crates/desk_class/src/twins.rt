//! Two fields or two methods of one name and descriptor.

ghost use Rattle.std.specs.Prelude.{◌≡◌, ◌≢◌, ◌+◌, ◌<◌, ℕ, false, length, map, slice_index, IfOk, None, option_map};
ghost use Rattle.desk_format.specs.Members.{named_in, first_twins};
ghost use Rattle.desk_class.specs.Marks.{ends_hashed, named_mark};

use crate::numbers::{TextNumbers, text_at};
use desk_base::{Memory, PoolView};
use desk_format::Member;
use desk_pool::Pool;
use std::alloc::Global;
use std::collections::BTreeSet;
use std::hash::{FoldHasher, Hasher};

/// How many bytes at each end of a long text its mark goes by, so that it takes little time to mark members that name one.
const END: usize = 128;

/// Hashes a text, or both ends of a long one.
fn hash_ends(hasher: &mut FoldHasher, text: &[u8])
    ensures { hasher.new ≡ ends_hashed hasher.old text.now }
{
    if text.len() <= 2 * END {
        hasher.write(text);
    } else {
        hasher.write(&text[..END]);
        hasher.write(&text[text.len() - END..]);
    }
}

/// The mark of a member, which goes by its name and its descriptor. Twins have one mark, and other members seldom do.
fn mark_of(pool: &Pool<'_>, member: &Member) -> u64
    ensures { result ≡ named_mark (named_in pool.now.entries member.now) }
{
    let mut hasher = FoldHasher::default();
    hash_ends(&mut hasher, text_at(pool, member.name));
    hash_ends(&mut hasher, text_at(pool, member.descriptor));
    hasher.finish()
}

/// The marks of members, in their order.
fn marks_of(alloc: Global, pool: &Pool<'_>, members: &[Member]) -> Result<Vec<u64>, Memory>
    ensures { IfOk result (λ marks. marks.items ≡ map (λ m. named_mark (named_in pool.now.entries m)) members.now) }
{
    let mut marks = Vec::with_capacity(alloc, members.len())?;
    for member in members {
        marks.push(mark_of(pool, member))?;
    }
    Ok(marks)
}

/// Whether a number is equal to the one before it.
fn has_equal_neighbours(numbers: &[u64]) -> bool
    ensures { result ≡ false → (k : ℕ) → k + 1 < length numbers.now → slice_index numbers.now k ≢ slice_index numbers.now (k + 1) }
{
    for place in 1..numbers.len() {
        if numbers[place - 1] == numbers[place] {
            return true;
        }
    }
    false
}

/// Whether two members have one mark. Where no two have, none are twins.
#[tactic(auto, using(crate::proofs::Apart::few_apart))]
fn share_a_mark(alloc: Global, pool: &Pool<'_>, members: &[Member]) -> Result<bool, Memory>
    ensures { IfOk result (λ shared. shared ≡ false → first_twins (named_in pool.now.entries) members.now ≡ None) }
{
    if members.len() < 2 {
        return Ok(false);
    }
    let mut marks = marks_of(alloc, pool, members)?;
    marks.sort_unstable();
    Ok(has_equal_neighbours(marks.as_slice()))
}

/// The least member that is the twin of one before it, found by comparing all names and descriptors.
fn find_twin(alloc: Global, pool: &Pool<'_>, members: &[Member]) -> Result<Option<Member>, Memory>
    ensures { IfOk result (λ twin. twin ≡ option_map (λ twins. twins.second) (first_twins (named_in pool.now.entries) members.now)) }
{
    let mut numbers = TextNumbers::new(alloc, pool.count())?;
    let mut seen = BTreeSet::new(alloc);
    for member in members {
        let name = numbers.number(text_at(pool, member.name), member.name)?;
        let descriptor = numbers.number(text_at(pool, member.descriptor), member.descriptor)?;
        if !seen.insert((member.method, name, descriptor))? {
            return Ok(Some(*member));
        }
    }
    Ok(None)
}

/// The least member that is the twin of one before it: of the same name and descriptor, and a method as that is.
pub fn first_twin(
    alloc: Global,
    pool: &Pool<'_>,
    members: &[Member],
) -> Result<Option<Member>, Memory>
    ensures { IfOk result (λ twin. twin ≡ option_map (λ twins. twins.second) (first_twins (named_in pool.now.entries) members.now)) }
{
    if share_a_mark(alloc, pool, members)? {
        find_twin(alloc, pool, members)
    } else {
        Ok(None)
    }
}

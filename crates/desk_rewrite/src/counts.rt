//! How many uses are renamed, and how many have odd texts.

ghost use Rattle.std.specs.Prelude.{◌≡◌, ◌<◌, ◌^◌, IfOk, length, count_by};
ghost use Rattle.desk_rewrite.specs.Counts.{AreOdd, is_odd, is_odd_use};
ghost use Rattle.desk_rewrite.specs.Wanting.{has_other};

use crate::table::text_at;
use desk_base::{Memory, Role, Used};
use desk_class::TextAnswers;
use desk_names::{Which, read_signature};
use desk_new_pool::WantedTexts;
use desk_pool::Pool;
use std::alloc::Global;

/// Whether a text is used as a signature, and is no signature of that kind or nests more than 64 deep.
fn is_odd(role: Role, text: &[u8]) -> bool
    ensures { result ≡ is_odd role text.now }
{
    match role {
        Role::ClassSig => read_signature(text, Which::Class).is_none(),
        Role::MethodSig => read_signature(text, Which::Method).is_none(),
        Role::FieldSig => read_signature(text, Which::Field).is_none(),
        _ => false,
    }
}

/// Whether a use as a signature has an odd text, which is answered once for a text in a role.
#[tactic(auto, using(crate::proofs::Odd::odd_kept, crate::proofs::Odd::odd_known))]
fn is_odd_signature(pool: &Pool<'_>, answers: &mut TextAnswers, used: &Used) -> bool
    requires { AreOdd pool.now.entries answers.old }
    ensures odd { result ≡ is_odd_use pool.now.entries used.now }
    ensures answers { AreOdd pool.now.entries answers.new }
{
    if let Some(odd) = answers.get(used.index, used.role) {
        return odd;
    }
    let odd = is_odd(used.role, text_at(pool, used.index));
    answers.keep(used.index, used.role, odd);
    odd
}

/// Whether a use has an odd text.
fn is_odd_use(pool: &Pool<'_>, answers: &mut TextAnswers, used: &Used) -> bool
    requires { AreOdd pool.now.entries answers.old }
    ensures odd { result ≡ is_odd_use pool.now.entries used.now }
    ensures answers { AreOdd pool.now.entries answers.new }
{
    match used.role {
        Role::ClassSig | Role::MethodSig | Role::FieldSig => is_odd_signature(pool, answers, used),
        _ => false,
    }
}

/// How many uses of texts as signatures have a text that is no signature of their kind. Each text is looked at once in a role. The only
/// error is want of memory.
pub fn odd_uses(alloc: Global, pool: &Pool<'_>, uses: &[Used]) -> Result<u32, Memory>
    requires { length uses.now < 2 ^ 32 }
    ensures { IfOk result (λ odd. odd ≡ count_by (is_odd_use pool.now.entries) uses.now) }
{
    let mut answers = TextAnswers::none(alloc, pool.count())?;
    let mut odd = 0;
    for used in uses {
        if is_odd_use(pool, &mut answers, used) {
            odd += 1;
        }
    }
    Ok(odd)
}

/// How many uses want another text than their own.
pub fn renamed_uses(wants: &WantedTexts<'_>) -> u32
    requires { length wants.now < 2 ^ 32 }
    ensures { result ≡ count_by has_other wants.now }
{
    let mut renamed = 0;
    for place in 0..wants.len() {
        if wants.get(place).image.is_some() {
            renamed += 1;
        }
    }
    renamed
}

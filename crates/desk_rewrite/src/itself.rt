//! Classes that are their own images.

ghost use Rattle.std.specs.Prelude.{◌≡◌, Ok, IfOk, IfSome, OnOk, count_by, nat_eq, not};
ghost use Rattle.desk_follow.specs.RuleImages.{images_of};
ghost use Rattle.desk_format.specs.Classes.{Class, read_class};
ghost use Rattle.desk_rewrite.specs.Counts.{is_renamed};
ghost use Rattle.desk_rewrite.specs.Unchanged.{AreOwn, IsItself, odd_if_unchanged};

use crate::counts::odd_uses;
use crate::images::image_by_role;
use crate::printing::bytes_of;
use crate::table::{text_at, text_role_of};
use desk_base::{Memory, Used};
use desk_class::{ClassView, TextAnswers};
use desk_pool::Pool;
use desk_rename::NoImages;
use desk_rules::RuleSet;
use std::alloc::Global;

/// Whether the text of a use is its own image, which is noted of a text that is.
#[tactic(auto, using(crate::proofs::OwnTexts::own_noted))]
fn is_own(
    alloc: Global,
    rules: &RuleSet,
    pool: &Pool<'_>,
    noted: &mut TextAnswers,
    used: &Used,
) -> Result<bool, Memory>
    requires { AreOwn (images_of rules.now) pool.now.entries noted.old }
    ensures own { IfOk result (λ own. own ≡ not (is_renamed (images_of rules.now) pool.now.entries used.now)) }
    ensures noted { OnOk result (AreOwn (images_of rules.now) pool.now.entries noted.new) }
{
    let Some(text_role) = text_role_of(used.role) else {
        return Ok(true);
    };
    if noted.get(used.index, used.role) == Some(true) {
        return Ok(true);
    }
    let images = NoImages::new(rules);
    let text = text_at(pool, used.index);
    if image_by_role(alloc, rules, &images, text_role, text)?.is_some() {
        return Ok(false);
    }
    noted.keep(used.index, used.role, true);
    Ok(true)
}

/// Whether the text of each use is its own image. Each text is looked at once in a role, up to the first with another image.
fn are_own(alloc: Global, rules: &RuleSet, pool: &Pool<'_>, uses: &[Used]) -> Result<bool, Memory>
    ensures { IfOk result (λ own. own ≡ nat_eq (count_by (is_renamed (images_of rules.now) pool.now.entries) uses.now) 0) }
{
    let mut noted = TextAnswers::none(alloc, pool.count())?;
    for used in uses {
        if !is_own(alloc, rules, pool, &mut noted, used)? {
            return Ok(false);
        }
    }
    Ok(true)
}

/// How many uses of a class have an odd text, where no use has an image that is another text: such a class is its own image. None
/// exactly where some use has. The only error is want of memory.
pub fn odd_if_unchanged(
    alloc: Global,
    rules: &RuleSet,
    view: &ClassView<'_>,
) -> Result<Option<u32>, Memory>
    ensures odd { IfOk result (λ odd. (c : Class) → read_class view.now ≡ Ok c → odd ≡ odd_if_unchanged (images_of rules.now) c) }
    ensures itself { IfOk result (λ odd. (c : Class) → read_class view.now ≡ Ok c → IfSome odd (λ _. IsItself (images_of rules.now) view.now c)) }
{
    // `bytes_of` says that the class is short, so that its uses are few.
    let _bytes = bytes_of(view);
    if !are_own(alloc, rules, view.pool(), view.uses())? {
        return Ok(None);
    }
    let odd = odd_uses(alloc, view.pool(), view.uses())?;
    Ok(Some(odd))
}

//! Two classes.

ghost use Rattle.std.specs.Prelude.{◌≡◌, ◌↔◌, None, IsTrue, IfOk, take, drop};
ghost use Rattle.desk_format.specs.Classes.{class_fault};
ghost use Rattle.desk_format.specs.Laws.{IsBytes};
ghost use Rattle.desk_class.specs.Parts.{body_at_in};
ghost use Rattle.desk_compare.specs.Free.{free_in};

use crate::bodies::{PoolPair, same_body};
use desk_base::Memory;
use desk_class::ClassView;

/// How many bytes the magic and the versions of a class take, which stand before the constant pool (JVMS 4.1).
const HEADER_SIZE: usize = 8;

/// What stands around the constant pool of a class: the magic with the versions, and the body.
fn around_pool<'a>(view: &ClassView<'a>) -> (&'a [u8], &'a [u8])
    ensures each { IsBytes view.now }
    ensures sound { class_fault view.now ≡ None }
    ensures header { result.0.now ≡ take 8 view.now }
    ensures body { result.1.now ≡ drop (body_at_in view.now) view.now }
{
    let bytes = view.bytes();
    let (header, _) = bytes.split_at(HEADER_SIZE);
    let (_, body) = bytes.split_at(view.body_at() as usize);
    (header, body)
}

/// Whether two classes are the same but for their constant pools, where each index leads to the same value: the same versions,
/// and bodies that differ in nothing but indices. Both bodies are walked along once. The only error is want of memory.
pub(crate) fn same_class(left: &ClassView<'_>, right: &ClassView<'_>) -> Result<bool, Memory>
    ensures { IfOk result (λ same. IsTrue same ↔ (free_in left.now ≡ free_in right.now)) }
{
    let (left_header, left_body) = around_pool(left);
    let (right_header, right_body) = around_pool(right);
    if left_header != right_header {
        return Ok(false);
    }
    let pools = PoolPair {
        left: left.pool(),
        right: right.pool(),
    };
    same_body(left_body, right_body, &pools)
}

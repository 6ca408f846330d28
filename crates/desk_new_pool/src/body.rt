//! The bytes of a body with its new indices.

ghost use Rattle.std.specs.Prelude.{◌≡◌, ◌+◌, ◌<◌, ◌≤◌, ◌^◌, ◌++◌, ℕ, length, map, OnOk};
ghost use Rattle.desk_base.specs.declared.kinds.Used.{Used};
ghost use Rattle.desk_format.specs.Exchange.{patch};
ghost use Rattle.desk_new_pool.specs.Printing.{Stands};

use crate::printing::append_two;
use desk_base::{Memory, Text, Used};

/// Appends the bytes of a body, which begins at an offset, with a new index at each use. The bytes between two indices that
/// change are copied in one piece. The only error is want of memory.
pub fn append_body(
    out: &mut Text,
    from: u32,
    body: &[u8],
    uses: &[Used],
    indices: &[u16],
) -> Result<(), Memory>
    requires limit { from + length body.now < 2 ^ 32 }
    requires stands { Stands from body.now uses.now }
    requires indices { length indices.now ≡ length uses.now }
    ensures { (g : Used → ℕ) → indices.now ≡ map g uses.now → OnOk result (out.new ≡ out.old ++ patch g from uses.now body.now) }
{
    let mut at = from;
    let mut left = body;
    for (place, used) in uses.iter().enumerate() {
        let index = indices[place];
        if index == used.index {
            continue;
        }
        let (front, behind) = left.split_at((used.at - at) as usize);
        out.append(front)?;
        append_two(out, index)?;
        let (_, rest) = behind.split_at(2);
        left = rest;
        at = used.at + 2;
    }
    out.append(left)
}

//! Laws of the definitions. Each function runs to no effect: what it says is its contract.

ghost use Rattle.desk_format.specs.Laws.{NestedAttributes, PrintedBodies, RenamedBodies};

/// A body that was read by any layout prints to its bytes, each index at its place and of its kind.
pub fn printed_bodies()
    ensures { PrintedBodies }
{}

/// A body that was read by any layout, patched at its uses and moved, reads by the same layout over
/// a pool that suits into the tree with the new indices, and its resolved tree is the renamed one.
pub fn renamed_bodies()
    ensures { RenamedBodies }
{}

/// The attributes in a Code and in a record component are those of their place in the one table.
pub fn nested_attributes()
    ensures { NestedAttributes }
{}

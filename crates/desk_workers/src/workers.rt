//! What does the items of a batch.

ghost use Rattle.std.specs.Prelude.{◌≡◌, ◌≤◌, ◌<◌};

/// So many workers, and the gate that each item passes.
#[derive(Drop)]
pub struct Workers<'r, R, G> {
    /// What starts their threads.
    pub rt: &'r R,
    /// What is told of each item.
    pub gate: &'r G,
    /// How many they are, from 1 to 64.
    pub count: u32,
    pub ghost some: { 0 < count },
    pub ghost most: { count ≤ 64 },
}

//! What the threads of a run are started by.

ghost use Rattle.desk_words.specs.Roots.{AreWorkers};

use desk_workers::Workers;

/// What starts the threads of workers, and the gate that each item passes.
#[derive(Drop)]
pub(crate) struct Threading<'r, R, G> {
    /// What starts threads.
    pub(crate) rt: &'r R,
    /// What is told of each item.
    pub(crate) gate: &'r G,
}

impl<'r, R, G> Threading<'r, R, G> {
    /// So many workers.
    pub(crate) fn workers(&self, count: u32) -> Workers<'r, R, G>
        requires { AreWorkers count }
    {
        Workers {
            rt: self.rt,
            gate: self.gate,
            count,
        }
    }
}

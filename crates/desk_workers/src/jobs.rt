//! What is done with each item of a batch.

ghost use Rattle.std.specs.Prelude.{◌≡◌, ◌≤◌, ℕ, IfOk};
ghost use Rattle.desk_workers.specs.Cuts.{most_weight};

use desk_base::Memory;

/// What is done with an item: a value, which depends on the job and the item alone, and a weight.
pub trait Job {
    /// What a batch has many of, as a file.
    type Item: Sync;

    /// What is made of an item, as an image.
    type Out: Send + Drop;

    /// The value of an item.
    ghost value: { Self → Self.Item → Self.Out };

    /// The weight of an item.
    ghost weighs: { Self → Self.Item → ℕ };

    /// How much an item weighs, by which a batch is cut into runs: at most 67,108,864.
    fn weight(&self, item: &Self::Item) -> u64
        ensures weight { result ≡ weighs self.now item.now }
        ensures light { result ≤ most_weight };

    /// Does an item: its value. The only error is want of memory.
    fn run(&self, item: &Self::Item) -> Result<Self::Out, Memory>
        ensures { IfOk result (λ out. out ≡ value self.now item.now) };
}

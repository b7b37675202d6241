// What a block runs.
ghost use Rattle.std.specs.Prelude.{ℕ};

/// What a block runs, once (dispatch_async(3)).
pub trait Job {
    // the value is one that the job may give at the input
    ghost gives: { Self → ℕ → ℕ → Type 0 };

    /// Runs the job, which is then spent, and gives its value. A block's job has the input 0.
    fn run(self, input: u64) -> u64
        ensures { gives self input result };

    /// Returns whether the job may take a microsecond or more. A job whose length is unknown counts as long. No promise rests on the answer
    /// (this project's own rule).
    fn is_long(&self) -> bool {
        true
    }
}

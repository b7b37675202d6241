// What a sender hands in.
ghost use Rattle.std.specs.Prelude.{ℕ};

/// A job from outside: what a thread that is no worker hands in to be run once (dispatch_async(3)).
pub trait Sent {
    // the value is one that the job may give
    ghost gives: { Self → ℕ → Type 0 };

    /// Runs the job, which is then spent, and gives its value.
    fn call(self) -> u64
        ensures { gives self result };
}

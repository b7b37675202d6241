// Jobs of blocks whose work comes from outside.
ghost use Rattle.std.specs.Prelude.{◌≡◌, ℕ};

use gcd_front::Sent;
use gcd_jobs::{Admits, Job};

/// The job of a block whose work comes from outside, if it has any: nothing of its own, or what a caller sent (dispatch_async(3)).
#[derive(Drop)]
pub enum Called<X> {
    /// It does nothing, and gives 0: so does a block of the plan that is not of its intake.
    Nothing,
    /// It runs what a caller sent, and gives what that may give.
    Sent(X),
}

impl<X: Sent> Job for Called<X> {
    ghost use Rattle.gcd_workers.specs.CalledRuns.{called_gives};

    ghost gives = { called_gives X.gives };

    fn run(self, _input: u64) -> u64 {
        match self {
            Called::Nothing => 0,
            Called::Sent(job) => job.call(),
        }
    }

    fn is_long(&self) -> bool {
        match self {
            Called::Nothing => false,
            Called::Sent(_) => true,
        }
    }
}

impl<X: Sent> Admits<X> for Called<X> {
    fn admit(sent: X) -> Called<X> {
        Called::Sent(sent)
    }
}

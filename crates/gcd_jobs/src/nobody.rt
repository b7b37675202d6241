// Runs without outside callers: what a front without senders is of.
ghost use Rattle.std.specs.Prelude.{◌≡◌, ℕ, Option, Some, None};

use crate::{Admits, FileJob, Job};
use gcd_front::Sent;

/// What a front is of that has no senders, where a run has no outside callers. Only a mouth can send one, so none is sent; it would do
/// nothing, and give 0.
#[derive(Clone, Copy)]
pub struct Nobody;

impl Sent for Nobody {
    ghost gives = { λ nobody value. value ≡ 0 };

    fn call(self) -> u64 {
        0
    }
}

// A job, or none, which does nothing and gives 0: so jobs of any type can be those of a run without outside callers.
impl<J: Job> Job for Option<J> {
    ghost use Rattle.gcd_jobs.specs.Jobs.{gives_or_zero};

    ghost gives = { gives_or_zero J.gives };

    fn run(self, input: u64) -> u64 {
        match self {
            Some(job) => job.run(input),
            None => 0,
        }
    }

    fn is_long(&self) -> bool {
        match self {
            Some(job) => job.is_long(),
            None => false,
        }
    }
}

impl<J: Job> Admits<Nobody> for Option<J> {
    fn admit(_sent: Nobody) -> Option<J> {
        None
    }
}

impl Admits<Nobody> for FileJob<'_> {
    fn admit(_sent: Nobody) -> Self {
        FileJob::Nothing
    }
}

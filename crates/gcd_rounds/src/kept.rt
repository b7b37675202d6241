// The Ends of blocks that are kept back until their jobs have run.
ghost use Rattle.std.specs.Prelude.{◌≡◌, ◌<◌, ℕ, IfOk, OnOk, slice_index_or, vec_len};
ghost use Rattle.gcd_event.specs.declared.event.Event.TheVariants.{End};
ghost use Rattle.gcd_rounds.specs.Kept.{IsDone, IsThere, WasKept};

use gcd_event::Event;
use gcd_jobs::Job;
use gcd_plan::Blk;
use std::alloc::AllocError;
use std::thread::{Threads, map_vec};

// The End of a block that the worker holds.
#[derive(Clone, Copy)]
pub(crate) struct Ending {
    pub(crate) worker: u8,
    pub(crate) blk: Blk,
}

// An End that is kept back, and the job of its block.
#[derive(Drop)]
pub(crate) struct Kept<J> {
    pub(crate) ending: Ending,
    pub(crate) job: J,
}

// An End, and the value that the job of its block gave.
#[derive(Clone, Copy)]
pub(crate) struct Done {
    pub(crate) ending: Ending,
    pub(crate) value: u64,
}

impl Ending {
    // The event.
    pub(crate) fn event(self) -> Event
        ensures { result ≡ End self.worker self.blk }
    {
        Event::End {
            worker: self.worker,
            blk: self.blk,
        }
    }
}

impl<J: Job> Kept<J> {
    // Runs the job.
    fn run(self) -> Done
        ensures { IsDone J.gives self result }
    {
        Done {
            ending: self.ending,
            value: self.job.run(0),
        }
    }
}

// Keeps an End back, with the job of its block, which is there.
pub(crate) fn keep<J: Drop>(
    jobs: &mut Vec<Option<J>>,
    ending: Ending,
    kept: &mut Vec<Kept<J>>,
) -> Result<(), AllocError>
    requires { IsThere jobs.old.items ending.blk.0 }
    ensures { OnOk result (WasKept jobs.old.items jobs.new.items ending kept.old.items kept.new.items) }
{
    let job = jobs[ending.blk.0 as usize].take().unwrap();
    kept.push(Kept { ending, job })?;
    Ok(())
}

// Runs the jobs, each in a thread of its own where one can be made.
pub(crate) fn run_jobs<R: Threads + Sync, J: Job + Drop + Send>(
    rt: &R,
    kept: Vec<Kept<J>>,
) -> Result<Vec<Done>, AllocError>
    ensures count { IfOk result (λ dones. vec_len dones ≡ vec_len kept) }
    ensures each { IfOk result (λ dones. (i : ℕ) (k : _) (d : _) → i < vec_len kept
        → IsDone J.gives (slice_index_or kept.items i k) (slice_index_or dones.items i d)) }
{
    map_vec(rt, kept, &|k: Kept<J>| k.run())
}

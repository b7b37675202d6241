// The jobs of a run beside senders.
ghost use Rattle.std.specs.Prelude.{◌≡◌, IfOk, length};

use gcd_front::Sent;
use gcd_jobs::{Admits, FileJob, Job};
use gcd_plan::{Blk, Plan};
use std::alloc::{AllocError, Global};

/// What a sender hands in: a job that gives this number.
#[derive(Clone, Copy)]
pub struct Told(pub u64);

impl Sent for Told {
    ghost gives = { λ told value. value ≡ told.0 };

    fn call(self) -> u64 {
        self.0
    }
}

/// What runs in a block of a run beside senders: the block's work, or what a sender handed in.
#[derive(Clone, Copy)]
pub enum FrontJob<'a> {
    /// The work of a block of the script.
    File(FileJob<'a>),
    /// What a sender handed in for a block of the intake.
    Told(Told),
}

impl Job for FrontJob<'_> {
    ghost use Rattle.gcd_commands.specs.Senders.{front_value};

    ghost gives = { λ job input value. value ≡ front_value job };

    fn run(self, input: u64) -> u64 {
        match self {
            FrontJob::File(job) => job.run(input),
            FrontJob::Told(told) => told.call(),
        }
    }
}

impl Admits<Told> for FrontJob<'_> {
    fn admit(sent: Told) -> Self {
        FrontJob::Told(sent)
    }
}

/// Makes the jobs of the blocks' works over the files, by number. Those of the intake's blocks are never run. Returns `Err` if memory runs
/// out.
pub fn front_jobs<'a>(
    alloc: Global,
    plan: &Plan,
    files: &'a [Vec<u8>],
) -> Result<Vec<FrontJob<'a>>, AllocError>
    ensures { IfOk result (λ jobs. length jobs.items ≡ length plan.now.blocks) }
{
    let mut jobs = Vec::with_capacity(alloc, plan.blocks() as usize)?;
    for number in 0..plan.blocks() {
        let job = FileJob::new(files, plan.work(Blk(number)));
        jobs.push(FrontJob::File(job))?;
    }
    Ok(jobs)
}

// Jobs by a function of the block.
ghost use Rattle.std.specs.Prelude.{◌≡◌, IfOk, length};
ghost use Rattle.gcd_workers.specs.JobsOf.{AreMadeBy};

use gcd_plan::{Blk, Plan};
use std::alloc::{AllocError, Global};

// Makes a list of one job for each block of the plan, by number. `job_of` makes each job from its block, and is called once for each.
// Returns `Err` if memory runs out, and the jobs made so far are dropped.
pub fn jobs_of<J: Drop, F: Fn(Blk) -> J>(
    alloc: Global,
    plan: &Plan,
    job_of: F,
) -> Result<Vec<J>, AllocError>
    requires { F.IsAlwaysCallable job_of }
    ensures count { IfOk result (λ jobs. length jobs.items ≡ length plan.now.blocks) }
    ensures jobs { IfOk result (λ jobs. AreMadeBy (λ b job. F.post job_of b job) jobs.items) }
{
    let mut jobs = Vec::with_capacity(alloc, plan.blocks() as usize)?;
    for number in 0..plan.blocks() {
        jobs.push(job_of(Blk(number)))?;
    }
    Ok(jobs)
}

// The works of a plan over its files, as jobs.
ghost use Rattle.std.specs.Prelude.{◌≡◌, IfOk, length, map, unwrap_or};
ghost use Rattle.gcd_jobs.specs.Contents.{contents};
ghost use Rattle.gcd_workers.specs.Works.{AreJobs};

use crate::outcome::Outcome;
use crate::ran::Ran;
use gcd_jobs::FileJob;
use gcd_plan::{Blk, Plan};
use std::alloc::{AllocError, Global};

/// Makes the job of each block's work over the contents of the plan's files, by number. A block without work gives 0. Returns `Err` if
/// memory runs out.
pub fn file_jobs<'a>(
    alloc: Global,
    plan: &Plan,
    files: &'a [Vec<u8>],
) -> Result<Vec<FileJob<'a>>, AllocError>
    ensures { IfOk result (λ jobs. AreJobs plan.now (contents files.now) (length plan.now.blocks) jobs.items) }
{
    let mut jobs = Vec::with_capacity(alloc, plan.blocks() as usize)?;
    for number in 0..plan.blocks() {
        jobs.push(FileJob::new(files, plan.work(Blk(number))))?;
    }
    Ok(jobs)
}

// Returns a block's value, or 0 if it has none.
fn or_0(value: Option<u64>) -> u64
    ensures { result ≡ unwrap_or value 0 }
{
    value.unwrap_or(0)
}

// Turns the result of these jobs into that of a run over files.
pub fn outcome_of(alloc: Global, ran: Ran) -> Result<Outcome, AllocError>
    ensures journal { IfOk result (λ o. o.journal ≡ ran.journal) }
    ensures values { IfOk result (λ o. o.values.items ≡ map (λ v. unwrap_or v 0) ran.values.items) }
    ensures state { IfOk result (λ o. o.state ≡ ran.state) }
    ensures machine { IfOk result (λ o. o.machine ≡ ran.machine) }
{
    let Ran {
        journal,
        values,
        state,
        machine,
    } = ran;
    Ok(Outcome {
        journal,
        values: values.into_iter().map(or_0).collect(alloc)?,
        state,
        machine,
    })
}

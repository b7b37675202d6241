// What the blocks of a strip give, one after the other.
ghost use Rattle.std.specs.Prelude.{◌≡◌, ◌+◌, ◌-◌, ◌≤◌, ◌++◌, IfOk, IfErr, length, vec_capacity};
ghost use Rattle.gcd_jobs.specs.Contents.{contents};
ghost use Rattle.gcd_jobs.specs.StripValues.{strip_values, values_from};

use crate::file_job::FileJob;
use crate::job::Job;
use gcd_plan::{Blk, Plan};
use std::alloc::AllocError;

// The values of the blocks from the first up to the end stand behind what the list has, which has room for them.
fn put_values(plan: &Plan, files: &[Vec<u8>], first: u32, end: u32, into: &mut Vec<u64>)
    requires order { first ≤ end }
    requires blocks { end ≤ length plan.now.blocks }
    requires room { length into.old.items + (end - first) ≤ vec_capacity into.old }
    ensures { into.new.items ≡ into.old.items ++ values_from plan.now (contents files.now) first (end - first) }
{
    for b in first..end {
        into.push_reserved(FileJob::new(files, plan.work(Blk(b))).run(0));
    }
}

/// Runs the works of the strip's blocks over the files, by number, on the thread of the caller, one after the other, and puts their
/// values behind what the list has, in order of index: what any number of workers find by `apply` (dispatch_apply(3)). A number
/// that no strip has gives no values. Where memory runs out it answers an `Err`, and the list is as before.
pub fn one_thread(
    plan: &Plan,
    files: &[Vec<u8>],
    a: u32,
    into: &mut Vec<u64>,
) -> Result<(), AllocError>
    ensures values { IfOk result (λ done. into.new.items ≡ into.old.items ++ strip_values plan.now (contents files.now) a) }
    ensures as_before { IfErr result (λ fault. into.new.items ≡ into.old.items) }
{
    let Some(strip) = plan.strips().get(a as usize) else {
        return Ok(());
    };
    into.reserve(strip.count as usize)?;
    let end = plan.blocks().min(strip.first.saturating_add(strip.count));
    put_values(plan, files, strip.first, end, into);
    Ok(())
}

// How many waits each semaphore of a plan may see.
ghost use Rattle.std.specs.Prelude.{◌≡◌, ◌+◌, ◌<◌, ◌≤◌, Bool, false, cond, IfOk, length, slice_index, count_by};
ghost use Rattle.std.specs.Option.{option_map_or};
ghost use Rattle.std.proofs.Common.{◌==◌, ℕ};
ghost use Rattle.gcd_plan.specs.Limits.{max_acts, max_objects};
ghost use Rattle.gcd_plan.specs.Validity.{waits_on};
ghost use Rattle.gcd_sema.specs.Rooms.{AreRooms, Rise};

use crate::awaited::has_awaited;
use gcd_plan::{Act, Blk, Obj, Plan, Run};
use std::alloc::{AllocError, Global};

// The semaphore for which the act waits, if it waits for one.
fn awaited(act: Act) -> Option<Obj>
    ensures { (s : ℕ) → waits_on s act ≡ option_map_or (λ o. o.0 == s) result false }
{
    match act {
        Act::Async(_, _) => None,
        Act::Barrier(_, _) => None,
        Act::Sync(_, _) => None,
        Act::BarrierSync(_, _) => None,
        Act::GroupAsync(_, _, _) => None,
        Act::Notify(_, _, _) => None,
        Act::Enter(_) => None,
        Act::Leave(_) => None,
        Act::GroupWait(_) => None,
        Act::GroupWaitFor(_, _) => None,
        Act::Signal(_) => None,
        Act::Wait(s) => Some(s),
        Act::WaitFor(s, _) => Some(s),
        Act::Suspend(_) => None,
        Act::Resume(_) => None,
        Act::Activate(_) => None,
        Act::Target(_, _) => None,
        Act::Merge(_, _) => None,
        Act::Cancel(_) => None,
        Act::Retain(_) => None,
        Act::Release(_) => None,
        Act::Apply(_, _) => None,
        Act::CancelBlock(_) => None,
        Act::WaitBlock(_) => None,
        Act::NotifyBlock(_, _, _) => None,
    }
}

// One act more is counted at the semaphore for which it waits.
fn count_wait(counts: &mut Vec<u32>, act: Act)
    requires room { (s : ℕ) → slice_index counts.old.items s < max_acts }
    ensures as_many { length counts.new.items ≡ length counts.old.items }
    ensures counted { (s : ℕ) → s < length counts.old.items → slice_index counts.new.items s ≡ slice_index counts.old.items s + cond (waits_on s act) 1 0 }
{
    let Some(s) = awaited(act) else {
        return;
    };
    let at = s.0 as usize;
    if at < counts.len() {
        counts[at] += 1;
    }
}

// These acts are counted, each at the semaphore for which it waits.
fn count_waits(counts: &mut Vec<u32>, acts: &[Act])
    requires room { (s : ℕ) → slice_index counts.old.items s + length acts.now ≤ max_acts }
    ensures as_many { length counts.new.items ≡ length counts.old.items }
    ensures counted { (s : ℕ) → s < length counts.old.items → slice_index counts.new.items s ≡ slice_index counts.old.items s + count_by (waits_on s) acts.now }
{
    for act in acts {
        count_wait(counts, *act);
    }
}

/// How many acts of the plan wait for each object. It looks at each act once, and at none where no act can wait.
pub fn rooms(alloc: Global, plan: &Plan) -> Result<Vec<u32>, AllocError>
    ensures { IfOk result (λ v. AreRooms plan.now v.items) }
{
    let mut counts = vec![in alloc; 0; plan.objects() as usize]?;
    if !has_awaited(plan) {
        return Ok(counts);
    }
    for b in 0..plan.blocks() {
        count_waits(&mut counts, plan.acts(Run::Block(Blk(b))));
    }
    Ok(counts)
}

/// Where the cells of each begin, one after the other, and where those of the last one end.
pub fn bases(alloc: Global, rooms: &[u32]) -> Result<Vec<u32>, AllocError>
    requires few { length rooms.now ≤ max_objects }
    requires low { (s : ℕ) → slice_index rooms.now s ≤ max_acts }
    ensures { IfOk result (λ v. Rise rooms.now v.items (length rooms.now)) }
{
    let mut bases = Vec::with_capacity(alloc, rooms.len() + 1)?;
    let mut base = 0;
    bases.push(base)?;
    for room in rooms {
        base += *room;
        bases.push(base)?;
    }
    Ok(bases)
}

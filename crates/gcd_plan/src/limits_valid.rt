// Whether the lists keep the limits.
ghost use Rattle.std.specs.Prelude.{◌≡◌, ◌≤◌, ◌<◌, ◌+◌, sum_by, length, MatchOption, IsTrue, IfOk, IfErr, ◌↔◌};
ghost use Rattle.gcd_plan.specs.Breaks.{Breaks};
ghost use Rattle.gcd_plan.specs.Limits.{max_acts};
ghost use Rattle.gcd_plan.specs.PlanView.{view_of};
ghost use Rattle.gcd_plan.specs.Validity.{act_count};
ghost use Rattle.gcd_plan.specs.WithinLimits.{IsWithinLimits};

use crate::limits::{MAX_ACTS, MAX_BLOCKS, MAX_FILES, MAX_OBJECTS, MAX_STRIPS};
use crate::parts::{BlkPart, ObjPart, Parts};
use crate::parts_fault::PartsFault;

// How many acts the blocks have together; None exactly where that is above `most`.
#[tactic(auto, using(std::proofs::lemmas::List::Sums::sum_by_more_le))]
fn block_acts(blocks: &[BlkPart], most: usize) -> Option<usize>
    ensures { MatchOption result (most < sum_by (λ b. length b.acts.items) blocks.now)
        (λ n. (n ≡ sum_by (λ b. length b.acts.items) blocks.now) × (n ≤ most)) }
{
    let mut total = 0;
    for b in blocks {
        if b.acts.len() > most - total {
            return None;
        }
        total += b.acts.len();
    }
    Some(total)
}

// How many acts the handlers have together; None exactly where that is above `most`.
#[tactic(auto, using(std::proofs::lemmas::List::Sums::sum_by_more_le))]
fn handler_acts(objects: &[ObjPart], most: usize) -> Option<usize>
    ensures { MatchOption result (most < sum_by (λ o. length o.handler.items) objects.now)
        (λ n. (n ≡ sum_by (λ o. length o.handler.items) objects.now) × (n ≤ most)) }
{
    let mut total = 0;
    for o in objects {
        if o.handler.len() > most - total {
            return None;
        }
        total += o.handler.len();
    }
    Some(total)
}

#[tactic(auto, using(crate::proofs::Valid::acts_seen))]
fn has_few_acts(parts: &Parts) -> bool
    ensures { IsTrue result ↔ (act_count (view_of parts.now) ≤ max_acts) }
{
    match block_acts(&parts.blocks, MAX_ACTS as usize) {
        None => false,
        Some(n) => handler_acts(&parts.objects, MAX_ACTS as usize - n).is_some(),
    }
}

/// Ok exactly where the lists keep the limits.
pub fn check_limits(parts: &Parts) -> Result<(), PartsFault>
    ensures fits { IfOk result (λ _. IsWithinLimits parts.now) }
    ensures broken { IfErr result (Breaks (view_of parts.now)) }
{
    if parts.objects.len() > MAX_OBJECTS as usize {
        return Err(PartsFault::TooManyObjects);
    }
    if parts.blocks.len() > MAX_BLOCKS as usize {
        return Err(PartsFault::TooManyBlocks);
    }
    if parts.files.len() > MAX_FILES as usize {
        return Err(PartsFault::TooManyFiles);
    }
    if parts.strips.len() > MAX_STRIPS as usize {
        return Err(PartsFault::TooManyStrips);
    }
    if !has_few_acts(parts) {
        return Err(PartsFault::TooManyActs);
    }
    Ok(())
}

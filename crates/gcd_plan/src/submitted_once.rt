// Whether each block is submitted at most once.
ghost use Rattle.std.specs.Prelude.{◌≡◌, ◌==◌, ◌<◌, ◌≤◌, ℕ, length, count_by, IfOk, IfErr};
ghost use Rattle.gcd_plan.specs.Breaks.{Breaks};
ghost use Rattle.gcd_plan.specs.PlanView.{view_of};
ghost use Rattle.gcd_plan.specs.Validity.{submitted_blocks};
ghost use Rattle.gcd_plan.specs.WithinLimits.{IsWithinLimits};

use crate::numbers::Blk;
use crate::once_valid::{block_submissions, object_submissions};
use crate::parts::Parts;
use crate::parts_fault::PartsFault;

// How often the block is submitted.
#[tactic(auto, using(crate::proofs::Valid::submissions_counted, crate::proofs::Valid::acts_seen, crate::proofs::Sums::sum_by_one_more))]
fn submissions(parts: &Parts, b: Blk) -> usize
    requires { IsWithinLimits parts.now }
    ensures { result ≡ count_by (λ c. c.0 == b.0) (submitted_blocks (view_of parts.now)) }
{
    block_submissions(parts, &parts.blocks, b) + object_submissions(parts, &parts.objects, b)
}

/// Ok where each block of the parts is submitted at most once.
pub fn check_submissions(parts: &Parts) -> Result<(), PartsFault>
    requires { IsWithinLimits parts.now }
    ensures fits { IfOk result (λ _. (b : ℕ) → b < length parts.now.blocks.items → count_by (λ c. c.0 == b) (submitted_blocks (view_of parts.now)) ≤ 1) }
    ensures broken { IfErr result (Breaks (view_of parts.now)) }
{
    for b in 0..parts.blocks.len() as u32 {
        if submissions(parts, Blk(b)) > 1 {
            return Err(PartsFault::SubmittedTwice(Blk(b)));
        }
    }
    Ok(())
}

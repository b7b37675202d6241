// How often blocks are submitted, and whether targets lead to root.
ghost use Rattle.std.specs.Prelude.{◌≡◌, ◌≤◌, ◌<◌, ◌+◌, ◌==◌, string_bytes, count_by, sum_by, length, false, ◌++◌};
ghost use Rattle.std.specs.List.{list_all};
ghost use Rattle.std.specs.Option.{option_map_or, option_to_list};
ghost use Rattle.std.specs.Str.{bytes_eq};
ghost use Rattle.gcd_plan.specs.Limits.{max_acts, max_objects};
ghost use Rattle.gcd_plan.specs.PlanView.{view_of, first_target};
ghost use Rattle.gcd_plan.specs.Checked.{submits};
ghost use Rattle.gcd_plan.specs.Validity.{blocks_of, reaches_root};

use crate::act::Act;
use crate::made::is_of_strip_at;
use crate::numbers::Blk;
use crate::parts::{BlkPart, FilePart, ObjPart, Parts};

#[tactic(auto, using(crate::proofs::Submits::alone))]
fn submits(parts: &Parts, act: Act, b: Blk) -> bool
    ensures { result ≡ submits (view_of parts.now) b.0 act }
{
    if let Some(c) = act.block() {
        return c.0 == b.0;
    }
    match act.strip() {
        Some(a) => is_of_strip_at(parts, a, b),
        None => false,
    }
}

/// How many of the acts submit the block.
pub fn submissions_in(parts: &Parts, acts: &[Act], b: Blk) -> usize
    ensures count { result ≡ count_by (λ c. c.0 == b.0) (blocks_of (view_of parts.now) acts.now) }
    ensures few { result ≤ length acts.now }
{
    acts_submitting(parts, acts, b)
}

fn acts_submitting(parts: &Parts, acts: &[Act], b: Blk) -> usize
    ensures count { result ≡ count_by (submits (view_of parts.now) b.0) acts.now }
    ensures few { result ≤ length acts.now }
{
    acts.iter().filter(|act| submits(parts, **act, b)).count()
}

/// How many acts of the blocks submit the block.
#[tactic(auto, using(std::proofs::lemmas::List::Sums::sum_by_more_le))]
pub fn block_submissions(parts: &Parts, blocks: &[BlkPart], b: Blk) -> usize
    requires { sum_by (λ p. length p.acts.items) blocks.now ≤ max_acts }
    ensures count { result ≡ sum_by (λ p. count_by (λ c. c.0 == b.0) (blocks_of (view_of parts.now) p.acts.items)) blocks.now }
    ensures few { result ≤ max_acts }
{
    let mut total = 0;
    for p in blocks {
        total += submissions_in(parts, &p.acts, b);
    }
    total
}

fn cancels(cancel: Option<Blk>, b: Blk) -> usize
    ensures count { result ≡ count_by (λ c. c.0 == b.0) (option_to_list cancel) }
    ensures few { result ≤ 1 }
{
    match cancel {
        Some(c) => usize::from(c.0 == b.0),
        None => 0,
    }
}

/// How often the object submits the block: by its handler's acts, and as its cancellation block.
pub fn submissions_of(parts: &Parts, o: &ObjPart, b: Blk) -> usize
    requires { length o.now.handler.items < max_acts + max_objects }
    ensures count { result ≡ count_by (λ c. c.0 == b.0) (blocks_of (view_of parts.now) o.now.handler.items ++ option_to_list o.now.cancel) }
    ensures few { result ≤ length o.now.handler.items + 1 }
{
    submissions_in(parts, &o.handler, b) + cancels(o.cancel, b)
}

/// How often the objects submit the block.
#[tactic(auto, using(std::proofs::lemmas::List::Sums::sum_by_more_le))]
pub fn object_submissions(parts: &Parts, objects: &[ObjPart], b: Blk) -> usize
    requires { sum_by (λ o. length o.handler.items + 1) objects.now ≤ max_acts + max_objects }
    ensures count { result ≡ sum_by (λ o. count_by (λ c. c.0 == b.0) (blocks_of (view_of parts.now) o.handler.items ++ option_to_list o.cancel)) objects.now }
    ensures few { result ≤ max_acts + max_objects }
{
    let mut total = 0;
    for o in objects {
        total += submissions_of(parts, o, b);
    }
    total
}

/// Whether following the first targets from the object ends at root.
#[tactic(auto, using(crate::proofs::Walks::walk_on))]
pub fn reaches_root(parts: &Parts, o: u32) -> bool
    ensures { result ≡ reaches_root (view_of parts.now) o }
{
    let mut at = o;
    for _ in 0..parts.objects.len() {
        if at == 0 {
            return true;
        }
        at = target_of(parts, at);
    }
    false
}

fn target_of(parts: &Parts, o: u32) -> u32
    ensures { result ≡ first_target (view_of parts.now) o }
{
    match parts.objects.get(o as usize) {
        Some(object) => object.target.0,
        None => 0,
    }
}

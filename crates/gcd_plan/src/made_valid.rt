// Whether the intake and the strips fit, and the blocks are as these make them.
ghost use Rattle.std.specs.Prelude.{◌≡◌, ◌≤◌, ◌<◌, ◌+◌, ℕ, ◌&&◌, nat_le, true, false, Some, length, slice_get, count_by, IfOk, IfErr, IfSome};
ghost use Rattle.gcd_plan.specs.Breaks.{Breaks, Has};
ghost use Rattle.gcd_plan.specs.Checked.{AllHave};
ghost use Rattle.gcd_plan.specs.Limits.{max_intake};
ghost use Rattle.gcd_plan.specs.Made.{Span, is_within, spans, strip_span, intake_span, made_by_intake, made_by_strip};
ghost use Rattle.gcd_plan.specs.PlanView.{view_of, intake_view, strip_view};
ghost use Rattle.gcd_plan.specs.Validity.{IsIntake, IsStrip, HasBlocks, is_among_blocks, is_strip, is_strip_how};
ghost use Rattle.gcd_plan.specs.WithinLimits.{IsWithinLimits};

use crate::kinds_valid::is_queue;
use crate::limits::{MAX_FILE_BYTES, MAX_INTAKE};
use crate::made::is_made_twice;
use crate::made_names::{is_intake_block, is_strip_block};
use crate::numbers::{Blk, Obj};
use crate::parts::{Parts, StripPart};
use crate::parts_fault::PartsFault;
use crate::parts_valid::{block_at, strip_at};
use crate::work::How;

fn is_among_blocks(parts: &Parts, first: u32, count: u32) -> bool
    requires { IsWithinLimits parts.now }
    ensures { result ≡ is_among_blocks (view_of parts.now) (record { first = first; count = count }) }
{
    1 <= first && u64::from(first) + u64::from(count) <= parts.blocks.len() as u64
}

fn is_intake_count(count: u32) -> bool
    ensures { result ≡ (nat_le 1 count && nat_le count max_intake) }
{
    1 <= count && count <= MAX_INTAKE
}

fn check_intake_blocks(parts: &Parts, queue: Obj, first: u32, count: u32) -> Result<(), PartsFault>
    requires limits { IsWithinLimits parts.now }
    requires stands { parts.now.intake ≡ Some (queue, first, count) }
    requires among { is_among_blocks (view_of parts.now) (record { first = first; count = count }) ≡ true }
    ensures fits { IfOk result (λ _. HasBlocks (view_of parts.now) (record { first = first; count = count }) (made_by_intake (intake_view (queue, first, count)))) }
    ensures broken { IfErr result (Breaks (view_of parts.now)) }
{
    for k in 0..count {
        let b = Blk(first + k);
        if !is_intake_block(block_at(parts, b), k + 1) {
            return Err(PartsFault::IntakeBlockUnfit(b));
        }
    }
    Ok(())
}

fn check_intake_parts(parts: &Parts, queue: Obj, first: u32, count: u32) -> Result<(), PartsFault>
    requires limits { IsWithinLimits parts.now }
    requires stands { parts.now.intake ≡ Some (queue, first, count) }
    ensures fits { IfOk result (λ _. IsIntake (view_of parts.now) (intake_view (queue, first, count))) }
    ensures broken { IfErr result (Breaks (view_of parts.now)) }
{
    if !is_queue(parts, queue) {
        return Err(PartsFault::IntakeOnNoQueue);
    }
    if !is_intake_count(count) {
        return Err(PartsFault::IntakeCountOutOfRange);
    }
    if !is_among_blocks(parts, first, count) {
        return Err(PartsFault::IntakeBlocksMissing);
    }
    check_intake_blocks(parts, queue, first, count)
}

/// Ok where the intake fits, and its blocks are as it makes them; so it is where there is none.
pub fn check_intake(parts: &Parts) -> Result<(), PartsFault>
    requires { IsWithinLimits parts.now }
    ensures fits { IfOk result (λ _. IfSome (view_of parts.now).intake (IsIntake (view_of parts.now))) }
    ensures broken { IfErr result (Breaks (view_of parts.now)) }
{
    match parts.intake {
        Some((queue, first, count)) => check_intake_parts(parts, queue, first, count),
        None => Ok(()),
    }
}

fn is_strip_how(how: How) -> bool
    ensures { result ≡ is_strip_how how }
{
    match how {
        How::Bytes | How::Lines | How::Words | How::Sum => true,
        How::Count(_) => false,
    }
}

fn is_strip(parts: &Parts, s: &StripPart) -> bool
    ensures { result ≡ is_strip (view_of parts.now) (strip_view s.now) }
{
    if !is_strip_how(s.how) {
        return false;
    }
    (s.file as usize) < parts.files.len() && 1 <= s.len && s.len <= MAX_FILE_BYTES
}

fn check_strip_blocks(parts: &Parts, a: u32, s: &StripPart) -> Result<(), PartsFault>
    requires limits { IsWithinLimits parts.now }
    requires stands { slice_get (view_of parts.now).strips a ≡ Some (strip_view s.now) }
    requires among { is_among_blocks (view_of parts.now) (strip_span (strip_view s.now)) ≡ true }
    ensures fits { IfOk result (λ _. HasBlocks (view_of parts.now) (strip_span (strip_view s.now)) (made_by_strip (strip_view s.now))) }
    ensures broken { IfErr result (Breaks (view_of parts.now)) }
{
    for place in 0..s.count {
        let b = Blk(s.first + place);
        if !is_strip_block(block_at(parts, b), s, place) {
            return Err(PartsFault::StripBlockUnfit(a, b));
        }
    }
    Ok(())
}

fn check_strip(parts: &Parts, a: u32) -> Result<(), PartsFault>
    requires limits { IsWithinLimits parts.now }
    requires within { a < length parts.now.strips.items }
    ensures fits { IfOk result (λ _. Has (view_of parts.now).strips a (IsStrip (view_of parts.now))) }
    ensures broken { IfErr result (Breaks (view_of parts.now)) }
{
    let s = strip_at(parts, a);
    if !is_strip(parts, s) {
        return Err(PartsFault::StripUnfit(a));
    }
    if !is_among_blocks(parts, s.first, s.count) {
        return Err(PartsFault::StripBlocksMissing(a));
    }
    check_strip_blocks(parts, a, s)
}

/// Ok where each strip fits, and its blocks are as it makes them (dispatch_apply(3)).
pub fn check_strips(parts: &Parts) -> Result<(), PartsFault>
    requires { IsWithinLimits parts.now }
    ensures fits { IfOk result (λ _. AllHave (view_of parts.now).strips (λ _ s. IsStrip (view_of parts.now) s)) }
    ensures broken { IfErr result (Breaks (view_of parts.now)) }
{
    for a in 0..parts.strips.len() as u32 {
        check_strip(parts, a)?;
    }
    Ok(())
}

/// Ok where no block is of two strips, or of a strip and the intake.
pub fn check_apart(parts: &Parts) -> Result<(), PartsFault>
    requires { IsWithinLimits parts.now }
    ensures fits { IfOk result (λ _. (b : ℕ) → b < length parts.now.blocks.items → count_by (is_within b) (spans (view_of parts.now)) ≤ 1) }
    ensures broken { IfErr result (Breaks (view_of parts.now)) }
{
    for b in 0..parts.blocks.len() as u32 {
        if is_made_twice(parts, Blk(b)) {
            return Err(PartsFault::MadeTwice(Blk(b)));
        }
    }
    Ok(())
}

// Which blocks are of the intake or of a strip.
ghost use Rattle.std.specs.Prelude.{◌≡◌, ◌<◌, ◌↔◌, IsTrue, count_by};
ghost use Rattle.std.specs.List.{list_any};
ghost use Rattle.gcd_plan.specs.Made.{Span, is_within, strip_span, spans, is_made, is_of_intake, is_of_strip};
ghost use Rattle.gcd_plan.specs.PlanView.{strip_view, view_of};

use crate::numbers::Blk;
use crate::parts::{Parts, StripPart};

fn is_within(first: u32, count: u32, b: Blk) -> bool
    ensures { result ≡ is_within b.0 (record { first = first; count = count }) }
{
    first <= b.0 && u64::from(b.0) < u64::from(first) + u64::from(count)
}

fn is_of_intake(parts: &Parts, b: Blk) -> bool
    ensures { result ≡ is_of_intake (view_of parts.now) b.0 }
{
    match parts.intake {
        Some((_, first, count)) => is_within(first, count, b),
        None => false,
    }
}

fn is_of_strip(s: &StripPart, b: Blk) -> bool
    ensures { result ≡ is_within b.0 (strip_span (strip_view s.now)) }
{
    is_within(s.first, s.count, b)
}

fn is_of_any(strips: &[StripPart], b: Blk) -> bool
    ensures { result ≡ list_any (λ s. is_within b.0 (strip_span (strip_view s))) strips.now }
{
    strips.iter().any(|s| is_of_strip(s, b))
}

// How many strips have the block.
fn strips_with(strips: &[StripPart], b: Blk) -> usize
    ensures { result ≡ count_by (λ s. is_within b.0 (strip_span (strip_view s))) strips.now }
{
    strips.iter().filter(|s| is_of_strip(*s, b)).count()
}

/// Whether the block is of the intake or of a strip.
#[tactic(auto, using(crate::proofs::MadeBlocks::made_seen))]
pub fn is_made(parts: &Parts, b: Blk) -> bool
    ensures { result ≡ is_made (view_of parts.now) b.0 }
{
    is_of_intake(parts, b) || is_of_any(&parts.strips, b)
}

/// Whether the block is of two strips, or of a strip and the intake.
#[tactic(auto, using(crate::proofs::MadeBlocks::spans_seen))]
pub fn is_made_twice(parts: &Parts, b: Blk) -> bool
    ensures { IsTrue result ↔ (1 < count_by (is_within b.0) (spans (view_of parts.now))) }
{
    let most = usize::from(!is_of_intake(parts, b));
    most < strips_with(&parts.strips, b)
}

/// Whether the strip of this number has the block; false where there is no such strip.
pub fn is_of_strip_at(parts: &Parts, a: u32, b: Blk) -> bool
    ensures { result ≡ is_of_strip (view_of parts.now) a b.0 }
{
    parts
        .strips
        .get(a as usize)
        .map_or(false, |s| is_of_strip(s, b))
}

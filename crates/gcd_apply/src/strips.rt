// The strips of a plan.
ghost use Rattle.std.specs.Prelude.{◌≡◌, ◌+◌, ◌≤◌, ℕ, IfOk, None, Some, if◌then◌else◌, length, map, slice_index_or};
ghost use Rattle.std.specs.List.{range_with_len};
ghost use Rattle.gcd_plan.specs.Limits.{max_blocks};
ghost use Rattle.gcd_plan.specs.Made.{is_within, strip_span};
ghost use Rattle.gcd_plan.specs.PlanView.{strip_view};
ghost use Rattle.gcd_apply.specs.StripsView.{strip_of, strip_room, strips_of, left_at, strip_at, with_done};

use gcd_plan::{Blk, Plan, StripPart};
use std::alloc::{AllocError, Global};
use std::marker::Model;

/// How many blocks of each strip of a plan have not ended (dispatch_apply(3)). Contracts see it as plain lists (`StripsView`).
#[derive(Drop)]
pub struct Strips {
    // By strip: how many of its blocks have not ended.
    left: Vec<u32>,
    // Of each block the strip that it is of, or of none where the plan has no strip.
    of_block: Vec<Option<u32>>,
}

impl Model for Strips {
    ghost use Rattle.gcd_apply.specs.StripsView.{StripsView};

    ghost Value = { StripsView };

    ghost view = { λ s. record { left = s.left.items; of_block = s.of_block.items } };
}

// How many blocks each strip has.
fn counts(alloc: Global, strips: &[StripPart]) -> Result<Vec<u32>, AllocError>
    ensures { IfOk result (λ v. v.items ≡ map (λ s. s.count) (map strip_view strips.now)) }
{
    let mut counts = Vec::with_capacity(alloc, strips.len())?;
    for strip in strips {
        counts.push(strip.count)?;
    }
    Ok(counts)
}

// The blocks of the strip are of this number from now on.
fn number(numbers: &mut Vec<Option<u32>>, strip: &StripPart, a: u32)
    requires blocks { strip.now.first + strip.now.count ≤ length numbers.old.items }
    requires few { length numbers.old.items ≤ max_blocks }
    ensures as_many { length numbers.new.items ≡ length numbers.old.items }
    ensures numbered { (b : ℕ) → slice_index_or numbers.new.items b None ≡ (if is_within b (strip_span (strip_view strip.now)) then Some a else slice_index_or numbers.old.items b None) }
{
    for b in strip.first..strip.first + strip.count {
        numbers[b as usize] = Some(a);
    }
}

// Of each block the strip that it is of; of none where the plan has no strip. It goes from the last strip to the first.
fn numbers(alloc: Global, plan: &Plan) -> Result<Vec<Option<u32>>, AllocError>
    ensures { IfOk result (λ v. v.items ≡ map (strip_of plan.now) (range_with_len 0 (strip_room plan.now))) }
{
    let strips = plan.strips();
    if strips.is_empty() {
        return Ok(Vec::new(alloc));
    }
    let mut numbers = vec![in alloc; None; plan.blocks() as usize]?;
    let count = strips.len() as u32;
    for k in 0..count {
        let a = count - 1 - k;
        number(&mut numbers, &strips[a as usize], a);
    }
    Ok(numbers)
}

impl Strips {
    /// The plan's strips before the first event: no block has ended (dispatch_apply(3)). It takes all the memory that is ever
    /// needed: an `Err` comes only where memory runs out.
    pub fn new(alloc: Global, plan: &Plan) -> Result<Strips, AllocError>
        ensures { IfOk result (λ s. s ≡ strips_of plan.now) }
    {
        Ok(Strips {
            left: counts(alloc, plan.strips())?,
            of_block: numbers(alloc, plan)?,
        })
    }

    /// Copies the strips. The copy takes all its memory at once, so an `Err` comes only if memory runs out.
    pub fn copied(&self, alloc: Global) -> Result<Strips, AllocError>
        ensures { IfOk result (λ s. s ≡ self.now) }
    {
        Ok(Strips {
            left: Vec::from_slice(alloc, &self.left)?,
            of_block: Vec::from_slice(alloc, &self.of_block)?,
        })
    }

    /// How many blocks of the strip of this number have not ended; 0 where the plan has no such strip (dispatch_apply(3)).
    pub fn left(&self, a: u32) -> u32
        ensures { result ≡ left_at self.now a }
    {
        match self.left.get(a as usize) {
            Some(left) => *left,
            None => 0,
        }
    }

    /// The number of the strip that the block is of; None exactly where it is of none (dispatch_apply(3)).
    pub fn strip_of(&self, blk: Blk) -> Option<u32>
        ensures { result ≡ strip_at self.now blk.0 }
    {
        let at = blk.0 as usize;
        if at < self.of_block.len() {
            self.of_block[at]
        } else {
            None
        }
    }

    /// The block has ended: one less of its strip has not (dispatch_apply(3)). It is called once for each block of a strip, at
    /// its end; where the block is of no strip, or each block of its strip has ended, nothing changes.
    pub fn done(&mut self, blk: Blk)
        ensures { self.new ≡ with_done self.old blk.0 }
    {
        let Some(a) = self.strip_of(blk) else {
            return;
        };
        let at = a as usize;
        if at < self.left.len() {
            self.left[at] = self.left[at].saturating_sub(1);
        }
    }
}

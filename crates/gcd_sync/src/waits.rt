// The parked blocks.
ghost use Rattle.std.specs.Prelude.{◌≡◌, ◌+◌, ◌<◌, ◌^◌, IfOk, IfSome, None, Some, is_some, true, length, slice_set, slice_index_or};
ghost use Rattle.gcd_sync.specs.WaitsView.{waits_of, reason_at, limit_at, has_expired_at, Fits, has_come_in, may_wake_in, with_parked, with_woken, with_expired};

use crate::limit::Limit;
use gcd_apply::Strips;
use gcd_group::Groups;
use gcd_plan::{Blk, Plan, Reason};
use gcd_sema::Semas;
use gcd_sets::BitSet;
use std::alloc::{AllocError, Global};
use std::marker::Model;

/// What each block of a plan waits for, where it is parked, until when, and whether its wait has expired (dispatch_sync(3),
/// dispatch_group_wait(3), dispatch_semaphore_wait(3), dispatch_apply(3), dispatch_block_wait(3)). Contracts see it as plain lists by block (`WaitsView`).
#[derive(Drop)]
pub struct Waits {
    // Of each block, or of none if no act of the plan parks its block.
    reasons: Vec<Option<Reason>>,
    // Of each block, or of none if no act of the plan waits with a limit.
    limits: Vec<Limit>,
    expired: BitSet,
    objects: u32,
    strips: usize,
}

impl Model for Waits {
    ghost use Rattle.gcd_sync.specs.WaitsView.{WaitsView, AllFit};

    ghost Value = { WaitsView };

    ghost view = { λ w. record { reasons = w.reasons.items; limits = w.limits.items; expired = w.expired; objects = w.objects; strips = w.strips } };

    ghost invariant = { λ w. AllFit (record { reasons = w.reasons.items; limits = w.limits.items; expired = w.expired; objects = w.objects; strips = w.strips }) };
}

// The block's place says this from now on, where there is one.
#[inline(always)]
fn keep(limits: &mut Vec<Limit>, blk: Blk, limit: Limit)
    ensures { limits.new.items ≡ slice_set limits.old.items blk.0 limit }
{
    let at = blk.0 as usize;
    if at < limits.len() {
        limits[at] = limit;
    }
}

// What the block's place says; none where there is no place.
fn kept(limits: &[Limit], blk: Blk) -> Option<u32>
    ensures { result ≡ slice_index_or limits.now blk.0 None }
{
    let at = blk.0 as usize;
    if at < limits.len() {
        limits[at].get()
    } else {
        None
    }
}

impl Waits {
    /// The plan's blocks before the first event: none is parked (dispatch_sync(3)). It takes all the memory that is ever
    /// needed: an `Err` comes only where memory runs out.
    pub fn new(alloc: Global, plan: &Plan) -> Result<Waits, AllocError>
        ensures { IfOk result (λ w. w ≡ waits_of plan.now) }
    {
        Ok(Waits {
            reasons: vec![in alloc; None; plan.park_room() as usize]?,
            limits: vec![in alloc; Limit::NONE; plan.limit_room() as usize]?,
            expired: BitSet::new(alloc, plan.blocks())?,
            objects: plan.objects(),
            strips: plan.strips().len(),
        })
    }

    /// Copies the parked blocks. The copy takes all its memory at once, so an `Err` comes only if memory runs out.
    pub fn copied(&self, alloc: Global) -> Result<Waits, AllocError>
        ensures { IfOk result (λ w. w ≡ self.now) }
    {
        Ok(Waits {
            reasons: Vec::from_slice(alloc, &self.reasons)?,
            limits: Vec::from_slice(alloc, &self.limits)?,
            expired: self.expired.copied(alloc)?,
            objects: self.objects,
            strips: self.strips,
        })
    }

    /// The block is parked from now on, until [`Waits::woken`], and waits for this without a limit (dispatch_sync(3),
    /// dispatch_group_wait(3), dispatch_semaphore_wait(3)). What it waits for is of the plan, the position of a group's wait
    /// is below 2^32 - 1, and a rank is at least 1. What blocks wait for is kept: [`Plan::park_room`] tells of how many.
    pub fn park(&mut self, blk: Blk, why: Reason)
        requires blk { blk.0 < length self.old.reasons }
        requires why { Fits self.old why }
        ensures { self.new ≡ with_parked self.old blk.0 why None }
    {
        self.reasons[blk.0 as usize] = Some(why);
        keep(&mut self.limits, blk, Limit::NONE);
        self.expired.clear(blk.0);
    }

    /// The same with a limit: from this time on, in milliseconds, the wait may expire (dispatch_group_wait(3),
    /// dispatch_semaphore_wait(3)). Limits are kept of the block, as of every block where an act of the plan waits with one:
    /// [`Plan::limit_room`] tells of how many.
    pub fn park_until(&mut self, blk: Blk, why: Reason, at: u32)
        requires blk { blk.0 < length self.old.reasons }
        requires room { blk.0 < length self.old.limits }
        requires why { Fits self.old why }
        requires at { at + 1 < 2 ^ 32 }
        ensures { self.new ≡ with_parked self.old blk.0 why (Some at) }
    {
        self.reasons[blk.0 as usize] = Some(why);
        self.limits[blk.0 as usize] = Limit::of(at);
        self.expired.clear(blk.0);
    }

    /// What the block waits for; None exactly where it is not parked (this project's own rule).
    pub fn reason(&self, blk: Blk) -> Option<Reason>
        ensures { result ≡ reason_at self.now blk.0 }
    {
        match self.reasons.get(blk.0 as usize) {
            Some(why) => *why,
            None => None,
        }
    }

    /// The limit of the block's wait; None exactly where it is not parked with one (dispatch_group_wait(3),
    /// dispatch_semaphore_wait(3)).
    pub fn limit(&self, blk: Blk) -> Option<u32>
        ensures limit { result ≡ limit_at self.now blk.0 }
        ensures parked { IfSome result (λ at. is_some (reason_at self.now blk.0) ≡ true) }
    {
        kept(&self.limits, blk)
    }

    /// The wait of the parked block has expired from now on, until [`Waits::woken`]. It has a limit: [`Waits::limit`] is the
    /// test (dispatch_group_wait(3), dispatch_semaphore_wait(3)).
    pub fn expire(&mut self, blk: Blk)
        requires blk { blk.0 < length self.old.reasons }
        requires limit { is_some (limit_at self.old blk.0) ≡ true }
        ensures { self.new ≡ with_expired self.old blk.0 }
    {
        self.expired.set(blk.0);
    }

    /// Whether the wait of the block has expired; false where it is not parked (dispatch_group_wait(3),
    /// dispatch_semaphore_wait(3)).
    pub fn has_expired(&self, blk: Blk) -> bool
        requires { blk.0 < length self.now.expired }
        ensures expired { result ≡ has_expired_at self.now blk.0 }
        ensures parked { result ≡ true → is_some (reason_at self.now blk.0) ≡ true }
    {
        self.expired.has(blk.0)
    }

    /// Whether the parked block may wake: what it waits for has come, or its wait has expired. It has come where the block has
    /// ended, as the list says, which has a flag for each block, main's first (dispatch_sync(3), dispatch_block_wait(3)); where the
    /// group was empty at some position above that of the wait (dispatch_group_wait(3)); where all blocks of the strip have
    /// ended (dispatch_apply(3)); or where the semaphore's wait of that rank passes (dispatch_semaphore_wait(3)).
    /// [`Waits::reason`] tells whether it is parked. Groups, semaphores and strips are those of the same plan.
    pub fn may_wake(
        &self,
        groups: &Groups,
        semas: &Semas,
        strips: &Strips,
        ended: &[bool],
        blk: Blk,
    ) -> bool
        requires blk { blk.0 < length self.now.expired }
        requires parked { is_some (reason_at self.now blk.0) ≡ true }
        requires groups_of_the_plan { length groups.now.counts ≡ self.now.objects }
        requires semas_of_the_plan { length semas.now.waits ≡ self.now.objects }
        requires strips_of_the_plan { length strips.now.left ≡ self.now.strips }
        requires flags { length ended.now ≡ length self.now.expired }
        ensures { result ≡ may_wake_in self.now groups.now semas.now strips.now ended.now blk.0 }
    {
        match self.reason(blk) {
            Some(why) => self.has_come(groups, semas, strips, ended, why)
                || self.expired.has(blk.0),
            None => false,
        }
    }

    /// The block is no longer parked, and has no limit (this project's own rule).
    pub fn woken(&mut self, blk: Blk)
        requires { blk.0 < length self.old.reasons }
        ensures { self.new ≡ with_woken self.old blk.0 }
    {
        self.reasons[blk.0 as usize] = None;
        keep(&mut self.limits, blk, Limit::NONE);
        self.expired.clear(blk.0);
    }

    // Whether what is waited for has come.
    fn has_come(
        &self,
        groups: &Groups,
        semas: &Semas,
        strips: &Strips,
        ended: &[bool],
        why: Reason,
    ) -> bool
        requires why { Fits self.now why }
        requires groups_of_the_plan { length groups.now.counts ≡ self.now.objects }
        requires semas_of_the_plan { length semas.now.waits ≡ self.now.objects }
        requires flags { length ended.now ≡ length self.now.expired }
        ensures { result ≡ has_come_in groups.now semas.now strips.now ended.now why }
    {
        match why {
            Reason::Block(blk) => ended[blk.0 as usize],
            Reason::Group(group, position) => groups.empty_since(group, position + 1),
            Reason::Strip(a) => strips.left(a) == 0,
            Reason::Rank(sema, rank) => semas.passed(sema, rank),
        }
    }
}

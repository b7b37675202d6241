// Limits of waits: which are ahead, and which waits may expire.
ghost use Rattle.std.specs.Prelude.{◌≡◌, ◌<◌, ◌≤◌, ◌+◌, Option, ℕ, Some, IfSome, IfNone, is_some, length, min, nat_le, true, false, slice_index_or, None};
ghost use Rattle.std.specs.Option.{option_map_or};
ghost use Rattle.gcd_sets.specs.Least.{earlier, least};
ghost use Rattle.gcd_refinement.specs.MachineView.{ahead_at, next_due_in};
ghost use Rattle.gcd_timer.specs.TimersView.{next_due_at};
ghost use Rattle.gcd_machine.specs.Dues.{IsDueIn};
ghost use Rattle.gcd_refinement.specs.AfterLimits.{is_reached};
ghost use Rattle.gcd_plan.specs.declared.reason.Reason.{Reason};
ghost use Rattle.gcd_machine.specs.Steps.{expired, limited, ripened, unlimited, wait_ended};
ghost use Rattle.gcd_machine.specs.Conditions.{CanBeAhead, CanEndWait, CanExpire, CanLetGo};

use super::Registers;
use crate::due_by::DueBy;
use gcd_plan::{Blk, Obj, Reason};

// The earlier of two times, where there are two.
fn earlier_of(a: Option<u32>, b: Option<u32>) -> Option<u32>
    ensures { result ≡ earlier a b }
{
    match a {
        None => b,
        Some(x) => match b {
            None => Some(x),
            Some(y) => Some(x.min(y)),
        },
    }
}

impl Registers {
    /// The least number above journal time that is a due time of a timer or the limit of a wait that is not over, in milliseconds.
    pub fn next_due(&self) -> Option<u32>
        ensures { result ≡ next_due_in self.now }
    {
        earlier_of(self.timers.next_due(), self.ahead.least())
    }

    // Whether no limit is before the next due time of a timer.
    fn is_timer_first(&self) -> bool
        ensures yes { result ≡ true → next_due_in self.now ≡ next_due_at self.now.timers }
        ensures no { result ≡ false → next_due_in self.now ≡ least self.now.ahead }
    {
        let Some(end) = self.ahead.least() else {
            return true;
        };
        let Some(due) = self.timers.next_due() else {
            return false;
        };
        due <= end
    }

    // A timer that is due before all other timers.
    fn timer_due(&self) -> Option<DueBy>
        ensures some { is_some result ≡ is_some (next_due_at self.now.timers) }
        ensures due { (t : ℕ) → next_due_at self.now.timers ≡ Some t → IfSome result (IsDueIn self.now t) }
    {
        match self.timers.soonest() {
            Some(s) => Some(DueBy::Timer(s)),
            None => None,
        }
    }

    // A block whose limit is before all other limits.
    fn wait_due(&self) -> Option<DueBy>
        ensures some { is_some result ≡ is_some (least self.now.ahead) }
        ensures due { (t : ℕ) → least self.now.ahead ≡ Some t → IfSome result (IsDueIn self.now t) }
    {
        match self.ahead.soonest() {
            Some(b) => Some(DueBy::Wait(Blk(b))),
            None => None,
        }
    }

    /// What is due next: a timer, or a block whose wait reaches its limit.
    pub fn due_by(&self) -> Option<DueBy>
        ensures some { is_some result ≡ is_some (next_due_in self.now) }
        ensures due { (t : ℕ) → next_due_in self.now ≡ Some t → IfSome result (IsDueIn self.now t) }
    {
        if self.is_timer_first() {
            return self.timer_due();
        }
        self.wait_due()
    }

    // The limit of a wait of so many milliseconds that begins now: no later than `until` (dispatch_semaphore_wait(3),
    // dispatch_group_wait(3)).
    pub fn limit_of(&self, ms: u32) -> u32
        ensures { result ≡ min (self.now.timers.moment + ms) self.now.plan.until }
    {
        self.timers
            .moment()
            .saturating_add(ms)
            .min(self.plan.until())
    }

    // The block, which goes to sleep, has this limit, if it has one: it is ahead, or the wait may expire at once.
    pub fn limit(&mut self, blk: Blk, limit: Option<u32>)
        requires over { CanLetGo self.old blk }
        requires ahead { (end : ℕ) → limit ≡ Some end → CanBeAhead self.old blk end }
        ensures { self.new ≡ limited self.old blk limit }
    {
        match limit {
            Some(at) if self.timers.moment() < at => self.ahead.set(blk.0, at),
            Some(_) => self.ripe.set(blk.0),
            None => {}
        }
    }

    // The block has no limit ahead. Where no act of the plan waits with a limit none is kept.
    pub fn forget_limit(&mut self, blk: Blk)
        ensures { self.new ≡ unlimited self.old blk }
    {
        if blk.0 < self.ahead.len() {
            self.ahead.clear(blk.0);
        }
    }

    // A block whose limit, which is ahead, this time reaches; None exactly where there is none.
    fn next_reached(&self, at: u32) -> Option<u32>
        ensures within { IfSome result (λ b. b < length self.now.ahead) }
        ensures reached { IfSome result (λ b. is_reached at (ahead_at self.now b) ≡ true) }
        ensures none { IfNone result (option_map_or (λ end. nat_le end at) (least self.now.ahead) false ≡ false) }
    {
        if self.ahead.least()? > at {
            return None;
        }
        self.ahead.soonest()
    }

    // Each wait whose limit this time reaches may expire, and its limit is ahead no more.
    pub fn ripen(&mut self, at: u32)
        requires { length self.old.ahead ≤ length self.old.ripe }
        ensures { self.new ≡ ripened self.old at }
    {
        while let Some(b) = self.next_reached(at) {
            self.ahead.clear(b);
            self.ripe.set(b);
        }
    }

    // The wait of the block expires: it counts at its semaphore no more, sleeps nowhere, and the block may wake
    // (dispatch_semaphore_wait(3), dispatch_group_wait(3)).
    pub fn expire(&mut self, blk: Blk)
        requires { CanExpire self.old blk }
        ensures { self.new ≡ expired self.old blk }
    {
        let awaited = self.waits.reason(blk);
        self.waits.expire(blk);
        self.end_wait(blk, awaited);
        self.let_go(blk);
    }

    // The block's wait for this has expired: it counts at its semaphore no more, and the block sleeps nowhere.
    fn end_wait(&mut self, blk: Blk, awaited: Option<Reason>)
        requires { CanEndWait self.old blk awaited }
        ensures { self.new ≡ wait_ended self.old blk awaited }
    {
        match awaited {
            Some(why) => match why {
                Reason::Rank(s, rank) => {
                    self.semas.expire(s, rank);
                    self.sleepers.remove(s, blk);
                }
                Reason::Group(g, _) => self.sleepers.remove(g, blk),
                Reason::Block(_) => {}
                Reason::Strip(_) => {}
            },
            None => {}
        }
    }
}

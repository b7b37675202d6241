// The time, and when each source was activated and cancelled.
ghost use Rattle.std.specs.Prelude.{◌≡◌, ◌<◌, ◌≤◌, IfOk, IfSome, None, is_some, true, length};
ghost use Rattle.gcd_timer.specs.TimersView.{timers_of, activated_at, cancelled_at, due_count_at, with_activated, with_cancelled};
ghost use Rattle.gcd_timer.specs.Intervals.{IsSpaced};
ghost use Rattle.gcd_timer.specs.Listed.{due_times_at, next_due_of};
ghost use Rattle.gcd_sets.specs.Least.{no_time};

use crate::due_times::{DueTimes, count_of, due_times_of, last_due, next_of};
use gcd_plan::{Kind, MAX_TIME, Obj, Plan};
use std::alloc::{AllocError, Global};
use std::marker::Model;

/// The time, and when each source of a plan was activated and cancelled (dispatch_source_set_timer(3)). Contracts see it as
/// plain data (`TimersView`).
#[derive(Drop)]
pub struct Clock {
    kinds: Vec<Kind>,
    until: u32,
    moment: u32,
    activated: Vec<Option<u32>>,
    cancelled: Vec<Option<u32>>,
}

impl Model for Clock {
    ghost use Rattle.gcd_timer.specs.TimersView.{TimersView};
    ghost use Rattle.gcd_timer.specs.Listed.{IsClock};

    ghost Value = { TimersView };

    ghost view = { λ t. record { kinds = t.kinds.items; until = t.until; moment = t.moment; activated = t.activated.items; cancelled = t.cancelled.items } };

    ghost invariant = { λ t. IsClock (record { kinds = t.kinds.items; until = t.until; moment = t.moment; activated = t.activated.items; cancelled = t.cancelled.items }) };
}

impl Clock {
    // The due times of the object; None where it is no timer, or is not activated.
    fn due_times(&self, s: Obj) -> Option<DueTimes>
        requires { s.0 < length self.now.kinds }
        ensures is { result ≡ due_times_at self.now s.0 }
        ensures sound { IfSome result (λ times. IsSpaced times) }
        ensures within { IfSome result (λ times. times.last ≤ self.now.until) }
    {
        let at = s.0 as usize;
        let from = self.activated[at]?;
        due_times_of(
            self.kinds[at],
            from,
            last_due(self.until, self.cancelled[at]),
        )
    }

    // The object's least due time after the present.
    #[tactic(auto, using(crate::proofs::Views::next_none, crate::proofs::Views::next_some))]
    fn next_due_of(&self, s: Obj) -> Option<u32>
        requires { s.0 < length self.now.kinds }
        ensures { result ≡ next_due_of self.now s.0 }
    {
        next_of(self.due_times(s)?, self.moment)
    }
}

impl Clock {
    /// The plan's timers before the first event: the time is 0, and nothing is activated or cancelled
    /// (dispatch_source_create(3)). It takes all the memory that the timers ever need: an `Err` comes only where memory runs out.
    pub fn new(alloc: Global, plan: &Plan) -> Result<Clock, AllocError>
        ensures { IfOk result (λ t. t ≡ timers_of plan.now) }
    {
        let kinds = plan.kinds(alloc)?;
        let objects = plan.objects() as usize;
        Ok(Clock {
            kinds,
            until: plan.until(),
            moment: 0,
            activated: vec![in alloc; None; objects]?,
            cancelled: vec![in alloc; None; objects]?,
        })
    }

    /// Copies the timers, which stay at the same time. The copy takes all its memory at once, so an `Err` comes only if memory runs out.
    pub fn copied(&self, alloc: Global) -> Result<Clock, AllocError>
        ensures { IfOk result (λ t. t ≡ self.now) }
    {
        Ok(Clock {
            kinds: Vec::from_slice(alloc, &self.kinds)?,
            until: self.until,
            moment: self.moment,
            activated: Vec::from_slice(alloc, &self.activated)?,
            cancelled: Vec::from_slice(alloc, &self.cancelled)?,
        })
    }

    /// The present time, in milliseconds: that of the last tick, or 0 (this project's own rule).
    pub fn moment(&self) -> u32
        ensures { result ≡ self.now.moment }
    {
        self.moment
    }

    /// The timer's least due time after the present, and None exactly where it has none.
    pub fn next(&self, s: Obj) -> Option<u32>
        requires { s.0 < length self.now.kinds }
        ensures value { result ≡ next_due_of self.now s.0 }
        ensures short { IfSome result (λ t. t < no_time) }
    {
        prove!(self.until <= MAX_TIME);
        self.next_due_of(s)
    }

    /// How many due times the timer has had, up to the present: one after the other is `every` later, the first `start`
    /// after the activation, and none lies past the plan's `until` or the timer's cancellation
    /// (dispatch_source_set_timer(3)). Of an object that is no timer it is 0.
    #[tactic(auto, using(crate::proofs::Views::count_none, crate::proofs::Views::count_some))]
    pub fn due_count(&self, s: Obj) -> u64
        requires { s.0 < length self.now.kinds }
        ensures { result ≡ due_count_at self.now s.0 }
    {
        match self.due_times(s) {
            None => 0,
            Some(times) => count_of(times, self.moment),
        }
    }

    /// The timer is activated now; nothing changes where it was before (dispatch_activate(3)).
    pub fn activate(&mut self, s: Obj)
        requires { s.0 < length self.old.kinds }
        ensures first { activated_at self.old s.0 ≡ None → self.new ≡ with_activated self.old s.0 }
        ensures again { is_some (activated_at self.old s.0) ≡ true → self.new ≡ self.old }
    {
        let at = s.0 as usize;
        if self.activated[at].is_none() {
            self.activated[at] = Some(self.moment);
        }
    }

    /// The timer is cancelled now, and has no due time after now; nothing changes where it was before
    /// (dispatch_source_cancel(3)).
    pub fn cancel(&mut self, s: Obj)
        requires { s.0 < length self.old.kinds }
        ensures first { cancelled_at self.old s.0 ≡ None → self.new ≡ with_cancelled self.old s.0 }
        ensures again { is_some (cancelled_at self.old s.0) ≡ true → self.new ≡ self.old }
    {
        let at = s.0 as usize;
        if self.cancelled[at].is_none() {
            self.cancelled[at] = Some(self.moment);
        }
    }

    /// The present is `t` from now on, in milliseconds. It never goes back, and comes at most to the plan's `until`:
    /// [`Clock::moment`] and `Plan::until` are the tests. It may pass any number of due times at once (this project's own
    /// rule).
    pub fn tick(&mut self, t: u32)
        requires forward { self.old.moment ≤ t }
        requires within { t ≤ self.old.until }
        ensures { self.new ≡ record self.old { moment = t } }
    {
        self.moment = t;
    }
}

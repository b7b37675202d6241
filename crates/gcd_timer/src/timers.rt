// The timers, and the time.
ghost use Rattle.std.specs.Prelude.{◌≡◌, ◌<◌, ◌≤◌, ℕ, IfOk, IfSome, None, Some, is_some, true, false, length, slice_index_or, slice_set};
ghost use Rattle.gcd_timer.specs.TimersView.{timers_of, activated_at, cancelled_at, is_due_at, next_due_at, due_count_at, with_activated, with_cancelled, marked_by};
ghost use Rattle.gcd_timer.specs.Listed.{AreBehind, is_reached, nexts_of, reached_marked};
ghost use Rattle.gcd_sets.specs.Least.{no_time};

use crate::clock::Clock;
use gcd_plan::{Obj, Plan};
use gcd_sets::{BitSet, Times};
use std::alloc::{AllocError, Global};
use std::marker::Model;

/// The time, and when each source of a plan was activated and cancelled (dispatch_source_set_timer(3)). Contracts see it as
/// plain data (`TimersView`).
#[derive(Drop)]
pub struct Timers {
    clock: Clock,
    // By object: its least due time after the present.
    nexts: Times,
}

impl Model for Timers {
    ghost use Rattle.std.specs.Prelude.{◌≡◌};
    ghost use Rattle.gcd_timer.specs.TimersView.{TimersView};
    ghost use Rattle.gcd_timer.specs.Listed.{nexts_of};

    ghost Value = { TimersView };

    ghost view = { λ t. t.clock };

    ghost invariant = { λ t. t.nexts ≡ nexts_of t.clock };
}

// The number has this time from now on, or none.
fn set_next(nexts: &mut Times, s: u32, next: Option<u32>)
    requires within { s < length nexts.old }
    requires short { IfSome next (λ t. t < no_time) }
    ensures { nexts.new ≡ slice_set nexts.old s next }
{
    match next {
        Some(t) => nexts.set(s, t),
        None => nexts.clear(s),
    }
}

// A number whose time is at most t; None exactly where there is none.
fn reached(nexts: &Times, t: u32) -> Option<u32>
    ensures within { IfSome result (λ s. s < length nexts.now) }
    ensures there { IfSome result (λ s. is_reached t (slice_index_or nexts.now s None) ≡ true) }
    ensures none { result ≡ None → (s : ℕ) → is_reached t (slice_index_or nexts.now s None) ≡ false }
{
    if nexts.least()? > t {
        return None;
    }
    let s = nexts.soonest()?;
    Some(s)
}

// Each number whose time the present has reached gets its next.
fn move_on(nexts: &mut Times, clock: &Clock)
    requires { AreBehind clock.now nexts.old }
    ensures { nexts.new ≡ nexts_of clock.now }
{
    while let Some(s) = reached(nexts, clock.moment()) {
        let next = clock.next(Obj(s));
        set_next(nexts, s, next);
    }
}

// The same, and each of these numbers is marked.
fn move_on_marked(nexts: &mut Times, clock: &Clock, marks: &mut BitSet)
    requires behind { AreBehind clock.now nexts.old }
    requires long { length marks.old ≡ length clock.now.kinds }
    ensures nexts { nexts.new ≡ nexts_of clock.now }
    ensures marks { marks.new ≡ reached_marked clock.now.moment nexts.old marks.old }
{
    while let Some(s) = reached(nexts, clock.moment()) {
        let next = clock.next(Obj(s));
        set_next(nexts, s, next);
        marks.set(s);
    }
}

impl Timers {
    /// The plan's timers before the first event: the time is 0, and nothing is activated or cancelled
    /// (dispatch_source_create(3)). It takes all the memory that the timers ever need: an `Err` comes only where memory runs out.
    pub fn new(alloc: Global, plan: &Plan) -> Result<Timers, AllocError>
        ensures { IfOk result (λ t. t ≡ timers_of plan.now) }
    {
        Ok(Timers {
            clock: Clock::new(alloc, plan)?,
            nexts: Times::new(alloc, plan.objects())?,
        })
    }

    /// Copies the timers, which stay at the same time. The copy takes all its memory at once, so an `Err` comes only if memory runs out.
    pub fn copied(&self, alloc: Global) -> Result<Timers, AllocError>
        ensures { IfOk result (λ t. t ≡ self.now) }
    {
        Ok(Timers {
            clock: self.clock.copied(alloc)?,
            nexts: self.nexts.copied(alloc)?,
        })
    }

    /// The present time, in milliseconds: that of the last tick, or 0 (this project's own rule).
    pub fn moment(&self) -> u32
        ensures { result ≡ self.now.moment }
    {
        self.clock.moment()
    }

    /// The least due time after the present, at most the plan's `until`; None exactly where no due time is left
    /// (dispatch_source_set_timer(3)). It takes the same time however many timers there are.
    #[inline(always)]
    pub fn next_due(&self) -> Option<u32>
        ensures { result ≡ next_due_at self.now }
    {
        self.nexts.least()
    }

    /// A timer that is due at [`Timers::next_due`], any one if there are several; None exactly if no due time is left
    /// (dispatch_source_set_timer(3)). It takes a step for each doubling of the objects.
    pub fn soonest(&self) -> Option<Obj>
        ensures some { is_some result ≡ is_some (next_due_at self.now) }
        ensures within { IfSome result (λ s. s.0 < length self.now.kinds) }
        ensures due { IfSome result (λ s. (t : ℕ) → next_due_at self.now ≡ Some t → is_due_at self.now s.0 t ≡ true) }
    {
        let s = self.nexts.soonest()?;
        Some(Obj(s))
    }

    /// How many due times the timer has had, up to the present: one after the other is `every` later, the first `start`
    /// after the activation, and none lies past the plan's `until` or the timer's cancellation
    /// (dispatch_source_set_timer(3)). Of an object that is no timer it is 0.
    pub fn due_count(&self, s: Obj) -> u64
        requires { s.0 < length self.now.kinds }
        ensures { result ≡ due_count_at self.now s.0 }
    {
        self.clock.due_count(s)
    }

    /// The timer is activated now; nothing changes where it was before (dispatch_activate(3)). It takes a step for each
    /// doubling of the objects.
    pub fn activate(&mut self, s: Obj)
        requires { s.0 < length self.old.kinds }
        ensures first { activated_at self.old s.0 ≡ None → self.new ≡ with_activated self.old s.0 }
        ensures again { is_some (activated_at self.old s.0) ≡ true → self.new ≡ self.old }
    {
        self.clock.activate(s);
        let next = self.clock.next(s);
        set_next(&mut self.nexts, s.0, next);
    }

    /// The timer is cancelled now, and has no due time after now; nothing changes where it was before
    /// (dispatch_source_cancel(3)). It takes a step for each doubling of the objects.
    pub fn cancel(&mut self, s: Obj)
        requires { s.0 < length self.old.kinds }
        ensures first { cancelled_at self.old s.0 ≡ None → self.new ≡ with_cancelled self.old s.0 }
        ensures again { is_some (cancelled_at self.old s.0) ≡ true → self.new ≡ self.old }
    {
        self.clock.cancel(s);
        let next = self.clock.next(s);
        set_next(&mut self.nexts, s.0, next);
    }

    /// The present is `t` from now on, in milliseconds. It never goes back, and comes at most to the plan's `until`:
    /// [`Timers::moment`] and `Plan::until` are the tests. It may pass any number of due times at once (this project's own
    /// rule). It takes a step for each doubling of the objects, twice for each timer of which it reaches a due time.
    pub fn tick(&mut self, t: u32)
        requires forward { self.old.moment ≤ t }
        requires within { t ≤ self.old.until }
        ensures { self.new ≡ record self.old { moment = t } }
    {
        self.clock.tick(t);
        move_on(&mut self.nexts, &self.clock);
    }

    /// As [`Timers::tick`], and each timer is marked that has a due time after the present and up to `t`. All that was marked
    /// stays so. It looks at no other timer.
    pub fn tick_marked(&mut self, t: u32, marks: &mut BitSet)
        requires forward { self.old.moment ≤ t }
        requires within { t ≤ self.old.until }
        requires long { length marks.old ≡ length self.old.kinds }
        ensures moment { self.new ≡ record self.old { moment = t } }
        ensures marks { marks.new ≡ marked_by self.old t marks.old }
    {
        self.clock.tick(t);
        move_on_marked(&mut self.nexts, &self.clock, marks);
    }
}

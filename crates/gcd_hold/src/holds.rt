// The holds on objects, and which are active.
ghost use Rattle.std.specs.Prelude.{◌≡◌, ◌+◌, ◌-◌, ◌<◌, ◌^◌, false, not, IfOk, length};
ghost use Rattle.gcd_hold.specs.HoldsView.{holds_of, hold_at, is_active_at, is_free_at, is_over_resumed_at, with_hold, with_active};

use crate::first::{created_active, sources};
use gcd_plan::{Obj, Plan};
use std::alloc::{AllocError, Global};
use std::marker::Model;

/// The hold of each object of a plan, and whether it is active (dispatch_suspend(3), dispatch_activate(3)). Contracts see
/// them as plain lists by object (`HoldsView`).
#[derive(Drop)]
pub struct Holds {
    holds: Vec<u32>,
    active: Vec<bool>,
    sources: Vec<bool>,
}

impl Model for Holds {
    ghost use Rattle.gcd_hold.specs.HoldsView.{HoldsView, AreAsMany};

    ghost Value = { HoldsView };

    ghost view = { λ h. record { holds = h.holds.items; active = h.active.items; sources = h.sources.items } };

    ghost invariant = { λ h. AreAsMany (record { holds = h.holds.items; active = h.active.items; sources = h.sources.items }) };
}

impl Holds {
    /// The plan's objects before the first event: each hold is 0, and active is what is created active
    /// (dispatch_activate(3)). It takes all the memory that the lists ever need: an `Err` comes only where memory runs out.
    pub fn new(alloc: Global, plan: &Plan) -> Result<Holds, AllocError>
        ensures { IfOk result (λ h. h ≡ holds_of plan.now) }
    {
        Ok(Holds {
            holds: vec![in alloc; 0; plan.objects() as usize]?,
            active: created_active(alloc, plan)?,
            sources: sources(alloc, plan)?,
        })
    }

    /// Copies the lists. The copy takes all its memory at once, so an `Err` comes only if memory runs out.
    pub fn copied(&self, alloc: Global) -> Result<Holds, AllocError>
        ensures { IfOk result (λ h. h ≡ self.now) }
    {
        Ok(Holds {
            holds: Vec::from_slice(alloc, &self.holds)?,
            active: Vec::from_slice(alloc, &self.active)?,
            sources: Vec::from_slice(alloc, &self.sources)?,
        })
    }

    /// How many suspends of the object no resume has answered (dispatch_suspend(3)). A resume that activates a source
    /// answers none.
    pub fn hold(&self, o: Obj) -> u32
        requires { o.0 < length self.now.holds }
        ensures { result ≡ hold_at self.now o.0 }
    {
        self.holds[o.0 as usize]
    }

    /// Whether the object is active: created so, or activated since (dispatch_activate(3)).
    pub fn is_active(&self, o: Obj) -> bool
        requires { o.0 < length self.now.holds }
        ensures { result ≡ is_active_at self.now o.0 }
    {
        self.active[o.0 as usize]
    }

    /// Whether the object is active with hold 0: where it is not, nothing starts beneath it (dispatch_suspend(3),
    /// dispatch_activate(3)).
    pub fn is_free(&self, o: Obj) -> bool
        requires { o.0 < length self.now.holds }
        ensures { result ≡ is_free_at self.now o.0 }
    {
        self.active[o.0 as usize] && self.holds[o.0 as usize] == 0
    }

    /// Whether a resume of the object is no misuse: its hold is above 0, or it is an inactive source (dispatch_resume(3)).
    pub fn may_resume(&self, o: Obj) -> bool
        requires { o.0 < length self.now.holds }
        ensures { result ≡ not (is_over_resumed_at self.now o.0) }
    {
        let at = o.0 as usize;
        self.holds[at] > 0 || (self.sources[at] && !self.active[at])
    }

    /// The object's hold is 1 higher (dispatch_suspend(3)), and stays below 2^32: [`Holds::hold`] is the test.
    pub fn suspend(&mut self, o: Obj)
        requires object { o.0 < length self.old.holds }
        requires room { hold_at self.old o.0 + 1 < 2 ^ 32 }
        ensures { self.new ≡ with_hold self.old o.0 (hold_at self.old o.0 + 1) }
    {
        self.holds[o.0 as usize] += 1;
    }

    /// The object's hold is 1 lower where it is above 0. Where it is 0 the object is an inactive source, and is active
    /// from now on (dispatch_resume(3)). [`Holds::may_resume`] is the test.
    pub fn resume(&mut self, o: Obj)
        requires object { o.0 < length self.old.holds }
        requires no_misuse { is_over_resumed_at self.old o.0 ≡ false }
        ensures lowered { 0 < hold_at self.old o.0 → self.new ≡ with_hold self.old o.0 (hold_at self.old o.0 - 1) }
        ensures activated { hold_at self.old o.0 ≡ 0 → self.new ≡ with_active self.old o.0 }
    {
        if self.holds[o.0 as usize] > 0 {
            self.holds[o.0 as usize] -= 1;
        } else {
            self.active[o.0 as usize] = true;
        }
    }

    /// The object is active from now on; nothing changes where it is already (dispatch_activate(3)).
    pub fn activate(&mut self, o: Obj)
        requires { o.0 < length self.old.holds }
        ensures { self.new ≡ with_active self.old o.0 }
    {
        self.active[o.0 as usize] = true;
    }
}

// The references on objects.
ghost use Rattle.std.specs.Prelude.{◌≡◌, ◌+◌, ◌-◌, ◌<◌, ◌^◌, nat_lt, IfOk, length, replicate, slice_index, slice_set};

use gcd_plan::{Obj, Plan};
use std::alloc::{AllocError, Global};
use std::marker::Model;

/// How many references each object of a plan has (dispatch_object(3)). Contracts see them as a list of numbers, by
/// object.
#[derive(Drop)]
pub struct Objects {
    refs: Vec<u32>,
}

impl Model for Objects {
    ghost use Rattle.std.specs.Prelude.{ℕ, List};

    ghost Value = { List ℕ };

    ghost view = { λ o. o.refs.items };
}

impl Objects {
    /// One reference on each object of the plan, as at its creation (dispatch_object(3)). It takes all the memory that
    /// the counts ever need: an `Err` comes only where memory runs out.
    pub fn new(alloc: Global, plan: &Plan) -> Result<Objects, AllocError>
        ensures { IfOk result (λ o. o ≡ replicate (length plan.now.objects) 1) }
    {
        Ok(Objects {
            refs: vec![in alloc; 1; plan.objects() as usize]?,
        })
    }

    /// Copies the counts. The copy takes all its memory at once, so an `Err` comes only if memory runs out.
    pub fn copied(&self, alloc: Global) -> Result<Objects, AllocError>
        ensures { IfOk result (λ o. o ≡ self.now) }
    {
        Ok(Objects {
            refs: Vec::from_slice(alloc, &self.refs)?,
        })
    }

    /// How many references the object has: 1, and one for each retain, less one for each release (dispatch_object(3)).
    pub fn refs(&self, o: Obj) -> u32
        requires { o.0 < length self.now }
        ensures { result ≡ slice_index self.now o.0 }
    {
        self.refs[o.0 as usize]
    }

    /// Whether the object has a reference left; an object with none is released (dispatch_object(3)).
    pub fn is_live(&self, o: Obj) -> bool
        requires { o.0 < length self.now }
        ensures { result ≡ nat_lt 0 (slice_index self.now o.0) }
    {
        self.refs[o.0 as usize] > 0
    }

    /// One reference more on the object (dispatch_retain(3)), which is live and has fewer than 2^32 - 1:
    /// [`Objects::is_live`] and [`Objects::refs`] are the tests.
    pub fn retain(&mut self, o: Obj)
        requires object { o.0 < length self.old }
        requires live { 0 < slice_index self.old o.0 }
        requires room { slice_index self.old o.0 + 1 < 2 ^ 32 }
        ensures { self.new ≡ slice_set self.old o.0 (slice_index self.old o.0 + 1) }
    {
        self.refs[o.0 as usize] += 1;
    }

    /// One reference less on the object (dispatch_release(3)), which is live: [`Objects::is_live`] is the test. With none
    /// left it is released.
    pub fn release(&mut self, o: Obj)
        requires object { o.0 < length self.old }
        requires live { 0 < slice_index self.old o.0 }
        ensures { self.new ≡ slice_set self.old o.0 (slice_index self.old o.0 - 1) }
    {
        self.refs[o.0 as usize] -= 1;
    }
}

// What becomes active, and what is cancelled.
ghost use Rattle.std.specs.Prelude.{◌≡◌};
ghost use Rattle.gcd_tree.specs.IsTree.{IsTree};
ghost use Rattle.gcd_machine.specs.Steps.{activated, cancelled, made_active, made_cancelled, resumed, retargeted, suspended, merged};
ghost use Rattle.gcd_machine.specs.Conditions.{CanActivate, CanCancel, CanMakeActive, CanMakeCancelled, CanResume, CanSuspend, CanTarget, CanMerge};

use super::Registers;
use gcd_plan::Obj;

impl Registers {
    // The tree of targets is valid. It does nothing: proofs take the fact from here.
    #[inline(always)]
    pub fn valid_tree(&self)
        ensures { IsTree self.now.tree }
    {
        self.tree.any_open();
    }

    // The object is active from now on (dispatch_activate(3)).
    pub fn activate(&mut self, o: Obj)
        requires { CanActivate self.old o }
        ensures { self.new ≡ activated self.old o }
    {
        let begins = !self.holds.is_active(o);
        self.valid_tree();
        self.holds.activate(o);
        self.held.rehold(&self.tree, &self.holds, o);
        if begins {
            self.make_active(o);
        }
    }

    // One suspend less is outstanding, or an inactive source becomes active (dispatch_resume(3)).
    pub fn resume(&mut self, o: Obj)
        requires { CanResume self.old o }
        ensures { self.new ≡ resumed self.old o }
    {
        let begins = self.holds.hold(o) == 0 && !self.holds.is_active(o);
        self.valid_tree();
        self.holds.resume(o);
        self.held.rehold(&self.tree, &self.holds, o);
        if begins {
            self.make_active(o);
        }
    }

    // One suspend more is outstanding (dispatch_suspend(3)).
    pub fn suspend(&mut self, o: Obj)
        requires { CanSuspend self.old o }
        ensures { self.new ≡ suspended self.old o }
    {
        self.valid_tree();
        self.holds.suspend(o);
        self.held.rehold(&self.tree, &self.holds, o);
    }

    // The object has another target, at once or as a request (dispatch_set_target_queue(3)).
    pub fn set_target(&mut self, o: Obj, t: Obj)
        requires { CanTarget self.old o t }
        ensures { self.new ≡ retargeted self.old o t }
    {
        self.valid_tree();
        self.tree.set_target(o, t);
        self.held.rehold(&self.tree, &self.holds, o);
    }

    // An object that was inactive begins to be active.
    fn make_active(&mut self, o: Obj)
        requires { CanMakeActive self.old o }
        ensures { self.new ≡ made_active self.old o }
    {
        self.timers.activate(o);
        if self.plan.kind(o).is_read() && !self.sources.is_cancelled(o) {
            self.live.set(o.0);
        }
    }

    // The source is cancelled from now on; the first time its cancellation block is submitted
    // (dispatch_source_cancel(3), dispatch_source_set_cancel_handler(3)).
    pub fn cancel(&mut self, src: Obj)
        requires { CanCancel self.old src }
        ensures { self.new ≡ cancelled self.old src }
    {
        if self.sources.is_cancelled(src) {
            return;
        }
        self.make_cancelled(src);
        if let Some(blk) = self.plan.cancel_block(src) {
            self.submit(src, blk, false);
        }
    }

    // A source that was not cancelled is so now.
    fn make_cancelled(&mut self, src: Obj)
        requires { CanMakeCancelled self.old src }
        ensures { self.new ≡ made_cancelled self.old src }
    {
        self.sources.cancel(src);
        self.timers.cancel(src);
        self.live.clear(src.0);
    }

    // The value is pending at the source (dispatch_source_merge_data(3)).
    pub fn merge(&mut self, src: Obj, value: u32)
        requires { CanMerge self.old src value }
        ensures { self.new ≡ merged self.old src value }
    {
        self.sources.merge(src, u64::from(value));
        if value > 0 {
            self.busy.set(src.0);
        }
    }
}

// What follows where a block ends: which blocks are submitted, and whose wait is over.
ghost use Rattle.std.specs.Prelude.{◌≡◌, ◌<◌, length};
ghost use Rattle.gcd_plan.specs.declared.numbers.Obj.{Obj};
ghost use Rattle.gcd_refinement.specs.Submits.{done_by};
ghost use Rattle.gcd_machine.specs.Steps.{applier_let_go, strip_ended, told_at, told_of, waiters_let_go, waits_ended};
ghost use Rattle.gcd_machine.specs.Conditions.{CanEndWaits, CanLeave, CanLeaveTold, CanLetApplierGo, CanLetGo, CanLetWaitersGo, CanTell, CanTellOf};

use super::Registers;
use gcd_plan::{Blk, Obj};

impl Registers {
    // The second block goes to the queue once the first has ended, at once where it has (dispatch_block_notify(3)).
    pub fn tell_of(&mut self, blk: Blk, queue: Obj, next: Blk)
        requires { CanTellOf self.old blk queue next }
        ensures { self.new ≡ told_of self.old blk queue next }
    {
        self.blocks[next.0 as usize].go_home_to(queue);
        self.marks.notify(blk, next);
        self.tell(blk);
    }

    // Each block that is to be submitted once this one has ended is so, where it has, in the order of registration
    // (dispatch_block_notify(3)). A group that may be left with them may be left after them.
    #[inline(always)]
    pub fn tell(&mut self, blk: Blk)
        requires { CanTell self.old blk }
        ensures told { self.new ≡ told_at self.old blk }
        ensures leaves { (g : Obj) → CanLeaveTold self.old blk g → CanLeave self.new g }
    {
        while let Some(next) = self.marks.fired(blk) {
            let home = self.blocks[next.0 as usize].home();
            self.submit(home, next, false);
        }
    }

    // Whoever waits for the end of the block may wake: its caller, those that wait by an act of their own, and where it is the last of
    // a strip the block that applied that (dispatch_sync(3), dispatch_block_wait(3), dispatch_apply(3)).
    #[inline(always)]
    pub fn end_waits(&mut self, blk: Blk, caller: Option<Blk>)
        requires { CanEndWaits self.old blk caller }
        ensures { self.new ≡ waits_ended self.old blk caller }
    {
        self.let_caller_go(caller);
        self.let_waiters_go(blk);
        self.end_in_strip(blk);
    }

    // Each block that waits for the end of this one by an act of its own may wake (dispatch_block_wait(3)). Where no act of the plan
    // waits so there is no list of them.
    #[inline(always)]
    fn let_waiters_go(&mut self, blk: Blk)
        requires { CanLetWaitersGo self.old }
        ensures { self.new ≡ waiters_let_go self.old blk }
    {
        if (blk.0 as usize) < self.waiters.len() {
            self.let_listed_go(blk);
        }
    }

    // The same where there is a list of them.
    fn let_listed_go(&mut self, blk: Blk)
        requires list { blk.0 < length self.old.waiters.lists }
        requires waiters { CanLetWaitersGo self.old }
        ensures { self.new ≡ waiters_let_go self.old blk }
    {
        while let Some((waiter, _)) = self.waiters.pop(Obj(blk.0)) {
            self.let_go(waiter);
        }
    }

    // One block more of a strip has ended, if this one is of one (dispatch_apply(3)).
    #[inline(always)]
    fn end_in_strip(&mut self, blk: Blk)
        requires { CanLetApplierGo self.old (done_by self.old blk) }
        ensures { self.new ≡ strip_ended self.old blk }
    {
        let strip = self.done_strip(blk);
        self.let_applier_go(strip);
        self.strips.done(blk);
    }

    // The strip of which the block is the last that has not ended.
    #[inline(always)]
    fn done_strip(&self, blk: Blk) -> Option<u32>
        ensures { result ≡ done_by self.now blk }
    {
        let a = self.strips.strip_of(blk)?;
        if self.strips.left(a) == 1 {
            Some(a)
        } else {
            None
        }
    }

    // The block that applied the strip may wake, if there is one.
    #[inline(always)]
    fn let_applier_go(&mut self, strip: Option<u32>)
        requires { CanLetApplierGo self.old strip }
        ensures { self.new ≡ applier_let_go self.old strip }
    {
        match strip {
            Some(a) => {
                let applier = self.appliers[a as usize];
                self.appliers[a as usize] = None;
                self.let_caller_go(applier);
            }
            None => {}
        }
    }
}

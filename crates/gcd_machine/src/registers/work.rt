// Who has which run, and which blocks may wake.
ghost use Rattle.std.specs.Prelude.{◌≡◌, Some};
ghost use Rattle.gcd_plan.specs.declared.numbers.Blk.{Blk};
ghost use Rattle.gcd_machine.specs.Steps.{taken_up, set_free, let_go, caller_let_go, laid_down, first_let_go, all_let_go, parked, signalled_at};
ghost use Rattle.gcd_machine.specs.Conditions.{CanTakeUp, CanSetFree, CanPark, CanLetGo, CanLayDown, CanWakeAt, CanSignal};

use super::Registers;
use gcd_plan::{Blk, Obj, Reason, Run};

impl Registers {
    // The worker has the run.
    #[inline(always)]
    pub fn take_up(&mut self, worker: u8, run: Run)
        requires { CanTakeUp self.old worker }
        ensures { self.new ≡ taken_up self.old worker run }
    {
        self.workers[worker as usize] = Some(run);
        self.running += 1;
    }

    // The worker has no run.
    #[inline(always)]
    pub fn set_free(&mut self, worker: u8)
        requires { CanSetFree self.old worker }
        ensures { self.new ≡ set_free self.old worker }
    {
        self.workers[worker as usize] = None;
        self.running -= 1;
    }

    // The block is parked, with this limit or without one, and its worker is free.
    pub fn park(&mut self, worker: u8, blk: Blk, why: Reason, limit: Option<u32>)
        requires { CanPark self.old worker blk why limit }
        ensures { self.new ≡ parked self.old worker blk why limit }
    {
        match limit {
            Some(at) => self.waits.park_until(blk, why, at),
            None => self.waits.park(blk, why),
        }
        self.set_free(worker);
    }

    // The wait of the block is over: it may wake, and has no limit ahead.
    pub fn let_go(&mut self, blk: Blk)
        requires { CanLetGo self.old blk }
        ensures { self.new ≡ let_go self.old blk }
    {
        self.wakeable.set(blk.0);
        self.forget_limit(blk);
        self.ripe.clear(blk.0);
    }

    // Whoever waits for the end of a block may wake, if somebody does.
    #[inline(always)]
    pub fn let_caller_go(&mut self, caller: Option<Blk>)
        requires { (b : Blk) → caller ≡ Some b → CanLetGo self.old b }
        ensures { self.new ≡ caller_let_go self.old caller }
    {
        match caller {
            Some(blk) => self.let_go(blk),
            None => {}
        }
    }

    // The block sleeps at the object until its wait is over.
    pub fn lay_down(&mut self, o: Obj, blk: Blk)
        requires { CanLayDown self.old o blk }
        ensures { self.new ≡ laid_down self.old o blk }
    {
        self.sleepers.push(o, blk, false);
    }

    // The first block that sleeps at the object may wake.
    pub fn let_first_go(&mut self, o: Obj)
        requires { CanWakeAt self.old o }
        ensures { self.new ≡ first_let_go self.old o }
    {
        if let Some((blk, _)) = self.sleepers.pop(o) {
            self.let_go(blk);
        }
    }

    // Each block that sleeps at the object may wake.
    pub fn let_all_go(&mut self, o: Obj)
        requires { CanWakeAt self.old o }
        ensures { self.new ≡ all_let_go self.old o }
    {
        while let Some((blk, _)) = self.sleepers.pop(o) {
            self.let_go(blk);
        }
    }

    // The semaphore is signalled once more, and the first block that sleeps there may wake (dispatch_semaphore_signal(3)).
    pub fn signal(&mut self, s: Obj)
        requires { CanSignal self.old s }
        ensures { self.new ≡ signalled_at self.old s }
    {
        self.semas.signal(s);
        self.let_first_go(s);
    }
}

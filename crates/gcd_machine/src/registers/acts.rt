// One act more.
ghost use Rattle.std.specs.Prelude.{◌≡◌, ℕ, Some};
ghost use Rattle.gcd_history.specs.Runs.{act_at};
ghost use Rattle.gcd_machine.specs.Steps.{acted, act_made, act_taken, parked_in, parked_by_act, effect_of, called_by, waited_for_group, waited_for_semaphore, waited_for_strip, waited_for_block, laid_down, limited};
ghost use Rattle.gcd_machine.specs.Conditions.{CanAct, CanDo, CanCount, CanParkIn, CanParkBy, CanHaveEffect, CanCall, CanWaitForGroup, CanWaitForSemaphore, CanWaitForStrip, CanWaitForBlock, CanBeAhead, CanLayDown, CanLetGo};

use super::Registers;
use gcd_plan::{Act, Blk, Obj, Reason, Run};

impl Registers {
    // The run makes its act of this index.
    #[inline(always)]
    pub fn act(&mut self, worker: u8, run: Run, index: u32)
        requires { CanAct self.old worker run index }
        ensures { self.new ≡ act_taken self.old worker run (act_at self.old.plan run index) }
    {
        match self.act_at(run, index) {
            Some(act) => self.make(worker, run, act),
            None => {}
        }
    }

    // The run makes the act.
    #[inline(always)]
    pub fn make(&mut self, worker: u8, run: Run, act: Act)
        requires { CanDo self.old worker run act }
        ensures { self.new ≡ act_made self.old worker run act }
    {
        self.count_act(run);
        self.park_in(worker, run, act);
        self.have_effect(act);
    }

    // Parks the run where the act waits for something; a handler waits for nothing.
    #[inline(always)]
    fn park_in(&mut self, worker: u8, run: Run, act: Act)
        requires { CanParkIn self.old worker run act }
        ensures { self.new ≡ parked_in self.old worker run act }
    {
        match run {
            Run::Block(blk) => self.park_by(worker, blk, act),
            Run::Source(_) => {}
        }
    }

    // The run has made one act more.
    #[inline(always)]
    fn count_act(&mut self, run: Run)
        requires { CanCount self.old run }
        ensures { self.new ≡ acted self.old run }
    {
        match run {
            Run::Block(blk) => self.blocks[blk.0 as usize].count_act(),
            Run::Source(src) => self.handlers[src.0 as usize].done += 1,
        }
    }

    // Parks the block where the act waits for something.
    #[inline(always)]
    fn park_by(&mut self, worker: u8, blk: Blk, act: Act)
        requires { CanParkBy self.old worker blk act }
        ensures { self.new ≡ parked_by_act self.old worker blk act }
    {
        match act {
            Act::Sync(_, called) | Act::BarrierSync(_, called) => self.call(worker, blk, called),
            Act::GroupWait(g) => self.wait_for_group(worker, blk, g, None),
            Act::GroupWaitFor(g, ms) => {
                self.wait_for_group(worker, blk, g, Some(self.limit_of(ms)))
            }
            Act::Wait(s) => self.wait_for_semaphore(worker, blk, s, None),
            Act::WaitFor(s, ms) => {
                self.wait_for_semaphore(worker, blk, s, Some(self.limit_of(ms)))
            }
            Act::Apply(_, a) => self.wait_for_strip(worker, blk, a),
            Act::WaitBlock(other) => self.wait_for_block(worker, blk, other),
            Act::Async(..) | Act::Barrier(..) | Act::GroupAsync(..) | Act::Notify(..) => {}
            Act::Enter(_) | Act::Leave(_) | Act::Signal(_) => {}
            Act::Suspend(_) | Act::Resume(_) | Act::Activate(_) | Act::Target(..) => {}
            Act::Merge(..) | Act::Cancel(_) | Act::Retain(_) | Act::Release(_) => {}
            Act::CancelBlock(_) | Act::NotifyBlock(..) => {}
        }
    }

    // The block waits for the end of the block that it submits (dispatch_sync(3)).
    fn call(&mut self, worker: u8, blk: Blk, called: Blk)
        requires { CanCall self.old worker blk called }
        ensures { self.new ≡ called_by self.old worker blk called }
    {
        self.blocks[called.0 as usize].call_from(blk);
        self.park(worker, blk, Reason::Block(called), None);
    }

    // The block waits until the group is empty, or to this limit (dispatch_group_wait(3)).
    fn wait_for_group(&mut self, worker: u8, blk: Blk, g: Obj, limit: Option<u32>)
        requires { CanWaitForGroup self.old worker blk g limit }
        ensures { self.new ≡ waited_for_group self.old worker blk g limit }
    {
        if self.groups.count(g) == 0 {
            self.let_go(blk);
        } else {
            self.sleep(g, blk, limit);
        }
        self.park(worker, blk, Reason::Group(g, self.len), limit);
    }

    // The block waits for its turn at the semaphore, or to this limit (dispatch_semaphore_wait(3)).
    fn wait_for_semaphore(&mut self, worker: u8, blk: Blk, s: Obj, limit: Option<u32>)
        requires { CanWaitForSemaphore self.old worker blk s limit }
        ensures { self.new ≡ waited_for_semaphore self.old worker blk s limit }
    {
        if self.semas.has_value(s) {
            self.let_go(blk);
        } else {
            self.sleep(s, blk, limit);
        }
        let rank = self.semas.wait(s);
        self.park(worker, blk, Reason::Rank(s, rank), limit);
    }

    // The block waits for the ends of all blocks of the strip, which it submits (dispatch_apply(3)).
    fn wait_for_strip(&mut self, worker: u8, blk: Blk, a: u32)
        requires { CanWaitForStrip self.old worker blk a }
        ensures { self.new ≡ waited_for_strip self.old worker blk a }
    {
        if self.strips.left(a) == 0 {
            self.let_go(blk);
        } else {
            self.appliers[a as usize] = Some(blk);
        }
        self.park(worker, blk, Reason::Strip(a), None);
    }

    // The block waits for the end of the other (dispatch_block_wait(3)).
    fn wait_for_block(&mut self, worker: u8, blk: Blk, other: Blk)
        requires { CanWaitForBlock self.old worker blk other }
        ensures { self.new ≡ waited_for_block self.old worker blk other }
    {
        if self.ended[other.0 as usize] {
            self.let_go(blk);
        } else {
            self.waiters.push(Obj(other.0), blk, false);
        }
        self.park(worker, blk, Reason::Block(other), None);
    }

    // The block sleeps at the object, with this limit or without one.
    fn sleep(&mut self, o: Obj, blk: Blk, limit: Option<u32>)
        requires sleeps { CanLayDown self.old o blk }
        requires over { CanLetGo self.old blk }
        requires ahead { (end : ℕ) → limit ≡ Some end → CanBeAhead self.old blk end }
        ensures { self.new ≡ limited (laid_down self.old o blk) blk limit }
    {
        self.lay_down(o, blk);
        self.limit(blk, limit);
    }

    // What the act does, whoever makes it.
    #[inline(always)]
    fn have_effect(&mut self, act: Act)
        requires { CanHaveEffect self.old act }
        ensures { self.new ≡ effect_of self.old act }
    {
        match act {
            Act::Async(q, b) | Act::Sync(q, b) => self.submit(q, b, false),
            Act::Barrier(q, b) | Act::BarrierSync(q, b) => self.submit(q, b, true),
            Act::GroupAsync(g, q, b) => self.submit_member(g, q, b),
            Act::Notify(g, q, b) => self.register(g, q, b),
            Act::Enter(g) => self.groups.enter(g, self.len + 1),
            Act::Leave(g) => self.leave_by_act(g),
            Act::GroupWait(_) | Act::GroupWaitFor(..) => {}
            Act::Wait(_) | Act::WaitFor(..) => {}
            Act::Signal(s) => self.signal(s),
            Act::Suspend(o) => self.suspend(o),
            Act::Resume(o) => self.resume(o),
            Act::Activate(o) => self.activate(o),
            Act::Target(o, t) => self.set_target(o, t),
            Act::Merge(s, n) => self.merge(s, n),
            Act::Cancel(s) => self.cancel(s),
            Act::Retain(o) => self.refs.retain(o),
            Act::Release(o) => self.refs.release(o),
            Act::Apply(q, a) => self.submit_strip(q, a),
            Act::CancelBlock(b) => self.marks.cancel(b),
            Act::WaitBlock(_) => {}
            Act::NotifyBlock(b, q, c) => self.tell_of(b, q, c),
        }
    }
}

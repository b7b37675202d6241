// One event more.
ghost use Rattle.std.specs.Prelude.{◌≡◌};
ghost use Rattle.gcd_machine.specs.Steps.{stepped, changed, started, woken, closed_block, ended, delivered, delivery_ended};
ghost use Rattle.gcd_machine.specs.Conditions.{CanTake, CanChange, CanStart, CanWake, CanCloseBlock, CanEnd, CanDeliver, CanEndDelivery};

use super::Registers;
use gcd_event::Event;
use gcd_plan::{Blk, Obj, Run};
use gcd_refinement::HandlerProgress;

impl Registers {
    /// Takes the event.
    #[inline(always)]
    pub fn apply(&mut self, e: Event)
        requires { CanTake self.old e }
        ensures { self.new ≡ stepped self.old e }
    {
        let len = self.len + 1;
        self.change(e);
        self.len = len;
    }

    // Changes what the event changes beside the number of events.
    #[inline(always)]
    fn change(&mut self, e: Event)
        requires { CanChange self.old e }
        ensures { self.new ≡ changed self.old e }
    {
        match e {
            Event::Start { worker, blk } => self.start(worker, blk),
            Event::Act { worker, run, index } => self.act(worker, run, index),
            Event::Wake { worker, blk } => self.wake(worker, blk),
            Event::End { worker, blk } => self.end(worker, blk),
            Event::Deliver { worker, src } => self.deliver(worker, src),
            Event::DeliverEnd { worker, src } => self.end_delivery(worker, src),
            Event::Tick { at } => self.tick(at),
            Event::Ready { src, bytes } => self.merge(src, bytes),
            Event::FeedEnd { src } => self.cancel(src),
            Event::Misuse { .. } => self.misused = true,
            Event::Halt => self.halted = true,
            Event::Expire { blk } => self.expire(blk),
            Event::Accept { blk, .. } => self.accept(blk),
            Event::Shut => self.shut = true,
        }
    }

    // The worker starts the block.
    #[inline(always)]
    fn start(&mut self, worker: u8, blk: Blk)
        requires { CanStart self.old worker blk }
        ensures { self.new ≡ started self.old worker blk }
    {
        let cell = self.blocks[blk.0 as usize];
        self.blocks[blk.0 as usize].start();
        self.marks.began(blk);
        self.begin_run(cell.node(), cell.is_barrier());
        self.take_up(worker, Run::Block(blk));
    }

    // The worker goes on with the block, which was parked.
    fn wake(&mut self, worker: u8, blk: Blk)
        requires { CanWake self.old worker blk }
        ensures { self.new ≡ woken self.old worker blk }
    {
        self.waits.woken(blk);
        self.wakeable.clear(blk.0);
        self.take_up(worker, Run::Block(blk));
    }

    // The worker ends the block.
    #[inline(always)]
    fn end(&mut self, worker: u8, blk: Blk)
        requires { CanEnd self.old worker blk }
        ensures { self.new ≡ ended self.old worker blk }
    {
        let cell = self.blocks[blk.0 as usize];
        self.close_block(worker, blk);
        self.tell(blk);
        self.end_waits(blk, cell.caller());
        self.leave_group(cell.group());
    }

    // The block is over: its run closes on its node, if it has one, and the worker is free.
    #[inline(always)]
    fn close_block(&mut self, worker: u8, blk: Blk)
        requires { CanCloseBlock self.old worker blk }
        ensures { self.new ≡ closed_block self.old worker blk }
    {
        let cell = self.blocks[blk.0 as usize];
        self.ended[blk.0 as usize] = true;
        self.left -= 1;
        self.marks.ended(blk);
        self.close_run(cell.node(), cell.is_barrier());
        self.set_free(worker);
    }

    // The worker hands what is pending at the source to its handler.
    fn deliver(&mut self, worker: u8, src: Obj)
        requires { CanDeliver self.old worker src }
        ensures { self.new ≡ delivered self.old worker src }
    {
        self.handlers[src.0 as usize] = HandlerProgress {
            done: 0,
            taken: self.timers.due_count(src),
            given: self.pending(src),
        };
        self.sources.take(src);
        self.tree.opened(src);
        let stays = self.stays_busy(src, 0);
        self.busy.put(src.0, stays);
        self.take_up(worker, Run::Source(src));
    }

    // The worker ends the run of the source's handler.
    fn end_delivery(&mut self, worker: u8, src: Obj)
        requires { CanEndDelivery self.old worker src }
        ensures { self.new ≡ delivery_ended self.old worker src }
    {
        self.valid_tree();
        let moves = self.tree.is_moving(src);
        self.tree.closed(src);
        if moves {
            self.held.rehold(&self.tree, &self.holds, src);
        }
        self.set_free(worker);
    }
}

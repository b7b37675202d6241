// What may come next.
ghost use Rattle.std.specs.Prelude.{◌≡◌, ◌<◌, ◌||◌, is_some, true, length};
ghost use Rattle.gcd_plan.specs.Limits.{max_workers};
ghost use Rattle.gcd_plan.specs.Kinds.{is_source};
ghost use Rattle.gcd_history.specs.Permitted.{is_known, is_run_of, is_worker};
ghost use Rattle.gcd_event.specs.declared.event.Event.{Event};
ghost use Rattle.gcd_sync.specs.WaitsView.{reason_at};
ghost use Rattle.gcd_refinement.specs.MachineView.{live_at};
ghost use Rattle.gcd_machine.specs.Judged.{block_fault_at, fault_at, is_at_limit_at, is_pending_at, may_tick_at, may_wake_at, source_fault_at, why_by};
ghost use Rattle.gcd_machine.specs.Stands.{IsShaped};

use super::Registers;
use gcd_event::Event;
use gcd_plan::{
    Blk, MAX_ACTS, MAX_SENDERS, MAX_TIME, MAX_VALUE, MAX_WORKERS, MisuseCode, Obj, Run, Why,
};

// Whether it is a worker's number.
pub fn is_worker(worker: u8) -> bool
    ensures { result ≡ is_worker worker }
{
    u32::from(worker) < MAX_WORKERS
}

impl Registers {
    /// The first reason why the event may not come next, or None: then it may.
    pub fn why_not(&self, e: Event) -> Option<Why>
        requires { IsShaped self.now }
        ensures { result ≡ why_by self.now e }
    {
        if self.is_over() {
            Some(Why::Over)
        } else if self.knows(e) {
            self.fault(e)
        } else {
            Some(Why::NoSuch)
        }
    }

    /// Whether a misuse or a halt has ended the run.
    pub fn is_over(&self) -> bool
        ensures { result ≡ (self.now.misused || self.now.halted) }
    {
        self.misused || self.halted
    }

    // Whether the event fits, and names what the plan has.
    fn knows(&self, e: Event) -> bool
        ensures { result ≡ is_known self.now.plan e }
    {
        match e {
            Event::Start { worker, blk } => is_worker(worker) && self.has_block(blk),
            Event::Act { worker, run, index } => is_worker(worker)
                && self.has_run(run)
                && index < MAX_ACTS,
            Event::Wake { worker, blk } => is_worker(worker) && self.has_block(blk),
            Event::End { worker, blk } => is_worker(worker) && self.has_block(blk),
            Event::Deliver { worker, src } => is_worker(worker) && self.has_source(src),
            Event::DeliverEnd { worker, src } => is_worker(worker) && self.has_source(src),
            Event::Tick { at } => 1 <= at && at <= MAX_TIME,
            Event::Ready { src, bytes } => self.has_feed(src) && 1 <= bytes && bytes <= MAX_VALUE,
            Event::FeedEnd { src } => self.has_feed(src),
            Event::Misuse {
                worker,
                run,
                index,
                code,
            } => is_worker(worker)
                && self.has_run(run)
                && index < MAX_ACTS
                && 1 <= code
                && code <= MisuseCode::LAST,
            Event::Halt => true,
            Event::Expire { blk } => self.has_block(blk),
            Event::Accept { blk, sender } => self.is_made_by_intake(blk)
                && u32::from(sender) < MAX_SENDERS,
            Event::Shut => true,
        }
    }

    // Why an event that the plan knows may not come next.
    fn fault(&self, e: Event) -> Option<Why>
        requires shape { IsShaped self.now }
        requires known { is_known self.now.plan e ≡ true }
        ensures { result ≡ fault_at self.now e }
    {
        match e {
            Event::Start { worker, blk } => self.start_fault(worker, blk),
            Event::Act { worker, run, index } => self.act_fault(worker, run, index),
            Event::Wake { worker, blk } => self.wake_fault(worker, blk),
            Event::End { worker, blk } => self.end_fault(worker, blk),
            Event::Deliver { worker, src } => self.deliver_fault(worker, src),
            Event::DeliverEnd { worker, src } => self.deliver_end_fault(worker, src),
            Event::Tick { at } => self.tick_fault(at),
            Event::Ready { src, .. } => self.feed_fault(src),
            Event::FeedEnd { src } => self.feed_fault(src),
            Event::Misuse {
                worker,
                run,
                index,
                code,
            } => self.misuse_fault(worker, run, index, code),
            Event::Halt => None,
            Event::Expire { blk } => self.expire_fault(blk),
            Event::Accept { blk, sender } => self.accept_fault(blk, sender),
            Event::Shut => self.shut_fault(),
        }
    }

    fn start_fault(&self, worker: u8, blk: Blk) -> Option<Why>
        requires shape { IsShaped self.now }
        requires worker { worker < max_workers }
        requires blk { blk.0 < length self.now.plan.blocks }
        ensures { result ≡ fault_at self.now (Event.Start worker blk) }
    {
        if self.is_busy(worker) {
            Some(Why::Busy)
        } else {
            self.block_fault(blk)
        }
    }

    /// Why a worker without a run may not start the block; `main` waits on no node (dispatch_async(3)).
    pub fn block_fault(&self, blk: Blk) -> Option<Why>
        requires shape { IsShaped self.now }
        requires blk { blk.0 < length self.now.plan.blocks }
        ensures { result ≡ block_fault_at self.now blk.0 }
    {
        if blk.0 != 0 {
            self.drains
                .may_start(&self.lists, &self.tree, &self.holds, &self.held, blk)
        } else if self.blocks[blk.0 as usize].is_started() {
            Some(Why::Unready)
        } else {
            None
        }
    }

    fn act_fault(&self, worker: u8, run: Run, index: u32) -> Option<Why>
        requires shape { IsShaped self.now }
        requires worker { worker < max_workers }
        requires run { is_run_of self.now.plan run ≡ true }
        ensures { result ≡ fault_at self.now (Event.Act worker run index) }
    {
        if !self.is_own(worker, run) {
            Some(Why::NotOwn)
        } else if !self.is_next(run, index) {
            Some(Why::NotNext)
        } else if self.misuse_of_run(run, index).is_some() {
            Some(Why::IsMisuse)
        } else {
            None
        }
    }

    fn wake_fault(&self, worker: u8, blk: Blk) -> Option<Why>
        requires shape { IsShaped self.now }
        requires worker { worker < max_workers }
        requires blk { blk.0 < length self.now.plan.blocks }
        ensures { result ≡ fault_at self.now (Event.Wake worker blk) }
    {
        if self.is_busy(worker) {
            Some(Why::Busy)
        } else if self.waits.reason(blk).is_none() {
            Some(Why::NotParked)
        } else if self.may_wake(blk) {
            None
        } else {
            Some(Why::Waiting)
        }
    }

    // Whether what the parked block waits for has come, or its wait has expired (dispatch_sync(3), dispatch_apply(3),
    // dispatch_block_wait(3), dispatch_group_wait(3), dispatch_semaphore_wait(3)).
    fn may_wake(&self, blk: Blk) -> bool
        requires shape { IsShaped self.now }
        requires blk { blk.0 < length self.now.plan.blocks }
        requires parked { is_some (reason_at self.now.waits blk.0) ≡ true }
        ensures { result ≡ may_wake_at self.now blk.0 }
    {
        self.waits
            .may_wake(&self.groups, &self.semas, &self.strips, &self.ended, blk)
    }

    fn end_fault(&self, worker: u8, blk: Blk) -> Option<Why>
        requires shape { IsShaped self.now }
        requires worker { worker < max_workers }
        requires blk { blk.0 < length self.now.plan.blocks }
        ensures { result ≡ fault_at self.now (Event.End worker blk) }
    {
        if !self.is_own(worker, Run::Block(blk)) {
            Some(Why::NotOwn)
        } else if self.next_act(Run::Block(blk)).is_some() {
            Some(Why::NotNext)
        } else {
            None
        }
    }

    fn deliver_fault(&self, worker: u8, src: Obj) -> Option<Why>
        requires shape { IsShaped self.now }
        requires worker { worker < max_workers }
        requires source { src.0 < length self.now.plan.objects }
        ensures { result ≡ fault_at self.now (Event.Deliver worker src) }
    {
        if self.is_busy(worker) {
            Some(Why::Busy)
        } else {
            self.source_fault(src)
        }
    }

    /// Why a worker without a run may not deliver what is pending at the source (dispatch_source_create(3)).
    pub fn source_fault(&self, src: Obj) -> Option<Why>
        requires shape { IsShaped self.now }
        requires source { src.0 < length self.now.plan.objects }
        ensures { result ≡ source_fault_at self.now src.0 }
    {
        if self.is_pending(src) {
            self.drains
                .may_run(&self.tree, &self.holds, &self.held, src)
        } else {
            Some(Why::Unready)
        }
    }

    /// Whether something is pending at the source, which is not cancelled.
    pub fn is_pending(&self, src: Obj) -> bool
        requires shape { IsShaped self.now }
        requires source { src.0 < length self.now.plan.objects }
        ensures { result ≡ is_pending_at self.now src.0 }
    {
        if self.sources.is_cancelled(src) {
            return false;
        }
        if self.sources.pending(src) > 0 {
            return true;
        }
        self.has_due(src)
    }

    fn deliver_end_fault(&self, worker: u8, src: Obj) -> Option<Why>
        requires shape { IsShaped self.now }
        requires worker { worker < max_workers }
        requires source { is_source self.now.plan src.0 ≡ true }
        ensures { result ≡ fault_at self.now (Event.DeliverEnd worker src) }
    {
        if !self.is_own(worker, Run::Source(src)) {
            Some(Why::NotOwn)
        } else if self.next_act(Run::Source(src)).is_some() {
            Some(Why::NotNext)
        } else {
            None
        }
    }

    fn tick_fault(&self, at: u32) -> Option<Why>
        requires { IsShaped self.now }
        ensures { result ≡ fault_at self.now (Event.Tick at) }
    {
        if self.may_tick(at) {
            None
        } else {
            Some(Why::NotDue)
        }
    }

    // Whether time may come to this moment: it lies ahead, not past `until`, and a timer or the limit of a
    // wait is due by then (dispatch_source_set_timer(3)).
    fn may_tick(&self, at: u32) -> bool
        requires { IsShaped self.now }
        ensures { result ≡ may_tick_at self.now at }
    {
        if at <= self.timers.moment() {
            return false;
        }
        if at > self.plan.until() {
            return false;
        }
        match self.next_due() {
            Some(due) => due <= at,
            None => false,
        }
    }

    fn expire_fault(&self, blk: Blk) -> Option<Why>
        requires shape { IsShaped self.now }
        requires blk { blk.0 < length self.now.plan.blocks }
        ensures { result ≡ fault_at self.now (Event.Expire blk) }
    {
        if self.waits.reason(blk).is_none() {
            Some(Why::NotParked)
        } else if !self.is_at_limit(blk) {
            Some(Why::NotDue)
        } else if self.may_wake(blk) {
            Some(Why::Came)
        } else {
            None
        }
    }

    // Whether the block is parked with a limit, and time has come to it (dispatch_semaphore_wait(3), dispatch_group_wait(3)).
    fn is_at_limit(&self, blk: Blk) -> bool
        requires shape { IsShaped self.now }
        requires blk { blk.0 < length self.now.plan.blocks }
        ensures { result ≡ is_at_limit_at self.now blk.0 }
    {
        match self.waits.limit(blk) {
            Some(at) => at <= self.timers.moment(),
            None => false,
        }
    }

    fn feed_fault(&self, src: Obj) -> Option<Why>
        requires shape { IsShaped self.now }
        requires source { src.0 < length self.now.plan.objects }
        ensures { result ≡ fault_at self.now (Event.FeedEnd src) }
    {
        if self.is_live_feed(src) {
            None
        } else {
            Some(Why::NotLive)
        }
    }

    /// Whether it is a read source that is active and not cancelled (dispatch_source_create(3)).
    pub fn is_live_feed(&self, src: Obj) -> bool
        requires shape { IsShaped self.now }
        requires source { src.0 < length self.now.plan.objects }
        ensures { result ≡ live_at self.now src.0 }
    {
        self.live.has(src.0)
    }

    fn misuse_fault(&self, worker: u8, run: Run, index: u32, code: u8) -> Option<Why>
        requires shape { IsShaped self.now }
        requires worker { worker < max_workers }
        requires run { is_run_of self.now.plan run ≡ true }
        ensures { result ≡ fault_at self.now (Event.Misuse worker code run index) }
    {
        if !self.is_own(worker, run) {
            Some(Why::NotOwn)
        } else if !self.is_next(run, index) {
            Some(Why::NotNext)
        } else {
            match self.misuse_of_run(run, index) {
                Some(found) if found == code => None,
                Some(_) => Some(Why::NotMisuse),
                None => Some(Why::NotMisuse),
            }
        }
    }

    // Why the block may not be accepted from outside.
    fn accept_fault(&self, blk: Blk, sender: u8) -> Option<Why>
        requires { IsShaped self.now }
        ensures { result ≡ fault_at self.now (Event.Accept blk sender) }
    {
        match self.next_intake() {
            None => Some(Why::NotLive),
            Some(next) => {
                if next.0 == blk.0 {
                    None
                } else {
                    Some(Why::NotNext)
                }
            }
        }
    }

    // Why the intake may not be shut.
    fn shut_fault(&self) -> Option<Why>
        ensures { result ≡ fault_at self.now Event.Shut }
    {
        if self.intake_open() {
            None
        } else {
            Some(Why::NotLive)
        }
    }
}

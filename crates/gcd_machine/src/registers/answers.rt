// What a machine tells of what it keeps.
ghost use Rattle.std.specs.Prelude.{◌≡◌, ◌<◌, ◌-◌, ◌^◌, find, length, option_map};
ghost use Rattle.std.specs.List.{range_with_len};
ghost use Rattle.gcd_blockobj.specs.MarksView.{is_cancelled_at as is_block_cancelled_at};
ghost use Rattle.gcd_sync.specs.WaitsView.{reason_at};
ghost use Rattle.gcd_history.specs.Runs.{act_of};
ghost use Rattle.gcd_history.specs.Parked.{is_parking};
ghost use Rattle.gcd_refinement.specs.MachineView.{block_at, ended_at, handler_at, live_at};
ghost use Rattle.gcd_refinement.specs.After.{pending_in};
ghost use Rattle.gcd_machine.specs.Conditions.{HasPending};
ghost use Rattle.gcd_machine.specs.Judged.{first_waiting_at};
ghost use Rattle.gcd_machine.specs.Stands.{IsShaped};

use super::Registers;
use gcd_event::Event;
use gcd_plan::{Blk, Obj, Reason};

impl Registers {
    /// How many events have come.
    pub fn len(&self) -> u32
        ensures { result ≡ self.now.len }
    {
        self.len
    }

    /// How many runs are open and not parked.
    pub fn running(&self) -> u32
        ensures { result ≡ self.now.running }
    {
        self.running
    }

    /// The first block that waits on the object.
    pub fn first_waiting(&self, node: Obj) -> Option<Blk>
        requires shape { IsShaped self.now }
        requires node { node.0 < length self.now.plan.objects }
        ensures { result ≡ first_waiting_at self.now node.0 }
    {
        match self.lists.first(node) {
            Some((blk, _)) => Some(blk),
            None => None,
        }
    }

    /// The queue or source on which the block was submitted.
    pub fn node_of(&self, blk: Blk) -> Option<Obj>
        requires shape { IsShaped self.now }
        requires blk { blk.0 < length self.now.plan.blocks }
        ensures { result ≡ (block_at self.now blk.0).node }
    {
        self.blocks[blk.0 as usize].node()
    }

    /// Whether the block has started.
    pub fn is_started(&self, blk: Blk) -> bool
        requires shape { IsShaped self.now }
        requires blk { blk.0 < length self.now.plan.blocks }
        ensures { result ≡ (block_at self.now blk.0).started }
    {
        self.blocks[blk.0 as usize].is_started()
    }

    /// Whether the block has ended.
    pub fn is_ended(&self, blk: Blk) -> bool
        requires shape { IsShaped self.now }
        requires blk { blk.0 < length self.now.plan.blocks }
        ensures { result ≡ ended_at self.now blk.0 }
    {
        self.ended[blk.0 as usize]
    }

    /// Whether the block is cancelled (dispatch_block_testcancel(3)).
    #[inline(always)]
    pub fn is_cancelled(&self, blk: Blk) -> bool
        ensures { result ≡ is_block_cancelled_at self.now.marks blk.0 }
    {
        self.marks.is_cancelled(blk)
    }

    /// What the block waits for, where it is parked.
    pub fn awaited(&self, blk: Blk) -> Option<Reason>
        ensures { result ≡ reason_at self.now.waits blk.0 }
    {
        self.waits.reason(blk)
    }

    /// The live read source with the least number from this one on.
    pub fn next_live_feed(&self, from: u32) -> Option<Obj>
        ensures { option_map (λ o. o.0) result ≡ find (live_at self.now) (range_with_len from (length self.now.live - from)) }
    {
        match self.live.next(from) {
            Some(o) => Some(Obj(o)),
            None => None,
        }
    }

    /// What the last delivery of the source handed over.
    pub fn given(&self, src: Obj) -> u64
        requires shape { IsShaped self.now }
        requires source { src.0 < length self.now.plan.objects }
        ensures { result ≡ (handler_at self.now src.0).given }
    {
        self.handlers[src.0 as usize].given
    }

    /// What is pending at the source, with the due times that no delivery took, where that is a number of 64 bits.
    pub fn pending_of(&self, src: Obj) -> u64
        requires shape { IsShaped self.now }
        requires source { src.0 < length self.now.plan.objects }
        ensures pending { HasPending self.now src → result ≡ pending_in self.now src.0 }
        ensures few { self.now.len < 2 ^ 32 }
    {
        // what has come is bounded by the number of events
        prove!(self.len <= u32::MAX);
        let due = self
            .timers
            .due_count(src)
            .saturating_sub(self.handlers[src.0 as usize].taken);
        self.sources.pending(src).saturating_add(due)
    }

    /// Whether the event is an act that parks its block.
    pub fn parks(&self, e: Event) -> bool
        ensures { result ≡ is_parking (act_of self.now.plan e) }
    {
        match e {
            Event::Act { run, index, .. } => match self.act_at(run, index) {
                Some(act) => act.parks(),
                None => false,
            },
            Event::Start { .. } | Event::Wake { .. } | Event::End { .. } => false,
            Event::Deliver { .. } | Event::DeliverEnd { .. } => false,
            Event::Tick { .. } | Event::Ready { .. } | Event::FeedEnd { .. } => false,
            Event::Misuse { .. } | Event::Halt | Event::Expire { .. } => false,
            Event::Accept { .. } | Event::Shut => false,
        }
    }
}

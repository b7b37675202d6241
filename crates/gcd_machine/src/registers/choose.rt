// What a worker records next.
ghost use Rattle.std.specs.Prelude.{◌≡◌, ◌+◌, ◌-◌, ◌<◌, ◌≤◌, ◌^◌, None, find, length, slice_get, true};
ghost use Rattle.std.specs.List.{range_with_len};
ghost use Rattle.std.specs.Option.{option_map_or};
ghost use Rattle.gcd_plan.specs.Validity.{is_act};
ghost use Rattle.gcd_history.specs.Permitted.{is_run_of};
ghost use Rattle.gcd_lists.specs.ListsView.{list_at};
ghost use Rattle.gcd_drain.specs.Shut.{AreSound, is_shut_by};
ghost use Rattle.gcd_machine.specs.Chosen.{act_event_at, all_nodes_at, begin_by, choice_by, deliver_at, expiry_by, idle_choice_at, main_at, may_begin_at, next_set, node_at, nodes_at, own_event_at, start_at, wake_at};
ghost use Rattle.gcd_machine.specs.Stands.{IsShaped};

use super::Registers;
use super::judge::is_worker;
use gcd_drain::KnownChains;
use gcd_event::Event;
use gcd_plan::{Act, Blk, Obj, Run};

impl Registers {
    /// What the worker records next: of its own run, or a wake, the start of `main`, or of the objects from this number on,
    /// wrapping round, a start or a delivery.
    #[inline(always)]
    pub fn choice(&self, worker: u8, from: u32) -> Option<Event>
        requires { IsShaped self.now }
        ensures { result ≡ choice_by self.now worker from }
    {
        if self.is_over() || !is_worker(worker) {
            return None;
        }
        match self.own(worker) {
            Some(run) => Some(self.own_event(worker, run)),
            None => self.idle_choice(worker, from),
        }
    }

    /// What the worker may begin on the object, if it has no run: the start of the first block that waits there, or the
    /// source's delivery.
    pub fn begin(&self, worker: u8, node: Obj) -> Option<Event>
        requires shape { IsShaped self.now }
        requires node { node.0 < length self.now.plan.objects }
        ensures { result ≡ begin_by self.now worker node.0 }
    {
        if self.is_over() || !is_worker(worker) {
            return None;
        }
        if self.is_busy(worker) {
            return None;
        }
        self.node_choice(worker, node, &mut KnownChains::new())
    }

    // The next event of the run, which the worker has.
    #[inline(always)]
    fn own_event(&self, worker: u8, run: Run) -> Event
        requires shape { IsShaped self.now }
        requires run { is_run_of self.now.plan run ≡ true }
        ensures { result ≡ own_event_at self.now worker run }
    {
        match self.next_act(run) {
            Some(act) => self.act_event(worker, run, act),
            None => match run {
                Run::Block(blk) => Event::End { worker, blk },
                Run::Source(src) => Event::DeliverEnd { worker, src },
            },
        }
    }

    // The run's next act, as an act or as a misuse.
    #[inline(always)]
    fn act_event(&self, worker: u8, run: Run, act: Act) -> Event
        requires shape { IsShaped self.now }
        requires run { is_run_of self.now.plan run ≡ true }
        requires act { is_act self.now.plan act ≡ true }
        ensures { result ≡ act_event_at self.now worker run act }
    {
        let index = self.done(run);
        match self.misuse(act) {
            Some(code) => Event::Misuse {
                worker,
                run,
                index,
                code,
            },
            None => Event::Act { worker, run, index },
        }
    }

    // What a worker without a run records next.
    #[inline(always)]
    pub fn idle_choice(&self, worker: u8, from: u32) -> Option<Event>
        requires { IsShaped self.now }
        ensures { result ≡ idle_choice_at self.now worker from }
    {
        if let Some(e) = self.wake_choice(worker) {
            return Some(e);
        }
        if let Some(e) = self.main_choice(worker) {
            return Some(e);
        }
        self.all_nodes_choice(worker, from.min(self.plan.objects()))
    }

    // The parked block with the least number that may wake.
    #[inline(always)]
    fn next_wakeable(&self) -> Option<u32>
        requires { IsShaped self.now }
        ensures { result ≡ next_set self.now.wakeable 0 }
    {
        self.wakeable.next(0)
    }

    // The wake of that block.
    #[inline(always)]
    fn wake_choice(&self, worker: u8) -> Option<Event>
        requires { IsShaped self.now }
        ensures { result ≡ wake_at self.now worker }
    {
        match self.next_wakeable() {
            Some(b) => Some(Event::Wake {
                worker,
                blk: Blk(b),
            }),
            None => None,
        }
    }

    /// The expiry of the parked block with the least number whose wait may expire.
    pub fn expiry(&self) -> Option<Event>
        requires { IsShaped self.now }
        ensures { result ≡ expiry_by self.now }
    {
        if self.is_over() {
            return None;
        }
        match self.next_ripe() {
            Some(b) => Some(Event::Expire { blk: Blk(b) }),
            None => None,
        }
    }

    // The parked block with the least number whose wait may expire.
    fn next_ripe(&self) -> Option<u32>
        requires { IsShaped self.now }
        ensures { result ≡ next_set self.now.ripe 0 }
    {
        self.ripe.next(0)
    }

    // The start of `main`, until it has come.
    #[inline(always)]
    fn main_choice(&self, worker: u8) -> Option<Event>
        requires { IsShaped self.now }
        ensures { result ≡ main_at self.now worker }
    {
        if self.blocks[0].is_started() {
            None
        } else {
            Some(Event::Start {
                worker,
                blk: Blk(0),
            })
        }
    }

    // The first start or delivery of the objects from this number on, wrapping round.
    #[inline(always)]
    fn all_nodes_choice(&self, worker: u8, first: u32) -> Option<Event>
        requires shape { IsShaped self.now }
        requires first { first ≤ length self.now.plan.objects }
        ensures { result ≡ all_nodes_at self.now worker first }
    {
        let mut marks = KnownChains::new();
        match self.nodes_choice(worker, first, self.plan.objects(), &mut marks) {
            Some(e) => Some(e),
            None => self.nodes_choice(worker, 0, first, &mut marks),
        }
    }

    // The next object from this number on that has to be looked at and whose chain is not held.
    #[inline(always)]
    fn next_busy(&self, from: u32) -> Option<u32>
        requires { IsShaped self.now }
        ensures { result ≡ find (may_begin_at self.now) (range_with_len from (length self.now.busy - from)) }
    {
        self.held.next_in(&self.busy, from)
    }

    // The same below `end`.
    #[inline(always)]
    fn next_busy_below(&self, from: u32, end: u32) -> Option<u32>
        requires shape { IsShaped self.now }
        requires order { from ≤ end }
        requires within { end ≤ length self.now.plan.objects }
        ensures { result ≡ find (may_begin_at self.now) (range_with_len from (end - from)) }
    {
        match self.next_busy(from) {
            Some(n) if n < end => Some(n),
            Some(_) => None,
            None => None,
        }
    }

    // The first start or delivery of the objects from `from` on, below `end`. The marks say which chains are known.
    #[tactic(auto, using(crate::proofs::Choice::FirstNode::found_within, crate::proofs::Choice::FirstNode::nodes_none))]
    #[inline(always)]
    fn nodes_choice(
        &self,
        worker: u8,
        from: u32,
        end: u32,
        marks: &mut KnownChains,
    ) -> Option<Event>
        requires shape { IsShaped self.now }
        requires order { from ≤ end }
        requires within { end ≤ length self.now.plan.objects }
        requires sound { AreSound self.now.drains self.now.tree self.now.holds marks.old }
        ensures event { result ≡ nodes_at self.now worker from (end - from) }
        ensures sound { AreSound self.now.drains self.now.tree self.now.holds marks.new }
    {
        let mut n = from;
        while let Some(o) = self.next_busy_below(n, end) {
            if let Some(e) = self.node_choice(worker, Obj(o), marks) {
                return Some(e);
            }
            n = o + 1;
        }
        None
    }

    // The start of the first block that waits on the object, or the source's delivery, if it may come next.
    #[inline(always)]
    fn node_choice(&self, worker: u8, node: Obj, marks: &mut KnownChains) -> Option<Event>
        requires shape { IsShaped self.now }
        requires node { node.0 < length self.now.plan.objects }
        requires sound { AreSound self.now.drains self.now.tree self.now.holds marks.old }
        ensures event { result ≡ node_at self.now worker node.0 }
        ensures sound { AreSound self.now.drains self.now.tree self.now.holds marks.new }
    {
        if self.is_shut(node, marks) {
            return None;
        }
        match self.start_choice(worker, node) {
            Some(e) => Some(e),
            None => self.deliver_choice(worker, node),
        }
    }

    // Whether the object's chain is shut. If no run is open on any object it is just if it is held.
    #[inline(always)]
    fn is_shut(&self, node: Obj, marks: &mut KnownChains) -> bool
        requires shape { IsShaped self.now }
        requires node { node.0 < length self.now.plan.objects }
        requires sound { AreSound self.now.drains self.now.tree self.now.holds marks.old }
        ensures answer { result ≡ is_shut_by self.now.drains self.now.tree self.now.holds node.0 }
        ensures sound { AreSound self.now.drains self.now.tree self.now.holds marks.new }
    {
        if self.tree.any_open() {
            self.drains.is_shut(&self.tree, &self.holds, node, marks)
        } else {
            self.held.has(node)
        }
    }

    // The start of the first block that waits on the object, whose chain is not shut.
    #[inline(always)]
    fn start_choice(&self, worker: u8, node: Obj) -> Option<Event>
        requires shape { IsShaped self.now }
        requires node { node.0 < length self.now.plan.objects }
        ensures { result ≡ option_map_or (start_at self.now worker node.0) (slice_get (list_at self.now.lists node.0) 0) None }
    {
        match self.lists.first(node) {
            Some((blk, barrier)) => {
                if self.drains.is_fenced(&self.tree, node, barrier) {
                    None
                } else {
                    Some(Event::Start { worker, blk })
                }
            }
            None => None,
        }
    }

    // The delivery of the source, whose chain is not shut.
    #[inline(always)]
    fn deliver_choice(&self, worker: u8, node: Obj) -> Option<Event>
        requires shape { IsShaped self.now }
        requires node { node.0 < length self.now.plan.objects }
        ensures { result ≡ deliver_at self.now worker node.0 }
    {
        if self.has_source(node) && self.is_pending(node) {
            Some(Event::Deliver { worker, src: node })
        } else {
            None
        }
    }
}

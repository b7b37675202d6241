// A place of a run: the machine that stands there, and what the events before it have made.

use crate::naming::{
    acts_from, block_name, kind_of, kind_words, object_name, run_name, strip_name, strip_span,
};
use crate::scene::Scene;
use gcd_event::Event;
use gcd_machine::Machine;
use gcd_plan::{Act, Blk, Kind, Obj, Plan, Reason, Run, Why};

/// A place of a run of a plan.
#[derive(Clone, Copy)]
pub struct Sight<'a> {
    pub plan: &'a Plan,
    pub machine: &'a Machine,
    pub scene: &'a Scene,
}

impl<'a> Sight<'a> {
    pub fn name_of_object(self, o: Obj) -> &'a str {
        object_name(self.plan, o)
    }

    pub fn name_of_block(self, b: Blk) -> &'a str {
        block_name(self.plan, b)
    }

    pub fn name_of_strip(self, a: u32) -> &'a str {
        strip_name(self.plan, a)
    }

    pub fn name_of(self, run: Run) -> &'a str {
        run_name(self.plan, run)
    }

    /// What the object is, in words.
    pub fn kind_of(self, o: Obj) -> &'static str {
        kind_words(kind_of(self.plan, o))
    }

    /// Whether the block has started.
    pub fn is_started(self, b: Blk) -> bool {
        b.0 < self.machine.blocks() && self.machine.is_started(b)
    }

    /// Whether the block has ended.
    pub fn is_ended(self, b: Blk) -> bool {
        b.0 < self.machine.blocks() && self.machine.is_ended(b)
    }

    /// Whether the block is cancelled.
    pub fn is_cancelled(self, b: Blk) -> bool {
        b.0 < self.machine.blocks() && self.machine.is_cancelled(b)
    }

    /// Whether the block is one of the intake's.
    pub fn is_of_intake(self, b: Blk) -> bool {
        match self.plan.intake() {
            Some((_, first, count)) => first <= b.0 && b.0 - first < count,
            None => false,
        }
    }

    /// The first block of the strip that has not ended, and how many have not.
    pub fn left_of_strip(self, a: u32) -> (Option<Blk>, u32) {
        let (first, count) = strip_span(self.plan, a);
        let (mut found, mut left) = (None, 0u32);
        for place in 0..count {
            let b = Blk(first.saturating_add(place));
            if !self.is_ended(b) {
                left = left.saturating_add(1);
                found = found.or(Some(b));
            }
        }
        (found, left)
    }

    /// What the block waits for, where it is parked.
    pub fn awaited(self, b: Blk) -> Option<Reason> {
        if b.0 >= self.machine.blocks() {
            return None;
        }
        self.machine.awaited(b)
    }

    /// What the run waits for, where it is a block that is parked.
    pub fn awaited_by(self, run: Run) -> Option<Reason> {
        match run {
            Run::Block(b) => self.awaited(b),
            Run::Source(_) => None,
        }
    }

    /// The node on which the block was submitted.
    pub fn node_of(self, b: Blk) -> Option<Obj> {
        if b.0 >= self.machine.blocks() {
            return None;
        }
        self.machine.node_of(b)
    }

    /// Whether the block is submitted; `main` is from the outset.
    pub fn is_submitted(self, b: Blk) -> bool {
        b.0 == 0 || self.node_of(b).is_some()
    }

    /// The first block that waits on the node.
    pub fn first_waiting(self, node: Obj) -> Option<Blk> {
        if node.0 >= self.machine.objects() {
            return None;
        }
        self.machine.first_waiting(node)
    }

    /// What is pending at the source.
    pub fn pending(self, s: Obj) -> u64 {
        if s.0 >= self.machine.objects() {
            return 0;
        }
        self.machine.pending_of(s)
    }

    // Whether the block has started and not ended.
    fn is_open_block(self, b: Blk) -> bool {
        self.is_started(b) && !self.is_ended(b)
    }

    /// Whether the run is open.
    pub fn is_open(self, run: Run) -> bool {
        match run {
            Run::Block(b) => self.is_open_block(b),
            Run::Source(s) => self.scene.object(s).is_delivering,
        }
    }

    /// The node of a run.
    pub fn node(self, run: Run) -> Option<Obj> {
        match run {
            Run::Block(b) => self.node_of(b),
            Run::Source(s) => Some(s),
        }
    }

    // The first such object of the node's chain, which ends in `root`.
    fn first_above<F: Fn(Obj) -> bool>(self, node: Obj, is_met: F) -> Option<Obj>
        requires { F.IsAlwaysCallable is_met }
    {
        let mut at = node;
        for _ in 0..self.plan.objects() {
            if is_met(at) {
                return Some(at);
            }
            if at.0 == 0 {
                return None;
            }
            at = self.scene.object(at).target;
        }
        None
    }

    // The first such block of the plan.
    fn first_block<F: Fn(Blk) -> bool>(self, is_met: F) -> Option<Blk>
        requires { F.IsAlwaysCallable is_met }
    {
        for b in 0..self.plan.blocks() {
            if is_met(Blk(b)) {
                return Some(Blk(b));
            }
        }
        None
    }

    /// Whether the node is the object, or beneath it.
    pub fn is_beneath(self, node: Obj, o: Obj) -> bool {
        self.first_above(node, |at| at == o).is_some()
    }

    /// The first open run beneath the object.
    pub fn open_beneath(self, o: Obj) -> Option<Run> {
        for s in 0..self.plan.objects() {
            if self.scene.object(Obj(s)).is_delivering && self.is_beneath(Obj(s), o) {
                return Some(Run::Source(Obj(s)));
            }
        }
        let b = self.first_block(|b| self.is_open_block(b) && self.stands_beneath(b, o))?;
        Some(Run::Block(b))
    }

    // Whether the block was submitted to the object, or beneath it.
    fn stands_beneath(self, b: Blk, o: Obj) -> bool {
        self.node_of(b).is_some_and(|node| self.is_beneath(node, o))
    }

    // Whether the block is open and stands on the object itself.
    fn is_open_on(self, b: Blk, o: Obj) -> bool {
        self.node_of(b) == Some(o) && self.is_open_block(b)
    }

    /// The first open run on the object itself, a barrier where there is one.
    pub fn open_on(self, o: Obj) -> Option<Blk> {
        self.first_block(|b| self.is_open_on(b, o) && self.scene.block(b).is_barrier)
            .or_else(|| self.first_block(|b| self.is_open_on(b, o)))
    }

    /// The first serial queue or source of the node's chain beneath which a run is open, and that run.
    pub fn excluding(self, node: Obj) -> Option<(Obj, Run)> {
        let o = self.first_above(node, |at| {
            kind_of(self.plan, at).is_exclusive() && self.open_beneath(at).is_some()
        })?;
        Some((o, self.open_beneath(o)?))
    }

    /// The first object of the node's chain that is inactive, suspended or under way to another target.
    pub fn held(self, node: Obj) -> Option<Obj> {
        self.first_above(node, |at| self.scene.object(at).is_held())
    }

    /// The first block other than `waiter` that has the act still before it, and has not ended. A cancelled block makes no act.
    pub fn left_to(self, act: Act, waiter: Blk) -> Option<Blk> {
        self.first_block(|b| b != waiter && self.has_left(b, act))
    }

    /// The first block other than `waiter` that still signals the semaphore: one that does not wait there before it signals, if there is
    /// one.
    pub fn signaller(self, s: Obj, waiter: Blk) -> Option<Blk> {
        let act = Act::Signal(s);
        self.first_block(|b| b != waiter && self.has_left(b, act) && !self.waits_first(b, s))
            .or_else(|| self.left_to(act, waiter))
    }

    // Whether the block waits at the semaphore now, or before its next signal.
    fn waits_first(self, b: Blk, s: Obj) -> bool {
        if let Some(Reason::Rank(other, _)) = self.awaited(b) {
            if other == s {
                return true;
            }
        }
        for act in self.acts_left(b) {
            match *act {
                Act::Wait(other) | Act::WaitFor(other, _) if other == s => return true,
                Act::Signal(other) if other == s => return false,
                _ => {}
            }
        }
        false
    }

    // The acts that the block has not made.
    fn acts_left(self, b: Blk) -> &'a [Act] {
        acts_from(self.plan, Run::Block(b), self.scene.block(b).made)
    }

    /// Whether the block has the act still before it, and has not ended.
    pub fn has_left(self, b: Blk, act: Act) -> bool {
        let is_over = self.is_ended(b) || self.is_cancelled(b);
        !is_over && self.acts_left(b).iter().any(|left| *left == act)
    }

    /// The first member of the group that has not ended.
    pub fn member(self, g: Obj) -> Option<Blk> {
        self.first_block(|b| self.scene.block(b).group == Some(g) && !self.is_ended(b))
    }

    /// A worker that has no run; 64 where each has one.
    pub fn free_worker(self) -> u8 {
        (0..64u8)
            .find(|worker| self.scene.run_of(*worker).is_none())
            .unwrap_or(64)
    }

    /// Why the block may not start now, as the machine says.
    pub fn bars_start(self, blk: Blk) -> Option<Why> {
        let worker = self.free_worker();
        self.machine.permits(Event::Start { worker, blk })
    }

    /// Why nothing may be delivered of the source now, as the machine says.
    pub fn bars_deliver(self, src: Obj) -> Option<Why> {
        let worker = self.free_worker();
        self.machine.permits(Event::Deliver { worker, src })
    }

    /// The first value of a semaphore.
    pub fn first_value(self, s: Obj) -> u32 {
        match kind_of(self.plan, s) {
            Kind::Semaphore(value) => value,
            _ => 0,
        }
    }
}

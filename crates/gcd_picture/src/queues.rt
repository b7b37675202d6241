// On which node a run is.

use gcd_plan::{Act, Blk, Obj, Plan, Run};
use std::alloc::{AllocError, Global};

/// The node of each block, by number: the queue to which the plan submits it, for a source's cancellation block the source, and None
/// for `main` and for a block that nothing submits; and whether it is a barrier there.
#[derive(Drop)]
pub struct Queues {
    blocks: Vec<Option<Obj>>,
    barriers: Vec<bool>,
}

// The block that the act submits as a barrier.
fn barrier_of(act: Act) -> Option<Blk> {
    match act {
        Act::Barrier(_, b) => Some(b),
        Act::BarrierSync(_, b) => Some(b),
        Act::Async(..) | Act::Sync(..) | Act::GroupAsync(..) | Act::Notify(..) => None,
        Act::Enter(_) | Act::Leave(_) | Act::GroupWait(_) | Act::GroupWaitFor(..) => None,
        Act::Signal(_) | Act::Wait(_) | Act::WaitFor(..) => None,
        Act::Suspend(_) | Act::Resume(_) | Act::Activate(_) | Act::Target(..) => None,
        Act::Merge(..) | Act::Cancel(_) | Act::Retain(_) | Act::Release(_) => None,
        Act::Apply(..) | Act::CancelBlock(_) | Act::WaitBlock(_) | Act::NotifyBlock(..) => None,
    }
}

fn put_barrier(barriers: &mut [bool], barrier: Option<Blk>) {
    if let Some(b) = barrier {
        if let Some(place) = barriers.get_mut(b.0 as usize) {
            *place = true;
        }
    }
}

// Blocks that follow one another, which the plan submits to one queue.
#[derive(Clone, Copy)]
struct Span {
    queue: Obj,
    first: u32,
    count: u32,
}

fn one(queue: Obj, b: Blk) -> Span {
    Span {
        queue,
        first: b.0,
        count: 1,
    }
}

// The blocks of a strip, on the queue to which they are applied.
fn strip(plan: &Plan, queue: Obj, a: u32) -> Option<Span> {
    let strip = plan.strips().get(a as usize)?;
    Some(Span {
        queue,
        first: strip.first,
        count: strip.count,
    })
}

// What the act submits, and to which queue.
fn submitted(plan: &Plan, act: Act) -> Option<Span> {
    match act {
        Act::Async(q, b) => Some(one(q, b)),
        Act::Barrier(q, b) => Some(one(q, b)),
        Act::Sync(q, b) => Some(one(q, b)),
        Act::BarrierSync(q, b) => Some(one(q, b)),
        Act::GroupAsync(_, q, b) => Some(one(q, b)),
        Act::Notify(_, q, b) => Some(one(q, b)),
        Act::NotifyBlock(_, q, c) => Some(one(q, c)),
        Act::Apply(q, a) => strip(plan, q, a),
        Act::CancelBlock(_) | Act::WaitBlock(_) => None,
        Act::Enter(_) | Act::Leave(_) | Act::GroupWait(_) | Act::GroupWaitFor(..) => None,
        Act::Signal(_) | Act::Wait(_) | Act::WaitFor(..) => None,
        Act::Suspend(_) | Act::Resume(_) | Act::Activate(_) | Act::Target(..) => None,
        Act::Merge(..) | Act::Cancel(_) | Act::Retain(_) | Act::Release(_) => None,
    }
}

// The cancellation block of a source, which is submitted on the source itself.
fn cancelled(plan: &Plan, s: Obj) -> Option<Span> {
    if s.0 < plan.objects() {
        plan.cancel_block(s).map(|b| one(s, b))
    } else {
        None
    }
}

// The blocks of the intake, on its queue.
fn intake(plan: &Plan) -> Option<Span> {
    let (queue, first, count) = plan.intake()?;
    Some(Span {
        queue,
        first,
        count,
    })
}

fn put(blocks: &mut [Option<Obj>], span: Option<Span>) {
    if let Some(span) = span {
        for at in 0..span.count {
            if let Some(place) = blocks.get_mut(span.first.saturating_add(at) as usize) {
                *place = Some(span.queue);
            }
        }
    }
}

impl Queues {
    /// The queues of the plan; an `Err` comes only where memory runs out.
    pub fn new(alloc: Global, plan: &Plan) -> Result<Queues, AllocError> {
        let mut blocks = vec![in alloc; None; plan.blocks() as usize]?;
        let mut barriers = vec![in alloc; false; plan.blocks() as usize]?;
        for b in 0..plan.blocks() {
            for act in plan.acts(Run::Block(Blk(b))) {
                put(&mut blocks, submitted(plan, *act));
                put_barrier(&mut barriers, barrier_of(*act));
            }
        }
        put(&mut blocks, intake(plan));
        for s in 0..plan.objects() {
            put(&mut blocks, cancelled(plan, Obj(s)));
        }
        Ok(Queues { blocks, barriers })
    }

    /// The node of a run.
    pub fn of(&self, run: Run) -> Option<Obj> {
        match run {
            Run::Block(b) => self.blocks.get(b.0 as usize).copied().unwrap_or(None),
            Run::Source(s) => Some(s),
        }
    }

    /// Whether a run is of a block that is submitted as a barrier.
    pub fn is_barrier(&self, run: Run) -> bool {
        match run {
            Run::Block(b) => self.barriers.get(b.0 as usize).copied().unwrap_or(false),
            Run::Source(_) => false,
        }
    }
}

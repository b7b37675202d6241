// By which event each block is submitted.

use gcd_event::{Entry, Event};
use gcd_plan::{Act, Blk, Obj, Plan, Run};
use gcd_timeline::act_at;
use std::alloc::{AllocError, Global};

/// The place of the event that submits each block, by number: the act that names it, or applies its strip, which for a notify block is
/// the one that registers it; the Accept of one that came from outside; and for what a source has as its `cancelled` block, what
/// cancels the source first. None where none has come.
#[derive(Drop)]
pub struct Submissions {
    places: Vec<Option<usize>>,
}

// The cancellation block of a source.
fn cancel_block(plan: &Plan, s: Obj) -> Option<Blk> {
    if s.0 < plan.objects() {
        plan.cancel_block(s)
    } else {
        None
    }
}

// The number of a block, and that it is one.
fn one(b: Blk) -> (u32, u32) {
    (b.0, 1)
}

// The blocks that an act submits: the number of the first, and how many there are.
fn blocks_of(plan: &Plan, act: Act) -> Option<(u32, u32)> {
    if let Act::Cancel(s) = act {
        return cancel_block(plan, s).map(one);
    }
    match act.strip() {
        Some(a) => {
            let strip = plan.strips().get(a as usize)?;
            Some((strip.first, strip.count))
        }
        None => act.block().map(one),
    }
}

// The blocks that an event submits.
fn submitted(plan: &Plan, event: Event) -> Option<(u32, u32)> {
    match event {
        Event::Act { run, index, .. } => blocks_of(plan, act_at(plan, run, index)?),
        Event::FeedEnd { src } => cancel_block(plan, src).map(one),
        Event::Accept { blk, .. } => Some(one(blk)),
        Event::Start { .. } | Event::Wake { .. } | Event::End { .. } => None,
        Event::Deliver { .. } | Event::DeliverEnd { .. } => None,
        Event::Tick { .. } | Event::Ready { .. } | Event::Misuse { .. } | Event::Halt => None,
        Event::Expire { .. } | Event::Shut => None,
    }
}

// The event at this place submits the blocks, where no earlier one does.
fn put(places: &mut [Option<usize>], first: u32, count: u32, place: usize) {
    for at in 0..count {
        if let Some(entry) = places.get_mut(first.saturating_add(at) as usize) {
            if entry.is_none() {
                *entry = Some(place);
            }
        }
    }
}

impl Submissions {
    /// Those of the events; an `Err` comes only where memory runs out.
    pub fn new(alloc: Global, plan: &Plan, events: &[Entry]) -> Result<Submissions, AllocError> {
        let mut places = vec![in alloc; None; plan.blocks() as usize]?;
        for (place, event) in events.iter().enumerate() {
            if let Some((first, count)) = submitted(plan, event.event()) {
                put(&mut places, first, count, place);
            }
        }
        Ok(Submissions { places })
    }

    /// The place of the event that submits the run's block; None for a source.
    pub fn of(&self, run: Run) -> Option<usize> {
        match run {
            Run::Block(b) => self.places.get(b.0 as usize).copied().unwrap_or(None),
            Run::Source(_) => None,
        }
    }
}

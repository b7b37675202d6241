// The stretches of all runs, in the order in which a page shows them.

use crate::cancelled::Cancelled;
use crate::queues::Queues;
use crate::showing::Showing;
use gcd_event::{Entry, Event};
use gcd_plan::{Obj, Run};
use gcd_timeline::Mark;
use std::alloc::{AllocError, Global};

/// A stretch of a run, and what comes after it.
#[derive(Clone, Copy)]
pub struct Bar {
    /// The block or source that runs.
    pub run: Run,
    /// The node that it is on, a queue or the source itself; None for `main`, which is on none.
    pub node: Option<Obj>,
    /// Whether it is a barrier there.
    pub is_barrier: bool,
    /// Whether it is of a block that is cancelled, which does nothing.
    pub is_cancelled: bool,
    /// The worker that has it.
    pub worker: u8,
    /// The place of the event that takes it.
    pub from: usize,
    /// The place of the event that gives it back; the number of events where none does.
    pub to: usize,
    /// Where it was parked: the worker and the place with which it goes on, which is the number of events where it does not.
    pub parked: Option<(u8, usize)>,
}

// Whether the event at the place is an act, and so parks the run that it gives back.
fn is_parked_at(events: &[Entry], place: usize) -> bool {
    match events.get(place) {
        Some(event) => matches!(event.event(), Event::Act { .. }),
        None => false,
    }
}

// Where the run of a mark goes on after a stretch, if it is parked.
fn parked_after(mark: &Mark, stretch: usize, events: &[Entry]) -> Option<(u8, usize)> {
    let current = mark.stretches.get(stretch)?;
    if !is_parked_at(events, current.to) {
        return None;
    }
    match mark.stretches.get(stretch.saturating_add(1)) {
        Some(next) => Some((next.worker, next.from)),
        None => Some((current.worker, events.len())),
    }
}

impl Bar {
    /// What kind of run it is of, in a word.
    pub fn kind(&self) -> &'static str {
        match self.run {
            Run::Block(_) => {
                if self.is_cancelled {
                    "cancelled"
                } else if self.is_barrier {
                    "barrier"
                } else {
                    "block"
                }
            }
            Run::Source(_) => "delivery",
        }
    }
}

fn add_bars(
    bars: &mut Vec<Bar>,
    mark: &Mark,
    queues: &Queues,
    cancelled: &Cancelled,
    events: &[Entry],
) -> Result<(), AllocError> {
    for (index, stretch) in mark.stretches.iter().enumerate() {
        bars.push(Bar {
            run: mark.run,
            node: queues.of(mark.run),
            is_barrier: queues.is_barrier(mark.run),
            is_cancelled: cancelled.has(mark.run),
            worker: stretch.worker,
            from: stretch.from,
            to: stretch.to,
            parked: parked_after(mark, index, events),
        })?;
    }
    Ok(())
}

/// The stretches of all marks, in the order of their first places; an `Err` comes only where memory runs out.
pub fn bars_of(alloc: Global, showing: Showing) -> Result<Vec<Bar>, AllocError> {
    let queues = Queues::new(alloc, showing.plan)?;
    let cancelled = Cancelled::new(alloc, showing.plan, showing.events)?;
    let mut bars = Vec::new(alloc);
    for mark in showing.marks {
        add_bars(&mut bars, mark, &queues, &cancelled, showing.events)?;
    }
    bars.sort_by_key(|bar| bar.from)?;
    Ok(bars)
}

// Which blocks are cancelled.

use gcd_event::{Entry, Event};
use gcd_plan::{Act, Blk, Plan, Run};
use gcd_timeline::act_at;
use std::alloc::{AllocError, Global};

/// Whether each block is cancelled, by number: a `cancel_block` of it stands before its Start (dispatch_block_cancel(3)).
#[derive(Drop)]
pub struct Cancelled {
    blocks: Vec<bool>,
}

fn put(flags: &mut [bool], b: Blk, flag: bool) {
    if let Some(entry) = flags.get_mut(b.0 as usize) {
        *entry = flag;
    }
}

// The block that an event cancels, if it has not started.
fn cancelled_by(plan: &Plan, event: Event) -> Option<Blk> {
    let Event::Act { run, index, .. } = event else {
        return None;
    };
    let Some(Act::CancelBlock(b)) = act_at(plan, run, index) else {
        return None;
    };
    Some(b)
}

impl Cancelled {
    /// Those of the events; an `Err` comes only where memory runs out.
    pub fn new(alloc: Global, plan: &Plan, events: &[Entry]) -> Result<Cancelled, AllocError> {
        let mut started = vec![in alloc; false; plan.blocks() as usize]?;
        let mut blocks = vec![in alloc; false; plan.blocks() as usize]?;
        for entry in events {
            let event = entry.event();
            if let Event::Start { blk, .. } = event {
                put(&mut started, blk, true);
            }
            if let Some(b) = cancelled_by(plan, event) {
                if !started.get(b.0 as usize).copied().unwrap_or(true) {
                    put(&mut blocks, b, true);
                }
            }
        }
        Ok(Cancelled { blocks })
    }

    /// Whether a run is of a block that is cancelled.
    pub fn has(&self, run: Run) -> bool {
        match run {
            Run::Block(b) => self.blocks.get(b.0 as usize).copied().unwrap_or(false),
            Run::Source(_) => false,
        }
    }
}

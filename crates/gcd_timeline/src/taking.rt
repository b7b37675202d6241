// Which run an event takes or gives back, and which act it records.
ghost use Rattle.std.specs.Prelude.{◌≡◌, Some};
ghost use Rattle.gcd_history.specs.Parked.{is_parking};
ghost use Rattle.gcd_history.specs.Runs.{act_at, same_run};
ghost use Rattle.gcd_history.specs.Held.{taken, given};
ghost use Rattle.gcd_timeline.specs.Marks.{is_run};

use gcd_event::Event;
use gcd_plan::{Act, Plan, Run};

/// The run that the event's worker takes.
pub fn taken(event: Event) -> Option<Run>
    ensures { result ≡ taken event }
{
    match event {
        Event::Start { blk, .. } => Some(Run::Block(blk)),
        Event::Wake { blk, .. } => Some(Run::Block(blk)),
        Event::Deliver { src, .. } => Some(Run::Source(src)),
        Event::Act { .. } | Event::Misuse { .. } => None,
        Event::End { .. } | Event::DeliverEnd { .. } => None,
        Event::Tick { .. } | Event::Ready { .. } | Event::FeedEnd { .. } | Event::Halt => None,
        Event::Expire { .. } | Event::Accept { .. } | Event::Shut => None,
    }
}

/// The run that the event's worker gives back.
pub fn given(plan: &Plan, event: Event) -> Option<Run>
    ensures { result ≡ given plan.now event }
{
    match event {
        Event::Act { run, index, .. } => {
            if parks(plan, run, index) {
                Some(run)
            } else {
                None
            }
        }
        Event::End { blk, .. } => Some(Run::Block(blk)),
        Event::DeliverEnd { src, .. } => Some(Run::Source(src)),
        Event::Start { .. } | Event::Wake { .. } | Event::Deliver { .. } => None,
        Event::Tick { .. } | Event::Ready { .. } | Event::FeedEnd { .. } => None,
        Event::Misuse { .. } | Event::Halt | Event::Expire { .. } => None,
        Event::Accept { .. } | Event::Shut => None,
    }
}

// Whether the run's act of this index parks it; a run that the plan has not makes none.
fn parks(plan: &Plan, run: Run, index: u32) -> bool
    ensures { result ≡ is_parking (act_at plan.now run index) }
{
    match act_at(plan, run, index) {
        Some(act) => act.parks(),
        None => false,
    }
}

/// The act at a place of what the run does; None where the plan has no such run or the run no such act.
pub fn act_at(plan: &Plan, run: Run, index: u32) -> Option<Act>
    ensures { result ≡ act_at plan.now run index }
{
    let known = match run {
        Run::Block(b) => b.0 < plan.blocks(),
        Run::Source(s) => s.0 < plan.objects(),
    };
    if known {
        plan.acts(run).get(index as usize).copied()
    } else {
        None
    }
}

fn same_run(one: Run, other: Run) -> bool
    ensures { result ≡ same_run one other }
{
    match (one, other) {
        (Run::Block(b), Run::Block(c)) => b.0 == c.0,
        (Run::Source(s), Run::Source(t)) => s.0 == t.0,
        (Run::Block(_), Run::Source(_)) | (Run::Source(_), Run::Block(_)) => false,
    }
}

/// Whether what is told is this run.
pub fn is_run(run: Run, told: Option<Run>) -> bool
    ensures { result ≡ is_run run told }
{
    match told {
        Some(other) => same_run(run, other),
        None => false,
    }
}

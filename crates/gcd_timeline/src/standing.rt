// How each block of a plan stands after the events of a run.
ghost use Rattle.std.specs.Prelude.{◌≡◌, ◌<◌, ◌^◌, List, length, map, IfOk};
ghost use Rattle.std.specs.List.{range_with_len};
ghost use Rattle.gcd_plan.specs.PlanView.{PlanView};
ghost use Rattle.gcd_event.specs.declared.event.Event.{Event};
ghost use Rattle.gcd_history.specs.History.{IsLawful};
ghost use Rattle.gcd_machine.specs.Stands.{StandsFor};
ghost use Rattle.gcd_timeline.specs.Standings.{standing_of, standings_of};

use gcd_event::Entry;
use gcd_journal::replayed;
use gcd_machine::Machine;
use gcd_plan::{Blk, Plan};
use std::alloc::{AllocError, Global};

/// How a block stands after the events of a run (dispatch_async(3)).
#[derive(Clone, Copy, PartialEq, Eq)]
pub enum Standing {
    /// It has started.
    Started,
    /// It is submitted and has not started.
    Waiting,
    /// It is not submitted. A notify block is not submitted until its group is empty, or its block has ended.
    Unsubmitted,
}

// How the block stands after what the machine has taken. `main` is submitted from the outset.
fn standing_after(machine: &Machine, b: Blk) -> Standing
    requires { b.0 < length machine.now.plan.blocks }
    ensures { (plan : PlanView) (h : List Event) → StandsFor machine.now plan h → result ≡ standing_of plan h b.0 }
{
    if machine.is_started(b) {
        return Standing::Started;
    }
    if b.0 == 0 {
        return Standing::Waiting;
    }
    if machine.node_of(b).is_some() {
        return Standing::Waiting;
    }
    Standing::Unsubmitted
}

// How each block stands after what the machine has taken, by number.
fn standings_by(alloc: Global, machine: &Machine) -> Result<Vec<Standing>, AllocError>
    ensures { (plan : PlanView) (h : List Event) → StandsFor machine.now plan h → IfOk result (λ s. s.items ≡ standings_of plan h) }
{
    let mut standings = Vec::new(alloc);
    for b in 0..machine.blocks() {
        standings.push(standing_after(machine, Blk(b)))?;
    }
    Ok(standings)
}

/// How each block of the plan stands after the events, by number: the history decides (`is_started` and `is_submitted` of
/// `gcd_history`), and not which acts the plan has. An `Err` comes only where memory runs out. It costs what a machine's steps cost.
pub fn standings(alloc: Global, plan: &Plan, events: &[Entry]) -> Result<Vec<Standing>, AllocError>
    requires lawful { IsLawful plan.now events.now }
    requires few { length events.now < 2 ^ 32 }
    ensures { IfOk result (λ s. s.items ≡ standings_of plan.now events.now) }
{
    let replay = replayed(alloc, plan, events)?;
    standings_by(alloc, &replay.machine)
}

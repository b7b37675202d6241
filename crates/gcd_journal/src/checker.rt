// Judges the events of a run.
ghost use Rattle.std.specs.Prelude.{◌≡◌, ◌<◌, ◌^◌, [], length, IfOk, IfErr};
ghost use Rattle.gcd_machine.specs.Stands.{StandsFor};
ghost use Rattle.gcd_journal.specs.Judged.{IsLawfulWith, IsFaultOf};
ghost use Rattle.gcd_journal.specs.Taken.{HasTaken};

use gcd_event::Entry;
use gcd_history::State;
use gcd_machine::Machine;
use gcd_plan::Plan;
use std::alloc::{AllocError, Global};

/// Why events are not called lawful.
#[derive(Clone, Copy, Debug, PartialEq, Eq)]
pub enum CheckFault {
    /// The event at this index, from 0, is the first that is not permitted.
    Unlawful { index: u32 },
    /// Memory ran out.
    Memory,
}

impl From<AllocError> for CheckFault {
    ghost use Rattle.gcd_journal.specs.declared.checker.CheckFault.TheVariants.{Memory};

    ghost from_gives = { λ _ fault. fault ≡ Memory };

    fn from(_: AllocError) -> CheckFault {
        CheckFault::Memory
    }
}

/// Judges a run of the plan by its events: the state to which they have come where each is permitted at its position, and else
/// `Unlawful` at exactly the first that is not. No event after it is looked at. `Memory` comes only where memory runs out for the
/// machine, which is taken at the begin. It costs what the machine's steps cost.
pub fn check(alloc: Global, plan: &Plan, events: &[Entry]) -> Result<State, CheckFault>
    requires { length events.now < 2 ^ 32 }
    ensures lawful { IfOk result (IsLawfulWith plan.now events.now) }
    ensures fault { IfErr result (IsFaultOf plan.now events.now) }
{
    let mut machine = Machine::new(alloc, plan)?;
    match judge(plan, &mut machine, events) {
        None => Ok(machine.state()),
        Some(index) => Err(CheckFault::Unlawful { index }),
    }
}

/// Lets a machine of the plan that has taken nothing take the events up to the first that is not permitted. Returns the index of that
/// event, from 0, or None if each event is permitted at its position. The machine then stands for the events before it, or for all of
/// them, so that its state and the reason why the event is barred can be asked for. It costs what the machine's steps cost.
pub fn judge(plan: &Plan, machine: &mut Machine, events: &[Entry]) -> Option<u32>
    requires begin { StandsFor machine.old plan.now [] }
    requires few { length events.now < 2 ^ 32 }
    ensures { HasTaken plan.now events.now machine.new result }
{
    for (index, e) in events.iter().enumerate() {
        let event = e.event();
        if machine.permits(event).is_some() {
            return Some(index as u32);
        }
        machine.apply(event);
    }
    None
}

// An event that is not permitted.
ghost use Rattle.std.specs.Prelude.{take};
ghost use Rattle.gcd_machine.specs.Stands.{StandsFor};
ghost use Rattle.gcd_why.specs.Barred.{Bars};

use gcd_event::{Entry, Event};
use gcd_machine::Machine;
use gcd_plan::{Plan, Why};

/// The events of a journal, and the machine that stands for those before one that is not permitted.
#[derive(Clone, Copy)]
pub struct Judged<'a> {
    /// The plan of the script.
    pub plan: &'a Plan,
    /// The machine that stands for the events before the one that is not permitted.
    pub machine: &'a Machine,
    /// All events of the journal, in order.
    pub events: &'a [Entry],
    /// The index of the event that is not permitted, from 0.
    pub index: u32,
}

/// An event that is not permitted: its index, from 0, and the first reason why not.
#[derive(Clone, Copy)]
pub struct Barred {
    pub index: u32,
    pub event: Event,
    pub reason: Why,
}

impl Judged<'_> {
    /// Returns the event at the index, with the reason that bars it. None if there is no such event, or if it is permitted.
    pub fn barred(self) -> Option<Barred>
        ensures { StandsFor self.entry.machine.now self.entry.plan.now (take self.entry.index self.entry.events.now)
            → Bars self.entry.plan.now self.entry.events.now self.entry.index result }
    {
        let event = self.events.get(self.index as usize)?.event();
        let reason = self.machine.permits(event)?;
        Some(Barred {
            index: self.index,
            event,
            reason,
        })
    }
}

// The result of a run of jobs.
ghost use Rattle.std.specs.Prelude.{◌≡◌, IfOk, string_bytes};
ghost use Rattle.gcd_journal.specs.JobsReport.{job_value, jobs_report};
ghost use Rattle.gcd_machine.specs.Stands.{StandsFor};
ghost use Rattle.gcd_workers.specs.RanValues.{value_at};

use gcd_event::Entry;
use gcd_history::State;
use gcd_journal::jobs_report;
use gcd_machine::Machine;
use gcd_plan::{Blk, Plan};
use std::alloc::{AllocError, Global};

/// The result of a run of jobs.
#[derive(Drop)]
pub struct Ran {
    /// All events, in order.
    pub journal: Vec<Entry>,
    /// The values of the blocks, by number. A block that has not ended, or that is cancelled, has None.
    pub values: Vec<Option<u64>>,
    /// How far the run has come.
    pub state: State,
    /// The machine that stands for the journal.
    pub machine: Machine,
}

impl Ran {
    /// Returns the value of a block: None if it has not ended, or is cancelled, or if the plan has no such block (this project's own rule).
    pub fn value(&self, b: Blk) -> Option<u64>
        ensures { result ≡ value_at self.now.values.items b.0 }
    {
        match self.values.get(b.0 as usize) {
            Some(value) => *value,
            None => None,
        }
    }

    /// Returns how far the run has come.
    pub fn state(&self) -> State
        ensures { result ≡ self.now.state }
    {
        self.state
    }

    /// Returns all events, in order.
    pub fn journal(&self) -> &[Entry]
        ensures { result.now ≡ self.now.journal.items }
    {
        &self.journal
    }

    /// Returns the report of the run, as `gcd run` writes it, but with a line for each block that has ended, `main` first: `NAME = VALUE` or
    /// `NAME cancelled`. Then come a line for each source, one for each block that is parked or has not started if the run is stuck, and how the
    /// run ended. `plan` is the plan of the run: each call that runs jobs says that the machine stands for its journal (`stands`). Returns `Err`
    /// only if memory runs out. It costs a look at each block and object. If an object of the plan is a source, a further machine takes the
    /// events.
    pub fn report(&self, alloc: Global, plan: &Plan) -> Result<String, AllocError>
        requires { StandsFor self.now.machine plan.now self.now.journal.items }
        ensures { IfOk result (λ text. string_bytes text
            ≡ jobs_report plan.now (job_value self.now.values.items) self.now.state self.now.journal.items) }
    {
        jobs_report(
            alloc,
            plan,
            &self.machine,
            &self.values,
            self.state,
            &self.journal,
        )
    }
}

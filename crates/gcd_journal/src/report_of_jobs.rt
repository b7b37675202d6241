// Makes the report of a run of a caller's own jobs.
ghost use Rattle.std.specs.Prelude.{◌≡◌, ◌<◌, ◌^◌, ◌++◌, List, length, string_bytes, IfOk, OnOk};
ghost use Rattle.std.specs.List.{flat_map, range_with_len};
ghost use Rattle.gcd_plan.specs.PlanView.{PlanView};
ghost use Rattle.gcd_event.specs.declared.event.Event.{Event};
ghost use Rattle.gcd_machine.specs.Stands.{StandsFor};
ghost use Rattle.gcd_journal.specs.JobsReport.{job_line, job_value, jobs_report};
ghost use Rattle.gcd_journal.specs.Totals.{AreTotals};

use crate::ending::push_ending;
use crate::report::push_result;
use crate::totals::{Total, totals_by};
use gcd_event::Entry;
use gcd_history::State;
use gcd_machine::Machine;
use gcd_plan::{Blk, Plan};
use std::alloc::{AllocError, Global};

// Returns the value that the list has for a block, or 0 if it has none.
fn job_value(values: &[Option<u64>], b: Blk) -> u64
    ensures { result ≡ job_value values.now b.0 }
{
    match values.get(b.0 as usize) {
        Some(value) => value.unwrap_or(0),
        None => 0,
    }
}

// Adds the line of a block that has ended, and nothing for another.
fn push_job_line(
    text: &mut String,
    plan: &Plan,
    machine: &Machine,
    values: &[Option<u64>],
    b: Blk,
) -> Result<(), AllocError>
    requires block { b.0 < length plan.now.blocks }
    requires own { machine.now.plan ≡ plan.now }
    ensures { (h : List Event) → StandsFor machine.now plan.now h
        → OnOk result (string_bytes text.new ≡ string_bytes text.old ++ job_line plan.now (job_value values.now) h b.0) }
{
    if !machine.is_ended(b) {
        return Ok(());
    }
    let value = job_value(values, b);
    push_result(text, plan.name_of_blk(b), machine.is_cancelled(b), value)
}

// Adds the lines of the blocks that have ended, by number.
fn push_job_lines(
    text: &mut String,
    plan: &Plan,
    machine: &Machine,
    values: &[Option<u64>],
) -> Result<(), AllocError>
    requires { machine.now.plan ≡ plan.now }
    ensures { (h : List Event) → StandsFor machine.now plan.now h
        → OnOk result (string_bytes text.new ≡ string_bytes text.old
        ++ flat_map (job_line plan.now (job_value values.now) h) (range_with_len 0 (length plan.now.blocks))) }
{
    for b in 0..plan.blocks() {
        push_job_line(text, plan, machine, values, Blk(b))?;
    }
    Ok(())
}

// Adds the report to the text, with the totals of the plan's sources. If memory runs out, a part of it may be added.
fn push_jobs_report(
    text: &mut String,
    plan: &Plan,
    machine: &Machine,
    totals: &[Total],
    values: &[Option<u64>],
    state: State,
    events: &[Entry],
) -> Result<(), AllocError>
    requires stands { StandsFor machine.now plan.now events.now }
    requires totals { AreTotals plan.now events.now totals.now }
    ensures { OnOk result (string_bytes text.new ≡ string_bytes text.old ++ jobs_report plan.now (job_value values.now) state events.now) }
{
    push_job_lines(text, plan, machine, values)?;
    push_ending(text, plan, machine, totals, state, events)
}

// Returns how many events the machine has taken, which it counts in 32 bits.
fn count_of(machine: &Machine) -> u32
    ensures { (plan : PlanView) (h : List Event) → StandsFor machine.now plan h → length h < 2 ^ 32 }
{
    machine.len()
}

/// Returns the report of a run of a caller's own jobs in this state, from a machine that has taken its events: a line for each block that has
/// ended, `main` first, with the value that `values` has for it, or that it is cancelled; and then what [`write_report`](crate::write_report)
/// writes too: a line for each source, one for each block that is parked or has not started if the run is stuck, and how it ended. A block that
/// has ended, is not cancelled and has no value is told with 0; a run of `gcd_workers` has a value for each of those. Returns `Err` only
/// if memory runs out. It looks at each block and object once. If an object of the plan is a source, a further machine takes the events.
pub fn jobs_report(
    alloc: Global,
    plan: &Plan,
    machine: &Machine,
    values: &[Option<u64>],
    state: State,
    events: &[Entry],
) -> Result<String, AllocError>
    requires { StandsFor machine.now plan.now events.now }
    ensures { IfOk result (λ text. string_bytes text ≡ jobs_report plan.now (job_value values.now) state events.now) }
{
    let _count = count_of(machine);
    let totals = totals_by(alloc, plan, events)?;
    let mut text = String::new(alloc);
    push_jobs_report(&mut text, plan, machine, &totals, values, state, events)?;
    Ok(text)
}

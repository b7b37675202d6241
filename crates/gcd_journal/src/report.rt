// Writes the report of a run.
ghost use Rattle.std.specs.Prelude.{◌≡◌, ◌<◌, ◌^◌, ◌++◌, ℕ, List, length, string_bytes, IfOk, OnErr, OnOk};
ghost use Rattle.std.specs.List.{flat_map, range_with_len};
ghost use Rattle.gcd_event.specs.declared.event.Event.{Event};
ghost use Rattle.gcd_history.specs.declared.state.State.{State};
ghost use Rattle.gcd_history.specs.Ends.{HasState};
ghost use Rattle.gcd_history.specs.History.{IsLawful};
ghost use Rattle.gcd_history.specs.Report.{line_end, outcome, result_line, last_line, report_by};
ghost use Rattle.gcd_machine.specs.Stands.{StandsFor};
ghost use Rattle.gcd_journal.specs.Spoken.{AreSpoken};
ghost use Rattle.gcd_journal.specs.Totals.{AreTotals, AreValues};

use crate::ending::{push_ending, push_last, push_number};
use crate::totals::{Total, replayed, totals_by};
use gcd_event::Entry;
use gcd_history::State;
use gcd_machine::Machine;
use gcd_plan::{Blk, Plan};
use std::alloc::{AllocError, Global};

// ` = VALUE`, or ` cancelled`.
fn push_outcome(text: &mut String, cancelled: bool, value: u64) -> Result<(), AllocError>
    ensures { OnOk result (string_bytes text.new ≡ string_bytes text.old ++ outcome cancelled value) }
{
    if cancelled {
        return text.push_str(" cancelled");
    }
    text.push_str(" = ")?;
    push_number(text, value)
}

// `NAME = VALUE`, or `NAME cancelled`.
pub fn push_result(
    text: &mut String,
    name: &str,
    cancelled: bool,
    value: u64,
) -> Result<(), AllocError>
    ensures { OnOk result (string_bytes text.new ≡ string_bytes text.old ++ (name.now ++ (outcome cancelled value ++ line_end))) }
{
    text.push_str(name)?;
    push_outcome(text, cancelled, value)?;
    text.push_str("\n")
}

// The line of a block's result, if it has one.
fn push_result_line(
    text: &mut String,
    plan: &Plan,
    machine: &Machine,
    values: &[u64],
    b: Blk,
) -> Result<(), AllocError>
    requires block { b.0 < length plan.now.blocks }
    requires own { machine.now.plan ≡ plan.now }
    requires values { length values.now ≡ length plan.now.blocks }
    ensures { (h : List Event) (value : ℕ → ℕ) → StandsFor machine.now plan.now h → AreValues plan.now value values.now h
        → OnOk result (string_bytes text.new ≡ string_bytes text.old ++ result_line plan.now value h b.0) }
{
    if plan.work(b).is_none() {
        return Ok(());
    }
    if !machine.is_ended(b) {
        return Ok(());
    }
    let value = values[b.0 as usize];
    push_result(text, plan.name_of_blk(b), machine.is_cancelled(b), value)
}

// The results, by number of block.
fn push_results(
    text: &mut String,
    plan: &Plan,
    machine: &Machine,
    values: &[u64],
) -> Result<(), AllocError>
    requires own { machine.now.plan ≡ plan.now }
    requires values { length values.now ≡ length plan.now.blocks }
    ensures { (h : List Event) (value : ℕ → ℕ) → StandsFor machine.now plan.now h → AreValues plan.now value values.now h
        → OnOk result (string_bytes text.new ≡ string_bytes text.old ++ flat_map (result_line plan.now value h) (range_with_len 0 (length plan.now.blocks))) }
{
    for b in 0..plan.blocks() {
        push_result_line(text, plan, machine, values, Blk(b))?;
    }
    Ok(())
}

// Adds the report of a run to the text, from a machine that has taken its events, and the totals of its sources. If memory runs out, a part
// of it may be added.
fn push_report(
    text: &mut String,
    plan: &Plan,
    machine: &Machine,
    totals: &[Total],
    values: &[u64],
    events: &[Entry],
) -> Result<(), AllocError>
    requires stands { StandsFor machine.now plan.now events.now }
    requires totals { AreTotals plan.now events.now totals.now }
    requires values { length values.now ≡ length plan.now.blocks }
    ensures { (value : ℕ → ℕ) (state : State) → HasState plan.now events.now state → AreValues plan.now value values.now events.now
        → OnOk result (string_bytes text.new ≡ string_bytes text.old ++ report_by plan.now value state events.now) }
{
    push_results(text, plan, machine, values)?;
    push_ending(text, plan, machine, totals, machine.state(), events)
}

// The report as a text of its own, of a machine that has taken the events, and the totals of the sources.
fn report_by(
    alloc: Global,
    plan: &Plan,
    machine: &Machine,
    totals: &[Total],
    values: &[u64],
    events: &[Entry],
) -> Result<String, AllocError>
    requires stands { StandsFor machine.now plan.now events.now }
    requires totals { AreTotals plan.now events.now totals.now }
    requires values { length values.now ≡ length plan.now.blocks }
    ensures { (value : ℕ → ℕ) (state : State) → HasState plan.now events.now state → AreValues plan.now value values.now events.now
        → IfOk result (λ text. string_bytes text ≡ report_by plan.now value state events.now) }
{
    let mut text = String::new(alloc);
    push_report(&mut text, plan, machine, totals, values, events)?;
    Ok(text)
}

// The same of the events alone, which a new machine takes.
fn report_of(
    alloc: Global,
    plan: &Plan,
    values: &[u64],
    events: &[Entry],
) -> Result<String, AllocError>
    requires lawful { IsLawful plan.now events.now }
    requires few { length events.now < 2 ^ 32 }
    requires values { length values.now ≡ length plan.now.blocks }
    ensures { (value : ℕ → ℕ) (state : State) → HasState plan.now events.now state → AreValues plan.now value values.now events.now
        → IfOk result (λ text. string_bytes text ≡ report_by plan.now value state events.now) }
{
    let replay = replayed(alloc, plan, events)?;
    report_by(alloc, plan, &replay.machine, &replay.totals, values, events)
}

// The same of a machine that has taken the events.
fn report_on(
    alloc: Global,
    plan: &Plan,
    machine: &Machine,
    values: &[u64],
    events: &[Entry],
) -> Result<String, AllocError>
    requires stands { StandsFor machine.now plan.now events.now }
    requires lawful { IsLawful plan.now events.now }
    requires few { length events.now < 2 ^ 32 }
    requires values { length values.now ≡ length plan.now.blocks }
    ensures { (value : ℕ → ℕ) (state : State) → HasState plan.now events.now state → AreValues plan.now value values.now events.now
        → IfOk result (λ text. string_bytes text ≡ report_by plan.now value state events.now) }
{
    let totals = totals_by(alloc, plan, events)?;
    report_by(alloc, plan, machine, &totals, values, events)
}

/// Adds the report of a run of the plan to the text: a line for each block with a work that has ended, with its value, or that it
/// is cancelled, by number; a line for each source; where the run is stuck a line for each parked block and for each block that has not
/// started; and how it ended. `values` has a value for each block, `main` first; those of blocks that have not ended, or are
/// cancelled, are not read. Where memory runs out the text is as before. It takes the events by a machine, and looks at each block and object
/// once.
pub fn write_report(
    alloc: Global,
    plan: &Plan,
    values: &[u64],
    events: &[Entry],
    into: &mut Vec<u8>,
) -> Result<(), AllocError>
    requires lawful { IsLawful plan.now events.now }
    requires few { length events.now < 2 ^ 32 }
    requires values { length values.now ≡ length plan.now.blocks }
    ensures ok { (value : ℕ → ℕ) (state : State) → HasState plan.now events.now state → AreValues plan.now value values.now events.now
        → OnOk result (into.new.items ≡ into.old.items ++ report_by plan.now value state events.now) }
    ensures err { OnErr result (into.new.items ≡ into.old.items) }
{
    let text = report_of(alloc, plan, values, events)?;
    into.extend_from_slice(text.as_bytes())
}

/// Adds the report of a run of the plan to the text, as [`write_report`] does, from a machine that has taken its events. Where no
/// object of the plan is a source, no step of a machine is taken: it costs a look at each block and object. Else the totals of the
/// sources come of the events, which a further machine takes.
pub fn write_report_by(
    alloc: Global,
    plan: &Plan,
    machine: &Machine,
    values: &[u64],
    events: &[Entry],
    into: &mut Vec<u8>,
) -> Result<(), AllocError>
    requires stands { StandsFor machine.now plan.now events.now }
    requires lawful { IsLawful plan.now events.now }
    requires few { length events.now < 2 ^ 32 }
    requires values { length values.now ≡ length plan.now.blocks }
    ensures ok { (value : ℕ → ℕ) (state : State) → HasState plan.now events.now state → AreValues plan.now value values.now events.now
        → OnOk result (into.new.items ≡ into.old.items ++ report_by plan.now value state events.now) }
    ensures err { OnErr result (into.new.items ≡ into.old.items) }
{
    let text = report_on(alloc, plan, machine, values, events)?;
    into.extend_from_slice(text.as_bytes())
}

/// Adds the last line of the report of events that have come to this state, as `big` shows it; where memory runs out the text is
/// as before.
pub fn write_last_line(
    alloc: Global,
    plan: &Plan,
    state: State,
    events: &[Entry],
    into: &mut Vec<u8>,
) -> Result<(), AllocError>
    requires { AreSpoken plan.now events.now }
    ensures ok { OnOk result (into.new.items ≡ into.old.items ++ last_line plan.now state events.now) }
    ensures err { OnErr result (into.new.items ≡ into.old.items) }
{
    let mut line = String::new(alloc);
    push_last(&mut line, plan, state, events)?;
    into.extend_from_slice(line.as_bytes())
}

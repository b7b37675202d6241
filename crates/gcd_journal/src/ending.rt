// Writes what follows the results in a report: the sources, the waits if the run is stuck, and how it ended.
ghost use Rattle.std.specs.Prelude.{◌≡◌, ◌-◌, ◌<◌, ◌++◌, [], List, codes, length, slice_get, string_bytes, OnOk};
ghost use Rattle.std.specs.Option.{option_map_or};
ghost use Rattle.std.specs.List.{flat_map, range_with_len};
ghost use Rattle.std.specs.Fmt.{decimal};
ghost use Rattle.gcd_plan.specs.PlanView.{PlanView, name_of_obj, name_of_blk, name_of_strip};
ghost use Rattle.gcd_event.specs.declared.event.Event.{Event};
ghost use Rattle.gcd_history.specs.declared.state.State.{State};
ghost use Rattle.gcd_history.specs.History.{is_submitted};
ghost use Rattle.gcd_history.specs.Report.{line_end, awaited_name, source_line, wait_line, unstarted_line, stuck_lines, misuse_line, last_line};
ghost use Rattle.gcd_machine.specs.Stands.{StandsFor};
ghost use Rattle.gcd_journal.specs.JobsReport.{ending};
ghost use Rattle.gcd_journal.specs.Spoken.{AreSpoken, IsNamed};
ghost use Rattle.gcd_journal.specs.Totals.{AreTotals};

use crate::lines::name_of;
use crate::totals::Total;
use gcd_event::{Entry, Event};
use gcd_history::State;
use gcd_machine::Machine;
use gcd_plan::{Blk, Obj, Plan, Reason};
use itoa::Buffer;
use std::alloc::AllocError;

// Adds a number in decimal digits.
pub fn push_number(text: &mut String, number: u64) -> Result<(), AllocError>
    ensures { OnOk result (string_bytes text.new ≡ string_bytes text.old ++ decimal number) }
{
    let mut digits = Buffer::new();
    text.push_str(digits.format(number))
}

// Adds a number in decimal digits, however large.
fn push_wide(text: &mut String, number: u128) -> Result<(), AllocError>
    ensures { OnOk result (string_bytes text.new ≡ string_bytes text.old ++ decimal number) }
{
    let mut digits = Buffer::new();
    text.push_str(digits.format(number))
}

// ` received R in K pending Q`.
fn push_counts(text: &mut String, total: Total, pending: u64) -> Result<(), AllocError>
    ensures { OnOk result (string_bytes text.new ≡ string_bytes text.old ++ (codes " received " ++ (decimal total.value
        ++ (codes " in " ++ (decimal total.times ++ (codes " pending " ++ (decimal pending ++ line_end))))))) }
{
    text.push_str(" received ")?;
    push_wide(text, total.value)?;
    text.push_str(" in ")?;
    push_number(text, u64::from(total.times))?;
    text.push_str(" pending ")?;
    push_number(text, pending)?;
    text.push_str("\n")
}

// `NAME received R in K pending Q`.
fn push_source(text: &mut String, name: &str, total: Total, pending: u64) -> Result<(), AllocError>
    ensures { OnOk result (string_bytes text.new ≡ string_bytes text.old ++ (name.now ++ (codes " received " ++ (decimal total.value
        ++ (codes " in " ++ (decimal total.times ++ (codes " pending " ++ (decimal pending ++ line_end)))))))) }
{
    text.push_str(name)?;
    push_counts(text, total, pending)
}

// The line of a source; nothing for another object.
fn push_source_line(
    text: &mut String,
    plan: &Plan,
    machine: &Machine,
    totals: &[Total],
    s: Obj,
) -> Result<(), AllocError>
    requires object { s.0 < length plan.now.objects }
    requires own { machine.now.plan ≡ plan.now }
    requires totals { length totals.now ≡ length plan.now.objects }
    ensures { (h : List Event) → StandsFor machine.now plan.now h → AreTotals plan.now h totals.now
        → OnOk result (string_bytes text.new ≡ string_bytes text.old ++ source_line plan.now h s.0) }
{
    if !plan.kind(s).is_source() {
        return Ok(());
    }
    push_source(
        text,
        plan.name_of_obj(s),
        totals[s.0 as usize],
        machine.pending_of(s),
    )
}

// The name of an object; no byte where the plan has it not.
fn name_of_any(plan: &Plan, o: Obj) -> &str
    ensures { result.now ≡ name_of_obj plan.now o.0 }
{
    if o.0 < plan.objects() {
        plan.name_of_obj(o)
    } else {
        ""
    }
}

// The same of a block.
fn name_of_any_block(plan: &Plan, b: Blk) -> &str
    ensures { result.now ≡ name_of_blk plan.now b.0 }
{
    if b.0 < plan.blocks() {
        plan.name_of_blk(b)
    } else {
        ""
    }
}

// The same of a strip.
fn name_of_any_strip(plan: &Plan, a: u32) -> &str
    ensures { result.now ≡ name_of_strip plan.now a }
{
    if (a as usize) < plan.strips().len() {
        plan.name_of_strip(a)
    } else {
        ""
    }
}

// The name of what is waited for.
fn awaited_name(plan: &Plan, reason: Reason) -> &str
    ensures { result.now ≡ awaited_name plan.now reason }
{
    match reason {
        Reason::Block(b) => name_of_any_block(plan, b),
        Reason::Group(g, _) => name_of_any(plan, g),
        Reason::Strip(a) => name_of_any_strip(plan, a),
        Reason::Rank(s, _) => name_of_any(plan, s),
    }
}

// `NAME waits for X`.
fn push_wait(text: &mut String, name: &str, cause: &str) -> Result<(), AllocError>
    ensures { OnOk result (string_bytes text.new ≡ string_bytes text.old ++ (name.now ++ (codes " waits for " ++ (cause.now ++ line_end)))) }
{
    text.push_str(name)?;
    text.push_str(" waits for ")?;
    text.push_str(cause)?;
    text.push_str("\n")
}

// The line of a parked block; nothing for another.
fn push_wait_line(
    text: &mut String,
    plan: &Plan,
    machine: &Machine,
    b: Blk,
) -> Result<(), AllocError>
    requires block { b.0 < length plan.now.blocks }
    requires own { machine.now.plan ≡ plan.now }
    ensures { (h : List Event) → StandsFor machine.now plan.now h → OnOk result (string_bytes text.new ≡ string_bytes text.old ++ wait_line plan.now h b.0) }
{
    match machine.awaited(b) {
        None => Ok(()),
        Some(reason) => push_wait(text, plan.name_of_blk(b), awaited_name(plan, reason)),
    }
}

// `NAME not started`.
fn push_unstarted(text: &mut String, name: &str) -> Result<(), AllocError>
    ensures { OnOk result (string_bytes text.new ≡ string_bytes text.old ++ (name.now ++ (codes " not started" ++ line_end))) }
{
    text.push_str(name)?;
    text.push_str(" not started\n")
}

// Whether the block is submitted: `main` is from the outset.
fn is_submitted(machine: &Machine, b: Blk) -> bool
    requires { b.0 < length machine.now.plan.blocks }
    ensures { (plan : PlanView) (h : List Event) → StandsFor machine.now plan h → result ≡ is_submitted plan h b.0 }
{
    if b.0 == 0 {
        return true;
    }
    machine.node_of(b).is_some()
}

// The line of a block that is submitted and has not started; nothing for another.
fn push_unstarted_line(
    text: &mut String,
    plan: &Plan,
    machine: &Machine,
    b: Blk,
) -> Result<(), AllocError>
    requires block { b.0 < length plan.now.blocks }
    requires own { machine.now.plan ≡ plan.now }
    ensures { (h : List Event) → StandsFor machine.now plan.now h → OnOk result (string_bytes text.new ≡ string_bytes text.old ++ unstarted_line plan.now h b.0) }
{
    if !is_submitted(machine, b) {
        return Ok(());
    }
    if machine.is_started(b) {
        return Ok(());
    }
    push_unstarted(text, plan.name_of_blk(b))
}

// The sources, by number.
fn push_sources(
    text: &mut String,
    plan: &Plan,
    machine: &Machine,
    totals: &[Total],
) -> Result<(), AllocError>
    requires own { machine.now.plan ≡ plan.now }
    requires totals { length totals.now ≡ length plan.now.objects }
    ensures { (h : List Event) → StandsFor machine.now plan.now h → AreTotals plan.now h totals.now
        → OnOk result (string_bytes text.new ≡ string_bytes text.old ++ flat_map (source_line plan.now h) (range_with_len 0 (length plan.now.objects))) }
{
    for s in 0..plan.objects() {
        push_source_line(text, plan, machine, totals, Obj(s))?;
    }
    Ok(())
}

// The parked blocks, by number.
fn push_waits(text: &mut String, plan: &Plan, machine: &Machine) -> Result<(), AllocError>
    requires { machine.now.plan ≡ plan.now }
    ensures { (h : List Event) → StandsFor machine.now plan.now h
        → OnOk result (string_bytes text.new ≡ string_bytes text.old ++ flat_map (wait_line plan.now h) (range_with_len 0 (length plan.now.blocks))) }
{
    for b in 0..plan.blocks() {
        push_wait_line(text, plan, machine, Blk(b))?;
    }
    Ok(())
}

// The blocks that have not started, by number.
fn push_all_unstarted(text: &mut String, plan: &Plan, machine: &Machine) -> Result<(), AllocError>
    requires { machine.now.plan ≡ plan.now }
    ensures { (h : List Event) → StandsFor machine.now plan.now h
        → OnOk result (string_bytes text.new ≡ string_bytes text.old ++ flat_map (unstarted_line plan.now h) (range_with_len 0 (length plan.now.blocks))) }
{
    for b in 0..plan.blocks() {
        push_unstarted_line(text, plan, machine, Blk(b))?;
    }
    Ok(())
}

// What is left, where the run is stuck.
fn push_stuck(text: &mut String, plan: &Plan, machine: &Machine) -> Result<(), AllocError>
    requires { machine.now.plan ≡ plan.now }
    ensures { (h : List Event) → StandsFor machine.now plan.now h → OnOk result (string_bytes text.new ≡ string_bytes text.old ++ stuck_lines plan.now State.Stuck h) }
{
    push_waits(text, plan, machine)?;
    push_all_unstarted(text, plan, machine)
}

// The same at every state.
fn push_left(
    text: &mut String,
    plan: &Plan,
    machine: &Machine,
    state: State,
) -> Result<(), AllocError>
    requires { machine.now.plan ≡ plan.now }
    ensures { (h : List Event) → StandsFor machine.now plan.now h → OnOk result (string_bytes text.new ≡ string_bytes text.old ++ stuck_lines plan.now state h) }
{
    match state {
        State::Drained => Ok(()),
        State::Stuck => push_stuck(text, plan, machine),
        State::Misused => Ok(()),
        State::Halted => Ok(()),
        State::Live => Ok(()),
    }
}

// `misuse R I Mk`.
fn push_misuse(text: &mut String, name: &str, index: u32, code: u8) -> Result<(), AllocError>
    ensures { OnOk result (string_bytes text.new ≡ string_bytes text.old ++ (codes "misuse " ++ (name.now ++ (codes " " ++ (decimal index ++ (codes " M" ++ (decimal code ++ line_end))))))) }
{
    text.push_str("misuse ")?;
    text.push_str(name)?;
    text.push_str(" ")?;
    push_number(text, u64::from(index))?;
    text.push_str(" M")?;
    push_number(text, u64::from(code))?;
    text.push_str("\n")
}

// The line of a misuse; nothing for another event.
fn push_misuse_line(text: &mut String, plan: &Plan, e: Event) -> Result<(), AllocError>
    requires { IsNamed plan.now e }
    ensures { OnOk result (string_bytes text.new ≡ string_bytes text.old ++ misuse_line plan.now e) }
{
    match e {
        Event::Misuse {
            run,
            index,
            code,
            ..
        } => push_misuse(text, name_of(plan, run), index, code),
        Event::Start { .. } => Ok(()),
        Event::Act { .. } => Ok(()),
        Event::Wake { .. } => Ok(()),
        Event::End { .. } => Ok(()),
        Event::Deliver { .. } => Ok(()),
        Event::DeliverEnd { .. } => Ok(()),
        Event::Tick { .. } => Ok(()),
        Event::Ready { .. } => Ok(()),
        Event::FeedEnd { .. } => Ok(()),
        Event::Halt => Ok(()),
        Event::Expire { .. } => Ok(()),
        Event::Accept { .. } => Ok(()),
        Event::Shut => Ok(()),
    }
}

// The line of the last event, where that is a misuse.
fn push_last_misuse(text: &mut String, plan: &Plan, events: &[Entry]) -> Result<(), AllocError>
    requires { AreSpoken plan.now events.now }
    ensures { OnOk result (string_bytes text.new ≡ string_bytes text.old ++ option_map_or (misuse_line plan.now) (slice_get events.now (length events.now - 1)) []) }
{
    match events.last() {
        None => Ok(()),
        Some(e) => push_misuse_line(text, plan, e.event()),
    }
}

// The last line.
pub fn push_last(
    text: &mut String,
    plan: &Plan,
    state: State,
    events: &[Entry],
) -> Result<(), AllocError>
    requires { AreSpoken plan.now events.now }
    ensures { OnOk result (string_bytes text.new ≡ string_bytes text.old ++ last_line plan.now state events.now) }
{
    match state {
        State::Drained => text.push_str("drained\n"),
        State::Stuck => text.push_str("stuck\n"),
        State::Misused => push_last_misuse(text, plan, events),
        State::Halted => text.push_str("read fault\n"),
        State::Live => text.push_str("full\n"),
    }
}

/// Adds what follows the results in the report of a run in this state, from a machine that has taken its events, and the totals of its
/// sources. If memory runs out, a part of it may be added.
pub fn push_ending(
    text: &mut String,
    plan: &Plan,
    machine: &Machine,
    totals: &[Total],
    state: State,
    events: &[Entry],
) -> Result<(), AllocError>
    requires stands { StandsFor machine.now plan.now events.now }
    requires totals { AreTotals plan.now events.now totals.now }
    ensures { OnOk result (string_bytes text.new ≡ string_bytes text.old ++ ending plan.now state events.now) }
{
    push_sources(text, plan, machine, totals)?;
    push_left(text, plan, machine, state)?;
    push_last(text, plan, state, events)
}

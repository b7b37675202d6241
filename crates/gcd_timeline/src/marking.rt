// The marks of a journal.
ghost use Rattle.std.specs.Prelude.{◌≡◌, ◌++◌, ◌∷◌, [], ◌<◌, ◌≤◌, Some, length, map, position, slice_get, IfOk, IfSome, OnOk};
ghost use Rattle.gcd_history.specs.Held.{given};
ghost use Rattle.std.specs.Option.{option_to_list};
ghost use Rattle.gcd_event.specs.Owners.{ended};
ghost use Rattle.gcd_timeline.specs.Marks.{is_run, mark_view, ended_from, given_from, stretch_at, stretches_of, mark_at, marks_of};

use crate::mark::{Mark, Stretch};
use crate::taking::{given, is_run, taken};
use gcd_event::{Entry, Event};
use gcd_plan::{Plan, Run};
use std::alloc::{AllocError, Global};

// The event at a place.
fn event_at(events: &[Entry], at: usize) -> Event
    requires { at < length events.now }
    ensures { slice_get events.now at ≡ Some result }
{
    events[at].event()
}

// How many events come before the one that gives the run back.
fn before_given(plan: &Plan, events: &[Entry], run: Run) -> Option<usize>
    ensures exact { result ≡ position (λ e. is_run run (given plan.now e)) events.now }
    ensures within { IfSome result (λ count. count < length events.now) }
{
    events
        .iter()
        .position(|event| is_run(run, given(plan, event.event())))
}

// How many events come before the one that ends the run.
fn before_ended(events: &[Entry], run: Run) -> Option<usize>
    ensures exact { result ≡ position (λ e. is_run run (ended e)) events.now }
    ensures within { IfSome result (λ count. count < length events.now) }
{
    events
        .iter()
        .position(|event| is_run(run, event.event().ended()))
}

// Where the run is given back, from this place on; the number of events where it is not.
fn given_from(plan: &Plan, events: &[Entry], run: Run, from: usize) -> usize
    requires { from ≤ length events.now }
    ensures { result ≡ given_from plan.now events.now run from }
{
    match before_given(plan, &events[from..], run) {
        Some(count) => from + count,
        None => events.len(),
    }
}

// Where the run ends, from this place on; the number of events where it does not.
fn ended_from(events: &[Entry], run: Run, from: usize) -> usize
    requires { from ≤ length events.now }
    ensures exact { result ≡ ended_from events.now run from }
    ensures within { result ≤ length events.now }
{
    match before_ended(&events[from..], run) {
        Some(count) => from + count,
        None => events.len(),
    }
}

// Adds the stretch of the run that begins at this place, if one does.
fn add_stretch(
    plan: &Plan,
    events: &[Entry],
    run: Run,
    at: usize,
    into: &mut Vec<Stretch>,
) -> Result<(), AllocError>
    requires { at < length events.now }
    ensures { OnOk result (into.new.items ≡ into.old.items ++ option_to_list (stretch_at plan.now events.now run at)) }
{
    let event = event_at(events, at);
    if is_run(run, taken(event)) {
        into.push(Stretch {
            worker: event.worker(),
            from: at,
            to: given_from(plan, events, run, at),
        })?;
    }
    Ok(())
}

// The stretches of the run that begins at this place.
fn stretches_of(
    alloc: Global,
    plan: &Plan,
    events: &[Entry],
    run: Run,
    from: usize,
) -> Result<Vec<Stretch>, AllocError>
    requires { from ≤ length events.now }
    ensures { IfOk result (λ v. v.items ≡ stretches_of plan.now events.now run from) }
{
    let mut stretches = Vec::new(alloc);
    for at in from..ended_from(events, run, from) {
        add_stretch(plan, events, run, at, &mut stretches)?;
    }
    Ok(stretches)
}

// Adds the mark of a run with these stretches.
fn push_mark(into: &mut Vec<Mark>, run: Run, stretches: Vec<Stretch>) -> Result<(), AllocError>
    ensures { OnOk result (map mark_view into.new.items ≡ map mark_view into.old.items ++ record { run = run; stretches = stretches.items } ∷ []) }
{
    into.push(Mark { run, stretches })?;
    Ok(())
}

// Adds the mark of the run that begins at this place, if one does.
fn add_mark(
    alloc: Global,
    plan: &Plan,
    events: &[Entry],
    at: usize,
    into: &mut Vec<Mark>,
) -> Result<(), AllocError>
    requires { at < length events.now }
    ensures { OnOk result (map mark_view into.new.items ≡ map mark_view into.old.items ++ option_to_list (mark_at plan.now events.now at)) }
{
    match event_at(events, at).begun() {
        Some(run) => push_mark(into, run, stretches_of(alloc, plan, events, run, at)?),
        None => Ok(()),
    }
}

/// A mark for each run of the journal, in the order in which they begin: one at each Start and each Deliver. Each has a stretch
/// for each event up to its end that takes it (its Start or Deliver, and each Wake), on the lane of that event's worker, up to
/// the event that gives it back (the act that parks it, or its end), or to the number of events where none does. An `Err` comes
/// only where memory runs out. It looks at the events of each run once for its end and once for its stretches.
pub fn marks(alloc: Global, plan: &Plan, events: &[Entry]) -> Result<Vec<Mark>, AllocError>
    ensures { IfOk result (λ marks. map mark_view marks.items ≡ marks_of plan.now events.now) }
{
    let mut marks = Vec::new(alloc);
    for at in 0..events.len() {
        add_mark(alloc, plan, events, at, &mut marks)?;
    }
    Ok(marks)
}

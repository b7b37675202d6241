// A run as trace events.

use crate::bars::{Bar, bars_of};
use crate::escape::push_json;
use crate::frame::lanes_of;
use crate::naming::{
    act_text, awaited_text, misuse_text, node_name, object_name, run_name, state_word,
};
use crate::script_lines::ScriptLines;
use crate::showing::Showing;
use crate::submissions::Submissions;
use gcd_event::{Entry, Event};
use gcd_history::State;
use gcd_plan::{Plan, Run};
use gcd_timeline::marks;
use std::alloc::{AllocError, Global};
use std::fmt::Write;

// The names of the workers' lanes.
fn push_workers(into: &mut String, lanes: usize) -> Result<(), AllocError> {
    for lane in 0..lanes {
        write!(
            into,
            "{{\"ph\":\"M\",\"pid\":1,\"tid\":{lane},\"name\":\"thread_name\",\"args\":{{\"name\":\"worker {lane}\"}}}},\n"
        )?;
    }
    Ok(())
}

// The head of an event: its phase, worker, place and category, and its name, which is open.
fn push_head(
    into: &mut String,
    phase: &str,
    worker: u8,
    place: usize,
    category: &str,
) -> Result<(), AllocError> {
    write!(
        into,
        "{{\"ph\":\"{phase}\",\"pid\":1,\"tid\":{worker},\"ts\":{place},\"cat\":\"{category}\",\"name\":\""
    )
}

// The end of an event's name, and of the event, with its line of the script where there is one.
fn push_line(into: &mut String, line: u32) -> Result<(), AllocError> {
    if line > 0 {
        write!(into, "\",\"args\":{{\"line\":{line}}}}},\n")
    } else {
        into.push_str("\"},\n")
    }
}

// A stretch of a run: a complete event, or where nothing gives the run back one that only begins.
fn push_run(into: &mut String, showing: Showing, bar: &Bar) -> Result<(), AllocError> {
    let (worker, from, kind) = (bar.worker, bar.from, bar.kind());
    if bar.to < showing.events.len() {
        let length = bar.to.saturating_sub(from).saturating_add(1);
        write!(
            into,
            "{{\"ph\":\"X\",\"pid\":1,\"tid\":{worker},\"ts\":{from},\"dur\":{length},\"cat\":\"{kind}\",\"name\":\""
        )?;
    } else {
        push_head(into, "B", worker, from, kind)?;
    }
    push_json(into, run_name(showing.plan, bar.run))?;
    into.push_str("\",\"args\":{\"queue\":\"")?;
    push_json(into, node_name(showing.plan, bar.node))?;
    let line = showing.lines.of_run(bar.run);
    if line > 0 {
        write!(into, "\",\"line\":{line}}}}},\n")
    } else {
        into.push_str("\"}},\n")
    }
}

// One end of a parked time, as the begin or the end of an asynchronous event.
fn push_end(
    into: &mut String,
    phase: &str,
    worker: u8,
    place: usize,
    id: usize,
    name: &str,
    awaited: &str,
) -> Result<(), AllocError> {
    write!(
        into,
        "{{\"ph\":\"{phase}\",\"pid\":1,\"tid\":{worker},\"ts\":{place},\"id\":{id},\"cat\":\"parked\",\"name\":\""
    )?;
    push_json(into, name)?;
    into.push_str(" waits for ")?;
    push_json(into, awaited)?;
    into.push_str("\"},\n")
}

// The time in which the run of a bar is parked; it has no end where the run has not gone on.
fn push_parked(
    alloc: Global,
    into: &mut String,
    showing: Showing,
    bar: &Bar,
) -> Result<(), AllocError> {
    let (Some((worker, next)), Some(event)) = (bar.parked, showing.events.get(bar.to)) else {
        return Ok(());
    };
    let awaited = awaited_text(alloc, showing.plan, event.event())?;
    let name = run_name(showing.plan, bar.run);
    push_end(
        into,
        "b",
        bar.worker,
        bar.to,
        bar.to,
        name,
        awaited.as_str(),
    )?;
    if next < showing.events.len() {
        push_end(into, "e", worker, next, bar.to, name, awaited.as_str())?;
    }
    Ok(())
}

// One end of a flow from a block's submission to its start.
fn push_flow(
    into: &mut String,
    head: &str,
    worker: u8,
    place: usize,
    id: u32,
    name: &str,
) -> Result<(), AllocError> {
    write!(
        into,
        "{{{head},\"pid\":1,\"tid\":{worker},\"ts\":{place},\"id\":{id},\"cat\":\"submission\",\"name\":\"submits "
    )?;
    push_json(into, name)?;
    into.push_str("\"},\n")
}

// The flow from the submission of a run's block to its start.
fn push_submission(
    into: &mut String,
    showing: Showing,
    submissions: &Submissions,
    event: Event,
    place: usize,
) -> Result<(), AllocError> {
    let Event::Start { worker, blk } = event else {
        return Ok(());
    };
    let Some(by) = submissions.of(Run::Block(blk)) else {
        return Ok(());
    };
    let Some(submitter) = showing.events.get(by) else {
        return Ok(());
    };
    let name = run_name(showing.plan, Run::Block(blk));
    push_flow(
        into,
        "\"ph\":\"s\"",
        submitter.event().worker(),
        by,
        blk.0,
        name,
    )?;
    push_flow(
        into,
        "\"ph\":\"f\",\"bp\":\"e\"",
        worker,
        place,
        blk.0,
        name,
    )
}

// What an event is called that takes no time: an act, a misuse, or what came from the outside; and whether all lanes show it.
fn moment_of(
    alloc: Global,
    showing: Showing,
    event: Event,
) -> Result<Option<(&'static str, String)>, AllocError> {
    let plan = showing.plan;
    let (kind, name) = match event {
        Event::Act { run, index, .. } => ("act", act_text(alloc, plan, run, index)?),
        Event::Misuse {
            run,
            index,
            code,
            ..
        } => { ("misuse", misuse_text(alloc, plan, run, index, code)?) }
        Event::Tick { at } => ("outside", format!(in alloc; "tick {at}")?),
        Event::Ready { src, bytes } => {
            let source = object_name(plan, src);
            ("outside", format!(in alloc; "{source}: {bytes} bytes")?)
        }
        Event::FeedEnd { src } => {
            let source = object_name(plan, src);
            ("outside", format!(in alloc; "{source} ends")?)
        }
        Event::Halt => ("outside", String::from_str(alloc, "halt")?),
        Event::Expire { blk } => {
            let name = run_name(plan, Run::Block(blk));
            ("outside", format!(in alloc; "{name}: time is up")?)
        }
        Event::Accept { blk, sender } => {
            let name = run_name(plan, Run::Block(blk));
            ("outside", format!(in alloc; "{name} from sender {sender}")?)
        }
        Event::Shut => ("outside", String::from_str(alloc, "intake shut")?),
        Event::Start { .. } | Event::Wake { .. } | Event::End { .. } => return Ok(None),
        Event::Deliver { .. } | Event::DeliverEnd { .. } => return Ok(None),
    };
    Ok(Some((kind, name)))
}

// The line of the act that an event records, or bars.
fn line_of(showing: Showing, event: Event) -> u32 {
    match event {
        Event::Act { run, index, .. } | Event::Misuse { run, index, .. } => {
            showing.lines.of_act(run, index)
        }
        Event::Start { .. } | Event::Wake { .. } | Event::End { .. } => 0,
        Event::Deliver { .. } | Event::DeliverEnd { .. } | Event::Tick { .. } => 0,
        Event::Ready { .. } | Event::FeedEnd { .. } | Event::Halt => 0,
        Event::Expire { .. } | Event::Accept { .. } | Event::Shut => 0,
    }
}

// An event that takes no time, as an instant of its lane, or of all where it came from the outside.
fn push_moment(
    alloc: Global,
    into: &mut String,
    showing: Showing,
    event: Event,
    place: usize,
) -> Result<(), AllocError> {
    let Some((kind, name)) = moment_of(alloc, showing, event)? else {
        return Ok(());
    };
    let head = if kind == "outside" {
        "i\",\"s\":\"g"
    } else {
        "i\",\"s\":\"t"
    };
    push_head(into, head, event.worker(), place, kind)?;
    push_json(into, name.as_str())?;
    push_line(into, line_of(showing, event))
}

// The state to which the run has come, as an instant of all lanes, with why it has come to it.
fn push_ending(into: &mut String, showing: Showing) -> Result<(), AllocError> {
    push_head(into, "i\",\"s\":\"g", 0, showing.events.len(), "state")?;
    push_json(into, showing.state)?;
    into.push_str("\",\"args\":{\"why\":[")?;
    for (number, note) in showing.notes.iter().enumerate() {
        into.push_str(if number == 0 { "\"" } else { ",\"" })?;
        if note.line > 0 {
            let line = note.line;
            write!(into, "line {line}: ")?;
        }
        push_json(into, note.text)?;
        into.push_str("\"")?;
    }
    into.push_str("]}},\n")
}

/// The run in the trace event format, which the viewers of browsers and Perfetto open: a complete event for each stretch of a run,
/// or one that only begins where nothing gives the run back, whose thread is the worker, whose category is what kind of run it is
/// (`block`, `barrier`, `cancelled`, `delivery`), and whose times are places in the journal; an asynchronous event for each time in which a run is
/// parked, which stays open where the run has not gone on; a flow from each block's submission to its start; an instant for each
/// act, for each tick, for what came on feeds, for each job from outside and the end of them, for each wait that expired, for a misuse
/// and a halt, and for the state to which the run has come. What stands in the script has its line. An `Err` comes only where memory runs out.
pub fn trace(alloc: Global, showing: Showing) -> Result<String, AllocError> {
    let bars = bars_of(alloc, showing)?;
    let submissions = Submissions::new(alloc, showing.plan, showing.events)?;
    let mut text = String::from_str(alloc, "{\"traceEvents\":[\n")?;
    push_workers(&mut text, lanes_of(&bars))?;
    for bar in &bars {
        push_run(&mut text, showing, bar)?;
        push_parked(alloc, &mut text, showing, bar)?;
    }
    for (place, entry) in showing.events.iter().enumerate() {
        let event = entry.event();
        push_moment(alloc, &mut text, showing, event, place)?;
        push_submission(&mut text, showing, &submissions, event, place)?;
    }
    push_ending(&mut text, showing)?;
    text.push_str(
        "{\"ph\":\"M\",\"pid\":1,\"name\":\"process_name\",\"args\":{\"name\":\"run\"}}\n]}\n",
    )?;
    Ok(text)
}

/// Returns the trace of a run that has come to this state, of a plan without a script, as [`trace`] does: no entry has a line or says why
/// the run has come to its state. Returns `Err` only if memory runs out.
pub fn trace_of(
    alloc: Global,
    plan: &Plan,
    events: &[Entry],
    state: State,
) -> Result<String, AllocError> {
    let marks = marks(alloc, plan, events)?;
    let lines = ScriptLines::none(alloc);
    // A trace has no entry for a block that has not started, so it needs no standing.
    let showing = Showing {
        plan,
        marks: &marks,
        events,
        standings: &[],
        state: state_word(state),
        notes: &[],
        lines: &lines,
    };
    trace(alloc, showing)
}

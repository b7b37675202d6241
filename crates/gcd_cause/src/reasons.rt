// What is in the way of an event, in words.

use crate::misuses::misuse_words;
use crate::naming::{ActWords, EventWords, act_at, run_of};
use crate::scene::Place;
use crate::sight::Sight;
use crate::waits::{awaited_words, hold_words, registered_words};
use gcd_event::Event;
use gcd_plan::{Blk, Obj, Run, Why};
use std::alloc::{AllocError, Global};

// The run has ended.
fn over(alloc: Global, sight: Sight, last: Option<Event>) -> Result<String, AllocError> {
    let Some(event) = last else {
        return String::from_str(alloc, "the run is over");
    };
    let plan = sight.plan;
    format!(in alloc; "nothing may follow {}", EventWords { plan, event })
}

// What the event names is not there.
fn no_such(alloc: Global, sight: Sight, event: Event) -> Result<String, AllocError> {
    let said = match event {
        Event::Ready { src, .. } | Event::FeedEnd { src } => {
            let (name, kind) = (sight.name_of_object(src), sight.kind_of(src));
            return format!(in alloc; "{name} is a {kind}, and no read source");
        }
        Event::Accept { blk, .. } if !sight.is_of_intake(blk) => {
            return format!(in alloc; "{} is no block of an intake", sight.name_of_block(blk));
        }
        Event::Start { .. } | Event::Act { .. } | Event::Wake { .. } | Event::End { .. } => {
            "the plan has no such block, or a number is out of its range"
        }
        Event::Expire { .. } => "the plan has no such block",
        Event::Deliver { .. } | Event::DeliverEnd { .. } | Event::Misuse { .. } => {
            "the plan has no such source, or a number is out of its range"
        }
        _ => "a number is out of its range",
    };
    String::from_str(alloc, said)
}

// The index of an act or of its misuse; None if the event is neither.
fn index_of(event: Event) -> Option<u32> {
    match event {
        Event::Act { index, .. } | Event::Misuse { index, .. } => Some(index),
        _ => None,
    }
}

// The worker has a run already.
fn busy(alloc: Global, sight: Sight, worker: u8) -> Result<String, AllocError> {
    match sight.scene.run_of(worker) {
        Some(run) => {
            let name = sight.name_of(run);
            format!(in alloc; "worker {worker} has {name}, which is open and not parked")
        }
        None => format!(in alloc; "worker {worker} has a run"),
    }
}

// The block has started or is not submitted, with what would submit it where that is known.
fn unsubmitted(alloc: Global, sight: Sight, b: Blk) -> Result<String, AllocError> {
    let name = sight.name_of_block(b);
    if sight.is_started(b) {
        return format!(in alloc; "{name} has started already");
    }
    if let Some(delay) = registered_words(alloc, sight, b)? {
        return format!(in alloc; "{name} is not submitted: {delay}");
    }
    if sight.is_of_intake(b) {
        return format!(in alloc; "{name} is not accepted");
    }
    format!(in alloc; "{name} is not submitted")
}

// The block is not there to be started, or nothing to be delivered.
fn unready(alloc: Global, sight: Sight, run: Run) -> Result<String, AllocError> {
    let name = sight.name_of(run);
    match run {
        Run::Block(b) => unsubmitted(alloc, sight, b),
        Run::Source(s) if sight.scene.object(s).is_cancelled => {
            format!(in alloc; "{name} is cancelled")
        }
        Run::Source(_) => format!(in alloc; "nothing is pending at {name}"),
    }
}

// An earlier submission has not started.
fn behind(alloc: Global, sight: Sight, node: Obj) -> Result<String, AllocError> {
    let name = sight.name_of_object(node);
    match sight.first_waiting(node) {
        Some(first) => {
            let block = sight.name_of_block(first);
            format!(in alloc; "{block} was submitted to {name} before it, and has not started")
        }
        None => format!(in alloc; "an earlier block of {name} has not started"),
    }
}

// An object of the chain is not free.
fn not_free(alloc: Global, sight: Sight, node: Obj) -> Result<String, AllocError> {
    match sight.held(node) {
        Some(o) => hold_words(alloc, sight, o),
        None => String::from_str(alloc, "an object of its chain is not free"),
    }
}

// A run is open beneath a serial queue or source of the chain.
fn excluded(alloc: Global, sight: Sight, node: Obj) -> Result<String, AllocError> {
    match sight.excluding(node) {
        Some((o, run)) => {
            let (kind, object) = (sight.kind_of(o), sight.name_of_object(o));
            format!(in alloc;
                "{} is open beneath the {kind} {object}",
                sight.name_of(run)
            )
        }
        None => String::from_str(alloc, "a run is open beneath a serial queue of its chain"),
    }
}

// A barrier is open, or comes to a queue on which a run is.
fn fenced(alloc: Global, sight: Sight, node: Obj, blk: Blk) -> Result<String, AllocError> {
    let name = sight.name_of_object(node);
    let Some(other) = sight.open_on(node) else {
        return format!(in alloc; "{name} is fenced");
    };
    let block = sight.name_of_block(other);
    if sight.scene.block(other).is_barrier {
        return format!(in alloc; "the barrier {block} is open on {name}");
    }
    let barrier = sight.name_of_block(blk);
    format!(in alloc; "{block} is open on {name}, and {barrier} is a barrier")
}

// The run is not open, is parked, or is another worker's.
fn not_own(alloc: Global, sight: Sight, run: Run, worker: u8) -> Result<String, AllocError> {
    let name = sight.name_of(run);
    match run {
        Run::Block(b) if sight.is_ended(b) => return format!(in alloc; "{name} has ended"),
        _ if !sight.is_open(run) => return format!(in alloc; "{name} is not open"),
        _ => {}
    }
    if let Some(reason) = sight.awaited_by(run) {
        let what = awaited_words(alloc, sight, reason)?;
        return format!(in alloc; "{name} is parked, and waits for {what}");
    }
    match sight.scene.worker_of(run) {
        Some(other) => format!(in alloc; "{name} is worker {other}'s, and not worker {worker}'s"),
        None => format!(in alloc; "{name} is not worker {worker}'s"),
    }
}

// The act is not the next, or one is left.
fn not_next(alloc: Global, sight: Sight, run: Run, event: Event) -> Result<String, AllocError> {
    let (plan, name, made) = (sight.plan, sight.name_of(run), sight.scene.made(run));
    match run {
        Run::Block(b) if sight.is_cancelled(b) => {
            return format!(in alloc; "{name} is cancelled, and makes no act");
        }
        _ => {}
    }
    if let Some(act) = act_at(plan, run, made) {
        let words = ActWords { plan, act };
        return format!(in alloc; "the next act of {name} is {made}, {words}");
    }
    match index_of(event) {
        Some(index) => format!(in alloc; "{name} has no act {index}"),
        None => format!(in alloc; "{name} has made its acts"),
    }
}

// The code of the misuse that the act is now, as the machine says.
fn code_now(sight: Sight, worker: u8, run: Run, index: u32) -> Option<u8> {
    (1..9u8).find(|code| {
        let event = Event::Misuse {
            worker,
            run,
            index,
            code: *code,
        };
        sight.machine.permits(event).is_none()
    })
}

// The act is a misuse, or one of another code, or none.
fn misused(alloc: Global, sight: Sight, run: Run, event: Event) -> Result<String, AllocError> {
    let Some(index) = index_of(event) else {
        return String::from_str(alloc, "it is no act");
    };
    match code_now(sight, event.worker(), run, index) {
        Some(code) => {
            let words = misuse_words(alloc, sight, Place { run, index }, code)?;
            format!(in alloc; "it is the misuse M{code} now: {words}")
        }
        None => String::from_str(alloc, "the act is no misuse now"),
    }
}

// Journal time may not come to that moment.
fn not_due(alloc: Global, sight: Sight, at: u32) -> Result<String, AllocError> {
    let (time, until) = (sight.scene.time, sight.plan.until());
    if at <= time {
        return format!(in alloc; "journal time is {time} already");
    }
    if at > until {
        return format!(in alloc; "no time is past {until}, which 'until' says");
    }
    match sight.machine.next_due() {
        Some(due) => format!(in alloc; "the next due time is {due}"),
        None => String::from_str(alloc, "no due time is left"),
    }
}

// The read source is inactive or cancelled.
fn not_live(alloc: Global, sight: Sight, run: Run) -> Result<String, AllocError> {
    let state = match run {
        Run::Source(s) if sight.scene.object(s).is_cancelled => "cancelled",
        _ => "inactive",
    };
    format!(in alloc; "{} is {state}", sight.name_of(run))
}

// The intake takes no block any more.
fn not_open(alloc: Global, sight: Sight) -> Result<String, AllocError> {
    let said = if sight.plan.intake().is_none() {
        "the plan has no intake"
    } else if !sight.machine.intake_open() {
        "the intake is shut"
    } else {
        "all blocks of the intake are accepted"
    };
    String::from_str(alloc, said)
}

// What is in the way of the Accept of a block.
fn unaccepted(alloc: Global, sight: Sight, event: Event, why: Why) -> Result<String, AllocError> {
    if why == Why::NoSuch {
        return no_such(alloc, sight, event);
    }
    match sight.machine.next_intake() {
        Some(next) => {
            let name = sight.name_of_block(next);
            format!(in alloc; "the next block of the intake is {name}")
        }
        None => not_open(alloc, sight),
    }
}

// What a parked block still waits for.
fn waiting(alloc: Global, sight: Sight, run: Run, blk: Blk) -> Result<String, AllocError> {
    let name = sight.name_of(run);
    let Some(reason) = sight.awaited_by(run) else {
        return format!(in alloc; "{name} waits");
    };
    let what = awaited_words(alloc, sight, reason)?;
    match sight.scene.block(blk).limit {
        Some(limit) => format!(in alloc; "{name} waits for {what}, until {limit}"),
        None => format!(in alloc; "{name} waits for {what}"),
    }
}

// The limit of a parked block's wait has not come.
fn below_limit(alloc: Global, sight: Sight, b: Blk) -> Result<String, AllocError> {
    let (name, time) = (sight.name_of_block(b), sight.scene.time);
    match sight.scene.block(b).limit {
        Some(limit) => format!(in alloc;
            "the limit of the wait of {name} is {limit}, and journal time is {time}"
        ),
        None => format!(in alloc; "the wait of {name} has no limit"),
    }
}

// The wait of a parked block is over.
fn came(alloc: Global, sight: Sight, b: Blk) -> Result<String, AllocError> {
    let name = sight.name_of_block(b);
    if sight.scene.block(b).has_expired {
        return format!(in alloc; "the wait of {name} has expired already");
    }
    match sight.awaited(b) {
        Some(reason) => {
            let what = awaited_words(alloc, sight, reason)?;
            format!(in alloc; "what {name} waits for has come: {what}")
        }
        None => format!(in alloc; "what {name} waits for has come"),
    }
}

// What is in the way of an event of a run.
fn of_run(alloc: Global, sight: Sight, event: Event, why: Why) -> Result<String, AllocError> {
    let Some(run) = run_of(event) else {
        return String::from_str(alloc, "it is none of the plan's");
    };
    let node = sight.node(run).unwrap_or(Obj(0));
    let blk = match run {
        Run::Block(b) => b,
        Run::Source(_) => Blk(0),
    };
    match why {
        Why::Over => over(alloc, sight, None),
        Why::NoSuch => no_such(alloc, sight, event),
        Why::Busy => busy(alloc, sight, event.worker()),
        Why::Unready => unready(alloc, sight, run),
        Why::Behind => behind(alloc, sight, node),
        Why::NotFree => not_free(alloc, sight, node),
        Why::Excluded => excluded(alloc, sight, node),
        Why::Fenced => fenced(alloc, sight, node, blk),
        Why::NotOwn => not_own(alloc, sight, run, event.worker()),
        Why::NotNext => not_next(alloc, sight, run, event),
        Why::IsMisuse | Why::NotMisuse => misused(alloc, sight, run, event),
        Why::NotParked => format!(in alloc; "{} is not parked", sight.name_of(run)),
        Why::Waiting => waiting(alloc, sight, run, blk),
        Why::NotLive => not_live(alloc, sight, run),
        Why::NotDue => below_limit(alloc, sight, blk),
        Why::Came => came(alloc, sight, blk),
    }
}

/// What is in the way of the event, which may not come for that reason; `last` is the one before it. An `Err` comes only where memory
/// runs out.
pub fn in_the_way(
    alloc: Global,
    sight: Sight,
    event: Event,
    why: Why,
    last: Option<Event>,
) -> Result<String, AllocError> {
    if why == Why::Over {
        return over(alloc, sight, last);
    }
    match event {
        Event::Tick { at } => not_due(alloc, sight, at),
        Event::Accept { .. } => unaccepted(alloc, sight, event, why),
        Event::Shut => not_open(alloc, sight),
        _ => of_run(alloc, sight, event, why),
    }
}

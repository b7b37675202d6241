// How runs and objects are called in pictures.

use gcd_cause::ActWords;
use gcd_event::Event;
use gcd_history::State;
use gcd_plan::{Act, Obj, Plan, Run};
use gcd_timeline::act_at;
use std::alloc::{AllocError, Global};

/// The name of an object; `?` where the plan has it not.
pub fn object_name(plan: &Plan, o: Obj) -> &str {
    if o.0 < plan.objects() {
        plan.name_of_obj(o)
    } else {
        "?"
    }
}

/// The name of a block or source; `?` where the plan has it not.
pub fn run_name(plan: &Plan, run: Run) -> &str {
    match run {
        Run::Block(b) => {
            if b.0 < plan.blocks() {
                plan.name_of_blk(b)
            } else {
                "?"
            }
        }
        Run::Source(s) => object_name(plan, s),
    }
}

/// The name of a node; of none, that it is no queue.
pub fn node_name(plan: &Plan, node: Option<Obj>) -> &str {
    match node {
        Some(o) => object_name(plan, o),
        None => "no queue",
    }
}

/// The name of a strip; `?` where the plan has it not.
pub fn strip_name(plan: &Plan, a: u32) -> &str {
    match plan.strips().get(a as usize) {
        Some(strip) => strip.name.as_str(),
        None => "?",
    }
}

/// The path of a read source's feed; empty for any other object.
pub fn feed_path(plan: &Plan, s: Obj) -> &str {
    if s.0 < plan.objects() {
        plan.path_of(s)
    } else {
        ""
    }
}

/// What a run waits for that this event parks: a block's name, or a group, a semaphore or a strip with its name; empty where it parks
/// none.
pub fn awaited_text(alloc: Global, plan: &Plan, event: Event) -> Result<String, AllocError> {
    let Event::Act { run, index, .. } = event else {
        return Ok(String::new(alloc));
    };
    let Some(act) = act_at(plan, run, index) else {
        return Ok(String::new(alloc));
    };
    match act {
        Act::Sync(_, b) | Act::BarrierSync(_, b) | Act::WaitBlock(b) => {
            String::from_str(alloc, run_name(plan, Run::Block(b)))
        }
        Act::GroupWait(g) | Act::GroupWaitFor(g, _) => {
            let name = object_name(plan, g);
            format!(in alloc; "group {name}")
        }
        Act::Wait(s) | Act::WaitFor(s, _) => {
            let name = object_name(plan, s);
            format!(in alloc; "semaphore {name}")
        }
        Act::Apply(_, a) => {
            let name = strip_name(plan, a);
            format!(in alloc; "strip {name}")
        }
        Act::Async(..) | Act::Barrier(..) | Act::GroupAsync(..) | Act::Notify(..) => Ok(String::new(
            alloc,
        )),
        Act::Enter(_) | Act::Leave(_) | Act::Signal(_) | Act::Merge(..) => Ok(String::new(alloc)),
        Act::Suspend(_) | Act::Resume(_) | Act::Activate(_) | Act::Target(..) => Ok(String::new(
            alloc,
        )),
        Act::Cancel(_) | Act::Retain(_) | Act::Release(_) => Ok(String::new(alloc)),
        Act::CancelBlock(_) | Act::NotifyBlock(..) => Ok(String::new(alloc)),
    }
}

/// An act of a run as it stands in a script; `?` where the run has no such act.
pub fn act_text(alloc: Global, plan: &Plan, run: Run, index: u32) -> Result<String, AllocError> {
    match act_at(plan, run, index) {
        Some(act) => {
            let words = ActWords { plan, act };
            format!(in alloc; "{words}")
        }
        None => String::from_str(alloc, "?"),
    }
}

/// A misuse: its code, and the act that it barred.
pub fn misuse_text(
    alloc: Global,
    plan: &Plan,
    run: Run,
    index: u32,
    code: u8,
) -> Result<String, AllocError> {
    let (act, name) = (act_text(alloc, plan, run, index)?, run_name(plan, run));
    let act = act.as_str();
    format!(in alloc; "misuse M{code}: {act} in {name}")
}

/// The word of a state.
pub fn state_word(state: State) -> &'static str {
    match state {
        State::Drained => "drained",
        State::Stuck => "stuck",
        State::Misused => "misuse",
        State::Halted => "halted",
        State::Live => "open",
    }
}

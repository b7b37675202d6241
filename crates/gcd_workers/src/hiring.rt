// How many hands a team needs.
ghost use Rattle.std.specs.Prelude.{◌<◌, ◌≤◌};

use gcd_jobs::Job;
use gcd_plan::{Act, Blk, Kind, Obj, Plan, Run};

/// How many hands a team of at most so many workers, at least 1, has for the plan: as many as the plan can have
/// runs that are open and not parked at one moment, and no more than `workers`. Such runs are one of `main`, one on each serial queue and
/// at each source, and one for each block that comes to a concurrent queue, `root` among them: by an act of a block, of which each counts
/// the blocks that it submits there, a strip's all, or through an intake, as many as that has. For each block is submitted once, a
/// cancellation block runs at its source, and a handler submits none. That a further worker would so never have a run is why there is
/// none, and no clause.
pub fn team_size(plan: &Plan, workers: u8) -> u8
    requires { 0 < workers }
    ensures some { 0 < result }
    ensures few { result ≤ workers }
{
    let mut size = with_intake(plan, with_nodes(plan, workers), workers);
    for number in 0..plan.blocks() {
        if size == workers {
            return size;
        }
        size = with_acts(plan, plan.acts(Run::Block(Blk(number))), size, workers);
    }
    size
}

/// Returns how many hands a team of at most so many workers, at least 1, has for a plan with these jobs, one for each block, beside so many
/// senders. One is enough if at most one long job can run at a time and nothing outside holds worker 0 up: no job of the plan itself is long,
/// the senders' jobs come to a serial queue, and no source and no wait asks for time or bytes. Otherwise there are as many as [`team_size`]
/// says. That more gain nothing is why there are none, and no clause.
pub(crate) fn hands_for<J: Job>(plan: &Plan, workers: u8, jobs: &[J], senders: u8) -> u8
    requires { 0 < workers }
    ensures some { 0 < result }
    ensures few { result ≤ workers }
{
    if has_long_job(plan, jobs) || is_sent_wide(plan, senders) || meets_outside(plan) {
        return team_size(plan, workers);
    }
    1
}

// Whether a block of the plan itself has a long job. A block of the intake runs what a sender sent instead.
fn has_long_job<J: Job>(plan: &Plan, jobs: &[J]) -> bool {
    for (number, job) in jobs.iter().enumerate() {
        if !is_of_intake(plan, number) && job.is_long() {
            return true;
        }
    }
    false
}

fn is_of_intake(plan: &Plan, number: usize) -> bool {
    match plan.intake() {
        Some((_, first, count)) => {
            let first = first as usize;
            first <= number && number - first < count as usize
        }
        None => false,
    }
}

// Whether senders may send jobs to a concurrent queue.
fn is_sent_wide(plan: &Plan, senders: u8) -> bool {
    match plan.intake() {
        Some((queue, _, count)) => senders > 0 && wide_blocks(plan, queue, count) > 0,
        None => false,
    }
}

// Whether a timer or a feed is to be heard, or a wait may come to its limit.
fn meets_outside(plan: &Plan) -> bool {
    for number in 0..plan.objects() {
        match plan.kind(Obj(number)) {
            Kind::Timer { .. } | Kind::Read => return true,
            _ => {}
        }
    }
    for number in 0..plan.blocks() {
        for act in plan.acts(Run::Block(Blk(number))) {
            match act {
                Act::GroupWaitFor(..) | Act::WaitFor(..) => return true,
                _ => {}
            }
        }
    }
    false
}

// A hand for `main`, and one for each serial queue and each source; at most so many workers.
fn with_nodes(plan: &Plan, workers: u8) -> u8
    requires { 0 < workers }
    ensures some { 0 < result }
    ensures few { result ≤ workers }
{
    let mut size = 1;
    for number in 0..plan.objects() {
        if size == workers {
            return size;
        }
        size += u8::from(plan.kind(Obj(number)).is_exclusive());
    }
    size
}

// So many hands more; at most so many workers.
fn grown(size: u8, more: u32, workers: u8) -> u8
    requires some { 0 < size }
    requires few { size ≤ workers }
    ensures some { 0 < result }
    ensures few { result ≤ workers }
{
    let room = u32::from(workers - size);
    size + more.min(room) as u8
}

// One more for each block that comes through the intake to a concurrent queue; at most so many workers.
fn with_intake(plan: &Plan, size: u8, workers: u8) -> u8
    requires some { 0 < size }
    requires few { size ≤ workers }
    ensures some { 0 < result }
    ensures few { result ≤ workers }
{
    match plan.intake() {
        Some((queue, _, count)) => grown(size, wide_blocks(plan, queue, count), workers),
        None => size,
    }
}

// One more for each block that one of the acts submits to a concurrent queue; at most so many workers.
fn with_acts(plan: &Plan, acts: &[Act], mut size: u8, workers: u8) -> u8
    requires some { 0 < size }
    requires few { size ≤ workers }
    ensures some { 0 < result }
    ensures few { result ≤ workers }
{
    for act in acts {
        if size == workers {
            return size;
        }
        size = grown(size, submitted_wide(plan, *act), workers);
    }
    size
}

// How many blocks the act submits to a concurrent queue.
fn submitted_wide(plan: &Plan, act: Act) -> u32 {
    match submitted(plan, act) {
        Some((queue, count)) => wide_blocks(plan, queue, count),
        None => 0,
    }
}

// So many blocks where the queue is concurrent, and else none. The queue is one of the plan's objects, since the plan is valid.
fn wide_blocks(plan: &Plan, queue: Obj, count: u32) -> u32 {
    if queue.0 < plan.objects() && plan.kind(queue).is_concurrent() {
        return count;
    }
    0
}

// The queue to which the act submits blocks, and how many; None where it submits none.
pub fn submitted(plan: &Plan, act: Act) -> Option<(Obj, u32)> {
    match act {
        Act::Async(q, _) | Act::Barrier(q, _) | Act::Sync(q, _) | Act::BarrierSync(q, _) => {
            Some((q, 1))
        }
        Act::GroupAsync(_, q, _) | Act::Notify(_, q, _) | Act::NotifyBlock(_, q, _) => Some((q, 1)),
        Act::Apply(q, strip) => Some((q, blocks_of_strip(plan, strip))),
        Act::Enter(_) | Act::Leave(_) | Act::GroupWait(_) | Act::Signal(_) | Act::Wait(_) => None,
        Act::GroupWaitFor(..) | Act::WaitFor(..) | Act::WaitBlock(_) => None,
        Act::Suspend(_) | Act::Resume(_) | Act::Activate(_) | Act::Target(..) => None,
        Act::Merge(..) | Act::Cancel(_) | Act::CancelBlock(_) => None,
        Act::Retain(_) | Act::Release(_) => None,
    }
}

// How many blocks a strip has. It is one of the plan's, since the plan is valid.
fn blocks_of_strip(plan: &Plan, strip: u32) -> u32 {
    match plan.strips().get(strip as usize) {
        Some(part) => part.count,
        None => 0,
    }
}

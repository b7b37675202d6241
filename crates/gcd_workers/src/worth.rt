// Estimates how many hands run a plan over files fastest. Times are in sixteenths of a nanosecond.
ghost use Rattle.std.specs.Prelude.{◌<◌, ◌≤◌};

use crate::hiring::submitted;
use crate::over::Over;
use gcd_jobs::{FileJob, Job, LONG_TIME, counting_time};
use gcd_machine::Machine;
use gcd_plan::{Act, Blk, How, Obj, Plan, Run};
use std::alloc::{AllocError, Global};

// The row adds this to each block, and the second figure for each hand.
const ROW: u64 = 6_400;

const ROW_HAND: u64 = 1_600;

// Each hand needs a thread, and a machine that grows with the plan's blocks.
const HAND: u64 = 800_000;

const HAND_BLOCK: u64 = 320;

// Returns the job of a block, and one that does nothing for a number that no block has.
fn job_of<'a>(over: Over<'a>, b: Blk) -> FileJob<'a> {
    if b.0 >= over.plan.blocks() {
        return FileJob::Nothing;
    }
    FileJob::new(over.files, over.plan.work(b))
}

/// Returns whether the block's work is long. No team pays if no work is.
#[inline(always)]
pub(crate) fn is_long(over: Over, b: Blk) -> bool {
    job_of(over, b).is_long()
}

/// Returns whether a work over one of the files can be long.
pub(crate) fn has_long_file(files: &[Vec<u8>]) -> bool {
    for bytes in files {
        if counting_time(How::Words, bytes.len() as u64) >= LONG_TIME {
            return true;
        }
    }
    false
}

// Returns whether the block's work counts so many bytes that it can be long.
#[inline(always)]
fn has_many_bytes(plan: &Plan, b: Blk) -> bool {
    if b.0 >= plan.blocks() {
        return false;
    }
    match plan.work(b) {
        Some(work) => counting_time(How::Words, u64::from(work.len)) >= LONG_TIME,
        None => false,
    }
}

/// Returns whether a block has a long work.
pub(crate) fn has_long_work(over: Over) -> bool {
    for number in 0..over.plan.blocks() {
        let b = Blk(number);
        if has_many_bytes(over.plan, b) && is_long(over, b) {
            return true;
        }
    }
    false
}

// Returns whether a block has still to end.
fn is_left(machine: &Machine, b: Blk) -> bool {
    b.0 < machine.blocks() && !machine.is_ended(b)
}

// Returns the exclusive object nearest to `root` among an object and its targets. It runs its blocks one after another.
fn lane_of(plan: &Plan, o: Obj) -> Option<Obj> {
    let mut lane = None;
    let mut at = o;
    for _ in 0..plan.objects() {
        if at.0 == 0 || at.0 >= plan.objects() {
            return lane;
        }
        if plan.kind(at).is_exclusive() {
            lane = Some(at);
        }
        at = plan.first_target(at);
    }
    lane
}

// How long the blocks take that are left of a run.
#[derive(Drop)]
struct Costs {
    // The time of all these blocks that an act submits, the time of the longest, and their number.
    all: u64,
    longest: u64,
    count: u64,
    // The lane of each object, and the time of the blocks in each lane.
    lanes: Vec<Option<Obj>>,
    sums: Vec<u64>,
}

impl Costs {
    // Adds a block that an act submits to this queue.
    fn add(&mut self, queue: Obj, time: u64) {
        self.all = self.all.saturating_add(time);
        self.longest = self.longest.max(time);
        self.count = self.count.saturating_add(1);
        if let Some(Some(lane)) = self.lanes.get(queue.0 as usize) {
            if let Some(sum) = self.sums.get_mut(lane.0 as usize) {
                *sum = sum.saturating_add(time);
            }
        }
    }

    // Adds the blocks that an act submits.
    fn add_act(&mut self, over: Over, machine: &Machine, act: Act) {
        let Some((queue, _)) = submitted(over.plan, act) else {
            return;
        };
        if let Some(b) = act.block() {
            if is_left(machine, b) {
                self.add(queue, job_of(over, b).time());
            }
        }
        let Some(number) = act.strip() else {
            return;
        };
        if let Some(strip) = over.plan.strips().get(number as usize) {
            for place in 0..strip.count {
                if is_left(machine, Blk(strip.first.saturating_add(place))) {
                    let job = FileJob::new(over.files, Some(strip.work(place)));
                    self.add(queue, job.time());
                }
            }
        }
    }

    // Returns how long a team takes. The hands share the blocks, but the longest lane or block limits them; row and hands cost extra.
    fn time_by(&self, plan: &Plan, hands: u8) -> u64 {
        let hands = u64::from(hands.max(1));
        let lane = self.sums.iter().copied().fold(self.longest, u64::max);
        let row = self.count.saturating_mul(ROW + ROW_HAND * hands);
        let team = hands * (HAND + HAND_BLOCK * u64::from(plan.blocks()));
        (self.all / hands)
            .max(lane)
            .saturating_add(row)
            .saturating_add(team)
    }

    // Returns how many hands take the least time, at most `most`. A team has to save a tenth of the time of one hand.
    fn hands(&self, plan: &Plan, most: u8) -> u8
        requires { 0 < most }
        ensures some { 0 < result }
        ensures few { result ≤ most }
    {
        let mut best = 1;
        let mut least = self.all - self.all / 10;
        for hands in 2..=most {
            let time = self.time_by(plan, hands);
            if time < least {
                least = time;
                best = hands;
            }
        }
        best
    }
}

// Adds up the blocks that are left of a run over these files. Returns `Err` if memory runs out.
fn costs_of(alloc: Global, over: Over, machine: &Machine) -> Result<Costs, AllocError> {
    let plan = over.plan;
    let objects = plan.objects();
    let mut costs = Costs {
        all: 0,
        longest: 0,
        count: 0,
        lanes: Vec::with_capacity(alloc, objects as usize)?,
        sums: Vec::from_elem(alloc, 0, objects as usize)?,
    };
    for number in 0..objects {
        costs.lanes.push(lane_of(plan, Obj(number)))?;
    }
    for number in 0..plan.blocks() {
        for act in plan.acts(Run::Block(Blk(number))) {
            costs.add_act(over, machine, *act);
        }
    }
    Ok(costs)
}

/// Returns how many hands run fastest what is left of a run, at least 1 and at most `most` (this project's own rule). The machine stands for
/// what has come. The answer is 1 if no team saves a tenth of the time that one hand takes, or if memory runs out. It is an estimate over works
/// and queues, and no clause says that it is right.
pub fn hands_worth(alloc: Global, over: Over, machine: &Machine, most: u8) -> u8
    requires { 0 < most }
    ensures some { 0 < result }
    ensures few { result ≤ most }
{
    match costs_of(alloc, over, machine) {
        Ok(costs) => costs.hands(over.plan, most),
        Err(AllocError) => 1,
    }
}

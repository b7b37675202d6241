// Decides when a team goes on with a run that worker 0 began in a list.
ghost use Rattle.std.specs.Prelude.{◌≡◌, ◌<◌, ◌≤◌, false, min, true, Some};
ghost use Rattle.gcd_plan.specs.declared.numbers.Run.{Run};
ghost use Rattle.gcd_history.specs.Held.{taken};

use crate::hiring::team_size;
use crate::over::Over;
use crate::worth::{hands_worth, has_long_file, has_long_work, is_long};
use gcd_event::Event;
use gcd_machine::Machine;
use gcd_plan::{Obj, Plan};
use std::alloc::Global;
use std::thread::{Threads, available_parallelism};

// Returns whether the plan has a read source.
fn has_feed(plan: &Plan) -> bool {
    for number in 0..plan.objects() {
        if plan.kind(Obj(number)).is_read() {
            return true;
        }
    }
    false
}

// Returns how many processors this process may use, or 255 if the system does not tell.
fn processors<R: Threads>(rt: &R) -> u8
    ensures { 0 < result }
{
    match available_parallelism(rt) {
        Ok(count) => u8::try_from(count.get()).unwrap_or(u8::MAX).max(1),
        Err(_) => u8::MAX,
    }
}

/// Returns whether the event is the Start of a long block, so that it takes a run.
pub(crate) fn starts_long(over: Over, e: Event) -> bool
    ensures { result ≡ true → (r : Run) × (taken e ≡ Some r) }
{
    let Event::Start { blk, .. } = e else {
        return false;
    };
    is_long(over, blk)
}

/// Decides when a team goes on with a run that worker 0 began in a list (this project's own rule). No clause says that it decides well.
#[derive(Clone, Copy)]
pub(crate) struct Hire {
    alloc: Global,
    // A team has at most this many hands.
    pub(crate) most: u8,
    // Worker 0 asks whether a team pays once the list has this many events.
    ask_at: u32,
    // The run goes on by this many hands.
    hands: u8,
}

impl Hire {
    /// No team goes on.
    pub(crate) fn nobody(alloc: Global) -> Hire
        ensures { result.most ≡ 1 }
    {
        Hire {
            alloc,
            most: 1,
            ask_at: u32::MAX,
            hands: 1,
        }
    }

    /// Decides for a run by at most this many workers that has not begun. If the plan has a read source, the poller may hold worker 0, so a
    /// team begins at once. If no work is long, worker 0 stays alone.
    pub(crate) fn new<R: Threads>(rt: &R, alloc: Global, over: Over, workers: u8) -> Hire
        requires { 0 < workers }
    {
        let mut hire = Hire::nobody(alloc);
        if workers == 1 {
            return hire;
        }
        if has_feed(over.plan) {
            hire.hands = team_size(over.plan, workers);
            return hire;
        }
        if !has_long_file(over.files) || !has_long_work(over) {
            return hire;
        }
        hire.most = team_size(over.plan, workers).min(processors(rt));
        hire.ask_at = 0;
        hire
    }

    /// Returns whether a team goes on from here.
    pub(crate) fn is_team(&self) -> bool {
        self.hands > 1
    }

    /// Returns how many hands go on, at least 1 and at most `workers`.
    pub(crate) fn hands(&self, workers: u8) -> u8
        requires { 0 < workers }
        ensures some { 0 < result }
        ensures few { result ≤ workers }
    {
        self.hands.max(1).min(workers)
    }

    /// Returns whether worker 0 may ask once the list has this many events.
    #[inline(always)]
    pub(crate) fn may_ask(&self, len: u32) -> bool
        ensures { result ≡ false → len < self.now.ask_at }
    {
        len >= self.ask_at
    }

    /// Returns how many events the list may have before worker 0 may ask, at most `most`.
    #[inline(always)]
    pub(crate) fn until(&self, most: u32) -> u32
        ensures { result ≡ min self.now.ask_at most }
    {
        self.ask_at.min(most)
    }

    // Asks whether a team pays for what is left of the run, for which the machine stands. If none does, worker 0 asks again once the list is
    // twice as long and has an event more for each block.
    fn pays(&mut self, over: Over, machine: &Machine) -> bool
        ensures most { self.new.most ≡ self.old.most }
        ensures some { result ≡ true → 1 < self.old.most }
    {
        let len = machine.len();
        self.ask_at = len.saturating_add(len.max(over.plan.blocks()));
        self.hands = hands_worth(self.alloc, over, machine, self.most.max(1));
        self.hands > 1
    }

    /// Returns whether the list stops before this event, so that a team goes on. The machine stands for the list.
    #[inline(always)]
    pub(crate) fn stops(&mut self, over: Over, machine: &Machine, e: Event) -> bool
        ensures most { self.new.most ≡ self.old.most }
        ensures some { result ≡ true → 1 < self.old.most }
        ensures start { result ≡ true → (r : Run) × (taken e ≡ Some r) }
    {
        if self.may_ask(machine.len()) && starts_long(over, e) {
            return self.pays(over, machine);
        }
        false
    }
}

// Who has which run, and what is left of it.
ghost use Rattle.std.specs.Prelude.{◌≡◌, ◌<◌, true, IfSome};
ghost use Rattle.gcd_plan.specs.Limits.{max_workers};
ghost use Rattle.gcd_history.specs.Permitted.{is_run_of};
ghost use Rattle.gcd_history.specs.Runs.{same_run};
ghost use Rattle.gcd_refinement.specs.MachineView.{at_worker};
ghost use Rattle.gcd_machine.specs.Judged.{done_at, act_due_at, is_busy_at, is_cancelled_run_at, is_next_at, is_own_at, next_act_at};
ghost use Rattle.gcd_machine.specs.Stands.{IsShaped};

use super::Registers;
use gcd_plan::{Act, Run};

// Whether the two are one run.
fn is_same(run: Run, other: Run) -> bool
    ensures { result ≡ same_run run other }
{
    match run {
        Run::Block(b) => match other {
            Run::Block(c) => b.0 == c.0,
            Run::Source(_) => false,
        },
        Run::Source(s) => match other {
            Run::Block(_) => false,
            Run::Source(t) => s.0 == t.0,
        },
    }
}

impl Registers {
    /// The run that the worker has.
    #[inline(always)]
    pub fn own(&self, worker: u8) -> Option<Run>
        requires shape { IsShaped self.now }
        requires worker { worker < max_workers }
        ensures { result ≡ at_worker self.now worker }
    {
        self.workers[worker as usize]
    }

    /// Whether the worker has a run.
    pub fn is_busy(&self, worker: u8) -> bool
        requires shape { IsShaped self.now }
        requires worker { worker < max_workers }
        ensures { result ≡ is_busy_at self.now worker }
    {
        self.own(worker).is_some()
    }

    /// Whether the worker has this run.
    pub fn is_own(&self, worker: u8, run: Run) -> bool
        requires shape { IsShaped self.now }
        requires worker { worker < max_workers }
        ensures { result ≡ is_own_at self.now worker run }
    {
        match self.own(worker) {
            Some(own) => is_same(own, run),
            None => false,
        }
    }

    /// How many acts the run has made.
    #[inline(always)]
    pub fn done(&self, run: Run) -> u32
        requires shape { IsShaped self.now }
        requires run { is_run_of self.now.plan run ≡ true }
        ensures { result ≡ done_at self.now run }
    {
        match run {
            Run::Block(blk) => self.blocks[blk.0 as usize].done(),
            Run::Source(src) => self.handlers[src.0 as usize].done,
        }
    }

    // Whether the run is a cancelled block's (dispatch_block_cancel(3)).
    #[inline(always)]
    fn is_cancelled_run(&self, run: Run) -> bool
        ensures { result ≡ is_cancelled_run_at self.now run }
    {
        match run {
            Run::Block(blk) => self.marks.is_cancelled(blk),
            Run::Source(_) => false,
        }
    }

    // The act of the run of this index; a cancelled block has none (dispatch_block_cancel(3)).
    #[inline(always)]
    fn act_due(&self, run: Run, index: u32) -> Option<Act>
        ensures { result ≡ act_due_at self.now run index }
    {
        if self.is_cancelled_run(run) {
            None
        } else {
            self.act_at(run, index)
        }
    }

    /// The run's next act, if one is left.
    #[inline(always)]
    pub fn next_act(&self, run: Run) -> Option<Act>
        requires shape { IsShaped self.now }
        requires run { is_run_of self.now.plan run ≡ true }
        ensures { result ≡ next_act_at self.now run }
    {
        self.act_due(run, self.done(run))
    }

    /// Whether the act at the index is the run's next.
    pub fn is_next(&self, run: Run, index: u32) -> bool
        requires shape { IsShaped self.now }
        requires run { is_run_of self.now.plan run ≡ true }
        ensures { result ≡ is_next_at self.now run index }
    {
        index == self.done(run) && self.act_due(run, index).is_some()
    }
}

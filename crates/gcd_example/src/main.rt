//! A program with a plan and jobs of its own (`PlanBuilder` of `gcd_builder`, `Dispatch` of `gcd_workers`). Three blocks
//! read a shared number on a concurrent queue, and a fourth writes it as a barrier (dispatch_barrier_async(3)). So the block before the
//! barrier reads the old number and the blocks behind it read the new one, in each run. `main` waits for the last of them
//! (dispatch_sync(3)), so its own job reads the new number too. The program prints the report of the run.
//!
//! Proved: the job of the writer gives the number that it writes, the plan is valid, and the text is the report of the run. Tested: which
//! numbers the readers get, since no contract says what a plain atomic holds, and what is written.
#![tactic(auto)]

ghost use Rattle.std.specs.Prelude.{◌≡◌, IfSome};

use gcd_builder::PlanBuilder;
use gcd_jobs::Job;
use gcd_plan::Kind;
use gcd_workers::Dispatch;
use std::sync::atomic::{AtomicU64, Ordering};

// A visit of a cache: it writes this number, or reads the one that the cache holds.
#[derive(Drop)]
struct Visit<'a>(&'a AtomicU64, Option<u64>);

impl Job for Visit<'_> {
    ghost gives = { λ visit input value. IfSome visit.1 (λ number. value ≡ number) };

    fn run(self, _input: u64) -> u64 {
        let Some(number) = self.1 else {
            return self.0.load(Ordering::SeqCst);
        };
        self.0.store(number, Ordering::SeqCst);
        number
    }
}

fn main(rt: HostRuntime) -> anyhow::Result<()> {
    let mut plan = PlanBuilder::new(rt.alloc())?;
    let queue = plan.queue("cache", Kind::Concurrent)?;
    let (early, fill) = (plan.block("early")?, plan.block("fill")?);
    let (late, last) = (plan.block("late")?, plan.block("last")?);
    plan.main()
        .async_on(queue, early)
        .barrier(queue, fill)
        .async_on(queue, late)
        .sync(queue, last)
        .end()?;
    let plan = plan.finish()?;

    let cache = AtomicU64::new(20);
    let run = Dispatch::new(&plan)
        .workers(4)
        .run(&rt, rt.alloc(), |block| {
            Visit(&cache, (block == fill).then_some(25))
        })?;
    print!(rt; "{}", run.report(rt.alloc(), &plan)?)?;
    Ok(())
}

// The workers of a run.
ghost use Rattle.std.specs.Prelude.{◌≡◌, ◌<◌, ◌≤◌, ℕ, false, length, IfOk};
ghost use Rattle.gcd_plan.specs.Limits.{max_workers};
ghost use Rattle.gcd_jobs.specs.BlockValues.{AreValues};
ghost use Rattle.gcd_jobs.specs.Contents.{contents};
ghost use Rattle.gcd_machine.specs.Stands.{StandsFor};
ghost use Rattle.gcd_turn.specs.Asked.{KeepsListens};
ghost use Rattle.gcd_outer.specs.Outside.{seen};
ghost use Rattle.gcd_commands.specs.Commands.{RanAlone};

use gcd_outer::{Clock, Poller};
use gcd_workers::{Outcome, Over, run_workers};
use std::alloc::{AllocError, Global};
use std::sync::Wait;
use std::thread::Threads;

/// Runs the plan over its files by so many workers, until it has come to its end or has `most` events. An `Err` comes where memory
/// runs out, or the system makes no thread for a worker of a long run.
pub fn run_by<R: Threads + Wait + Sync, P: Poller, C: Clock>(
    rt: &R,
    alloc: Global,
    over: Over,
    workers: u8,
    poller: &mut P,
    clock: &mut C,
) -> Result<Outcome, AllocError>
    requires files { length over.files.now ≡ length over.plan.now.files }
    requires workers { (0 < workers) × (workers ≤ max_workers) }
    requires most { 0 < over.most }
    requires unwatched { (feed : ℕ) → (P.state poller.old).watched feed ≡ false }
    ensures ran { IfOk result (RanAlone (seen P.tells P.state poller.old poller.new) (seen C.tells C.state clock.old clock.new) over.entry workers) }
    ensures values { IfOk result (λ o. AreValues over.entry.plan.now (contents over.entry.files.now) o.journal.items o.values.items) }
    ensures stands { IfOk result (λ o. StandsFor o.machine over.entry.plan.now o.journal.items) }
    ensures kept { KeepsListens P.tells (P.state poller.old) (P.state poller.new) }
{
    let outcome = run_workers(rt, alloc, over, workers, poller, clock)?;
    Ok(outcome)
}

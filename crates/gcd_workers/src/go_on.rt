// A run that worker 0 began in a list goes on by a team.
ghost use Rattle.std.specs.Prelude.{◌<◌, ◌≤◌, IfOk};
ghost use Rattle.gcd_plan.specs.Limits.{max_workers};
ghost use Rattle.gcd_turn.specs.Asked.{KeepsListens};
ghost use Rattle.gcd_turn.specs.Outsides.{IsSame, faced};
ghost use Rattle.gcd_workers.specs.ListRuns.{IsKept};
ghost use Rattle.gcd_workers.specs.Opened.{IsStopped};
ghost use Rattle.gcd_workers.specs.Ran.{GoesOnOverFiles};

use crate::alone::without_team;
use crate::jobs_board::close;
use crate::jobs_input::MOST_PUSHES;
use crate::list_run::ListRun;
use crate::nobodys_front::nobodys_front;
use crate::opening::open_after;
use crate::outcome::Outcome;
use crate::room::Room;
use crate::team::Team;
use crate::works::outcome_of;
use gcd_outer::{Clock, Poller};
use gcd_pool::{Pool, PoolFault};
use gcd_steal::Rack;
use gcd_turn::Outside;
use std::alloc::Global;
use std::sync::Wait;
use std::thread::Threads;

/// Goes on by a team from what a list has kept, until the run is quiescent or halted, or has as many events as it may have. Worker 0 holds
/// no run. `outside` is that of the list. If memory for the team is refused, worker 0 goes on alone. Returns `Err` if memory is refused
/// later, or the system makes no thread for a worker on whom another waits. Nothing is left of the run then.
pub(crate) fn go_on<R: Threads + Wait + Sync, P: Poller, C: Clock>(
    rt: &R,
    alloc: Global,
    run: ListRun,
    workers: u8,
    outside: &mut Outside<P, C>,
) -> Result<Outcome, PoolFault>
    requires most { 0 < run.over.most }
    requires workers { (0 < workers) × (workers ≤ max_workers) }
    requires run { IsKept run.over run.kept }
    requires stopped { IsStopped run.over.plan.now run.kept.journal.items }
    ensures went { IfOk result (GoesOnOverFiles run.entry.over workers run.entry.kept.journal.items (faced P.tells C.tells P.state C.state outside.old outside.new)) }
    ensures same { IsSame outside.old outside.new }
    ensures kept { KeepsListens P.tells (P.state outside.old.poller.now) (P.state outside.new.poller.now) }
{
    let ListRun { over, kept, hire } = run;
    let hands = hire.hands(workers);
    let Ok((rack, benches)) = Rack::new(alloc, over.plan, hands, MOST_PUSHES) else {
        return without_team(rt, alloc, over, kept, workers, outside);
    };
    let Ok(room) = Room::new(alloc, &kept.machine, benches) else {
        return without_team(rt, alloc, over, kept, workers, outside);
    };
    let Ok((front, mut intake)) = nobodys_front(alloc) else {
        return without_team(rt, alloc, over, kept, workers, outside);
    };
    let (board, pass, journal) = match open_after(alloc, over, kept, hands) {
        Ok(opened) => opened,
        Err(kept) => return without_team(rt, alloc, over, kept, workers, outside),
    };
    let pool = Pool::new(&board, &rack, over.plan);
    let team = Team::new(&pool, pass, room, journal);
    let (last, gathered) = team.go_on(rt, &front, &mut intake, outside)?;
    drop(pool);
    let ran = close(alloc, board, last, gathered)?;
    let outcome = outcome_of(alloc, ran)?;
    Ok(outcome)
}

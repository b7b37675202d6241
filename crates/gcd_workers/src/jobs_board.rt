// The board of a run of a caller's jobs, and the values in its cells at the end.
ghost use Rattle.std.specs.Prelude.{◌≡◌, ◌≢◌, ◌<◌, ◌≤◌, ℕ, List, [], true, false, IfOk, Some, None, length};
ghost use Rattle.gcd_plan.specs.Limits.{max_workers};
ghost use Rattle.gcd_plan.specs.PlanView.{PlanView};
ghost use Rattle.gcd_event.specs.declared.event.Event.{Event};
ghost use Rattle.gcd_history.specs.Ends.{HasState};
ghost use Rattle.gcd_jobs.specs.BlockValues.{has_given};
ghost use Rattle.gcd_machine.specs.Stands.{StandsFor};
ghost use Rattle.gcd_row.specs.Jobs.{placed_jobs};
ghost use Rattle.gcd_row.specs.Passes.{IsGathered, IsPassOf, terms_of, view};
ghost use Rattle.gcd_row.specs.Shapes.{gives_of};
ghost use Rattle.gcd_row.specs.Views.{standing_of};
ghost use Rattle.gcd_row.specs.declared.cell.Cell.TheVariants.{Done};
ghost use Rattle.gcd_row.specs.declared.view.Standing.TheVariants.{Out};
ghost use Rattle.gcd_workers.specs.JobsRuns.{AreLaid, AreOfJobs, AreTaken, tally_shape};
ghost use Rattle.gcd_workers.specs.Teams.{IsNew};

use crate::ran::Ran;
use crate::tallies::tallies_of;
use gcd_event::Entry;
use gcd_jobs::{Job, Tally};
use gcd_machine::Machine;
use gcd_plan::{Blk, Plan};
use gcd_row::{Board, Cell, Pass};
use std::alloc::{AllocError, Global};

// Makes a board of the jobs for this many workers and at most this many events, and worker 0's pass.
pub fn open<J: Job + Drop>(
    alloc: Global,
    plan: &Plan,
    workers: u8,
    most: u32,
    jobs: Vec<J>,
) -> Result<(Board<J, Tally>, Pass<J, Tally>), AllocError>
    requires limits { (0 < workers) × (workers ≤ max_workers) × (0 < most) }
    requires jobs { length jobs.items ≡ length plan.now.blocks }
    ensures plan { IfOk result (λ made. (terms_of made.0).plan ≡ plan.now) }
    ensures limits { IfOk result (λ made. (terms_of made.0).limits ≡ record { workers = workers; most = most }) }
    ensures jobs { IfOk result (λ made. AreLaid jobs.items (terms_of made.0).cells) }
    ensures cells { IfOk result (λ made. length (terms_of made.0).plan.blocks ≤ length (terms_of made.0).cells) }
    ensures pass { IfOk result (λ made. IsPassOf tally_shape (gives_of J.gives) made.0 made.1) }
    ensures new { IfOk result (λ made. IsNew (view made.1)) }
    ensures first { IfOk result (λ made. ((view made.1).seen ≡ []) × IsGathered (view made.1) []) }
{
    let tallies = tallies_of(alloc, plan)?;
    Ok(Board::new(alloc, plan, jobs, tallies, workers, most)?)
}

// Returns whether a block has given its value: it has ended and is not cancelled.
fn has_given(machine: &Machine, b: Blk) -> bool
    requires { b.0 < length machine.now.plan.blocks }
    ensures { (plan : PlanView) (h : List Event) → StandsFor machine.now plan h → result ≡ has_given plan h b.0 }
{
    machine.is_ended(b) && !machine.is_cancelled(b)
}

// Returns the value in the slot of a block, if the block has given one.
fn value_in<J>(cell: &Cell<J, Tally>, given: bool) -> Option<u64>
    ensures ended { (v : ℕ) → given ≡ true → cell.now ≡ Done v → result ≡ Some v }
    ensures other { given ≡ false → result ≡ None }
{
    if !given {
        return None;
    }
    match cell {
        Cell::Done(value) => Some(*value),
        Cell::Body(_) => None,
        Cell::Handler(_) => None,
        Cell::Away => None,
    }
}

// Returns the values of the blocks, by number, from the machine and the cells at the end.
fn values_of<J>(
    alloc: Global,
    machine: &Machine,
    cells: &[Cell<J, Tally>],
) -> Result<Vec<Option<u64>>, AllocError>
    requires { length machine.now.plan.blocks ≤ length cells.now }
    ensures { IfOk result (λ values. (plan : PlanView) (h : List Event) → StandsFor machine.now plan h
        → AreTaken plan h cells.now (length machine.now.plan.blocks) values.items) }
{
    let mut values = Vec::with_capacity(alloc, machine.blocks() as usize)?;
    for number in 0..machine.blocks() {
        let given = has_given(machine, Blk(number));
        values.push(value_in(&cells[number as usize], given))?;
    }
    Ok(values)
}

// Closes the board of a run that has ended. `gathered` has the events that worker 0 gathered.
pub fn close<J: Job + Drop>(
    alloc: Global,
    board: Board<J, Tally>,
    pass: Pass<J, Tally>,
    gathered: Vec<Entry>,
) -> Result<Ran, AllocError>
    requires pass { IsPassOf tally_shape (gives_of J.gives) board pass }
    requires head { (view pass).worker ≡ 0 }
    requires all_in { (w : ℕ) → standing_of (view pass).hands w ≢ Some Out }
    requires gathered { IsGathered (view pass) gathered.items }
    ensures journal { IfOk result (λ run. run.journal.items ≡ (view pass).seen) }
    ensures stands { IfOk result (λ run. StandsFor run.machine (terms_of board).plan (view pass).seen) }
    ensures state { IfOk result (λ run. HasState (terms_of board).plan (view pass).seen run.state) }
    ensures values { IfOk result (λ run. AreOfJobs J.gives (placed_jobs (view pass)) (view pass).seen run.values.items) }
{
    let Ok((journal, cells, machine)) = board.close_whole(alloc, pass, gathered) else {
        return Err(AllocError);
    };
    let values = values_of(alloc, &machine, &cells)?;
    let state = machine.state();
    Ok(Ran {
        journal,
        values,
        state,
        machine,
    })
}

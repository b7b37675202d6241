// The memory that a team needs beside its board.
ghost use Rattle.std.specs.Prelude.{◌≡◌, ◌<◌, All, IfOk, List, length};
ghost use Rattle.gcd_event.specs.declared.event.Event.{Event};
ghost use Rattle.gcd_machine.specs.Stands.{StandsFor};
ghost use Rattle.gcd_plan.specs.PlanView.{PlanView};
ghost use Rattle.gcd_steal.specs.Racks.{IsBenchOf};
ghost use Rattle.gcd_steal.specs.declared.bench.Rack.{Rack};
ghost use Rattle.gcd_workers.specs.Teams.{IsHelper, IsRoomFor};

use gcd_machine::Machine;
use gcd_pool::Hand;
use gcd_row::Slot;
use gcd_steal::Bench;
use std::alloc::{AllocError, Global};

/// The memory that a team needs beside its board. Whoever makes it first can still run alone if memory is refused.
#[derive(Drop)]
pub struct Room<S: Slot> {
    // What makes the journals of helpers, which stay empty.
    pub(crate) alloc: Global,
    // Worker 0's bench.
    pub(crate) first: Bench,
    // The bench and the machine of each helper, by number.
    pub(crate) helpers: Vec<(Bench, Machine)>,
    // An empty list with room for the hands.
    pub(crate) hands: Vec<Hand<S>>,
}

// Gives each helper its bench, and a copy of the machine.
fn helpers_of(
    alloc: Global,
    machine: &Machine,
    benches: Vec<Bench>,
) -> Result<Vec<(Bench, Machine)>, AllocError>
    ensures count { IfOk result (λ helpers. length helpers.items ≡ length benches.items) }
    ensures helpers { (rack : Rack) (plan : PlanView) (h : List Event) → All (IsBenchOf rack) benches.items → StandsFor machine.now plan h
        → IfOk result (λ helpers. All (IsHelper rack plan h) helpers.items) }
{
    let mut helpers = Vec::with_capacity(alloc, benches.len())?;
    for bench in benches {
        let copy = machine.copy(alloc)?;
        helpers.push((bench, copy))?;
    }
    Ok(helpers)
}

impl<S: Slot> Room<S> {
    /// Makes room for a hand at each of these benches, of which the first is worker 0's. Each helper gets a copy of the machine. Returns `Err`
    /// if memory runs out.
    pub fn new(
        alloc: Global,
        machine: &Machine,
        mut benches: Vec<Bench>,
    ) -> Result<Room<S>, AllocError>
        requires { 0 < length benches.items }
        ensures { IfOk result (IsRoomFor machine.now benches.items) }
    {
        let count = benches.len();
        let hands = Vec::with_capacity(alloc, count)?;
        let first = benches.remove(0);
        let helpers = helpers_of(alloc, machine, benches)?;
        Ok(Room {
            alloc,
            first,
            helpers,
            hands,
        })
    }
}

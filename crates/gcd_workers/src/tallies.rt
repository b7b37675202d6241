// The tallies of a plan's sources.
ghost use Rattle.std.specs.Prelude.{◌≡◌, ◌++◌, ◌∷◌, [], List, IfOk, OnOk};
ghost use Rattle.gcd_plan.specs.PlanView.{PlanView};
ghost use Rattle.gcd_event.specs.declared.event.Event.{Event};
ghost use Rattle.gcd_machine.specs.Stands.{StandsFor};
ghost use Rattle.gcd_row.specs.Opening.{AreHandlersOf, tallies_for};
ghost use Rattle.gcd_workers.specs.ListRuns.{AreTallies, IsUntold};

use gcd_event::Event;
use gcd_jobs::{Handler, Tally};
use gcd_machine::Machine;
use gcd_plan::{Kind, Obj, Plan};
use std::alloc::{AllocError, Global};

// Adds a tally for a source of this kind, and none for another object.
fn add_tally(kind: Kind, tallies: &mut Vec<Tally>) -> Result<(), AllocError>
    ensures { OnOk result (tallies.new.items ≡ tallies.old.items ++ tallies_for kind) }
{
    if kind.is_source() {
        tallies.push(Tally::new(kind))?;
    }
    Ok(())
}

/// Makes a tally for each source of the plan, by number. Returns `Err` if memory runs out.
pub fn tallies_of(alloc: Global, plan: &Plan) -> Result<Vec<Tally>, AllocError>
    ensures { IfOk result (λ tallies. AreHandlersOf (λ t. t.kind) (λ t. t.times) (λ t. t.total) plan.now tallies.items) }
{
    let mut tallies = Vec::new(alloc);
    for number in 0..plan.objects() {
        add_tally(plan.kind(Obj(number)), &mut tallies)?;
    }
    Ok(tallies)
}

/// Makes a tally for each object of the plan, by number, of which only those of sources are ever called. Returns `Err` if memory runs out.
pub(crate) fn tallies_by_object(alloc: Global, plan: &Plan) -> Result<Vec<Tally>, AllocError>
    ensures { IfOk result (λ tallies. AreTallies plan.now [] tallies.items) }
{
    let mut tallies = Vec::with_capacity(alloc, plan.objects() as usize)?;
    for number in 0..plan.objects() {
        tallies.push(Tally::new(plan.kind(Obj(number))))?;
    }
    Ok(tallies)
}

/// Hands over to the tally of its source what the event delivers, if it is a Deliver. The machine has taken the event already.
#[inline(always)]
pub(crate) fn hand_over(machine: &Machine, e: Event, tallies: &mut Vec<Tally>)
    requires { IsUntold machine.now tallies.old.items e }
    ensures { (plan : PlanView) (h : List Event) → StandsFor machine.now plan (h ++ e ∷ []) → AreTallies plan h tallies.old.items
        → AreTallies plan (h ++ e ∷ []) tallies.new.items }
{
    if let Event::Deliver { src, .. } = e {
        tallies[src.0 as usize].take(machine.data_of(src));
    }
}

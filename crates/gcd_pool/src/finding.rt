// Where a worker finds a Drain.
ghost use Rattle.std.specs.Prelude.{◌≡◌, ◌≢◌, ℕ, ◌<◌, ◌≤◌, IfNone, IfSome, IsTrue};
ghost use Rattle.gcd_plan.specs.Kinds.{is_node};
ghost use Rattle.gcd_plan.specs.Limits.{max_workers};
ghost use Rattle.gcd_steal.specs.Places.{Misses};
ghost use Rattle.gcd_steal.specs.Racks.{IsBenchOf, IsRackDrain, number_of, plan_of, sight_of};
ghost use Rattle.gcd_pool.specs.Found.{HasFound, HasFoundNone};

use gcd_plan::Obj;
use gcd_steal::{Bench, Drain, Rack};
use std::sync::Wait;

// The number that comes so many steps behind a bench's own, round the benches.
fn victim_at(own: u8, step: u8, benches: u8) -> u8
    requires own { own < benches }
    requires step { (0 < step) × (step < benches) }
    requires few { benches ≤ max_workers }
    ensures below { result < benches }
    ensures other { result ≢ own }
{
    if own + step < benches {
        own + step
    } else {
        own + step - benches
    }
}

// A Drain from the deque of another bench, from the next number on and round.
fn steal_round<R: Wait>(rt: &R, rack: &Rack, bench: &mut Bench) -> Option<Drain>
    requires { IsBenchOf rack.now bench.old }
    ensures bench { IsBenchOf rack.now bench.new }
    ensures number { number_of bench.new ≡ number_of bench.old }
    ensures sight { sight_of bench.new ≡ sight_of bench.old }
    ensures drain { IfSome result (λ d. IsRackDrain rack.now d) }
    ensures found { IfSome result (λ d. HasFound bench.old d bench.new) }
    ensures none { IfNone result ((tries : ℕ) × HasFoundNone tries bench.old bench.new) }
{
    let benches = rack.benches();
    let own = bench.number();
    for step in 1..benches {
        let victim = victim_at(own, step, benches);
        if let Some(drain) = rack.steal(rt, bench, victim) {
            return Some(drain);
        }
    }
    None
}

// A Drain from the bench's own deque, or else from another's, or else the node's own from its sleeping place. None only where
// the node's Drain did not sleep.
pub fn find_drain<R: Wait>(rt: &R, rack: &Rack, bench: &mut Bench, node: Obj) -> Option<Drain>
    requires bench { IsBenchOf rack.now bench.old }
    requires node { IsTrue (is_node (plan_of rack.now) node.0) }
    ensures bench { IsBenchOf rack.now bench.new }
    ensures number { number_of bench.new ≡ number_of bench.old }
    ensures drain { IfSome result (λ d. IsRackDrain rack.now d) }
    ensures found { IfSome result (λ d. HasFound bench.old d bench.new) }
    ensures none { IfNone result ((tries : ℕ) × HasFoundNone tries bench.old bench.new) }
    ensures out { IfNone result (Misses node.0 (sight_of bench.old) (sight_of bench.new)) }
{
    if let Some(drain) = rack.pop(bench) {
        return Some(drain);
    }
    if let Some(drain) = steal_round(rt, rack, bench) {
        return Some(drain);
    }
    rack.wake(bench, node)
}

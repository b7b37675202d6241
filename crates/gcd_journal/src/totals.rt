// What the deliveries of sources handed over.
ghost use Rattle.std.specs.Prelude.{◌≡◌, ◌+◌, ◌<◌, ◌^◌, ◌++◌, ◌∷◌, [], ℕ, true, false, List, None, IfOk, MatchOption, length, replicate};
ghost use Rattle.gcd_history.specs.Sources.{delivers};
ghost use Rattle.gcd_plan.specs.KindValues.{folded};
ghost use Rattle.gcd_plan.specs.Kinds.{is_source};
ghost use Rattle.gcd_event.specs.declared.event.Event.{Event};
ghost use Rattle.gcd_history.specs.History.{IsLawful, why};
ghost use Rattle.gcd_machine.specs.Stands.{StandsFor};
ghost use Rattle.gcd_journal.specs.Totals.{AreTotals, MayNote, no_total};

use gcd_event::{Entry, Event};
use gcd_machine::Machine;
use gcd_plan::{Kind, Obj, Plan, Run};
use std::alloc::{AllocError, Global};

/// What the deliveries of a source handed over: their number, and their values in one.
#[derive(Clone, Copy)]
pub struct Total {
    pub times: u32,
    pub value: u128,
}

// The total with one delivery more, of a source of this kind.
fn with_delivery(total: Total, kind: Kind, amount: u64) -> Total
    requires times { total.times + 1 < 2 ^ 32 }
    requires value { total.value + amount < 2 ^ 128 }
    ensures { result ≡ record { times = total.times + 1; value = folded kind total.value amount } }
{
    Total {
        times: total.times + 1,
        value: kind.folded(total.value, u128::from(amount)),
    }
}

// The source of a delivery.
fn delivered(e: Event) -> Option<Obj>
    ensures { MatchOption result ((s : ℕ) → delivers s e ≡ false) (λ src. (w : ℕ) × (e ≡ Event.Deliver w src)) }
{
    match e.begun() {
        Some(Run::Source(src)) => Some(src),
        Some(Run::Block(_)) => None,
        None => None,
    }
}

// Takes the delivery that the event is, if it is one; the machine has taken the event already.
fn note(plan: &Plan, machine: &Machine, e: Event, totals: &mut Vec<Total>)
    requires { MayNote plan.now machine.now totals.old.items e }
    ensures { (h : List Event) → StandsFor machine.now plan.now (h ++ e ∷ []) → why plan.now h e ≡ None → AreTotals plan.now h totals.old.items
        → AreTotals plan.now (h ++ e ∷ []) totals.new.items }
{
    match delivered(e) {
        None => {}
        Some(src) => {
            let at = src.0 as usize;
            totals[at] = with_delivery(totals[at], plan.kind(src), machine.data_of(src));
        }
    }
}

/// A machine that has taken events, and the totals of the plan's objects by number.
#[derive(Drop)]
pub struct Replay {
    pub machine: Machine,
    pub totals: Vec<Total>,
}

// No totals, for each object.
fn no_totals(alloc: Global, objects: u32) -> Result<Vec<Total>, AllocError>
    ensures { IfOk result (λ v. v.items ≡ replicate objects no_total) }
{
    let mut totals = Vec::with_capacity(alloc, objects as usize)?;
    for _ in 0..objects {
        totals.push(Total { times: 0, value: 0 })?;
    }
    Ok(totals)
}

/// Takes the events, which are lawful. It costs what the machine's steps cost.
pub fn replayed(alloc: Global, plan: &Plan, events: &[Entry]) -> Result<Replay, AllocError>
    requires lawful { IsLawful plan.now events.now }
    requires few { length events.now < 2 ^ 32 }
    ensures stands { IfOk result (λ r. StandsFor r.machine plan.now events.now) }
    ensures totals { IfOk result (λ r. AreTotals plan.now events.now r.totals.items) }
{
    let mut totals = no_totals(alloc, plan.objects())?;
    let mut machine = Machine::new(alloc, plan)?;
    for e in events {
        let event = e.event();
        machine.apply(event);
        note(plan, &machine, event, &mut totals);
    }
    Ok(Replay { machine, totals })
}

// Whether an object of the plan is a source.
fn has_source(plan: &Plan) -> bool
    ensures none { result ≡ false → (s : ℕ) → s < length plan.now.objects → is_source plan.now s ≡ false }
    ensures one { result ≡ true → (s : ℕ) × (is_source plan.now s ≡ true) }
{
    for s in 0..plan.objects() {
        if plan.kind(Obj(s)).is_source() {
            return true;
        }
    }
    false
}

/// The totals of lawful events. Where no object of the plan is a source no event is looked at; else it costs what the machine's
/// steps cost.
pub fn totals_by(alloc: Global, plan: &Plan, events: &[Entry]) -> Result<Vec<Total>, AllocError>
    requires lawful { IsLawful plan.now events.now }
    requires few { length events.now < 2 ^ 32 }
    ensures { IfOk result (λ t. AreTotals plan.now events.now t.items) }
{
    if !has_source(plan) {
        return no_totals(alloc, plan.objects());
    }
    let replay = replayed(alloc, plan, events)?;
    Ok(replay.totals)
}

// The deque of one bench: its owner pushes and pops, other benches steal.
ghost use Rattle.std.specs.Prelude.{◌≡◌, ◌≤◌, ◌+◌, ◌<◌, true, false, [], ◌∷◌, ◌↔◌, length, MatchOption, IfOk, OnOk, IsErr, IfErr};
ghost use Rattle.crossbeam_deque.specs.Handles.{view, IsPassOf, worker_deque, worker_view, worker_flavor, worker_capacity, worker_index, stealer_deque, stealer_flavor};
ghost use Rattle.gcd_steal.specs.Limits.{max_pushes};
ghost use Rattle.gcd_steal.specs.Drains.{IsOf};
ghost use Rattle.gcd_steal.specs.Deques.{account, Sends, Gets, WasEmpty};

use crate::drain::Drain;
use crate::places::Sight;
use crate::taking::pop_front;
use crate::tokens::Token;
use atomic_table::Badge;
use crossbeam_deque::protocol::{Outcome, Protocol, Split};
use crossbeam_deque::{Stealer, Worker};
use std::alloc::{AllocError, Global};
use std::collections::LinkedList;
use std::marker::{Brand, PhantomData};

// Which rack it is: a token of its table of tokens, and a badge of its places.
#[derive(Drop)]
pub struct RackId {
    pub tokens: Token,
    pub places: Badge<Sight>,
}

// What a pass knows of a deque: whether no pass was made yet, whether it is the owner's, the rack, the Drains that it
// pushed and those that it took, in their order. No value of it is made.
pub struct Account {
    pub fresh: bool,
    pub owns: bool,
    pub rack: RackId,
    pub sent: LinkedList<Drain>,
    pub took: LinkedList<Drain>,
}

// The rule of a deque.
pub struct FirstOut;

impl Protocol<Drain, Account> for FirstOut {
    ghost use Rattle.std.specs.Prelude.{true, false, []};
    ghost use Rattle.gcd_steal.specs.Deques.{account, no_rack, TakenInOrder};

    ghost holds = { TakenInOrder };

    ghost first = { account true true no_rack [] [] };

    ghost guest = { account false false no_rack [] [] };
}

// What a push tells.
pub struct Pushing;

impl Outcome<Drain, Account> for Pushing {
    ghost then = { Sends };
}

// What a pop or a steal tells.
pub struct Taking;

impl Outcome<Drain, Account> for Taking {
    ghost then = { Gets };

    ghost empty = { WasEmpty };
}

// The rack of a new pass. Each call picks it.
pub trait OfRack {
    ghost use Rattle.gcd_steal.specs.declared.deque.RackId.{RackId};

    ghost rack: { RackId };
}

impl OfRack for Brand {
    ghost use Rattle.gcd_steal.specs.Deques.{no_rack};

    ghost rack = { no_rack };
}

// How a new pass is split off: both passes know the rack from then on.
pub struct NewPass<N> {
    rack: PhantomData<N>,
}

impl<N: OfRack> Split<Account> for NewPass<N> {
    ghost use Rattle.std.specs.Prelude.{false, []};
    ghost use Rattle.gcd_steal.specs.Deques.{account};

    ghost left = { λ v. account false v.owns N.rack v.sent v.took };

    ghost right = { λ v. account false false N.rack [] [] };
}

pub type Owner = Worker<Drain, Global, Account, FirstOut>;

pub type Thief = Stealer<Drain, Global, Account, FirstOut>;

pub type Pass = crossbeam_deque::Pass<Drain, Account>;

// The owner's side of a FIFO deque with room for `most` pushes, of which `pushed` were made.
#[derive(Drop)]
pub struct Deque {
    pub worker: Owner,
    pub pushed: u32,
    pub most: u32,
    ghost fifo: { worker_flavor worker ≡ 0 },
    ghost room: { (worker_index worker ≤ pushed) × (pushed ≤ most) × (most ≤ worker_capacity worker) },
    ghost counted: { length (worker_view worker).sent ≡ pushed },
    ghost owner: { ((worker_view worker).owns ≡ true) × ((worker_view worker).fresh ≡ false) },
}

impl Deque {
    // Puts the Drain at the back. It comes back exactly where `most` were pushed.
    pub fn push(&mut self, drain: Drain) -> Result<(), Drain>
        requires { IsOf (worker_view self.old.worker).rack drain }
        ensures same { (worker_deque self.new.worker ≡ worker_deque self.old.worker)
            × (self.new.most ≡ self.old.most) }
        ensures room { IsErr result ↔ (self.old.pushed ≡ self.old.most) }
        ensures pushed { OnOk result ((self.new.pushed ≡ self.old.pushed + 1)
            × Sends (worker_view self.old.worker) (drain ∷ []) (worker_view self.new.worker)) }
        ensures refused { IfErr result (λ d. (d ≡ drain) × (self.new ≡ self.old)) }
    {
        if self.pushed >= self.most {
            return Err(drain);
        }
        match self.worker.push_as::<Pushing>(drain) {
            Ok(()) => {
                self.pushed += 1;
                Ok(())
            }
            Err(_) => unreachable!(),
        }
    }

    // Takes the Drain at the front.
    pub fn pop(&mut self) -> Option<Drain>
        ensures same { (worker_deque self.new.worker ≡ worker_deque self.old.worker)
            × (self.new.most ≡ self.old.most) × (self.new.pushed ≡ self.old.pushed) }
        ensures rule { MatchOption result
            ((worker_view self.new.worker ≡ worker_view self.old.worker) × WasEmpty (worker_view self.old.worker))
            (λ d. Gets (worker_view self.old.worker) (d ∷ []) (worker_view self.new.worker)) }
    {
        pop_front::<Drain, Account, FirstOut, Taking>(&mut self.worker)
    }

    // A further pass of the deque.
    pub fn another(&mut self, rack: &RackId) -> Pass
        requires { (worker_view self.old.worker).rack ≡ rack.now }
        ensures same { (worker_deque self.new.worker ≡ worker_deque self.old.worker)
            × (self.new.most ≡ self.old.most) × (self.new.pushed ≡ self.old.pushed)
            × (worker_view self.new.worker ≡ worker_view self.old.worker) }
        ensures pass { IsPassOf (worker_deque self.old.worker) result × (view result ≡ account false false rack.now [] []) }
    {
        split_pass::<Brand>(&mut self.worker, rack)
    }
}

fn split_pass<N: OfRack>(worker: &mut Owner, _rack: &RackId) -> Pass
    requires owner { (worker_view worker.old).owns ≡ true }
    requires rack { (worker_view worker.old).fresh ≡ false → (worker_view worker.old).rack ≡ _rack.now }
    requires picked { N.rack ≡ _rack.now }
    ensures worker { (worker_deque worker.new ≡ worker_deque worker.old)
        × (worker_flavor worker.new ≡ worker_flavor worker.old)
        × (worker_capacity worker.old ≤ worker_capacity worker.new)
        × (worker_index worker.new ≡ worker_index worker.old) }
    ensures pass { IsPassOf (worker_deque worker.old) result }
    ensures old { worker_view worker.new
        ≡ account false true _rack.now (worker_view worker.old).sent (worker_view worker.old).took }
    ensures new { view result ≡ account false false _rack.now [] [] }
{
    worker.another::<NewPass<N>>()
}

// A deque with room for `most` pushes, and its stealer.
pub fn open_deque(alloc: Global, rack: &RackId, most: u32) -> Result<(Deque, Thief), AllocError>
    requires { (0 < most) × (most ≤ max_pushes) }
    ensures deque { IfOk result (λ r. (worker_view r.0.worker ≡ account false true rack.now [] [])
        × (r.0.most ≡ most) × (r.0.pushed ≡ 0)) }
    ensures thief { IfOk result (λ r. (stealer_deque r.1 ≡ worker_deque r.0.worker)
        × (stealer_flavor r.1 ≡ 0)) }
{
    let mut worker = Owner::fifo_as(alloc, most as usize)?;
    let thief = worker.stealer()?;
    split_pass::<Brand>(&mut worker, rack);
    let deque = Deque {
        worker,
        pushed: 0,
        most,
    };
    Ok((deque, thief))
}

// How a team is made.
ghost use Rattle.std.specs.Prelude.{◌≡◌, ◌+◌, ◌<◌, ◌≤◌, [], All, length, slice_index_or, vec_capacity};
ghost use Rattle.gcd_plan.specs.Limits.{max_workers};
ghost use Rattle.gcd_machine.specs.Stands.{StandsFor};
ghost use Rattle.gcd_row.specs.Passes.{IsGathered, IsPassOf, terms_of, view};
ghost use Rattle.gcd_steal.specs.Racks.{IsBenchOf};
ghost use Rattle.gcd_pool.specs.Hands.{IsPool};
ghost use Rattle.gcd_pool.specs.declared.hand.Hand.{Hand};
ghost use Rattle.gcd_workers.specs.Teams.{EachFrom, HasLent, IsHead, IsHelper, IsNew, IsReadyAt, IsRoom, IsTeam};

use crate::room::Room;
use gcd_event::Entry;
use gcd_machine::Machine;
use gcd_pool::{Hand, Pool};
use gcd_row::{RowPass, Slot};
use gcd_steal::Bench;
use std::alloc::Global;

// Gives out a number, and adds the hand of that worker.
fn add_hand<S: Slot>(
    alloc: Global,
    pool: &Pool<S>,
    pass: &mut RowPass<S>,
    helper: (Bench, Machine),
    number: u8,
    hands: &mut Vec<Hand<S>>,
)
    requires pool { IsPool pool.now }
    requires pass { IsPassOf S.shape S.gives pool.now.board.now pass.old }
    requires head { IsHead 1 number (view pass.old) }
    requires bench { IsBenchOf pool.now.rack.now helper.0 }
    requires machine { StandsFor helper.1 (view pass.old).terms.plan (view pass.old).seen }
    requires number { (0 < number) × (number < (terms_of pool.now.board.now).limits.workers) × (length hands.old.items + 1 ≡ number) }
    requires hands { EachFrom (IsReadyAt S.shape S.gives pool.now) 1 hands.old.items }
    requires room { length hands.old.items < vec_capacity hands.old }
    ensures pass { IsPassOf S.shape S.gives pool.now.board.now pass.new }
    ensures lent { HasLent (view pass.old) (view pass.new) }
    ensures head { IsHead 1 (number + 1) (view pass.new) }
    ensures count { length hands.new.items ≡ number }
    ensures room { vec_capacity hands.new ≡ vec_capacity hands.old }
    ensures hands { EachFrom (IsReadyAt S.shape S.gives pool.now) 1 hands.new.items }
{
    let (bench, machine) = helper;
    let other = pool.board.split(pass, number, machine);
    hands.push_reserved(pool.hand(other, bench, Vec::new(alloc)));
}

// Adds a hand for each helper, for the workers from 1 on.
fn add_hands<S: Slot>(
    alloc: Global,
    pool: &Pool<S>,
    pass: &mut RowPass<S>,
    helpers: Vec<(Bench, Machine)>,
    hands: &mut Vec<Hand<S>>,
)
    requires pool { IsPool pool.now }
    requires pass { IsPassOf S.shape S.gives pool.now.board.now pass.old }
    requires head { IsHead 1 1 (view pass.old) }
    requires helpers { All (IsHelper pool.now.rack.now (view pass.old).terms.plan (view pass.old).seen) helpers.items }
    requires few { length helpers.items < max_workers }
    requires workers { length helpers.items < (terms_of pool.now.board.now).limits.workers }
    requires hands { hands.old.items ≡ [] }
    requires room { length helpers.items < vec_capacity hands.old }
    ensures pass { IsPassOf S.shape S.gives pool.now.board.now pass.new }
    ensures lent { HasLent (view pass.old) (view pass.new) }
    ensures head { IsHead 1 (length helpers.items + 1) (view pass.new) }
    ensures count { length hands.new.items ≡ length helpers.items }
    ensures room { vec_capacity hands.new ≡ vec_capacity hands.old }
    ensures hands { EachFrom (IsReadyAt S.shape S.gives pool.now) 1 hands.new.items }
{
    let mut number = 1;
    for helper in helpers {
        add_hand(alloc, pool, pass, helper, number, hands);
        number += 1;
    }
}

/// A team that has not begun: the hands of a pool, worker 0's first.
#[derive(Drop)]
pub struct Team<'t, 'p, S: Slot> {
    // Its workers share this.
    pub(crate) pool: &'t Pool<'p, S>,
    // Its hands, by the numbers of their workers.
    pub(crate) hands: Vec<Hand<S>>,
}

impl<'t, 'p, S: Slot> Team<'t, 'p, S> {
    /// Makes a hand for each bench of the room. `pass` is worker 0's pass of the pool's board, which was just opened for as many workers as
    /// there are benches. A worker of the board without a bench would pass nothing on, and so hold the others forever after 4,096 events.
    /// The benches are those of the pool's rack, and each machine stands for what the pass has seen. `journal` has the events that the row
    /// began with.
    pub fn new(
        pool: &'t Pool<'p, S>,
        mut pass: RowPass<S>,
        room: Room<S>,
        journal: Vec<Entry>,
    ) -> Team<'t, 'p, S>
        requires pool { IsPool pool.now }
        requires pass { IsPassOf S.shape S.gives pool.now.board.now pass }
        requires new { IsNew (view pass) }
        requires journal { IsGathered (view pass) journal.items }
        requires room { IsRoom pool.now.rack.now (view pass).terms.plan (view pass).seen (terms_of pool.now.board.now).limits.workers room }
        requires count { (terms_of pool.now.board.now).limits.workers ≤ max_workers }
        ensures pool { result.pool.now ≡ pool.now }
        ensures count { length result.hands.items ≡ (terms_of pool.now.board.now).limits.workers }
        ensures team { IsTeam S.shape S.gives result }
        ensures begun { (d : Hand S) → HasLent (view pass) (view (slice_index_or result.hands.items 0 d).pass) }
    {
        let Room {
            alloc,
            first,
            helpers,
            mut hands,
        } = room;
        add_hands(alloc, pool, &mut pass, helpers, &mut hands);
        match hands.insert(0, pool.hand(pass, first, journal)) {
            Ok(()) => Team { pool, hands },
            Err(_) => unreachable!(),
        }
    }
}

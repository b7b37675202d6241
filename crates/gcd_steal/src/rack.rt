// The calls of a rack.
ghost use Rattle.std.specs.Prelude.{◌≡◌, ◌≢◌, ◌↔◌, ◌+◌, ◌<◌, ◌≤◌, [], ◌∷◌, length, All, IsTrue, IfSome, IfNone, IfOk, OnOk, IsErr, IfErr};
ghost use Rattle.gcd_plan.specs.Kinds.{is_node};
ghost use Rattle.gcd_plan.specs.Limits.{max_workers};
ghost use Rattle.gcd_steal.specs.Limits.{max_pushes};
ghost use Rattle.gcd_steal.specs.Places.{newcomer, Takes, Misses, Gives};
ghost use Rattle.gcd_steal.specs.Drains.{node_of, sight_with};
ghost use Rattle.gcd_steal.specs.Deques.{WasEmpty, Sends, Gets};
ghost use Rattle.gcd_steal.specs.Racks.{plan_of, benches_of, IsRackDrain, number_of, pushed_by, most_of, sight_of, seat_of, own_account, StealTells, IsBenchOf, AreNumbered, IsUnused, SameButSeat, SameButDeque, SameButPass};

use crate::bench::{Bench, Rack};
use crate::deque::{Account, FirstOut, Taking};
use crate::drain::Drain;
use crate::lay::{Laid, lay_all};
use crate::make::{Opened, hand_out_passes, open_benches};
use crate::places::{lay_in_place, take_from_place};
use crate::taking::steal_front;
use gcd_plan::{Obj, Plan};
use std::alloc::{AllocError, Global};
use std::sync::Wait;

impl Bench {
    /// Its number, from 0: its place in the list that [`Rack::new`] gave.
    pub fn number(&self) -> u8
        ensures { result ≡ number_of self.now }
    {
        self.number
    }
}

impl Rack {
    /// A rack of the plan and a bench for each of its workers, in the order of their numbers.
    ///
    /// Each node's one Drain sleeps in a place of its own. Each bench has a FIFO deque with room for `most` pushes in all.
    /// There are 1 to 64 workers, and `most` is 1 to 65,536. The only refusal is out of memory, and then nothing is kept.
    pub fn new(
        alloc: Global,
        plan: &Plan,
        workers: u8,
        most: u32,
    ) -> Result<(Rack, Vec<Bench>), AllocError>
        requires workers { (0 < workers) × (workers ≤ max_workers) }
        requires most { (0 < most) × (most ≤ max_pushes) }
        ensures plan { IfOk result (λ r. plan_of r.0 ≡ plan.now) }
        ensures count { IfOk result (λ r. (benches_of r.0 ≡ workers) × (length r.1.items ≡ workers)) }
        ensures benches { IfOk result (λ r. All (λ b. IsBenchOf r.0 b) r.1.items) }
        ensures numbers { IfOk result (λ r. AreNumbered r.1.items) }
        ensures unused { IfOk result (λ r. All (λ b. IsUnused most b) r.1.items) }
    {
        let Laid {
            tokens,
            places,
            rack,
            mut seat,
        } = lay_all(alloc, plan)?;
        let Opened {
            mut benches,
            thieves,
        } = open_benches(alloc, &places, &mut seat, &rack, workers, most)?;
        hand_out_passes(alloc, &mut benches, &rack)?;
        let made = Rack {
            tokens,
            places,
            thieves,
        };
        Ok((made, benches))
    }

    /// How many benches it has, 1 to 64.
    pub fn benches(&self) -> u8
        ensures count { result ≡ benches_of self.now }
        ensures few { (0 < result) × (result ≤ max_workers) }
    {
        self.thieves.len() as u8
    }

    /// Takes the Drain of the node asked for from its sleeping place. The node is a queue or a
    /// source of the rack's plan.
    ///
    /// None only where the Drain was not asleep at a moment of the call: at its one write to the node's word, which the
    /// bench's seat counts, and which came after all that it had seen. One swap, and where the Drain slept one load.
    pub fn wake(&self, bench: &mut Bench, node: Obj) -> Option<Drain>
        requires bench { IsBenchOf self.now bench.old }
        requires node { IsTrue (is_node (plan_of self.now) node.0) }
        ensures bench { IsBenchOf self.now bench.new }
        ensures same { SameButSeat bench.old bench.new }
        ensures drain { IfSome result (λ d. IsRackDrain self.now d × (node_of d ≡ node)) }
        ensures asleep { IfSome result (λ d. Takes node.0 (sight_of bench.old) (sight_with d)
            × (sight_of bench.new ≡ newcomer (sight_with d))) }
        ensures awake { IfNone result (Misses node.0 (sight_of bench.old) (sight_of bench.new)
            × (seat_of bench.new ≡ seat_of bench.old)) }
    {
        take_from_place(&self.places, &mut bench.seat, node)
    }

    /// Lays the Drain into its sleeping place, where the next [`Rack::wake`] of its node finds it.
    /// The bench has then seen that it lies there. One store.
    pub fn sleep(&self, bench: &mut Bench, drain: Drain)
        requires bench { IsBenchOf self.now bench.old }
        requires drain { IsRackDrain self.now drain }
        ensures bench { IsBenchOf self.now bench.new }
        ensures same { SameButSeat bench.old bench.new }
        ensures lies { Gives (node_of drain).0 (sight_with drain) (sight_of bench.new) }
    {
        bench.seat = lay_in_place(&self.places, drain);
    }

    /// Puts the Drain at the back of the bench's own deque.
    ///
    /// Err exactly where the bench has pushed `most` times since [`Rack::new`], however many were taken since; the Drain
    /// comes back then, and nothing has changed.
    pub fn push(&self, bench: &mut Bench, drain: Drain) -> Result<(), Drain>
        requires bench { IsBenchOf self.now bench.old }
        requires drain { IsRackDrain self.now drain }
        ensures bench { IsBenchOf self.now bench.new }
        ensures same { SameButDeque bench.old bench.new }
        ensures room { IsErr result ↔ (pushed_by bench.old ≡ most_of bench.old) }
        ensures pushed { OnOk result ((pushed_by bench.new ≡ pushed_by bench.old + 1)
            × Sends (own_account bench.old) (drain ∷ []) (own_account bench.new)) }
        ensures refused { IfErr result (λ d. (d ≡ drain) × (bench.new ≡ bench.old)) }
    {
        bench.deque.push(drain)
    }

    /// Takes the Drain at the front of the bench's own deque.
    ///
    /// None only where that deque was found empty: by the clause it can have held nothing while the bench knew what it knows of
    /// it, and that it held nothing at a moment of the call rests on the form of a private function (the crate's page).
    pub fn pop(&self, bench: &mut Bench) -> Option<Drain>
        requires { IsBenchOf self.now bench.old }
        ensures bench { IsBenchOf self.now bench.new }
        ensures same { SameButDeque bench.old bench.new × (pushed_by bench.new ≡ pushed_by bench.old) }
        ensures drain { IfSome result (λ d. IsRackDrain self.now d) }
        ensures taken { IfSome result (λ d. Gets (own_account bench.old) (d ∷ [])
            (own_account bench.new)) }
        ensures empty { IfNone result ((own_account bench.new ≡ own_account bench.old)
            × WasEmpty (own_account bench.old)) }
    {
        bench.deque.pop()
    }

    /// Takes the Drain at the front of the deque of another bench, by its number.
    ///
    /// None only where that deque was found empty, as [`Rack::pop`] says it. Where another thread takes first it tries again,
    /// so it may wait for others, and what it promises holds if it returns.
    pub fn steal<R: Wait>(&self, rt: &R, bench: &mut Bench, victim: u8) -> Option<Drain>
        requires bench { IsBenchOf self.now bench.old }
        requires victim { (victim < benches_of self.now) × (victim ≢ number_of bench.old) }
        ensures bench { IsBenchOf self.now bench.new }
        ensures same { SameButPass victim bench.old bench.new }
        ensures drain { IfSome result (λ d. IsRackDrain self.now d) }
        ensures taken { IfSome result (λ d. StealTells victim bench.old bench.new
            (λ v w. Gets v (d ∷ []) w)) }
        ensures empty { IfNone result (StealTells victim bench.old bench.new
            (λ v w. (w ≡ v) × WasEmpty v)) }
    {
        let victim = victim as usize;
        steal_front::<Drain, Account, FirstOut, Taking, R>(
            rt,
            &self.thieves[victim],
            &mut bench.passes[victim],
        )
    }
}

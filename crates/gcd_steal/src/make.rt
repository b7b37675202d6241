// Making a rack with its benches.
ghost use Rattle.std.specs.Prelude.{◌≡◌, ◌<◌, ◌≤◌, [], length, IfOk};
ghost use Rattle.gcd_steal.specs.Limits.{max_pushes};
ghost use Rattle.gcd_steal.specs.Places.{sight};
ghost use Rattle.gcd_steal.specs.Racks.{own_account};
ghost use Rattle.gcd_steal.specs.Making.{IsOpened, AreOpened, KnowRack, IsNewPass, SameBench, SameButPasses, AreSame, AreNewPasses, HavePasses};

use crate::bench::Bench;
use crate::deque::{Pass, RackId, Thief, open_deque};
use crate::places::{PlaceSeat, Places, Twin};
use std::alloc::{AllocError, Global};

// Benches with a deque of their own, and no passes yet, and the stealers of those deques.
#[derive(Drop)]
pub struct Opened {
    pub benches: Vec<Bench>,
    pub thieves: Vec<Thief>,
}

// A new bench, with no pass yet, and the stealer of its deque.
fn open_bench(
    alloc: Global,
    places: &Places,
    seat: &mut PlaceSeat,
    rack: &RackId,
    number: u8,
    most: u32,
) -> Result<(Bench, Thief), AllocError>
    requires seat { (seat.old.table_id ≡ places.now.shared.table_id)
        × (seat.old.me ≡ (sight rack.now.tokens [] 0, [])) }
    requires words { 0 < places.now.shared.table_id.words }
    requires most { (0 < most) × (most ≤ max_pushes) }
    ensures seat { (seat.new.table_id ≡ seat.old.table_id) × (seat.new.me ≡ seat.old.me) }
    ensures opened { IfOk result (λ o. IsOpened places.now.shared.table_id rack.now most number o.1 o.0) }
{
    let (deque, thief) = open_deque(alloc, rack, most)?;
    let bench = Bench {
        deque,
        number,
        seat: places.shared.split_seat::<Twin>(seat),
        passes: Vec::new(alloc),
    };
    Ok((bench, thief))
}

// Opens a bench for each worker.
pub fn open_benches(
    alloc: Global,
    places: &Places,
    seat: &mut PlaceSeat,
    rack: &RackId,
    workers: u8,
    most: u32,
) -> Result<Opened, AllocError>
    requires seat { (seat.old.table_id ≡ places.now.shared.table_id)
        × (seat.old.me ≡ (sight rack.now.tokens [] 0, [])) }
    requires words { 0 < places.now.shared.table_id.words }
    requires most { (0 < most) × (most ≤ max_pushes) }
    ensures count { IfOk result (λ o. (length o.benches.items ≡ workers)
        × (length o.thieves.items ≡ workers)) }
    ensures opened { IfOk result (λ o. AreOpened places.now.shared.table_id rack.now most
        o.thieves.items o.benches.items) }
{
    let mut benches = Vec::with_capacity(alloc, workers as usize)?;
    let mut thieves = Vec::with_capacity(alloc, workers as usize)?;
    for number in 0..workers {
        let (bench, thief) = open_bench(alloc, places, seat, rack, number, most)?;
        benches.push(bench)?;
        thieves.push(thief)?;
    }
    Ok(Opened { benches, thieves })
}

// A further pass of the bench's deque.
fn split_pass_of(bench: &mut Bench, rack: &RackId) -> Pass
    requires { (own_account bench.old).rack ≡ rack.now }
    ensures same { SameBench bench.old bench.new }
    ensures pass { IsNewPass rack.now bench.old result }
{
    bench.deque.another(rack)
}

// A further pass of each bench's deque.
fn split_passes(
    alloc: Global,
    benches: &mut Vec<Bench>,
    rack: &RackId,
) -> Result<Vec<Pass>, AllocError>
    requires { KnowRack rack.now benches.old.items }
    ensures same { AreSame SameBench benches.old.items benches.new.items }
    ensures passes { IfOk result (λ passes. AreNewPasses rack.now benches.old.items passes.items) }
{
    let mut passes = Vec::with_capacity(alloc, benches.len())?;
    for k in 0..benches.len() {
        passes.push(split_pass_of(&mut benches[k], rack))?;
    }
    Ok(passes)
}

fn set_passes(bench: &mut Bench, passes: Vec<Pass>)
    ensures same { SameButPasses bench.old bench.new }
    ensures passes { bench.new.passes ≡ passes }
{
    bench.passes = passes;
}

// Gives each bench a pass of each bench's deque.
pub fn hand_out_passes(
    alloc: Global,
    benches: &mut Vec<Bench>,
    rack: &RackId,
) -> Result<(), AllocError>
    requires { KnowRack rack.now benches.old.items }
    ensures same { AreSame SameButPasses benches.old.items benches.new.items }
    ensures passes { IfOk result (λ _. HavePasses rack.now benches.new.items (length benches.new.items)) }
{
    for k in 0..benches.len() {
        let passes = split_passes(alloc, benches, rack)?;
        set_passes(&mut benches[k], passes);
    }
    Ok(())
}

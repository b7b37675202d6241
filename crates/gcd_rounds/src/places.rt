// Where the handler of each source lies: one after the other, by the number of the source.
ghost use Rattle.std.specs.Prelude.{◌≡◌, ◌<◌, IfOk, Some, length, slice_get};
ghost use Rattle.gcd_rounds.specs.Running.{places_of};

use gcd_plan::{Obj, Plan};
use std::alloc::{AllocError, Global};

// For each object how many sources have a lower number.
pub(crate) fn places_of(alloc: Global, plan: &Plan) -> Result<Vec<u32>, AllocError>
    ensures { IfOk result (λ v. v.items ≡ places_of plan.now) }
{
    let mut places = Vec::with_capacity(alloc, plan.objects() as usize)?;
    let mut sources = 0;
    for o in 0..plan.objects() {
        places.push(sources)?;
        sources += u32::from(plan.kind(Obj(o)).is_source());
    }
    Ok(places)
}

// The place of the handler of a source.
pub(crate) fn place_of(places: &[u32], src: Obj) -> usize
    requires { src.0 < length places.now }
    ensures { slice_get places.now src.0 ≡ Some result }
{
    places[src.0 as usize] as usize
}

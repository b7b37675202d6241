// What a plan says of its objects before the first event.
ghost use Rattle.std.specs.Prelude.{◌≡◌, IfOk, map};
ghost use Rattle.gcd_plan.specs.Kinds.{is_source_kind};

use gcd_plan::{Obj, Plan};
use std::alloc::{AllocError, Global};

/// Which objects of the plan are created active.
pub fn created_active(alloc: Global, plan: &Plan) -> Result<Vec<bool>, AllocError>
    ensures { IfOk result (λ v. v.items ≡ map (λ o. o.active) plan.now.objects) }
{
    let mut active = Vec::with_capacity(alloc, plan.objects() as usize)?;
    for o in 0..plan.objects() {
        active.push(plan.starts_active(Obj(o)))?;
    }
    Ok(active)
}

/// Which objects of the plan are sources.
pub fn sources(alloc: Global, plan: &Plan) -> Result<Vec<bool>, AllocError>
    ensures { IfOk result (λ v. v.items ≡ map (λ o. is_source_kind o.kind) plan.now.objects) }
{
    let mut sources = Vec::with_capacity(alloc, plan.objects() as usize)?;
    for o in 0..plan.objects() {
        sources.push(plan.kind(Obj(o)).is_source())?;
    }
    Ok(sources)
}

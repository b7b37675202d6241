// What a plan says of its semaphores before the first event.
ghost use Rattle.std.specs.Prelude.{◌≡◌, IfOk, map};
ghost use Rattle.gcd_plan.specs.KindValues.{first_value_of};

use gcd_plan::{Kind, Obj, Plan};
use std::alloc::{AllocError, Global};

fn first_value(kind: Kind) -> u32
    ensures { result ≡ first_value_of kind }
{
    match kind {
        Kind::Semaphore(n) => n,
        Kind::Serial | Kind::Concurrent | Kind::Group => 0,
        Kind::Add | Kind::Or | Kind::Replace | Kind::Timer { .. } | Kind::Read => 0,
    }
}

/// The value with which each object of the plan is created as a semaphore, and 0 for one that is none.
pub fn first_values(alloc: Global, plan: &Plan) -> Result<Vec<u32>, AllocError>
    ensures { IfOk result (λ v. v.items ≡ map (λ o. first_value_of o.kind) plan.now.objects) }
{
    let mut firsts = Vec::with_capacity(alloc, plan.objects() as usize)?;
    for o in 0..plan.objects() {
        firsts.push(first_value(plan.kind(Obj(o))))?;
    }
    Ok(firsts)
}

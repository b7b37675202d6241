// Whether a plan has an object for which an act may wait.
ghost use Rattle.std.specs.Prelude.{◌≡◌, ◌||◌};
ghost use Rattle.gcd_plan.specs.Kinds.{is_group_kind, is_semaphore_kind};
ghost use Rattle.gcd_sema.specs.Awaited.{has_awaited};

use gcd_plan::{Kind, Obj, Plan};

// Whether an act may wait for an object of this kind.
fn is_awaited(kind: Kind) -> bool
    ensures { result ≡ (is_group_kind kind || is_semaphore_kind kind) }
{
    kind.is_group() || kind.is_semaphore()
}

/// Whether the plan has a group or a semaphore: else no act of it waits for one (dispatch_group_wait(3),
/// dispatch_semaphore_wait(3)). It looks at each object once at most, and at no act.
pub fn has_awaited(plan: &Plan) -> bool
    ensures { result ≡ has_awaited plan.now }
{
    for o in 0..plan.objects() {
        if is_awaited(plan.kind(Obj(o))) {
            return true;
        }
    }
    false
}

// A front without senders.
ghost use Rattle.std.specs.Prelude.{◌≡◌, [], IfOk};
ghost use Rattle.gcd_front.specs.Fronts.{IsIntakeOf};

use gcd_front::{Front, Intake};
use gcd_jobs::Nobody;
use std::alloc::{AllocError, Global};

// Makes a front without senders, and its intake. Returns `Err` if memory runs out.
pub fn nobodys_front(alloc: Global) -> Result<(Front<Nobody>, Intake<Nobody>), AllocError>
    ensures senders { IfOk result (λ r. r.0.senders ≡ 0) }
    ensures intake { IfOk result (λ r. IsIntakeOf r.0 r.1) }
    ensures untaken { IfOk result (λ r. (r.1.taken ≡ []) × (r.1.known ≡ [])) }
{
    let (front, _mouths, intake) = Front::new(alloc, 1, 0)?;
    Ok((front, intake))
}

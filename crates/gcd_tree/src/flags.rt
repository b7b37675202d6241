// Two lists of truth values.
ghost use Rattle.std.specs.Prelude.{◌≡◌, IfOk};

use std::alloc::{AllocError, Global};

/// Both lists once more.
pub fn copied_flags(
    alloc: Global,
    first: &[bool],
    second: &[bool],
) -> Result<(Vec<bool>, Vec<bool>), AllocError>
    ensures first { IfOk result (λ v. v.0.items ≡ first.now) }
    ensures second { IfOk result (λ v. v.1.items ≡ second.now) }
{
    let one = Vec::from_slice(alloc, first)?;
    let other = Vec::from_slice(alloc, second)?;
    Ok((one, other))
}

// Flags of blocks and strips, by number.
ghost use Rattle.std.specs.Prelude.{◌≡◌, ◌≤◌, ◌<◌, ◌+◌, IfSome, OnOk, Some, false, length, slice_get, vec_len};
ghost use Rattle.gcd_plan.specs.Made.{Span, is_within, is_of_strip};
ghost use Rattle.gcd_plan.specs.Breaks.{Has};
ghost use Rattle.gcd_plan.specs.PlanView.{strip_view, view_of};
ghost use Rattle.std.specs.Option.{option_map_or};
ghost use Rattle.gcd_builder.specs.Agreement.{flags_with, marks_with, AreSetToo, AreMore};

use gcd_plan::{Blk, Parts, StripPart};
use std::alloc::AllocError;

/// Sets the flag of a block, if there is one.
pub fn mark(flags: &mut Vec<bool>, block: Option<Blk>)
    requires { IfSome block (λ b. b.0 < vec_len flags.old) }
    ensures { flags.new.items ≡ flags_with flags.old.items block }
{
    if let Some(b) = block {
        flags[b.0 as usize] = true;
    }
}

/// Sets the flag of a strip, if there is one.
pub fn mark_strip(flags: &mut Vec<bool>, strip: Option<u32>)
    requires { IfSome strip (λ a. a < vec_len flags.old) }
    ensures { flags.new.items ≡ marks_with flags.old.items strip }
{
    if let Some(a) = strip {
        flags[a as usize] = true;
    }
}

/// Sets the flags of so many blocks from the first on.
#[tactic(auto, using(crate::proofs::Marked::none_set, crate::proofs::Marked::one_set))]
pub fn mark_blocks(flags: &mut Vec<bool>, first: u32, count: u32)
    requires { first + count ≤ vec_len flags.old }
    ensures { AreSetToo flags.old.items flags.new.items (λ q. is_within q (record { first = first; count = count })) }
{
    for k in 0..count {
        flags[first as usize + k as usize] = true;
    }
}

// The strip of this number.
fn strip_at(parts: &Parts, a: u32) -> &StripPart
    requires { a < length parts.now.strips.items }
    ensures { slice_get (view_of parts.now).strips a ≡ Some (strip_view result.now) }
{
    &parts.strips[a as usize]
}

// Sets the flags of the blocks of the strip of this number.
fn mark_strip_at(flags: &mut Vec<bool>, parts: &Parts, a: u32)
    requires { Has (view_of parts.now).strips a (λ s. s.first + s.count ≤ vec_len flags.old) }
    ensures { AreSetToo flags.old.items flags.new.items (λ q. is_of_strip (view_of parts.now) a q) }
{
    let s = strip_at(parts, a);
    mark_blocks(flags, s.first, s.count);
}

/// Sets the flags of the blocks of a strip, if there is one (dispatch_apply(3)).
pub fn mark_strip_blocks(flags: &mut Vec<bool>, parts: &Parts, strip: Option<u32>)
    requires { IfSome strip (λ a. Has (view_of parts.now).strips a (λ s. s.first + s.count ≤ vec_len flags.old)) }
    ensures { AreSetToo flags.old.items flags.new.items (λ q. option_map_or (λ a. is_of_strip (view_of parts.now) a q) strip false) }
{
    match strip {
        Some(a) => mark_strip_at(flags, parts, a),
        None => (),
    }
}

/// Adds so many flags that are not set.
#[tactic(auto, using(crate::proofs::Marked::none_more, crate::proofs::Marked::one_unset))]
pub fn add_flags(flags: &mut Vec<bool>, count: u32) -> Result<(), AllocError>
    ensures { OnOk result (AreMore flags.old.items flags.new.items count) }
{
    for _ in 0..count {
        flags.push(false)?;
    }
    Ok(())
}

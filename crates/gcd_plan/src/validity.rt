// Why parts are no plan, or that they are one.
ghost use Rattle.std.specs.Prelude.{◌≡◌, ◌≤◌, ◌<◌, ◌==◌, ◌↔◌, ℕ, IsTrue, IsNone, IfSome, IfOk, IfErr, Some, None, true, false, [], length, slice_get, option_map, is_none, codes, string_bytes};
ghost use Rattle.std.specs.Option.{option_map_or};
ghost use Rattle.gcd_plan.specs.Breaks.{Breaks};
ghost use Rattle.gcd_plan.specs.Limits.{max_time};
ghost use Rattle.gcd_plan.specs.PlanView.{view_of, obj_view};
ghost use Rattle.gcd_plan.specs.Validity.{IsPlan, root_view, reaches_root};
ghost use Rattle.gcd_plan.specs.WithinLimits.{IsWithinLimits};

use crate::kind::Kind;
use crate::limits::MAX_TIME;
use crate::limits_valid::check_limits;
use crate::made_valid::{check_apart, check_intake, check_strips};
use crate::names_once::{
    check_block_names, check_file_names, check_object_names, check_strip_names,
};
use crate::numbers::Obj;
use crate::once_valid::reaches_root;
use crate::parts::{BlkPart, ObjPart, Parts};
use crate::parts_fault::PartsFault;
use crate::parts_valid::{check_blocks, check_files, check_objects};
use crate::submitted_once::check_submissions;

fn has_nothing_more(o: &ObjPart) -> bool
    ensures { IsTrue result ↔ ((string_bytes o.now.path ≡ []) × (o.now.handler.items ≡ []) × (o.now.cancel ≡ None)) }
{
    o.path.is_empty() && o.handler.is_empty() && o.cancel.is_none()
}

fn is_root(o: &ObjPart) -> bool
    ensures { IsTrue result ↔ (obj_view o.now ≡ root_view) }
{
    o.name.as_str() == "root"
        && o.kind == Kind::Concurrent
        && o.target.0 == 0
        && o.active
        && has_nothing_more(o)
}

fn begins_with_root(parts: &Parts) -> bool
    ensures { IsTrue result ↔ (slice_get (view_of parts.now).objects 0 ≡ Some root_view) }
{
    match parts.objects.first() {
        None => false,
        Some(o) => is_root(o),
    }
}

fn is_main(b: &BlkPart) -> bool
    ensures { IsTrue result ↔ (b.now.name ≡ codes "main") }
{
    b.name.as_str() == "main"
}

fn begins_with_main(parts: &Parts) -> bool
    ensures { IsTrue result ↔ (option_map (λ b. b.name) (slice_get (view_of parts.now).blocks 0) ≡ Some (codes "main")) }
{
    match parts.blocks.first() {
        None => false,
        Some(b) => is_main(b),
    }
}

fn is_main_idle(parts: &Parts) -> bool
    ensures { result ≡ option_map_or (λ b. is_none b.work) (slice_get (view_of parts.now).blocks 0) false }
{
    match parts.blocks.first() {
        None => false,
        Some(b) => b.work.is_none(),
    }
}

fn is_time(t: u32) -> bool
    ensures { IsTrue result ↔ ((1 ≤ t) × (t ≤ max_time)) }
{
    1 <= t && t <= MAX_TIME
}

fn check_targets(parts: &Parts) -> Result<(), PartsFault>
    requires { IsWithinLimits parts.now }
    ensures fits { IfOk result (λ _. (o : ℕ) → o < length parts.now.objects.items → reaches_root (view_of parts.now) o ≡ true) }
    ensures broken { IfErr result (Breaks (view_of parts.now)) }
{
    for o in 0..parts.objects.len() as u32 {
        if !reaches_root(parts, o) {
            return Err(PartsFault::NeverReachesRoot(Obj(o)));
        }
    }
    Ok(())
}

fn check_first(parts: &Parts) -> Result<(), PartsFault>
    ensures root { IfOk result (λ _. slice_get (view_of parts.now).objects 0 ≡ Some root_view) }
    ensures main { IfOk result (λ _. option_map (λ b. b.name) (slice_get (view_of parts.now).blocks 0) ≡ Some (codes "main")) }
    ensures idle { IfOk result (λ _. option_map_or (λ b. is_none b.work) (slice_get (view_of parts.now).blocks 0) false ≡ true) }
    ensures broken { IfErr result (Breaks (view_of parts.now)) }
{
    if !begins_with_root(parts) {
        return Err(PartsFault::NoRoot);
    }
    if !begins_with_main(parts) {
        return Err(PartsFault::NoMain);
    }
    if !is_main_idle(parts) {
        return Err(PartsFault::MainHasWork);
    }
    Ok(())
}

fn check_until(parts: &Parts) -> Result<(), PartsFault>
    ensures fits { IfOk result (λ _. (1 ≤ parts.now.until) × (parts.now.until ≤ max_time)) }
    ensures broken { IfErr result (Breaks (view_of parts.now)) }
{
    if is_time(parts.until) {
        Ok(())
    } else {
        Err(PartsFault::UntilOutOfRange)
    }
}

fn check_parts(parts: &Parts) -> Result<(), PartsFault>
    ensures fits { IfOk result (λ _. IsPlan (view_of parts.now)) }
    ensures broken { IfErr result (Breaks (view_of parts.now)) }
{
    check_first(parts)?;
    check_limits(parts)?;
    check_until(parts)?;
    check_file_names(parts)?;
    check_object_names(parts)?;
    check_strip_names(parts)?;
    check_block_names(parts)?;
    check_objects(parts)?;
    check_blocks(parts)?;
    check_files(parts)?;
    check_apart(parts)?;
    check_intake(parts)?;
    check_strips(parts)?;
    check_targets(parts)?;
    check_submissions(parts)?;
    Ok(())
}

/// A rule of plans that the parts break, the first that is found; None exactly where they are a plan.
pub fn fault_of(parts: &Parts) -> Option<PartsFault>
    ensures valid { IsNone result ↔ IsPlan (view_of parts.now) }
    ensures broken { IfSome result (Breaks (view_of parts.now)) }
{
    check_parts(parts).err()
}

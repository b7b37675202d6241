// Whether each object, block and file of the parts fits.
ghost use Rattle.std.specs.Prelude.{◌≡◌, not, ◌<◌, ◌&&◌, ◌==◌, true, false, Some, length, slice_get, is_none, IfOk, IfErr, IfSome, IfNone};
ghost use Rattle.std.specs.List.{list_all, position};
ghost use Rattle.std.specs.Option.{option_map_or};
ghost use Rattle.gcd_plan.specs.Breaks.{Breaks, Has};
ghost use Rattle.gcd_plan.specs.Checked.{AllHave};
ghost use Rattle.gcd_plan.specs.Kinds.{is_source_kind, is_node_kind};
ghost use Rattle.gcd_plan.specs.PlanView.{view_of, obj_view, blk_view, file_view, strip_view};
ghost use Rattle.gcd_plan.specs.Validity.{is_kind, has_path, has_queue_fields, has_no_fields, has_source_fields, is_object, is_work, is_block, is_file, is_handler_act, is_act, is_declared};
ghost use Rattle.gcd_plan.specs.WithinLimits.{IsWithinLimits};

use crate::act::Act;
use crate::kind::Kind;
use crate::kinds_valid::{is_act, is_declared, is_queue};
use crate::limits::{MAX_FILE_BYTES, MAX_TIME, MAX_VALUE};
use crate::names_valid::is_path;
use crate::numbers::{Blk, Obj};
use crate::parts::{BlkPart, FilePart, ObjPart, Parts, StripPart};
use crate::parts_fault::PartsFault;
use crate::work::Work;

fn is_kind(kind: Kind) -> bool
    ensures { result ≡ is_kind kind }
{
    match kind {
        Kind::Semaphore(n) => n <= MAX_VALUE,
        Kind::Timer { start, every } => {
            1 <= start && start <= MAX_TIME && 1 <= every && every <= MAX_TIME
        }
        Kind::Serial | Kind::Concurrent | Kind::Group => true,
        Kind::Add | Kind::Or | Kind::Replace | Kind::Read => true,
    }
}

fn has_path(kind: Kind, path: &str) -> bool
    ensures { result ≡ has_path kind path.now }
{
    match kind {
        Kind::Read => is_path(path.as_bytes()),
        Kind::Serial | Kind::Concurrent | Kind::Group | Kind::Semaphore(_) => path.is_empty(),
        Kind::Add | Kind::Or | Kind::Replace | Kind::Timer { .. } => path.is_empty(),
    }
}

/// The object of this number.
pub fn object_at(parts: &Parts, o: Obj) -> &ObjPart
    requires { o.0 < length parts.now.objects.items }
    ensures { slice_get (view_of parts.now).objects o.0 ≡ Some (obj_view result.now) }
{
    &parts.objects[o.0 as usize]
}

/// The block of this number.
pub fn block_at(parts: &Parts, b: Blk) -> &BlkPart
    requires { b.0 < length parts.now.blocks.items }
    ensures { slice_get (view_of parts.now).blocks b.0 ≡ Some (blk_view result.now) }
{
    &parts.blocks[b.0 as usize]
}

/// The file of this number.
pub fn file_at(parts: &Parts, f: u32) -> &FilePart
    requires { f < length parts.now.files.items }
    ensures { slice_get (view_of parts.now).files f ≡ Some (file_view result.now) }
{
    &parts.files[f as usize]
}

/// The strip of this number.
pub fn strip_at(parts: &Parts, a: u32) -> &StripPart
    requires { a < length parts.now.strips.items }
    ensures { slice_get (view_of parts.now).strips a ≡ Some (strip_view result.now) }
{
    &parts.strips[a as usize]
}

// The place of the first act that a handler may not have.
fn first_barred(acts: &[Act]) -> Option<usize>
    ensures { result ≡ position (λ act. not (is_handler_act act)) acts.now }
{
    acts.iter().position(|act| !act.is_for_handlers())
}

// The place of the first act that does not fit what it names.
fn first_unfit(parts: &Parts, acts: &[Act]) -> Option<usize>
    ensures { result ≡ position (λ act. not (is_act (view_of parts.now) act)) acts.now }
{
    acts.iter().position(|act| !is_act(parts, *act))
}

fn has_no_source_parts(o: &ObjPart) -> bool
    ensures { result ≡ (length (obj_view o.now).handler == 0 && is_none (obj_view o.now).cancel) }
{
    o.handler.is_empty() && o.cancel.is_none()
}

fn check_queue(parts: &Parts, o: Obj, object: &ObjPart) -> Result<(), PartsFault>
    requires stands { slice_get (view_of parts.now).objects o.0 ≡ Some (obj_view object.now) }
    requires node { is_node_kind object.now.kind ≡ true }
    requires other { is_source_kind object.now.kind ≡ false }
    ensures fits { IfOk result (λ _. has_queue_fields (view_of parts.now) (obj_view object.now) ≡ true) }
    ensures broken { IfErr result (Breaks (view_of parts.now)) }
{
    if !is_queue(parts, object.target) {
        return Err(PartsFault::TargetIsNoQueue(o));
    }
    if !has_no_source_parts(object) {
        return Err(PartsFault::HasSourceParts(o));
    }
    Ok(())
}

fn check_group_or_semaphore(parts: &Parts, o: Obj, object: &ObjPart) -> Result<(), PartsFault>
    requires stands { slice_get (view_of parts.now).objects o.0 ≡ Some (obj_view object.now) }
    requires other { is_node_kind object.now.kind ≡ false }
    requires no_source { is_source_kind object.now.kind ≡ false }
    ensures fits { IfOk result (λ _. has_no_fields (obj_view object.now) ≡ true) }
    ensures broken { IfErr result (Breaks (view_of parts.now)) }
{
    if object.target.0 != 0 {
        return Err(PartsFault::HasTarget(o));
    }
    if !object.active {
        return Err(PartsFault::Inactive(o));
    }
    if !has_no_source_parts(object) {
        return Err(PartsFault::HasSourceParts(o));
    }
    Ok(())
}

fn check_handler(parts: &Parts, s: Obj, object: &ObjPart) -> Result<(), PartsFault>
    requires stands { slice_get (view_of parts.now).objects s.0 ≡ Some (obj_view object.now) }
    requires source { is_source_kind object.now.kind ≡ true }
    ensures fits { IfOk result (λ _. list_all (λ act. is_handler_act act && is_act (view_of parts.now) act) object.now.handler.items ≡ true) }
    ensures broken { IfErr result (Breaks (view_of parts.now)) }
{
    if let Some(act) = first_barred(&object.handler) {
        return Err(PartsFault::HandlerActBarred(s, act));
    }
    if let Some(act) = first_unfit(parts, &object.handler) {
        return Err(PartsFault::HandlerActUnfit(s, act));
    }
    Ok(())
}

fn check_source(parts: &Parts, s: Obj, object: &ObjPart) -> Result<(), PartsFault>
    requires stands { slice_get (view_of parts.now).objects s.0 ≡ Some (obj_view object.now) }
    requires source { is_source_kind object.now.kind ≡ true }
    requires node { is_node_kind object.now.kind ≡ true }
    ensures fits { IfOk result (λ _. has_source_fields (view_of parts.now) (obj_view object.now) ≡ true) }
    ensures broken { IfErr result (Breaks (view_of parts.now)) }
{
    if !is_queue(parts, object.target) {
        return Err(PartsFault::TargetIsNoQueue(s));
    }
    if object.active {
        return Err(PartsFault::ActiveSource(s));
    }
    if !object.cancel.map_or(true, |b| is_declared(parts, b)) {
        return Err(PartsFault::CancelOutOfRange(s));
    }
    check_handler(parts, s, object)
}

fn check_object(parts: &Parts, o: Obj) -> Result<(), PartsFault>
    requires { o.0 < length parts.now.objects.items }
    ensures fits { IfOk result (λ _. Has (view_of parts.now).objects o.0 (λ v. is_object (view_of parts.now) v ≡ true)) }
    ensures broken { IfErr result (Breaks (view_of parts.now)) }
{
    let object = object_at(parts, o);
    if !is_kind(object.kind) {
        return Err(PartsFault::KindOutOfRange(o));
    }
    if !has_path(object.kind, object.path.as_str()) {
        return Err(PartsFault::PathUnfit(o));
    }
    if object.kind.is_source() {
        return check_source(parts, o, object);
    }
    if object.kind.is_node() {
        return check_queue(parts, o, object);
    }
    check_group_or_semaphore(parts, o, object)
}

/// Ok where each object fits its kind.
pub fn check_objects(parts: &Parts) -> Result<(), PartsFault>
    requires { IsWithinLimits parts.now }
    ensures fits { IfOk result (λ _. AllHave (view_of parts.now).objects (λ _ v. is_object (view_of parts.now) v ≡ true)) }
    ensures broken { IfErr result (Breaks (view_of parts.now)) }
{
    for o in 0..parts.objects.len() as u32 {
        check_object(parts, Obj(o))?;
    }
    Ok(())
}

fn is_work(parts: &Parts, w: Work) -> bool
    ensures { result ≡ is_work (view_of parts.now) w }
{
    (w.file as usize) < parts.files.len() && w.start <= MAX_FILE_BYTES && w.len <= MAX_FILE_BYTES
}

fn has_fitting_work(parts: &Parts, b: &BlkPart) -> bool
    ensures { result ≡ option_map_or (is_work (view_of parts.now)) (blk_view b.now).work true }
{
    b.work.map_or(true, |w| is_work(parts, w))
}

fn check_block(parts: &Parts, b: Blk) -> Result<(), PartsFault>
    requires { b.0 < length parts.now.blocks.items }
    ensures fits { IfOk result (λ _. Has (view_of parts.now).blocks b.0 (λ v. is_block (view_of parts.now) v ≡ true)) }
    ensures broken { IfErr result (Breaks (view_of parts.now)) }
{
    let block = block_at(parts, b);
    if !has_fitting_work(parts, block) {
        return Err(PartsFault::WorkOutOfRange(b));
    }
    if let Some(act) = first_unfit(parts, &block.acts) {
        return Err(PartsFault::BlockActUnfit(b, act));
    }
    Ok(())
}

/// Ok where each block's work and acts fit.
pub fn check_blocks(parts: &Parts) -> Result<(), PartsFault>
    requires { IsWithinLimits parts.now }
    ensures fits { IfOk result (λ _. AllHave (view_of parts.now).blocks (λ _ v. is_block (view_of parts.now) v ≡ true)) }
    ensures broken { IfErr result (Breaks (view_of parts.now)) }
{
    for b in 0..parts.blocks.len() as u32 {
        check_block(parts, Blk(b))?;
    }
    Ok(())
}

fn check_file(parts: &Parts, f: u32) -> Result<(), PartsFault>
    requires { f < length parts.now.files.items }
    ensures fits { IfOk result (λ _. Has (view_of parts.now).files f (λ v. is_file v ≡ true)) }
    ensures broken { IfErr result (Breaks (view_of parts.now)) }
{
    if is_path(file_at(parts, f).path.as_bytes()) {
        Ok(())
    } else {
        Err(PartsFault::FilePathIllFormed(f))
    }
}

/// Ok where each file's path fits.
pub fn check_files(parts: &Parts) -> Result<(), PartsFault>
    requires { IsWithinLimits parts.now }
    ensures fits { IfOk result (λ _. AllHave (view_of parts.now).files (λ _ v. is_file v ≡ true)) }
    ensures broken { IfErr result (Breaks (view_of parts.now)) }
{
    for f in 0..parts.files.len() as u32 {
        check_file(parts, f)?;
    }
    Ok(())
}

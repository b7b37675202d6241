// Whether what parts name is of the kind that is asked.
ghost use Rattle.std.specs.Prelude.{◌≡◌};
ghost use Rattle.gcd_plan.specs.PlanView.{view_of, kind_of};
ghost use Rattle.gcd_plan.specs.Kinds.{has_kind, is_queue_kind, is_node_kind, is_source_kind, is_group_kind, is_semaphore_kind, is_merge_kind, is_queue};
ghost use Rattle.gcd_plan.specs.Validity.{is_declared, is_held_object, is_act};

use crate::act::Act;
use crate::kind::Kind;
use crate::limits::{MAX_TIME, MAX_VALUE};
use crate::made::is_made;
use crate::numbers::{Blk, Obj};
use crate::parts::Parts;

fn kind_at(parts: &Parts, o: Obj) -> Option<Kind>
    ensures { result ≡ kind_of (view_of parts.now) o.0 }
{
    parts.objects.get(o.0 as usize).map(|object| object.kind)
}

/// Whether the object is a queue.
pub fn is_queue(parts: &Parts, o: Obj) -> bool
    ensures { result ≡ is_queue (view_of parts.now) o.0 }
{
    match kind_at(parts, o) {
        Some(kind) => kind.is_queue(),
        None => false,
    }
}

fn is_group(parts: &Parts, o: Obj) -> bool
    ensures { result ≡ has_kind is_group_kind (view_of parts.now) o.0 }
{
    match kind_at(parts, o) {
        Some(kind) => kind.is_group(),
        None => false,
    }
}

fn is_semaphore(parts: &Parts, o: Obj) -> bool
    ensures { result ≡ has_kind is_semaphore_kind (view_of parts.now) o.0 }
{
    match kind_at(parts, o) {
        Some(kind) => kind.is_semaphore(),
        None => false,
    }
}

fn is_merge_source(parts: &Parts, o: Obj) -> bool
    ensures { result ≡ has_kind is_merge_kind (view_of parts.now) o.0 }
{
    match kind_at(parts, o) {
        Some(kind) => kind.is_merge_source(),
        None => false,
    }
}

fn is_source(parts: &Parts, o: Obj) -> bool
    ensures { result ≡ has_kind is_source_kind (view_of parts.now) o.0 }
{
    match kind_at(parts, o) {
        Some(kind) => kind.is_source(),
        None => false,
    }
}

fn is_node(parts: &Parts, o: Obj) -> bool
    ensures { result ≡ has_kind is_node_kind (view_of parts.now) o.0 }
{
    match kind_at(parts, o) {
        Some(kind) => kind.is_node(),
        None => false,
    }
}

fn is_held_object(parts: &Parts, o: Obj) -> bool
    ensures { result ≡ is_held_object (view_of parts.now) o }
{
    o.0 > 0 && is_node(parts, o)
}

/// Whether the block is one of the plan's, not main, and not of the intake or of a strip.
pub fn is_declared(parts: &Parts, b: Blk) -> bool
    ensures { result ≡ is_declared (view_of parts.now) b }
{
    b.0 > 0 && (b.0 as usize) < parts.blocks.len() && !is_made(parts, b)
}

fn is_counted(parts: &Parts, o: Obj) -> bool
    ensures { result ≡ is_act (view_of parts.now) (Act.Retain o) }
{
    o.0 > 0 && (o.0 as usize) < parts.objects.len()
}

fn is_submission(parts: &Parts, q: Obj, b: Blk) -> bool
    ensures { result ≡ is_act (view_of parts.now) (Act.Async q b) }
{
    is_queue(parts, q) && is_declared(parts, b)
}

fn is_apply(parts: &Parts, q: Obj, a: u32) -> bool
    ensures { result ≡ is_act (view_of parts.now) (Act.Apply q a) }
{
    is_queue(parts, q) && (a as usize) < parts.strips.len()
}

/// Whether what the act names is of the kinds that it asks, and its value is in range.
pub fn is_act(parts: &Parts, act: Act) -> bool
    ensures { result ≡ is_act (view_of parts.now) act }
{
    match act {
        Act::Async(q, b) | Act::Barrier(q, b) | Act::Sync(q, b) | Act::BarrierSync(q, b) => {
            is_submission(parts, q, b)
        }
        Act::GroupAsync(g, q, b) | Act::Notify(g, q, b) => {
            is_group(parts, g) && is_submission(parts, q, b)
        }
        Act::Enter(g) | Act::Leave(g) | Act::GroupWait(g) => is_group(parts, g),
        Act::GroupWaitFor(g, ms) => is_group(parts, g) && ms <= MAX_TIME,
        Act::Signal(s) | Act::Wait(s) => is_semaphore(parts, s),
        Act::WaitFor(s, ms) => is_semaphore(parts, s) && ms <= MAX_TIME,
        Act::Suspend(o) | Act::Resume(o) | Act::Activate(o) => is_held_object(parts, o),
        Act::Target(o, t) => is_held_object(parts, o) && is_queue(parts, t),
        Act::Merge(s, n) => is_merge_source(parts, s) && n <= MAX_VALUE,
        Act::Cancel(s) => is_source(parts, s),
        Act::Retain(o) | Act::Release(o) => is_counted(parts, o),
        Act::Apply(q, a) => is_apply(parts, q, a),
        Act::CancelBlock(b) | Act::WaitBlock(b) => is_declared(parts, b),
        Act::NotifyBlock(b, q, c) => is_declared(parts, b) && is_submission(parts, q, c),
    }
}

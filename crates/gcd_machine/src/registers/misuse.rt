// Which acts are misuses (dispatch_object(3)).
ghost use Rattle.std.specs.Prelude.{◌≡◌, ◌<◌, ◌++◌, Some, true, length};
ghost use Rattle.std.specs.List.{list_any};
ghost use Rattle.gcd_plan.specs.Validity.{is_act};
ghost use Rattle.gcd_plan.specs.declared.act.Act.{Act};
ghost use Rattle.gcd_plan.specs.declared.numbers.Obj.{Obj};
ghost use Rattle.gcd_history.specs.Misuses.{named, first_code};
ghost use Rattle.gcd_history.specs.Permitted.{is_run_of};
ghost use Rattle.gcd_machine.specs.Judged.{act_misuses_at, is_below_first_at, is_held_node_at, is_released_at, misuse_by, misuse_of_run, named_by};
ghost use Rattle.gcd_machine.specs.Stands.{IsShaped};

use super::Registers;
use gcd_plan::{Act, MisuseCode, Obj, Run};

// The objects that the act names: one, of some acts another, and of some none.
#[inline(always)]
fn named(act: Act) -> (Option<Obj>, Option<Obj>)
    ensures { named act ≡ named_by result.0 ++ named_by result.1 }
{
    match act {
        Act::Async(q, _) => (Some(q), None),
        Act::Barrier(q, _) => (Some(q), None),
        Act::Sync(q, _) => (Some(q), None),
        Act::BarrierSync(q, _) => (Some(q), None),
        Act::GroupAsync(g, q, _) => (Some(g), Some(q)),
        Act::Notify(g, q, _) => (Some(g), Some(q)),
        Act::Enter(g) => (Some(g), None),
        Act::Leave(g) => (Some(g), None),
        Act::GroupWait(g) => (Some(g), None),
        Act::GroupWaitFor(g, _) => (Some(g), None),
        Act::Signal(s) => (Some(s), None),
        Act::Wait(s) => (Some(s), None),
        Act::WaitFor(s, _) => (Some(s), None),
        Act::Suspend(o) => (Some(o), None),
        Act::Resume(o) => (Some(o), None),
        Act::Activate(o) => (Some(o), None),
        Act::Target(o, t) => (Some(o), Some(t)),
        Act::Merge(s, _) => (Some(s), None),
        Act::Cancel(s) => (Some(s), None),
        Act::Retain(o) => (Some(o), None),
        Act::Release(o) => (Some(o), None),
        Act::Apply(q, _) => (Some(q), None),
        Act::CancelBlock(_) => (None, None),
        Act::WaitBlock(_) => (None, None),
        Act::NotifyBlock(_, q, _) => (Some(q), None),
    }
}

impl Registers {
    /// The code of the misuse, if the act is one now; a released name comes first, and then the lowest code
    /// (dispatch_object(3)).
    #[inline(always)]
    pub fn misuse(&self, act: Act) -> Option<u8>
        requires shape { IsShaped self.now }
        requires act { is_act self.now.plan act ≡ true }
        ensures { result ≡ misuse_by self.now act }
    {
        if self.names_released(act) {
            Some(MisuseCode::UseAfterRelease.code())
        } else {
            self.act_misuse(act)
        }
    }

    /// The code of the misuse, if the run has an act of this index that is one now.
    pub fn misuse_of_run(&self, run: Run, index: u32) -> Option<u8>
        requires { IsShaped self.now }
        ensures { result ≡ misuse_of_run self.now run index }
    {
        self.misuse(self.act_at(run, index)?)
    }

    // Whether no reference on the object is left; root has none to lose.
    #[inline(always)]
    fn is_released(&self, o: Obj) -> bool
        requires shape { IsShaped self.now }
        requires object { o.0 < length self.now.plan.objects }
        ensures { result ≡ is_released_at self.now o.0 }
    {
        o.0 != 0 && self.refs.refs(o) == 0
    }

    // Whether an object that the act names is released.
    #[inline(always)]
    fn names_released(&self, act: Act) -> bool
        requires shape { IsShaped self.now }
        requires act { is_act self.now.plan act ≡ true }
        ensures { result ≡ list_any (is_released_at self.now) (named act) }
    {
        let (first, second) = named(act);
        if self.has_released(first) {
            return true;
        }
        self.has_released(second)
    }

    // Whether the object, if there is one, is released.
    #[inline(always)]
    fn has_released(&self, named: Option<Obj>) -> bool
        requires shape { IsShaped self.now }
        requires object { (o : Obj) → named ≡ Some o → o.0 < length self.now.plan.objects }
        ensures { result ≡ list_any (is_released_at self.now) (named_by named) }
    {
        match named {
            Some(o) => self.is_released(o),
            None => false,
        }
    }

    // What is wrong with the act beside a released name.
    #[inline(always)]
    fn act_misuse(&self, act: Act) -> Option<u8>
        requires shape { IsShaped self.now }
        requires act { is_act self.now.plan act ≡ true }
        ensures { result ≡ first_code (act_misuses_at self.now act) }
    {
        match act {
            Act::Resume(o) => self.resume_misuse(o),
            Act::Leave(g) => self.leave_misuse(g),
            Act::Target(o, t) => self.target_misuse(o, t),
            Act::Release(o) => self.release_misuse(o),
            Act::Async(..) | Act::Barrier(..) | Act::Sync(..) | Act::BarrierSync(..) => None,
            Act::GroupAsync(..) | Act::Notify(..) | Act::Enter(_) | Act::GroupWait(_) => None,
            Act::Signal(_) | Act::Wait(_) | Act::Suspend(_) | Act::Activate(_) => None,
            Act::Merge(..) | Act::Cancel(_) | Act::Retain(_) => None,
            Act::GroupWaitFor(..) | Act::WaitFor(..) => None,
            Act::Apply(..) | Act::CancelBlock(_) | Act::WaitBlock(_) | Act::NotifyBlock(..) => None,
        }
    }

    // A resume too many (dispatch_resume(3)).
    fn resume_misuse(&self, o: Obj) -> Option<u8>
        requires shape { IsShaped self.now }
        requires object { o.0 < length self.now.plan.objects }
        ensures { result ≡ first_code (act_misuses_at self.now (Act.Resume o)) }
    {
        if self.holds.may_resume(o) {
            None
        } else {
            Some(MisuseCode::OverResume.code())
        }
    }

    // A leave without an enter (dispatch_group_leave(3)).
    fn leave_misuse(&self, g: Obj) -> Option<u8>
        requires shape { IsShaped self.now }
        requires group { g.0 < length self.now.plan.objects }
        ensures { result ≡ first_code (act_misuses_at self.now (Act.Leave g)) }
    {
        if self.groups.entered(g) == 0 {
            Some(MisuseCode::UnbalancedLeave.code())
        } else {
            None
        }
    }

    // A cycle of targets, or a target that may not change any more (dispatch_set_target_queue(3)).
    fn target_misuse(&self, o: Obj, t: Obj) -> Option<u8>
        requires shape { IsShaped self.now }
        requires object { o.0 < length self.now.plan.objects }
        requires target { t.0 < length self.now.plan.objects }
        ensures { result ≡ first_code (act_misuses_at self.now (Act.Target o t)) }
    {
        if self.tree.would_cycle(o, t) {
            Some(MisuseCode::TargetCycle.code())
        } else if self.plan.starts_active(o) {
            if self.tree.has_child(o) {
                Some(MisuseCode::TargetWhileTargeted.code())
            } else {
                None
            }
        } else if self.holds.is_active(o) {
            Some(MisuseCode::TargetAfterActivation.code())
        } else {
            None
        }
    }

    // The last release of a queue or source that is held or inactive, or of a semaphore below its first value
    // (dispatch_object(3), dispatch_semaphore_create(3)).
    fn release_misuse(&self, o: Obj) -> Option<u8>
        requires shape { IsShaped self.now }
        requires object { o.0 < length self.now.plan.objects }
        ensures { result ≡ first_code (act_misuses_at self.now (Act.Release o)) }
    {
        if self.refs.refs(o) != 1 {
            None
        } else if self.is_held_node(o) {
            Some(MisuseCode::ReleaseWhileSuspended.code())
        } else if self.is_below_first(o) {
            Some(MisuseCode::ReleaseBelowFirstValue.code())
        } else {
            None
        }
    }

    // Whether it is a queue or a source that is suspended or inactive.
    fn is_held_node(&self, o: Obj) -> bool
        requires shape { IsShaped self.now }
        requires object { o.0 < length self.now.plan.objects }
        ensures { result ≡ is_held_node_at self.now o.0 }
    {
        if !self.is_node(o) {
            return false;
        }
        if self.holds.hold(o) > 0 {
            return true;
        }
        !self.holds.is_active(o)
    }

    // Whether it is a semaphore with a value below its first value.
    fn is_below_first(&self, o: Obj) -> bool
        requires shape { IsShaped self.now }
        requires object { o.0 < length self.now.plan.objects }
        ensures { result ≡ is_below_first_at self.now o.0 }
    {
        self.plan.kind(o).is_semaphore() && self.semas.is_below_first(o)
    }
}

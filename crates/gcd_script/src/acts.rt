// What the lines of acts mean, by the words after the first.
ghost use Rattle.std.specs.Prelude.{◌≡◌, [], ◌∷◌, Err, Ok, map};
ghost use Rattle.std.specs.Option.{option_map_or};
ghost use Rattle.gcd_plan.specs.PlanView.{view_of};
ghost use Rattle.gcd_script.specs.Causes.{coded};
ghost use Rattle.gcd_script.specs.declared.refusal.Refusal.TheVariants.{NoForm};
ghost use Rattle.gcd_script.specs.Acts.{submitting, group_submitting, asked_of, acting, waited_of, waiting, acting_on};

use crate::amount::Amount;
use crate::cause::Cause;
use crate::draft::Draft;
use crate::keyword::{BlockAct, GroupSubmission, LimitedWait, ObjectAct, Submission};
use crate::line::Line;
use crate::meant::{Meant, both};
use crate::words::number;
use gcd_builder::Asked;
use gcd_plan::{Act, Blk, Obj, Run};

impl Submission {
    // The act that submits a block to a queue.
    fn act(self, queue: Obj, block: Blk) -> Act
        ensures { result ≡ submitting self queue block }
    {
        match self {
            Submission::Async => Act::Async(queue, block),
            Submission::Barrier => Act::Barrier(queue, block),
            Submission::Sync => Act::Sync(queue, block),
            Submission::BarrierSync => Act::BarrierSync(queue, block),
        }
    }
}

impl GroupSubmission {
    // The act that submits a block to a queue for a group.
    fn act(self, group: Obj, queue: Obj, block: Blk) -> Act
        ensures { result ≡ group_submitting self group queue block }
    {
        match self {
            GroupSubmission::GroupAsync => Act::GroupAsync(group, queue, block),
            GroupSubmission::Notify => Act::Notify(group, queue, block),
        }
    }
}

impl ObjectAct {
    // What the act asks of its object's kind.
    fn asked(self) -> Asked
        ensures { result ≡ asked_of self }
    {
        match self {
            ObjectAct::Enter => Asked::Group,
            ObjectAct::Leave => Asked::Group,
            ObjectAct::GroupWait => Asked::Group,
            ObjectAct::Signal => Asked::Semaphore,
            ObjectAct::Wait => Asked::Semaphore,
            ObjectAct::Suspend => Asked::Node,
            ObjectAct::Resume => Asked::Node,
            ObjectAct::Activate => Asked::Node,
            ObjectAct::Cancel => Asked::Source,
            ObjectAct::Retain => Asked::Any,
            ObjectAct::Release => Asked::Any,
        }
    }

    // The act on its object.
    fn act(self, o: Obj) -> Act
        ensures { result ≡ acting self o }
    {
        match self {
            ObjectAct::Enter => Act::Enter(o),
            ObjectAct::Leave => Act::Leave(o),
            ObjectAct::GroupWait => Act::GroupWait(o),
            ObjectAct::Signal => Act::Signal(o),
            ObjectAct::Wait => Act::Wait(o),
            ObjectAct::Suspend => Act::Suspend(o),
            ObjectAct::Resume => Act::Resume(o),
            ObjectAct::Activate => Act::Activate(o),
            ObjectAct::Cancel => Act::Cancel(o),
            ObjectAct::Retain => Act::Retain(o),
            ObjectAct::Release => Act::Release(o),
        }
    }
}

impl LimitedWait {
    // What the wait asks of its object's kind.
    fn asked(self) -> Asked
        ensures { result ≡ waited_of self }
    {
        match self {
            LimitedWait::WaitFor => Asked::Semaphore,
            LimitedWait::GroupWaitFor => Asked::Group,
        }
    }

    // The act that waits for so many milliseconds.
    fn act(self, o: Obj, ms: u32) -> Act
        ensures { result ≡ waiting self o ms }
    {
        match self {
            LimitedWait::WaitFor => Act::WaitFor(o, ms),
            LimitedWait::GroupWaitFor => Act::GroupWaitFor(o, ms),
        }
    }
}

impl BlockAct {
    // The act on its block.
    fn act(self, block: Blk) -> Act
        ensures { result ≡ acting_on self block }
    {
        match self {
            BlockAct::CancelBlock => Act::CancelBlock(block),
            BlockAct::WaitBlock => Act::WaitBlock(block),
        }
    }
}

impl<'a> Draft<'a> {
    ghost use Rattle.gcd_script.specs.Acts.{act_line, submit_act, group_submit_act, object_act, limited_act, target_act, merge_act, apply_act, block_act, notify_block_act};
    ghost use Rattle.gcd_builder.specs.Agreement.{Agrees};
    ghost use Rattle.gcd_script.specs.Meant.{meant};
    ghost use Rattle.gcd_script.specs.Views.{line_view};

    // Returns whose body is open.
    fn open_body(&self) -> Meant<Run>
        ensures { coded result ≡ option_map_or Ok self.now.body (Err NoForm) }
    {
        match self.body {
            Some(run) => Ok(run),
            None => Err(Cause::OutsideBody),
        }
    }

    /// Returns an act of the open body; no form where none is open.
    pub fn act_line(&self, act: Meant<Act>) -> Meant<Line<&'a str>>
        ensures { meant line_view (coded result) ≡ act_line self.now.body (coded act) }
    {
        let (run, act) = both(self.open_body(), act)?;
        Ok(Line::AddAct(run, act))
    }

    /// `async Q B`, `barrier Q B`, `sync Q B`, `barrier_sync Q B`.
    pub fn submit_act(&self, how: Submission, words: &[&str]) -> Meant<Act>
        requires { Agrees self.now.plan }
        ensures { coded result ≡ submit_act (view_of self.now.plan.parts) how (map (λ w. w.now) words.now) }
    {
        match *words {
            [queue, block] => {
                let (queue, block) = both(
                    self.object(Asked::Queue, 2, queue),
                    self.block(3, block),
                )?;
                Ok(how.act(queue, block))
            }
            _ => Err(Cause::WordCount),
        }
    }

    /// `group_async G Q B`, `notify G Q B`.
    pub fn group_submit_act(&self, how: GroupSubmission, words: &[&str]) -> Meant<Act>
        requires { Agrees self.now.plan }
        ensures { coded result ≡ group_submit_act (view_of self.now.plan.parts) how (map (λ w. w.now) words.now) }
    {
        match *words {
            [group, queue, block] => self.submitted_for(how, group, queue, block),
            _ => Err(Cause::WordCount),
        }
    }

    fn submitted_for(
        &self,
        how: GroupSubmission,
        group: &str,
        queue: &str,
        block: &str,
    ) -> Meant<Act>
        requires { Agrees self.now.plan }
        ensures { coded result ≡ group_submit_act (view_of self.now.plan.parts) how (group.now ∷ queue.now ∷ block.now ∷ []) }
    {
        let submitted = both(self.object(Asked::Queue, 3, queue), self.block(4, block));
        let (group, (queue, block)) = both(self.object(Asked::Group, 2, group), submitted)?;
        Ok(how.act(group, queue, block))
    }

    /// The acts on one object, which is not `root`.
    pub fn object_act(&self, what: ObjectAct, words: &[&str]) -> Meant<Act>
        requires { Agrees self.now.plan }
        ensures { coded result ≡ object_act (view_of self.now.plan.parts) what (map (λ w. w.now) words.now) }
    {
        match *words {
            [object] => self.acted(what, object),
            _ => Err(Cause::WordCount),
        }
    }

    fn acted(&self, what: ObjectAct, object: &str) -> Meant<Act>
        requires { Agrees self.now.plan }
        ensures { coded result ≡ object_act (view_of self.now.plan.parts) what (object.now ∷ []) }
    {
        let object = self.object_but_root(what.asked(), 2, object)?;
        Ok(what.act(object))
    }

    /// `wait_for S MS` (dispatch_semaphore_wait(3)), `group_wait_for G MS` (dispatch_group_wait(3)).
    pub fn limited_act(&self, what: LimitedWait, words: &[&str]) -> Meant<Act>
        requires { Agrees self.now.plan }
        ensures { coded result ≡ limited_act (view_of self.now.plan.parts) what (map (λ w. w.now) words.now) }
    {
        match *words {
            [object, limit] => self.waited(what, object, limit),
            _ => Err(Cause::WordCount),
        }
    }

    fn waited(&self, what: LimitedWait, object: &str, limit: &str) -> Meant<Act>
        requires { Agrees self.now.plan }
        ensures { coded result ≡ limited_act (view_of self.now.plan.parts) what (object.now ∷ limit.now ∷ []) }
    {
        let object = self.object(what.asked(), 2, object);
        let (object, limit) = both(object, number(3, Amount::Limit, limit))?;
        Ok(what.act(object, limit))
    }

    /// `target O T` (dispatch_set_target_queue(3)).
    pub fn target_act(&self, words: &[&str]) -> Meant<Act>
        requires { Agrees self.now.plan }
        ensures { coded result ≡ target_act (view_of self.now.plan.parts) (map (λ w. w.now) words.now) }
    {
        match *words {
            [object, target] => {
                let object = self.object_but_root(Asked::Node, 2, object);
                let (object, target) = both(object, self.object(Asked::Queue, 3, target))?;
                Ok(Act::Target(object, target))
            }
            _ => Err(Cause::WordCount),
        }
    }

    /// `merge S N` (dispatch_source_merge_data(3)).
    pub fn merge_act(&self, words: &[&str]) -> Meant<Act>
        requires { Agrees self.now.plan }
        ensures { coded result ≡ merge_act (view_of self.now.plan.parts) (map (λ w. w.now) words.now) }
    {
        match *words {
            [source, value] => {
                let source = self.object(Asked::MergeSource, 2, source);
                let (source, value) = both(source, number(3, Amount::Value, value))?;
                Ok(Act::Merge(source, value))
            }
            _ => Err(Cause::WordCount),
        }
    }

    /// `apply Q A` (dispatch_apply(3)).
    pub fn apply_act(&self, words: &[&str]) -> Meant<Act>
        requires { Agrees self.now.plan }
        ensures { coded result ≡ apply_act (view_of self.now.plan.parts) (map (λ w. w.now) words.now) }
    {
        match *words {
            [queue, strip] => {
                let (queue, strip) = both(
                    self.object(Asked::Queue, 2, queue),
                    self.strip(3, strip),
                )?;
                Ok(Act::Apply(queue, strip))
            }
            _ => Err(Cause::WordCount),
        }
    }

    /// `cancel_block B` (dispatch_block_cancel(3)), `wait_block B` (dispatch_block_wait(3)).
    pub fn block_act(&self, what: BlockAct, words: &[&str]) -> Meant<Act>
        requires { Agrees self.now.plan }
        ensures { coded result ≡ block_act (view_of self.now.plan.parts) what (map (λ w. w.now) words.now) }
    {
        match *words {
            [block] => {
                let block = self.block(2, block)?;
                Ok(what.act(block))
            }
            _ => Err(Cause::WordCount),
        }
    }

    /// `notify_block B Q C` (dispatch_block_notify(3)).
    pub fn notify_block_act(&self, words: &[&str]) -> Meant<Act>
        requires { Agrees self.now.plan }
        ensures { coded result ≡ notify_block_act (view_of self.now.plan.parts) (map (λ w. w.now) words.now) }
    {
        match *words {
            [awaited, queue, noted] => self.noted(awaited, queue, noted),
            _ => Err(Cause::WordCount),
        }
    }

    fn noted(&self, awaited: &str, queue: &str, noted: &str) -> Meant<Act>
        requires { Agrees self.now.plan }
        ensures { coded result ≡ notify_block_act (view_of self.now.plan.parts) (awaited.now ∷ queue.now ∷ noted.now ∷ []) }
    {
        let submitted = both(self.object(Asked::Queue, 3, queue), self.block(4, noted));
        let (awaited, (queue, noted)) = both(self.block(2, awaited), submitted)?;
        Ok(Act::NotifyBlock(awaited, queue, noted))
    }
}

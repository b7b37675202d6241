// Which rule an act breaks, if any.
ghost use Rattle.std.specs.Prelude.{◌≡◌, ◌&&◌, true, nat_le, nat_lt, length, IfErr, IfOk};
ghost use Rattle.std.specs.Option.{option_map_or};
ghost use Rattle.gcd_plan.specs.Kinds.{has_kind, is_group_kind, is_queue};
ghost use Rattle.gcd_plan.specs.PlanView.{view_of};
ghost use Rattle.gcd_plan.specs.Validity.{IsPlan, block_of, is_act, is_declared, is_held_object, strip_of};
ghost use Rattle.gcd_builder.specs.Asked.{asks};
ghost use Rattle.gcd_builder.specs.Refusals.{Breaks};

use crate::asked::Asked;
use crate::draft::PlanDraft;
use crate::fault::BuildFault;
use gcd_plan::{Act, Blk, MAX_TIME, MAX_VALUE, Obj, Run};

impl<'a> PlanDraft<'a> {
    ghost use Rattle.gcd_builder.specs.Agreement.{Agrees};
    ghost use Rattle.gcd_builder.specs.Bodies.{IsBody, may_have};
    ghost use Rattle.gcd_builder.specs.Refusals.{MayAct};
    ghost use Rattle.gcd_builder.specs.Taken.{is_free, is_unapplied, is_untaken_by};

    // Tests a queue, and a block that an act submits to it.
    fn check_submission(&self, q: Obj, b: Blk) -> Result<(), BuildFault<'a>>
        requires { IsPlan (view_of self.now.parts) }
        ensures fits { IfOk result (λ _. (is_queue (view_of self.now.parts) q.0 && is_declared (view_of self.now.parts) b) ≡ true) }
        ensures broken { IfErr result (Breaks (view_of self.now.parts)) }
    {
        self.check_object(Asked::Queue, q)?;
        self.check_block(b)
    }

    // Tests a group, and a queue and a block of a submission for it.
    fn check_grouped(&self, g: Obj, q: Obj, b: Blk) -> Result<(), BuildFault<'a>>
        requires { IsPlan (view_of self.now.parts) }
        ensures fits { IfOk result (λ _. (has_kind is_group_kind (view_of self.now.parts) g.0
            && (is_queue (view_of self.now.parts) q.0 && is_declared (view_of self.now.parts) b)) ≡ true) }
        ensures broken { IfErr result (Breaks (view_of self.now.parts)) }
    {
        self.check_object(Asked::Group, g)?;
        self.check_submission(q, b)
    }

    // Tests a block, and a queue and another block that is submitted when the first ends.
    fn check_noted(&self, b: Blk, q: Obj, c: Blk) -> Result<(), BuildFault<'a>>
        requires { IsPlan (view_of self.now.parts) }
        ensures fits { IfOk result (λ _. (is_declared (view_of self.now.parts) b
            && (is_queue (view_of self.now.parts) q.0 && is_declared (view_of self.now.parts) c)) ≡ true) }
        ensures broken { IfErr result (Breaks (view_of self.now.parts)) }
    {
        self.check_block(b)?;
        self.check_submission(q, c)
    }

    // Tests an object, and a number that stands beside it.
    fn check_limited(
        &self,
        asked: Asked,
        o: Obj,
        number: u32,
        most: u32,
    ) -> Result<(), BuildFault<'a>>
        ensures fits { IfOk result (λ _. (has_kind (asks asked) (view_of self.now.parts) o.0 && nat_le number most) ≡ true) }
        ensures broken { IfErr result (Breaks (view_of self.now.parts)) }
    {
        self.check_object(asked, o)?;
        self.check_range(number, 0, most)
    }

    // Tests an object that gets a target, and the target.
    fn check_target(&self, o: Obj, target: Obj) -> Result<(), BuildFault<'a>>
        ensures fits { IfOk result (λ _. (is_held_object (view_of self.now.parts) o && is_queue (view_of self.now.parts) target.0) ≡ true) }
        ensures broken { IfErr result (Breaks (view_of self.now.parts)) }
    {
        self.check_held(o)?;
        self.check_object(Asked::Queue, target)
    }

    // Tests a queue, and a strip that an act applies on it.
    fn check_apply(&self, q: Obj, strip: u32) -> Result<(), BuildFault<'a>>
        ensures fits { IfOk result (λ _. (is_queue (view_of self.now.parts) q.0 && nat_lt strip (length (view_of self.now.parts).strips)) ≡ true) }
        ensures broken { IfErr result (Breaks (view_of self.now.parts)) }
    {
        self.check_object(Asked::Queue, q)?;
        self.check_strip(strip)
    }

    // Tests what the act names, and its value.
    fn check_parts(&self, act: Act) -> Result<(), BuildFault<'a>>
        requires { IsPlan (view_of self.now.parts) }
        ensures fits { IfOk result (λ _. is_act (view_of self.now.parts) act ≡ true) }
        ensures broken { IfErr result (Breaks (view_of self.now.parts)) }
    {
        match act {
            Act::Async(q, b) => self.check_submission(q, b),
            Act::Barrier(q, b) => self.check_submission(q, b),
            Act::Sync(q, b) => self.check_submission(q, b),
            Act::BarrierSync(q, b) => self.check_submission(q, b),
            Act::GroupAsync(g, q, b) => self.check_grouped(g, q, b),
            Act::Notify(g, q, b) => self.check_grouped(g, q, b),
            Act::Enter(g) => self.check_object(Asked::Group, g),
            Act::Leave(g) => self.check_object(Asked::Group, g),
            Act::GroupWait(g) => self.check_object(Asked::Group, g),
            Act::GroupWaitFor(g, ms) => self.check_limited(Asked::Group, g, ms, MAX_TIME),
            Act::Signal(s) => self.check_object(Asked::Semaphore, s),
            Act::Wait(s) => self.check_object(Asked::Semaphore, s),
            Act::WaitFor(s, ms) => self.check_limited(Asked::Semaphore, s, ms, MAX_TIME),
            Act::Suspend(o) => self.check_held(o),
            Act::Resume(o) => self.check_held(o),
            Act::Activate(o) => self.check_held(o),
            Act::Target(o, t) => self.check_target(o, t),
            Act::Merge(s, n) => self.check_limited(Asked::MergeSource, s, n, MAX_VALUE),
            Act::Cancel(s) => self.check_object(Asked::Source, s),
            Act::Retain(o) => self.check_counted(o),
            Act::Release(o) => self.check_counted(o),
            Act::Apply(q, strip) => self.check_apply(q, strip),
            Act::CancelBlock(b) => self.check_block(b),
            Act::WaitBlock(b) => self.check_block(b),
            Act::NotifyBlock(b, q, c) => self.check_noted(b, q, c),
        }
    }

    // Tests that nothing submits the act's block yet.
    fn check_submits(&self, act: Act) -> Result<(), BuildFault<'a>>
        requires { Agrees self.now }
        ensures fits { IfOk result (λ _. option_map_or (is_free (view_of self.now.parts)) (block_of act) true ≡ true) }
        ensures broken { IfErr result (Breaks (view_of self.now.parts)) }
    {
        match act.block() {
            Some(b) => self.check_free(b),
            None => Ok(()),
        }
    }

    // Tests that nothing applies the act's strip yet (dispatch_apply(3)).
    fn check_applies(&self, act: Act) -> Result<(), BuildFault<'a>>
        requires { Agrees self.now }
        ensures fits { IfOk result (λ _. option_map_or (is_unapplied (view_of self.now.parts)) (strip_of act) true ≡ true) }
        ensures broken { IfErr result (Breaks (view_of self.now.parts)) }
    {
        match act.strip() {
            Some(strip) => self.check_unapplied(strip),
            None => Ok(()),
        }
    }

    // Tests that nothing took what the act takes.
    fn check_untaken(&self, act: Act) -> Result<(), BuildFault<'a>>
        requires { Agrees self.now }
        ensures fits { IfOk result (λ _. is_untaken_by (view_of self.now.parts) act ≡ true) }
        ensures broken { IfErr result (Breaks (view_of self.now.parts)) }
    {
        self.check_submits(act)?;
        self.check_applies(act)
    }

    // Tests that the run has a body of its own.
    fn check_body(&self, run: Run) -> Result<(), BuildFault<'a>>
        requires { IsPlan (view_of self.now.parts) }
        ensures fits { IfOk result (λ _. IsBody (view_of self.now.parts) run) }
        ensures broken { IfErr result (Breaks (view_of self.now.parts)) }
    {
        match run {
            Run::Block(b) => {
                if self.has_body(b) {
                    Ok(())
                } else {
                    Err(BuildFault::NotBody(run))
                }
            }
            Run::Source(s) => {
                if self.has_kind(Asked::Source, s) {
                    Ok(())
                } else {
                    Err(BuildFault::NotBody(run))
                }
            }
        }
    }

    // Tests that the body may have the act.
    fn check_allowed(&self, run: Run, act: Act) -> Result<(), BuildFault<'a>>
        ensures fits { IfOk result (λ _. may_have run act ≡ true) }
        ensures broken { IfErr result (Breaks (view_of self.now.parts)) }
    {
        match run {
            Run::Block(_) => Ok(()),
            Run::Source(_) => {
                if act.is_for_handlers() {
                    Ok(())
                } else {
                    Err(BuildFault::InHandler(act))
                }
            }
        }
    }

    // Tests an act at the end of a body.
    pub(crate) fn check_act(&self, run: Run, act: Act) -> Result<(), BuildFault<'a>>
        requires agrees { Agrees self.now }
        requires valid { IsPlan (view_of self.now.parts) }
        ensures fits { IfOk result (λ _. MayAct (view_of self.now.parts) run act) }
        ensures broken { IfErr result (Breaks (view_of self.now.parts)) }
    {
        self.check_body(run)?;
        self.check_parts(act)?;
        self.check_untaken(act)?;
        self.check_allowed(run, act)?;
        if self.has_act_room() {
            Ok(())
        } else {
            Err(BuildFault::TooManyActs)
        }
    }
}

// What a builder adds that is no object.
ghost use Rattle.std.specs.Prelude.{◌≡◌, ◌≤◌, ◌+◌, None, length, IfErr, IfOk, OnOk};
ghost use Rattle.gcd_plan.specs.Limits.{max_time};
ghost use Rattle.gcd_builder.specs.Changes.{new_block, new_file, new_intake, new_strip, with_act, with_block, with_cancel, with_file, with_intake, with_strip, with_until};
ghost use Rattle.gcd_builder.specs.Refusals.{Adds, MayAct, MayAddBlock, MayAddFile, MayAddIntake, MayAddStrip, MayCancel, Refuses};

use crate::builder::PlanBuilder;
use crate::fault::BuildFault;
use gcd_plan::{Act, Blk, How, MAX_TIME, Obj, Run, Work};

impl<'a> PlanBuilder<'a> {
    /// Adds a file that is loaded whole under this path, behind all files. It counts as declared on the line of its place among
    /// the files, from 1 (this project's own rule).
    #[tactic(auto, using(crate::proofs::Refused::by_rule, crate::proofs::Refused::by_memory, crate::proofs::Steps::file_stays))]
    pub fn file(&mut self, name: &'a str, path: &'a str) -> Result<u32, BuildFault<'a>>
        ensures added { OnOk result (Adds self.old self.new (with_file (new_file (length self.old.plan.files + 1) name.now path.now) self.old.plan)) }
        ensures number { IfOk result (λ f. f ≡ length self.old.plan.files) }
        ensures fits { OnOk result (MayAddFile self.old.plan name.now path.now) }
        ensures refused { IfErr result (Refuses self.old self.new) }
    {
        if self.spent {
            return Err(BuildFault::Memory);
        }
        self.draft.check_new_file(name, path)?;
        let line = self.draft.parts.files.len() as u32 + 1;
        self.spent = true;
        let file = self.draft.add_file(self.alloc, line, name, path)?;
        self.spent = false;
        Ok(file)
    }

    /// Adds a block with this work, or with none, behind all blocks. It has no act yet (this project's own rule).
    #[tactic(auto, using(crate::proofs::Refused::by_rule, crate::proofs::Refused::by_memory, crate::proofs::Steps::block_stays))]
    pub fn work_block(&mut self, name: &'a str, work: Option<Work>) -> Result<Blk, BuildFault<'a>>
        ensures added { OnOk result (Adds self.old self.new (with_block (new_block name.now work) self.old.plan)) }
        ensures number { IfOk result (λ b. b.0 ≡ length self.old.plan.blocks) }
        ensures fits { OnOk result (MayAddBlock self.old.plan name.now work) }
        ensures refused { IfErr result (Refuses self.old self.new) }
    {
        if self.spent {
            return Err(BuildFault::Memory);
        }
        self.draft.check_new_block(name, work)?;
        self.spent = true;
        let block = self.draft.add_block(self.alloc, name, work)?;
        self.spent = false;
        Ok(block)
    }

    /// Adds a block without a work, behind all blocks. It has no act yet (this project's own rule).
    pub fn block(&mut self, name: &'a str) -> Result<Blk, BuildFault<'a>>
        ensures added { OnOk result (Adds self.old self.new (with_block (new_block name.now None) self.old.plan)) }
        ensures number { IfOk result (λ b. b.0 ≡ length self.old.plan.blocks) }
        ensures fits { OnOk result (MayAddBlock self.old.plan name.now None) }
        ensures refused { IfErr result (Refuses self.old self.new) }
    {
        self.work_block(name, None)
    }

    /// Sets the last due time of timers and limit of waits, in milliseconds. A plan for which this is never called has
    /// [`gcd_plan::DEFAULT_UNTIL`] (this project's own rule).
    #[tactic(auto, using(crate::proofs::Refused::by_rule, crate::proofs::Refused::by_memory, crate::proofs::Steps::until_stays))]
    pub fn until(&mut self, ms: u32) -> Result<(), BuildFault<'a>>
        ensures added { OnOk result (Adds self.old self.new (with_until ms self.old.plan)) }
        ensures fits { OnOk result ((1 ≤ ms) × (ms ≤ max_time)) }
        ensures refused { IfErr result (Refuses self.old self.new) }
    {
        if self.spent {
            return Err(BuildFault::Memory);
        }
        self.draft.check_range(ms, 1, MAX_TIME)?;
        self.draft.set_until(ms);
        Ok(())
    }

    /// Makes the block the cancellation block of the source, and so submits it (dispatch_source_set_cancel_handler(3)).
    #[tactic(auto, using(crate::proofs::Refused::by_rule, crate::proofs::Refused::by_memory, crate::proofs::Steps::cancel_stays))]
    pub fn cancel_block(&mut self, source: Obj, block: Blk) -> Result<(), BuildFault<'a>>
        ensures added { OnOk result (Adds self.old self.new (with_cancel source block self.old.plan)) }
        ensures fits { OnOk result (MayCancel self.old.plan source block) }
        ensures refused { IfErr result (Refuses self.old self.new) }
    {
        if self.spent {
            return Err(BuildFault::Memory);
        }
        self.draft.check_cancel(source, block)?;
        self.draft.add_cancel(source, block);
        Ok(())
    }

    /// Adds the intake, by which callers from outside hand in closures: so many blocks, behind all blocks, that run on the queue
    /// (this project's own rule).
    #[tactic(auto, using(crate::proofs::Refused::by_rule, crate::proofs::Refused::by_memory, crate::proofs::Steps::intake_stays))]
    pub fn intake(&mut self, queue: Obj, count: u32) -> Result<(), BuildFault<'a>>
        ensures added { OnOk result (Adds self.old self.new (with_intake (new_intake queue count self.old.plan) self.old.plan)) }
        ensures fits { OnOk result (MayAddIntake self.old.plan queue count) }
        ensures refused { IfErr result (Refuses self.old self.new) }
    {
        if self.spent {
            return Err(BuildFault::Memory);
        }
        self.draft.check_intake(queue, count)?;
        self.spent = true;
        self.draft.add_intake(self.alloc, queue, count)?;
        self.spent = false;
        Ok(())
    }

    /// Adds a strip behind all strips, and its blocks behind all blocks: so many, each of which counts the next `len` bytes of the
    /// file, from 1 to [`gcd_plan::MAX_FILE_BYTES`] (dispatch_apply(3)).
    #[tactic(auto, using(crate::proofs::Refused::by_rule, crate::proofs::Refused::by_memory, crate::proofs::Steps::strip_stays))]
    pub fn strip(
        &mut self,
        name: &'a str,
        how: How,
        file: u32,
        len: u32,
        count: u32,
    ) -> Result<u32, BuildFault<'a>>
        ensures added { OnOk result (Adds self.old self.new (with_strip (new_strip name.now how file len count self.old.plan) self.old.plan)) }
        ensures number { IfOk result (λ a. a ≡ length self.old.plan.strips) }
        ensures fits { OnOk result (MayAddStrip self.old.plan name.now how file len count) }
        ensures refused { IfErr result (Refuses self.old self.new) }
    {
        if self.spent {
            return Err(BuildFault::Memory);
        }
        self.draft.check_new_strip(name, how, file, len, count)?;
        self.spent = true;
        let strip = self
            .draft
            .add_strip(self.alloc, name, how, file, len, count)?;
        self.spent = false;
        Ok(strip)
    }

    /// Adds an act at the end of the acts of a block, or of a source's handler (dispatch_source_set_event_handler(3)).
    #[tactic(auto, using(crate::proofs::Refused::by_rule, crate::proofs::Refused::by_memory, crate::proofs::Steps::act_stays))]
    pub fn act(&mut self, run: Run, act: Act) -> Result<(), BuildFault<'a>>
        ensures added { OnOk result (Adds self.old self.new (with_act act run self.old.plan)) }
        ensures fits { OnOk result (MayAct self.old.plan run act) }
        ensures refused { IfErr result (Refuses self.old self.new) }
    {
        if self.spent {
            return Err(BuildFault::Memory);
        }
        self.draft.check_act(run, act)?;
        self.spent = true;
        self.draft.add_act(run, act)?;
        self.spent = false;
        Ok(())
    }
}

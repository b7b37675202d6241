// One thing more in a draft, which the caller knows to fit.
ghost use Rattle.std.specs.Prelude.{◌≡◌, ◌<◌, ◌≤◌, ◌+◌, IfOk, OnOk, true, is_none, length};
ghost use Rattle.gcd_plan.specs.Kinds.{is_queue, is_source};
ghost use Rattle.gcd_plan.specs.Limits.{max_blocks, max_files, max_intake, max_objects, max_strips};
ghost use Rattle.gcd_plan.specs.PlanView.{cancel_block, view_of};
ghost use Rattle.gcd_plan.specs.Validity.{IsPlan, is_act, is_declared};

use crate::additions::{declare, push_act, push_block, push_file, push_object, set_cancel};
use crate::draft::PlanDraft;
use crate::flags::{add_flags, mark, mark_strip, mark_strip_blocks};
use crate::made::{push_intake, push_strip};
use crate::meaning::Meaning;
use gcd_plan::{Act, Blk, How, Kind, Obj, Run, Work};
use std::alloc::{AllocError, Global};

impl<'a> PlanDraft<'a> {
    ghost use Rattle.gcd_builder.specs.Agreement.{Agrees};
    ghost use Rattle.gcd_builder.specs.Bodies.{IsBody, may_have};
    ghost use Rattle.gcd_builder.specs.Changes.{new_file, new_object, new_block, new_intake, new_strip, with_file, with_object, with_block, with_act, with_cancel, with_intake, with_strip, with_until};
    ghost use Rattle.gcd_builder.specs.Names.{is_unused};

    /// Adds a file, which the line of that number declares, and returns its number. After an `Err`, which comes only where memory runs out, the draft
    /// is of no use; the same holds of the other additions (this project's own rule).
    pub fn add_file(
        &mut self,
        alloc: Global,
        line: u32,
        name: &'a str,
        path: &'a str,
    ) -> Result<u32, AllocError>
        requires agrees { Agrees self.old }
        requires unused { is_unused (view_of self.old.parts) name.now ≡ true }
        requires room { length (view_of self.old.parts).files < max_files }
        ensures view { OnOk result (view_of self.new.parts ≡ with_file (new_file line name.now path.now) (view_of self.old.parts)) }
        ensures agrees { OnOk result (Agrees self.new) }
        ensures number { IfOk result (λ f. f ≡ length (view_of self.old.parts).files) }
    {
        let file = self.parts.files.len() as u32;
        push_file(alloc, &mut self.parts, line, name, path)?;
        declare(&mut self.meanings, name, Meaning::File(file))?;
        Ok(file)
    }

    /// Adds an object, and returns its number.
    pub fn add_object(
        &mut self,
        alloc: Global,
        name: &'a str,
        kind: Kind,
        target: Obj,
        active: bool,
        path: &'a str,
    ) -> Result<Obj, AllocError>
        requires agrees { Agrees self.old }
        requires unused { is_unused (view_of self.old.parts) name.now ≡ true }
        requires room { length (view_of self.old.parts).objects < max_objects }
        ensures view { OnOk result (view_of self.new.parts ≡ with_object (new_object name.now kind target active path.now) (view_of self.old.parts)) }
        ensures agrees { OnOk result (Agrees self.new) }
        ensures number { IfOk result (λ o. o.0 ≡ length (view_of self.old.parts).objects) }
    {
        let object = Obj(self.parts.objects.len() as u32);
        push_object(alloc, &mut self.parts, name, kind, target, active, path)?;
        declare(&mut self.meanings, name, Meaning::Object(object))?;
        Ok(object)
    }

    /// Adds a block with no act, and returns its number.
    pub fn add_block(
        &mut self,
        alloc: Global,
        name: &'a str,
        work: Option<Work>,
    ) -> Result<Blk, AllocError>
        requires agrees { Agrees self.old }
        requires unused { is_unused (view_of self.old.parts) name.now ≡ true }
        requires room { length (view_of self.old.parts).blocks < max_blocks }
        ensures view { OnOk result (view_of self.new.parts ≡ with_block (new_block name.now work) (view_of self.old.parts)) }
        ensures agrees { OnOk result (Agrees self.new) }
        ensures number { IfOk result (λ b. b.0 ≡ length (view_of self.old.parts).blocks) }
    {
        let block = Blk(self.parts.blocks.len() as u32);
        push_block(alloc, &mut self.parts, name, work)?;
        self.submitted.push(false)?;
        declare(&mut self.meanings, name, Meaning::Block(block))?;
        Ok(block)
    }

    /// Sets the last due time of timers and limit of waits, in milliseconds.
    #[tactic(auto, unfolding(crate::specs::Names::meaning_of))]
    pub fn set_until(&mut self, ms: u32)
        requires agrees { Agrees self.old }
        ensures view { view_of self.new.parts ≡ with_until ms (view_of self.old.parts) }
        ensures agrees { Agrees self.new }
    {
        self.parts.until = ms;
    }

    /// Makes a block the cancellation block of a source (dispatch_source_set_cancel_handler(3)).
    pub fn add_cancel(&mut self, source: Obj, block: Blk)
        requires agrees { Agrees self.old }
        requires valid { IsPlan (view_of self.old.parts) }
        requires source { is_source (view_of self.old.parts) source.0 ≡ true }
        requires lacks { is_none (cancel_block (view_of self.old.parts) source.0) ≡ true }
        requires declared { is_declared (view_of self.old.parts) block ≡ true }
        ensures view { view_of self.new.parts ≡ with_cancel source block (view_of self.old.parts) }
        ensures agrees { Agrees self.new }
    {
        set_cancel(&mut self.parts, source, block);
        self.submitted[block.0 as usize] = true;
    }

    /// Adds an act at the end of a body.
    pub fn add_act(&mut self, run: Run, act: Act) -> Result<(), AllocError>
        requires agrees { Agrees self.old }
        requires valid { IsPlan (view_of self.old.parts) }
        requires body { IsBody (view_of self.old.parts) run }
        requires fits { is_act (view_of self.old.parts) act ≡ true }
        requires allowed { may_have run act ≡ true }
        ensures view { OnOk result (view_of self.new.parts ≡ with_act act run (view_of self.old.parts)) }
        ensures agrees { OnOk result (Agrees self.new) }
    {
        mark(&mut self.submitted, act.block());
        mark_strip_blocks(&mut self.submitted, &self.parts, act.strip());
        mark_strip(&mut self.applied, act.strip());
        push_act(&mut self.parts, run, act)?;
        self.acts += 1;
        Ok(())
    }

    /// Adds an intake, and its blocks.
    pub fn add_intake(&mut self, alloc: Global, queue: Obj, count: u32) -> Result<(), AllocError>
        requires agrees { Agrees self.old }
        requires valid { IsPlan (view_of self.old.parts) }
        requires first { is_none (view_of self.old.parts).intake ≡ true }
        requires queue { is_queue (view_of self.old.parts) queue.0 ≡ true }
        requires low { 1 ≤ count }
        requires high { count ≤ max_intake }
        requires room { length (view_of self.old.parts).blocks + count ≤ max_blocks }
        ensures view { OnOk result (view_of self.new.parts ≡ with_intake (new_intake queue count (view_of self.old.parts)) (view_of self.old.parts)) }
        ensures agrees { OnOk result (Agrees self.new) }
    {
        push_intake(alloc, &mut self.parts, queue, count)?;
        add_flags(&mut self.submitted, count)?;
        Ok(())
    }

    /// Adds a strip and its blocks, and returns its number (dispatch_apply(3)).
    pub fn add_strip(
        &mut self,
        alloc: Global,
        name: &'a str,
        how: How,
        file: u32,
        len: u32,
        count: u32,
    ) -> Result<u32, AllocError>
        requires agrees { Agrees self.old }
        requires valid { IsPlan (view_of self.old.parts) }
        requires unused { is_unused (view_of self.old.parts) name.now ≡ true }
        requires room { length (view_of self.old.parts).blocks + count ≤ max_blocks }
        requires strips { length (view_of self.old.parts).strips < max_strips }
        ensures view { OnOk result (view_of self.new.parts ≡ with_strip (new_strip name.now how file len count (view_of self.old.parts)) (view_of self.old.parts)) }
        ensures agrees { OnOk result (Agrees self.new) }
        ensures number { IfOk result (λ a. a ≡ length (view_of self.old.parts).strips) }
    {
        let strip = self.parts.strips.len() as u32;
        push_strip(alloc, &mut self.parts, name, how, file, len, count)?;
        add_flags(&mut self.submitted, count)?;
        self.applied.push(false)?;
        declare(&mut self.meanings, name, Meaning::Strip(strip))?;
        Ok(strip)
    }
}

// What a right line adds to a draft.
ghost use Rattle.std.specs.Prelude.{◌≡◌, ◌<◌, ◌+◌, OnOk, true, length};
ghost use Rattle.gcd_plan.specs.Limits.{max_blocks, max_files, max_objects};
ghost use Rattle.gcd_plan.specs.PlanView.{view_of};

use crate::draft::Draft;
use crate::line::Line;
use gcd_plan::{Act, Blk, How, Kind, Obj, Run, Work};
use std::alloc::{AllocError, Global};

impl<'a> Draft<'a> {
    ghost use Rattle.gcd_builder.specs.Agreement.{Agrees};
    ghost use Rattle.gcd_builder.specs.Names.{is_unused};
    ghost use Rattle.gcd_script.specs.Changes.{change, after};
    ghost use Rattle.gcd_script.specs.Sound.{IsDraft, IsRight};
    ghost use Rattle.gcd_script.specs.Views.{draft_view, line_view};
    ghost use Rattle.gcd_script.specs.declared.line.Line.TheVariants.{DeclareFile, DeclareObject, DeclareBlock, SetUntil, SetCancel, OpenHandler, AddAct, DeclareIntake, DeclareStrip};

    /// Adds what a right line declares, and counts the line. After an error the draft is of no use.
    pub fn add(&mut self, alloc: Global, line: &Line<&'a str>) -> Result<(), AllocError>
        requires agrees { Agrees self.old.plan }
        requires sound { IsDraft (draft_view self.old) }
        requires right { IsRight (draft_view self.old) (line_view line.now) }
        requires room { self.old.lines < u32.MAX }
        ensures view { OnOk result (draft_view self.new ≡ after (line_view line.now) (draft_view self.old)) }
        ensures agrees { OnOk result (Agrees self.new.plan) }
    {
        self.change(alloc, line)?;
        self.lines += 1;
        Ok(())
    }

    // The same without the count.
    #[tactic(auto, unfolding(gcd_builder::specs::Names::meaning_of))]
    fn change(&mut self, alloc: Global, line: &Line<&'a str>) -> Result<(), AllocError>
        requires agrees { Agrees self.old.plan }
        requires sound { IsDraft (draft_view self.old) }
        requires right { IsRight (draft_view self.old) (line_view line.now) }
        requires room { self.old.lines < u32.MAX }
        ensures view { OnOk result (draft_view self.new ≡ change (line_view line.now) (draft_view self.old)) }
        ensures agrees { OnOk result (Agrees self.new.plan) }
    {
        match *line {
            Line::DeclareFile { name, path } => self.add_file(alloc, name, path),
            Line::DeclareObject {
                name,
                kind,
                target,
                active,
                path,
            } => self.add_object(alloc, name, kind, target, active, path),
            Line::DeclareBlock { name, work } => self.add_block(alloc, name, work),
            Line::SetUntil(ms) => {
                self.plan.set_until(ms);
                self.body = None;
                self.has_until = true;
                Ok(())
            }
            Line::SetCancel { source, block } => self.add_cancel(source, block),
            Line::OpenHandler(s) => self.open_handler(s),
            Line::OpenMain => {
                self.body = Some(Run::Block(Blk(0)));
                self.has_main = true;
                Ok(())
            }
            Line::AddAct(run, act) => self.add_act(run, act),
            Line::DeclareIntake { queue, count } => self.add_intake(alloc, queue, count),
            Line::DeclareStrip {
                name,
                how,
                file,
                len,
                count,
            } => self.add_strip(alloc, name, how, file, len, count),
        }
    }

    fn add_file(&mut self, alloc: Global, name: &'a str, path: &'a str) -> Result<(), AllocError>
        requires agrees { Agrees self.old.plan }
        requires unused { is_unused (view_of self.old.plan.parts) name.now ≡ true }
        requires room { length (view_of self.old.plan.parts).files < max_files }
        requires lines { self.old.lines < u32.MAX }
        ensures view { OnOk result (draft_view self.new ≡ change (DeclareFile name.now path.now) (draft_view self.old)) }
        ensures agrees { OnOk result (Agrees self.new.plan) }
    {
        self.plan.add_file(alloc, self.lines + 1, name, path)?;
        self.body = None;
        Ok(())
    }

    fn add_object(
        &mut self,
        alloc: Global,
        name: &'a str,
        kind: Kind,
        target: Obj,
        active: bool,
        path: &'a str,
    ) -> Result<(), AllocError>
        requires agrees { Agrees self.old.plan }
        requires unused { is_unused (view_of self.old.plan.parts) name.now ≡ true }
        requires room { length (view_of self.old.plan.parts).objects < max_objects }
        ensures view { OnOk result (draft_view self.new ≡ change (DeclareObject name.now kind target active path.now) (draft_view self.old)) }
        ensures agrees { OnOk result (Agrees self.new.plan) }
    {
        self.plan
            .add_object(alloc, name, kind, target, active, path)?;
        self.handlers.push(false)?;
        self.body = None;
        Ok(())
    }

    fn add_block(
        &mut self,
        alloc: Global,
        name: &'a str,
        work: Option<Work>,
    ) -> Result<(), AllocError>
        requires agrees { Agrees self.old.plan }
        requires unused { is_unused (view_of self.old.plan.parts) name.now ≡ true }
        requires room { length (view_of self.old.plan.parts).blocks < max_blocks }
        ensures view { OnOk result (draft_view self.new ≡ change (DeclareBlock name.now work) (draft_view self.old)) }
        ensures agrees { OnOk result (Agrees self.new.plan) }
    {
        let block = self.plan.add_block(alloc, name, work)?;
        self.body = Some(Run::Block(block));
        Ok(())
    }

    fn add_cancel(&mut self, source: Obj, block: Blk) -> Result<(), AllocError>
        requires agrees { Agrees self.old.plan }
        requires sound { IsDraft (draft_view self.old) }
        requires right { IsRight (draft_view self.old) (SetCancel source block) }
        ensures view { OnOk result (draft_view self.new ≡ change (SetCancel source block) (draft_view self.old)) }
        ensures agrees { OnOk result (Agrees self.new.plan) }
    {
        self.plan.add_cancel(source, block);
        self.body = None;
        Ok(())
    }

    fn open_handler(&mut self, s: Obj) -> Result<(), AllocError>
        requires agrees { Agrees self.old.plan }
        requires known { s.0 < length (draft_view self.old).handlers }
        ensures view { draft_view self.new ≡ change (OpenHandler s) (draft_view self.old) }
        ensures agrees { Agrees self.new.plan }
    {
        self.handlers[s.0 as usize] = true;
        self.body = Some(Run::Source(s));
        Ok(())
    }

    fn add_act(&mut self, run: Run, act: Act) -> Result<(), AllocError>
        requires agrees { Agrees self.old.plan }
        requires sound { IsDraft (draft_view self.old) }
        requires right { IsRight (draft_view self.old) (AddAct run act) }
        ensures view { OnOk result (draft_view self.new ≡ change (AddAct run act) (draft_view self.old)) }
        ensures agrees { OnOk result (Agrees self.new.plan) }
    {
        self.plan.add_act(run, act)?;
        Ok(())
    }

    fn add_intake(&mut self, alloc: Global, queue: Obj, count: u32) -> Result<(), AllocError>
        requires agrees { Agrees self.old.plan }
        requires sound { IsDraft (draft_view self.old) }
        requires right { IsRight (draft_view self.old) (DeclareIntake queue count) }
        ensures view { OnOk result (draft_view self.new ≡ change (DeclareIntake queue count) (draft_view self.old)) }
        ensures agrees { OnOk result (Agrees self.new.plan) }
    {
        self.plan.add_intake(alloc, queue, count)?;
        self.body = None;
        Ok(())
    }

    fn add_strip(
        &mut self,
        alloc: Global,
        name: &'a str,
        how: How,
        file: u32,
        len: u32,
        count: u32,
    ) -> Result<(), AllocError>
        requires agrees { Agrees self.old.plan }
        requires sound { IsDraft (draft_view self.old) }
        requires right { IsRight (draft_view self.old) (DeclareStrip name.now how file len count) }
        ensures view { OnOk result (draft_view self.new ≡ change (DeclareStrip name.now how file len count) (draft_view self.old)) }
        ensures agrees { OnOk result (Agrees self.new.plan) }
    {
        self.plan.add_strip(alloc, name, how, file, len, count)?;
        self.body = None;
        Ok(())
    }
}

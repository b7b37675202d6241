// Which rule an addition breaks, if any.
ghost use Rattle.std.specs.Prelude.{◌≡◌, ◌+◌, ◌≤◌, ◌<◌, ◌&&◌, true, false, nat_le, nat_lt, length, IfErr, IfOk};
ghost use Rattle.std.specs.Option.{option_map_or};
ghost use Rattle.gcd_plan.specs.Kinds.{has_kind};
ghost use Rattle.gcd_plan.specs.Limits.{max_blocks, max_objects, max_strips};
ghost use Rattle.gcd_plan.specs.Names.{is_path};
ghost use Rattle.gcd_plan.specs.PlanView.{view_of};
ghost use Rattle.gcd_plan.specs.Validity.{IsPlan, is_declared, is_held_object, is_strip_how, is_work};
ghost use Rattle.gcd_builder.specs.Asked.{asks};
ghost use Rattle.gcd_builder.specs.Refusals.{Breaks};

use crate::asked::Asked;
use crate::draft::PlanDraft;
use crate::fault::BuildFault;
use gcd_plan::{
    Blk, How, Kind, MAX_FILE_BYTES, MAX_INTAKE, MAX_TIME, MAX_VALUE, Obj, Work, is_name, is_path,
};

impl<'a> PlanDraft<'a> {
    ghost use Rattle.std.specs.Prelude.{[]};
    ghost use Rattle.gcd_plan.specs.declared.kind.Kind.TheVariants.{Group, Semaphore, Timer, Read};
    ghost use Rattle.gcd_builder.specs.Agreement.{Agrees};
    ghost use Rattle.gcd_builder.specs.Changes.{new_object, root};
    ghost use Rattle.gcd_builder.specs.Names.{is_unused};
    ghost use Rattle.gcd_builder.specs.Refusals.{MayAddBlock, MayAddFile, MayAddIntake, MayAddObject, MayAddStrip, MayCancel};
    ghost use Rattle.gcd_builder.specs.Taken.{is_free, is_unapplied};

    // Tests a number's range.
    pub(crate) fn check_range(
        &self,
        number: u32,
        least: u32,
        most: u32,
    ) -> Result<(), BuildFault<'a>>
        ensures fits { IfOk result (λ _. (nat_le least number && nat_le number most) ≡ true) }
        ensures low { IfOk result (λ _. least ≤ number) }
        ensures high { IfOk result (λ _. number ≤ most) }
        ensures broken { IfErr result (Breaks (view_of self.now.parts)) }
    {
        if least <= number && number <= most {
            Ok(())
        } else {
            Err(BuildFault::OutOfRange {
                number,
                least,
                most,
            })
        }
    }

    // Tests the sort of a kind.
    pub(crate) fn check_sort(&self, kind: Kind, asked: Asked) -> Result<(), BuildFault<'a>>
        ensures fits { IfOk result (λ _. asks asked kind ≡ true) }
        ensures broken { IfErr result (Breaks (view_of self.now.parts)) }
    {
        if asked.has(kind) {
            Ok(())
        } else {
            Err(BuildFault::OtherKind(kind, asked))
        }
    }

    // Tests a path.
    pub(crate) fn check_path(&self, path: &'a str) -> Result<(), BuildFault<'a>>
        ensures fits { IfOk result (λ _. is_path path.now ≡ true) }
        ensures broken { IfErr result (Breaks (view_of self.now.parts)) }
    {
        if is_path(path.as_bytes()) {
            Ok(())
        } else {
            Err(BuildFault::PathIllFormed(path))
        }
    }

    // Tests what a strip counts.
    pub(crate) fn check_strip_how(&self, how: How) -> Result<(), BuildFault<'a>>
        ensures fits { IfOk result (λ _. is_strip_how how ≡ true) }
        ensures broken { IfErr result (Breaks (view_of self.now.parts)) }
    {
        match how {
            How::Bytes => Ok(()),
            How::Lines => Ok(()),
            How::Words => Ok(()),
            How::Sum => Ok(()),
            How::Count(_) => Err(BuildFault::NotStripCount(how)),
        }
    }

    // Tests a new name.
    pub(crate) fn check_name(&self, name: &'a str) -> Result<(), BuildFault<'a>>
        requires { Agrees self.now }
        ensures fits { IfOk result (λ _. is_unused (view_of self.now.parts) name.now ≡ true) }
        ensures broken { IfErr result (Breaks (view_of self.now.parts)) }
    {
        if name == "root" || name == "main" {
            return Err(BuildFault::NameReserved(name));
        }
        if !is_name(name.as_bytes()) {
            return Err(BuildFault::NameIllFormed(name));
        }
        if self.meaning(name).is_some() {
            return Err(BuildFault::NameTaken(name));
        }
        Ok(())
    }

    // Tests an object's kind.
    pub(crate) fn check_object(&self, asked: Asked, o: Obj) -> Result<(), BuildFault<'a>>
        ensures fits { IfOk result (λ _. has_kind (asks asked) (view_of self.now.parts) o.0 ≡ true) }
        ensures broken { IfErr result (Breaks (view_of self.now.parts)) }
    {
        if self.has_kind(asked, o) {
            Ok(())
        } else {
            Err(BuildFault::NotObject(o, asked))
        }
    }

    // Tests that the object is a queue other than `root`, or a source.
    pub(crate) fn check_held(&self, o: Obj) -> Result<(), BuildFault<'a>>
        ensures fits { IfOk result (λ _. is_held_object (view_of self.now.parts) o ≡ true) }
        ensures broken { IfErr result (Breaks (view_of self.now.parts)) }
    {
        if o.0 > 0 && self.has_kind(Asked::Node, o) {
            Ok(())
        } else {
            Err(BuildFault::NotHeld(o))
        }
    }

    // Tests that there is such an object, and it is not `root`.
    pub(crate) fn check_counted(&self, o: Obj) -> Result<(), BuildFault<'a>>
        ensures fits { IfOk result (λ _. (nat_lt 0 o.0 && nat_lt o.0 (length (view_of self.now.parts).objects)) ≡ true) }
        ensures broken { IfErr result (Breaks (view_of self.now.parts)) }
    {
        if o.0 > 0 && (o.0 as usize) < self.parts.objects.len() {
            Ok(())
        } else {
            Err(BuildFault::NotCounted(o))
        }
    }

    // Tests that there is such a file.
    pub(crate) fn check_file(&self, file: u32) -> Result<(), BuildFault<'a>>
        ensures fits { IfOk result (λ _. nat_lt file (length (view_of self.now.parts).files) ≡ true) }
        ensures broken { IfErr result (Breaks (view_of self.now.parts)) }
    {
        if (file as usize) < self.parts.files.len() {
            Ok(())
        } else {
            Err(BuildFault::NotFile(file))
        }
    }

    // Tests that there is such a strip.
    pub(crate) fn check_strip(&self, strip: u32) -> Result<(), BuildFault<'a>>
        ensures fits { IfOk result (λ _. nat_lt strip (length (view_of self.now.parts).strips) ≡ true) }
        ensures broken { IfErr result (Breaks (view_of self.now.parts)) }
    {
        if (strip as usize) < self.parts.strips.len() {
            Ok(())
        } else {
            Err(BuildFault::NotStrip(strip))
        }
    }

    // Tests that the block may be named: it is not `main`, and not of the intake or of a strip.
    pub(crate) fn check_block(&self, b: Blk) -> Result<(), BuildFault<'a>>
        requires { IsPlan (view_of self.now.parts) }
        ensures fits { IfOk result (λ _. is_declared (view_of self.now.parts) b ≡ true) }
        ensures broken { IfErr result (Breaks (view_of self.now.parts)) }
    {
        if self.is_declared(b) {
            Ok(())
        } else {
            Err(BuildFault::NotBlock(b))
        }
    }

    // Tests that nothing submits the block yet.
    pub(crate) fn check_free(&self, b: Blk) -> Result<(), BuildFault<'a>>
        requires { Agrees self.now }
        ensures fits { IfOk result (λ _. is_free (view_of self.now.parts) b ≡ true) }
        ensures broken { IfErr result (Breaks (view_of self.now.parts)) }
    {
        if self.is_free(b) {
            Ok(())
        } else {
            Err(BuildFault::SubmittedTwice(b))
        }
    }

    // Tests that nothing applies the strip yet (dispatch_apply(3)).
    pub(crate) fn check_unapplied(&self, strip: u32) -> Result<(), BuildFault<'a>>
        requires { Agrees self.now }
        ensures fits { IfOk result (λ _. is_unapplied (view_of self.now.parts) strip ≡ true) }
        ensures broken { IfErr result (Breaks (view_of self.now.parts)) }
    {
        if self.is_unapplied(strip) {
            Ok(())
        } else {
            Err(BuildFault::AppliedTwice(strip))
        }
    }

    // Tests that there is room for so many blocks more.
    pub(crate) fn check_blocks_room(&self, count: u32) -> Result<(), BuildFault<'a>>
        ensures fits { IfOk result (λ _. length (view_of self.now.parts).blocks + count ≤ max_blocks) }
        ensures broken { IfErr result (Breaks (view_of self.now.parts)) }
    {
        if self.has_room_for(count) {
            Ok(())
        } else {
            Err(BuildFault::TooManyBlocks(count))
        }
    }

    // Tests a work: there is its file, and its range is no longer than a file may be.
    fn check_work(&self, work: Work) -> Result<(), BuildFault<'a>>
        ensures fits { IfOk result (λ _. is_work (view_of self.now.parts) work ≡ true) }
        ensures broken { IfErr result (Breaks (view_of self.now.parts)) }
    {
        self.check_file(work.file)?;
        self.check_range(work.start, 0, MAX_FILE_BYTES)?;
        self.check_range(work.len, 0, MAX_FILE_BYTES)?;
        Ok(())
    }

    // Tests a block's work, if it has one.
    fn check_work_of(&self, work: Option<Work>) -> Result<(), BuildFault<'a>>
        ensures fits { IfOk result (λ _. option_map_or (is_work (view_of self.now.parts)) work true ≡ true) }
        ensures broken { IfErr result (Breaks (view_of self.now.parts)) }
    {
        match work {
            Some(work) => self.check_work(work),
            None => Ok(()),
        }
    }

    // Tests a new file.
    pub(crate) fn check_new_file(&self, name: &'a str, path: &'a str) -> Result<(), BuildFault<'a>>
        requires { Agrees self.now }
        ensures fits { IfOk result (λ _. MayAddFile (view_of self.now.parts) name.now path.now) }
        ensures broken { IfErr result (Breaks (view_of self.now.parts)) }
    {
        self.check_name(name)?;
        self.check_path(path)?;
        if self.has_file_room() {
            Ok(())
        } else {
            Err(BuildFault::TooManyFiles)
        }
    }

    // Tests the name of a new object, and that there is room for it.
    fn check_object_room(&self, name: &'a str) -> Result<(), BuildFault<'a>>
        requires { Agrees self.now }
        ensures unused { IfOk result (λ _. is_unused (view_of self.now.parts) name.now ≡ true) }
        ensures room { IfOk result (λ _. length (view_of self.now.parts).objects < max_objects) }
        ensures broken { IfErr result (Breaks (view_of self.now.parts)) }
    {
        self.check_name(name)?;
        if self.has_object_room() {
            Ok(())
        } else {
            Err(BuildFault::TooManyObjects)
        }
    }

    // Tests a new queue.
    #[tactic(auto, using(crate::proofs::ObjectKinds::queue_object))]
    pub(crate) fn check_queue(
        &self,
        name: &'a str,
        kind: Kind,
        target: Obj,
        active: bool,
    ) -> Result<(), BuildFault<'a>>
        requires { Agrees self.now }
        ensures fits { IfOk result (λ _. MayAddObject (view_of self.now.parts) (new_object name.now kind target active [])) }
        ensures broken { IfErr result (Breaks (view_of self.now.parts)) }
    {
        self.check_sort(kind, Asked::Queue)?;
        self.check_object(Asked::Queue, target)?;
        self.check_object_room(name)
    }

    // Tests a new group.
    pub(crate) fn check_group(&self, name: &'a str) -> Result<(), BuildFault<'a>>
        requires { Agrees self.now }
        ensures fits { IfOk result (λ _. MayAddObject (view_of self.now.parts) (new_object name.now Group root true [])) }
        ensures broken { IfErr result (Breaks (view_of self.now.parts)) }
    {
        self.check_object_room(name)
    }

    // Tests a new semaphore.
    #[tactic(auto, using(crate::proofs::ObjectKinds::semaphore_object))]
    pub(crate) fn check_semaphore(&self, name: &'a str, first: u32) -> Result<(), BuildFault<'a>>
        requires { Agrees self.now }
        ensures fits { IfOk result (λ _. MayAddObject (view_of self.now.parts) (new_object name.now (Semaphore first) root true [])) }
        ensures broken { IfErr result (Breaks (view_of self.now.parts)) }
    {
        self.check_range(first, 0, MAX_VALUE)?;
        self.check_object_room(name)
    }

    // Tests a new source of merged values.
    #[tactic(auto, using(crate::proofs::ObjectKinds::merge_object))]
    pub(crate) fn check_source(
        &self,
        name: &'a str,
        kind: Kind,
        target: Obj,
    ) -> Result<(), BuildFault<'a>>
        requires { Agrees self.now }
        ensures fits { IfOk result (λ _. MayAddObject (view_of self.now.parts) (new_object name.now kind target false [])) }
        ensures broken { IfErr result (Breaks (view_of self.now.parts)) }
    {
        self.check_sort(kind, Asked::MergeSource)?;
        self.check_object(Asked::Queue, target)?;
        self.check_object_room(name)
    }

    // Tests a new timer.
    #[tactic(auto, using(crate::proofs::ObjectKinds::timer_object))]
    pub(crate) fn check_timer(
        &self,
        name: &'a str,
        start: u32,
        every: u32,
        target: Obj,
    ) -> Result<(), BuildFault<'a>>
        requires { Agrees self.now }
        ensures fits { IfOk result (λ _. MayAddObject (view_of self.now.parts) (new_object name.now (Timer start every) target false [])) }
        ensures broken { IfErr result (Breaks (view_of self.now.parts)) }
    {
        self.check_range(start, 1, MAX_TIME)?;
        self.check_range(every, 1, MAX_TIME)?;
        self.check_object(Asked::Queue, target)?;
        self.check_object_room(name)
    }

    // Tests a new read source.
    #[tactic(auto, using(crate::proofs::ObjectKinds::read_object))]
    pub(crate) fn check_read(
        &self,
        name: &'a str,
        path: &'a str,
        target: Obj,
    ) -> Result<(), BuildFault<'a>>
        requires { Agrees self.now }
        ensures fits { IfOk result (λ _. MayAddObject (view_of self.now.parts) (new_object name.now Read target false path.now)) }
        ensures broken { IfErr result (Breaks (view_of self.now.parts)) }
    {
        self.check_path(path)?;
        self.check_object(Asked::Queue, target)?;
        self.check_object_room(name)
    }

    // Tests a new block.
    pub(crate) fn check_new_block(
        &self,
        name: &'a str,
        work: Option<Work>,
    ) -> Result<(), BuildFault<'a>>
        requires { Agrees self.now }
        ensures fits { IfOk result (λ _. MayAddBlock (view_of self.now.parts) name.now work) }
        ensures broken { IfErr result (Breaks (view_of self.now.parts)) }
    {
        self.check_name(name)?;
        self.check_work_of(work)?;
        self.check_blocks_room(1)
    }

    // Tests a cancellation block (dispatch_source_set_cancel_handler(3)).
    pub(crate) fn check_cancel(&self, source: Obj, block: Blk) -> Result<(), BuildFault<'a>>
        requires agrees { Agrees self.now }
        requires valid { IsPlan (view_of self.now.parts) }
        ensures fits { IfOk result (λ _. MayCancel (view_of self.now.parts) source block) }
        ensures broken { IfErr result (Breaks (view_of self.now.parts)) }
    {
        self.check_object(Asked::Source, source)?;
        self.check_block(block)?;
        self.check_free(block)?;
        if self.lacks_cancel(source) {
            Ok(())
        } else {
            Err(BuildFault::SecondCancel(source))
        }
    }

    // Tests a new intake.
    pub(crate) fn check_intake(&self, queue: Obj, count: u32) -> Result<(), BuildFault<'a>>
        ensures fits { IfOk result (λ _. MayAddIntake (view_of self.now.parts) queue count) }
        ensures broken { IfErr result (Breaks (view_of self.now.parts)) }
    {
        if !self.has_no_intake() {
            return Err(BuildFault::SecondIntake);
        }
        self.check_object(Asked::Queue, queue)?;
        self.check_range(count, 1, MAX_INTAKE)?;
        self.check_blocks_room(count)
    }

    // Tests that there is room for one strip more (dispatch_apply(3)).
    fn check_strips_room(&self) -> Result<(), BuildFault<'a>>
        ensures fits { IfOk result (λ _. length (view_of self.now.parts).strips < max_strips) }
        ensures broken { IfErr result (Breaks (view_of self.now.parts)) }
    {
        if self.has_strip_room() {
            Ok(())
        } else {
            Err(BuildFault::TooManyStrips)
        }
    }

    // Tests a new strip (dispatch_apply(3)).
    pub(crate) fn check_new_strip(
        &self,
        name: &'a str,
        how: How,
        file: u32,
        len: u32,
        count: u32,
    ) -> Result<(), BuildFault<'a>>
        requires { Agrees self.now }
        ensures fits { IfOk result (λ _. MayAddStrip (view_of self.now.parts) name.now how file len count) }
        ensures broken { IfErr result (Breaks (view_of self.now.parts)) }
    {
        self.check_name(name)?;
        self.check_strip_how(how)?;
        self.check_file(file)?;
        self.check_range(len, 1, MAX_FILE_BYTES)?;
        self.check_strips_room()?;
        self.check_blocks_room(count)
    }
}

// The objects that a builder adds.
ghost use Rattle.std.specs.Prelude.{◌≡◌, [], false, true, length, IfErr, IfOk, OnOk};
ghost use Rattle.gcd_plan.specs.declared.kind.Kind.TheVariants.{Group, Semaphore, Timer, Read};
ghost use Rattle.gcd_builder.specs.Changes.{new_object, root, with_object};
ghost use Rattle.gcd_builder.specs.Refusals.{Adds, MayAddObject, Refuses};

use crate::builder::PlanBuilder;
use crate::fault::BuildFault;
use gcd_plan::{Kind, Obj};

const ROOT: Obj = Obj(0);

impl<'a> PlanBuilder<'a> {
    // Adds an object that was tested.
    #[tactic(auto, using(crate::proofs::Refused::by_memory, crate::proofs::Steps::object_stays))]
    fn put_object(
        &mut self,
        name: &'a str,
        kind: Kind,
        target: Obj,
        active: bool,
        path: &'a str,
    ) -> Result<Obj, BuildFault<'a>>
        requires unspent { self.old.spent ≡ false }
        requires fits { MayAddObject self.old.plan (new_object name.now kind target active path.now) }
        ensures added { OnOk result (Adds self.old self.new (with_object (new_object name.now kind target active path.now) self.old.plan)) }
        ensures number { IfOk result (λ o. o.0 ≡ length self.old.plan.objects) }
        ensures refused { IfErr result (Refuses self.old self.new) }
    {
        self.spent = true;
        let object = self
            .draft
            .add_object(self.alloc, name, kind, target, active, path)?;
        self.spent = false;
        Ok(object)
    }

    // Adds a queue.
    #[tactic(auto, using(crate::proofs::Refused::by_rule))]
    fn add_queue(
        &mut self,
        name: &'a str,
        kind: Kind,
        target: Obj,
        active: bool,
    ) -> Result<Obj, BuildFault<'a>>
        ensures added { OnOk result (Adds self.old self.new (with_object (new_object name.now kind target active []) self.old.plan)) }
        ensures number { IfOk result (λ o. o.0 ≡ length self.old.plan.objects) }
        ensures fits { OnOk result (MayAddObject self.old.plan (new_object name.now kind target active [])) }
        ensures refused { IfErr result (Refuses self.old self.new) }
    {
        if self.spent {
            return Err(BuildFault::Memory);
        }
        self.draft.check_queue(name, kind, target, active)?;
        self.put_object(name, kind, target, active, "")
    }

    /// Adds an active queue on `root` of this kind, serial or concurrent (dispatch_queue_create(3)).
    pub fn queue(&mut self, name: &'a str, kind: Kind) -> Result<Obj, BuildFault<'a>>
        ensures added { OnOk result (Adds self.old self.new (with_object (new_object name.now kind root true []) self.old.plan)) }
        ensures number { IfOk result (λ o. o.0 ≡ length self.old.plan.objects) }
        ensures fits { OnOk result (MayAddObject self.old.plan (new_object name.now kind root true [])) }
        ensures refused { IfErr result (Refuses self.old self.new) }
    {
        self.add_queue(name, kind, ROOT, true)
    }

    /// Adds an active queue on this target queue (dispatch_queue_create(3)).
    pub fn queue_on(
        &mut self,
        name: &'a str,
        kind: Kind,
        target: Obj,
    ) -> Result<Obj, BuildFault<'a>>
        ensures added { OnOk result (Adds self.old self.new (with_object (new_object name.now kind target true []) self.old.plan)) }
        ensures number { IfOk result (λ o. o.0 ≡ length self.old.plan.objects) }
        ensures fits { OnOk result (MayAddObject self.old.plan (new_object name.now kind target true [])) }
        ensures refused { IfErr result (Refuses self.old self.new) }
    {
        self.add_queue(name, kind, target, true)
    }

    /// Adds a queue on this target queue that runs nothing before it is activated (dispatch_activate(3)).
    pub fn inactive_queue(
        &mut self,
        name: &'a str,
        kind: Kind,
        target: Obj,
    ) -> Result<Obj, BuildFault<'a>>
        ensures added { OnOk result (Adds self.old self.new (with_object (new_object name.now kind target false []) self.old.plan)) }
        ensures number { IfOk result (λ o. o.0 ≡ length self.old.plan.objects) }
        ensures fits { OnOk result (MayAddObject self.old.plan (new_object name.now kind target false [])) }
        ensures refused { IfErr result (Refuses self.old self.new) }
    {
        self.add_queue(name, kind, target, false)
    }

    /// Adds a group (dispatch_group_create(3)).
    #[tactic(auto, using(crate::proofs::Refused::by_rule))]
    pub fn group(&mut self, name: &'a str) -> Result<Obj, BuildFault<'a>>
        ensures added { OnOk result (Adds self.old self.new (with_object (new_object name.now Group root true []) self.old.plan)) }
        ensures number { IfOk result (λ o. o.0 ≡ length self.old.plan.objects) }
        ensures fits { OnOk result (MayAddObject self.old.plan (new_object name.now Group root true [])) }
        ensures refused { IfErr result (Refuses self.old self.new) }
    {
        if self.spent {
            return Err(BuildFault::Memory);
        }
        self.draft.check_group(name)?;
        self.put_object(name, Kind::Group, ROOT, true, "")
    }

    /// Adds a semaphore with this first value, at most [`gcd_plan::MAX_VALUE`] (dispatch_semaphore_create(3)).
    #[tactic(auto, using(crate::proofs::Refused::by_rule))]
    pub fn semaphore(&mut self, name: &'a str, first: u32) -> Result<Obj, BuildFault<'a>>
        ensures added { OnOk result (Adds self.old self.new (with_object (new_object name.now (Semaphore first) root true []) self.old.plan)) }
        ensures number { IfOk result (λ o. o.0 ≡ length self.old.plan.objects) }
        ensures fits { OnOk result (MayAddObject self.old.plan (new_object name.now (Semaphore first) root true [])) }
        ensures refused { IfErr result (Refuses self.old self.new) }
    {
        if self.spent {
            return Err(BuildFault::Memory);
        }
        self.draft.check_semaphore(name, first)?;
        self.put_object(name, Kind::Semaphore(first), ROOT, true, "")
    }

    /// Adds an inactive source of merged values of this kind, add, or or replace, on this target queue
    /// (dispatch_source_create(3)).
    #[tactic(auto, using(crate::proofs::Refused::by_rule))]
    pub fn source(&mut self, name: &'a str, kind: Kind, target: Obj) -> Result<Obj, BuildFault<'a>>
        ensures added { OnOk result (Adds self.old self.new (with_object (new_object name.now kind target false []) self.old.plan)) }
        ensures number { IfOk result (λ o. o.0 ≡ length self.old.plan.objects) }
        ensures fits { OnOk result (MayAddObject self.old.plan (new_object name.now kind target false [])) }
        ensures refused { IfErr result (Refuses self.old self.new) }
    {
        if self.spent {
            return Err(BuildFault::Memory);
        }
        self.draft.check_source(name, kind, target)?;
        self.put_object(name, kind, target, false, "")
    }

    /// Adds an inactive timer on this target queue. Its first due time and its interval are milliseconds, from 1 to
    /// [`gcd_plan::MAX_TIME`] (dispatch_source_set_timer(3)).
    #[tactic(auto, using(crate::proofs::Refused::by_rule))]
    pub fn timer(
        &mut self,
        name: &'a str,
        start: u32,
        every: u32,
        target: Obj,
    ) -> Result<Obj, BuildFault<'a>>
        ensures added { OnOk result (Adds self.old self.new (with_object (new_object name.now (Timer start every) target false []) self.old.plan)) }
        ensures number { IfOk result (λ o. o.0 ≡ length self.old.plan.objects) }
        ensures fits { OnOk result (MayAddObject self.old.plan (new_object name.now (Timer start every) target false [])) }
        ensures refused { IfErr result (Refuses self.old self.new) }
    {
        if self.spent {
            return Err(BuildFault::Memory);
        }
        self.draft.check_timer(name, start, every, target)?;
        self.put_object(name, Kind::Timer { start, every }, target, false, "")
    }

    /// Adds an inactive source that reads the feed of this path, on this target queue (dispatch_source_create(3)).
    #[tactic(auto, using(crate::proofs::Refused::by_rule))]
    pub fn read_source(
        &mut self,
        name: &'a str,
        path: &'a str,
        target: Obj,
    ) -> Result<Obj, BuildFault<'a>>
        ensures added { OnOk result (Adds self.old self.new (with_object (new_object name.now Read target false path.now) self.old.plan)) }
        ensures number { IfOk result (λ o. o.0 ≡ length self.old.plan.objects) }
        ensures fits { OnOk result (MayAddObject self.old.plan (new_object name.now Read target false path.now)) }
        ensures refused { IfErr result (Refuses self.old self.new) }
    {
        if self.spent {
            return Err(BuildFault::Memory);
        }
        self.draft.check_read(name, path, target)?;
        self.put_object(name, Kind::Read, target, false, path)
    }
}

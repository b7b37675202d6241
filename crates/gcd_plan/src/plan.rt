// A valid plan.
ghost use Rattle.std.specs.Prelude.{◌≡◌, ◌<◌, ◌≤◌, ◌^◌, ◌↔◌, if◌then◌else◌, IfOk, IfSome, IsSome, IsNone, length, map, option_map, position, slice_get, Some};
ghost use Rattle.std.specs.Str.{bytes_eq};
ghost use Rattle.gcd_plan.specs.Breaks.{Breaks};
ghost use Rattle.gcd_plan.specs.Limits.{max_blocks, max_files, max_strips};
ghost use Rattle.gcd_plan.specs.Named.{block_named, object_named, queue_named};
ghost use Rattle.gcd_plan.specs.Needs.{limit_room, mark_room, park_room};
ghost use Rattle.gcd_plan.specs.PlanView.{kind_of, first_target, starts_active, acts_of, work_of, cancel_block, path_of, name_of_obj, name_of_blk, name_of_strip, IsRun, blk_view, file_view, intake_view, obj_view, strip_view, view_of};
ghost use Rattle.gcd_plan.specs.Validity.{IsPlan};

use crate::act::Act;
use crate::held::Held;
use crate::kind::Kind;
use crate::needs::Needs;
use crate::numbers::{Blk, Obj, Run};
use crate::parts::{BlkPart, FilePart, ObjPart, Parts, StripPart};
use crate::parts_fault::PartsFault;
use crate::validity::fault_of;
use crate::work::Work;
use std::alloc::{AllocError, Global};
use std::marker::Model;

/// A valid plan: its kinds and ranges fit, its names are apart, each block is submitted at most once, and its targets
/// lead to `root`. Contracts see it as the plain lists of its parts (`PlanView`).
pub struct Plan {
    held: Held,
    needs: Needs,
}

// One call drops all that a plan holds: so a crate that drops plans proves nothing of their parts.
impl Drop for Plan {
    fn drop(self) {
        let Plan { held: _, needs: _ } = self;
    }
}

impl Model for Plan {
    ghost use Rattle.gcd_plan.specs.HeldParts.{parts_of};
    ghost use Rattle.gcd_plan.specs.Needs.{AreNeeds};
    ghost use Rattle.gcd_plan.specs.PlanView.{PlanView, view_of};
    ghost use Rattle.gcd_plan.specs.Validity.{IsPlan};

    ghost Value = { PlanView };

    ghost view = { λ p. view_of (parts_of p.held) };

    ghost invariant = { λ p. IsPlan (view_of (parts_of p.held)) × AreNeeds p.needs (view_of (parts_of p.held)) };
}

impl Plan {
    /// The plan of these parts, which the caller knows to be valid. [`Plan::of_parts`] is the test.
    pub fn of_valid_parts(parts: Parts) -> Plan
        requires { IsPlan (view_of parts) }
        ensures { result ≡ view_of parts }
    {
        let needs = Needs::of(&parts);
        Plan {
            held: Held::Own(parts),
            needs,
        }
    }

    /// The plan of these parts. None, with the parts dropped, exactly where they are no valid plan: `root` is not object
    /// 0 or `main` not block 0, `main` has a work, another name is ill-formed or taken, a number is out of range, what
    /// stands somewhere is not of the kind that is asked there, an act is barred in a handler, a block is submitted twice,
    /// a cycle of targets stands, or a limit is passed. [`Plan::fault_of`] tells which it is. It takes no memory, and so
    /// compares each name with all before it and counts the submissions of each block by themselves.
    pub fn of_parts(parts: Parts) -> Option<Plan>
        ensures plan { IfSome result (λ plan. plan ≡ view_of parts) }
        ensures valid { IsSome result ↔ IsPlan (view_of parts) }
    {
        match fault_of(&parts) {
            None => Some(Plan::of_valid_parts(parts)),
            Some(_) => None,
        }
    }

    /// A rule of plans that the parts break, and the part at fault: of several the one that is found first. None exactly
    /// where they are a plan, which [`Plan::of_parts`] then gives. It takes no memory, as `of_parts`.
    pub fn fault_of(parts: &Parts) -> Option<PartsFault>
        ensures valid { IsNone result ↔ IsPlan (view_of parts.now) }
        ensures broken { IfSome result (Breaks (view_of parts.now)) }
    {
        fault_of(parts)
    }

    /// How many objects there are, `root` among them: 1 to [`crate::MAX_OBJECTS`].
    pub fn objects(&self) -> u32
        ensures count { result ≡ length self.now.objects }
        ensures valid { IsPlan self.now }
    {
        self.held.parts().objects.len() as u32
    }

    /// How many blocks there are, `main` among them: 1 to [`crate::MAX_BLOCKS`].
    pub fn blocks(&self) -> u32
        ensures count { result ≡ length self.now.blocks }
        ensures valid { IsPlan self.now }
    {
        self.held.parts().blocks.len() as u32
    }

    /// The kind of an object.
    pub fn kind(&self, o: Obj) -> Kind
        requires { o.0 < length self.now.objects }
        ensures { kind_of self.now o.0 ≡ Some result }
    {
        self.held.parts().objects[o.0 as usize].kind
    }

    /// The target that the plan gives an object; `root` for one that has none (dispatch_set_target_queue(3)).
    pub fn first_target(&self, o: Obj) -> Obj
        requires { o.0 < length self.now.objects }
        ensures { result.0 ≡ first_target self.now o.0 }
    {
        self.held.parts().objects[o.0 as usize].target
    }

    /// Whether an object is created active (dispatch_activate(3)).
    pub fn starts_active(&self, o: Obj) -> bool
        requires { o.0 < length self.now.objects }
        ensures { result ≡ starts_active self.now o.0 }
    {
        self.held.parts().objects[o.0 as usize].active
    }

    /// What a run does, in order. An object that is no source has no acts.
    pub fn acts(&self, run: Run) -> &[Act]
        requires { IsRun self.now run }
        ensures { result.now ≡ acts_of self.now run }
    {
        match run {
            Run::Block(b) => &self.held.parts().blocks[b.0 as usize].acts,
            Run::Source(s) => &self.held.parts().objects[s.0 as usize].handler,
        }
    }

    /// What a block computes; None exactly where the plan gives it no work.
    pub fn work(&self, b: Blk) -> Option<Work>
        requires { b.0 < length self.now.blocks }
        ensures { result ≡ work_of self.now b.0 }
    {
        self.held.parts().blocks[b.0 as usize].work
    }

    /// The cancellation block of a source; None exactly where the plan gives it none
    /// (dispatch_source_set_cancel_handler(3)).
    pub fn cancel_block(&self, s: Obj) -> Option<Blk>
        requires { s.0 < length self.now.objects }
        ensures { result ≡ cancel_block self.now s.0 }
    {
        self.held.parts().objects[s.0 as usize].cancel
    }

    /// The files, by number, at most [`crate::MAX_FILES`].
    pub fn files(&self) -> &[FilePart]
        ensures files { map file_view result.now ≡ self.now.files }
        ensures few { length result.now ≤ max_files }
    {
        &self.held.parts().files
    }

    /// The intake: its queue, the number of the first of its blocks, and how many there are, 1 to [`crate::MAX_INTAKE`]; None
    /// exactly where the plan has none. It takes no memory (this project's own rule).
    pub fn intake(&self) -> Option<(Obj, u32, u32)>
        ensures { option_map intake_view result ≡ self.now.intake }
    {
        self.held.parts().intake
    }

    /// The strips, by number, in no new memory (dispatch_apply(3)).
    pub fn strips(&self) -> &[StripPart]
        ensures strips { map strip_view result.now ≡ self.now.strips }
        ensures few { length result.now ≤ max_strips }
    {
        &self.held.parts().strips
    }

    /// The path of a read source's feed; empty for every other object.
    pub fn path_of(&self, s: Obj) -> &str
        requires { s.0 < length self.now.objects }
        ensures { result.now ≡ path_of self.now s.0 }
    {
        self.held.parts().objects[s.0 as usize].path.as_str()
    }

    /// The name of an object.
    pub fn name_of_obj(&self, o: Obj) -> &str
        requires { o.0 < length self.now.objects }
        ensures { result.now ≡ name_of_obj self.now o.0 }
    {
        self.held.parts().objects[o.0 as usize].name.as_str()
    }

    /// The name of a block.
    pub fn name_of_blk(&self, b: Blk) -> &str
        requires { b.0 < length self.now.blocks }
        ensures { result.now ≡ name_of_blk self.now b.0 }
    {
        self.held.parts().blocks[b.0 as usize].name.as_str()
    }

    /// The name of a strip (dispatch_apply(3)).
    pub fn name_of_strip(&self, a: u32) -> &str
        requires { a < length self.now.strips }
        ensures { result.now ≡ name_of_strip self.now a }
    {
        self.held.parts().strips[a as usize].name.as_str()
    }

    /// The number of the script's line that declares a file.
    pub fn line_of_file(&self, f: u32) -> u32
        requires { f < length self.now.files }
        ensures { option_map (λ g. g.line) (slice_get self.now.files f) ≡ Some result }
    {
        self.held.parts().files[f as usize].line
    }

    /// The last due time of timers and limit of waits, in milliseconds: 1 to [`crate::MAX_TIME`] (this project's own rule).
    pub fn until(&self) -> u32
        ensures { result ≡ self.now.until }
    {
        self.held.parts().until
    }
}

impl Plan {
    // The number of the blocks if they need it, otherwise 0.
    fn room(&self, needed: bool) -> u32
        ensures room { result ≡ (if needed then length self.now.blocks else 0) }
        ensures few { result ≤ max_blocks }
    {
        if needed { self.blocks() } else { 0 }
    }

    /// Of how many blocks a run keeps marks: of each if an act of a block or handler cancels a block, waits for its end, or submits
    /// another once it has ended (dispatch_block_cancel(3), dispatch_block_wait(3), dispatch_block_notify(3)), otherwise of none. It
    /// takes one step (this project's own rule).
    #[tactic(auto, unfolding(crate::specs::Needs::room))]
    pub fn mark_room(&self) -> u32
        ensures room { result ≡ mark_room self.now }
        ensures few { result ≤ max_blocks }
    {
        self.room(self.needs.marks)
    }

    /// Of how many blocks a run keeps limits: of each if an act waits with one (dispatch_semaphore_wait(3), dispatch_group_wait(3)),
    /// otherwise of none. It takes one step (this project's own rule).
    #[tactic(auto, unfolding(crate::specs::Needs::room))]
    pub fn limit_room(&self) -> u32
        ensures room { result ≡ limit_room self.now }
        ensures few { result ≤ max_blocks }
    {
        self.room(self.needs.limits)
    }

    /// Of how many blocks a run keeps what they wait for: of each if an act parks its block ([`Act::parks`]), otherwise of none. It
    /// takes one step (this project's own rule).
    #[tactic(auto, unfolding(crate::specs::Needs::room))]
    pub fn park_room(&self) -> u32
        ensures room { result ≡ park_room self.now }
        ensures few { result ≤ max_blocks }
    {
        self.room(self.needs.parks)
    }

    /// The kind of each object, by number; an `Err` comes only where memory runs out.
    pub fn kinds(&self, alloc: Global) -> Result<Vec<Kind>, AllocError>
        ensures { IfOk result (λ v. v.items ≡ map (λ o. o.kind) self.now.objects) }
    {
        let mut kinds = Vec::with_capacity(alloc, self.objects() as usize)?;
        for o in 0..self.objects() {
            kinds.push(self.kind(Obj(o)))?;
        }
        Ok(kinds)
    }

    /// The same plan, whose copies share its parts: a copy of it takes no memory for them. An `Err` comes only where
    /// memory runs out, and the plan is dropped then (this project's own rule).
    pub fn share(self, alloc: Global) -> Result<Plan, AllocError>
        ensures { IfOk result (λ p. p ≡ self) }
    {
        let Plan { held, needs } = self;
        Ok(Plan {
            held: held.share(alloc)?,
            needs,
        })
    }

    /// The same plan once more. Of a plan that [`Plan::share`] gave it has the same parts. An `Err` comes only where
    /// memory runs out.
    pub fn copied(&self, alloc: Global) -> Result<Plan, AllocError>
        ensures { IfOk result (λ p. p ≡ self.now) }
    {
        Ok(Plan {
            held: self.held.copied(alloc)?,
            needs: self.needs,
        })
    }
}

// The place of the first block of this name.
fn place_of_block(blocks: &[BlkPart], name: &str) -> Option<usize>
    ensures { result ≡ position (λ b. bytes_eq (blk_view b).name name.now) blocks.now }
{
    blocks.iter().position(|b| b.name.as_str() == name)
}

// The place of the first object of this name.
fn place_of_object(objects: &[ObjPart], name: &str) -> Option<usize>
    ensures { result ≡ position (λ o. bytes_eq (obj_view o).name name.now) objects.now }
{
    objects.iter().position(|o| o.name.as_str() == name)
}

impl Plan {
    /// The block of this name, `main` among them; None exactly where no block has the name. It compares the name with those of
    /// the blocks one after the other (this project's own rule).
    pub fn block_named(&self, name: &str) -> Option<Blk>
        ensures { result ≡ block_named self.now name.now }
    {
        let place = place_of_block(&self.held.parts().blocks, name)?;
        Some(Blk(place as u32))
    }

    /// The object of this name, `root` among them; None exactly where no object has the name. It compares the name with those of
    /// the objects one after the other (this project's own rule).
    pub fn object_named(&self, name: &str) -> Option<Obj>
        ensures { result ≡ object_named self.now name.now }
    {
        let place = place_of_object(&self.held.parts().objects, name)?;
        Some(Obj(place as u32))
    }

    /// The queue of this name, `root` among them; None exactly where no object has the name, or the object that has it is no
    /// queue (dispatch_queue_create(3)). It looks for it as [`Plan::object_named`] does.
    pub fn queue_named(&self, name: &str) -> Option<Obj>
        ensures { result ≡ queue_named self.now name.now }
    {
        let object = self.object_named(name)?;
        if self.kind(object).is_queue() {
            Some(object)
        } else {
            None
        }
    }
}

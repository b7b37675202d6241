// What a machine keeps before anything has happened, and once more.
ghost use Rattle.std.specs.Prelude.{◌≡◌, false, IfOk, length, replicate, None};
ghost use Rattle.gcd_tree.specs.TreeView.{tree_of};
ghost use Rattle.gcd_hold.specs.HoldsView.{holds_of};
ghost use Rattle.gcd_drain.specs.DrainsView.{drains_of};
ghost use Rattle.gcd_group.specs.GroupsView.{groups_of};
ghost use Rattle.gcd_sema.specs.SemasView.{semas_of};
ghost use Rattle.gcd_sync.specs.WaitsView.{waits_of};
ghost use Rattle.gcd_source.specs.SourcesView.{sources_of};
ghost use Rattle.gcd_timer.specs.TimersView.{timers_of};
ghost use Rattle.gcd_plan.specs.Validity.{IsPlan};
ghost use Rattle.gcd_plan.specs.Limits.{max_workers};
ghost use Rattle.gcd_plan.specs.Needs.{limit_room};
ghost use Rattle.std.specs.Arc.{arc_value};
ghost use Rattle.gcd_apply.specs.StripsView.{strips_of};
ghost use Rattle.gcd_blockobj.specs.MarksView.{marks_of};
ghost use Rattle.gcd_refinement.specs.MachineView.{idle, undelivered, lists_of, sleepers_of, waiters_of, machine_of};

use super::cell::BlockCell;
use super::{BlockArrays, EndParts, EventParts, NodeParts, Registers, RunArrays};
use gcd_apply::Strips;
use gcd_blockobj::Marks;
use gcd_drain::{Drains, HeldChains};
use gcd_group::Groups;
use gcd_hold::Holds;
use gcd_lists::Lists;
use gcd_objects::Objects;
use gcd_plan::{Blk, MAX_WORKERS, Plan, Run};
use gcd_refinement::HandlerProgress;
use gcd_sema::Semas;
use gcd_sets::{BitSet, Times};
use gcd_source::Sources;
use gcd_sync::Waits;
use gcd_timer::Timers;
use gcd_tree::Tree;
use std::alloc::{AllocError, Global};
use std::sync::Arc;

impl Registers {
    /// What is kept before anything has happened, with a copy of the plan. An `Err` comes only where memory runs out.
    pub fn new(alloc: Global, plan: &Plan) -> Result<Registers, AllocError>
        ensures kept { IfOk result (λ r. r ≡ machine_of plan.now) }
        ensures valid { IsPlan plan.now }
    {
        let (arrays, parts) = (arrays(alloc, plan, plan.blocks())?, parts(alloc, plan)?);
        let held = HeldChains::new(alloc, &parts.1.2, &parts.1.3)?;
        Ok(Registers {
            plan: arrays.0,
            refs: parts.1.0,
            lists: parts.1.1,
            tree: parts.1.2,
            holds: parts.1.3,
            drains: parts.1.4,
            held,
            groups: parts.2.0,
            semas: parts.2.1,
            waits: parts.2.2,
            sources: parts.2.3,
            timers: parts.2.4,
            sleepers: arrays.1,
            waiters: parts.0.0,
            appliers: parts.0.1,
            strips: parts.0.2,
            marks: parts.0.3,
            accepted: 0,
            shut: false,
            blocks: arrays.2.0,
            ended: arrays.2.1,
            wakeable: arrays.2.2,
            ahead: arrays.2.3,
            ripe: arrays.2.4,
            handlers: arrays.3.0,
            busy: arrays.3.1,
            live: arrays.3.2,
            workers: arrays.3.3,
            running: 0,
            left: 1,
            misused: false,
            halted: false,
            len: 0,
        })
    }
}

// The parts, in groups: so each way out drops few of them.
fn parts(alloc: Global, plan: &Plan) -> Result<(EndParts, NodeParts, EventParts), AllocError>
    ensures waiters { IfOk result (λ parts. parts.0.0 ≡ waiters_of plan.now) }
    ensures appliers { IfOk result (λ parts. parts.0.1.items ≡ replicate (length plan.now.strips) None) }
    ensures strips { IfOk result (λ parts. parts.0.2 ≡ strips_of plan.now) }
    ensures marks { IfOk result (λ parts. parts.0.3 ≡ marks_of plan.now) }
    ensures refs { IfOk result (λ parts. parts.1.0 ≡ replicate (length plan.now.objects) 1) }
    ensures lists { IfOk result (λ parts. parts.1.1 ≡ lists_of plan.now) }
    ensures tree { IfOk result (λ parts. parts.1.2 ≡ tree_of plan.now) }
    ensures holds { IfOk result (λ parts. parts.1.3 ≡ holds_of plan.now) }
    ensures drains { IfOk result (λ parts. parts.1.4 ≡ drains_of plan.now) }
    ensures groups { IfOk result (λ parts. parts.2.0 ≡ groups_of plan.now) }
    ensures semas { IfOk result (λ parts. parts.2.1 ≡ semas_of plan.now) }
    ensures waits { IfOk result (λ parts. parts.2.2 ≡ waits_of plan.now) }
    ensures sources { IfOk result (λ parts. parts.2.3 ≡ sources_of plan.now) }
    ensures timers { IfOk result (λ parts. parts.2.4 ≡ timers_of plan.now) }
{
    Ok((
        end_parts(alloc, plan)?,
        node_parts(alloc, plan)?,
        event_parts(alloc, plan)?,
    ))
}

// A copy of the plan, who sleeps, and the arrays, in groups.
fn arrays(
    alloc: Global,
    plan: &Plan,
    blocks: u32,
) -> Result<(Arc<Plan>, Lists, BlockArrays, RunArrays), AllocError>
    ensures plan { IfOk result (λ arrays. arc_value arrays.0 ≡ plan.now) }
    ensures sleepers { IfOk result (λ arrays. arrays.1 ≡ sleepers_of plan.now) }
    ensures blocks { IfOk result (λ arrays. arrays.2.0.items ≡ replicate blocks idle) }
    ensures ended { IfOk result (λ arrays. arrays.2.1.items ≡ replicate blocks false) }
    ensures wakeable { IfOk result (λ arrays. arrays.2.2 ≡ replicate blocks false) }
    ensures ahead { IfOk result (λ arrays. arrays.2.3 ≡ replicate (limit_room plan.now) None) }
    ensures ripe { IfOk result (λ arrays. arrays.2.4 ≡ replicate blocks false) }
    ensures handlers { IfOk result (λ arrays. arrays.3.0.items ≡ replicate (length plan.now.objects) undelivered) }
    ensures busy { IfOk result (λ arrays. arrays.3.1 ≡ replicate (length plan.now.objects) false) }
    ensures live { IfOk result (λ arrays. arrays.3.2 ≡ replicate (length plan.now.objects) false) }
    ensures workers { IfOk result (λ arrays. arrays.3.3.items ≡ replicate max_workers None) }
{
    Ok((
        Arc::new(alloc, plan.copied(alloc)?)?,
        Lists::of(alloc, plan.objects(), plan.park_room())?,
        block_arrays(alloc, blocks, plan.limit_room())?,
        run_arrays(alloc, plan)?,
    ))
}

// Who waits for the end of a block or a strip, and what is kept of strips and of blocks as objects. Of a plan that has neither they are
// empty.
fn end_parts(alloc: Global, plan: &Plan) -> Result<EndParts, AllocError>
    ensures waiters { IfOk result (λ parts. parts.0 ≡ waiters_of plan.now) }
    ensures appliers { IfOk result (λ parts. parts.1.items ≡ replicate (length plan.now.strips) None) }
    ensures strips { IfOk result (λ parts. parts.2 ≡ strips_of plan.now) }
    ensures marks { IfOk result (λ parts. parts.3 ≡ marks_of plan.now) }
{
    let room = plan.mark_room();
    Ok((
        Lists::of(alloc, room, room)?,
        none_applied(alloc, plan.strips().len())?,
        Strips::new(alloc, plan)?,
        Marks::new(alloc, plan)?,
    ))
}

// The parts that say what waits and runs on the nodes.
fn node_parts(alloc: Global, plan: &Plan) -> Result<NodeParts, AllocError>
    ensures refs { IfOk result (λ parts. parts.0 ≡ replicate (length plan.now.objects) 1) }
    ensures lists { IfOk result (λ parts. parts.1 ≡ lists_of plan.now) }
    ensures tree { IfOk result (λ parts. parts.2 ≡ tree_of plan.now) }
    ensures holds { IfOk result (λ parts. parts.3 ≡ holds_of plan.now) }
    ensures drains { IfOk result (λ parts. parts.4 ≡ drains_of plan.now) }
{
    Ok((
        Objects::new(alloc, plan)?,
        Lists::new(alloc, plan)?,
        Tree::new(alloc, plan)?,
        Holds::new(alloc, plan)?,
        Drains::new(alloc, plan)?,
    ))
}

// The parts that say what is waited for, and what comes.
fn event_parts(alloc: Global, plan: &Plan) -> Result<EventParts, AllocError>
    ensures groups { IfOk result (λ parts. parts.0 ≡ groups_of plan.now) }
    ensures semas { IfOk result (λ parts. parts.1 ≡ semas_of plan.now) }
    ensures waits { IfOk result (λ parts. parts.2 ≡ waits_of plan.now) }
    ensures sources { IfOk result (λ parts. parts.3 ≡ sources_of plan.now) }
    ensures timers { IfOk result (λ parts. parts.4 ≡ timers_of plan.now) }
{
    Ok((
        Groups::new(alloc, plan)?,
        Semas::new(alloc, plan)?,
        Waits::new(alloc, plan)?,
        Sources::new(alloc, plan)?,
        Timers::new(alloc, plan)?,
    ))
}

// What is kept of the blocks: what they have come to, which have ended, which may wake, which limits are ahead, and whose wait
// may expire. Limits are kept of so many blocks as there is room for.
fn block_arrays(alloc: Global, blocks: u32, room: u32) -> Result<BlockArrays, AllocError>
    ensures blocks { IfOk result (λ arrays. arrays.0.items ≡ replicate blocks idle) }
    ensures ended { IfOk result (λ arrays. arrays.1.items ≡ replicate blocks false) }
    ensures wakeable { IfOk result (λ arrays. arrays.2 ≡ replicate blocks false) }
    ensures ahead { IfOk result (λ arrays. arrays.3 ≡ replicate room None) }
    ensures ripe { IfOk result (λ arrays. arrays.4 ≡ replicate blocks false) }
{
    Ok((
        all_idle(alloc, blocks as usize)?,
        none_of(alloc, blocks as usize)?,
        BitSet::new(alloc, blocks)?,
        Times::new(alloc, room)?,
        BitSet::new(alloc, blocks)?,
    ))
}

// What is kept of the handlers, which objects have to be looked at, which feeds are live, and what each worker has.
fn run_arrays(alloc: Global, plan: &Plan) -> Result<RunArrays, AllocError>
    ensures handlers { IfOk result (λ arrays. arrays.0.items ≡ replicate (length plan.now.objects) undelivered) }
    ensures busy { IfOk result (λ arrays. arrays.1 ≡ replicate (length plan.now.objects) false) }
    ensures live { IfOk result (λ arrays. arrays.2 ≡ replicate (length plan.now.objects) false) }
    ensures workers { IfOk result (λ arrays. arrays.3.items ≡ replicate max_workers None) }
{
    Ok((
        all_undelivered(alloc, plan.objects() as usize)?,
        BitSet::new(alloc, plan.objects())?,
        BitSet::new(alloc, plan.objects())?,
        all_free(alloc, MAX_WORKERS as usize)?,
    ))
}

// So many blocks that nobody has submitted.
fn all_idle(alloc: Global, blocks: usize) -> Result<Vec<BlockCell>, AllocError>
    ensures { IfOk result (λ v. v.items ≡ replicate blocks idle) }
{
    vec![in alloc; BlockCell::IDLE; blocks]
}

// So many sources at which nothing was delivered.
fn all_undelivered(alloc: Global, objects: usize) -> Result<Vec<HandlerProgress>, AllocError>
    ensures { IfOk result (λ v. v.items ≡ replicate objects undelivered) }
{
    vec![in alloc; HandlerProgress::UNDELIVERED; objects]
}

// So many flags that are not set.
fn none_of(alloc: Global, count: usize) -> Result<Vec<bool>, AllocError>
    ensures { IfOk result (λ v. v.items ≡ replicate count false) }
{
    vec![in alloc; false; count]
}

// So many strips that nobody has applied.
fn none_applied(alloc: Global, strips: usize) -> Result<Vec<Option<Blk>>, AllocError>
    ensures { IfOk result (λ v. v.items ≡ replicate strips None) }
{
    vec![in alloc; None; strips]
}

// So many workers without a run.
fn all_free(alloc: Global, workers: usize) -> Result<Vec<Option<Run>>, AllocError>
    ensures { IfOk result (λ v. v.items ≡ replicate workers None) }
{
    vec![in alloc; None; workers]
}

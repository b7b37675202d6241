// The acts of one body, one after the other.
ghost use Rattle.std.specs.Prelude.{◌≡◌, None, Some, IfErr, IfOk, map};
ghost use Rattle.gcd_plan.specs.declared.act.Act.TheVariants.{Async, Barrier, Sync, BarrierSync, Enter, Leave, Wait, Signal, Merge, Apply};
ghost use Rattle.gcd_plan.specs.declared.numbers.Run.TheVariants.{Block, Source};
ghost use Rattle.gcd_builder.specs.Changes.{main};

use crate::builder::PlanBuilder;
use crate::fault::BuildFault;
use gcd_plan::{Act, Blk, Obj, Run};

/// A chain of acts for one body: each call adds an act behind the others, until one is refused. [`Body::end`] returns that refusal, and no
/// act behind a refused one is added (this project's own rule).
#[must_use]
#[derive(Drop)]
pub struct Body<'b, 'a> {
    /// The builder that the acts are added to.
    pub builder: &'b mut PlanBuilder<'a>,
    /// Whose acts they are: a block's, or those of a source's handler (dispatch_source_set_event_handler(3)).
    pub run: Run,
    /// Why an act was refused; None if each was added.
    pub fault: Option<BuildFault<'a>>,
}

impl<'a> PlanBuilder<'a> {
    /// Begins a chain of acts of `main` (this project's own rule).
    pub fn main(&mut self) -> Body<'_, 'a>
        ensures same { result.builder.ghost_name ≡ self.entry.ghost_name }
        ensures unchanged { result.builder.now ≡ self.old }
        ensures run { result.run ≡ Block main }
        ensures begun { result.fault ≡ None }
    {
        begun(self, Run::Block(Blk(0)))
    }

    /// Begins a chain of acts of the block. If it has no body of its own, the first act is refused ([`BuildFault::NotBody`]).
    pub fn body(&mut self, block: Blk) -> Body<'_, 'a>
        ensures same { result.builder.ghost_name ≡ self.entry.ghost_name }
        ensures unchanged { result.builder.now ≡ self.old }
        ensures run { result.run ≡ Block block }
        ensures begun { result.fault ≡ None }
    {
        begun(self, Run::Block(block))
    }

    /// Begins a chain of acts of the source's handler (dispatch_source_set_event_handler(3)). If there is no such source, the first act is
    /// refused ([`BuildFault::NotBody`]).
    pub fn handler(&mut self, source: Obj) -> Body<'_, 'a>
        ensures same { result.builder.ghost_name ≡ self.entry.ghost_name }
        ensures unchanged { result.builder.now ≡ self.old }
        ensures run { result.run ≡ Source source }
        ensures begun { result.fault ≡ None }
    {
        begun(self, Run::Source(source))
    }
}

// The chain of which no act was refused.
fn begun<'b, 'a>(builder: &'b mut PlanBuilder<'a>, run: Run) -> Body<'b, 'a>
    ensures builder { result.builder.ghost_name ≡ builder.entry.ghost_name }
    ensures unchanged { result.builder.now ≡ builder.old }
    ensures run { result.run ≡ run }
    ensures begun { result.fault ≡ None }
{
    Body {
        builder,
        run,
        fault: None,
    }
}

// The chain of which the last act was the first to be refused.
fn refused<'b, 'a>(
    builder: &'b mut PlanBuilder<'a>,
    run: Run,
    fault: BuildFault<'a>,
) -> Body<'b, 'a>
    ensures builder { result.builder.ghost_name ≡ builder.entry.ghost_name }
    ensures unchanged { result.builder.now ≡ builder.old }
    ensures run { result.run ≡ run }
    ensures refused { result.fault ≡ Some fault.entry }
{
    Body {
        builder,
        run,
        fault: Some(fault),
    }
}

impl<'b, 'a> Body<'b, 'a> {
    ghost use Rattle.gcd_builder.specs.Chains.{Goes, GoesAll};

    /// Adds the act, where [`PlanBuilder::act`] adds it, and otherwise keeps that refusal. After a refusal it changes nothing.
    pub fn act(self, act: Act) -> Body<'b, 'a>
        ensures builder { result.builder.ghost_name ≡ self.entry.builder.ghost_name }
        ensures run { result.run ≡ self.entry.run }
        ensures goes { Goes act self.entry result }
    {
        if self.fault.is_some() {
            return self;
        }
        let Body { builder, run, .. } = self;
        if let Err(fault) = builder.act(run, act) {
            return refused(builder, run, fault);
        }
        begun(builder, run)
    }

    /// Submits the block to the queue (dispatch_async(3)): [`Body::act`] of that act.
    pub fn async_on(self, queue: Obj, block: Blk) -> Body<'b, 'a>
        ensures builder { result.builder.ghost_name ≡ self.entry.builder.ghost_name }
        ensures run { result.run ≡ self.entry.run }
        ensures goes { Goes (Async queue block) self.entry result }
    {
        self.act(Act::Async(queue, block))
    }

    /// Submits each of the blocks to the queue, in this order (dispatch_async(3)): [`Body::act`] of each. So the blocks before a refused
    /// one are submitted.
    pub fn async_all(self, queue: Obj, blocks: &[Blk]) -> Body<'b, 'a>
        ensures builder { result.builder.ghost_name ≡ self.entry.builder.ghost_name }
        ensures run { result.run ≡ self.entry.run }
        ensures goes { GoesAll (map (Async queue) blocks.now) self.entry result }
    {
        let mut body = self;
        for block in blocks.iter() {
            body = body.act(Act::Async(queue, *block));
        }
        body
    }

    /// Submits the block to the queue as a barrier (dispatch_barrier_async(3)): [`Body::act`] of that act.
    pub fn barrier(self, queue: Obj, block: Blk) -> Body<'b, 'a>
        ensures builder { result.builder.ghost_name ≡ self.entry.builder.ghost_name }
        ensures run { result.run ≡ self.entry.run }
        ensures goes { Goes (Barrier queue block) self.entry result }
    {
        self.act(Act::Barrier(queue, block))
    }

    /// Submits the block to the queue and waits for its end (dispatch_sync(3)): [`Body::act`] of that act.
    pub fn sync(self, queue: Obj, block: Blk) -> Body<'b, 'a>
        ensures builder { result.builder.ghost_name ≡ self.entry.builder.ghost_name }
        ensures run { result.run ≡ self.entry.run }
        ensures goes { Goes (Sync queue block) self.entry result }
    {
        self.act(Act::Sync(queue, block))
    }

    /// Submits the block to the queue as a barrier and waits for its end (dispatch_barrier_sync(3)): [`Body::act`] of that act.
    pub fn barrier_sync(self, queue: Obj, block: Blk) -> Body<'b, 'a>
        ensures builder { result.builder.ghost_name ≡ self.entry.builder.ghost_name }
        ensures run { result.run ≡ self.entry.run }
        ensures goes { Goes (BarrierSync queue block) self.entry result }
    {
        self.act(Act::BarrierSync(queue, block))
    }

    /// Submits the blocks of the strip to the queue and waits for their ends (dispatch_apply(3)): [`Body::act`] of that act.
    pub fn apply(self, queue: Obj, strip: u32) -> Body<'b, 'a>
        ensures builder { result.builder.ghost_name ≡ self.entry.builder.ghost_name }
        ensures run { result.run ≡ self.entry.run }
        ensures goes { Goes (Apply queue strip) self.entry result }
    {
        self.act(Act::Apply(queue, strip))
    }

    /// Enters the group (dispatch_group_enter(3)): [`Body::act`] of that act.
    pub fn enter(self, group: Obj) -> Body<'b, 'a>
        ensures builder { result.builder.ghost_name ≡ self.entry.builder.ghost_name }
        ensures run { result.run ≡ self.entry.run }
        ensures goes { Goes (Enter group) self.entry result }
    {
        self.act(Act::Enter(group))
    }

    /// Leaves the group (dispatch_group_leave(3)): [`Body::act`] of that act.
    pub fn leave(self, group: Obj) -> Body<'b, 'a>
        ensures builder { result.builder.ghost_name ≡ self.entry.builder.ghost_name }
        ensures run { result.run ≡ self.entry.run }
        ensures goes { Goes (Leave group) self.entry result }
    {
        self.act(Act::Leave(group))
    }

    /// Waits for the semaphore (dispatch_semaphore_wait(3)): [`Body::act`] of that act.
    pub fn wait(self, semaphore: Obj) -> Body<'b, 'a>
        ensures builder { result.builder.ghost_name ≡ self.entry.builder.ghost_name }
        ensures run { result.run ≡ self.entry.run }
        ensures goes { Goes (Wait semaphore) self.entry result }
    {
        self.act(Act::Wait(semaphore))
    }

    /// Signals the semaphore (dispatch_semaphore_signal(3)): [`Body::act`] of that act.
    pub fn signal(self, semaphore: Obj) -> Body<'b, 'a>
        ensures builder { result.builder.ghost_name ≡ self.entry.builder.ghost_name }
        ensures run { result.run ≡ self.entry.run }
        ensures goes { Goes (Signal semaphore) self.entry result }
    {
        self.act(Act::Signal(semaphore))
    }

    /// Merges the value into the source (dispatch_source_merge_data(3)): [`Body::act`] of that act.
    pub fn merge(self, source: Obj, value: u32) -> Body<'b, 'a>
        ensures builder { result.builder.ghost_name ≡ self.entry.builder.ghost_name }
        ensures run { result.run ≡ self.entry.run }
        ensures goes { Goes (Merge source value) self.entry result }
    {
        self.act(Act::Merge(source, value))
    }

    /// Ends the chain, and returns why an act was refused, if one was (this project's own rule).
    pub fn end(self) -> Result<(), BuildFault<'a>>
        ensures left { self.exit.0.now ≡ self.entry.builder.now }
        ensures added { IfOk result (λ _. self.entry.fault ≡ None) }
        ensures refused { IfErr result (λ fault. self.entry.fault ≡ Some fault) }
    {
        match self.fault {
            None => Ok(()),
            Some(fault) => Err(fault),
        }
    }
}

// What a machine keeps, once more.
ghost use Rattle.std.specs.Prelude.{◌≡◌, IfOk};
ghost use Rattle.std.specs.Arc.{arc_value};

use super::{BlockArrays, EndParts, EventParts, NodeParts, Registers, RunArrays};
use gcd_lists::Lists;
use gcd_plan::Plan;
use std::alloc::{AllocError, Global};
use std::sync::Arc;

impl Registers {
    /// The same once more, with the same plan. An `Err` comes only where memory runs out.
    pub fn copied(&self, alloc: Global) -> Result<Registers, AllocError>
        ensures { IfOk result (λ r. r ≡ self.now) }
    {
        let (arrays, parts) = (self.copied_arrays(alloc)?, self.copied_parts(alloc)?);
        let held = self.held.copied(alloc)?;
        Ok(Registers {
            plan: arrays.0,
            refs: parts.1.0,
            lists: parts.1.1,
            tree: parts.1.2,
            holds: parts.1.3,
            drains: parts.1.4,
            held,
            groups: parts.2.0,
            semas: parts.2.1,
            waits: parts.2.2,
            sources: parts.2.3,
            timers: parts.2.4,
            sleepers: arrays.1,
            waiters: parts.0.0,
            appliers: parts.0.1,
            strips: parts.0.2,
            marks: parts.0.3,
            accepted: self.accepted,
            shut: self.shut,
            blocks: arrays.2.0,
            ended: arrays.2.1,
            wakeable: arrays.2.2,
            ahead: arrays.2.3,
            ripe: arrays.2.4,
            handlers: arrays.3.0,
            busy: arrays.3.1,
            live: arrays.3.2,
            workers: arrays.3.3,
            running: self.running,
            left: self.left,
            misused: self.misused,
            halted: self.halted,
            len: self.len,
        })
    }

    // The parts, in groups: so each way out drops few of them.
    fn copied_parts(&self, alloc: Global) -> Result<(EndParts, NodeParts, EventParts), AllocError>
        ensures waiters { IfOk result (λ parts. parts.0.0 ≡ self.now.waiters) }
        ensures appliers { IfOk result (λ parts. parts.0.1.items ≡ self.now.appliers) }
        ensures strips { IfOk result (λ parts. parts.0.2 ≡ self.now.strips) }
        ensures marks { IfOk result (λ parts. parts.0.3 ≡ self.now.marks) }
        ensures refs { IfOk result (λ parts. parts.1.0 ≡ self.now.refs) }
        ensures lists { IfOk result (λ parts. parts.1.1 ≡ self.now.lists) }
        ensures tree { IfOk result (λ parts. parts.1.2 ≡ self.now.tree) }
        ensures holds { IfOk result (λ parts. parts.1.3 ≡ self.now.holds) }
        ensures drains { IfOk result (λ parts. parts.1.4 ≡ self.now.drains) }
        ensures groups { IfOk result (λ parts. parts.2.0 ≡ self.now.groups) }
        ensures semas { IfOk result (λ parts. parts.2.1 ≡ self.now.semas) }
        ensures waits { IfOk result (λ parts. parts.2.2 ≡ self.now.waits) }
        ensures sources { IfOk result (λ parts. parts.2.3 ≡ self.now.sources) }
        ensures timers { IfOk result (λ parts. parts.2.4 ≡ self.now.timers) }
    {
        Ok((
            self.copied_end_parts(alloc)?,
            self.copied_node_parts(alloc)?,
            self.copied_event_parts(alloc)?,
        ))
    }

    // The plan, who sleeps, and the arrays, in groups.
    fn copied_arrays(
        &self,
        alloc: Global,
    ) -> Result<(Arc<Plan>, Lists, BlockArrays, RunArrays), AllocError>
        ensures plan { IfOk result (λ arrays. arc_value arrays.0 ≡ self.now.plan) }
        ensures sleepers { IfOk result (λ arrays. arrays.1 ≡ self.now.sleepers) }
        ensures blocks { IfOk result (λ arrays. arrays.2.0.items ≡ self.now.blocks) }
        ensures ended { IfOk result (λ arrays. arrays.2.1.items ≡ self.now.ended) }
        ensures wakeable { IfOk result (λ arrays. arrays.2.2 ≡ self.now.wakeable) }
        ensures ahead { IfOk result (λ arrays. arrays.2.3 ≡ self.now.ahead) }
        ensures ripe { IfOk result (λ arrays. arrays.2.4 ≡ self.now.ripe) }
        ensures handlers { IfOk result (λ arrays. arrays.3.0.items ≡ self.now.handlers) }
        ensures busy { IfOk result (λ arrays. arrays.3.1 ≡ self.now.busy) }
        ensures live { IfOk result (λ arrays. arrays.3.2 ≡ self.now.live) }
        ensures workers { IfOk result (λ arrays. arrays.3.3.items ≡ self.now.workers) }
    {
        Ok((
            Arc::try_clone(&self.plan)?,
            self.sleepers.copied(alloc)?,
            self.copied_block_arrays(alloc)?,
            self.copied_run_arrays(alloc)?,
        ))
    }

    // Who waits for the end of a block or a strip, and what is kept of strips and of blocks as objects.
    fn copied_end_parts(&self, alloc: Global) -> Result<EndParts, AllocError>
        ensures waiters { IfOk result (λ parts. parts.0 ≡ self.now.waiters) }
        ensures appliers { IfOk result (λ parts. parts.1.items ≡ self.now.appliers) }
        ensures strips { IfOk result (λ parts. parts.2 ≡ self.now.strips) }
        ensures marks { IfOk result (λ parts. parts.3 ≡ self.now.marks) }
    {
        Ok((
            self.waiters.copied(alloc)?,
            Vec::from_slice(alloc, &self.appliers)?,
            self.strips.copied(alloc)?,
            self.marks.copied(alloc)?,
        ))
    }

    // The parts that say what waits and runs on the nodes.
    fn copied_node_parts(&self, alloc: Global) -> Result<NodeParts, AllocError>
        ensures refs { IfOk result (λ parts. parts.0 ≡ self.now.refs) }
        ensures lists { IfOk result (λ parts. parts.1 ≡ self.now.lists) }
        ensures tree { IfOk result (λ parts. parts.2 ≡ self.now.tree) }
        ensures holds { IfOk result (λ parts. parts.3 ≡ self.now.holds) }
        ensures drains { IfOk result (λ parts. parts.4 ≡ self.now.drains) }
    {
        Ok((
            self.refs.copied(alloc)?,
            self.lists.copied(alloc)?,
            self.tree.copied(alloc)?,
            self.holds.copied(alloc)?,
            self.drains.copied(alloc)?,
        ))
    }

    // The parts that say what is waited for, and what comes.
    fn copied_event_parts(&self, alloc: Global) -> Result<EventParts, AllocError>
        ensures groups { IfOk result (λ parts. parts.0 ≡ self.now.groups) }
        ensures semas { IfOk result (λ parts. parts.1 ≡ self.now.semas) }
        ensures waits { IfOk result (λ parts. parts.2 ≡ self.now.waits) }
        ensures sources { IfOk result (λ parts. parts.3 ≡ self.now.sources) }
        ensures timers { IfOk result (λ parts. parts.4 ≡ self.now.timers) }
    {
        Ok((
            self.groups.copied(alloc)?,
            self.semas.copied(alloc)?,
            self.waits.copied(alloc)?,
            self.sources.copied(alloc)?,
            self.timers.copied(alloc)?,
        ))
    }

    // What is kept of the blocks.
    fn copied_block_arrays(&self, alloc: Global) -> Result<BlockArrays, AllocError>
        ensures blocks { IfOk result (λ arrays. arrays.0.items ≡ self.now.blocks) }
        ensures ended { IfOk result (λ arrays. arrays.1.items ≡ self.now.ended) }
        ensures wakeable { IfOk result (λ arrays. arrays.2 ≡ self.now.wakeable) }
        ensures ahead { IfOk result (λ arrays. arrays.3 ≡ self.now.ahead) }
        ensures ripe { IfOk result (λ arrays. arrays.4 ≡ self.now.ripe) }
    {
        Ok((
            Vec::from_slice(alloc, &self.blocks)?,
            Vec::from_slice(alloc, &self.ended)?,
            self.wakeable.copied(alloc)?,
            self.ahead.copied(alloc)?,
            self.ripe.copied(alloc)?,
        ))
    }

    // What is kept of the handlers, which objects have to be looked at, which feeds are live, and what each worker has.
    fn copied_run_arrays(&self, alloc: Global) -> Result<RunArrays, AllocError>
        ensures handlers { IfOk result (λ arrays. arrays.0.items ≡ self.now.handlers) }
        ensures busy { IfOk result (λ arrays. arrays.1 ≡ self.now.busy) }
        ensures live { IfOk result (λ arrays. arrays.2 ≡ self.now.live) }
        ensures workers { IfOk result (λ arrays. arrays.3.items ≡ self.now.workers) }
    {
        Ok((
            Vec::from_slice(alloc, &self.handlers)?,
            self.busy.copied(alloc)?,
            self.live.copied(alloc)?,
            Vec::from_slice(alloc, &self.workers)?,
        ))
    }
}

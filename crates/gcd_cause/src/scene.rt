// What events have made of a plan's objects and blocks, so far as sentences tell it. Nothing is judged by it: which event may come,
// and why not, the machine says.

use crate::naming::{act_at, kind_of, objects_of, strip_span};
use gcd_event::Event;
use gcd_plan::{Act, Blk, Obj, Plan, Run};
use std::alloc::{AllocError, Global};

/// A place in a body: an act of a run, by its index.
#[derive(Clone, Copy, PartialEq, Eq)]
pub struct Place {
    pub run: Run,
    pub index: u32,
}

/// What has become of an object.
#[derive(Clone, Copy)]
pub struct ObjectNow {
    /// How many suspends no resume has answered.
    pub holds: u32,
    pub is_active: bool,
    pub target: Obj,
    /// The target that it is under way to.
    pub coming: Option<Obj>,
    /// How many runs are open on the object itself.
    pub open: u32,
    /// The enters of a group that no leave has answered.
    pub enters: u32,
    /// The blocks of a group that are submitted and have not ended.
    pub members: u32,
    pub signals: u32,
    /// The waits of a semaphore that have not expired.
    pub waits: u32,
    /// Those that have.
    pub expired: u32,
    pub refs: u32,
    /// The journal time at which it became active.
    pub active_at: u32,
    pub is_cancelled: bool,
    pub is_delivering: bool,
    /// How many acts the open run of the handler has made.
    pub made: u32,
}

impl ObjectNow {
    // An object before anything has happened, with its first target.
    fn new(is_active: bool, target: Obj) -> ObjectNow {
        ObjectNow {
            holds: 0,
            is_active,
            target,
            coming: None,
            open: 0,
            enters: 0,
            members: 0,
            signals: 0,
            waits: 0,
            expired: 0,
            refs: 1,
            active_at: 0,
            is_cancelled: false,
            is_delivering: false,
            made: 0,
        }
    }

    /// How many enters and members a group counts.
    pub fn count(self) -> u32 {
        self.enters.saturating_add(self.members)
    }

    /// Whether nothing beneath the object may start, because it is inactive, suspended or under way to another target.
    pub fn is_held(self) -> bool {
        !self.is_active || self.holds > 0 || self.coming.is_some()
    }

    // A run on the object closes; a target that was put off takes effect with the last.
    fn close(&mut self) {
        self.open = self.open.saturating_sub(1);
        if self.open == 0 {
            self.target = self.coming.unwrap_or(self.target);
            self.coming = None;
        }
    }

    // A resume: that of an inactive source which is not suspended activates it.
    fn resume(&mut self, is_source: bool) {
        self.is_active = self.is_active || (self.holds == 0 && is_source);
        self.holds = self.holds.saturating_sub(1);
    }

    // Another target, at once if no run is open on the object.
    fn set_target(&mut self, target: Obj) {
        if self.open == 0 {
            self.target = target;
        } else {
            self.coming = Some(target);
        }
    }

    // What an act does to the first object that it names.
    fn act(&mut self, act: Act, is_source: bool) {
        match act {
            Act::Enter(_) => self.enters = self.enters.saturating_add(1),
            Act::Leave(_) => self.enters = self.enters.saturating_sub(1),
            Act::GroupAsync(..) => self.members = self.members.saturating_add(1),
            Act::Signal(_) => self.signals = self.signals.saturating_add(1),
            Act::Wait(_) | Act::WaitFor(..) => self.waits = self.waits.saturating_add(1),
            Act::Suspend(_) => self.holds = self.holds.saturating_add(1),
            Act::Resume(_) => self.resume(is_source),
            Act::Activate(_) => self.is_active = true,
            Act::Target(_, target) => self.set_target(target),
            Act::Cancel(_) => self.is_cancelled = true,
            Act::Retain(_) => self.refs = self.refs.saturating_add(1),
            Act::Release(_) => self.refs = self.refs.saturating_sub(1),
            _ => {}
        }
    }

    // The handler of the source begins, or ends.
    fn deliver(&mut self, is_delivering: bool) {
        self.is_delivering = is_delivering;
        self.made = 0;
    }
}

/// What has become of a block.
#[derive(Clone, Copy, Default)]
pub struct BlockNow {
    /// How many acts its run has made.
    pub made: u32,
    /// The act that submits it, or registers it with a group or at a block.
    pub by: Option<Place>,
    /// The node on which it stands, once it is submitted.
    pub node: Option<Obj>,
    pub is_barrier: bool,
    /// The group that counts it.
    pub group: Option<Obj>,
    /// The group at which it is registered.
    pub notify: Option<Obj>,
    /// The block at whose end it is registered.
    pub after: Option<Blk>,
    /// The group or semaphore of its last wait, if it parked there last.
    pub wait: Option<Obj>,
    /// The limit of that wait, if it has one.
    pub limit: Option<u32>,
    /// Whether that wait has expired.
    pub has_expired: bool,
    /// Whether its limit is `until`, and would be later otherwise.
    pub is_cut: bool,
}

impl BlockNow {
    // What an act does to the block that it submits to the node, or registers.
    fn submit(&mut self, by: Place, node: Obj, act: Act) {
        self.by = Some(by);
        self.node = Some(node);
        match act {
            Act::Barrier(..) | Act::BarrierSync(..) => self.is_barrier = true,
            Act::GroupAsync(group, ..) => self.group = Some(group),
            Act::Notify(group, ..) => self.notify = Some(group),
            Act::NotifyBlock(first, ..) => self.after = Some(first),
            _ => {}
        }
    }

    // The block parks and begins the wait of this act. A limit is so many milliseconds from now, and no later than `until`.
    fn park(&mut self, act: Act, now: u32, until: u32) {
        let (wait, ms) = match act {
            Act::GroupWait(o) | Act::Wait(o) => (Some(o), None),
            Act::GroupWaitFor(o, ms) | Act::WaitFor(o, ms) => (Some(o), Some(ms)),
            _ => (None, None),
        };
        let limit = ms.map(|ms| now.saturating_add(ms));
        self.wait = wait;
        self.limit = limit.map(|at| at.min(until));
        self.has_expired = false;
        self.is_cut = limit.is_some_and(|at| at > until);
    }
}

/// What events have made of a plan.
#[derive(Drop)]
pub struct Scene {
    objects: Vec<ObjectNow>,
    blocks: Vec<BlockNow>,
    // What is changed in place of an object or a block that the plan has not.
    spare: (ObjectNow, BlockNow),
    // The runs that workers have: open, and not parked.
    having: Vec<(u8, Run)>,
    /// The waits that have expired at `until`, and would have had a later limit otherwise.
    pub cuts: Vec<Place>,
    /// Journal time.
    pub time: u32,
}

impl Scene {
    /// The scene before anything has happened: only cancellation blocks stand anywhere, on their sources. An `Err` comes only where
    /// memory runs out.
    pub fn new(alloc: Global, plan: &Plan) -> Result<Scene, AllocError> {
        let mut scene = Scene {
            objects: Vec::new(alloc),
            blocks: vec![in alloc; BlockNow::default(); plan.blocks() as usize]?,
            spare: (ObjectNow::new(true, Obj(0)), BlockNow::default()),
            having: Vec::new(alloc),
            cuts: Vec::new(alloc),
            time: 0,
        };
        for o in 0..plan.objects() {
            let (is_active, target) = (plan.starts_active(Obj(o)), plan.first_target(Obj(o)));
            scene.objects.push(ObjectNow::new(is_active, target))?;
            if let Some(b) = plan.cancel_block(Obj(o)) {
                scene.block_mut(b).node = Some(Obj(o));
            }
        }
        Ok(scene)
    }

    /// What has become of the object. One that the plan lacks is active.
    pub fn object(&self, o: Obj) -> ObjectNow {
        match self.objects.get(o.0 as usize) {
            Some(now) => *now,
            None => ObjectNow::new(true, Obj(0)),
        }
    }

    fn object_mut(&mut self, o: Obj) -> &mut ObjectNow {
        match self.objects.get_mut(o.0 as usize) {
            Some(now) => now,
            None => &mut self.spare.0,
        }
    }

    /// What has become of the block.
    pub fn block(&self, b: Blk) -> BlockNow {
        self.blocks.get(b.0 as usize).copied().unwrap_or_default()
    }

    fn block_mut(&mut self, b: Blk) -> &mut BlockNow {
        match self.blocks.get_mut(b.0 as usize) {
            Some(now) => now,
            None => &mut self.spare.1,
        }
    }

    /// How many acts the run has made.
    pub fn made(&self, run: Run) -> u32 {
        match run {
            Run::Block(b) => self.block(b).made,
            Run::Source(s) => self.object(s).made,
        }
    }

    /// The run that the worker has.
    pub fn run_of(&self, worker: u8) -> Option<Run> {
        let had = self.having.iter().find(|had| had.0 == worker)?;
        Some(had.1)
    }

    /// The worker that has the run.
    pub fn worker_of(&self, run: Run) -> Option<u8> {
        let had = self.having.iter().find(|had| had.1 == run)?;
        Some(had.0)
    }

    // The node of a run.
    fn node(&self, run: Run) -> Option<Obj> {
        match run {
            Run::Block(b) => self.block(b).node,
            Run::Source(s) => Some(s),
        }
    }

    // The run opens, with the worker.
    fn begin(&mut self, worker: u8, run: Run) -> Result<(), AllocError> {
        if let Some(node) = self.node(run) {
            let now = self.object_mut(node);
            now.open = now.open.saturating_add(1);
        }
        self.having.push((worker, run))?;
        Ok(())
    }

    // The run closes, and its worker gives it back.
    fn end(&mut self, run: Run) {
        if let Some(node) = self.node(run) {
            self.object_mut(node).close();
        }
        self.having.retain(|had| had.1 != run);
    }

    // The block that ended is no member of its group any more.
    fn leave_group(&mut self, b: Blk) {
        if let Some(group) = self.block(b).group {
            let now = self.object_mut(group);
            now.members = now.members.saturating_sub(1);
        }
    }

    // One act more of the run.
    fn count(&mut self, run: Run) {
        let made = self.made(run).saturating_add(1);
        match run {
            Run::Block(b) => self.block_mut(b).made = made,
            Run::Source(s) => self.object_mut(s).made = made,
        }
    }

    // The act submits the blocks of the strip to the node.
    fn apply(&mut self, plan: &Plan, by: Place, node: Obj, act: Act, a: u32) {
        let (first, count) = strip_span(plan, a);
        for place in 0..count {
            let b = Blk(first.saturating_add(place));
            self.block_mut(b).submit(by, node, act);
        }
    }

    // The wait of the block expires.
    fn expire(&mut self, b: Blk) -> Result<(), AllocError> {
        self.block_mut(b).has_expired = true;
        let block = self.block(b);
        if let Some(o) = block.wait {
            let now = self.object_mut(o);
            now.waits = now.waits.saturating_sub(1);
            now.expired = now.expired.saturating_add(1);
        }
        if block.is_cut {
            let (run, index) = (Run::Block(b), block.made.saturating_sub(1));
            self.cuts.push(Place { run, index })?;
        }
        Ok(())
    }

    // What an act does to the blocks that it submits, and to the first object that it names. The last is the node of these blocks.
    fn change(&mut self, plan: &Plan, by: Place, act: Act) {
        let (first, node) = objects_of(act);
        if let Some(b) = act.block() {
            self.block_mut(b).submit(by, node, act);
        }
        if let Some(a) = act.strip() {
            self.apply(plan, by, node, act, a);
        }
        let (time, is_source) = (self.time, kind_of(plan, first).is_source());
        let now = self.object_mut(first);
        let was_active = now.is_active;
        now.act(act, is_source);
        if !was_active && now.is_active {
            now.active_at = time;
        }
    }

    // The act is made. If it parks its block, the worker gives that back.
    fn acted(&mut self, plan: &Plan, by: Place) {
        let Some(act) = act_at(plan, by.run, by.index) else {
            return;
        };
        self.count(by.run);
        if act.parks() {
            self.having.retain(|had| had.1 != by.run);
            if let Run::Block(b) = by.run {
                let time = self.time;
                self.block_mut(b).park(act, time, plan.until());
            }
        }
        self.change(plan, by, act);
    }

    /// Takes an event. An `Err` comes only where memory runs out.
    pub fn take(&mut self, plan: &Plan, event: Event) -> Result<(), AllocError> {
        if let Some(run) = event.begun() {
            self.begin(event.worker(), run)?;
        }
        if let Some(run) = event.ended() {
            self.end(run);
        }
        match event {
            Event::Act { run, index, .. } => self.acted(plan, Place { run, index }),
            Event::Wake { worker, blk } => self.having.push((worker, Run::Block(blk)))?,
            Event::End { blk, .. } => self.leave_group(blk),
            Event::Deliver { src, .. } => self.object_mut(src).deliver(true),
            Event::DeliverEnd { src, .. } => self.object_mut(src).deliver(false),
            Event::Tick { at } => self.time = at,
            Event::FeedEnd { src } => self.object_mut(src).is_cancelled = true,
            Event::Expire { blk } => self.expire(blk)?,
            Event::Accept { blk, .. } => {
                self.block_mut(blk).node = plan.intake().map(|intake| intake.0);
            }
            Event::Start { .. } | Event::Ready { .. } | Event::Misuse { .. } => {}
            Event::Halt | Event::Shut => {}
        }
        Ok(())
    }
}

// What a run that is over has left undone, though nothing waits for it.

use crate::declared::line_of;
use crate::sentence::Sentence;
use gcd_cause::{ActWords, Place, Places, Sight, act_at, hold_words, kind_of, registered_words};
use gcd_machine::Machine;
use gcd_plan::{Act, Blk, Kind, Obj, Plan, Run, Why};
use std::alloc::{AllocError, Global};

/// The most sentences that are said of a run.
pub const MAX_SAID: usize = 200;

// Whether the block is the cancellation block of a source, which comes only if the source is cancelled.
fn is_of_source(plan: &Plan, b: Blk) -> bool {
    for s in 0..plan.objects() {
        if plan.cancel_block(Obj(s)) == Some(b) {
            return true;
        }
    }
    false
}

// Whether the block comes from outside.
fn is_of_intake(plan: &Plan, b: Blk) -> bool {
    match plan.intake() {
        Some((_, first, count)) => first <= b.0 && b.0 - first < count,
        None => false,
    }
}

// Whether an act should submit the block, and none has.
fn is_left_out(plan: &Plan, machine: &Machine, b: Blk) -> bool {
    b.0 > 0
        && b.0 < machine.blocks()
        && machine.node_of(b).is_none()
        && !is_of_intake(plan, b)
        && !is_of_source(plan, b)
}

// Whether the source has something pending, or is a timer that has delivered nothing.
fn is_left(plan: &Plan, machine: &Machine, s: Obj) -> bool {
    if s.0 >= machine.objects() {
        return false;
    }
    match kind_of(plan, s) {
        Kind::Timer { .. } => machine.data_of(s) == 0 || machine.pending_of(s) > 0,
        Kind::Add | Kind::Or | Kind::Replace | Kind::Read => machine.pending_of(s) > 0,
        Kind::Serial | Kind::Concurrent | Kind::Group | Kind::Semaphore(_) => false,
    }
}

// Whether barriers count on the object: it is a concurrent queue other than `root`.
fn has_barriers(plan: &Plan, o: Obj) -> bool {
    o.0 > 0 && kind_of(plan, o).is_concurrent()
}

// Whether one of the acts submits a barrier to a queue on which barriers count, and whether one gives an object such a queue as its
// target.
fn fences_of(plan: &Plan, acts: &[Act]) -> (bool, bool) {
    let (mut submits, mut targets) = (false, false);
    for act in acts {
        match *act {
            Act::Barrier(q, _) | Act::BarrierSync(q, _) => {
                submits = submits | has_barriers(plan, q);
            }
            Act::Target(_, q) => targets = targets | has_barriers(plan, q),
            _ => {}
        }
    }
    (submits, targets)
}

// Whether a barrier may come to a queue beneath which others stand, from the outset or by an act.
fn may_have_barrier_above(plan: &Plan) -> bool {
    let (mut is_submitted, mut is_target) = (false, false);
    for o in 0..plan.objects() {
        let (_, targets) = fences_of(plan, plan.acts(Run::Source(Obj(o))));
        is_target = is_target | targets | has_barriers(plan, plan.first_target(Obj(o)));
    }
    for b in 0..plan.blocks() {
        let (submits, targets) = fences_of(plan, plan.acts(Run::Block(Blk(b))));
        is_submitted = is_submitted | submits;
        is_target = is_target | targets;
    }
    is_submitted && is_target
}

/// Whether a run that is over may have left something to note. It looks at each object and block of the plan once, at the acts only if a
/// queue other than `root` may have barriers, and at no event.
pub fn may_have_notes(plan: &Plan, machine: &Machine) -> bool {
    let mut has_fence = false;
    for o in 0..plan.objects() {
        if is_left(plan, machine, Obj(o)) {
            return true;
        }
        has_fence = has_fence | has_barriers(plan, Obj(o));
    }
    for b in 0..plan.blocks() {
        if is_left_out(plan, machine, Blk(b)) {
            return true;
        }
    }
    plan.limit_room() > 0 || (has_fence && may_have_barrier_above(plan))
}

// The acts that submit blocks and strips: of each its place, if there is one.
#[derive(Drop)]
struct Submitters {
    blocks: Vec<Option<Place>>,
    strips: Vec<Option<Place>>,
}

impl Submitters {
    fn of(alloc: Global, plan: &Plan) -> Result<Submitters, AllocError> {
        let mut found = Submitters {
            blocks: vec![in alloc; None; plan.blocks() as usize]?,
            strips: vec![in alloc; None; plan.strips().len()]?,
        };
        for b in 0..plan.blocks() {
            let run = Run::Block(Blk(b));
            for (index, act) in plan.acts(run).iter().enumerate() {
                let index = u32::try_from(index).unwrap_or(u32::MAX);
                found.add(*act, Place { run, index });
            }
        }
        Ok(found)
    }

    fn add(&mut self, act: Act, place: Place) {
        if let Some(b) = act.block() {
            if let Some(by) = self.blocks.get_mut(b.0 as usize) {
                *by = Some(place);
            }
        }
        if let Some(a) = act.strip() {
            if let Some(by) = self.strips.get_mut(a as usize) {
                *by = Some(place);
            }
        }
    }

    fn of_block(&self, b: u32) -> Option<Place> {
        self.blocks.get(b as usize).copied().flatten()
    }

    fn of_strip(&self, a: usize) -> Option<Place> {
        self.strips.get(a).copied().flatten()
    }
}

/// The end of a run of a script: the script's name, text and lines, what stands there, and whether blocks wait.
#[derive(Clone, Copy)]
pub struct Left<'a, 'p> {
    pub file: &'a str,
    pub text: &'p [u8],
    pub places: &'p Places,
    pub sight: Sight<'p>,
    pub is_stuck: bool,
}

/// The notes on what a run that is over has left undone: blocks and strips that were never submitted, values that were never delivered,
/// timers and waits that `until` cut short, and barriers that would wait for more in libdispatch. Of a stuck run, a block that could
/// still be submitted if the run went on is none of them. It says at most [`MAX_SAID`] sentences. An `Err` comes only where memory
/// runs out.
pub fn notes<'a>(alloc: Global, left: Left<'a, '_>) -> Result<Vec<Sentence<'a>>, AllocError> {
    let mut noting = Noting {
        alloc,
        left,
        said: Vec::new(alloc),
    };
    noting.note_blocks()?;
    for s in 0..left.sight.plan.objects() {
        noting.note_object(Obj(s))?;
    }
    for place in left.sight.scene.cuts.as_slice() {
        noting.note_cut(*place)?;
    }
    let Noting {
        alloc: _,
        left: _,
        said,
    } = noting;
    Ok(said)
}

// The notes so far.
#[derive(Drop)]
struct Noting<'a, 'p> {
    alloc: Global,
    left: Left<'a, 'p>,
    said: Vec<Sentence<'a>>,
}

impl<'a, 'p> Noting<'a, 'p> {
    // One note more, on that line, but none past the most.
    fn add(&mut self, line: u32, text: String) -> Result<(), AllocError> {
        if self.said.len() >= MAX_SAID {
            return Ok(());
        }
        let (file, text) = (self.left.file, text.as_str());
        let text = format!(in self.alloc; "note: {text}")?;
        self.said.push(Sentence { file, line, text })?;
        Ok(())
    }

    // The blocks and strips that were never submitted.
    fn note_blocks(&mut self) -> Result<(), AllocError> {
        let sight = self.left.sight;
        let mut by = None;
        for b in 0..sight.plan.blocks() {
            if is_left_out(sight.plan, sight.machine, Blk(b)) {
                let submitters = match by.take() {
                    Some(submitters) => submitters,
                    None => Submitters::of(self.alloc, sight.plan)?,
                };
                self.note_block(&submitters, Blk(b))?;
                by = Some(submitters);
            }
        }
        Ok(())
    }

    // That a block was never submitted. The first block of a strip stands for the strip.
    fn note_block(&mut self, by: &Submitters, b: Blk) -> Result<(), AllocError> {
        let sight = self.left.sight;
        for (a, strip) in sight.plan.strips().iter().enumerate() {
            if strip.first <= b.0 && b.0 - strip.first < strip.count {
                if strip.first < b.0 {
                    return Ok(());
                }
                return self.note_unsubmitted("strip", strip.name.as_str(), by.of_strip(a));
            }
        }
        let name = sight.name_of_block(b);
        match registered_words(self.alloc, sight, b)? {
            Some(delay) => {
                let text = format!(in self.alloc; "{name} was never submitted: {delay}")?;
                self.add(self.left.places.line_of(sight.scene.block(b).by), text)
            }
            None => self.note_unsubmitted("block", name, by.of_block(b.0)),
        }
    }

    // That the block or the strip of this name was never submitted: no act does it, or the act of a block that made none.
    fn note_unsubmitted(
        &mut self,
        word: &str,
        name: &str,
        by: Option<Place>,
    ) -> Result<(), AllocError> {
        let sight = self.left.sight;
        let Some(place) = by else {
            let text = format!(in self.alloc; "{name} was never submitted: no act submits it")?;
            return self.add(line_of(self.left.text, word, name), text);
        };
        let Run::Block(maker) = place.run else {
            return Ok(());
        };
        if self.left.is_stuck && !sight.is_ended(maker) {
            return Ok(());
        }
        let (other, state) = (sight.name_of_block(maker), maker_words(sight, maker));
        let text = format!(in self.alloc;
            "{name} was never submitted: {other}, which submits it, {state}"
        )?;
        self.add(self.left.places.line_of(Some(place)), text)
    }

    // What is left of an object.
    fn note_object(&mut self, o: Obj) -> Result<(), AllocError> {
        let sight = self.left.sight;
        match kind_of(sight.plan, o) {
            Kind::Timer { start, .. } => {
                self.note_undelivered(o)?;
                self.note_timer(o, start)
            }
            Kind::Add | Kind::Or | Kind::Replace | Kind::Read => self.note_undelivered(o),
            Kind::Concurrent => self.note_barrier(o),
            Kind::Serial | Kind::Group | Kind::Semaphore(_) => Ok(()),
        }
    }

    // That data was never delivered.
    fn note_undelivered(&mut self, s: Obj) -> Result<(), AllocError> {
        let sight = self.left.sight;
        let pending = sight.pending(s);
        if pending == 0 {
            return Ok(());
        }
        let name = sight.name_of_object(s);
        let why = undelivered(self.alloc, sight, s)?;
        let text = format!(in self.alloc; "{pending} of {name} was never delivered: {why}")?;
        self.add(self.left.places.line_of_object(s), text)
    }

    // That a timer is first due after `until`.
    fn note_timer(&mut self, s: Obj, start: u32) -> Result<(), AllocError> {
        let sight = self.left.sight;
        let (now, until) = (sight.scene.object(s), sight.plan.until());
        let due = now.active_at.saturating_add(start);
        if !now.is_active || now.is_cancelled || due <= until {
            return Ok(());
        }
        let name = sight.name_of_object(s);
        let text = format!(in self.alloc;
            "{name} is first due at {due} ms, after 'until' ({until} ms)"
        )?;
        self.add(self.left.places.line_of_object(s), text)
    }

    // That `until` cut a wait short.
    fn note_cut(&mut self, place: Place) -> Result<(), AllocError> {
        let sight = self.left.sight;
        let Some(act) = act_at(sight.plan, place.run, place.index) else {
            return Ok(());
        };
        let plan = sight.plan;
        let (words, until) = (ActWords { plan, act }, plan.until());
        let name = sight.name_of(place.run);
        let text = format!(in self.alloc;
            "the wait of {name}, {words}, was cut at 'until' ({until} ms)"
        )?;
        self.add(self.left.places.line_of(Some(place)), text)
    }

    // That a barrier of the queue would wait, in libdispatch, for the blocks of a queue beneath it too. The targets are those at the
    // end of the run.
    fn note_barrier(&mut self, q: Obj) -> Result<(), AllocError> {
        let sight = self.left.sight;
        if !has_barriers(sight.plan, q) {
            return Ok(());
        }
        let (Some(barrier), Some(other)) = (barrier_of(sight, q), used_beneath(sight, q)) else {
            return Ok(());
        };
        let name = sight.name_of_object(other);
        let text = format!(in self.alloc;
            "in libdispatch this barrier would also wait for the blocks of {name}"
        )?;
        self.add(
            self.left.places.line_of(sight.scene.block(barrier).by),
            text,
        )
    }
}

// The first block that was submitted to the queue as a barrier.
fn barrier_of(sight: Sight, q: Obj) -> Option<Blk> {
    for b in 0..sight.plan.blocks() {
        if sight.node_of(Blk(b)) == Some(q) && sight.scene.block(Blk(b)).is_barrier {
            return Some(Blk(b));
        }
    }
    None
}

// The queue beneath this one, and not this one itself, to which a block was submitted first, by the blocks' numbers.
fn used_beneath(sight: Sight, q: Obj) -> Option<Obj> {
    for b in 0..sight.plan.blocks() {
        if let Some(node) = sight.node_of(Blk(b)) {
            let is_queue = kind_of(sight.plan, node).is_queue();
            if node != q && is_queue && sight.is_beneath(node, q) {
                return Some(node);
            }
        }
    }
    None
}

// Why a block made no act.
fn maker_words(sight: Sight, b: Blk) -> &'static str {
    if sight.is_cancelled(b) {
        "was cancelled"
    } else if sight.is_submitted(b) {
        "has not come to that act"
    } else {
        "was never submitted either"
    }
}

// Why nothing is delivered of a source at which something is pending.
fn undelivered(alloc: Global, sight: Sight, s: Obj) -> Result<String, AllocError> {
    let name = sight.name_of_object(s);
    if sight.scene.object(s).is_cancelled {
        return format!(in alloc; "{name} is cancelled");
    }
    match (sight.bars_deliver(s), sight.held(s), sight.excluding(s)) {
        (Some(Why::NotFree), Some(o), _) => hold_words(alloc, sight, o),
        (Some(Why::Excluded), _, Some((o, run))) => {
            let (object, other) = (sight.name_of_object(o), sight.name_of(run));
            format!(in alloc; "{other} is open beneath {object}")
        }
        _ => String::from_str(alloc, "the run ended before"),
    }
}

// How objects, runs, acts and events are called.

use gcd_event::Event;
use gcd_plan::{Act, Blk, Kind, Obj, Plan, Run};
use std::fmt;

/// The name of an object; `?` where the plan has it not.
pub fn object_name(plan: &Plan, o: Obj) -> &str {
    if o.0 < plan.objects() {
        plan.name_of_obj(o)
    } else {
        "?"
    }
}

/// The name of a block.
pub fn block_name(plan: &Plan, b: Blk) -> &str {
    if b.0 < plan.blocks() {
        plan.name_of_blk(b)
    } else {
        "?"
    }
}

/// The name of a strip.
pub fn strip_name(plan: &Plan, a: u32) -> &str {
    match plan.strips().get(a as usize) {
        Some(strip) => strip.name.as_str(),
        None => "?",
    }
}

/// The blocks of a strip: the number of the first, and how many there are; none where the plan has it not.
pub fn strip_span(plan: &Plan, a: u32) -> (u32, u32) {
    match plan.strips().get(a as usize) {
        Some(strip) => (strip.first, strip.count),
        None => (0, 0),
    }
}

/// The name of a block or source.
pub fn run_name(plan: &Plan, run: Run) -> &str {
    match run {
        Run::Block(b) => block_name(plan, b),
        Run::Source(s) => object_name(plan, s),
    }
}

/// The kind of an object; that of `root` where the plan has it not.
pub fn kind_of(plan: &Plan, o: Obj) -> Kind {
    if o.0 < plan.objects() {
        plan.kind(o)
    } else {
        Kind::Concurrent
    }
}

/// What an object is, in words.
pub fn kind_words(kind: Kind) -> &'static str {
    match kind {
        Kind::Serial => "serial queue",
        Kind::Concurrent => "concurrent queue",
        Kind::Group => "group",
        Kind::Semaphore(_) => "semaphore",
        Kind::Add | Kind::Or | Kind::Replace => "source",
        Kind::Timer { .. } => "timer",
        Kind::Read => "read source",
    }
}

// The acts of a run; none where the plan has it not.
fn acts_of(plan: &Plan, run: Run) -> &[Act] {
    let known = match run {
        Run::Block(b) => b.0 < plan.blocks(),
        Run::Source(s) => s.0 < plan.objects(),
    };
    if known { plan.acts(run) } else { &[] }
}

/// The act of a run at an index; None where the plan has it not.
pub fn act_at(plan: &Plan, run: Run, index: u32) -> Option<Act> {
    acts_of(plan, run).get(index as usize).copied()
}

/// The acts of a run from an index on.
pub fn acts_from(plan: &Plan, run: Run, index: u32) -> &[Act] {
    acts_of(plan, run).get(index as usize..).unwrap_or(&[])
}

/// A word after the first one of an act or an event.
#[derive(Clone, Copy)]
pub enum Word {
    Nothing,
    Object(Obj),
    Block(Blk),
    Strip(u32),
    Number(u32),
    Code(u8),
}

// The first word and the words after it, as the plan names them.
fn write_words<W: fmt::Write>(
    f: &mut fmt::Formatter<W>,
    plan: &Plan,
    first: &str,
    words: &[Word],
) -> fmt::Result {
    f.write_str(first)?;
    for word in words {
        match *word {
            Word::Nothing => {}
            Word::Object(o) => write!(f, " {}", object_name(plan, o))?,
            Word::Block(b) => write!(f, " {}", block_name(plan, b))?,
            Word::Strip(a) => write!(f, " {}", strip_name(plan, a))?,
            Word::Number(number) => write!(f, " {number}")?,
            Word::Code(code) => write!(f, " M{code}")?,
        }
    }
    Ok(())
}

/// The first word of an act, and the words after it.
pub fn words_of_act(act: Act) -> (&'static str, [Word; 3]) {
    use Word::{Block, Nothing, Number, Object, Strip};
    match act {
        Act::Async(q, b) => ("async", [Object(q), Block(b), Nothing]),
        Act::Barrier(q, b) => ("barrier", [Object(q), Block(b), Nothing]),
        Act::Sync(q, b) => ("sync", [Object(q), Block(b), Nothing]),
        Act::BarrierSync(q, b) => ("barrier_sync", [Object(q), Block(b), Nothing]),
        Act::GroupAsync(g, q, b) => ("group_async", [Object(g), Object(q), Block(b)]),
        Act::Notify(g, q, b) => ("notify", [Object(g), Object(q), Block(b)]),
        Act::Enter(g) => ("enter", [Object(g), Nothing, Nothing]),
        Act::Leave(g) => ("leave", [Object(g), Nothing, Nothing]),
        Act::GroupWait(g) => ("group_wait", [Object(g), Nothing, Nothing]),
        Act::GroupWaitFor(g, ms) => ("group_wait_for", [Object(g), Number(ms), Nothing]),
        Act::Signal(s) => ("signal", [Object(s), Nothing, Nothing]),
        Act::Wait(s) => ("wait", [Object(s), Nothing, Nothing]),
        Act::WaitFor(s, ms) => ("wait_for", [Object(s), Number(ms), Nothing]),
        Act::Suspend(o) => ("suspend", [Object(o), Nothing, Nothing]),
        Act::Resume(o) => ("resume", [Object(o), Nothing, Nothing]),
        Act::Activate(o) => ("activate", [Object(o), Nothing, Nothing]),
        Act::Target(o, t) => ("target", [Object(o), Object(t), Nothing]),
        Act::Merge(s, value) => ("merge", [Object(s), Number(value), Nothing]),
        Act::Cancel(s) => ("cancel", [Object(s), Nothing, Nothing]),
        Act::Retain(o) => ("retain", [Object(o), Nothing, Nothing]),
        Act::Release(o) => ("release", [Object(o), Nothing, Nothing]),
        Act::Apply(q, a) => ("apply", [Object(q), Strip(a), Nothing]),
        Act::CancelBlock(b) => ("cancel_block", [Block(b), Nothing, Nothing]),
        Act::WaitBlock(b) => ("wait_block", [Block(b), Nothing, Nothing]),
        Act::NotifyBlock(b, q, c) => ("notify_block", [Block(b), Object(q), Block(c)]),
    }
}

/// The first and the last object that an act names; the same where it names one, and `root`, which is always there, where it names none.
pub fn objects_of(act: Act) -> (Obj, Obj) {
    let mut found = None;
    for word in words_of_act(act).1 {
        if let Word::Object(o) = word {
            found = match found {
                Some((first, _)) => Some((first, o)),
                None => Some((o, o)),
            };
        }
    }
    found.unwrap_or((Obj(0), Obj(0)))
}

/// An act as a script writes it.
#[derive(Clone, Copy)]
pub struct ActWords<'a> {
    pub plan: &'a Plan,
    pub act: Act,
}

impl<'a> fmt::Display for ActWords<'a> {
    fn fmt<W: fmt::Write>(&self, f: &mut fmt::Formatter<W>) -> fmt::Result {
        let (first, words) = words_of_act(self.act);
        write_words(f, self.plan, first, &words)
    }
}

/// The run of an event; None where it has none.
pub fn run_of(event: Event) -> Option<Run> {
    match event {
        Event::Start { blk, .. } | Event::Wake { blk, .. } => Some(Run::Block(blk)),
        Event::End { blk, .. } | Event::Expire { blk } => Some(Run::Block(blk)),
        Event::Accept { blk, .. } => Some(Run::Block(blk)),
        Event::Act { run, .. } | Event::Misuse { run, .. } => Some(run),
        Event::Deliver { src, .. } | Event::DeliverEnd { src, .. } => Some(Run::Source(src)),
        Event::Ready { src, .. } | Event::FeedEnd { src } => Some(Run::Source(src)),
        Event::Tick { .. } | Event::Halt | Event::Shut => None,
    }
}

/// An event in the words of journals.
#[derive(Clone, Copy)]
pub struct EventWords<'a> {
    pub plan: &'a Plan,
    pub event: Event,
}

// The first word of an event, and the words after it.
fn words_of_event(event: Event) -> (&'static str, [Word; 4]) {
    use Word::{Code, Nothing, Number};
    let worker = Number(u32::from(event.worker()));
    let run = match run_of(event) {
        Some(Run::Block(b)) => Word::Block(b),
        Some(Run::Source(s)) => Word::Object(s),
        None => Nothing,
    };
    match event {
        Event::Start { .. } => ("start", [worker, run, Nothing, Nothing]),
        Event::Act { index, .. } => ("act", [worker, run, Number(index), Nothing]),
        Event::Wake { .. } => ("wake", [worker, run, Nothing, Nothing]),
        Event::End { .. } => ("end", [worker, run, Nothing, Nothing]),
        Event::Deliver { .. } => ("deliver", [worker, run, Nothing, Nothing]),
        Event::DeliverEnd { .. } => ("deliver_end", [worker, run, Nothing, Nothing]),
        Event::Tick { at } => ("tick", [Number(at), Nothing, Nothing, Nothing]),
        Event::Ready { bytes, .. } => ("ready", [run, Number(bytes), Nothing, Nothing]),
        Event::FeedEnd { .. } => ("feed_end", [run, Nothing, Nothing, Nothing]),
        Event::Misuse { index, code, .. } => ("misuse", [worker, run, Number(index), Code(code)]),
        Event::Halt => ("halt", [Nothing; 4]),
        Event::Expire { .. } => ("expire", [run, Nothing, Nothing, Nothing]),
        Event::Accept { sender, .. } => {
            ("accept", [run, Number(u32::from(sender)), Nothing, Nothing])
        }
        Event::Shut => ("shut", [Nothing; 4]),
    }
}

impl<'a> fmt::Display for EventWords<'a> {
    fn fmt<W: fmt::Write>(&self, f: &mut fmt::Formatter<W>) -> fmt::Result {
        let (first, words) = words_of_event(self.event);
        write_words(f, self.plan, first, &words)
    }
}

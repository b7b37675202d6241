// What a run waits for, down to the cause.

use crate::naming::words_of_act;
use crate::sight::Sight;
use crate::waits::{awaited_words, hold_words, registered_words};
use gcd_plan::{Act, Blk, Obj, Reason, Run, Why};
use std::alloc::{AllocError, Global};

/// The most runs of a chain that are told.
const MAX_LINKS: usize = 16;

// What a run waits for: said in words, and by whom that may still come.
#[derive(Drop)]
struct Link {
    words: String,
    next: Option<Blk>,
}

// The words, which end in the name of the block that is waited for, where there is one.
fn linked(words: Result<String, AllocError>, next: Option<Blk>) -> Result<Link, AllocError> {
    let words = words?;
    Ok(Link { words, next })
}

// That no block but perhaps the one that waits has the act left, in words.
fn none_left(alloc: Global, sight: Sight, act: Act, b: Blk) -> Result<String, AllocError> {
    let (step, _) = words_of_act(act);
    if sight.has_left(b, act) {
        return format!(in alloc; "only {} itself has a {step} left", sight.name_of_block(b));
    }
    format!(in alloc; "no {step} is left to come")
}

// The block that may still bring what the parked one waits for, and the words before its name.
fn bringer(sight: Sight, reason: Reason, b: Blk) -> (&'static str, Option<Blk>) {
    match reason {
        Reason::Block(other) => ("", Some(other)),
        Reason::Strip(a) => ("", sight.left_of_strip(a).0),
        Reason::Rank(s, _) => ("a signal by ", sight.signaller(s, b)),
        Reason::Group(g, _) => match sight.member(g) {
            Some(member) => ("", Some(member)),
            None => ("a leave by ", sight.left_to(Act::Leave(g), b)),
        },
    }
}

// Waits for its turn at a semaphore that no other block signals.
fn for_nobody(alloc: Global, sight: Sight, s: Obj, b: Blk) -> Result<String, AllocError> {
    let (name, first, now) = (
        sight.name_of_object(s),
        sight.first_value(s),
        sight.scene.object(s),
    );
    let (signals, waits) = (now.signals, now.waits);
    let left = none_left(alloc, sight, Act::Signal(s), b)?;
    format!(in alloc;
        "waits for semaphore {name}: first value {first}, signals {signals}, waits {waits}, and {left}"
    )
}

// What the block, which is parked, waits for.
fn parked(alloc: Global, sight: Sight, reason: Reason, b: Blk) -> Result<Link, AllocError> {
    let (how, next) = bringer(sight, reason, b);
    let block = sight.name_of_block(next.unwrap_or(b));
    let words = match reason {
        Reason::Block(_) => format!(in alloc; "waits for {block}"),
        Reason::Rank(s, _) if next.is_none() => for_nobody(alloc, sight, s, b),
        Reason::Rank(s, _) => {
            let name = sight.name_of_object(s);
            format!(in alloc; "waits for semaphore {name}, and so for {how}{block}")
        }
        Reason::Strip(a) if next.is_none() => {
            format!(in alloc; "waits for strip {}", sight.name_of_strip(a))
        }
        Reason::Group(g, _) if next.is_none() => {
            let what = awaited_words(alloc, sight, reason)?;
            let left = none_left(alloc, sight, Act::Leave(g), b)?;
            format!(in alloc; "waits for {what}: {left}")
        }
        Reason::Strip(_) | Reason::Group(..) => {
            let what = awaited_words(alloc, sight, reason)?;
            format!(in alloc; "waits for {what}, and so for {how}{block}")
        }
    };
    linked(words, next)
}

// The block that has the act left: another than the one that waits, if there is one.
fn maker(sight: Sight, act: Act, b: Blk) -> Option<Blk> {
    match sight.left_to(act, b) {
        None if sight.has_left(b, act) => Some(b),
        other => other,
    }
}

// What would free the object for the block, which waits: a step of a block, in words that end in its name.
fn freeing(sight: Sight, o: Obj, b: Blk) -> Option<(&'static str, Blk)> {
    let now = sight.scene.object(o);
    if now.holds == 0 && now.is_active {
        return Some(("the end of", sight.open_on(o)?));
    }
    if now.holds == 0 {
        if let Some(by) = maker(sight, Act::Activate(o), b) {
            return Some(("an activate by", by));
        }
    }
    Some(("a resume by", maker(sight, Act::Resume(o), b)?))
}

// Waits on a node of which an object of the chain is not free.
fn not_free(alloc: Global, sight: Sight, node: Obj, b: Blk) -> Result<Link, AllocError> {
    let name = sight.name_of_object(node);
    let Some(held) = sight.held(node) else {
        return linked(
            format!(in alloc; "waits on {name}, which is not free"),
            None,
        );
    };
    let hold = hold_words(alloc, sight, held)?;
    let Some((step, by)) = freeing(sight, held, b) else {
        return linked(format!(in alloc; "waits on {name}: {hold}"), None);
    };
    let block = sight.name_of_block(by);
    let words = format!(in alloc; "waits on {name}: {hold} until {step} {block}");
    linked(words, Some(by))
}

// Waits for the end of a run beneath a serial queue or source.
fn excluded(alloc: Global, sight: Sight, node: Obj) -> Result<Link, AllocError> {
    let name = sight.name_of_object(node);
    let Some((o, run)) = sight.excluding(node) else {
        return linked(format!(in alloc; "waits on {name}, which is taken"), None);
    };
    let (kind, object, other) = (
        sight.kind_of(o),
        sight.name_of_object(o),
        sight.name_of(run),
    );
    let next = match run {
        Run::Block(b) => Some(b),
        Run::Source(_) => None,
    };
    linked(
        format!(in alloc; "waits at the {kind} {object} for the end of {other}"),
        next,
    )
}

// Waits for the end of a run on its concurrent queue.
fn fenced(alloc: Global, sight: Sight, node: Obj) -> Result<Link, AllocError> {
    let (name, next) = (sight.name_of_object(node), sight.open_on(node));
    let Some(other) = next else {
        return linked(format!(in alloc; "waits on {name}, which is fenced"), None);
    };
    let block = sight.name_of_block(other);
    let is_barrier = sight.scene.block(other).is_barrier;
    let what = if is_barrier { "the barrier " } else { "" };
    let words = format!(in alloc;
        "waits on the concurrent queue {name} for the end of {what}{block}"
    );
    linked(words, next)
}

// Waits for an earlier block of its node.
fn behind(alloc: Global, sight: Sight, node: Obj) -> Result<Link, AllocError> {
    let (name, next) = (sight.name_of_object(node), sight.first_waiting(node));
    match next {
        Some(first) => {
            let block = sight.name_of_block(first);
            linked(format!(in alloc; "waits on {name} behind {block}"), next)
        }
        None => linked(format!(in alloc; "waits on {name}"), None),
    }
}

// What a block that is submitted and has not started waits for.
fn unstarted(alloc: Global, sight: Sight, b: Blk) -> Result<Link, AllocError> {
    let Some(node) = sight.node_of(b) else {
        return not_submitted(alloc, sight, b);
    };
    match sight.bars_start(b) {
        Some(Why::Behind) => behind(alloc, sight, node),
        Some(Why::NotFree) => not_free(alloc, sight, node, b),
        Some(Why::Excluded) => excluded(alloc, sight, node),
        Some(Why::Fenced) => fenced(alloc, sight, node),
        _ => linked(String::from_str(alloc, "may start"), None),
    }
}

// What a block that is not submitted waits for.
fn not_submitted(alloc: Global, sight: Sight, b: Blk) -> Result<Link, AllocError> {
    if b.0 == 0 {
        return linked(String::from_str(alloc, "may start"), None);
    }
    let now = sight.scene.block(b);
    if let (None, Some(first)) = (now.notify, now.after) {
        let name = sight.name_of_block(first);
        let words = format!(in alloc; "is not submitted before the end of {name}");
        return linked(words, now.after);
    }
    match registered_words(alloc, sight, b)? {
        Some(delay) => linked(format!(in alloc; "is not submitted: {delay}"), None),
        None => linked(String::from_str(alloc, "is not submitted"), None),
    }
}

// What a block waits for.
fn cause(alloc: Global, sight: Sight, b: Blk) -> Result<Link, AllocError> {
    if let Some(reason) = sight.awaited(b) {
        return parked(alloc, sight, reason, b);
    }
    if sight.is_ended(b) {
        return linked(String::from_str(alloc, "has ended"), None);
    }
    if sight.is_started(b) {
        return linked(String::from_str(alloc, "is open"), None);
    }
    unstarted(alloc, sight, b)
}

// Where a chain of waits ends.
#[derive(Clone, Copy, PartialEq, Eq)]
enum End {
    /// At something that waits for no block.
    Cause,
    /// At its block of this place, from 0, so that those from there on wait for each other.
    Cycle(usize),
    /// Nowhere among the first runs.
    Later,
}

// The blocks from this one on of which each waits for the next, what is said of each, and where they end.
fn chain_from(
    alloc: Global,
    sight: Sight,
    b: Blk,
) -> Result<(Vec<Blk>, Vec<String>, End), AllocError> {
    let (mut blocks, mut words) = (Vec::new(alloc), Vec::new(alloc));
    let (mut end, mut next) = (End::Later, Some(b));
    for _ in 0..=MAX_LINKS {
        let Some(block) = next else {
            end = End::Cause;
            break;
        };
        if let Some(place) = blocks.iter().position(|other| *other == block) {
            end = End::Cycle(place);
            break;
        }
        if blocks.len() >= MAX_LINKS {
            break;
        }
        let link = cause(alloc, sight, block)?;
        blocks.push(block)?;
        words.push(link.words)?;
        next = link.next;
    }
    Ok((blocks, words, end))
}

// Whether a sentence of its own tells what the block waits for: it is parked, or submitted and not started.
fn is_told(sight: Sight, b: Blk) -> bool {
    sight.awaited(b).is_some() || (!sight.is_started(b) && sight.is_submitted(b))
}

/// What the blocks of a run wait for. Each cycle is told once.
#[derive(Drop)]
pub struct Blame {
    alloc: Global,
    // The blocks of the cycles that were told.
    told: Vec<Blk>,
}

impl Blame {
    /// Nothing is told yet.
    pub fn new(alloc: Global) -> Blame {
        Blame {
            alloc,
            told: Vec::new(alloc),
        }
    }

    /// What the block waits for, and what that waits for, down to the cause: `b1 waits for b2, which ..`. None if the block is in a
    /// cycle that was told. Of a block that only leads to a cycle it says so, since a block of the cycle tells the cycle itself. It
    /// tells at most 16 runs. An `Err` comes only where memory runs out.
    pub fn chain(&mut self, sight: Sight, b: Blk) -> Result<Option<String>, AllocError> {
        if self.told.contains(&b) {
            return Ok(None);
        }
        let (blocks, words, end) = chain_from(self.alloc, sight, b)?;
        let (count, tail) = match end {
            End::Cause => (words.len(), ""),
            End::Later => (words.len(), ", .."),
            End::Cycle(place) => self.around(sight, &blocks, place)?,
        };
        let first = words.get(..count).unwrap_or(&[]);
        let (name, said) = (sight.name_of_block(b), first.join(self.alloc, ", which ")?);
        Ok(Some(format!(in self.alloc; "{name} {said}{tail}")?))
    }

    // Of blocks that end in a cycle from this place on: of how many to tell, and what follows.
    fn around(
        &mut self,
        sight: Sight,
        blocks: &[Blk],
        place: usize,
    ) -> Result<(usize, &'static str), AllocError> {
        let members = blocks.get(place..).unwrap_or(&[]);
        let told = self.told.as_slice();
        let is_elsewhere = members
            .iter()
            .any(|member| is_told(sight, *member) || told.contains(member));
        if place > 0 && is_elsewhere {
            return Ok((place, ", which is in a cycle"));
        }
        for member in members {
            self.told.push(*member)?;
        }
        Ok((blocks.len(), ": a cycle"))
    }
}

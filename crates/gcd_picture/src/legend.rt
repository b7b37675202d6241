// What the colours and signs of a page mean.

use crate::drawing::Drawing;
use crate::naming::object_name;
use crate::swatches::{Pen, push_entry};
use gcd_event::Event;
use gcd_plan::{Obj, Plan};
use std::alloc::{AllocError, Global};

// How many nodes are named at most.
const NAMED: usize = 40;

// The name of a node, and of its target where that is not `root`.
fn node_words(alloc: Global, plan: &Plan, queue: Obj) -> Result<String, AllocError> {
    let name = object_name(plan, queue);
    if queue.0 < plan.objects() {
        let target = plan.first_target(queue);
        if target.0 != 0 {
            let target = object_name(plan, target);
            return format!(in alloc; "{name} on {target}");
        }
    }
    String::from_str(alloc, name)
}

// Whether each object has a bar.
fn used(alloc: Global, drawing: Drawing) -> Result<Vec<bool>, AllocError> {
    let mut used = vec![in alloc; false; drawing.showing.plan.objects() as usize]?;
    for bar in drawing.bars {
        if let Some(node) = bar.node {
            if let Some(entry) = used.get_mut(node.0 as usize) {
                *entry = true;
            }
        }
    }
    Ok(used)
}

// A swatch in the colour of a node, or of none, and its words.
fn push_node(
    alloc: Global,
    into: &mut String,
    drawing: Drawing,
    pen: &mut Pen,
    node: Option<Obj>,
    words: &str,
) -> Result<(), AllocError> {
    let fill = drawing.palette.of(node);
    let swatch = format!(in alloc;
        "<rect class=\"block\" width=\"20\" height=\"14\" rx=\"2\" fill=\"{fill}\"/>"
    )?;
    push_entry(into, pen, drawing.frame.texts(), swatch.as_str(), words)
}

// The nodes that have bars, each with its colour, and before them the colour of bars on none.
fn push_nodes(
    alloc: Global,
    into: &mut String,
    drawing: Drawing,
    pen: &mut Pen,
) -> Result<(), AllocError> {
    let plan = drawing.showing.plan;
    if drawing.bars.iter().any(|bar| bar.node.is_none()) {
        push_node(alloc, into, drawing, pen, None, "main, on no queue")?;
    }
    let used = used(alloc, drawing)?;
    let mut named = 0usize;
    for o in 0..plan.objects() {
        if named < NAMED && used.get(o as usize).copied().unwrap_or(false) {
            let words = node_words(alloc, plan, Obj(o))?;
            push_node(alloc, into, drawing, pen, Some(Obj(o)), words.as_str())?;
            named = named.saturating_add(1);
        }
    }
    Ok(())
}

// A sign of a page.
#[derive(Clone, Copy, PartialEq, Eq)]
enum Sign {
    Barrier,
    Delivery,
    Parked,
    Still,
    NotEnded,
    Tick,
    Feed,
    Expiry,
    Misuse,
    Halt,
    Cancelled,
    Job,
}

// How each sign looks, and what it means.
static KEY: [(Sign, &str, &str); 12] = [
    (
        Sign::Barrier,
        "<rect class=\"barrier\" width=\"20\" height=\"14\" rx=\"2\" fill=\"#fff\"/>",
        "barrier",
    ),
    (
        Sign::Delivery,
        "<rect class=\"delivery\" width=\"20\" height=\"14\" rx=\"7\" fill=\"#fff\"/>",
        "delivery",
    ),
    (
        Sign::Parked,
        "<path class=\"parked\" d=\"M0 7H20\"/>",
        "parked, for what",
    ),
    (
        Sign::Still,
        "<path class=\"parked still\" d=\"M0 7H20\"/>",
        "parked to the end",
    ),
    (
        Sign::NotEnded,
        "<rect class=\"block open\" width=\"20\" height=\"14\" rx=\"2\" fill=\"#fff\"/>",
        "not ended",
    ),
    (Sign::Tick, "<path class=\"tick\" d=\"M10 0V14\"/>", "tick"),
    (Sign::Feed, "<path class=\"ready\" d=\"M10 0V14\"/>", "feed"),
    (
        Sign::Expiry,
        "<path class=\"expiry\" d=\"M10 0V14\"/>",
        "wait expired",
    ),
    (
        Sign::Misuse,
        "<path class=\"misuse\" d=\"M10 7m-7 -7l14 14m0 -14l-14 14\"/>",
        "misuse",
    ),
    (Sign::Halt, "<path class=\"halt\" d=\"M10 0V14\"/>", "halt"),
    (
        Sign::Cancelled,
        "<rect class=\"cancelled\" width=\"20\" height=\"14\" rx=\"2\" fill=\"#555\"/>",
        "cancelled",
    ),
    (
        Sign::Job,
        "<path class=\"accept\" d=\"M10 0V14\"/>",
        "job from outside",
    ),
];

// Whether a bar of this kind is on the page.
fn has_kind(drawing: Drawing, kind: &str) -> bool {
    drawing.bars.iter().any(|bar| bar.kind() == kind)
}

// Whether a parked time is drawn that leads to a later bar, or else one that does not.
fn has_parked(drawing: Drawing, is_woken: bool) -> bool {
    let events = drawing.showing.events.len();
    drawing.bars.iter().enumerate().any(|(number, bar)| {
        let is_drawn = drawing.parking.row(number).is_some();
        match bar.parked {
            Some((_, next)) => is_drawn && (next < events) == is_woken,
            None => false,
        }
    })
}

// The sign of an event that is drawn over the lanes.
fn sign_of(event: Event) -> Option<Sign> {
    match event {
        Event::Tick { .. } => Some(Sign::Tick),
        Event::Ready { .. } | Event::FeedEnd { .. } => Some(Sign::Feed),
        Event::Expire { .. } => Some(Sign::Expiry),
        Event::Misuse { .. } => Some(Sign::Misuse),
        Event::Halt => Some(Sign::Halt),
        Event::Accept { .. } | Event::Shut => Some(Sign::Job),
        Event::Start { .. } | Event::Act { .. } | Event::Wake { .. } | Event::End { .. } => None,
        Event::Deliver { .. } | Event::DeliverEnd { .. } => None,
    }
}

// Whether a sign is on the page.
fn is_used(drawing: Drawing, sign: Sign) -> bool {
    let events = drawing.showing.events;
    match sign {
        Sign::Barrier => has_kind(drawing, "barrier"),
        Sign::Delivery => has_kind(drawing, "delivery"),
        Sign::Cancelled => has_kind(drawing, "cancelled"),
        Sign::Parked => has_parked(drawing, true),
        Sign::Still => has_parked(drawing, false),
        Sign::NotEnded => drawing.bars.iter().any(|bar| bar.to >= events.len()),
        Sign::Tick | Sign::Feed | Sign::Expiry | Sign::Misuse | Sign::Halt | Sign::Job => {
            events
                .iter()
                .any(|entry| sign_of(entry.event()) == Some(sign))
        }
    }
}

// What each sign on the page means.
fn push_signs(into: &mut String, drawing: Drawing, pen: &mut Pen) -> Result<(), AllocError> {
    for (sign, swatch, words) in &KEY {
        if is_used(drawing, *sign) {
            push_entry(into, pen, drawing.frame.texts(), swatch, words)?;
        }
    }
    Ok(())
}

/// Adds the key to the colours and signs that are on the page, from this height on, and returns the height of the page.
pub fn push_legend(
    alloc: Global,
    into: &mut String,
    drawing: Drawing,
    top: u64,
) -> Result<u64, AllocError> {
    let mut pen = Pen::at(top);
    push_nodes(alloc, into, drawing, &mut pen)?;
    pen.end_line();
    push_signs(into, drawing, &mut pen)?;
    pen.end_line();
    Ok(pen.y.saturating_add(4))
}

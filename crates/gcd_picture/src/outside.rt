// What came from the outside, and what ended the run.

use crate::drawing::Drawing;
use crate::escape::push_xml;
use crate::frame::text_width;
use crate::naming::{feed_path, misuse_text, object_name, run_name};
use crate::rows::Rows;
use crate::scale::Tenths;
use gcd_event::Event;
use gcd_plan::{Plan, Run};
use std::alloc::{AllocError, Global};
use std::fmt::Write;

// What is written of an event of the outside or a misuse, and the class of its line.
fn words_of(
    alloc: Global,
    plan: &Plan,
    event: Event,
) -> Result<Option<(&'static str, String)>, AllocError> {
    match event {
        Event::Tick { at } => Ok(Some(("tick", format!(in alloc; "{at} ms")?))),
        Event::Ready { src, bytes } => {
            let name = object_name(plan, src);
            Ok(Some(("ready", format!(in alloc; "{name}: {bytes} bytes")?)))
        }
        Event::FeedEnd { src } => {
            let name = object_name(plan, src);
            Ok(Some(("ready", format!(in alloc; "{name} ends")?)))
        }
        Event::Halt => Ok(Some(("halt", String::from_str(alloc, "halt")?))),
        Event::Expire { blk } => {
            let name = run_name(plan, Run::Block(blk));
            Ok(Some(("expiry", format!(in alloc; "{name}: time is up")?)))
        }
        Event::Accept { blk, sender } => {
            let name = run_name(plan, Run::Block(blk));
            Ok(Some(("accept", format!(in alloc; "{name} from sender {sender}")?)))
        }
        Event::Shut => Ok(Some(("accept", String::from_str(alloc, "intake shut")?))),
        Event::Misuse {
            run,
            index,
            code,
            ..
        } => {
            let words = misuse_text(alloc, plan, run, index, code)?;
            Ok(Some(("misuse", words)))
        }
        Event::Start { .. } | Event::Act { .. } | Event::Wake { .. } | Event::End { .. } => Ok(
            None,
        ),
        Event::Deliver { .. } | Event::DeliverEnd { .. } => Ok(None),
    }
}

// The path of the feed that the event is about.
fn path_of(plan: &Plan, event: Event) -> &str {
    match event {
        Event::Ready { src, .. } => feed_path(plan, src),
        Event::FeedEnd { src } => feed_path(plan, src),
        Event::Start { .. } | Event::Act { .. } | Event::Wake { .. } | Event::End { .. } => "",
        Event::Deliver { .. } | Event::DeliverEnd { .. } | Event::Misuse { .. } => "",
        Event::Tick { .. } | Event::Halt | Event::Expire { .. } => "",
        Event::Accept { .. } | Event::Shut => "",
    }
}

// Words in the rows of the outside, where there is room: to the right of their line, and at the page's edge to its left.
fn push_words(
    into: &mut String,
    drawing: Drawing,
    place: usize,
    class: &str,
    words: &str,
    rows: &mut Rows,
) -> Result<(), AllocError> {
    let width = text_width(words).plus(text_width(" "));
    let most = Tenths::pixels(drawing.frame.width()).minus(width);
    let x = Tenths(drawing.frame.scale.at(place).0.min(most.0));
    if let Some(row) = rows.take(0, x, x.plus(width)) {
        let y = drawing.frame.outside_row(row);
        write!(into, "<text class=\"{class}\" x=\"{x}\" y=\"{y}\">")?;
        push_xml(into, words)?;
        into.push_str("</text>\n")?;
    }
    Ok(())
}

// A line down all lanes, with what is told of it when it is pointed at.
fn push_outside(
    into: &mut String,
    drawing: Drawing,
    place: usize,
    event: Event,
    class: &str,
    words: &str,
) -> Result<(), AllocError> {
    let x = drawing.frame.scale.at(place);
    let (top, bottom) = (
        drawing.frame.top().saturating_sub(8),
        drawing.frame.bottom(),
    );
    write!(
        into,
        "<path class=\"{class}\" d=\"M{x} {top}V{bottom}\"><title>event {place}: "
    )?;
    push_xml(into, words)?;
    into.push_str(" ")?;
    push_xml(into, path_of(drawing.showing.plan, event))?;
    into.push_str("</title></path>\n")
}

/// Adds the lines of ticks, of what came on feeds, of jobs from outside, of waits that expired and of a halt, and their words.
pub fn push_marks(alloc: Global, into: &mut String, drawing: Drawing) -> Result<(), AllocError> {
    let mut rows = Rows::new(alloc, 1)?;
    for (place, entry) in drawing.showing.events.iter().enumerate() {
        let event = entry.event();
        if let Some((class, words)) = words_of(alloc, drawing.showing.plan, event)? {
            let words = words.as_str();
            if class != "misuse" {
                push_outside(into, drawing, place, event, class, words)?;
            }
            push_words(into, drawing, place, class, words, &mut rows)?;
        }
    }
    Ok(())
}

/// Adds a cross over its bar where a misuse ended the run.
pub fn push_misuse(alloc: Global, into: &mut String, drawing: Drawing) -> Result<(), AllocError> {
    let events = drawing.showing.events;
    let Some(last) = events.last() else {
        return Ok(());
    };
    let event = last.event();
    let Event::Misuse { worker, .. } = event else {
        return Ok(());
    };
    let place = events.len().saturating_sub(1);
    let x = drawing.frame.scale.at(place);
    let y = drawing.frame.bars(worker as usize).saturating_sub(11);
    write!(
        into,
        "<path class=\"misuse\" d=\"M{x} {y}m-8 -8l16 16m0 -16l-16 16\"><title>event {place}: "
    )?;
    if let Some((_, words)) = words_of(alloc, drawing.showing.plan, event)? {
        push_xml(into, words.as_str())?;
    }
    into.push_str("</title></path>\n")
}

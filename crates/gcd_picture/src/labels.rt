// The names of bars, and what parked runs wait for: each where it has room, cut to its room, or left to what is told where the bar
// or line is pointed at.

use crate::bars::Bar;
use crate::drawing::Drawing;
use crate::escape::{push_xml, push_xml_char};
use crate::frame::{LETTER, text_width};
use crate::lanes::{bar_width, is_thin};
use crate::naming::{awaited_text, run_name};
use crate::rows::Rows;
use crate::scale::Tenths;
use crate::verticals::Verticals;
use gcd_event::{Entry, Event};
use gcd_plan::Run;
use std::alloc::{AllocError, Global};
use std::fmt::Write;

// The fewest letters to which a text is cut, without the two points that stand for the rest.
const FEWEST: u64 = 5;

// The letters of what a run waits for are smaller: tenths of a pixel.
const SMALL: u64 = 61;

// How many letters of a name have room.
fn letters_in(room: Tenths) -> u64 {
    room.0 / (LETTER * 10)
}

// Adds a text, cut to so many letters: nothing where they are too few.
fn push_cut(
    into: &mut String,
    class: &str,
    text: &str,
    x: Tenths,
    y: u64,
    letters: u64,
) -> Result<(), AllocError> {
    let is_whole = text.len() as u64 <= letters;
    if !is_whole && letters < FEWEST + 2 {
        return Ok(());
    }
    write!(into, "<text class=\"{class}\" x=\"{x}\" y=\"{y}\">")?;
    if is_whole {
        push_xml(into, text)?;
    } else {
        let mut cut = 2u64;
        for c in text.chars() {
            if cut < letters {
                push_xml_char(into, c)?;
                cut = cut.saturating_add(1);
            }
        }
        into.push_str("..")?;
    }
    into.push_str("</text>\n")
}

// The name of a bar that is too narrow for it: above the bar, in a row that has room.
fn push_above(
    into: &mut String,
    drawing: Drawing,
    bar: &Bar,
    rows: &mut Rows,
    verticals: &mut Verticals,
) -> Result<(), AllocError> {
    let lane = bar.worker as usize;
    let name = run_name(drawing.showing.plan, bar.run);
    let x = drawing.frame.scale.at(bar.from);
    let edge = Tenths::pixels(drawing.frame.width());
    let clear = verticals.above(lane, x).unwrap_or(edge);
    let room = clear.minus(x).minus(Tenths::pixels(4));
    let taken = Tenths(text_width(name).0.min(room.0));
    if room.0 < text_width(name).0 && room.0 < (FEWEST + 2) * LETTER * 10 {
        return Ok(());
    }
    match rows.take(lane, x, x.plus(taken).plus(Tenths::pixels(6))) {
        Some(row) => {
            let y = drawing.frame.names(lane, row);
            push_cut(
                into,
                "above",
                name,
                x.plus(Tenths::pixels(1)),
                y,
                letters_in(room),
            )
        }
        None => Ok(()),
    }
}

// The name of a bar: within it where it is wide enough, and else above it.
fn push_name(
    into: &mut String,
    drawing: Drawing,
    bar: &Bar,
    rows: &mut Rows,
    verticals: &mut Verticals,
) -> Result<(), AllocError> {
    let name = run_name(drawing.showing.plan, bar.run);
    let width = bar_width(drawing, bar);
    let within = match bar.run {
        Run::Block(_) => width.minus(Tenths::pixels(6)),
        Run::Source(_) => width.minus(Tenths::pixels(12)),
    };
    if text_width(name).0 <= within.0 {
        let inset = match bar.run {
            Run::Block(_) => 3,
            Run::Source(_) => 6,
        };
        let x = drawing.frame.scale.at(bar.from).plus(Tenths::pixels(inset));
        let y = drawing.frame.bars(bar.worker as usize).saturating_add(14);
        return push_cut(into, "name", name, x, y, letters_in(within));
    }
    if is_thin(width) {
        return Ok(());
    }
    push_above(into, drawing, bar, rows, verticals)
}

// What a parked run waits for, over its line: up to the line's end, or to where the next line of the lane crosses.
fn push_wait(
    alloc: Global,
    into: &mut String,
    drawing: Drawing,
    number: usize,
    bar: &Bar,
    verticals: &mut Verticals,
) -> Result<(), AllocError> {
    let (events, frame) = (drawing.showing.events, drawing.frame);
    let (Some((_, next)), Some(event)) = (bar.parked, events.get(bar.to)) else {
        return Ok(());
    };
    let Some(row) = drawing.parking.row(number) else {
        return Ok(());
    };
    let x = frame.scale.at(bar.to);
    let edge = Tenths::pixels(frame.width());
    let end = if next < events.len() {
        frame.scale.at(next)
    } else {
        edge
    };
    let lane = bar.worker as usize;
    let clear = verticals.beneath(lane, x, row).unwrap_or(edge);
    let room = Tenths(end.0.min(clear.0)).minus(x).minus(Tenths::pixels(4));
    let awaited = awaited_text(alloc, drawing.showing.plan, event.event())?;
    let awaited = awaited.as_str();
    let wait = format!(in alloc; "for {awaited}")?;
    let y = frame.row(lane, row).saturating_sub(3);
    let x = x.plus(Tenths::pixels(4));
    push_cut(into, "wait", wait.as_str(), x, y, room.0 / SMALL)
}

// The worker whose misuse ended the run.
fn misused_by(events: &[Entry]) -> Option<u8> {
    match events.last()?.event() {
        Event::Misuse { worker, .. } => Some(worker),
        _ => None,
    }
}

/// Adds the names of the bars, and what the parked runs wait for.
pub fn push_labels(alloc: Global, into: &mut String, drawing: Drawing) -> Result<(), AllocError> {
    let (frame, events) = (drawing.frame, drawing.showing.events.len());
    let mut rows = Rows::new(alloc, frame.lanes)?;
    let mut verticals = Verticals::new(alloc, drawing)?;
    // The cross of a misuse is eight pixels wide to each side.
    if let Some(worker) = misused_by(drawing.showing.events) {
        let x = frame.scale.at(events.saturating_sub(1));
        verticals.end_above(worker as usize, x.minus(Tenths::pixels(9)))?;
    }
    for (number, bar) in drawing.bars.iter().enumerate() {
        push_name(into, drawing, bar, &mut rows, &mut verticals)?;
        push_wait(alloc, into, drawing, number, bar, &mut verticals)?;
    }
    Ok(())
}

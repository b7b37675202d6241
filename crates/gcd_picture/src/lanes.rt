// The bars of runs, and the lines of parked times, on the lanes of their workers.

use crate::bars::Bar;
use crate::drawing::Drawing;
use crate::escape::push_xml;
use crate::frame::BAR;
use crate::naming::{awaited_text, node_name, run_name};
use crate::scale::Tenths;
use gcd_event::Entry;
use gcd_plan::{Plan, Run};
use std::alloc::{AllocError, Global};
use std::fmt::Write;

// What is told of a bar when it is pointed at.
fn push_title(into: &mut String, drawing: Drawing, bar: &Bar) -> Result<(), AllocError> {
    let plan = drawing.showing.plan;
    let (kind, worker, from, to) = (bar.kind(), bar.worker, bar.from, bar.to);
    let line = drawing.showing.lines.of_run(bar.run);
    into.push_str("<title>")?;
    push_xml(into, run_name(plan, bar.run))?;
    write!(into, ", {kind} on ")?;
    push_xml(into, node_name(plan, bar.node))?;
    write!(into, ", worker {worker}, events {from} to {to}")?;
    if line > 0 {
        write!(into, ", line {line}")?;
    }
    into.push_str("</title>")
}

/// Whether a bar is so narrow that a whole edge would hide its colour: below four pixels.
pub fn is_thin(width: Tenths) -> bool {
    width.0 < 40
}

/// The width of a bar.
pub fn bar_width(drawing: Drawing, bar: &Bar) -> Tenths {
    let scale = &drawing.frame.scale;
    Tenths(scale.at(bar.to).minus(scale.at(bar.from)).0.max(5))
}

// Whether nothing gives the run of a bar back.
fn openness(bar: &Bar, events: &[Entry]) -> &'static str {
    if bar.to >= events.len() { " open" } else { "" }
}

// The bar of a stretch.
fn push_bar(into: &mut String, drawing: Drawing, bar: &Bar) -> Result<(), AllocError> {
    let x = drawing.frame.scale.at(bar.from);
    let width = bar_width(drawing, bar);
    let y = drawing.frame.bars(bar.worker as usize);
    let (kind, state) = (bar.kind(), openness(bar, drawing.showing.events));
    let thin = if is_thin(width) { " thin" } else { "" };
    let fill = drawing.palette.of(bar.node);
    let round = match bar.run {
        Run::Block(_) => 2,
        Run::Source(_) => 10,
    };
    write!(
        into,
        "<rect class=\"{kind}{state}{thin}\" x=\"{x}\" y=\"{y}\" width=\"{width}\" height=\"{BAR}\" rx=\"{round}\" fill=\"{fill}\">"
    )?;
    push_title(into, drawing, bar)?;
    into.push_str("</rect>\n")
}

// The path of a parked time: down from the bar that ends in it, along its row, and to the bar that goes on or, if none does, to the
// edge of the lane.
fn push_path(
    into: &mut String,
    drawing: Drawing,
    bar: &Bar,
    row: u64,
    worker: u8,
    next: usize,
) -> Result<(), AllocError> {
    let frame = drawing.frame;
    let lane = bar.worker as usize;
    let (x, until) = (frame.scale.at(bar.to), frame.scale.at(next));
    let (from, y) = (frame.bars(lane).saturating_add(BAR), frame.row(lane, row));
    if next >= drawing.showing.events.len() {
        let edge = frame.scale.right();
        return write!(
            into,
            "<path class=\"parked still\" d=\"M{x} {from}V{y}H{edge}\">"
        );
    }
    // From below it comes to the bottom of the bar, and from above to its top.
    let bar_top = frame.bars(worker as usize);
    let end = if lane < worker as usize {
        bar_top
    } else {
        bar_top.saturating_add(BAR)
    };
    write!(
        into,
        "<path class=\"parked\" d=\"M{x} {from}V{y}H{until}V{end}\">"
    )
}

// What is told of a parked time: the run, what it waits for, and that it never went on, where it did not.
fn push_told(
    into: &mut String,
    plan: &Plan,
    bar: &Bar,
    awaited: &str,
    is_woken: bool,
) -> Result<(), AllocError> {
    into.push_str("<title>")?;
    push_xml(into, run_name(plan, bar.run))?;
    into.push_str(" waits for ")?;
    push_xml(into, awaited)?;
    if !is_woken {
        into.push_str(", and has not gone on")?;
    }
    into.push_str("</title></path>\n")
}

// The line of the parked time after the bar of this number, if there is one and it has a row.
fn push_parked(
    alloc: Global,
    into: &mut String,
    drawing: Drawing,
    number: usize,
    bar: &Bar,
) -> Result<(), AllocError> {
    let (events, plan) = (drawing.showing.events, drawing.showing.plan);
    let (Some((worker, next)), Some(event)) = (bar.parked, events.get(bar.to)) else {
        return Ok(());
    };
    let Some(row) = drawing.parking.row(number) else {
        return Ok(());
    };
    push_path(into, drawing, bar, row, worker, next)?;
    let awaited = awaited_text(alloc, plan, event.event())?;
    push_told(into, plan, bar, awaited.as_str(), next < events.len())
}

/// Adds the lines of parked times, and over them the bars.
pub fn push_lanes(alloc: Global, into: &mut String, drawing: Drawing) -> Result<(), AllocError> {
    for (number, bar) in drawing.bars.iter().enumerate() {
        push_parked(alloc, into, drawing, number, bar)?;
    }
    for bar in drawing.bars {
        push_bar(into, drawing, bar)?;
    }
    Ok(())
}

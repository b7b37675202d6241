// The picture of a run, as an SVG page.

use crate::bars::bars_of;
use crate::drawing::Drawing;
use crate::ending::push_ending;
use crate::frame::{BAR, Frame, REPEAT, lanes_of};
use crate::labels::push_labels;
use crate::lanes::push_lanes;
use crate::legend::push_legend;
use crate::outside::{push_marks, push_misuse};
use crate::palette::Palette;
use crate::parking::Parking;
use crate::scale::LEFT;
use crate::showing::Showing;
use crate::unstarted::push_unstarted;
use std::alloc::{AllocError, Global};
use std::fmt::Write;

// The looks of what stands on the page. A text on a lane has an edge in the colour of the lane, so that a line behind it does not
// hide it.
static STYLE: &str = "<style>
text{fill:#222}
.title{font-size:13px;font-weight:bold}
.state{font-size:13px;font-weight:bold}
.note{font-size:11px}
.lane{fill:#f6f6f6}
.worker,.axis text{fill:#666}
.axis path{stroke:#bbb;fill:none}
.block{stroke:#555;stroke-width:.6}
.barrier{stroke:#000;stroke-width:1.8}
.delivery{stroke:#000;stroke-width:1.8}
.cancelled{stroke:#555;stroke-width:.6;fill-opacity:.12}
.thin{stroke-width:.15}
.barrier.thin,.delivery.thin{stroke-width:.6}
.open{fill-opacity:.45;stroke-dasharray:3 2}
.parked{stroke:#777;stroke-dasharray:3 2;fill:none}
.still{stroke:#b2182b}
.above,.wait,.again{paint-order:stroke;stroke:#f6f6f6;stroke-width:3px}
.wait{fill:#555;font-size:10px}
path.tick{stroke:#1f6fb4;stroke-dasharray:1 3}
text.tick{fill:#1f6fb4}
path.ready{stroke:#2a8a3e;stroke-dasharray:1 3}
text.ready{fill:#2a8a3e}
path.accept{stroke:#7a4fb0;stroke-dasharray:1 3}
text.accept{fill:#7a4fb0}
path.expiry{stroke:#b36b00;stroke-dasharray:1 3}
text.expiry{fill:#b36b00}
path.halt{stroke:#000;stroke-width:2}
path.misuse{stroke:#c00;stroke-width:3;fill:none}
text.misuse{fill:#c00}
</style>
";

// The lanes' backgrounds, and the workers' names beside them.
fn push_workers(into: &mut String, frame: &Frame) -> Result<(), AllocError> {
    let width = (frame.scale.right().0 / 10).saturating_sub(LEFT);
    for lane in 0..frame.lanes {
        let top = frame.lane(lane).saturating_add(1);
        let height = frame.floor(lane).saturating_sub(top).saturating_sub(2);
        let y = frame.bars(lane).saturating_add(14);
        write!(
            into,
            "<rect class=\"lane\" x=\"{LEFT}\" y=\"{top}\" width=\"{width}\" height=\"{height}\"/>"
        )?;
        write!(
            into,
            "<text class=\"worker\" x=\"12\" y=\"{y}\">worker {lane}</text>\n"
        )?;
    }
    Ok(())
}

// The workers' names again within their lanes, wherever the page is so wide that the first ones are out of sight.
fn push_again(into: &mut String, frame: &Frame) -> Result<(), AllocError> {
    let times = (frame.scale.right().0 / 10).saturating_sub(LEFT) / REPEAT;
    for lane in 0..frame.lanes {
        let y = frame.floor(lane).saturating_sub(6);
        for time in 0..times {
            let x = time
                .saturating_add(1)
                .saturating_mul(REPEAT)
                .saturating_add(12);
            write!(
                into,
                "<text class=\"worker again\" x=\"{x}\" y=\"{y}\">worker {lane}</text>\n"
            )?;
        }
    }
    Ok(())
}

// The numbers of events beneath the lanes.
fn push_axis(into: &mut String, frame: &Frame, events: usize) -> Result<(), AllocError> {
    let (y, text_y) = (frame.bottom(), frame.bottom().saturating_add(18));
    let below = y.saturating_add(5);
    let right = frame.scale.right();
    write!(
        into,
        "<g class=\"axis\"><path d=\"M{LEFT} {y}H{right}\"/><text x=\"12\" y=\"{text_y}\">event</text>\n"
    )?;
    let step = frame.scale.step().max(1);
    for place in 0..events {
        if place % step == 0 {
            let x = frame.scale.at(place);
            write!(
                into,
                "<path d=\"M{x} {y}V{below}\"/><text text-anchor=\"middle\" x=\"{x}\" y=\"{text_y}\">{place}</text>\n"
            )?;
        }
    }
    into.push_str("</g>\n")
}

// How many runs, workers and events there are, and the state to which they have come.
fn push_title(into: &mut String, drawing: Drawing) -> Result<(), AllocError> {
    let (lanes, runs) = (drawing.frame.lanes, drawing.showing.marks.len());
    let (events, state) = (drawing.showing.events.len(), drawing.showing.state);
    let workers = if lanes == 1 { "worker" } else { "workers" };
    let word = if runs == 1 { "run" } else { "runs" };
    let of_events = if events == 1 { "event" } else { "events" };
    write!(
        into,
        "<text class=\"title\" x=\"12\" y=\"20\">{runs} {word} by {lanes} {workers}, {events} {of_events}: {state}</text>\n"
    )
}

// What stands on the page, and its height.
fn push_body(alloc: Global, into: &mut String, drawing: Drawing) -> Result<u64, AllocError> {
    push_workers(into, drawing.frame)?;
    push_marks(alloc, into, drawing)?;
    push_lanes(alloc, into, drawing)?;
    push_again(into, drawing.frame)?;
    push_labels(alloc, into, drawing)?;
    push_misuse(alloc, into, drawing)?;
    push_axis(into, drawing.frame, drawing.showing.events.len())?;
    let top = drawing.frame.bottom().saturating_add(48);
    let below = push_ending(alloc, into, drawing, top)?;
    let below = push_unstarted(alloc, into, drawing, below)?;
    push_legend(alloc, into, drawing, below.saturating_sub(8))
}

// The page of what is drawn.
fn page_of(alloc: Global, drawing: Drawing) -> Result<String, AllocError> {
    let mut body = String::new(alloc);
    let height = push_body(alloc, &mut body, drawing)?;
    let width = drawing.frame.width();
    let mut page = format!(in alloc;
        "<svg xmlns=\"http://www.w3.org/2000/svg\" width=\"{width}\" height=\"{height}\" viewBox=\"0 0 {width} {height}\" font-family=\"monospace\" font-size=\"11\">\n"
    )?;
    page.push_str(STYLE)?;
    page.push_str("<rect width=\"100%\" height=\"100%\" fill=\"#fff\"/>\n")?;
    push_title(&mut page, drawing)?;
    page.push_str(body.as_str())?;
    page.push_str("</svg>\n")?;
    Ok(page)
}

/// The picture of a run, as a page of SVG: a lane for each worker, on it a bar for each stretch of a run, in the colour of its
/// node, and beneath it the times in which runs of the lane are parked, with what they wait for; lines for ticks, for what came
/// on feeds, for jobs from outside, for waits that expired and for a halt, and a cross for a misuse; barriers and deliveries have
/// a thick edge, those of deliveries are round, and those of cancelled blocks are nearly white; the state to which the run has
/// come, why, and which blocks have not started; and what the colours and lines mean. The axis is the place in the journal, from
/// 0: the page is as wide as the journal is long, and the names of its lanes are repeated. A text that has no room is cut, or
/// left to what is shown where the bar or line is pointed at. An `Err` comes only where memory runs out.
pub fn svg(alloc: Global, showing: Showing) -> Result<String, AllocError> {
    let bars = bars_of(alloc, showing)?;
    let lanes = lanes_of(&bars);
    let parking = Parking::new(alloc, &bars, lanes)?;
    let frame = Frame::new(alloc, showing, lanes, &parking)?;
    let palette = Palette::new(alloc, showing.plan)?;
    page_of(
        alloc,
        Drawing {
            showing,
            bars: &bars,
            frame: &frame,
            parking: &parking,
            palette: &palette,
        },
    )
}

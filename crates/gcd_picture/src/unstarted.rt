// The blocks that have not started, beneath the lanes.

use crate::drawing::Drawing;
use crate::naming::{node_name, run_name};
use crate::queues::Queues;
use crate::showing::Showing;
use crate::swatches::{Pen, push_entry};
use gcd_plan::{Blk, Obj, Run};
use gcd_timeline::Standing;
use std::alloc::{AllocError, Global};
use std::fmt::Write;

// The most blocks that are shown under a heading.
const SHOWN: usize = 60;

// What is shown, in order, and its heading.
static HEADINGS: [(Standing, &str); 2] = [
    (Standing::Waiting, "submitted and not started"),
    (Standing::Unsubmitted, "not submitted"),
];

// The blocks that stand so, by number.
fn blocks_that(
    alloc: Global,
    showing: Showing,
    standing: Standing,
) -> Result<Vec<Run>, AllocError> {
    let mut runs = Vec::new(alloc);
    for b in 0..showing.plan.blocks() {
        if showing.standings.get(b as usize).copied() == Some(standing) {
            runs.push(Run::Block(Blk(b)))?;
        }
    }
    Ok(runs)
}

// A pale swatch in the colour of a run's queue, with the names of both.
fn push_swatch(
    alloc: Global,
    into: &mut String,
    drawing: Drawing,
    pen: &mut Pen,
    run: Run,
    node: Option<Obj>,
) -> Result<(), AllocError> {
    let plan = drawing.showing.plan;
    let (name, queue) = (run_name(plan, run), node_name(plan, node));
    let words = format!(in alloc; "{name} on {queue}")?;
    let fill = drawing.palette.of(node);
    let swatch = format!(in alloc;
        "<rect class=\"block open\" width=\"20\" height=\"14\" rx=\"2\" fill=\"{fill}\"/>"
    )?;
    let width = drawing.frame.texts();
    push_entry(into, pen, width, swatch.as_str(), words.as_str())
}

// A swatch for each of the runs, after how many there are and what they are; nothing where there is none.
fn push_runs(
    alloc: Global,
    into: &mut String,
    drawing: Drawing,
    queues: &Queues,
    runs: &[Run],
    said: &str,
    top: u64,
) -> Result<u64, AllocError> {
    if runs.is_empty() {
        return Ok(top);
    }
    let count = runs.len();
    let more = if count > SHOWN {
        ", the first of them"
    } else {
        ""
    };
    write!(
        into,
        "<text class=\"state\" x=\"12\" y=\"{top}\">{said}: {count}{more}</text>\n"
    )?;
    let mut pen = Pen::at(top.saturating_add(8));
    for (number, run) in runs.iter().enumerate() {
        if number < SHOWN {
            push_swatch(alloc, into, drawing, &mut pen, *run, queues.of(*run))?;
        }
    }
    Ok(pen.y.saturating_add(38))
}

/// Adds the blocks that have not started, in the colours of their queues, from this height on: those that are submitted, and those
/// that are not. Returns the height beneath.
pub fn push_unstarted(
    alloc: Global,
    into: &mut String,
    drawing: Drawing,
    top: u64,
) -> Result<u64, AllocError> {
    let queues = Queues::new(alloc, drawing.showing.plan)?;
    let mut below = top;
    for (standing, said) in &HEADINGS {
        let runs = blocks_that(alloc, drawing.showing, *standing)?;
        below = push_runs(alloc, into, drawing, &queues, &runs, said, below)?;
    }
    Ok(below)
}

// Where the lines of parked times go down or up across a lane.

use crate::bars::Bar;
use crate::drawing::Drawing;
use crate::parking::Parking;
use crate::scale::Tenths;
use std::alloc::{AllocError, Global};

// The tenths of a pixel that no text exceeds.
const MOST_TEXT: u64 = 4_000;

// A row that is deeper than any: the whole lane is crossed.
const ALL: u64 = u64::MAX;

// A place where a lane is crossed, and the row beneath which it is: lines in rows nearer to the bars are not reached.
#[derive(Clone, Copy)]
struct Crossing {
    x: Tenths,
    row: u64,
}

// What is crossed of a lane, from left to right, and how much of it was asked for.
#[derive(Drop)]
struct Crossed {
    xs: Vec<Crossing>,
    passed: usize,
}

impl Crossed {
    fn new(alloc: Global) -> Crossed {
        Crossed {
            xs: Vec::new(alloc),
            passed: 0,
        }
    }

    // The first crossing of this row to the right of this, within as much as a text may take.
    fn after(&mut self, from: Tenths, row: u64) -> Option<Tenths> {
        let mut passed = self.passed;
        let mut found = None;
        for crossing in self.xs.iter().skip(passed) {
            if crossing.x.0 <= from.0 {
                passed = passed.saturating_add(1);
            } else if crossing.row > row {
                found = Some(crossing.x);
                break;
            } else if crossing.x.0 > from.0.saturating_add(MOST_TEXT) {
                break;
            }
        }
        self.passed = passed;
        found
    }
}

// A vertical line: at which place, from which row of which lane to which lane's bars.
#[derive(Clone, Copy)]
struct Vertical {
    place: usize,
    row: u64,
    from: usize,
    to: usize,
}

/// The vertical lines of parked times, which texts keep clear of. What is asked of one lane goes from left to right.
#[derive(Drop)]
pub struct Verticals {
    above: Vec<Crossed>,
    beneath: Vec<Crossed>,
}

// The vertical lines of the bars' parked times, from left to right.
fn verticals_of(
    alloc: Global,
    bars: &[Bar],
    parking: &Parking,
    events: usize,
) -> Result<Vec<Vertical>, AllocError> {
    let mut found = Vec::new(alloc);
    for (number, bar) in bars.iter().enumerate() {
        if let (Some((worker, next)), Some(row)) = (bar.parked, parking.row(number)) {
            let from = bar.worker as usize;
            let begin = Vertical {
                place: bar.to,
                row,
                from,
                to: from,
            };
            found.push(begin)?;
            if next < events {
                found.push(Vertical {
                    place: next,
                    row,
                    from,
                    to: worker as usize,
                })?;
            }
        }
    }
    found.sort_by_key(|vertical| vertical.place)?;
    Ok(found)
}

// Adds a crossing to a lane.
fn cross(lanes: &mut [Crossed], lane: usize, x: Tenths, row: u64) -> Result<(), AllocError> {
    if let Some(crossed) = lanes.get_mut(lane) {
        crossed.xs.push(Crossing { x, row })?;
    }
    Ok(())
}

impl Verticals {
    /// Those of the parked times that are drawn; an `Err` comes only where memory runs out.
    pub fn new(alloc: Global, drawing: Drawing) -> Result<Verticals, AllocError> {
        let (mut above, mut beneath) = (Vec::new(alloc), Vec::new(alloc));
        for _ in 0..drawing.frame.lanes {
            above.push(Crossed::new(alloc))?;
            beneath.push(Crossed::new(alloc))?;
        }
        let mut verticals = Verticals { above, beneath };
        let events = drawing.showing.events.len();
        for vertical in &verticals_of(alloc, drawing.bars, drawing.parking, events)? {
            verticals.add(*vertical, drawing.frame.scale.at(vertical.place))?;
        }
        Ok(verticals)
    }

    // Adds a vertical line to each lane that it crosses: beneath the bars of the upper ones, and above those of the lower ones. In
    // its own lane it goes to its row where it goes up, and to the bottom where it goes down to another lane.
    fn add(&mut self, vertical: Vertical, x: Tenths) -> Result<(), AllocError> {
        let (from, to) = (vertical.from, vertical.to);
        let own = if from < to { ALL } else { vertical.row };
        cross(&mut self.beneath, from, x, own)?;
        for lane in from.min(to)..from.max(to) {
            if lane != from {
                cross(&mut self.beneath, lane, x, ALL)?;
            }
            cross(&mut self.above, lane.saturating_add(1), x, ALL)?;
        }
        Ok(())
    }

    /// Adds what stands above the bars of a lane at its right end.
    pub fn end_above(&mut self, lane: usize, x: Tenths) -> Result<(), AllocError> {
        cross(&mut self.above, lane, x, ALL)
    }

    /// How far it is clear above the bars of a lane, to the right of this; None where nothing near crosses there.
    pub fn above(&mut self, lane: usize, from: Tenths) -> Option<Tenths> {
        self.above.get_mut(lane)?.after(from, 0)
    }

    /// How far a row beneath the bars of a lane is clear, to the right of this; None where nothing near crosses there.
    pub fn beneath(&mut self, lane: usize, from: Tenths, row: u64) -> Option<Tenths> {
        self.beneath.get_mut(lane)?.after(from, row)
    }
}

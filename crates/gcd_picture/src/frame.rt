// The measures of a page: its lanes from top to bottom, in pixels.

use crate::bars::Bar;
use crate::parking::Parking;
use crate::scale::{Scale, Tenths};
use crate::showing::Showing;
use gcd_event::{Entry, Event};
use std::alloc::{AllocError, Global};

/// The height of a bar.
pub const BAR: u64 = 20;

/// The pixels that a letter takes.
pub const LETTER: u64 = 7;

/// The pixels between two rows of parked times.
pub const ROW: u64 = 15;

/// How far apart the names of lanes are repeated.
pub const REPEAT: u64 = 960;

// The height of the title, and of the row of the outside.
const TITLE: u64 = 30;

const OUTSIDE: u64 = 38;

// The height of the names above a lane's bars, and of what is beneath its rows.
const NAMES: u64 = 28;

const FOOT: u64 = 18;

// The least width, and what is to the right of the last event.
const LEAST: u64 = 760;

const RIGHT: u64 = 40;

// The most width of the texts beneath the lanes.
const TEXTS: u64 = 1_100;

/// A page: how far apart events are, the tops of the workers' lanes, and whether there is a row for the outside.
#[derive(Drop)]
pub struct Frame {
    /// How far apart events are.
    pub scale: Scale,
    /// How many workers have a lane.
    pub lanes: usize,
    /// Whether anything came from the outside, or a misuse ended the run.
    pub outside: bool,
    tops: Vec<u64>,
    bottom: u64,
}

// Whether the event is told in the row of the outside.
fn is_outside(entry: &Entry) -> bool {
    match entry.event() {
        Event::Tick { .. } | Event::Ready { .. } | Event::FeedEnd { .. } => true,
        Event::Halt | Event::Expire { .. } | Event::Misuse { .. } => true,
        Event::Accept { .. } | Event::Shut => true,
        Event::Start { .. } | Event::Act { .. } | Event::Wake { .. } | Event::End { .. } => false,
        Event::Deliver { .. } | Event::DeliverEnd { .. } => false,
    }
}

/// How many workers have a bar, up to the highest; 1 at least.
pub fn lanes_of(bars: &[Bar]) -> usize {
    let mut lanes = 1;
    for bar in bars {
        if lanes <= bar.worker as usize {
            lanes = bar.worker as usize + 1;
        }
    }
    lanes
}

impl Frame {
    /// The page of a journal with this many lanes and these parked times; an `Err` comes only where memory runs out.
    pub fn new(
        alloc: Global,
        showing: Showing,
        lanes: usize,
        parking: &Parking,
    ) -> Result<Frame, AllocError> {
        let outside = showing.events.iter().any(is_outside);
        let mut bottom = if outside { TITLE + OUTSIDE } else { TITLE };
        let mut tops = Vec::new(alloc);
        for lane in 0..lanes {
            tops.push(bottom)?;
            let rows = parking.depth(lane).saturating_mul(ROW);
            bottom = bottom
                .saturating_add(NAMES + BAR + FOOT)
                .saturating_add(rows);
        }
        Ok(Frame {
            scale: Scale::new(showing.events.len()),
            lanes,
            outside,
            tops,
            bottom,
        })
    }

    /// The top of a worker's lane.
    pub fn lane(&self, worker: usize) -> u64 {
        self.tops.get(worker).copied().unwrap_or(self.bottom)
    }

    /// The bottom of a worker's lane.
    pub fn floor(&self, worker: usize) -> u64 {
        self.lane(worker.saturating_add(1))
    }

    /// The top of the bars of a worker's lane.
    pub fn bars(&self, worker: usize) -> u64 {
        self.lane(worker).saturating_add(NAMES)
    }

    /// The line of a row of parked times beneath a worker's bars.
    pub fn row(&self, worker: usize, row: u64) -> u64 {
        self.bars(worker)
            .saturating_add(BAR + ROW)
            .saturating_add(row.saturating_mul(ROW))
    }

    /// The baseline of a row of names above a worker's bars: 0 is the lower one, 1 the upper one.
    pub fn names(&self, worker: usize, row: u64) -> u64 {
        self.bars(worker)
            .saturating_sub(4)
            .saturating_sub(row.saturating_mul(12))
    }

    /// The top of the first lane.
    pub fn top(&self) -> u64 {
        self.lane(0)
    }

    /// The bottom of the last lane, where the axis is.
    pub fn bottom(&self) -> u64 {
        self.bottom
    }

    /// The baseline of a row of the outside, 0 or 1.
    pub fn outside_row(&self, row: u64) -> u64 {
        TITLE
            .saturating_add(12)
            .saturating_add(row.saturating_mul(12))
    }

    /// The width of the page: as far as the events go, and at least wide enough for texts.
    pub fn width(&self) -> u64 {
        (self.scale.right().0 / 10).saturating_add(RIGHT).max(LEAST)
    }

    /// The width of the texts beneath the lanes.
    pub fn texts(&self) -> u64 {
        self.width().min(TEXTS)
    }
}

/// The width of a text.
pub fn text_width(text: &str) -> Tenths {
    Tenths::pixels((text.len() as u64).saturating_mul(LETTER))
}

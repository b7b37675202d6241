// Where a place of the journal stands on the page.

use std::fmt;

/// A length on the page, in tenths of a pixel.
#[derive(Clone, Copy)]
pub struct Tenths(pub u64);

impl fmt::Display for Tenths {
    fn fmt<W: fmt::Write>(&self, f: &mut fmt::Formatter<W>) -> fmt::Result {
        let whole = self.0 / 10;
        let tenth = self.0 % 10;
        write!(f, "{whole}.{tenth}")
    }
}

impl Tenths {
    /// So many pixels.
    pub fn pixels(pixels: u64) -> Tenths {
        Tenths(pixels.saturating_mul(10))
    }

    /// The sum of the two.
    pub fn plus(self, other: Tenths) -> Tenths {
        Tenths(self.0.saturating_add(other.0))
    }

    /// What is left where the other is taken away; 0 where it is the longer one.
    pub fn minus(self, other: Tenths) -> Tenths {
        Tenths(self.0.saturating_sub(other.0))
    }
}

/// The places of a journal along a page: [`EVENT`] pixels an event, and never more than [`MOST`] in all, so that from 1,334 events
/// on they stand closer.
#[derive(Clone, Copy)]
pub struct Scale {
    events: u64,
    width: u64,
}

/// The pixels to the left of the first event.
pub const LEFT: u64 = 84;

/// The pixels of an event.
pub const EVENT: u64 = 24;

/// The most pixels that all events take.
pub const MOST: u64 = 32_000;

impl Scale {
    /// The scale of a journal of so many events.
    pub fn new(events: usize) -> Scale {
        let events = events as u64;
        Scale {
            events,
            width: events.saturating_mul(EVENT).min(MOST),
        }
    }

    /// Where the event at this place stands; the right edge for the number of events.
    pub fn at(&self, place: usize) -> Tenths {
        let place = (place as u64).min(self.events);
        let halves = place.saturating_mul(2).saturating_add(1);
        let along = self.width.saturating_mul(10).saturating_mul(halves);
        let x = along / self.events.saturating_mul(2).max(1);
        Tenths(x.min(self.width.saturating_mul(10))).plus(Tenths::pixels(LEFT))
    }

    /// The right edge of the last event.
    pub fn right(&self) -> Tenths {
        Tenths::pixels(self.width.saturating_add(LEFT))
    }

    /// How many events lie between two numbers along the axis: 1, 2 or 5 times a power of ten, 60 pixels at least apart.
    pub fn step(&self) -> usize {
        for power in [1u64, 10, 100, 1_000, 10_000, 100_000] {
            for step in [power, power.saturating_mul(2), power.saturating_mul(5)] {
                if self.width.saturating_mul(step) >= self.events.saturating_mul(60) {
                    return step as usize;
                }
            }
        }
        1_000_000
    }
}

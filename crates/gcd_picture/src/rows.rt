// Which of two rows has room.

use crate::scale::Tenths;
use std::alloc::{AllocError, Global};

// Up to where the two rows of a lane are taken.
#[derive(Clone, Copy)]
struct Taken {
    upper: u64,
    lower: u64,
}

/// The two rows of names of each lane. What is put there from left to right does not overlap.
#[derive(Drop)]
pub struct Rows {
    lanes: Vec<Taken>,
}

impl Rows {
    /// The rows of so many lanes, with nothing in them; an `Err` comes only where memory runs out.
    pub fn new(alloc: Global, lanes: usize) -> Result<Rows, AllocError> {
        let none = Taken { upper: 0, lower: 0 };
        Ok(Rows {
            lanes: vec![in alloc; none; lanes]?,
        })
    }

    /// The first row of the lane with room from here on, 0 or 1, which is then taken up to `until`; None where neither has.
    pub fn take(&mut self, lane: usize, from: Tenths, until: Tenths) -> Option<u64> {
        let rows = self.lanes.get_mut(lane)?;
        if rows.upper <= from.0 {
            rows.upper = until.0;
            Some(0)
        } else if rows.lower <= from.0 {
            rows.lower = until.0;
            Some(1)
        } else {
            None
        }
    }
}

// In which row beneath its lane each parked time is drawn.

use crate::bars::Bar;
use std::alloc::{AllocError, Global};

// The most rows of a lane.
const MOST_ROWS: usize = 24;

/// The rows of the parked times of all lanes: in one row no two overlap.
#[derive(Drop)]
pub struct Parking {
    // By bar: the row of the parked time after it.
    rows: Vec<Option<u64>>,
    // By lane: up to which place each row is taken.
    taken: Vec<Vec<usize>>,
    left_out: u64,
}

// The first row that is free from that place on; a new one where none is, and None where there are too many.
fn take(taken: &mut Vec<usize>, from: usize, until: usize) -> Result<Option<u64>, AllocError> {
    if let Some(row) = taken.iter().position(|end| *end <= from) {
        if let Some(end) = taken.get_mut(row) {
            *end = until;
        }
        return Ok(Some(row as u64));
    }
    let row = taken.len();
    if row >= MOST_ROWS {
        return Ok(None);
    }
    taken.push(until)?;
    Ok(Some(row as u64))
}

// The ends of the parked times, from left to right, each with the number of its bar.
fn by_end(alloc: Global, bars: &[Bar]) -> Result<Vec<(usize, usize)>, AllocError> {
    let mut ends = Vec::new(alloc);
    for (number, bar) in bars.iter().enumerate() {
        if let Some((_, until)) = bar.parked {
            ends.push((until, number))?;
        }
    }
    ends.sort_by_key(|end| end.0)?;
    Ok(ends)
}

impl Parking {
    /// The rows of the bars' parked times, on so many lanes: those that end first are nearest to the bars. An `Err` comes only where
    /// memory runs out.
    pub fn new(alloc: Global, bars: &[Bar], lanes: usize) -> Result<Parking, AllocError> {
        let mut taken = Vec::new(alloc);
        for _ in 0..lanes {
            taken.push(Vec::new(alloc))?;
        }
        let mut parking = Parking {
            rows: vec![in alloc; None; bars.len()]?,
            taken,
            left_out: 0,
        };
        for (_, number) in &by_end(alloc, bars)? {
            if let Some(bar) = bars.get(*number) {
                let row = parking.row_after(bar)?;
                if let Some(entry) = parking.rows.get_mut(*number) {
                    *entry = row;
                }
            }
        }
        Ok(parking)
    }

    // The row of the parked time after a bar.
    fn row_after(&mut self, bar: &Bar) -> Result<Option<u64>, AllocError> {
        let Some((_, until)) = bar.parked else {
            return Ok(None);
        };
        let Some(taken) = self.taken.get_mut(bar.worker as usize) else {
            return Ok(None);
        };
        let row = take(taken, bar.to, until)?;
        if row.is_none() {
            self.left_out = self.left_out.saturating_add(1);
        }
        Ok(row)
    }

    /// The row of the parked time after the bar of this number; None where there is none, or it isn't drawn.
    pub fn row(&self, bar: usize) -> Option<u64> {
        self.rows.get(bar).copied().unwrap_or(None)
    }

    /// How many rows a lane has.
    pub fn depth(&self, lane: usize) -> u64 {
        match self.taken.get(lane) {
            Some(taken) => taken.len() as u64,
            None => 0,
        }
    }

    /// How many parked times aren't drawn, since their lane has too many at once.
    pub fn left_out(&self) -> u64 {
        self.left_out
    }
}

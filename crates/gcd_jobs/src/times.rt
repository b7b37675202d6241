// How long works take, by estimate.
use gcd_plan::{How, Work};

/// A work that takes this long is long: a microsecond, in sixteenths of a nanosecond.
pub const LONG_TIME: u64 = 16_000;

/// Returns how long it takes to count these bytes if a processor's cache holds them, in sixteenths of a nanosecond (this project's own rule).
pub fn counting_time(how: How, bytes: u64) -> u64 {
    match how {
        How::Bytes => 0,
        How::Sum => bytes,
        How::Lines | How::Count(_) => bytes.saturating_mul(3),
        How::Words => bytes.saturating_mul(6),
    }
}

// Returns how long a work takes over its range of the file, and 0 if its file is not in the list.
pub(crate) fn work_time(files: &[Vec<u8>], work: Work) -> u64 {
    match files.get(work.file as usize) {
        Some(bytes) => {
            let rest = (bytes.len() as u64).saturating_sub(u64::from(work.start));
            counting_time(work.how, rest.min(u64::from(work.len)))
        }
        None => 0,
    }
}

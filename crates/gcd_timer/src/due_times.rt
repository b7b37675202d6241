// The due times of one timer, as numbers.
ghost use Rattle.std.specs.Prelude.{◌≡◌, ◌≤◌, ℕ, ◌+◌, find, count_by};
ghost use Rattle.std.specs.List.{range_with_len};
ghost use Rattle.gcd_timer.specs.Intervals.{IsSpaced, due_times_of, last_due, is_due_in, due_after, due_up_to};

use gcd_plan::Kind;

/// The due times of a timer, in milliseconds: `first`, and one each `every` from there on, none past `last`.
#[derive(Clone, Copy)]
pub struct DueTimes {
    /// The first due time, where it is not past the last; above 0.
    pub first: u64,
    /// How far apart they are; above 0.
    pub every: u32,
    /// The last time at which the timer may be due.
    pub last: u32,
}

/// The last time at which a timer may be due: `until`, or the time of its cancellation if that is before.
pub fn last_due(until: u32, cancelled: Option<u32>) -> u32
    ensures { result ≡ last_due until cancelled }
{
    match cancelled {
        None => until,
        Some(end) => end.min(until),
    }
}

/// The due times of an object of this kind that is activated at `from`; None where it is no timer.
pub fn due_times_of(kind: Kind, from: u32, last: u32) -> Option<DueTimes>
    ensures { result ≡ due_times_of kind from last }
{
    match kind {
        Kind::Timer { start, every } => Some(DueTimes {
            first: u64::from(from) + u64::from(start),
            every,
            last,
        }),
        Kind::Serial | Kind::Concurrent | Kind::Group | Kind::Semaphore(_) => None,
        Kind::Add | Kind::Or | Kind::Replace | Kind::Read => None,
    }
}

// The least of `first`, `first + every`, .. that is above the moment; it may be past `last`.
fn due_after(times: DueTimes, moment: u32) -> u64
    requires { IsSpaced times }
    ensures { result ≡ due_after times moment }
{
    let moment = u64::from(moment);
    if moment < times.first {
        return times.first;
    }
    let every = u64::from(times.every);
    moment + (every - (moment - times.first) % every)
}

/// The least due time after the moment; None exactly where none is left.
#[tactic(auto, using(crate::proofs::Steps::next_found, crate::proofs::Steps::none_found))]
pub fn next_of(times: DueTimes, moment: u32) -> Option<u32>
    requires { IsSpaced times }
    ensures { (n : ℕ) → times.last ≤ moment + n → result ≡ find (is_due_in times) (range_with_len (moment + 1) n) }
{
    let next = due_after(times, moment);
    if next <= u64::from(times.last) {
        Some(next as u32)
    } else {
        None
    }
}

// How many of `first`, `first + every`, .. are at most `end`.
fn due_up_to(times: DueTimes, end: u32) -> u64
    requires { IsSpaced times }
    ensures { result ≡ due_up_to times.first times.every end }
{
    let end = u64::from(end);
    if end < times.first {
        return 0;
    }
    (end - times.first) / u64::from(times.every) + 1
}

/// How many due times there are up to the moment.
#[tactic(auto, using(crate::proofs::Steps::count_found))]
pub fn count_of(times: DueTimes, moment: u32) -> u64
    requires { IsSpaced times }
    ensures { result ≡ count_by (is_due_in times) (range_with_len 1 moment) }
{
    due_up_to(times, moment.min(times.last))
}

// How a worker passes time with nothing to do.
ghost use Rattle.std.specs.Prelude.{◌≡◌, ◌≤◌};

use crossbeam_utils::Backoff;
use std::sync::Wait;
use std::thread::Parker;
use std::time::Duration;

// The first sleep, and the longest, in microseconds.
const FIRST_SLEEP: u64 = 50;

pub(crate) const LONGEST_SLEEP: u64 = 250;

// How many of the longest sleeps are a long wait: ten seconds of them.
const LONG_WAIT: u32 = 40_000;

/// How a worker passes time while nothing comes: it spins, then yields its processor, then sleeps, at first 50 microseconds and
/// each time twice as long, at most 250. Nobody has to wake it.
#[derive(Drop)]
pub struct Idle {
    backoff: Backoff,
    parker: Parker,
    micros: u64,
    // How often it slept longest since something came.
    sleeps: u32,
    ghost bounded: { micros ≤ 250 },
}

impl Idle {
    /// Nothing has been waited for yet.
    pub fn new() -> Idle
        ensures { result.micros ≡ 50 }
    {
        Idle {
            backoff: Backoff::new(),
            parker: Parker::new(),
            micros: FIRST_SLEEP,
            sleeps: 0,
        }
    }

    /// Something has come: the next pause is short again.
    pub fn reset(&mut self)
        ensures { self.new.micros ≡ 50 }
    {
        self.backoff.reset();
        self.micros = FIRST_SLEEP;
        self.sleeps = 0;
    }

    // Spins or yields. Where it is time to sleep it does neither, and says how long: at most 250 microseconds.
    pub(crate) fn spin(&mut self) -> Option<Duration>
        ensures { self.new.micros ≤ 250 }
    {
        if !self.backoff.is_completed() {
            self.backoff.snooze();
            return None;
        }
        let sleep = Duration::from_micros(self.micros);
        if self.micros == LONGEST_SLEEP {
            self.sleeps = self.sleeps.saturating_add(1);
        }
        self.micros = (self.micros * 2).min(LONGEST_SLEEP);
        Some(sleep)
    }

    /// Spins, yields, or sleeps for at most 250 microseconds.
    pub fn pause<R: Wait>(&mut self, rt: &R)
        ensures { self.new.micros ≤ 250 }
    {
        if let Some(sleep) = self.spin() {
            self.parker.park_timeout(rt, sleep);
        }
    }

    // Whether nothing has come for about ten seconds.
    pub(crate) fn has_waited_long(&self) -> bool {
        self.sleeps >= LONG_WAIT
    }
}

// The system's clock.
ghost use Rattle.std.specs.Prelude.{◌≡◌, false};

use gcd_outer::Clock;
use std::time::{Duration, Instant};
use std::{thread, time};

/// The system's monotonic clock, in milliseconds from the moment at which this value was made. It
/// tells nothing. Where the system gives no time, it answers its last answer again, which is 0 before any
/// other.
#[derive(Drop)]
pub struct SystemClock<'a, R: time::Clock> {
    rt: &'a R,
    // None where the system gave no time when this value was made.
    start: Option<Instant>,
    last: u64,
}

impl<'a, R: time::Clock> SystemClock<'a, R> {
    /// A clock that starts now, at 0.
    pub fn new(rt: &'a R) -> Self
        ensures { (⟦<SystemClock<'a, R> as Clock>⟧.state result).present ≡ 0 }
    {
        SystemClock {
            rt,
            start: Instant::now(rt).ok(),
            last: 0,
        }
    }

    // The time since the start, where the system gives it.
    fn elapsed(&self) -> Option<Duration> {
        self.start.as_ref()?.elapsed(self.rt).ok()
    }
}

impl<'a, R: time::Clock> Clock for SystemClock<'a, R> {
    ghost tells = { false };

    ghost use Rattle.gcd_outer.specs.Outside.{ClockState};

    ghost state = { λ c. record { present = c.last; waited = 0 } };

    fn now(&mut self) -> u64 {
        if let Some(passed) = self.elapsed() {
            let milliseconds = u64::try_from(passed.as_millis()).unwrap_or(u64::MAX);
            self.last = self.last.max(milliseconds);
        }
        self.last
    }

    fn wait_until(&mut self, t: u64) {
        let now = self.now();
        if now < t {
            thread::sleep(self.rt, Duration::from_millis(t - now));
            self.last = self.last.max(t);
        }
    }
}

// A clock that says that it waits.
ghost use Rattle.std.specs.Prelude.{◌≡◌};

use gcd_outer::{Clock, Due};
use gcd_why::Grouped;

/// How far a moment must be ahead for the clock to say that it waits, in milliseconds.
const PATIENCE: u64 = 2000;

/// A clock that says on standard error that it waits, if that takes long and a person watches. It counts from its first answer, as a
/// run does.
#[derive(Drop)]
pub struct WaitingClock<'a, R: Eprint, C: Clock> {
    rt: &'a R,
    clock: C,
    is_watched: bool,
    start: Option<u64>,
}

impl<'a, R: Eprint, C: Clock> WaitingClock<'a, R, C> {
    /// The clock over another one.
    pub fn new(rt: &'a R, clock: C, is_watched: bool) -> Self
        ensures { ⟦<WaitingClock<'a, R, C> as Clock>⟧.state result ≡ C.state clock }
    {
        WaitingClock {
            rt,
            clock,
            is_watched,
            start: None,
        }
    }
}

impl<'a, R: Eprint, C: Clock> Clock for WaitingClock<'a, R, C> {
    ghost tells = { C.tells };

    ghost state = { λ c. C.state c.clock };

    fn now(&mut self) -> u64 {
        let now = self.clock.now();
        if self.start.is_none() {
            self.start = Some(now);
        }
        now
    }

    fn wait_until(&mut self, t: u64) {
        self.clock.wait_until(t)
    }

    fn wait_for(&mut self, t: u64, due: Due<'_>) {
        if self.is_watched {
            if t.saturating_sub(self.clock.now()) > PATIENCE {
                let end = Grouped(t.saturating_sub(self.start.unwrap_or(0)));
                let _ = match due {
                    Due::Timer(name) => eprintln!(self.rt; "waiting until {end} ms: timer {name}"),
                    Due::Wait(name) => {
                        eprintln!(self.rt; "waiting until {end} ms: the wait of {name}")
                    }
                };
            }
        }
        self.clock.wait_for(t, due)
    }
}

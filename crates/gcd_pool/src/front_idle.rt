// How worker 0 passes time beside senders.
ghost use Rattle.std.specs.Prelude.{◌≡◌, false};

use crate::idle::LONGEST_SLEEP;
use gcd_front::Front;
use std::sync::Wait;
use std::thread::yield_now;
use std::time::Duration;

// How often worker 0 yields its processor before it sleeps. A yield takes a tenth of a microsecond or more, and a sleeper needs some twenty to
// wake.
const YIELDS: u32 = 1_024;

/// How worker 0 passes time while senders may send jobs and nothing comes: it yields its processor 1,024 times, then listens to the front, and
/// then sleeps, each time for at most 250 microseconds. A job that is sent, or a mouth that is shut, ends a sleep (this project's own rule; no
/// clause says how soon).
#[derive(Drop)]
pub struct FrontIdle {
    // How often it has yielded since something came.
    yields: u32,
    // Whether it listens to what is sent.
    listens: bool,
}

impl FrontIdle {
    /// Returns one that has not waited yet.
    pub fn new() -> FrontIdle
        ensures yields { result.yields ≡ 0 }
        ensures listens { result.listens ≡ false }
    {
        FrontIdle {
            yields: 0,
            listens: false,
        }
    }

    /// Notes that something came: it listens no more, and the next pause is the first again.
    #[inline(always)]
    pub fn reset<X: Drop>(&mut self, front: &Front<X>)
        ensures yields { self.new.yields ≡ 0 }
        ensures listens { self.new.listens ≡ false }
    {
        if self.listens {
            front.ignore();
            self.listens = false;
        }
        self.yields = 0;
    }

    // Yields, or begins to listen. Returns true if it did neither, because it is time to sleep. It listens first, and sleeps only at a later
    // pause: the turn between finds what came before.
    #[inline(always)]
    pub(crate) fn is_at_sleep<X: Drop>(&mut self, front: &Front<X>) -> bool {
        if self.yields < YIELDS {
            self.yields += 1;
            yield_now();
            return false;
        }
        if !self.listens {
            front.listen();
            self.listens = true;
            return false;
        }
        true
    }

    /// Yields, begins to listen, or sleeps for at most 250 microseconds.
    pub fn pause<X: Drop, R: Wait>(&mut self, rt: &R, front: &Front<X>) {
        if self.is_at_sleep(front) {
            front.sleep(rt, Duration::from_micros(LONGEST_SLEEP));
        }
    }
}

// Two things that run side by side, each lent, so that the caller learns what each has become.
ghost use Rattle.std.specs.Thread.{IsSend, IsSync};

use std::sync::Wait;
use std::thread::{Threads, join_mut};

/// What runs beside another thing.
pub trait Side {
    // what it asks
    ghost ready: { Self → Type 0 };

    // what running comes to: what it was and what it is
    ghost ran: { Self → Self → Type 0 };

    /// Runs to the end, by a runtime that can make threads. What it asks of a runtime beyond that, as to read input, it has from one of its
    /// own: as the second of two it stays in the thread that made it.
    fn run<R: Threads + Wait + Sync>(&mut self, rt: &R)
        requires sync { IsSync R.row }
        requires ready { Self.ready self.old }
        ensures { Self.ran self.old self.new };
}

/// Runs both, and returns when both have ended: `first` in a thread of its own, or after `second` where the system makes none, and
/// `second` in this one. So `second` may not wait for `first`.
pub fn run_beside<F: Side + Send, G: Side, R: Threads + Wait + Sync>(
    rt: &R,
    first: &mut F,
    second: &mut G,
)
    requires first { F.ready first.old }
    requires second { G.ready second.old }
    ensures first { F.ran first.old first.new }
    ensures second { G.ran second.old second.new }
{
    join_mut(
        rt,
        &mut ||
            requires { IsSync R.row × IsSend F.row × F.ready first.now }
            ensures { F.ran first.entry.now first.exit.now }
        { first.run(rt) },
        &mut ||
            requires { IsSync R.row × G.ready second.now }
            ensures { G.ran second.entry.now second.exit.now }
        { second.run(rt) },
    );
}

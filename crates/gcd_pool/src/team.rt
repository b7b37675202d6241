// The threads of a team, for a pool of any type.
ghost use Rattle.std.specs.Prelude.{◌≡◌, ◌<◌, All, Bool, length, slice_index_or};
ghost use Rattle.std.specs.Thread.{IsSync, IsSend};
ghost use Rattle.gcd_pool.specs.Each.{Each};

use std::sync::Wait;
use std::thread::{Threads, join_mut};

/// A pool, and the work of a helper. Hands are of any type here, because a join of threads loses the facts of a concrete type.
pub trait Crew<T> {
    // it needs this of a hand
    ghost ready: { Self → T → Type 0 };

    // the hand before and after it has served
    ghost served: { Self → T → T → Type 0 };

    /// Does a helper's work, to the end of the run.
    fn serve<R: Wait>(&self, rt: &R, hand: &mut T)
        requires { Self.ready self.now hand.old }
        ensures { Self.served self.now hand.old hand.new };
}

// The front with which worker 0 leads a crew. Intake and outside are of any type. It is another trait than `Crew`, because a closure that
// goes to a thread must not depend on the bounds of worker 0's poller and clock.
pub trait Leader<T, D: Crew<T>, A, O> {
    // it needs this of worker 0's hand and intake
    ghost asks: { Self → T → A → Type 0 };

    // the hand, the intake and the outside before and after it has led, and whether the run is done
    ghost led: { Self → D → T × A × O → T × A × O → Bool → Type 0 };

    // Does worker 0's work, to the end of the run. Returns false if memory was refused, or the team was stopped.
    fn lead<R: Wait>(&self, rt: &R, crew: &D, hand: &mut T, intake: &mut A, outside: &mut O) -> bool
        requires ready { D.ready crew.now hand.old }
        requires asks { asks self.now hand.old intake.old }
        ensures served { D.served crew.now hand.old hand.new }
        ensures led { led self.now crew.now (hand.old, intake.old, outside.old) (hand.new, intake.new, outside.new) result };
}

/// Lets each helper serve in its own thread, until all have served. This thread makes theirs, one after the other, and serves no hand: Linux
/// may leave a new thread on the processor of the thread that made it, which must then be free.
#[cycle(helpers)]
pub fn serve_all<T: Send, D: Crew<T> + Sync, R: Threads + Wait + Sync>(
    rt: &R,
    crew: &D,
    hands: &mut [T],
)
    requires { All (D.ready crew.now) hands.old }
    ensures { Each (D.served crew.now) hands.old hands.new }
{
    if hands.is_empty() {
        return;
    }
    let (first, rest) = hands.split_at_mut(1);
    let mut serve = ||
        requires { IsSync R.row × IsSync D.row × IsSend T.row × (length first.now ≡ 1) × All (D.ready crew.now) first.now }
        ensures { Each (D.served crew.entry.now) first.entry.now first.exit.now }
    { crew.serve(rt, &mut first[0]) };
    let mut others = ||
        requires { IsSync R.row × IsSync D.row × IsSend T.row × All (D.ready crew.now) rest.now }
        ensures { Each (D.served crew.entry.now) rest.entry.now rest.exit.now }
    { serve_all(rt, crew, rest) };
    join_mut(rt, &mut serve, &mut others);
}

// Lets helpers serve in threads while worker 0, the first hand, leads. A team of one needs no thread. Returns what worker 0 returns.
pub fn run_hands<T: Send, D: Crew<T> + Sync, L: Leader<T, D, A, O>, A, O, R: Threads + Wait + Sync>(
    rt: &R,
    crew: &D,
    hands: &mut [T],
    leader: &L,
    intake: &mut A,
    outside: &mut O,
) -> bool
    requires some { 0 < length hands.old }
    requires hands { All (D.ready crew.now) hands.old }
    requires asks { (d : T) → L.asks leader.now (slice_index_or hands.old 0 d) intake.old }
    ensures hands { Each (D.served crew.now) hands.old hands.new }
    ensures led { (d : T) → L.led leader.now crew.now (slice_index_or hands.old 0 d, intake.old, outside.old)
        (slice_index_or hands.new 0 d, intake.new, outside.new) result }
{
    if hands.len() == 1 {
        return leader.lead(rt, crew, &mut hands[0], intake, outside);
    }
    let (first, rest) = hands.split_at_mut(1);
    let both = join_mut(
        rt,
        &mut ||
            requires { IsSync R.row × IsSync D.row × IsSend T.row × All (D.ready crew.now) rest.now }
            ensures { Each (D.served crew.entry.now) rest.entry.now rest.exit.now }
        { serve_all(rt, crew, rest) },
        &mut || -> bool
            requires { (length first.now ≡ 1) × All (D.ready crew.now) first.now
                × ((d : T) → L.asks leader.now (slice_index_or first.now 0 d) intake.now) }
            ensures { Each (D.served crew.entry.now) first.entry.now first.exit.now
                × ((d : T) → L.led leader.entry.now crew.entry.now (slice_index_or first.entry.now 0 d, intake.entry.now, outside.entry.now)
                (slice_index_or first.exit.now 0 d, intake.exit.now, outside.exit.now) result) }
        { leader.lead(rt, crew, &mut first[0], intake, outside) },
    );
    both.1
}

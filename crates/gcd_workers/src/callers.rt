// Outside callers, which run beside a plan.
ghost use Rattle.std.specs.Prelude.{◌≡◌, ◌<◌, ◌≤◌, ◌+◌, [], List, All, length, vec_capacity};
ghost use Rattle.std.specs.Thread.{IsSync};
ghost use Rattle.gcd_front.specs.Fronts.{IsLeftOf, IsMouthOf, new_mouths};
ghost use Rattle.gcd_front.specs.Views.{MouthView};
ghost use Rattle.gcd_workers.specs.CalledRuns.{AreNew, HaveCalled, SendersStay, ShutsLast, lefts_of};

use gcd_front::{Front, Intake, Left, Mouth, Sent};
use std::sync::Wait;
use std::thread::Threads;

/// Hands in jobs while a plan runs, from threads that are not its workers (dispatch_async(3)).
pub trait Callers<X: Sent + Drop> {
    // the callers before and after the call, and the mouths as they leave them, each with all that was sent through it
    ghost called: { Self → Self → List (MouthView X) → Type 0 };

    /// Sends jobs through the mouths, one for each sender, by number, from this thread and from threads that it makes. Returns when there
    /// is nothing more to send, and the mouths are shut then. The mouths are borrowed, so a caller cannot keep one open. It promises that
    /// they are still mouths of this front, that each is still of its sender (it swaps no two of them), and what it says of itself
    /// (`called`). If it needs more of a runtime than threads, for example to read its input, it keeps a runtime of its own.
    fn call<R: Threads + Wait + Sync>(&mut self, rt: &R, front: &Front<X>, mouths: &mut [Mouth<X>])
        requires sync { IsSync R.row }
        requires mouths { All (IsMouthOf front.now) mouths.old }
        requires new { mouths.old ≡ new_mouths front.now }
        ensures mouths { All (IsMouthOf front.now) mouths.new }
        ensures senders { SendersStay mouths.old mouths.new }
        ensures called { Self.called self.old self.new mouths.new };
}

// The intake of a front, its open mouths, and the accounts of those that were shut.
#[derive(Drop)]
pub struct Ends<X: Drop> {
    pub intake: Intake<X>,
    pub mouths: Vec<Mouth<X>>,
    pub lefts: Vec<Left<X>>,
}

// Takes out the last mouth, shuts it, and adds its account.
fn shut_last<X: Drop>(front: &Front<X>, mouths: &mut Vec<Mouth<X>>, lefts: &mut Vec<Left<X>>)
    requires mouths { All (IsMouthOf front.now) mouths.old.items }
    requires some { 0 < length mouths.old.items }
    requires of_front { All (IsLeftOf front.now) lefts.old.items }
    requires room { length lefts.old.items + length mouths.old.items ≤ vec_capacity lefts.old }
    ensures mouths { All (IsMouthOf front.now) mouths.new.items }
    ensures of_front { All (IsLeftOf front.now) lefts.new.items }
    ensures shut { ShutsLast mouths.old.items mouths.new.items lefts.old.items lefts.new.items }
    ensures room { length lefts.new.items + length mouths.new.items ≤ vec_capacity lefts.new }
{
    if let Some(mouth) = mouths.pop() {
        lefts.push_reserved(mouth.shut(front));
    }
}

// Shuts all mouths, and returns their accounts, the last mouth's first. It needs no memory, so it leaves no mouth open.
fn shut_all<X: Drop>(front: &Front<X>, mouths: &mut Vec<Mouth<X>>, lefts: &mut Vec<Left<X>>)
    requires mouths { All (IsMouthOf front.now) mouths.old.items }
    requires none { lefts.old.items ≡ [] }
    requires room { length mouths.old.items ≤ vec_capacity lefts.old }
    ensures lefts { lefts.new.items ≡ lefts_of mouths.old.items }
    ensures of_front { All (IsLeftOf front.now) lefts.new.items }
{
    for shut in 0..mouths.len() {
        shut_last(front, mouths, lefts);
    }
}

// Calls the callers with the mouths of a new front, and then shuts the mouths.
pub fn call_and_shut<X: Sent + Drop, K: Callers<X>, R: Threads + Wait + Sync>(
    rt: &R,
    front: &Front<X>,
    mouths: &mut Vec<Mouth<X>>,
    lefts: &mut Vec<Left<X>>,
    callers: &mut K,
)
    requires sync { IsSync R.row }
    requires new { AreNew front.now mouths.old.items lefts.old.items (vec_capacity lefts.old) }
    ensures { HaveCalled (K.called callers.old callers.new) front.now lefts.new.items }
{
    callers.call(rt, front, mouths.as_mut_slice());
    shut_all(front, mouths, lefts);
}

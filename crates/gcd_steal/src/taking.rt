// Takings over every rule. None says what the deque's own step says where it found no task, whatever the rule and whatever
// that is: so no body can make it up, and it can only come from a look at the deque in that call.
ghost use Rattle.std.specs.Prelude.{◌≡◌, ◌≤◌, [], ◌∷◌, MatchOption};
ghost use Rattle.crossbeam_deque.specs.Handles.{view, IsPassOf, SamePass, stealer_deque, stealer_flavor};
ghost use Rattle.crossbeam_deque.specs.Handles.{SameWorker, worker_flavor, worker_port, worker_view, worker_index};
ghost use Rattle.crossbeam_deque.specs.Tasks.{Takes, Finds, FindsFew};

use crossbeam_deque::protocol::{Outcome, Protocol};
use crossbeam_deque::{Pass, Steal, Stealer, Worker};
use std::alloc::Global;
use std::sync::Wait;

// Takes the task at the front of the owner's deque.
pub fn pop_front<T, V, P: Protocol<T, V>, M: Outcome<T, V>>(
    worker: &mut Worker<T, Global, V, P>,
) -> Option<T>
    requires fifo { worker_flavor worker.old ≡ 0 }
    requires takes { Takes P.holds (worker_port worker.old) (worker_view worker.old) 1
        (M.then (worker_view worker.old)) }
    requires empty { Finds P.holds (worker_port worker.old) (worker_view worker.old)
        (M.empty (worker_view worker.old)) }
    ensures same { SameWorker worker.old worker.new × (worker_index worker.new ≤ worker_index worker.old) }
    ensures rule { MatchOption result
        ((worker_view worker.new ≡ worker_view worker.old) × M.empty (worker_view worker.old))
        (λ x. M.then (worker_view worker.old) (x ∷ []) (worker_view worker.new)) }
{
    worker.pop_as::<M>()
}

// Takes the task at the front of another's deque. A taking that was lost to another is tried again.
pub fn steal_front<T, V, P: Protocol<T, V>, M: Outcome<T, V>, R: Wait>(
    rt: &R,
    thief: &Stealer<T, Global, V, P>,
    pass: &mut Pass<T, V>,
) -> Option<T>
    requires table { IsPassOf (stealer_deque thief.now) pass.old × (stealer_flavor thief.now ≡ 0) }
    requires takes { Takes P.holds pass.old.id (view pass.old) 1 (M.then (view pass.old)) }
    requires empty { FindsFew P.holds 0 pass.old.id (view pass.old) (M.empty (view pass.old)) }
    ensures same { SamePass pass.old pass.new }
    ensures rule { MatchOption result
        ((view pass.new ≡ view pass.old) × M.empty (view pass.old))
        (λ x. M.then (view pass.old) (x ∷ []) (view pass.new)) }
{
    for _ in rt.forever() {
        match thief.steal_as::<M>(pass) {
            Steal::Success(task) => return Some(task),
            Steal::Empty => return None,
            Steal::Retry => {}
        }
    }
    unreachable!()
}

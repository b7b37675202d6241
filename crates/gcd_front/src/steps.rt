// Pushes and pops over every rule. What they answer where the queue was full or empty is what the queue's own step tells,
// whatever the rule is: so no body can make it up, and it can only come from a look at the queue in that call.
ghost use Rattle.std.specs.Prelude.{◌≡◌, MatchOption, MatchResult};
ghost use Rattle.crossbeam_queue.specs.Fifo.{Pushes, Pops, Learns, Held};
ghost use Rattle.crossbeam_queue.specs.Passes.{view, IsPassOf, IsSamePass, ruled_capacity};

use crossbeam_queue::protocol::{Lesson, Outcome, Protocol};
use crossbeam_queue::{Pass, RuledArrayQueue};
use std::sync::Wait;

// Puts the value at the back. It comes back only where the queue was full at a moment of the call.
pub fn push<T, V, P: Protocol<T, V>, M: Outcome<T, V> + Lesson<T, V>, R: Wait>(
    rt: &R,
    queue: &RuledArrayQueue<T, V, P>,
    pass: &mut Pass<T, V>,
    value: T,
) -> Result<(), T>
    requires pass { IsPassOf queue.now pass.old }
    requires push { Pushes P.holds (ruled_capacity queue.now) pass.old.id (view pass.old) value
        (M.then (view pass.old) value) }
    requires fact { Learns P.holds pass.old.id (view pass.old) (M.fact (view pass.old)) }
    ensures same { IsSamePass pass.old pass.new }
    ensures rule { MatchResult result
        (λ _. M.then (view pass.old) value (view pass.new))
        (λ x. (x ≡ value) × (view pass.new ≡ view pass.old)
        × Held (ruled_capacity queue.now) (M.fact (view pass.old))) }
{
    queue.push_as::<M, R>(rt, pass, value)
}

// Takes the value at the front. None only where the queue was empty at a moment of the call.
pub fn pop<T, V, P: Protocol<T, V>, M: Outcome<T, V> + Lesson<T, V>, R: Wait>(
    rt: &R,
    queue: &RuledArrayQueue<T, V, P>,
    pass: &mut Pass<T, V>,
) -> Option<T>
    requires pass { IsPassOf queue.now pass.old }
    requires pop { Pops P.holds pass.old.id (view pass.old) (M.then (view pass.old)) }
    requires fact { Learns P.holds pass.old.id (view pass.old) (M.fact (view pass.old)) }
    ensures same { IsSamePass pass.old pass.new }
    ensures rule { MatchOption result
        ((view pass.new ≡ view pass.old) × Held 0 (M.fact (view pass.old)))
        (λ x. M.then (view pass.old) x (view pass.new)) }
{
    queue.pop_as::<M, R>(rt, pass)
}

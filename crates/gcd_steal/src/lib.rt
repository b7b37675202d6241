//! Rights to start runs on nodes, in places and in stealing deques: workers share ready nodes without a lock, and no two of them start runs
//! on one node at a moment.
//!
//! A [`Drain`] is the right to start runs on one node of a plan, a queue or a source. The rules of queues do not rest on it: the machine and
//! the row keep them. It holds the node's token, of which there is
//! one. It sleeps in the node's place, lies in a bench's deque or is held by a worker, and it can't be copied. Tokens, places and
//! deques are this project's own.
//!
//! # What is shared
//!
//! Three structures, each with a rule that holds between any two steps of any number of threads. A rule is over what the
//! structure contains and what each of its users knows, and each call shows that its steps keep it.
//!
//! | structure | rule |
//! |---|---|
//! | tokens | No node is in two tokens (`specs/Tokens`). |
//! | places | The word of a node is 1 exactly while its Drain sleeps, and then its token lies in the node's slot. What the seats know leaves one history of the writes to these words: each has seen it up to its own newest write, and counts its own (`specs/Places`). |
//! | deques | What owner and thieves took, in the order of their steps, is a front of what was pushed, and the rest is left in it (`specs/Deques`). |
//!
//! What a bench knows of the places is their history up to its newest write, but for a bench that gave its seat away: its new
//! seat has seen what the old one had, and after a sleep a bench has the seat of the Drain that it laid down.
//!
//! The kinds of step are push, pop, steal, emptying a place, laying a Drain into it, and splitting off a seat, a pass or a
//! token; seats are split off in [`Rack::wake`] too, since the seat that takes a node's slot goes with the Drain.
//!
//! # Calls
//!
//! | call | answer | steps |
//! |---|---|---|
//! | [`Rack::new`] | the rack of a plan and its benches, each Drain asleep, or out of memory | all that is made |
//! | [`Rack::wake`] | the node's Drain; None only where it was not asleep at a moment of the call | one swap, and one load where it slept |
//! | [`Rack::sleep`] | the Drain lies in its place | one store |
//! | [`Rack::push`] | Err, with the Drain, exactly where the bench has pushed `most` times | one load and one store |
//! | [`Rack::pop`] | the front of the bench's own deque; None only where it was found empty (below) | a fixed few |
//! | [`Rack::steal`] | the front of another's deque; None only where it was found empty (below) | a fixed few for each try |
//! | [`Rack::benches`], [`Bench::number`], [`Drain::node`] | what they are called | none |
//! | [`laws::two_drains_have_two_nodes`] | both Drains | three loads |
//!
//! Nothing but [`Rack::new`] takes memory: each deque has from the start the room for all pushes that its bench may make.
//! A bench may go to a thread of its own, and a rack is shared by `&`.
//!
//! # What rests on more than the clauses
//!
//! - None of [`Rack::wake`]: by its clause the call made one write to the node's word, after a history that the rule leaves no
//!   choice of, and after which the Drain did not sleep.
//! - None of [`Rack::pop`] and [`Rack::steal`]: by their clauses the deque can have held nothing while the pass knew what it
//!   knows. That it held nothing at a moment of that call rests on the form of two private functions (`src/taking.rt`): they
//!   hand on what the deque's own step tells, whatever the rule is, so none of their bodies can make it up. What a pass knows
//!   stays as it was at such a step, so no clause over the rule of these deques can say it.
//!
//! # What it does not say
//!
//! - That a call of [`Rack::steal`] returns: it tries again while others take before it.
//! - That a Drain goes on. Its holder may drop it, and its node is then drained no more; none of these calls drops one.
//! - Where a Drain is: no clause follows it from a deque to a place.
#![tactic(auto)]

mod bench;
mod deque;
mod drain;
pub mod laws;
mod lay;
mod make;
mod places;
mod rack;
mod taking;
mod tokens;

pub use bench::{Bench, Rack};
pub use drain::Drain;

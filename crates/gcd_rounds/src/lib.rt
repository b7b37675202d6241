//! The engine of several workers in rounds, which leaves the same journal every time: other engines are tested against it. (This
//! project's own rules: libdispatch has a pool of workers.)
//!
//! [`run_rounds`] runs rounds over one machine (`gcd_machine`) until the run is quiescent, halted or full, which is at `most` events, and
//! leaves a [`RoundsEnd`]. A round:
//!
//! | | |
//! |---|---|
//! | worker 0 | records what the outside asks for (`gcd_turn`) before each of its own events, and what it chooses, the nodes from number 0 on, until it has no choice or that is the End of a block that is not cancelled; this End is kept back |
//! | the other workers | one after the other, do so without the outside, as long as the run is neither halted nor full |
//! | jobs | those of the Ends that were kept back run by one parallel map; then these Ends are recorded in the order of the workers, as long as the run is neither halted nor full |
//! | the outside | where nobody recorded or kept back anything since worker 0 last asked, it polls or waits |
//!
//! The End of a cancelled block is recorded at once: it does no work, and its job is dropped (dispatch_block_cancel(3)).
//!
//! The turns of worker 0 are those of every engine (`gcd_loop`): a run by rounds is what records their events, and stops a turn where
//! the round is to end. A handler takes what is handed over as its Deliver is recorded, on the caller's thread. One worker asks clock
//! and poller as worker 0 alone does; `gcd_tests` compares what they leave.
//!
//! | clause | says, where memory sufficed |
//! |---|---|
//! | `ran` (`RunsPlan` of `gcd_loop`) | the journal is lawful and has ended, of at most `most` events; its workers are below the number of workers; with one worker each event of a worker is what that worker chooses at its place; no job of an outside caller is accepted, since there are none; what poller and clock said stands in it (`IsHeard`, `IsTimely`) |
//! | `values` (`AreGiven`) | for each block a value that its job may give at 0 where it has ended and is not cancelled, and else 0 |
//! | `handlers` (`AreHandlers`) | the handler of each source took as many values as it has Delivers, and what these handed over |
//! | `listens`, `addresses`, `poller_faults` | no listen was made, and the poller's count of faults did not fall; these hold where memory runs out too |
//!
//! How it is proved: `Running` is all that a run keeps, and `Round` that with the Ends that are kept back. `IsRun` says what its machine,
//! journal and handlers are, `AreReady` what its values and jobs are beside these Ends: an End that is kept back may come until its own
//! worker records something, since its worker holds the block and the block has no act left (`proofs/EndsKept`). `AtTurn` holds between
//! two turns of worker 0, `InRound` where its turn is stopped. That the promises on poller and clock follow is shown in `gcd_loop`.
//!
//! It waits for others, so nothing says that it returns: a clock may stand still, a poller may tell for ever of feeds that are no
//! longer live, and a job may wait. Nothing is said of threads: the jobs of one round may run in any.
#![tactic(auto)]

mod kept;
mod places;
mod round;
mod rounds;
mod running;
mod turns;

pub use rounds::{RoundsEnd, RoundsFault, run_rounds};

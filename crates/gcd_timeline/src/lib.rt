//! What a picture shows of a run: which worker has which run from where to where in a journal, and how each block stands at its end
//! (this project's own rules). `gcd_picture` draws them.
//!
//! | call | answer |
//! |---|---|
//! | [`marks`] | a mark for each run of the journal, in the order in which they begin (`marks_of`), or out of memory |
//! | [`standings`] | for each block whether it has started, waits for its start or is not submitted (`standings_of`), or out of memory |
//! | [`act_at`] | the act at a place of what a run does |
//!
//! The contract of [`marks`] is exact, over the plain list of the events (`specs/Marks`): at each Start and Deliver a mark, and in
//! it a stretch for each event up to the run's end that takes it, on the lane of that event's worker, from the event's place to
//! the place of the event that gives the run back, or the journal's length where none does. Which events take and give a run is
//! `taken` and `given` of `gcd_history`, whose laws say that in a lawful history a worker holds a run exactly in between, and that no
//! two hold one. A mark costs a look at the events from its begin to its end, and once more up to where each stretch is given back.
//!
//! The contract of [`standings`] is exact too, by the definitions of `gcd_history` alone (`specs/Standings`): that an act of the plan
//! names a block does not make it submitted.
#![tactic(auto)]

mod mark;
mod marking;
mod standing;
mod taking;

pub use mark::{Mark, Stretch};
pub use marking::marks;
pub use standing::{Standing, standings};
pub use taking::act_at;

// What a run leaves.
use gcd_event::Entry;
use gcd_history::State;
use gcd_machine::Machine;

/// What a run leaves, by however many workers.
#[derive(Drop)]
pub struct Outcome {
    /// All events, in order.
    pub journal: Vec<Entry>,
    /// For each block the value of its work where it has ended and is not cancelled, and else 0.
    pub values: Vec<u64>,
    /// How far the run has come.
    pub state: State,
    /// The machine that stands for the journal.
    pub machine: Machine,
}

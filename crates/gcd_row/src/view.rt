// The terms of a board, and what its passes know. Only contracts read these. No value of `Terms` or `View` is made.
use gcd_event::{Entry, Event};
use gcd_plan::Plan;
use std::collections::LinkedList;
use std::snapshot::Snapshot;

/// How many workers a board is made for, and how many events it takes.
#[derive(Clone, Copy, Drop)]
pub struct Limits {
    pub workers: u8,
    pub most: u32,
}

/// Copies for contracts of the plan that a board is made for, of the cells that were in its slots at first, and of the history that it
/// begins with. They have no bytes.
#[derive(Drop)]
pub struct Copies<S> {
    pub plan: Snapshot<Plan>,
    pub cells: Snapshot<Vec<S>>,
    pub history: Snapshot<Vec<Entry>>,
    pub limits: Limits,
}

/// The plan that a board is made for, the cells that were in its slots at first, by slot, and how many events its row began with.
pub struct Terms<S> {
    pub plan: Plan,
    pub cells: LinkedList<S>,
    pub limits: Limits,
    pub opened: u32,
}

/// Where the pass of a number is that was given out.
pub enum Standing {
    /// It was made and not joined.
    Out,
    /// It was joined into worker 0's pass.
    Back,
}

/// What a pass knows of the passed words, and of its loads.
pub struct PassMarks {
    /// Its own.
    pub passed: u64,
    /// Those of workers below `upto` are at least this.
    pub floor: u64,
    pub upto: u8,
    /// How often it has loaded one.
    pub loads: u64,
    /// The one that it loaded last, where that did not let the next event be written: whose it is, and what it was.
    pub held: Option<(u8, u64)>,
    /// How often a load told it that the row was what it had seen.
    pub looks: u64,
    /// How many events it had seen at the last of these loads.
    pub looked: u64,
}

/// What lies in the slot of the block of the intake that is accepted next.
pub enum Next<S> {
    /// What lay there at first.
    First,
    /// Nothing: worker 0 has the slot, to lay a body there.
    Out,
    /// What worker 0 laid there last.
    Laid(S),
}

/// What worker 0 has handed in for the blocks of the intake.
pub struct Handed<S> {
    /// What lay in a block's slot at its Accept, with the block's number, the last first.
    pub placed: LinkedList<(u16, S)>,
    pub next: Next<S>,
}

/// What a pass knows of its board.
pub struct View<S> {
    pub terms: Terms<S>,
    /// It was joined into another, and is no pass any more.
    pub spent: bool,
    /// Its number, 0 to 63.
    pub worker: u8,
    /// A beginning of the row's history, with all events of its worker.
    pub seen: LinkedList<Event>,
    /// A beginning of the history that another pass relayed to it.
    pub relayed: LinkedList<Event>,
    /// At worker 0: each number that was given out, the last change first.
    pub hands: LinkedList<(u8, Standing)>,
    pub marks: PassMarks,
    /// What it found in the slot of the run that it took last.
    pub first: Option<S>,
    /// At worker 0: what it has handed in.
    pub handed: Handed<S>,
}

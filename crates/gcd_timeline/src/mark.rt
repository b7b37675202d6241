// What a picture shows of a run.

use gcd_plan::Run;

/// A time in which one worker has a run: from the event that takes it (its Start, Wake or Deliver) to the event that gives it
/// back (the act that parks it, its End or its DeliverEnd). Places are indices of events, from 0.
#[derive(Clone, Copy)]
pub struct Stretch {
    /// The worker, on whose lane it is shown.
    pub worker: u8,
    /// The place of the event that takes the run.
    pub from: usize,
    /// The place of the event that gives it back; the number of events where none does.
    pub to: usize,
}

/// A run of a journal, and the stretches in which a worker has it, in order. Between two of them the run is parked.
#[derive(Drop)]
pub struct Mark {
    /// The block or source that runs.
    pub run: Run,
    /// When, and on whose lane. The first one begins where the run begins.
    pub stretches: Vec<Stretch>,
}

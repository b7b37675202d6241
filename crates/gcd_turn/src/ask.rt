// What worker 0 does next.

use gcd_event::Event;

/// What a turn asks of the engine, after its first steps.
#[derive(Clone, Copy)]
pub enum Ask {
    /// The run has ended: it is quiescent, halted or full.
    Leave,
    /// To record this, which a poller told; then, or where it is not permitted, [`Outside::settle`](crate::Outside::settle).
    Told(Event),
    /// To see to the intake, which is open: to take in the next job of an outside caller, or to record a Shut. Where nothing comes
    /// of it, [`Outside::ask_on`](crate::Outside::ask_on).
    Open {
        /// What worker 0 chooses, from object 0 on; None exactly where no event of worker 0 is permitted.
        chosen: Option<Event>,
    },
    /// To record this: a Halt, a Tick or an Expire.
    Put(Event),
    /// To record `chosen`, what worker 0 chooses; where that is None, [`Outside::idle`](crate::Outside::idle). No wait may
    /// expire.
    Work {
        /// What worker 0 chooses, from object 0 on; None exactly where no event of worker 0 is permitted.
        chosen: Option<Event>,
        /// How many milliseconds the next due time is ahead, at least 1; None where there is none. It is that time less what had passed
        /// since the start when the clock was asked.
        left: Option<u32>,
    },
}

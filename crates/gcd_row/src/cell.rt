// What lies in the slots of a board.
ghost use Rattle.std.specs.Prelude.{ℕ};
ghost use Rattle.gcd_row.specs.Shapes.{Shape};

use gcd_jobs::{Handler, Job};

/// What lies in a slot of a board.
pub trait Slot {
    // what it is of: a body, a value, a handler or nothing
    ghost shape: { Self → Shape };

    // the values that it may come to
    ghost gives: { Self → ℕ → Type 0 };
}

/// What a board has of a block or a source.
#[derive(Drop)]
pub enum Cell<J, H> {
    /// What the block runs, once; it has not ended.
    Body(J),
    /// What the block gave.
    Done(u64),
    /// What the source runs at each delivery.
    Handler(H),
    /// Nothing: what belongs here is with the worker that runs it, or the slot is that of an object which is no source.
    Away,
}

impl<J: Job, H: Handler> Slot for Cell<J, H> {
    ghost use Rattle.gcd_row.specs.Shapes.{shape_of, gives_of};

    ghost shape = { shape_of H.kind H.times H.total };

    ghost gives = { gives_of J.gives };
}

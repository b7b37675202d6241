// The rule of a board's table, and what each kind of step tells.
ghost use Rattle.std.specs.Prelude.{ℕ};
ghost use Rattle.gcd_row.specs.Plays.{Looked, Tried, Ended, Compared, Unused, PutDown, Asked, PassedOn, Reread, Reached, LaidThere};
ghost use Rattle.gcd_row.specs.Rule.{Holds};
ghost use Rattle.gcd_row.specs.Views.{opening_view, spent_view, lending, newcomer, merging, note, hearing};

use crate::cell::Slot;
use crate::view::{Copies, View};
use atomic_table::{Join, Play, Split, TableRule};
use std::marker::{Brand, PhantomData};

/// The rule of the row: there is a lawful history, whose words the row has and of which each pass has seen a beginning, and the
/// slot of a run that nobody holds has what lies there after it.
pub struct Lawful;

impl<S: Slot> TableRule<S, View<S>, Copies<S>> for Lawful {
    ghost holds = { Holds S.shape S.gives };

    ghost first = { opening_view };
}

// A load of the word behind what was seen.
pub struct Look;

impl<S> Play<S, View<S>> for Look {
    ghost then = { Looked };
}

// An exchange of that word.
pub struct Try;

impl<S: Slot> Play<S, View<S>> for Try {
    ghost then = { Tried S.shape S.gives };
}

// A load by a pass that has seen as many events as there can be.
pub struct End;

impl<S> Play<S, View<S>> for End {
    ghost then = { Ended };
}

// A load by a pass to which another relayed what it has seen.
pub struct Compare;

impl<S> Play<S, View<S>> for Compare {
    ghost then = { Compared };
}

// A load by worker 0's pass, which tells of the numbers that were never given out.
pub struct Fresh;

impl<S> Play<S, View<S>> for Fresh {
    ghost then = { Unused };
}

// A load by a pass that puts down what it has.
pub struct Down;

impl<S> Play<S, View<S>> for Down {
    ghost then = { PutDown };
}

// A load by worker 0's pass that takes the slot of the intake's next block.
pub struct Reach;

impl<S: Slot> Play<S, View<S>> for Reach {
    ghost then = { Reached S.shape };
}

// A load by worker 0's pass that lays down what it has of that block.
pub struct Lay;

impl<S> Play<S, View<S>> for Lay {
    ghost then = { LaidThere };
}

// A load of a passed word.
pub struct Ask;

impl<S> Play<S, View<S>> for Ask {
    ghost then = { Asked };
}

// A store of one's own.
pub struct PassOn;

impl<S> Play<S, View<S>> for PassOn {
    ghost then = { PassedOn };
}

// A load again of a cell.
pub struct Again;

impl<S> Play<S, View<S>> for Again {
    ghost then = { Reread };
}

// The number of a new pass. Each call picks it.
pub trait Numbered {
    ghost number: { ℕ };
}

impl Numbered for Brand {
    ghost number = { 0 };
}

// A new pass with a number is split off.
pub struct Cut<N> {
    number: PhantomData<N>,
}

impl<S, N: Numbered> Split<View<S>> for Cut<N> {
    ghost left = { λ v. lending v N.number };

    ghost right = { λ v. newcomer v N.number };
}

// A pass is joined into worker 0's.
pub struct Glue;

impl<S> Join<View<S>> for Glue {
    ghost both = { merging };

    ghost spent = { spent_view };
}

// One pass tells another what it has seen.
pub struct Tell;

impl<S> Split<View<S>> for Tell {
    ghost left = { λ v. v };

    ghost right = { note };
}

impl<S> Join<View<S>> for Tell {
    ghost both = { hearing };

    ghost spent = { spent_view };
}

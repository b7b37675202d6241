// What holds of runs of turns. Each function's contract is a law; its body is empty.
ghost use Rattle.std.specs.Prelude.{List};
ghost use Rattle.gcd_event.specs.declared.event.Event.{Event};
ghost use Rattle.gcd_history.specs.Ends.{HasEnded};
ghost use Rattle.gcd_outer.specs.Outside.{ClockState};
ghost use Rattle.gcd_turn.specs.Outsides.{Faced};
ghost use Rattle.gcd_loop.specs.Going.{BeginsAt, GoesOn, GoesOnFrom, RunsOn, both};
ghost use Rattle.gcd_loop.specs.Recorded.{Bounds};

/// Two runs with one outside, one behind the other, are one (this project's own rule).
pub fn two_runs_are_one()
    ensures { (b : Bounds) (h k l : List Event) (f g : Faced) → GoesOnFrom f g
        → GoesOn b h k f → GoesOn b k l g → GoesOn b h l (both f g) }
{}

/// A run from the first turn to its end is true to poller and clock: on any beginning of which the poller watches active feeds alone, what
/// they said since stands in what came since (this project's own rule).
pub fn first_run_is_true()
    ensures { (b : Bounds) (h k : List Event) (f : Faced) (t : ClockState) → BeginsAt t f
        → HasEnded b.most b.plan k → GoesOn b h k f → RunsOn b h k f t }
{}

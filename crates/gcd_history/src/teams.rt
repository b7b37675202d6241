// Which run each worker holds, and what a team of workers relies on.
ghost use Rattle.std.specs.Prelude.{◌≡◌, ◌≤◌, ℕ, List, [], ◌∷◌, ◌++◌, None, length};
ghost use Rattle.gcd_plan.specs.PlanView.{PlanView};
ghost use Rattle.gcd_plan.specs.Validity.{IsPlan};
ghost use Rattle.gcd_plan.specs.declared.numbers.Obj.{Obj};
ghost use Rattle.gcd_event.specs.declared.event.Event.{Event};
ghost use Rattle.gcd_history.specs.History.{IsLawful, running_of, choice_of};
ghost use Rattle.gcd_history.specs.Ends.{HasEnded, IsQuiescent};
ghost use Rattle.gcd_history.specs.Team.{of_worker, held_by, StartsWith, GrowsByHalt};
ghost use Rattle.gcd_history.specs.TeamFacts.{HeldRunsAreOpen, HeldRunsAreApart, HeldAfter, TakingsFindNobody, GivingsAreTheHolders, OwnEventsAreTheHolders, ParkingActsAreBlocks, ComesHome, CellsWait, NoWork, IsOneWorkers};
ghost use Rattle.gcd_history.specs.Cells.{CellsStay, HeldCellsWait, BodiesComeBack, HandsOver, TotalsFit};

/// What a worker holds is told from its own events: nothing before the first, then an event on, and equal events tell the same
/// (this project's own rule).
pub fn own_events_tell_what_is_held()
    ensures begin { (plan : PlanView) (w : ℕ) → held_by plan [] w ≡ None }
    ensures after { (plan : PlanView) (h : List Event) (e : Event) → HeldAfter plan h e }
    ensures own { (plan : PlanView) (g h : List Event) (w : ℕ) → of_worker w g ≡ of_worker w h
        → held_by plan g w ≡ held_by plan h w }
{}

/// In a lawful history a worker holds exactly the run that it has, open and not parked, so no two hold one run; and
/// at a quiescent one nobody holds any (this project's own rule).
pub fn held_runs_are_open()
    ensures runs { (plan : PlanView) (h : List Event) → IsLawful plan h → HeldRunsAreOpen plan h }
    ensures apart { (plan : PlanView) (h : List Event) → IsLawful plan h → HeldRunsAreApart plan h }
    ensures none { (plan : PlanView) (h : List Event) (w : ℕ) → IsPlan plan → IsLawful plan h → IsQuiescent plan h
        → held_by plan h w ≡ None }
{}

/// Who takes a run held none, and nobody held that one (this project's own rule).
pub fn takings_find_nobody()
    ensures { (plan : PlanView) (h : List Event) → IsLawful plan h → TakingsFindNobody plan h }
{}

/// Who gives a run back, or makes an act of it, held it; what parks is a block; and a run that is nobody's after an event was
/// given by it or was nobody's before (this project's own rule).
pub fn givings_are_the_holders()
    ensures gives { (plan : PlanView) (h : List Event) → IsLawful plan h → GivingsAreTheHolders plan h }
    ensures acts { (plan : PlanView) (h : List Event) → IsLawful plan h → OwnEventsAreTheHolders plan h }
    ensures blocks { (plan : PlanView) → IsPlan plan → ParkingActsAreBlocks plan }
    ensures home { (plan : PlanView) (h : List Event) (e : Event) → IsLawful plan (h ++ e ∷ []) → ComesHome plan h e }
{}

/// What is known of a run's cell changes only as its own run is given or taken: others' events leave it alone (this project's
/// own rule).
pub fn cells_wait()
    ensures others { (plan : PlanView) (h later : List Event) → IsLawful plan (h ++ later) → CellsWait plan h later }
    ensures held { (plan : PlanView) (h : List Event) → IsLawful plan h → HeldCellsWait plan h }
    ensures stays { (plan : PlanView) (h : List Event) (e : Event) → CellsStay plan h e }
    ensures back { (plan : PlanView) (h : List Event) → IsLawful plan h → BodiesComeBack plan h }
{}

/// A Deliver counts once and hands over what is pending, and what sources count and add up is small
/// (dispatch_source_get_data(3)).
pub fn deliver_hands_over()
    ensures now { (plan : PlanView) (h : List Event) (w : ℕ) (s : Obj) → HandsOver plan h w s }
    ensures low { (plan : PlanView) (h : List Event) (s : ℕ) → IsPlan plan → IsLawful plan h → TotalsFit plan h s }
{}

/// Where a history has ended, a lawful one that goes on from it has at most a halt more, and none goes on from it without an
/// event of worker 0; and no history of worker 0 alone goes on from another without one (this project's own rule).
pub fn ended_histories_are_whole()
    ensures ended { (most : ℕ) (plan : PlanView) (g h : List Event) → HasEnded most plan h → IsLawful plan g → length g ≤ most
        → StartsWith g h → of_worker 0 g ≡ of_worker 0 h → g ≡ h }
    ensures halt { (most : ℕ) (plan : PlanView) (g h : List Event) → HasEnded most plan h → IsLawful plan g → length g ≤ most
        → StartsWith g h → GrowsByHalt g h }
    ensures alone { (g h : List Event) → StartsWith g h → of_worker 0 g ≡ of_worker 0 h → IsOneWorkers g → g ≡ h }
{}

/// Where no run is open and unparked and worker 0 has no choice, no worker's event is permitted (this project's own rule).
pub fn idle_histories_wait()
    ensures { (plan : PlanView) (h : List Event) → IsPlan plan → running_of plan h ≡ 0 → choice_of plan h 0 0 ≡ None
        → NoWork plan h }
{}

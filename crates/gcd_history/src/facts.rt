// What else holds of every lawful history, beside the laws. Each function's contract is a fact; its body is empty.
ghost use Rattle.std.specs.Prelude.{◌≡◌, ℕ, List, [], ◌∷◌, ◌++◌, false};
ghost use Rattle.gcd_plan.specs.PlanView.{PlanView};
ghost use Rattle.gcd_plan.specs.Validity.{IsPlan};
ghost use Rattle.gcd_event.specs.declared.event.Event.{Event};
ghost use Rattle.gcd_history.specs.History.{IsLawful, running_of};
ghost use Rattle.gcd_history.specs.Ends.{is_halted};
ghost use Rattle.gcd_history.specs.Facts.{HasOneRun, GivesToFree, OpenOnce, RunsGoOn, IsFreeWorker, FreeWorkersAreAlike, MayWakeUntilWoken, WakesArePermitted, AllFit, OnlyActiveMove, TargetsChangeAlone, StaysActive, StaysCancelled, FeedsDie, DeadFeedsStay, DeadFeedsAreSilent, AcceptsStayPermitted};

/// A worker has at most one run that is open and not parked, and each Start, Wake and Deliver finds its worker without one
/// (this project's own rule).
pub fn workers_have_one_run()
    ensures one { (plan : PlanView) (h : List Event) → IsLawful plan h → HasOneRun plan h }
    ensures given { (plan : PlanView) (h : List Event) → IsLawful plan h → GivesToFree plan h }
{}

/// A run of a block or of a source stands at most once among the open runs (this project's own rule).
pub fn open_runs_stand_once()
    ensures { (plan : PlanView) (h : List Event) → IsLawful plan h → OpenOnce h }
{}

/// A run that is open and not parked has a permitted event of its own, as long as the history is not halted: its next act,
/// which may be a misuse, or its end (this project's own rule).
pub fn open_runs_go_on()
    ensures { (plan : PlanView) (h : List Event) → IsPlan plan → IsLawful plan h → is_halted h ≡ false
        → RunsGoOn plan h }
{}

/// What is permitted to one free worker is permitted to every other; and where no run is open and unparked each worker is
/// free (this project's own rule).
pub fn free_workers_are_alike()
    ensures alike { (plan : PlanView) (h : List Event) → FreeWorkersAreAlike plan h }
    ensures free { (plan : PlanView) (h : List Event) (w : ℕ) → running_of plan h ≡ 0 → IsFreeWorker plan h w }
{}

/// A block that may wake may wake until its Wake, which is permitted to every free worker as long as the history is not
/// halted (dispatch_sync(3), dispatch_group_wait(3), dispatch_semaphore_wait(3)).
pub fn wakes_stay_due()
    ensures due { (plan : PlanView) (h later : List Event) → IsLawful plan (h ++ later) → MayWakeUntilWoken plan h later }
    ensures permitted { (plan : PlanView) (h : List Event) → IsLawful plan h → is_halted h ≡ false
        → WakesArePermitted plan h }
{}

/// Each event of a lawful history fits, so it has a word (this project's own rule).
pub fn lawful_events_fit()
    ensures { (plan : PlanView) (h : List Event) → IsPlan plan → IsLawful plan h → AllFit h }
{}

/// Only an object that was created active can be about to change its target, and no run is open beneath an object after the
/// event that changes its target (dispatch_set_target_queue(3)).
pub fn targets_change_alone()
    ensures moving { (plan : PlanView) (h : List Event) → IsPlan plan → IsLawful plan h → OnlyActiveMove plan h }
    ensures alone { (plan : PlanView) (h : List Event) (e : Event) → IsPlan plan → IsLawful plan (h ++ e ∷ [])
        → TargetsChangeAlone plan h e }
{}

/// An object that is active stays active (dispatch_activate(3)).
pub fn active_objects_stay_active()
    ensures { (plan : PlanView) (h later : List Event) → StaysActive plan h later }
{}

/// A source that is cancelled stays cancelled (dispatch_source_cancel(3)).
pub fn cancelled_sources_stay_cancelled()
    ensures { (plan : PlanView) (h later : List Event) → StaysCancelled plan h later }
{}

/// The feed of a read source is dead once the source is cancelled or the run is halted. A feed that was live and is so no
/// more is dead; a dead feed stays dead, and neither a Ready nor a FeedEnd of it comes any more
/// (dispatch_source_cancel(3)).
pub fn dead_feeds_stay_dead()
    ensures die { (plan : PlanView) (h later : List Event) → FeedsDie plan h later }
    ensures stay { (plan : PlanView) (h later : List Event) → IsLawful plan (h ++ later) → DeadFeedsStay plan h later }
    ensures silent { (plan : PlanView) (h later : List Event) → IsLawful plan (h ++ later)
        → DeadFeedsAreSilent plan h later }
{}

/// An Accept that may come may still come after any events that are not an Accept or a Shut, as long as these do not halt the
/// run (this project's own rule).
pub fn accepts_stay_permitted()
    ensures { (plan : PlanView) (h later : List Event) → AcceptsStayPermitted plan h later }
{}

// What holds of every lawful history, and some of every history. Each function's contract is a law; its body is empty.
ghost use Rattle.std.specs.Prelude.{◌≡◌, ◌≤◌, ℕ, List, Some, None, false, length, count_by};
ghost use Rattle.std.specs.List.{range_with_len};
ghost use Rattle.gcd_plan.specs.PlanView.{PlanView};
ghost use Rattle.gcd_plan.specs.Validity.{IsPlan};
ghost use Rattle.gcd_event.specs.declared.event.Event.{Event};
ghost use Rattle.gcd_event.specs.declared.event.Event.TheVariants.{Halt};
ghost use Rattle.gcd_history.specs.History.{IsLawful, why, choice_of};
ghost use Rattle.gcd_history.specs.Ends.{HasEnded, IsDrained, IsQuiescent, IsHalted, HasState};
ghost use Rattle.gcd_history.specs.declared.state.State.{State};
ghost use Rattle.gcd_history.specs.Values.{words_begun, begins_word};
ghost use Rattle.gcd_history.specs.Laws.{RunsOnce, StartsAfterSubmission, AllEndOnce, IsSubmittedOnce, StartsInOrder, BeginsFree, WakesHaveCause, NoneParked, WaitsAreOver, GroupWaitsEnd, SemaphoreWaitsEnd, IsConserved, LastsAreKept, RunsExclude, BlocksOfOneNodeApart, BarriersExclude, DeliversAlone, TreeStands, IsChoiceOf, HasNoChoice, HasSomeState, IsAtRest, AppliedStripsHaveRun, CancelledBlocksDoNothing, CancelledBlocksMayEnd, NotifiedOnce, AcceptsInOrder};

/// Each block starts at most once, after its submission, and ends at most once; where the run is drained each submitted
/// block has ended exactly once (dispatch_async(3)).
pub fn blocks_run_once()
    ensures once { (plan : PlanView) (h : List Event) → IsLawful plan h → RunsOnce h }
    ensures after { (plan : PlanView) (h : List Event) → IsLawful plan h → StartsAfterSubmission plan h }
    ensures drained { (plan : PlanView) (h : List Event) → IsLawful plan h → IsDrained plan h
        → AllEndOnce plan h }
{}

/// Each block is submitted at most once (this project's own rule).
pub fn blocks_are_submitted_once()
    ensures { (plan : PlanView) (h : List Event) → IsPlan plan → IsLawful plan h
        → IsSubmittedOnce plan h }
{}

/// Of two submissions on one node the later starts only after the earlier has started (dispatch_queue_create(3)).
pub fn blocks_start_in_order()
    ensures { (plan : PlanView) (h : List Event) → IsPlan plan → IsLawful plan h → StartsInOrder plan h }
{}

/// No two different runs overlap where both are beneath one serial queue or source (dispatch_queue_create(3),
/// dispatch_set_target_queue(3)). A run of a source is named by the source: of two deliveries of one source
/// [`deliveries_exclude_each_other`] speaks.
pub fn runs_exclude_each_other()
    ensures { (plan : PlanView) (h : List Event) → IsPlan plan → IsLawful plan h → RunsExclude plan h }
{}

/// No two different blocks that were submitted on one serial queue overlap (dispatch_queue_create(3)). It follows from
/// [`runs_exclude_each_other`].
pub fn blocks_of_one_queue_exclude_each_other()
    ensures { (plan : PlanView) (h : List Event) → IsPlan plan → IsLawful plan h → BlocksOfOneNodeApart plan h }
{}

/// No run of a concurrent queue other than root overlaps a barrier of that queue (dispatch_barrier_async(3)).
pub fn barriers_exclude()
    ensures { (plan : PlanView) (h : List Event) → IsLawful plan h → BarriersExclude plan h }
{}

/// A Deliver stands only where no run of its source is open, so no two deliveries of one source overlap
/// (dispatch_source_create(3)).
pub fn deliveries_exclude_each_other()
    ensures { (plan : PlanView) (h : List Event) → IsLawful plan h → DeliversAlone h }
{}

/// At a block's Start and at a Deliver each object of the chain is active, with hold 0, and its target is not about to change
/// (dispatch_suspend(3), dispatch_activate(3), dispatch_set_target_queue(3)).
pub fn runs_begin_free()
    ensures { (plan : PlanView) (h : List Event) → IsLawful plan h → BeginsFree plan h }
{}

/// A Wake stands only where what its block waits for had come, or where its wait had expired; where the run is drained no block
/// is parked, and whatever a block has waited for has come, or its wait has expired, so every group wait and every semaphore
/// wait has passed or expired (dispatch_sync(3), dispatch_block_wait(3), dispatch_apply(3), dispatch_group_wait(3),
/// dispatch_semaphore_wait(3)).
pub fn wakes_have_causes()
    ensures cause { (plan : PlanView) (h : List Event) → IsLawful plan h → WakesHaveCause plan h }
    ensures none { (plan : PlanView) (h : List Event) → IsLawful plan h → IsDrained plan h
        → NoneParked plan h }
    ensures passed { (plan : PlanView) (h : List Event) → IsLawful plan h → IsDrained plan h
        → WaitsAreOver plan h }
    ensures groups { (plan : PlanView) (h : List Event) → IsPlan plan → IsLawful plan h → IsDrained plan h
        → GroupWaitsEnd plan h }
    ensures semaphores { (plan : PlanView) (h : List Event) → IsPlan plan → IsLawful plan h → IsDrained plan h
        → SemaphoreWaitsEnd plan h }
{}

/// What the Delivers of a source handed over, with what is pending, is all that it was given; of a replace source the last merge
/// is pending where it stands after the last Deliver, and else nothing is pending and it was received last
/// (dispatch_source_merge_data(3)).
pub fn merged_data_is_conserved()
    ensures others { (plan : PlanView) (h : List Event) → IsConserved plan h }
    ensures replaced { (plan : PlanView) (h : List Event) → IsLawful plan h → LastsAreKept plan h }
{}

/// While a run is open the chain of its node does not change and each object of it is active, and following targets from any
/// object ends at root (dispatch_set_target_queue(3), dispatch_activate(3)).
pub fn tree_stands_under_open_runs()
    ensures { (plan : PlanView) (h : List Event) → IsPlan plan → IsLawful plan h → TreeStands plan h }
{}

/// Where a Wake of the block that applied a strip stands after that act, each block of the strip has started once and ended
/// once after the act and before the Wake (dispatch_apply(3)).
pub fn applied_strips_have_run()
    ensures { (plan : PlanView) (h : List Event) → IsPlan plan → IsLawful plan h → AppliedStripsHaveRun plan h }
{}

/// No act of a cancelled block stands, and its End may follow its Start at once (dispatch_block_cancel(3)).
pub fn cancelled_blocks_do_nothing()
    ensures nothing { (plan : PlanView) (h : List Event) → IsLawful plan h → CancelledBlocksDoNothing plan h }
    ensures ends { (plan : PlanView) (h : List Event) → CancelledBlocksMayEnd plan h }
{}

/// The block of a `notify_block` act is submitted once where that act and the End that it waits for both stand, and else never
/// (dispatch_block_notify(3)).
pub fn ends_notify_once()
    ensures { (plan : PlanView) (h : List Event) → IsPlan plan → IsLawful plan h → NotifiedOnce plan h }
{}

/// The blocks of the intake are accepted in order, each once, and none after the Shut (this project's own rule).
pub fn blocks_are_accepted_in_order()
    ensures { (plan : PlanView) (h : List Event) → IsLawful plan h → AcceptsInOrder plan h }
{}

/// What a worker chooses is an event of its own that is permitted; of a valid plan it chooses none exactly where no event of
/// its own is permitted, whatever the history is and from whatever node on it looks (this project's own rule).
pub fn choices_are_complete()
    ensures chosen { (plan : PlanView) (h : List Event) (w from : ℕ) (e : Event)
        → choice_of plan h w from ≡ Some e → IsChoiceOf plan h w e }
    ensures none { (plan : PlanView) (h : List Event) (w from : ℕ) → IsPlan plan → choice_of plan h w from ≡ None
        → HasNoChoice plan h w }
{}

/// A history is quiescent exactly where it is at rest: no run is open and unparked, worker 0 has no choice, no wait may expire,
/// no due time is left, no read source is live and no intake is open (this project's own rule).
pub fn quiescent_is_at_rest()
    ensures quiescent { (plan : PlanView) (h : List Event) → IsPlan plan → IsLawful plan h → IsAtRest plan h
        → IsQuiescent plan h }
    ensures rest { (plan : PlanView) (h : List Event) → IsPlan plan → IsLawful plan h → IsQuiescent plan h
        → IsAtRest plan h }
{}

/// After a misuse or a halt nothing is permitted, and after a quiescent history a halt alone (this project's own rule).
pub fn ended_histories_stand()
    ensures halted { (plan : PlanView) (h : List Event) (e : Event) → IsHalted h → why plan h e ≡ None → ⊥ }
    ensures quiescent { (plan : PlanView) (h : List Event) (e : Event) → IsQuiescent plan h → why plan h e ≡ None
        → e ≡ Halt }
{}

/// A history that has ended is not empty, where it may have an event at all: `main` may start from the outset (this project's own
/// rule).
pub fn ended_histories_are_not_empty()
    ensures { (most : ℕ) (plan : PlanView) (h : List Event) → 1 ≤ most → IsPlan plan → HasEnded most plan h → 1 ≤ length h }
{}

/// A history has come to at most one state (this project's own rule).
pub fn states_are_apart()
    ensures { (plan : PlanView) (h : List Event) (s t : State) → HasState plan h s → HasState plan h t
        → s ≡ t }
{}

/// A lawful history of a valid plan has come to a state (this project's own rule).
pub fn each_history_has_a_state()
    ensures { (plan : PlanView) (h : List Event) → IsPlan plan → IsLawful plan h → HasSomeState plan h }
{}

/// The words of a text are as many as the places where a word begins: the byte there is no space, and it is the first byte or
/// the byte before it is a space (this project's own rule).
pub fn words_are_places_where_one_begins()
    ensures { (bytes : List ℕ) → words_begun false bytes ≡ count_by (begins_word bytes) (range_with_len 0 (length bytes)) }
{}

//! What a history of events says: the definitions that every other crate cites. No code of the program stands here.
//!
//! A history is the list of its events in order, `List Event`; position i is what its first i events say, `take i h`. Its
//! words take the plan, the history and numbers of objects and blocks:
//!
//! | file of specs/ | words |
//! |---|---|
//! | `History` | what may come next (`why`, `IsPermitted`, `IsLawful`, `choice_of`), and what is open, parked, submitted, held, due and pending then |
//! | `Ends` | how a history ends: `IsHalted`, `IsQuiescent`, `IsDrained`, `IsStuck`, `IsFull`, `HasState`. Each is said of one history: another run of the plan may end otherwise |
//! | `Values` | what a block's work computes: `value_of` |
//! | `Report`, `JournalText` | the texts of a run: `report_text`, `front_text`, `journal_text` |
//! | `Tree`, `Holds`, `Submitted`, `Parked` | targets and chains; suspension and activation; submissions, notify blocks and their order; waits |
//! | `Groups`, `Semas`, `Sources`, `Timers`, `Cancelled`, `Intake` | what groups count, semaphores let pass, sources have pending; time; cancelled blocks; blocks from outside |
//! | `Misuses` | references, and which acts are misuses, with their codes |
//! | `Laws`, `Facts`, `TeamFacts`, `Cells` | what the laws and facts below say |
//! | `Team`, `Held` | which run each worker holds, told from its own events |
//! | the others | the same words by recursion, over the events in reverse, the newest first: `e ∷ past` is past, followed by e |
//!
//! The words of `History`, `Ends` and the texts are `unfoldable`, and each is one line over a word of the other files at
//! `reverse h`. So a crate above cites them shut, and where it proves something of one event more it opens them, and computes
//! by `reverse (h ++ e ∷ []) ≡ e ∷ reverse h` (`proofs/Lists`, `reverse_push`).
//!
//! Each definition says where its rule comes from: the section 3 manual page that it names, or else that of its file's first
//! lines; where these name none it is this project's own rule.
//!
//! A definition that sorts acts, events, kinds or states names each variant, so that the compiler refuses a new one until
//! someone decides what it is. What an act does is read from its row in `Effects` of `gcd_plan`. Five walks look for events of certain
//! kinds and pass over all others: `acts_done`, `last_act` and `last_limit` look for acts, `parked_by` for acts and Wakes, and
//! `last_worker` for what begins or wakes a run. Of the others `acts_done` and `parked_by` ask only whether they open the run.
//!
//! Worked rows (`proofs/Rows/`) are computed with each check: `proofs/Rows.antt` names their files, so a row that does not hold
//! fails the crate, though no law cites it.
//!
//! | folder of proofs/ | what is proved there |
//! |---|---|
//! | `Permitted` | lawful histories; what is known where an event is permitted; choices; that nothing is left to come |
//! | `Blocks`, `MadeBlocks` | submissions, starts, cancellation and notify blocks; blocks of the intake and of strips |
//! | `Runs`, `Waits`, `Tree`, `Sources` | open runs, parked blocks, targets, and what sources hand over |
//! | `HeldRuns` | which run each worker holds |
//! | `Public` | the laws and facts over histories in order, from those by recursion |
//! | `Rows` | the worked rows, of definitions and of each law's premise |
//!
//! | law, a function with an empty body | says |
//! |---|---|
//! | [`lawful::lawful_begins`], [`lawful::lawful_goes_on`] | what makes a history lawful |
//! | [`lawful::fronts_are_lawful`], [`lawful::next_is_permitted`] | what a lawful history is made of |
//! | [`lawful::permitted_events_fit`] | a permitted event has its fields in their ranges |
//! | [`laws::blocks_run_once`], [`laws::blocks_are_submitted_once`] | a block starts at most once, after its one submission, and where all is drained it has ended |
//! | [`laws::blocks_start_in_order`] | of two submissions on one node the later starts only after the earlier has started |
//! | [`laws::runs_exclude_each_other`] | beneath a serial queue or source a run is alone |
//! | [`laws::barriers_exclude`] | a barrier is open beside no other run of its own queue |
//! | [`laws::blocks_of_one_queue_exclude_each_other`] | so blocks of one serial queue never overlap |
//! | [`laws::deliveries_exclude_each_other`] | a delivery begins where no run of its source is open |
//! | [`laws::runs_begin_free`] | what begins, begins with its whole chain free |
//! | [`laws::wakes_have_causes`] | a parked block wakes only when what it waits for has come, or its wait has expired |
//! | [`laws::applied_strips_have_run`] | where the block that applied a strip has woken, each block of the strip has run in between |
//! | [`laws::cancelled_blocks_do_nothing`] | a cancelled block makes no act, and may end at once |
//! | [`laws::ends_notify_once`] | the block of a `notify_block` is submitted once after the End that it waits for |
//! | [`laws::blocks_are_accepted_in_order`] | the intake's blocks are accepted in order, and none after the Shut |
//! | [`laws::merged_data_is_conserved`] | what was merged was handed over, or is pending |
//! | [`laws::tree_stands_under_open_runs`] | targets lead to root, and stand still under an open run |
//! | [`laws::choices_are_complete`] | in any history of a valid plan a worker has a choice exactly where an event of its own is permitted |
//! | [`laws::quiescent_is_at_rest`], [`laws::ended_histories_stand`], [`laws::ended_histories_are_not_empty`] | how to see that nothing goes on, what can still come then, and that something has come before |
//! | [`laws::states_are_apart`], [`laws::each_history_has_a_state`] | a history has at most one state, and a lawful one of a valid plan has one |
//! | [`laws::words_are_places_where_one_begins`] | what the work `words` counts, said without recursion |
//! | [`facts::workers_have_one_run`], [`facts::open_runs_go_on`] | a worker has at most one open and unparked run, and none where it gets one; and such a run has a permitted event of its own |
//! | [`facts::open_runs_stand_once`] | a run stands at most once among the open runs |
//! | [`facts::free_workers_are_alike`] | what is permitted to one free worker is permitted to every other |
//! | [`facts::wakes_stay_due`] | a block that may wake may wake until its Wake |
//! | [`facts::lawful_events_fit`] | each event of a lawful history fits |
//! | [`facts::accepts_stay_permitted`] | an Accept that may come may come after events of others |
//! | [`facts::targets_change_alone`] | only what was created active moves, and nothing is open beneath what has moved |
//!
//! | [`teams::own_events_tell_what_is_held`] | equal events of a worker tell the same of what it holds; an event changes it for its worker alone |
//! | [`teams::held_runs_are_open`] | a worker holds exactly the run that it has, open and not parked; no two hold one; at a quiescent history nobody holds any |
//! | [`teams::takings_find_nobody`] | a worker that takes a run held none, and nobody held that run |
//! | [`teams::givings_are_the_holders`] | a worker that gives a run back, or makes an act of it, held it |
//! | [`teams::cells_wait`] | others' events do not end a block, nor deliver to a source, whose run a worker holds |
//! | [`teams::deliver_hands_over`] | a Deliver counts once and hands over what is pending; counts and totals are small |
//! | [`teams::ended_histories_are_whole`] | nothing but a Halt can follow once a history has ended, and nothing without an event of worker 0 |
//! | [`teams::idle_histories_wait`] | if no run is open and unparked and worker 0 has no choice, no worker has one |
//!
//! A worker holds a run from its Start, Wake or Deliver to the act that parks it, its End or its DeliverEnd. What it holds is told
//! from its own events alone (`held_by` of `specs/Team`), and that is what threads which share a history rely on: each knows its own
//! events, and only a front of the rest. So say the laws of `teams`.
//!
//! Nothing here says that a run exists, that a worker does anything, or which of several lawful histories comes.
#![tactic(auto)]

pub mod facts;
pub mod lawful;
pub mod laws;
mod state;
mod submission;
pub mod teams;

pub use state::State;
pub use submission::Submission;

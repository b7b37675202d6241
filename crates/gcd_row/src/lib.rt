//! The shared row: up to 64 workers decide by single exchanges which event comes next, and each follows the row with a machine of
//! its own. No call waits for another, and no lock is taken.
//!
//! A [`Board`] is made for so many workers and for at most so many events, 1 to 4,294,967,295. It has 4,161 words and a slot for each
//! block and each object of its plan. Word 0 stays 0. The words 1 to 4,096 are the *cells* of a ring: event n stands in word
//! 1 + n mod 4,096, as its own word, plus 2^63 in every second lap. It is the one exchange of that word from the word of event n - 4,096,
//! or from 0 in the first lap. The words behind the cells are the *passed words* of workers 0 to 63: how many events each has read for
//! good. A passed word only grows, and is 2^64 - 1 where its worker reads no more, or never will; event n is written only where all
//! passed words are above n - 4,096. So no cell is written again while a pass has still to read it, and a row may be longer than its
//! ring.
//!
//! A [`Pass`] is what one worker has of the board: a beginning of the row's history, which it has *seen*, a machine that stands for that,
//! what it knows of the passed words, and the slot of the run that its worker *holds*, the one that it started, woke or had delivered and
//! that is open and not parked. That a block's body is with one worker at a time is libdispatch's rule (dispatch_async(3)), and that the
//! body of a cancelled block is with none (dispatch_block_cancel(3)); row and slots are this project's own. Worker 0 *gathers* what it passes into a journal; the others just pass on.
//!
//! The *job* of a block is the one that the board was made with. Of a block of the intake it is the body that lay in its slot at its
//! Accept: before that worker 0 may lay others there, one after the other, and nobody else takes it, since such a block starts only
//! where it is accepted. So worker 0 takes that slot by a load, lays a body there, and lays the slot down by a second load, and a pass
//! has one slot at most between two calls. A worker that starts the block notes the body that it finds there.
//!
//! # The rule
//!
//! Between any two steps of any number of passes (`specs/Rule`):
//!
//! | | |
//! |---|---|
//! | the cells | word 0 is 0, and the cells hold the last 4,096 events of a lawful history of the plan, each with the bit of its lap, and 0 where there is none yet; it has no more events than the board was made for |
//! | the passed words | the history is at most 4,096 events longer than each; that of a worker is gone, 0, or at most what its pass has seen; each pass knows its own, and of those below a number that they are at least another, its *pair* |
//! | the passes | each has seen a beginning of that history, with all events of its own worker; no two are of one worker; worker 0's knows which numbers are out, and no event is of a number that was never given out; some pass has seen all |
//! | the slots | the slot of a run that nobody holds is at home, unless worker 0 is about to lay a body there: a block's has its body, which gives only what the block's job may, and where the block has ended a value that this job may give, or 0 where it is cancelled; a source's has its handler, with the times and the total of all its Delivers |
//! | the jobs | worker 0's pass knows the job of each block of the intake that is accepted, and what it laid into the slot of the next, which lies there; what a pass noted at the Start of the block that it holds gives only what the block's job may |
//!
//! The kinds of step are a load and an exchange of a cell, a load of a passed word, a store of one's own, plain reading and writing of
//! a slot that one holds, two loads by which worker 0 takes the slot of the intake's next block and lays it down, and splitting and
//! joining a seat. An exchange rests on its caller's own pair.
//!
//! # Calls
//!
//! Each asks for a pass of the board and leaves one (`IsPassOf`). What a pass knows is its `view`, what it has of slots its `slots`.
//!
//! | call | answer | clause |
//! |---|---|---|
//! | [`RowBoard::new`] | a board with an empty row and worker 0's pass, or out of memory | `AreFirst`, `first_view` |
//! | [`RowBoard::after`] | a board whose row begins with a history, and worker 0's pass, which has passed it; or cells and machine, where memory runs out | `Opens`, `first_view` |
//! | [`RowBoard::most`] | how many events the row can have | `Limits` |
//! | [`RowBoard::look`] | the length of the row at a load in the call, which the pass has then seen | `Looks` |
//! | [`RowBoard::put`], [`RowBoard::put_chosen`] | the event is event n; or the row, at a load in the call, was what the pass has now seen, after which the event is not permitted, with the first reason, or is held, with the lowest worker that has still to pass the event a lap ago; or the row is full | `Says`, `SaysSlots` |
//! | [`RowBoard::pass_on`] | a helper's passed word is what its pass has seen | `passing` |
//! | [`RowBoard::gather`] | worker 0's journal is what its pass has seen, and its passed word says how much that is; or out of memory | `IsGathered`, `passing` |
//! | [`RowBoard::split`] | a pass for a new number, with the machine that it was given | `lending`, `newcomer` |
//! | [`RowBoard::join`] | worker 0's pass has taken in another | `Merges` |
//! | [`RowBoard::take_body`], [`RowBoard::give_body`], [`RowBoard::give_done`] | a block's body or value, from the slot of the run that the pass holds and into it | `MayGive` |
//! | [`RowBoard::place_body`] | what lay in the slot of the intake's next block, where the job lies then; with the block's Accept it is the block's job | `turning`, `IsLaid`, `HandsOn` |
//! | [`RowBoard::take_handler`], [`RowBoard::give_handler`] | the same of a source's handler | `IsUntaken`, `IsServed` |
//! | [`RowBoard::close`], [`RowBoard::close_whole`] | the journal with the rest of the whole history, which is that of the row, and all slots, or out of memory; the second also gives the machine | `IsWholeRow`, `AtRest` |
//! | [`RowPass::machine`], [`RowPass::worker`] | the machine, which stands for what the pass has seen, and the number | |
//!
//! A board takes 33,288 bytes for its words, however many events it is made for, and its slots; a pass takes a machine; a journal grows
//! as it is gathered. No call but `new`, `after`, `gather` and those that close takes memory. `look` and `put` go on by one event each
//! turn, so they return. A board may be shared by threads and a pass sent to one, where jobs and handlers may be sent.
//!
//! All numbers below the board's number of workers count from the outset, split or not: one that is never split holds the ring after
//! 4,096 events. So does a worker that is long in a body, or that its system does not run: the others are held until it passes on.
//!
//! # How it is proved
//!
//! Over `atomic_table`, whose steps may assume the rule and have to keep it. `specs/Plays` says what each step tells; of each there
//! is one lemma that it keeps the rule (`proofs/Keeping`), over lemmas on one part of the rule each: cells (`RowWords`), passed words
//! (`Marking`, `Parted`), views (`Seen`, `Parting`), jobs (`Jobs`, `Handing`), slots (`Holding`, `Landing`, `Laying`). An exchange that finds the word of the event a lap ago
//! is the next event's, whatever words the two have: as the pass's own passed word stands, the cell has that event or the next, and their
//! lap bits differ. That an answer rests on a load in the call is said by counts in the view. It counts the loads that found the row to be
//! what the pass had seen, and keeps its length at the last of them: `look` and `Barred` say that the count rose, and that the length is
//! what is seen now. It also counts the loads of passed words, and keeps what the last of them found where that held an event: so `Held`
//! says that a word loaded in the call holds the event. Only a step on the word changes a count (`specs/Plays`).
//!
//! The fields of [`RowBoard`] and [`RowPass`] are the crate's own. Clauses, definitions and proofs of other crates name `terms_of`
//! of a board, and `view`, `slots`, `machine_of` and `worker_number` of a pass (`specs/Passes`).
//!
//! # What it does not say
//!
//! - That an event of a worker is ever placed: others may always come before it, and a worker that does not pass on may hold it for ever.
//! - What lies in the slot of a run that is open and not parked when the board is closed.
//! - Which body becomes the job of a block of the intake into whose slot nothing was laid.
#![tactic(auto)]

mod board;
mod bodies;
mod calls;
mod cell;
mod closing;
mod first_words;
mod gathering;
mod make;
mod pairs;
mod pass;
mod placing;
mod plays;
mod shares;
mod steps;
mod view;
mod words;

pub use board::{Board, RowBoard, RowTable};
pub use cell::{Cell, Slot};
pub use gcd_machine::Put;
pub use pass::{Pass, RowPass};
pub use plays::Lawful;
pub use view::{Copies, Handed, Limits, Next, PassMarks, Standing, Terms, View};

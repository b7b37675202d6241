//! What a queue machine keeps of a history, and how each event changes it: the state of the machine, and the proof that
//! it stands for the history. `gcd_machine` has the code.
//!
//! | file of specs/ | words |
//! |---|---|
//! | `MachineView` | the state: the views of the twelve parts, and the machine's own arrays; `machine_of`, the state of a new machine |
//! | `Ties` | what each part of the state is of a plan and a history, a record for each part |
//! | `Shape`, `Bounds` | how long the arrays are; how large the numbers, and where blocks wait |
//! | `Stands` | `IsTied`: all of these at once |
//! | `Submits`, `After` | what an event submits, empties and wakes; `after`, the state after an event |
//! | `AfterLimits`, `AfterTotals` | what an event makes of the limits of waits; of the numbers and flags, and of who has which run |
//! | `AfterSleepers`, `AfterStrips` | what it makes of who sleeps where; of strips, of blocks as objects and of the intake |
//! | `Sleepers` | words of histories that no part asks: who waits for a block's end or a strip's, who sleeps at an object |
//!
//! `proofs/Tied` has the three sentences on which the machine stands: a new machine's state is tied to the empty history
//! (`tied_begin`), an event that is permitted keeps the tie (`tied_step`), and so each lawful history of a valid plan has a
//! state that is tied to it (`tied_stand`). `proofs/Step` has a file for each part of the state, one event on; the other folders have
//! what these files need: `Groups`, `Semas`, `Sleepers`, `Limits`, `Blocks`, `Lists` and `Bounds`.
//!
//! Histories are the newest event first here: `e ∷ past` is past, followed by e.
#![tactic(auto)]

mod progress;

pub use progress::{BlockProgress, HandlerProgress};

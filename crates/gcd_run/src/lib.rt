//! The top call: from the words of a command line to a text and a status.
//!
//! | part | what it does |
//! |---|---|
//! | [`gcd_main`] | does what the words ask for, and answers [`Ended`]: the number of its status, the journal, and where a script or a journal is refused the place |
//! | [`account_of`] | does the same, and hands on what it found out: the plan of the script and the machine that stands for the journal, or the cause of a refusal ([`Account`], [`Found`]) |
//! | [`Status`] | the ways to end by name, each with its number (`Status::code`) |
//!
//! The words are read (`gcd_words`), the command that they name is done (`gcd_commands`: `run`, `check`, `big` or `front`), and the text
//! that it tells is written. A call ends at the first step that cannot go on; its text is made whole before the first byte is written.
//!
//! The contract of both speaks of one value (`outside`): what the call saw of the shelf, the poller, the clock and the sink
//! (`gcd_outer`), which is whether each tells, and its state before and after the call. `S.Shelf` in a clause means the ghost members of
//! the shelf, and so on. `specs/` has what states the promise (`Ends`, `Statuses`, `Always`). It cites the words of each command, from
//! loads to runs and texts, which are in `specs/` of `gcd_commands`.
//!
//! | clause | says |
//! |---|---|
//! | `ended` (`CallEnds`) | one relation with a rule for each way in which a call ends, with the loads and listens that it took |
//! | `says` (`StatusSays`) | each status promises its case of `Says`. After Drained, Stuck, Misused, Full, and Unread with a Halt, the script declares a valid plan, and the call loaded the script and each file once. The journal is a lawful run of the plan, has at most `--most` events, and has ended in the state of the status (Full: it has `--most` events, and could go on). With one worker, each event of a worker is its choice at that place. The journal records what clock and poller said. The sink took the journal, if it was requested, and the report, which gives each block's value over the loaded bytes. The run of a script keeps the rules of strips and block objects (`KeepsPages`). In a run of `front`, each accepted job is a sender's, and the jobs of each sender are accepted in its order. An ended block of the intake has the value of its job. If the run has come to rest, all jobs of each sender are accepted (`RunsBeside`, `HearsSenders`) |
//! | `always` (`Always`) | what has to be told, a fault of the outside and out of memory aside: the usage line where the words name no command; where a shelf that tells gives cause to stop at a script, a file of it or a journal, that cause; of a journal that `check` reads, that its events are lawful and their state, or the first that is not permitted; that a script of `front` without an intake has none; and if nothing stands in the way, a run comes to its end, and a check to 0 or 9 |
//! | `named` | words that name a command, and that the parser takes, are never answered by the usage line |
//! | `found` of `account_of` (`HandsOn`) | `run`, `big` and `front` hand on the plan that ran, and a machine that stands for the journal of the answer; `check` hands on the plan, and a machine that stands for the journal, or for its events before the first that is not permitted. A command that stops hands on what its stop says: the cause of a refused script is of the code that is told, and its line is the one that is told; the line that declares the file that cannot be read |
//!
//! So what is proved of lawful histories of valid plans (`laws` of `gcd_history`) holds of the journal: blocks of one serial
//! queue never overlap.
//!
//! Nothing is said of a shelf, poller or sink that tells nothing, but that a fault comes only where it failed, and of
//! time only that no Tick is ahead of the clock. By one worker the journal is exact; by more, which worker does what is left to the threads.
//!
//! Where an item names no manual page, what it says is this project's own rule.
#![tactic(auto)]

mod ended;
mod top;

pub use ended::{Account, Ended};
pub use gcd_commands::{Found, Status};
pub use top::{account_of, gcd_main};

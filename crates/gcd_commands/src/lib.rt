//! The commands: what each of `run`, `check`, `big` and `front` does, up to the text that is to be written.
//!
//! | part | what it does |
//! |---|---|
//! | [`tell_run`] | loads a script and its files, listens if an address is given, and runs the plan |
//! | [`tell_check`] | loads a script and a journal, and judges the journal |
//! | [`tell_large`] | runs the large script over a file that is made |
//! | [`tell_front`] | runs a script with an intake beside threads that send jobs for it |
//! | [`Story`] | what each of them gives: a status, a journal, a place, a text and what was found out; [`Story::usage`] is that of words that name no command |
//! | [`Found`] | what each of them found out and hands on: the plan and the machine, or why it stopped |
//! | [`Status`] | the ways to end by name, each with its number ([`Status::code`]) |
//!
//! `run` loads a script and reads it as a plan (`gcd_script`), loads its files in their order, lets the poller listen if an address is
//! given, runs the plan by as many workers and up to as many events as the request says (`gcd_workers`), and makes the text of the journal, if
//! the request asks for it, and the report (`gcd_journal`). `check` loads a script and a journal, of as many events as a run can
//! have, and judges it. `big` runs the large script over a file that is made, up to as many events as a run can have. `front` loads a
//! script, looks whether it has an intake, loads its files, and runs it by four workers beside threads that are no workers
//! (`JobsInput::run_beside` of `gcd_workers`): each sends its jobs by a mouth of a front (`gcd_front`), which has room for all of them, and
//! shuts it. A command ends at the first step that cannot go on.
//!
//! The model of a story is an `End` (`end_of`): the first four, as plain values. The contracts speak of what the call saw of the shelf,
//! the poller and the clock (`gcd_outer`), before and after, and of how many loads and listens it made (`Calls`). `inputs` makes one value
//! of the three; `S.Shelf` in a clause means the ghost members of the shelf, and so on. The words of the clauses are in `specs/Commands`:
//! each says that some calls were made, and gives the relation of the command for them.
//!
//! | clause | says |
//! |---|---|
//! | `reported` of `tell_run` (`RunTells`: `RunEnds`) | why it stopped, and the story of that stop; or the script declares a valid plan, it and each file was loaded once, a listen was made if an address is given, the plan ran (`Ran`), and the story is that of its journal and state |
//! | `reported` of `tell_check` (`CheckTells`: `CheckEnds`) | why it stopped, and the story of that stop; or script and journal were loaded and read, and the story says that the events are lawful, or which is the first that is not permitted |
//! | `reported` of `tell_large` (`BigEnds`) | the plan is that of the large script with so many blocks, its files are the large file, it ran, and the story is that of its journal and state |
//! | `told` of `tell_front` (`FrontTells`: `FrontEnds`) | as `reported` of `tell_run`; each accepted job is one of a sender, those of each sender stand in its order, a block of the intake that has ended has the value of its sender's job, and if the run has come to rest each sender's jobs are all accepted (`HearsSenders`) |
//! | `found` (`RunHands`, `CheckHands`, `HandsOfBig`, `FrontHands`) | the story of `run`, `big` and `front` hands on the plan that ran and a machine that stands for the story's journal; that of `check` hands on the plan, and a machine that stands for the journal, or for its events before the first that is not permitted; a story of a stop hands on why the command stopped (`HandsStop`): the cause of a refusal, which is of the line and code that are told, or the line that declares the file that can't be read, and 0 if that is no file of the script. `big` tells no stop |
//! | `wanting` (`RunBegins`, `IsCheckCount`, `FrontBegins`) | if the answer is `Err`, which loads and listens may have been made |
//! | `kept` of `tell_large`, `tell_front` | no listen was made, and the poller's count of faults did not fall |
//!
//! `Ran` is `RunsPlan` of `gcd_loop` and the end that the state names: a lawful journal, of at most as many events as the request says, of
//! these workers alone, honest to poller and clock, and with one worker the choice at each place. `proofs/Pages` shows of every lawful
//! journal of a valid plan what it keeps of the pages of strips and block objects (`KeepsPages`).
//!
//! Of a shelf or poller that tells nothing, the clauses say only that a fault is told only if it failed. They say nothing of time, nor
//! why memory ran out. A command writes nothing: the top call (`gcd_run`) does that. By one worker the journal is exact; by more, the
//! threads decide which worker does what.
//!
//! If an item names no manual page, what it says is this project's own rule.
#![tactic(auto)]

mod checking;
mod engine;
mod found;
mod front;
mod front_job;
mod large;
mod load;
mod running;
mod senders;
mod status;
mod stop;
mod story;

pub use checking::tell_check;
pub use found::Found;
pub use front::tell_front;
pub use large::tell_large;
pub use running::tell_run;
pub use status::Status;
pub use story::Story;

//! A plan: the objects, blocks and files of a run, with what each block and handler does.
//!
//! Contracts see a [`Plan`] as plain lists by number (`PlanView`); object 0 is the queue `root`, block 0 is `main`.
//!
//! | call | answer |
//! |---|---|
//! | `ObjPart::new`, `BlkPart::new` | an object or block of a name with nothing else declared, or out of memory |
//! | `Name::new`, `as_str` | the name of a block, which takes no memory of its own if it is short, or out of memory; its text |
//! | `Kind::is_queue`, `is_source`, `is_node`, `is_exclusive`, .. | what kind of object it is |
//! | `MisuseCode::code` | the number of a code of misuse, 1 to 8 |
//! | `Plan::of_parts` | the plan of the parts; None exactly where they are no valid plan (`IsPlan`) |
//! | `Plan::fault_of` | a rule that the parts break, and the part at fault (`Breaks`); None exactly where they are a valid plan |
//! | `Plan::of_valid_parts` | the same of parts that the caller knows to be valid |
//! | `Plan::share` | the same plan, whose copies share its parts, or out of memory |
//! | `Plan::copied` | the same plan once more, or out of memory |
//! | `Plan::kinds` | the kinds of all objects, or out of memory |
//! | `objects`, `blocks`, `kind`, `first_target`, .. | what the plan holds, exactly |
//! | `Plan::mark_room`, `limit_room`, `park_room` | of how many blocks a run keeps marks, limits, and what they wait for: of each if an act of the plan needs it, otherwise of none (`specs/Needs`) |
//! | `Plan::intake`, `strips` | where callers from outside hand in closures; the strips of dispatch_apply(3). `specs/Made` says which blocks they have, and over which bytes those of a strip work |
//! | `Act::block`, `strip`, `parks`, `is_for_handlers` | the block, or the strip, that an act submits; whether it waits; whether a handler may have it |
//! | `Kind::folded` | two values in one, as the kind folds them |
//! | `is_name`, `is_path` | the tests of names and paths |
//! | `MAX_OBJECTS`, `MAX_BLOCKS`, .. | how much plans, scripts and runs may hold |
//!
//! `specs/Validity` says which parts are a plan, by `IsPlan`, and `specs/Breaks` what each [`PartsFault`] says of them.
//! `specs/StartRule` has the tests of exclusion and of barriers, and the order of the reasons against a start, over plain data, since the parts of the machine and the
//! definitions over histories both cite it, and `specs/KindValues` what a kind says of values and times. `specs/Limits` has
//! each limit once, for all crates. Lemmas that std lacks stand here, for all crates: `proofs/Sums` on sums and counts,
//! `proofs/Quantifiers` on tests of all or some elements, `proofs/Places` on elements by place, `proofs/Mapped` on what is
//! read through a function, `proofs/Options`, `proofs/Apart` on lists in which nothing stands twice, and `proofs/Walks` on
//! chains.
//!
//! `IsPlan` asks that acts and cancellation blocks submit each block at most once, and that each target is a queue: no event of a run
//! has to look at this again. It bars acts that suspend, resume, activate, retarget, retain or release `root`. `specs/Effects` says
//! what each act does, one row an act. `chain_by` walks any targets: which chain a history has, and when a block may start,
//! `gcd_history` says. So the crate says nothing of a run. `has_effect` says whether a merge changes anything.
#![tactic(auto)]

mod act;
mod copy;
mod held;
mod kind;
mod kinds_valid;
mod limits;
mod limits_valid;
mod made;
mod made_names;
mod made_valid;
mod misuse_code;
mod name;
mod names_once;
mod names_valid;
mod needs;
mod numbers;
mod once_valid;
mod parts;
mod parts_fault;
mod parts_valid;
mod plan;
mod reason;
mod submitted_once;
mod validity;
mod why;
mod work;

pub use act::Act;
pub use kind::Kind;
pub use limits::{
    DEFAULT_UNTIL, MAX_ACTS, MAX_BLOCKS, MAX_EVENTS, MAX_FILE_BYTES, MAX_FILES, MAX_INTAKE,
    MAX_NAME_BYTES, MAX_OBJECTS, MAX_PATH_BYTES, MAX_SCRIPT_BYTES, MAX_SENDERS, MAX_STRIPS,
    MAX_TIME, MAX_VALUE, MAX_WORKERS,
};
pub use misuse_code::MisuseCode;
pub use name::Name;
pub use names_valid::{is_name, is_path};
pub use numbers::{Blk, Obj, Run};
pub use parts::{BlkPart, FilePart, ObjPart, Parts, StripPart};
pub use parts_fault::PartsFault;
pub use plan::Plan;
pub use reason::Reason;
pub use why::Why;
pub use work::{How, WHOLE_FILE, Work};

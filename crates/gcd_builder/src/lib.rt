//! Plans, one thing after the other: what a plan may hold is decided here, for programs and for the parser of scripts (this
//! project's own rules, where no manual page is named).
//!
//! | call | answer |
//! |---|---|
//! | `PlanBuilder::new` | the builder of a plan that has `root` and `main` alone (`empty_plan`); or out of memory |
//! | `queue`, `queue_on`, `inactive_queue`, `group`, `semaphore`, `source`, `timer`, `read_source` | the number of the new object, which was added (`with_object`); or why it was not |
//! | `block`, `work_block` | the same of a block (`with_block`) |
//! | `file`, `strip`, `intake` | the same of a file (`with_file`), a strip (`with_strip`) and the intake (`with_intake`), with their blocks |
//! | `until`, `cancel_block`, `act` | nothing; the last due time, a source's cancellation block, or an act of a body was added (`with_until`, `with_cancel`, `with_act`); or why it was not |
//! | `main`, `body`, `handler` | a chain of acts of that body (`Body`): each of its calls adds an act, up to the first that is refused (`Goes`); `end` returns that refusal |
//! | `PlanBuilder::finish` | the plan of exactly what was added, which is valid (`IsPlan`); or out of memory |
//! | `PlanDraft` | the same additions without a judgement: each requires that it fits |
//!
//! The model of a builder is the plan so far (`BuilderView`), which is always valid, and whether memory has run out. An addition
//! comes about only where it may: `MayAddBlock`, `MayAct` and so on, in `specs/Refusals`, say for each what it requires of names,
//! kinds, ranges and room. A refusal names a rule that is broken (`Breaks`), with the name, number, kind or act at fault, and leaves
//! the builder as it was (`Refuses`). Only for [`BuildFault::Memory`] is no rule named, and after it the builder is of no use.
//!
//! Names are looked up in a hash map whose seed is fixed, and each submitted block and applied strip has its flag. So an addition
//! takes the same time however large the plan is, but for names that were chosen to meet in the map; an intake, a strip and an act
//! that applies a strip take a step for each of their blocks. `finish` looks at each act once, for what a run keeps.
#![tactic(auto)]

mod act_checks;
mod additions;
mod asked;
mod body;
mod builder;
mod changes;
mod checks;
mod draft;
mod fault;
mod fault_part;
mod flags;
mod made;
mod meaning;
mod objects;
mod parts;
mod taken;

pub use asked::Asked;
pub use body::Body;
pub use builder::PlanBuilder;
pub use draft::PlanDraft;
pub use fault::BuildFault;
pub use meaning::Meaning;
pub use taken::may_have;

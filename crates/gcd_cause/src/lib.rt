//! The words for what is in the way: why a line of a script, of a journal, or a word of a command line is refused, why an event may
//! not come at its place, and what a run waits for.
//!
//! | call | tells |
//! |---|---|
//! | [`cause_of_script`], [`cause_of_journal`], [`why_words`] | the cause at a line of a script or a journal, or among the words of a command line |
//! | [`in_the_way`] | what is in the way of an event that may not come |
//! | [`Blame`], [`hold_words`], [`misuse_words`] | what each block waits for, down to the cause; what holds an object; the rule that an act breaks |
//! | [`registered_words`] | why a block that an act has registered is not submitted |
//! | [`Places`] | on which line of a script an act, a block or an object stands |
//! | [`ActWords`], [`EventWords`], [`code_name`] | acts and events as scripts and journals write them, codes by their names |
//! | [`Shown`] | a word of a caller's, as a sentence shows it |
//!
//! So that words can name what is in the way, a [`Scene`] follows the events beside the machine, and a [`Sight`] is both at one place;
//! nothing is judged by them. Proved is that each call answers, whatever it is given. Which words it has is tested by the table of
//! `gcd_why_tests`, a row a sentence: no clause says it. What is promised of sentences is said by `gcd_why`, which makes them.
//!
//! Where an item names no manual page, what it says is this project's own rule.
#![tactic(auto)]

mod another;
mod blame;
mod command;
mod journal;
mod lines;
mod misuses;
mod naming;
mod pick;
mod places;
mod reasons;
mod scene;
mod script;
mod shapes;
mod shown;
mod sight;
mod waits;

pub use blame::Blame;
pub use command::{WordsCause, why_words};
pub use journal::{JournalWords, cause_of_journal};
pub use misuses::{code_name, misuse_words};
pub use naming::{ActWords, EventWords, act_at, kind_of};
pub use places::Places;
pub use reasons::in_the_way;
pub use scene::{BlockNow, Place, Scene};
pub use script::{ScriptCause, cause_of_script};
pub use shown::Shown;
pub use sight::Sight;
pub use waits::{hold_words, registered_words};

//! Why, in sentences: what a script, a journal, a run or the words of a command line are refused for, or ended by. (This project's own
//! rules.)
//!
//! | call | says |
//! |---|---|
//! | [`why_script`] | why the script is refused at that line with that cause, which the parser told |
//! | [`why_journal`] | why the text is no journal at that line with that cause, which the reader told |
//! | [`why_event`] | why an event of a journal is not permitted: the reason that the definitions give (`why`), and what is in the way; the machine of the events before it tells ([`Judged`]) |
//! | [`why_ended`] | of a stuck run what each block waits for, down to the cause; of a stuck or drained one what was left undone; of a misuse the act and the rule; of a full one how far it came, and how to let it go on; the machine of its events tells ([`RunEnd`]) |
//! | [`why_words`] | which word of a command line is refused |
//! | [`Unread`], [`line_of_feed`] | what could not be read; the line of the script that names a feed |
//! | [`Grouped`] | a number with commas |
//! | [`CUT_OFF`], [`NO_INTAKE`] | that standard output cannot be written; that a script has no intake |
//! | [`NO_MEMORY`], [`NO_MEMORY_OR_THREAD`] | that memory ran out; that it did, or that the system makes no thread for a worker |
//!
//! A [`Sentence`] is one line, with the file, as the caller named it, and the line.
//!
//! Nothing is parsed, read or replayed here: the callers hand over the cause that the parser or the reader told, or the machine that
//! stands for the events.
//!
//! Proved is that each call answers, whatever it is given; that a sentence is of that file and line; and that [`why_event`], if the
//! machine stands for the events before the index, names the event there with the reason of the definitions, and nothing exactly where
//! it is permitted or where there is none (`specs/Barred`). Which words a sentence has, `gcd_cause` chooses, and a table tests, a row a
//! sentence: no clause says it.
#![tactic(auto)]

mod barred;
mod declared;
mod event;
mod grouped;
mod journal;
mod named;
mod noting;
mod run;
mod script;
mod sentence;
mod unread;

pub use barred::{Barred, Judged};
pub use event::{EventSentence, why_event};
pub use gcd_cause::{WordsCause, why_words};
pub use grouped::Grouped;
pub use journal::why_journal;
pub use named::{NO_INTAKE, line_of_feed};
pub use run::{RunEnd, why_ended};
pub use script::why_script;
pub use sentence::Sentence;
pub use unread::{CUT_OFF, NO_MEMORY, NO_MEMORY_OR_THREAD, Unread};

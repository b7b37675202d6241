//! Journals: the texts of runs, and their judge (this project's own rules: libdispatch keeps no journal).
//!
//! A journal is the list of a run's events, and as a text a line for each and then `events N`. `specs/Spoken` says which
//! events have a line, `specs/Journals` which texts are journals and at which line any other text is refused, `specs/Causes`
//! for which cause, `specs/Judged` which event is the first that is not permitted; the texts themselves are words of
//! `gcd_history`. `specs/Forms` says which fields follow each word, and what is wrong with a line that spells no event.
//!
//! | call | answer |
//! |---|---|
//! | [`write_journal`] | adds the text (`journal_text`), or nothing where memory runs out |
//! | [`read_journal`] | the events of the text's front up to its line `events N` (`IsJournal`); else `Refused` at exactly the first line at fault (`IsRefusedAt`), with its cause (`IsCausedBy`), or `Memory` |
//! | [`check`] | the state to which lawful events have come (`IsLawfulWith`); else `Unlawful` at exactly the first event that is not permitted (`IsFirstBarred`), or `Memory` |
//! | [`judge`] | what [`check`] finds out, and it leaves a machine that stands for all events, or for those before the first that is not permitted (`HasTaken`) |
//! | [`write_report`] | adds the report of a run (`report_by`), or nothing where memory runs out; it takes the events by a machine of its own |
//! | [`write_report_by`] | the same by a machine that stands for the events; it takes no step of a machine where no object of the plan is a source |
//! | [`jobs_report`] | the report of a run of a caller's own jobs (`jobs_report`), by a machine that stands for the events, or out of memory |
//! | [`laws::journals_are_read_one_way`] | a text is a journal of one list of events at most, and then of no line at fault |
//! | [`laws::refused_lines_have_one_cause`] | the first line at fault has exactly one cause |
//! | [`laws::faultless_lines_are_events`] | nothing is wrong with a line exactly if it is an event's |
//! | [`laws::written_journals_are_read`], [`laws::lawful_events_are_spoken`] | what is written is a journal, whatever follows it; lawful events have lines |
//! | [`laws::one_event_is_barred_first`] | events have at most one first that is not permitted, and lawful ones have none |
//!
//! How the reader is proved: `specs/Spelling` says which event the fields of a line spell; the fields of an event's line spell
//! it (`proofs/Spelled`), and the event that fields spell has a line with these fields (`proofs/SpelledBack`). So a line is one
//! event's at most, and the law follows (`proofs/OneWay`). Each step of the reader asks for the right field, so its cause is that of
//! the line's form (`proofs/Formed`).
//!
//! A look at a line costs its length and one look-up of a name, and a step of the checker what the machine's step costs.
//! bench/journal.sh times both.
//!
//! Nothing here says that a run exists whose journal a text is, or that a lawful journal was recorded by anyone.
#![tactic(auto)]

mod cause;
mod checker;
mod ending;
pub mod laws;
mod lines;
mod names;
mod reader;
mod report;
mod report_of_jobs;
mod spelling;
mod totals;
mod write;

pub use cause::{Field, JournalCause};
pub use checker::{CheckFault, check, judge};
pub use reader::{JournalFault, read_journal};
pub use report::{write_last_line, write_report, write_report_by};
pub use report_of_jobs::jobs_report;
pub use totals::{Replay, Total, replayed};
pub use write::write_journal;
